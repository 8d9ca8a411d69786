//! The part of a net that a fault concerns, marked once for all readings of the fault.
ghost use Rattle.std.specs.Prelude.{◌≡◌, ◌<◌, ◌≤◌, ◌↔◌, ℕ, IfOk, IsTrue, Some, false, length, replicate, slice_get};
ghost use Rattle.gate_graph.specs.Circuit.{net_of};
ghost use Rattle.gate_graph.specs.Search.{IsSeen};
ghost use Rattle.gate_net.specs.Net.{IsLive, Reads};
ghost use Rattle.local_evaluation.specs.Worklists.{ListsMarked};
ghost use Rattle.local_evaluation.specs.Pins.{AreBelow};
ghost use Rattle.local_evaluation.specs.Reaching.{MarksReached};
ghost use Rattle.ternary_sim.specs.Regions.{IsTouched, MarksMore, MarksRegion};

use gate_graph::{Graph, Question};
use local_evaluation::drivers::gate_pins;
use local_evaluation::site::Site;
use local_evaluation::worklist::Worklist;
use rm_base::{NoMemory, NodeId};
use std::alloc::Global;
use std::marker::Model;

/// The nodes that a fault may change, and those from which a path leads to one of them. The marks are made once, for the
/// node numbers below a bound, and serve one fault after another.
#[derive(Drop)]
pub struct Region {
    marks: Worklist,
    waiting: Worklist,
}

impl Model for Region {
    ghost use Rattle.std.specs.Prelude.{Bool, List};

    ghost Value = { List Bool };

    ghost use Rattle.std.specs.Prelude.{◌≡◌, false, length, replicate};

    ghost view = { λ r. r.marks };

    ghost invariant = { λ r. r.waiting ≡ replicate (length r.marks) false };
}

// Marks a number, and lists it where it wasn't marked.
fn mark_one(marks: &mut Worklist, waiting: &mut Worklist, node: NodeId)
    requires marks { node.0 < length marks.old }
    requires waiting { node.0 < length waiting.old }
    ensures marked { MarksMore (λ z. z ≡ node.0) marks.old marks.new waiting.old waiting.new }
    ensures size { length marks.new ≡ length marks.old }
    ensures room { length waiting.new ≡ length waiting.old }
{
    if !marks.has(node) {
        marks.add(node);
        waiting.add(node);
    }
}

// Marks the drivers of a node, and lists those that weren't marked.
fn mark_drivers(graph: &Graph, node: NodeId, marks: &mut Worklist, waiting: &mut Worklist)
    requires node { IsLive (net_of graph.now) node.0 }
    requires marks { length (net_of graph.now).nodes ≤ length marks.old }
    requires waiting { length (net_of graph.now).nodes ≤ length waiting.old }
    ensures marked { MarksMore (λ z. (p : ℕ) × Reads (net_of graph.now) node.0 p z) marks.old marks.new waiting.old waiting.new }
    ensures size { length marks.new ≡ length marks.old }
    ensures room { length waiting.new ≡ length waiting.old }
{
    for driver in gate_pins(graph, node) {
        mark_one(marks, waiting, driver);
    }
}

// Marks the numbers of a list, and lists those that weren't marked.
fn mark_all(numbers: &[u32], marks: &mut Worklist, waiting: &mut Worklist)
    requires marks { AreBelow numbers.now (length marks.old) }
    requires waiting { AreBelow numbers.now (length waiting.old) }
    ensures marked { MarksMore (λ z. (k : ℕ) × (slice_get numbers.now k ≡ Some z)) marks.old marks.new waiting.old waiting.new }
    ensures size { length marks.new ≡ length marks.old }
    ensures room { length waiting.new ≡ length waiting.old }
{
    for number in numbers {
        mark_one(marks, waiting, NodeId(*number));
    }
}

// Marks the gate and what it reaches, and lists those that weren't marked.
fn mark_touched(
    graph: &Graph,
    gate: NodeId,
    site: &Site,
    marks: &mut Worklist,
    waiting: &mut Worklist,
)
    requires gate { IsLive (net_of graph.now) gate.0 }
    requires site { MarksReached (net_of graph.now) gate.0 site.now.reached }
    requires marks { length (net_of graph.now).nodes ≤ length marks.old }
    requires waiting { length (net_of graph.now).nodes ≤ length waiting.old }
    ensures marked { MarksMore (IsTouched (net_of graph.now) gate.0) marks.old marks.new waiting.old waiting.new }
    ensures size { length marks.new ≡ length marks.old }
    ensures room { length waiting.new ≡ length waiting.old }
{
    mark_one(marks, waiting, gate);
    mark_all(site.reached_numbers(), marks, waiting);
}

// Marks what the fault concerns, over a worklist with nothing on. What was marked before is taken off by its list.
fn mark_region(question: &Question<'_>, site: &Site, marks: &mut Worklist, waiting: &mut Worklist)
    requires gate { IsLive (net_of question.now.graph.now) question.now.fault.gate.0 }
    requires site { MarksReached (net_of question.now.graph.now) question.now.fault.gate.0 site.now.reached }
    requires marks { length (net_of question.now.graph.now).nodes ≤ length marks.old }
    requires waiting { length (net_of question.now.graph.now).nodes ≤ length waiting.old }
    requires none { waiting.old ≡ replicate (length waiting.old) false }
    ensures marked { MarksRegion (net_of question.now.graph.now) question.now.fault marks.new }
    ensures size { length marks.new ≡ length marks.old }
    ensures waiting { waiting.new ≡ waiting.old }
{
    marks.clear();
    question.graph.well_formed();
    mark_touched(question.graph, question.fault.gate, site, marks, waiting);
    while let Some(node) = waiting.take() {
        mark_drivers(question.graph, node, marks, waiting);
    }
}

impl Region {
    /// No marks, for node numbers below `numbers`.
    pub fn new(alloc: Global, numbers: u32) -> Result<Region, NoMemory>
        ensures { IfOk result (λ r. r ≡ replicate numbers false) }
    {
        let marks = Worklist::new(alloc, numbers)?;
        let waiting = Worklist::new(alloc, numbers)?;
        Ok(Region { marks, waiting })
    }

    /// Marks what the fault concerns, in place of what was marked before. The site is that of the fault's gate. It takes
    /// the time of those marks and of the pins of the nodes that it marks.
    pub fn mark(&mut self, question: &Question<'_>, site: &Site)
        requires gate { IsLive (net_of question.now.graph.now) question.now.fault.gate.0 }
        requires site { MarksReached (net_of question.now.graph.now) question.now.fault.gate.0 site.now.reached }
        requires room { length (net_of question.now.graph.now).nodes ≤ length self.old }
        ensures marked { MarksRegion (net_of question.now.graph.now) question.now.fault self.new }
        ensures size { length self.new ≡ length self.old }
    {
        mark_region(question, site, &mut self.marks, &mut self.waiting);
    }

    /// Whether the fault concerns the node.
    pub fn has(&self, node: NodeId) -> bool
        ensures { IsTrue result ↔ IsSeen self.now node.0 }
    {
        self.marks.is_on(node)
    }
}
