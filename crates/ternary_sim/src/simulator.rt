// The simulator.
ghost use Rattle.std.specs.Prelude.{◌≡◌, ◌<◌, ◌↔◌, ℕ, Bool, IfOk, IsTrue, length, map, replicate, slice_set};
ghost use Rattle.rm_base.specs.declared.vectors.Value3.TheVariants.{Unknown};
ghost use Rattle.gate_net.specs.Net.{Net, source_count};
ghost use Rattle.gate_net.specs.Values.{IsRun};
ghost use Rattle.gate_net.specs.Forward.{Completes, IsForwardReading, IsTrueAt, MarksDetected, MarksQuiet, both_known_different};
ghost use Rattle.gate_graph.specs.Circuit.{net_of};
ghost use Rattle.local_evaluation.specs.Pins.{AreBelow};
ghost use Rattle.ternary_sim.specs.Marks.{seen, marking, known_source, good_at, faulty_at, equal_at};
ghost use Rattle.ternary_sim.specs.Sims.{Fits};

use crate::marks::{NodeMarks, shown_value};
use crate::reading::read_all;
use gate_graph::{Graph, Question};
use gate_net::readings_hold;
use rm_base::vectors::Value3;
use rm_base::{NoMemory, NodeId, SourceNo};
use std::alloc::Global;
use std::marker::Model;

/// Reads what follows forward from known sources, with and without a fault. It keeps a value for each source and an
/// order of the nodes; it fits every graph that has as many sources and whose live nodes that order lists, drivers first.
#[derive(Debug, Drop)]
pub struct Sim {
    sources: Vec<Value3>,
    order: Vec<NodeId>,
    marks: Vec<NodeMarks>,
}

impl Model for Sim {
    ghost use Rattle.ternary_sim.specs.Sims.{SimState};

    ghost Value = { SimState };

    ghost use Rattle.std.specs.Prelude.{map};
    ghost use Rattle.ternary_sim.specs.Inner.Sims.{IsMarked};

    ghost view = { λ s. record { sources = s.sources.items; order = map (λ n. n.0) s.order.items; marks = s.marks.items } };

    ghost invariant = { λ s. IsMarked (map (λ n. n.0) s.order.items) s.marks.items };
}

impl Sim {
    /// A simulator that fits the graph, with every source unknown.
    pub fn new(alloc: Global, graph: &Graph) -> Result<Sim, NoMemory>
        ensures fits { IfOk result (λ s. Fits s (net_of graph.now)) }
        ensures unknown { IfOk result (λ s. s.sources ≡ replicate (source_count (net_of graph.now)) Unknown) }
    {
        let order = graph.order(alloc)?;
        let sources = graph.source_count() as usize;
        Sim::with_order(alloc, sources, order, graph.node_bound() as usize)
    }

    /// A simulator with that many sources, all unknown, and that order of nodes, whose numbers are below `numbers`.
    pub fn with_order(
        alloc: Global,
        sources: usize,
        order: Vec<NodeId>,
        numbers: usize,
    ) -> Result<Sim, NoMemory>
        requires { AreBelow (map (λ n. n.0) order.items) numbers }
        ensures sources { IfOk result (λ s. s.sources ≡ replicate sources Unknown) }
        ensures order { IfOk result (λ s. s.order ≡ map (λ n. n.0) order.items) }
    {
        let none = NodeMarks {
            good: None,
            faulty: None,
            equal: true,
        };
        let sources = vec![in alloc; Value3::Unknown; sources]?;
        let marks = vec![in alloc; none; numbers]?;
        Ok(Sim {
            sources,
            order,
            marks,
        })
    }

    /// For how many sources it has a value.
    pub fn source_count(&self) -> usize
        ensures { result ≡ length self.now.sources }
    {
        self.sources.len()
    }

    /// Gives a source the value.
    pub fn set(&mut self, source: SourceNo, value: Value3)
        requires { source.0 < length self.old.sources }
        ensures set { self.new ≡ record self.old { sources = slice_set self.old.sources source.0 value } }
        ensures fits { (net : Net) → Fits self.old net → Fits self.new net }
    {
        self.sources[source.0 as usize] = value;
    }

    /// Reads forward from the sources, with the fault and without it. What it then knows holds for every assignment that
    /// gives the set sources their values. It takes no memory, and looks at each pin a few times.
    pub fn run_fault(&mut self, question: &Question<'_>)
        requires fits { Fits self.old (net_of question.now.graph.now) }
        ensures reading { IsForwardReading (net_of question.now.graph.now) question.now.fault (known_source self.new.sources) (marking self.new.marks) }
        ensures sources { self.new.sources ≡ self.old.sources }
        ensures order { self.new.order ≡ self.old.order }
        ensures fits { (net : Net) → Fits self.old net → Fits self.new net }
        ensures sound { (a v f : ℕ → Bool) → Completes (net_of question.now.graph.now) (known_source self.new.sources) a → IsRun (net_of question.now.graph.now) question.now.fault a v f → (x : ℕ) → IsTrueAt (marking self.new.marks) v f x }
    {
        question.graph.well_formed();
        readings_hold();
        read_all(
            question.graph,
            &question.fault,
            self.sources.as_slice(),
            self.order.as_slice(),
            &mut self.marks,
        );
    }

    /// The good value of a node, as it was read last.
    pub fn good(&self, node: NodeId) -> Value3
        ensures { seen result ≡ good_at self.now.marks node.0 }
    {
        match self.marks.get(node.0 as usize) {
            Some(on) => shown_value(on.good),
            None => Value3::Unknown,
        }
    }

    /// The faulty value of a node, as it was read last.
    pub fn faulty(&self, node: NodeId) -> Value3
        ensures { seen result ≡ faulty_at self.now.marks node.0 }
    {
        match self.marks.get(node.0 as usize) {
            Some(on) => shown_value(on.faulty),
            None => Value3::Unknown,
        }
    }

    /// Whether the node was marked equal when it was read last.
    pub fn equal(&self, node: NodeId) -> bool
        ensures { result ≡ equal_at self.now.marks node.0 }
    {
        match self.marks.get(node.0 as usize) {
            Some(on) => on.equal,
            None => true,
        }
    }

    /// Whether some observed node was read with known and different values.
    pub fn is_detected(&self, graph: &Graph) -> bool
        ensures { IsTrue result ↔ MarksDetected (net_of graph.now) (marking self.now.marks) }
    {
        for node in graph.observed_points() {
            if differs(self.good(node), self.faulty(node)) {
                return true;
            }
        }
        false
    }

    /// Whether every observed node was marked equal.
    pub fn quiet(&self, graph: &Graph) -> bool
        ensures { IsTrue result ↔ MarksQuiet (net_of graph.now) (marking self.now.marks) }
    {
        for node in graph.observed_points() {
            if !self.equal(node) {
                return false;
            }
        }
        true
    }
}

fn differs(good: Value3, faulty: Value3) -> bool
    ensures { result ≡ both_known_different (seen good) (seen faulty) }
{
    match (good, faulty) {
        (Value3::Zero, Value3::One) => true,
        (Value3::One, Value3::Zero) => true,
        _ => false,
    }
}
