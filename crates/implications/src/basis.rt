//! The facts that closing in place begins with, and comes back to.
ghost use Rattle.std.specs.Prelude.{◌≡◌, ◌<◌, ◌≤◌, ◌+◌, ℕ, Some, IfOk, IsTrue, OnOk, false, length, replicate, slice_get};
ghost use Rattle.gate_graph.specs.Circuit.{net_of};
ghost use Rattle.gate_graph.specs.Search.{IsSeen, AreBelow};
ghost use Rattle.refutation.specs.FactSets.{held_by};
ghost use Rattle.implications.specs.Bases.{ArePinless, FitsBelow, HasRoom, IsFitted, IsRest, TakesEquals};
ghost use Rattle.implications.specs.Inner.Bases.{AreAllOn, IsAmongNumbers, PutsBack};

use crate::beginning::is_pinless;
use gate_graph::Graph;
use refutation::worklist::Worklist;
use refutation::{Fact, FactSet};
use rm_base::{NoMemory, NodeId};
use std::alloc::Global;

/// The facts that are closed in place for one fault after another on a net. At rest each live node is equal, and nothing
/// else is held. While the facts of a fault are closed, `taken` lists the nodes that aren't equal from the start: the
/// faulty gate and what it reaches. `pinless` are the gates without pins.
#[derive(Drop)]
pub struct Basis {
    pub numbers: u32,
    pub facts: FactSet,
    pub taken: Worklist,
    pub pinless: Vec<NodeId>,
}

// Holds that the node is equal, where it is live, and lists it, where it is a gate without pins.
fn fit_node(
    graph: &Graph,
    facts: &mut FactSet,
    pinless: &mut Vec<NodeId>,
    node: NodeId,
) -> Result<(), NoMemory>
    requires node { node.0 < length facts.old }
    ensures fits { OnOk result (FitsBelow (net_of graph.now) node.0 facts.old pinless.old.items → FitsBelow (net_of graph.now) (node.0 + 1) facts.new pinless.new.items) }
    ensures size { length facts.new ≡ length facts.old }
{
    if graph.kind(node).is_none() {
        return Ok(());
    }
    facts.insert(node, Fact::Equal);
    if is_pinless(graph, node) {
        pinless.push(node)?;
    }
    Ok(())
}

// Holds that each live node is equal, over no facts, and lists the gates without pins.
fn fit_all(graph: &Graph, facts: &mut FactSet, pinless: &mut Vec<NodeId>) -> Result<(), NoMemory>
    requires room { length (net_of graph.now).nodes ≤ length facts.old }
    requires none { FitsBelow (net_of graph.now) 0 facts.old pinless.old.items }
    ensures rest { OnOk result (IsRest (net_of graph.now) (held_by facts.new)) }
    ensures pinless { OnOk result (ArePinless (net_of graph.now) pinless.new.items) }
    ensures size { length facts.new ≡ length facts.old }
{
    for number in 0..graph.node_bound() {
        fit_node(graph, facts, pinless, NodeId(number))?;
    }
    Ok(())
}

/// The node isn't equal any more.
pub(crate) fn take_equal(facts: &mut FactSet, taken: &mut Worklist, node: NodeId)
    requires facts { node.0 < length facts.old }
    requires taken { node.0 < length taken.old }
    ensures { TakesEquals (λ (z : ℕ). z ≡ node.0) facts.old taken.old facts.new taken.new }
{
    taken.add(node);
    facts.remove(node, Fact::Equal);
}

/// The nodes of the list aren't equal any more.
pub(crate) fn take_equals(numbers: &[u32], facts: &mut FactSet, taken: &mut Worklist)
    requires facts { AreBelow numbers.now (length facts.old) }
    requires taken { AreBelow numbers.now (length taken.old) }
    ensures { TakesEquals (IsAmongNumbers numbers.now) facts.old taken.old facts.new taken.new }
{
    for number in numbers {
        take_equal(facts, taken, NodeId(*number));
    }
}

/// The nodes that were taken are equal again.
pub(crate) fn put_back(facts: &mut FactSet, taken: &mut Worklist)
    requires { length taken.old ≤ length facts.old }
    ensures held { PutsBack taken.old (held_by facts.old) (held_by facts.new) }
    ensures none { taken.new ≡ replicate (length taken.old) false }
    ensures size { length facts.new ≡ length facts.old }
{
    while let Some(node) = taken.take() {
        facts.insert(node, Fact::Equal);
    }
}

/// Puts the gates without pins on the worklist.
pub(crate) fn list_all(nodes: &[NodeId], worklist: &mut Worklist)
    requires { (k : ℕ) (n : NodeId) → slice_get nodes.now k ≡ Some n → n.0 < length worklist.old }
    ensures all { AreAllOn nodes.now worklist.new }
    ensures kept { (z : ℕ) → IsSeen worklist.old z → IsSeen worklist.new z }
    ensures size { length worklist.new ≡ length worklist.old }
{
    for node in nodes {
        worklist.add(*node);
    }
}

impl Basis {
    /// For node numbers below `numbers`; it fits no net yet.
    pub fn new(alloc: Global, numbers: u32) -> Result<Basis, NoMemory>
        ensures numbers { IfOk result (λ b. b.numbers ≡ numbers) }
        ensures facts { IfOk result (λ b. length b.facts ≡ numbers) }
        ensures taken { IfOk result (λ b. length b.taken ≡ numbers) }
    {
        Ok(Basis {
            numbers,
            facts: FactSet::for_numbers(alloc, numbers)?,
            taken: Worklist::new(alloc, numbers)?,
            pinless: Vec::new(alloc),
        })
    }

    /// Whether there is room for the node numbers of the graph.
    pub fn has_room(&self, graph: &Graph) -> bool
        ensures { IsTrue result → HasRoom (net_of graph.now) self.now }
    {
        if self.numbers < graph.node_bound() {
            return false;
        }
        if self.facts.len() != self.numbers as usize {
            return false;
        }
        self.taken.len() == self.numbers as usize
    }

    /// At rest for the net of the graph: the one call that goes over all of it.
    pub fn fit(&mut self, alloc: Global, graph: &Graph) -> Result<(), NoMemory>
        requires room { HasRoom (net_of graph.now) self.old }
        ensures fitted { OnOk result (IsFitted (net_of graph.now) self.new) }
        ensures room { OnOk result (HasRoom (net_of graph.now) self.new) }
    {
        self.taken.clear();
        self.pinless.clear();
        self.facts = FactSet::for_numbers(alloc, self.numbers)?;
        fit_all(graph, &mut self.facts, &mut self.pinless)
    }
}
