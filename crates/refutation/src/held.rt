// Sets of facts.
ghost use Rattle.std.specs.Prelude.{◌≡◌, ◌<◌, ◌↔◌, List, length, IfOk, IsTrue, slice_set, slice_index_or, ℕ, suc, false};
ghost use Rattle.gate_graph.specs.Circuit.{net_of};
ghost use Rattle.refutation.specs.Facts.{with_fact, without_fact, AreOpposed};
ghost use Rattle.refutation.specs.FactSets.{held_by, is_marked, missing, Becomes};
ghost use Rattle.refutation.specs.Inner.FactSets.{marked};
ghost use Rattle.refutation.specs.declared.held.NodeFacts.{NodeFacts};
ghost use Rattle.refutation.specs.declared.reasoning.Fact.{Fact};

use crate::reasoning::Fact;
use gate_graph::Graph;
use rm_base::{NoMemory, NodeId};
use std::alloc::Global;
use std::marker::Model;

/// Which facts are held on one node.
#[derive(Clone, Copy, Debug, PartialEq, Eq)]
pub struct NodeFacts {
    good_is_0: bool,
    good_is_1: bool,
    faulty_is_0: bool,
    faulty_is_1: bool,
    equal: bool,
    differs: bool,
}

/// Which facts are held, on the nodes of a graph.
#[derive(Debug, Drop)]
pub struct FactSet {
    nodes: Vec<NodeFacts>,
}

impl Model for FactSet {
    ghost use Rattle.std.specs.Prelude.{List};
    ghost use Rattle.refutation.specs.declared.held.NodeFacts.{NodeFacts};

    ghost Value = { List NodeFacts };

    ghost view = { λ f. f.nodes.items };
}

fn mark_of(on: NodeFacts, fact: Fact) -> bool
    ensures { result ≡ is_marked on fact }
{
    match fact {
        Fact::Good(false) => on.good_is_0,
        Fact::Good(true) => on.good_is_1,
        Fact::Faulty(false) => on.faulty_is_0,
        Fact::Faulty(true) => on.faulty_is_1,
        Fact::Equal => on.equal,
        Fact::Differs => on.differs,
    }
}

fn with_mark(on: NodeFacts, fact: Fact, held: bool) -> NodeFacts
    ensures { result ≡ marked on fact held }
{
    match fact {
        Fact::Good(false) => NodeFacts {
            good_is_0: held,
            ..on
        },
        Fact::Good(true) => NodeFacts {
            good_is_1: held,
            ..on
        },
        Fact::Faulty(false) => NodeFacts {
            faulty_is_0: held,
            ..on
        },
        Fact::Faulty(true) => NodeFacts {
            faulty_is_1: held,
            ..on
        },
        Fact::Equal => NodeFacts { equal: held, ..on },
        Fact::Differs => NodeFacts {
            differs: held,
            ..on
        },
    }
}

fn write_mark(nodes: &mut Vec<NodeFacts>, place: usize, fact: Fact, held: bool)
    requires { place < length nodes.old.items }
    ensures { (r : NodeFacts) → nodes.new.items ≡ slice_set nodes.old.items place (marked (slice_index_or nodes.old.items place r) fact held) }
{
    let on = nodes[place];
    nodes[place] = with_mark(on, fact, held);
}

impl FactSet {
    /// No fact, for the node numbers of the graph.
    pub fn new(alloc: Global, graph: &Graph) -> Result<FactSet, NoMemory>
        ensures size { IfOk result (λ f. length f ≡ length (net_of graph.now).nodes) }
        ensures none { IfOk result (λ f. (x : ℕ) (fact : Fact) → held_by f x fact ≡ false) }
    {
        FactSet::for_numbers(alloc, graph.node_bound())
    }

    /// No fact, for the node numbers below `numbers`.
    pub fn for_numbers(alloc: Global, numbers: u32) -> Result<FactSet, NoMemory>
        ensures size { IfOk result (λ f. length f ≡ numbers) }
        ensures none { IfOk result (λ f. (x : ℕ) (fact : Fact) → held_by f x fact ≡ false) }
    {
        let none = NodeFacts {
            good_is_0: false,
            good_is_1: false,
            faulty_is_0: false,
            faulty_is_1: false,
            equal: false,
            differs: false,
        };
        let nodes = vec![in alloc; none; numbers as usize]?;
        Ok(FactSet { nodes })
    }

    /// For how many node numbers the set was made.
    pub fn len(&self) -> usize
        ensures { result ≡ length self.now }
    {
        self.nodes.len()
    }

    /// The same facts.
    pub fn copy(&self, alloc: Global) -> Result<FactSet, NoMemory>
        ensures { IfOk result (λ f. f ≡ self.now) }
    {
        let nodes = self.nodes.to_vec(alloc)?;
        Ok(FactSet { nodes })
    }

    /// Whether the fact is held.
    pub fn holds(&self, node: NodeId, fact: Fact) -> bool
        requires { node.0 < length self.now }
        ensures { result ≡ held_by self.now node.0 fact }
    {
        mark_of(self.nodes[node.0 as usize], fact)
    }

    /// Whether two opposed facts are held on the node.
    pub fn is_opposed(&self, node: NodeId) -> bool
        requires { node.0 < length self.now }
        ensures { IsTrue result ↔ AreOpposed (held_by self.now) node.0 }
    {
        (self.holds(node, Fact::Good(false)) && self.holds(node, Fact::Good(true)))
            || (self.holds(node, Fact::Faulty(false)) && self.holds(node, Fact::Faulty(true)))
            || (self.holds(node, Fact::Equal) && self.holds(node, Fact::Differs))
    }

    /// Holds the fact too. A fact that was not held is then missing no longer.
    pub fn insert(&mut self, node: NodeId, fact: Fact)
        requires { node.0 < length self.old }
        ensures facts { Becomes self.old self.new (with_fact (held_by self.old) node.0 fact) }
        ensures missing { held_by self.old node.0 fact ≡ false → suc (missing self.new) ≡ missing self.old }
    {
        write_mark(&mut self.nodes, node.0 as usize, fact, true);
    }

    /// Holds the fact no longer.
    pub fn remove(&mut self, node: NodeId, fact: Fact)
        requires { node.0 < length self.old }
        ensures { Becomes self.old self.new (without_fact (held_by self.old) node.0 fact) }
    {
        write_mark(&mut self.nodes, node.0 as usize, fact, false);
    }
}
