// The facts that are held in the branch that is read, and taking them back.
ghost use Rattle.std.specs.Prelude.{◌≡◌, ◌<◌, ◌≤◌, [], IfOk, OnOk, length, take};
ghost use Rattle.gate_graph.specs.Circuit.{net_of};
ghost use Rattle.refutation.specs.FactSets.{held_by};
ghost use Rattle.refutation.specs.Facts.{with_fact};
ghost use Rattle.refutation_check.specs.Inner.Notes.{HasMore, IsTrail, held_of};

use gate_graph::Graph;
use refutation::{Fact, FactSet};
use rm_base::{NoMemory, NodeId};
use std::alloc::Global;
use std::marker::Model;

/// A fact that came to be held.
#[derive(Clone, Copy, Debug, PartialEq, Eq)]
pub(crate) struct HeldFact {
    node: NodeId,
    fact: Fact,
}

/// Which facts are held, and in which order they came.
#[derive(Debug, Drop)]
pub(crate) struct Trail {
    facts: FactSet,
    entries: Vec<HeldFact>,
}

impl Model for Trail {
    ghost use Rattle.refutation_check.specs.Inner.Notes.{Notes};

    ghost Value = { Notes };

    ghost use Rattle.std.specs.Prelude.{length};
    ghost use Rattle.refutation_check.specs.Inner.Notes.{IsTrail};

    ghost view = { λ t. record { numbers = length t.facts; entries = t.entries.items } };

    ghost invariant = { λ t. IsTrail t.facts t.entries.items };
}

// Takes back the facts that came after the mark.
fn take_back(facts: &mut FactSet, entries: &mut Vec<HeldFact>, mark: usize)
    requires trail { IsTrail facts.old entries.old.items }
    requires mark { mark ≤ length entries.old.items }
    ensures trail { IsTrail facts.new entries.new.items }
    ensures size { length facts.new ≡ length facts.old }
    ensures entries { entries.new.items ≡ take mark entries.old.items }
{
    while entries.len() > mark {
        let Some(last) = entries.pop() else {
            return;
        };
        facts.remove(last.node, last.fact);
    }
}

impl Trail {
    /// No fact, for the node numbers of the graph.
    pub(crate) fn new(alloc: Global, graph: &Graph) -> Result<Trail, NoMemory>
        ensures { IfOk result (λ t. t ≡ record { numbers = length (net_of graph.now).nodes; entries = [] }) }
    {
        Trail::for_numbers(alloc, graph.node_bound())
    }

    /// No fact, for the node numbers below `numbers`.
    pub(crate) fn for_numbers(alloc: Global, numbers: u32) -> Result<Trail, NoMemory>
        ensures { IfOk result (λ t. t ≡ record { numbers = numbers; entries = [] }) }
    {
        let facts = FactSet::for_numbers(alloc, numbers)?;
        let entries = Vec::new(alloc);
        Ok(Trail { facts, entries })
    }

    /// The facts that are held.
    pub(crate) fn facts(&self) -> &FactSet
        ensures held { held_by result.now ≡ held_of self.now.entries }
        ensures size { length result.now ≡ self.now.numbers }
    {
        &self.facts
    }

    /// How many facts came, to come back to.
    pub(crate) fn mark(&self) -> usize
        ensures { result ≡ length self.now.entries }
    {
        self.entries.len()
    }

    /// Holds the fact too.
    pub(crate) fn hold(&mut self, node: NodeId, fact: Fact) -> Result<(), NoMemory>
        requires { node.0 < self.old.numbers }
        ensures held { OnOk result (held_of self.new.entries ≡ with_fact (held_of self.old.entries) node.0 fact) }
        ensures more { OnOk result (HasMore self.old self.new) }
        ensures numbers { self.new.numbers ≡ self.old.numbers }
    {
        if self.facts.holds(node, fact) {
            return Ok(());
        }
        self.entries.push(HeldFact { node, fact })?;
        self.facts.insert(node, fact);
        Ok(())
    }

    /// Holds again what was held at the mark.
    pub(crate) fn undo_to(&mut self, mark: usize)
        requires { mark ≤ length self.old.entries }
        ensures { self.new ≡ record self.old { entries = take mark self.old.entries } }
    {
        take_back(&mut self.facts, &mut self.entries, mark);
    }
}
