//! Which gates are to be looked at.
ghost use Rattle.std.specs.Prelude.{◌≡◌, ◌<◌, ◌≤◌, ℕ, [], IfOk, IsTrue, List, OnOk, false, length, replicate, suc, take, true, zero};
ghost use Rattle.gate_net.specs.Net.{IsLive};
ghost use Rattle.gate_graph.specs.Circuit.{net_of};
ghost use Rattle.gate_graph.specs.Search.{IsSeen};
ghost use Rattle.refutation.specs.Worklists.{IsTaken};
ghost use Rattle.refutation.specs.FactSets.{held_by};
ghost use Rattle.recursive_learning.specs.Inner.Holding.{ListsNodes, NamesAll, NamesKnown};
ghost use Rattle.recursive_learning.specs.Resting.{IsWatched};
ghost use Rattle.recursive_learning.specs.Watching.{HasRoom, IsListedAt, LeavesList, StillLists};
ghost use Rattle.recursive_learning.specs.Inner.Watching.{HasNoneListed, IsAround, IsBlank, ListsChanged, RestsOn};

use crate::good_nodes::{list_nodes, push_added, push_known};
use crate::resting::Rests;
use gate_graph::Graph;
use refutation::worklist::Worklist;
use refutation::{Fact, FactSet};
use rm_base::{NoMemory, NodeId};
use std::alloc::Global;

/// The gates that are to be looked at, and the places on which what is known of the others rests. Where `all` is set,
/// nothing is known of any gate. `first` has the nodes whose good values are held without being among the facts that the
/// engine added.
#[derive(Drop)]
pub struct Watch {
    alloc: Global,
    all: bool,
    listed: Worklist,
    rests: Rests,
    first: Vec<NodeId>,
}

/// What to come back to by `take_back`.
#[derive(Clone, Copy, Debug)]
pub struct WatchMark {
    all: bool,
    count: usize,
}

impl Watch {
    /// Nothing is known, for node numbers below `numbers`.
    pub fn new(alloc: Global, numbers: u32) -> Result<Watch, NoMemory>
        ensures blank { IfOk result IsBlank }
        ensures rests { IfOk result (λ w. w.rests.numbers ≡ numbers) }
        ensures listed { IfOk result (λ w. length w.listed ≡ numbers) }
    {
        Ok(Watch {
            alloc,
            all: true,
            listed: Worklist::new(alloc, numbers)?,
            rests: Rests::new(alloc, numbers)?,
            first: Vec::new(alloc),
        })
    }

    /// Where it takes its memory.
    pub fn alloc(&self) -> Global {
        self.alloc
    }

    /// The nodes whose good values may be held: those that it began with, and those of good values among added facts.
    pub fn good_nodes(&self, added: &[(NodeId, Fact)]) -> Result<Vec<NodeId>, NoMemory>
        ensures { IfOk result (λ v. NamesAll self.now added.now v.items) }
    {
        let mut nodes = Vec::new(self.alloc);
        nodes.extend_from_slice(&self.first)?;
        push_added(added, &mut nodes)?;
        Ok(nodes)
    }

    /// Lists the gates whose good values may be held, where nothing is known of any: no other has anything to teach.
    pub fn begin(&mut self, added: &[(NodeId, Fact)]) -> Result<(), NoMemory>
        ensures known { OnOk result (self.new.all ≡ false) }
        ensures goods { OnOk result (self.old.all ≡ true → (nodes : List NodeId) × (NamesAll self.old added.now nodes × ListsNodes nodes self.new.listed)) }
        ensures same { OnOk result (self.old.all ≡ false → self.new.listed ≡ self.old.listed) }
        ensures rests { self.new.rests ≡ self.old.rests }
        ensures first { self.new.first ≡ self.old.first }
        ensures size { length self.new.listed ≡ length self.old.listed }
    {
        if !self.all {
            return Ok(());
        }
        let nodes = self.good_nodes(added)?;
        list_nodes(&nodes, &mut self.listed);
        self.all = false;
        Ok(())
    }

    /// Whether there is room for the node numbers of the graph.
    pub fn has_room(&self, graph: &Graph) -> bool
        ensures { IsTrue result → HasRoom (net_of graph.now) self.now }
    {
        if self.rests.numbers() != self.listed.len() {
            return false;
        }
        graph.node_bound() as usize <= self.listed.len()
    }

    /// Takes a gate off the list; None where there is none.
    pub fn take(&mut self) -> Option<NodeId>
        ensures taken { IsTaken self.old.listed self.new.listed result }
        ensures all { self.new.all ≡ self.old.all }
        ensures rests { self.new.rests ≡ self.old.rests }
        ensures first { self.new.first ≡ self.old.first }
    {
        self.listed.take()
    }

    /// Lists a node.
    pub fn list(&mut self, node: NodeId)
        requires { node.0 < length self.old.listed }
        ensures still { StillLists self.old self.new }
        ensures there { IsSeen self.new.listed node.0 }
    {
        self.listed.add(node);
    }

    // Lists a node, and the gates that rest on it.
    fn list_at(&mut self, place: NodeId)
        requires place { place.0 < self.old.rests.numbers }
        requires gates { self.old.rests.numbers ≡ length self.old.listed }
        ensures still { StillLists self.old self.new }
        ensures there { IsListedAt self.new place.0 }
    {
        self.listed.add(place);
        self.rests.list_at(place, &mut self.listed);
    }

    // Lists a node and its readers, and the gates that rest on these.
    fn list_around(&mut self, graph: &Graph, node: NodeId)
        requires { HasRoom (net_of graph.now) self.old }
        ensures still { StillLists self.old self.new }
        ensures around { IsLive (net_of graph.now) node.0 → (z : ℕ) → IsAround (net_of graph.now) node.0 z → IsListedAt self.new z }
    {
        graph.well_formed();
        graph.readers_listed();
        let Some(_kind) = graph.kind(node) else {
            return;
        };
        self.list_at(node);
        for reader in graph.readers_of(node) {
            self.list_at(reader);
        }
    }

    /// Lists the gates around added facts, and those that rest on places around them.
    pub fn list_changed(&mut self, graph: &Graph, added: &[(NodeId, Fact)])
        requires { HasRoom (net_of graph.now) self.old }
        ensures still { StillLists self.old self.new }
        ensures changed { ListsChanged (net_of graph.now) added.now self.new }
    {
        for entry in added {
            self.list_around(graph, entry.0);
        }
    }

    // What is known of the gate rests on a node and its readers.
    fn rest_around(&mut self, graph: &Graph, gate: NodeId, node: NodeId) -> Result<(), NoMemory>
        requires room { HasRoom (net_of graph.now) self.old }
        requires gate { gate.0 < self.old.rests.numbers }
        ensures leaves { OnOk result (LeavesList self.old self.new) }
        ensures around { OnOk result (IsLive (net_of graph.now) node.0 → (z : ℕ) → IsAround (net_of graph.now) node.0 z → IsWatched self.new.rests.entries z gate.0) }
    {
        graph.well_formed();
        graph.readers_listed();
        let Some(_kind) = graph.kind(node) else {
            return Ok(());
        };
        self.rests.add(gate, node)?;
        for reader in graph.readers_of(node) {
            self.rests.add(gate, reader)?;
        }
        Ok(())
    }

    // What is known of the gate rests on the places around added facts.
    fn rest_on(
        &mut self,
        graph: &Graph,
        gate: NodeId,
        added: &[(NodeId, Fact)],
    ) -> Result<(), NoMemory>
        requires room { HasRoom (net_of graph.now) self.old }
        requires gate { gate.0 < self.old.rests.numbers }
        ensures leaves { OnOk result (LeavesList self.old self.new) }
        ensures region { OnOk result (RestsOn (net_of graph.now) added.now self.new.rests.entries gate.0) }
    {
        for entry in added {
            self.rest_around(graph, gate, entry.0)?;
        }
        Ok(())
    }

    /// What is known of the gate at depth 0 rests on the places around added facts. Nothing is put down of other depths,
    /// or where nothing is known.
    pub fn rest_on_region(
        &mut self,
        graph: &Graph,
        gate: NodeId,
        added: &[(NodeId, Fact)],
        depth: u8,
    ) -> Result<(), NoMemory>
        requires room { HasRoom (net_of graph.now) self.old }
        requires gate { gate.0 < self.old.rests.numbers }
        ensures leaves { OnOk result (LeavesList self.old self.new) }
        ensures region { OnOk result (depth ≡ 0 → self.old.all ≡ false → RestsOn (net_of graph.now) added.now self.new.rests.entries gate.0) }
    {
        if depth > 0 {
            return Ok(());
        }
        if self.all {
            return Ok(());
        }
        self.rest_on(graph, gate, added)
    }

    /// What there is now, to come back to by `take_back`.
    pub fn mark(&self) -> WatchMark
        ensures all { result.all ≡ self.now.all }
        ensures count { result.count ≡ length self.now.rests.entries }
    {
        WatchMark {
            all: self.all,
            count: self.rests.count(),
        }
    }

    /// Takes back what came after the mark, where no gate was listed.
    pub fn take_back(&mut self, mark: WatchMark)
        requires { mark.count ≤ length self.old.rests.entries }
        ensures all { self.new.all ≡ mark.all }
        ensures listed { self.new.listed ≡ replicate (length self.old.listed) false }
        ensures entries { self.new.rests.entries ≡ take mark.count self.old.rests.entries }
        ensures numbers { self.new.rests.numbers ≡ self.old.rests.numbers }
        ensures first { self.new.first ≡ self.old.first }
    {
        self.all = mark.all;
        self.listed.clear();
        self.rests.take_back(mark.count);
    }

    /// Forgets what is known.
    pub fn forget(&mut self)
        ensures blank { IsBlank self.new }
        ensures size { length self.new.listed ≡ length self.old.listed }
        ensures numbers { self.new.rests.numbers ≡ self.old.rests.numbers }
        ensures first { self.new.first ≡ self.old.first }
    {
        self.all = true;
        self.listed.clear();
        self.rests.take_back(0);
    }

    /// Forgets what is known, and begins with the good values that are known. It goes over the whole net.
    pub fn begin_with(&mut self, graph: &Graph, facts: &FactSet) -> Result<(), NoMemory>
        requires { length (net_of graph.now).nodes ≤ length facts.now }
        ensures blank { OnOk result (IsBlank self.new) }
        ensures size { length self.new.listed ≡ length self.old.listed }
        ensures numbers { self.new.rests.numbers ≡ self.old.rests.numbers }
        ensures first { OnOk result (NamesKnown (net_of graph.now) (held_by facts.now) self.new.first.items) }
    {
        self.forget();
        self.first.clear();
        push_known(graph, facts, &mut self.first)
    }
}
