//! What the faulty gate reaches, and its chain, marked once for all lines of a fault.
ghost use Rattle.std.specs.Prelude.{◌≡◌, ◌≤◌, ◌↔◌, IfOk, IsTrue, false, length, replicate};
ghost use Rattle.gate_graph.specs.Circuit.{net_of};
ghost use Rattle.gate_graph.specs.Search.{IsSeen};
ghost use Rattle.gate_net.specs.Net.{IsLive};
ghost use Rattle.local_evaluation.specs.Worklists.{ListsMarked};
ghost use Rattle.local_evaluation.specs.Reaching.{MarksReached};
ghost use Rattle.local_evaluation.specs.Sites.{IsSiteOf, MarksChain};

use crate::chains::mark_chain;
use crate::reaching::mark_reached;
use crate::worklist::Worklist;
use gate_graph::Graph;
use rm_base::{NoMemory, NodeId};
use std::alloc::Global;
use std::marker::Model;

/// Which nodes a gate reaches, and which are in the chain that begins with it. The marks are made once, for the node
/// numbers below a bound, and serve one gate after another.
#[derive(Drop)]
pub struct Site {
    reached: Worklist,
    chained: Worklist,
    waiting: Worklist,
}

impl Model for Site {
    ghost use Rattle.std.specs.Prelude.{◌≡◌, length, replicate, false};
    ghost use Rattle.local_evaluation.specs.Sites.{SiteMarks};

    ghost Value = { SiteMarks };

    ghost view = { λ s. record { reached = s.reached; chained = s.chained } };

    ghost invariant = { λ s. (s.waiting ≡ replicate (length s.reached) false) × (length s.chained ≡ length s.reached) };
}

impl Site {
    /// No marks, for node numbers below `numbers`.
    pub fn new(alloc: Global, numbers: u32) -> Result<Site, NoMemory>
        ensures { IfOk result (λ s. s ≡ record { reached = replicate numbers false; chained = replicate numbers false }) }
    {
        let reached = Worklist::new(alloc, numbers)?;
        let chained = Worklist::new(alloc, numbers)?;
        let waiting = Worklist::new(alloc, numbers)?;
        Ok(Site {
            reached,
            chained,
            waiting,
        })
    }

    /// Marks what the gate reaches, in place of what was marked so before. It takes the time of those marks and of the
    /// pins that are reached.
    pub fn mark_reached(&mut self, graph: &Graph, gate: NodeId)
        requires gate { IsLive (net_of graph.now) gate.0 }
        requires room { length (net_of graph.now).nodes ≤ length self.old.reached }
        ensures marked { MarksReached (net_of graph.now) gate.0 self.new.reached }
        ensures chained { self.new.chained ≡ self.old.chained }
        ensures size { length self.new.reached ≡ length self.old.reached }
    {
        mark_reached(graph, gate, &mut self.reached, &mut self.waiting);
    }

    /// Marks the gate's chain, in place of what was marked so before. It takes the time of those marks and of the
    /// readers of the chain.
    pub fn mark_chain(&mut self, graph: &Graph, gate: NodeId)
        requires gate { IsLive (net_of graph.now) gate.0 }
        requires room { length (net_of graph.now).nodes ≤ length self.old.reached }
        ensures marked { MarksChain (net_of graph.now) gate.0 self.new.chained }
        ensures reached { self.new.reached ≡ self.old.reached }
    {
        mark_chain(graph, gate, &mut self.chained);
    }

    /// Marks what the gate reaches and its chain, in place of what was marked before. It takes the time of those marks
    /// and of the pins that are reached.
    pub fn mark(&mut self, graph: &Graph, gate: NodeId)
        requires gate { IsLive (net_of graph.now) gate.0 }
        requires room { length (net_of graph.now).nodes ≤ length self.old.reached }
        ensures marked { IsSiteOf (net_of graph.now) gate.0 self.new }
        ensures size { length self.new.reached ≡ length self.old.reached }
    {
        self.mark_reached(graph, gate);
        self.mark_chain(graph, gate);
    }

    /// The numbers of the nodes that the gate reaches.
    pub fn reached_numbers(&self) -> &[u32]
        ensures { ListsMarked self.now.reached result.now }
    {
        self.reached.numbers()
    }

    /// Whether the gate reaches the node.
    pub fn is_reached(&self, node: NodeId) -> bool
        ensures { IsTrue result ↔ IsSeen self.now.reached node.0 }
    {
        self.reached.is_on(node)
    }

    /// Whether the node is in the gate's chain.
    pub fn is_chained(&self, node: NodeId) -> bool
        ensures { IsTrue result ↔ IsSeen self.now.chained node.0 }
    {
        self.chained.is_on(node)
    }
}
