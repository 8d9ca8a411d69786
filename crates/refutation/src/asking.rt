//! What the faulty gate reaches, and its chain, each marked when a line first asks for it.
ghost use Rattle.std.specs.Prelude.{◌≡◌, ◌↔◌, IfOk, IsTrue, false, length, replicate};
ghost use Rattle.gate_graph.specs.Circuit.{net_of};
ghost use Rattle.gate_net.specs.Net.{IsLive};
ghost use Rattle.gate_net.specs.Paths.{IsInChain, Reaches};
ghost use Rattle.refutation.specs.Sites.{Serves};

use crate::site::Site;
use gate_graph::Graph;
use rm_base::{NoMemory, NodeId};
use std::alloc::Global;
use std::marker::Model;

/// A site that is marked by halves, each when it is first asked for. It serves one gate of one net after another.
#[derive(Drop)]
pub struct AskedSite {
    site: Site,
    has_reached: bool,
    has_chained: bool,
}

impl Model for AskedSite {
    ghost use Rattle.refutation.specs.Sites.{AskedMarks};

    ghost Value = { AskedMarks };

    ghost view = { λ s. record { marks = s.site; has_reached = s.has_reached; has_chained = s.has_chained } };
}

impl AskedSite {
    /// No marks, for node numbers below `numbers`.
    pub fn new(alloc: Global, numbers: u32) -> Result<AskedSite, NoMemory>
        ensures { IfOk result (λ s. s ≡ record { marks = record { reached = replicate numbers false; chained = replicate numbers false }; has_reached = false; has_chained = false }) }
    {
        let site = Site::new(alloc, numbers)?;
        Ok(AskedSite {
            site,
            has_reached: false,
            has_chained: false,
        })
    }

    /// Goes to another gate or another net: nothing was asked yet.
    pub fn forget(&mut self)
        ensures { self.new ≡ record self.old { has_reached = false; has_chained = false } }
    {
        self.has_reached = false;
        self.has_chained = false;
    }

    /// Whether the gate reaches the node. The first call of a node with pins takes the time of the pins that are reached.
    pub fn is_reached(&mut self, graph: &Graph, gate: NodeId, node: NodeId) -> bool
        requires gate { IsLive (net_of graph.now) gate.0 }
        requires serves { Serves (net_of graph.now) gate.0 self.old }
        ensures serves { Serves (net_of graph.now) gate.0 self.new }
        ensures size { length self.new.marks.reached ≡ length self.old.marks.reached }
        ensures reached { IsTrue result ↔ Reaches (net_of graph.now) gate.0 node.0 }
    {
        let Some(_) = graph.driver(node, 0) else {
            return false;
        };
        if !self.has_reached {
            self.site.mark_reached(graph, gate);
            self.has_reached = true;
        }
        self.site.is_reached(node)
    }

    /// Whether the node is in the gate's chain. The first call takes the time of the readers of the chain.
    pub fn is_chained(&mut self, graph: &Graph, gate: NodeId, node: NodeId) -> bool
        requires gate { IsLive (net_of graph.now) gate.0 }
        requires serves { Serves (net_of graph.now) gate.0 self.old }
        ensures serves { Serves (net_of graph.now) gate.0 self.new }
        ensures size { length self.new.marks.reached ≡ length self.old.marks.reached }
        ensures chained { IsTrue result ↔ IsInChain (net_of graph.now) gate.0 node.0 }
    {
        if !self.has_chained {
            self.site.mark_chain(graph, gate);
            self.has_chained = true;
        }
        self.site.is_chained(node)
    }
}
