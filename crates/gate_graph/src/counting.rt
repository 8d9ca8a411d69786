//! How much a graph has.
ghost use Rattle.std.specs.Prelude.{◌≡◌, ◌+◌, ◌-◌, ◌<◌, ◌≤◌, length};
ghost use Rattle.gate_graph.specs.Circuit.{free_nodes, free_pins, live_nodes, net_of};
ghost use Rattle.gate_net.specs.Edits.{IsLeastFree};
ghost use Rattle.gate_net.specs.Net.{IsLive, drivers_of, gate_count, source_count, wire_count};

use crate::pins::{
    OBSERVED_LIST, are_sources, count_gate_pins, first_sources, last_live, least_free,
};
use crate::state::Graph;
use rm_base::NodeId;

impl Graph {
    /// One more than the greatest number of a live node, in constant time.
    pub fn node_bound(&self) -> u32
        ensures { result ≡ length (net_of self.now).nodes }
    {
        self.tell();
        last_live(&self.kinds, self.bound)
    }

    /// The least number that no live node has, which the next new Not takes, in the time of the live numbers between it
    /// and a bound that the graph keeps.
    pub fn least_free(&self) -> NodeId
        ensures { IsLeastFree (net_of self.now) result.0 }
    {
        self.tell();
        NodeId(least_free(&self.kinds, self.least))
    }

    /// How many sources there are, in constant time.
    pub fn source_count(&self) -> u32
        ensures { result ≡ source_count (net_of self.now) }
    {
        self.tell();
        if are_sources(&self.kinds, self.sources) {
            return self.sources;
        }
        first_sources(&self.kinds)
    }

    /// How many gates there are, in constant time.
    pub fn gate_count(&self) -> u32
        ensures { result ≡ gate_count (net_of self.now) }
    {
        let sources = self.source_count();
        self.tell();
        self.kinds.len() as u32 - self.free - 2 - sources
    }

    /// How many nodes there are, the two constants among them, in constant time.
    pub fn live_count(&self) -> u32
        ensures { result ≡ live_nodes self.now }
    {
        self.tell();
        self.kinds.len() as u32 - self.free
    }

    /// How many pins the gates have, in constant time.
    pub fn wire_count(&self) -> u32
        ensures { result ≡ wire_count (net_of self.now) }
    {
        self.tell();
        self.pool.linked_count() - self.pool.input_count(OBSERVED_LIST)
    }

    /// How many places are observed, in constant time.
    pub fn observed_count(&self) -> usize
        ensures { result ≡ length (net_of self.now).observed }
    {
        self.tell();
        self.pool.input_count(OBSERVED_LIST) as usize
    }

    /// How many pins a live node has, in constant time.
    pub fn input_count(&self, node: NodeId) -> u32
        requires { IsLive (net_of self.now) node.0 }
        ensures { result ≡ length (drivers_of (net_of self.now) node.0) }
    {
        self.tell();
        count_gate_pins(&self.pool, node.0)
    }

    /// How many pins may be added before more room is reserved, in constant time.
    pub fn free_pins(&self) -> usize
        ensures { result ≡ free_pins self.now }
    {
        self.pool.spare()
    }

    /// How many nodes may be added before more room is reserved, in constant time.
    pub fn free_nodes(&self) -> usize
        ensures { result ≡ free_nodes self.now }
    {
        self.free as usize
    }
}
