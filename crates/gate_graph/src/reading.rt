//! Calls that read a graph.
ghost use Rattle.std.specs.Prelude.{◌≡◌, ◌+◌, ◌<◌, ◌≤◌, ◌↔◌, [], Some, None, IsTrue, true, false, drop, length, map, slice_get};
ghost use Rattle.std.specs.Option.{option_map};
ghost use Rattle.pin_pool.specs.Rings.{rings_of, AreRings, IsIn};
ghost use Rattle.gate_graph.specs.Wirings.{kind_at};
ghost use Rattle.gate_graph.specs.Circuit.{net_of, fanouts_of, gate_pins};
ghost use Rattle.gate_graph.specs.Inner.Circuit.{IsGraph};
ghost use Rattle.gate_net.specs.Net.{drivers_of, IsGate, IsLive, IsObserved};
ghost use Rattle.rm_base.specs.Numbers.{number_bound};

use crate::fanout_iter::Fanouts;
use crate::input_iter::Inputs;
use crate::pins::{OBSERVED_LIST, has_fanout, nth_pin, observes, pins_of_gate, pins_of_gate_from};
use crate::reader_iter::Readers;
use crate::rings::tell_rings;
use crate::state::Graph;
use pin_pool::PinNo;
use rm_base::NodeId;

impl Graph {
    /// The driver of a pin, or None where there is no such pin.
    pub fn driver(&self, gate: NodeId, position: u32) -> Option<NodeId>
        ensures { option_map (λ n. n.0) result ≡ slice_get (drivers_of (net_of self.now) gate.0) position }
    {
        let Some(pin) = self.pin_at(gate, position) else {
            return None;
        };
        Some(NodeId(self.pool.driver_of(pin)))
    }

    // The pin of a gate at a position.
    fn pin_at(&self, gate: NodeId, position: u32) -> Option<PinNo>
        ensures pin { option_map (λ p. p.0) result ≡ slice_get (gate_pins self.now.pool gate.0) position }
        ensures graph { IsGraph self.now }
        ensures rings { AreRings (rings_of self.now.pool) }
    {
        tell_rings(&self.pool);
        if gate.0 == 0 {
            return None;
        }
        if gate.0 as usize >= self.kinds.len() {
            return None;
        }
        nth_pin(&self.pool, gate.0, position)
    }

    // The pin of a gate at a position where there is one.
    pub(crate) fn pin_of(&self, gate: NodeId, position: u32) -> PinNo
        requires { position < length (drivers_of (net_of self.now) gate.0) }
        ensures pin { Some result.0 ≡ slice_get (gate_pins self.now.pool gate.0) position }
        ensures linked { IsIn (rings_of self.now.pool).inputs result.0 × IsIn (rings_of self.now.pool).fanouts result.0 }
        ensures rings { AreRings (rings_of self.now.pool) }
    {
        match self.pin_at(gate, position) {
            Some(pin) => pin,
            None => unreachable!(),
        }
    }

    /// The drivers of a node, in pin order.
    pub fn inputs_of(&self, node: NodeId) -> Inputs<'_>
        requires { IsLive (net_of self.now) node.0 }
        ensures drivers { result ≡ drivers_of (net_of self.now) node.0 }
        ensures few { length result ≤ number_bound }
    {
        tell_rings(&self.pool);
        let pins = pins_of_gate(&self.pool, node.0);
        Inputs {
            pins,
            pool: &self.pool,
        }
    }

    /// The drivers of a node that is known to be a gate, in pin order, as `inputs_of` gives them.
    pub fn gate_inputs(&self, gate: NodeId) -> Inputs<'_>
        requires { IsGate (net_of self.now) gate.0 }
        ensures drivers { result ≡ drivers_of (net_of self.now) gate.0 }
        ensures few { length result ≤ number_bound }
    {
        tell_rings(&self.pool);
        let pins = self.pool.inputs(gate.0);
        Inputs {
            pins,
            pool: &self.pool,
        }
    }

    /// The drivers of a node, in pin order, from a position on. It takes the time of the pins passed over, which are few
    /// near the place where an edit removed a pin, if that was the last change.
    pub fn inputs_from(&self, node: NodeId, position: u32) -> Inputs<'_>
        requires { IsLive (net_of self.now) node.0 }
        ensures drivers { result ≡ drop position (drivers_of (net_of self.now) node.0) }
        ensures few { length result ≤ number_bound }
    {
        tell_rings(&self.pool);
        let pins = pins_of_gate_from(&self.pool, node.0, position);
        Inputs {
            pins,
            pool: &self.pool,
        }
    }

    /// The pins that read a node, each as its gate and its position, in the order of their ring.
    pub fn fanouts_of(&self, node: NodeId) -> Fanouts<'_>
        requires { IsLive (net_of self.now) node.0 }
        ensures { result ≡ fanouts_of self.now node.0 }
    {
        self.tell();
        Fanouts {
            pins: self.pool.fanouts(node.0),
            pool: &self.pool,
        }
    }

    /// The gates of the pins that read a node, in the order of `fanouts_of`.
    pub fn readers_of(&self, node: NodeId) -> Readers<'_>
        requires { IsLive (net_of self.now) node.0 }
        ensures { result ≡ map (λ place. place.0) (fanouts_of self.now node.0) }
    {
        self.tell();
        Readers {
            pins: self.pool.fanouts(node.0),
            pool: &self.pool,
        }
    }

    /// The observed nodes, in order.
    pub fn observed_points(&self) -> Inputs<'_>
        ensures observed { result ≡ (net_of self.now).observed }
        ensures few { length result ≤ number_bound }
    {
        self.tell();
        Inputs {
            pins: self.pool.inputs(OBSERVED_LIST),
            pool: &self.pool,
        }
    }

    /// The node at an observed place, in the time of as many steps; `observed_points` gives all of them.
    pub fn observed_at(&self, at: usize) -> NodeId
        requires { at < length (net_of self.now).observed }
        ensures { Some result.0 ≡ slice_get (net_of self.now).observed at }
    {
        let mut left = at;
        for node in self.observed_points() {
            if left == 0 {
                return node;
            }
            left -= 1;
        }
        unreachable!()
    }

    /// Whether a node is observed, in the time of its readers.
    pub fn is_observed(&self, node: NodeId) -> bool
        ensures { IsTrue result ↔ IsObserved (net_of self.now) node.0 }
    {
        self.tell();
        if node.0 as usize >= self.kinds.len() {
            return false;
        }
        observes(&self.pool, node.0)
    }

    /// Whether some pin reads a live node or it is observed, in constant time.
    pub fn is_in_use(&self, node: NodeId) -> bool
        requires { IsLive (net_of self.now) node.0 }
        ensures unread { result ≡ false → fanouts_of self.now node.0 ≡ [] }
        ensures unobserved { result ≡ false → IsObserved (net_of self.now) node.0 → ⊥ }
        ensures used { result ≡ true → fanouts_of self.now node.0 ≡ [] → IsObserved (net_of self.now) node.0 }
    {
        self.tell();
        has_fanout(&self.pool, node.0)
    }
}
