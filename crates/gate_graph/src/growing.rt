//! Calls that make a graph larger.
ghost use Rattle.std.specs.Prelude.{◌≡◌, ◌+◌, ◌<◌, ◌≤◌, [], ◌∷◌, length, Some, None, IfOk, true, List, OnOk, ◌-◌, ◌++◌, OnErr, map, ℕ};
ghost use Rattle.gate_graph.specs.Undoing.{LeadOn};
ghost use Rattle.gate_graph.specs.declared.undo_list.Undo.{Undo};
ghost use Rattle.gate_net.specs.Edits.{MakesGate};
ghost use Rattle.gate_graph.specs.Circuit.{wiring, net_of, free_pins, free_nodes, pins_taken, live_nodes};
ghost use Rattle.gate_net.specs.Net.{IsLive, IsGateKind};
ghost use Rattle.gate_net.specs.declared.Kind.TheVariants.{Not, Xor};
ghost use Rattle.pin_pool.specs.Ring.{has};
ghost use Rattle.gate_graph.specs.Holds.{pins_held};
ghost use Rattle.gate_graph.specs.Readers.{NewReaders, SameReaders};
ghost use Rattle.rm_base.specs.Numbers.{number_bound};

use crate::pins::{OBSERVED_LIST, least_free};
use crate::rings::{link_all, link_new, tell_rings};
use crate::state::Graph;
use crate::undoing::set_kind;
use gate_net::Kind;
use rm_base::{NoMemory, NodeId};

impl Graph {
    /// Makes the free room at least so many pins and nodes. It takes the time of the room that is made.
    pub fn reserve(&mut self, pins: usize, nodes: usize) -> Result<(), NoMemory>
        requires pins { pins_taken self.old + pins ≤ number_bound }
        requires nodes { live_nodes self.old + nodes ≤ number_bound }
        ensures pins { OnOk result (pins ≤ free_pins self.new) }
        ensures nodes { OnOk result (nodes ≤ free_nodes self.new) }
        ensures net { net_of self.new ≡ net_of self.old }
        ensures fanouts { SameReaders self.old self.new }
        ensures wiring { wiring self.new ≡ wiring self.old }
        ensures undos { (es : List Undo) → LeadOn self.old self.new es es }
        ensures epoch { self.new.epoch ≡ self.old.epoch }
        ensures kept_pins { free_pins self.old ≤ free_pins self.new }
        ensures kept_nodes { free_nodes self.old ≤ free_nodes self.new }
        ensures taken { pins_taken self.new ≡ pins_taken self.old }
        ensures held { pins_held self.new ≡ pins_held self.old }
        ensures live { live_nodes self.new ≡ live_nodes self.old }
    {
        let missing = nodes.saturating_sub(self.free as usize);
        let count = self.kinds.len() + missing;
        let Ok(()) = self.pool.reserve(pins, count) else {
            return Err(NoMemory);
        };
        let Ok(()) = self.kinds.resize(count, None) else {
            return Err(NoMemory);
        };
        self.free += missing as u32;
        Ok(())
    }

    /// Makes a gate of the least free number.
    pub fn add_gate(&mut self, kind: Kind, drivers: &[NodeId]) -> Result<NodeId, NoMemory>
        requires kind { IsGateKind kind }
        requires one { kind ≡ Not → length drivers.now ≡ 1 }
        requires two { kind ≡ Xor → length drivers.now ≡ 2 }
        requires drivers { (d : ℕ) → has d (map (λ n. n.0) drivers.now) ≡ true → IsLive (net_of self.old) d }
        requires pins { pins_taken self.old + length drivers.now ≤ number_bound }
        requires nodes { live_nodes self.old < number_bound }
        ensures made { IfOk result (λ node. MakesGate (net_of self.old) (net_of self.new) kind (map (λ n. n.0) drivers.now) node.0) }
        ensures fanouts { IfOk result (λ node. NewReaders self.old self.new node.0 (map (λ n. n.0) drivers.now)) }
        ensures pins { OnOk result (pins_taken self.new ≡ pins_taken self.old + length drivers.now) }
        ensures nodes { OnOk result (live_nodes self.new ≡ live_nodes self.old + 1) }
        ensures refused { OnErr result (net_of self.new ≡ net_of self.old) }
        ensures refused_fanouts { OnErr result (SameReaders self.old self.new) }
        ensures refused_pins { OnErr result (pins_taken self.new ≡ pins_taken self.old) }
        ensures refused_nodes { OnErr result (live_nodes self.new ≡ live_nodes self.old) }
        ensures held { pins_held self.new ≡ pins_held self.old }
        ensures epoch { self.new.epoch ≡ self.old.epoch }
    {
        self.tell();
        let Ok(()) = self.reserve(drivers.len(), 1) else {
            return Err(NoMemory);
        };
        Ok(NodeId(self.new_gate(kind, drivers)))
    }

    // Makes a gate of the least free number, for which there is room.
    fn new_gate(&mut self, kind: Kind, drivers: &[NodeId]) -> u32
        requires kind { IsGateKind kind }
        requires one { kind ≡ Not → length drivers.now ≡ 1 }
        requires two { kind ≡ Xor → length drivers.now ≡ 2 }
        requires drivers { (d : ℕ) → has d (map (λ n. n.0) drivers.now) ≡ true → IsLive (net_of self.old) d }
        requires pins { length drivers.now ≤ free_pins self.old }
        requires nodes { 0 < free_nodes self.old }
        ensures made { MakesGate (net_of self.old) (net_of self.new) kind (map (λ n. n.0) drivers.now) result }
        ensures fanouts { NewReaders self.old self.new result (map (λ n. n.0) drivers.now) }
        ensures pins { pins_taken self.new ≡ pins_taken self.old + length drivers.now }
        ensures nodes { live_nodes self.new ≡ live_nodes self.old + 1 }
        ensures held { pins_held self.new ≡ pins_held self.old }
        ensures epoch { self.new.epoch ≡ self.old.epoch }
    {
        tell_rings(&self.pool);
        let node = least_free(&self.kinds, self.least);
        link_all(&mut self.pool, node, drivers);
        set_kind(
            &mut self.kinds,
            &mut self.free,
            &mut self.bound,
            node,
            Some(kind),
        );
        self.least = node + 1;
        node
    }

    /// Appends the node to the observed list.
    pub fn observe(&mut self, node: NodeId) -> Result<(), NoMemory>
        requires node { IsLive (net_of self.old) node.0 }
        requires pins { pins_taken self.old < number_bound }
        ensures observed { OnOk result (net_of self.new ≡ record (net_of self.old) { observed = (net_of self.old).observed ++ node.0 ∷ [] }) }
        ensures refused { OnErr result (net_of self.new ≡ net_of self.old) }
        ensures fanouts { SameReaders self.old self.new }
        ensures pins { OnOk result (pins_taken self.new ≡ pins_taken self.old + 1) }
        ensures refused_pins { OnErr result (pins_taken self.new ≡ pins_taken self.old) }
        ensures nodes { live_nodes self.new ≡ live_nodes self.old }
        ensures held { pins_held self.new ≡ pins_held self.old }
        ensures epoch { self.new.epoch ≡ self.old.epoch }
    {
        self.tell();
        let Ok(()) = self.reserve(1, 0) else {
            return Err(NoMemory);
        };
        self.link_observed(node);
        Ok(())
    }

    // Appends the node to the observed list, for which there is room.
    fn link_observed(&mut self, node: NodeId)
        requires node { IsLive (net_of self.old) node.0 }
        requires room { 0 < free_pins self.old }
        ensures net { net_of self.new ≡ record (net_of self.old) { observed = (net_of self.old).observed ++ node.0 ∷ [] } }
        ensures fanouts { SameReaders self.old self.new }
        ensures pins { pins_taken self.new ≡ pins_taken self.old + 1 }
        ensures nodes { live_nodes self.new ≡ live_nodes self.old }
        ensures held { pins_held self.new ≡ pins_held self.old }
        ensures epoch { self.new.epoch ≡ self.old.epoch }
    {
        tell_rings(&self.pool);
        let _pin = link_new(&mut self.pool, OBSERVED_LIST, node.0);
        tell_rings(&self.pool);
    }
}
