//! The graph.
ghost use Rattle.std.specs.Prelude.{◌<◌, ◌^◌, ◌↔◌, IsTrue, ◌≡◌, ◌+◌, ◌-◌, ◌≤◌, ℕ, [], IfOk, length};
ghost use Rattle.pin_pool.specs.Rings.{rings_of, AreRings};
ghost use Rattle.gate_graph.specs.Undoing.{CanGoBack};
ghost use Rattle.gate_graph.specs.Circuit.{Circuit, wiring, net_of, fanouts_of, pins_taken, free_pins, free_nodes, live_nodes, SameWiring};
ghost use Rattle.gate_graph.specs.Inner.Circuit.{IsGraph};
ghost use Rattle.gate_graph.specs.Holds.{pins_held};
ghost use Rattle.gate_graph.specs.Readers.{ListReaders};
ghost use Rattle.gate_graph.specs.Start.{first_net};
ghost use Rattle.gate_net.specs.Net.{kind_of, source_count, gate_count, wire_count, IsWellFormed};
ghost use Rattle.rm_base.specs.Numbers.{number_bound};

use crate::pins::stored_kind;
use crate::rings::tell_rings;
use gate_net::Kind;
use pin_pool::Pool;
use rm_base::{NoMemory, NodeId};
use std::alloc::Global;
use std::marker::Model;

/// A net of gates, over pins.
#[derive(Drop)]
pub struct Graph {
    pub(crate) pool: Pool,
    pub(crate) kinds: Vec<Option<Kind>>,
    pub(crate) free: u32,
    pub(crate) least: u32,
    pub(crate) bound: u32,
    // How many sources `new` made, which the calls that count them look at again.
    pub(crate) sources: u32,
    pub(crate) epoch: u64,
}

impl Model for Graph {
    ghost use Rattle.gate_graph.specs.Circuit.{Circuit};

    ghost Value = { Circuit };

    ghost use Rattle.std.specs.Coded.{codes};
    ghost use Rattle.pin_pool.specs.Pins.{pins_code};

    ghost coded = { Prim.hlevel (codes, pins_code) };

    ghost use Rattle.std.specs.Prelude.{◌≡◌, ◌≤◌, length};
    ghost use Rattle.gate_graph.specs.Wirings.{free_in};
    ghost use Rattle.gate_graph.specs.Inner.Circuit.{kinds_live, kinds_dead, IsGraph};

    ghost view = { λ g. record { kinds = g.kinds.items; pool = g.pool; epoch = g.epoch } };

    ghost invariant = { λ g. (let v : Circuit = record { kinds = g.kinds.items; pool = g.pool; epoch = g.epoch } in IsGraph v) × (kinds_live g.kinds.items g.least × (kinds_dead g.kinds.items g.bound × (g.free ≡ free_in g.kinds.items))) };
}

impl Graph {
    pub fn new(alloc: Global, sources: u32) -> Result<Graph, NoMemory>
        requires { sources ≤ 4294967293 }
        ensures net { IfOk result (λ g. net_of g ≡ first_net sources) }
        ensures fanouts { IfOk result (λ g. (n : ℕ) → fanouts_of g n ≡ []) }
        ensures epoch { IfOk result (λ g. g.epoch ≡ 0) }
        ensures pins { IfOk result (λ g. pins_taken g ≡ 0) }
        ensures held { IfOk result (λ g. pins_held g ≡ 0) }
        ensures nodes { IfOk result (λ g. live_nodes g ≡ sources + 2) }
    {
        let count = sources as usize + 2;
        let mut pool = Pool::new(alloc);
        let Ok(()) = pool.reserve(0, count) else {
            return Err(NoMemory);
        };
        let mut kinds = Vec::new(alloc);
        let Ok(()) = kinds.resize(count, Some(Kind::Source)) else {
            return Err(NoMemory);
        };
        kinds[0] = Some(Kind::Zero);
        kinds[1] = Some(Kind::One);
        Ok(Graph {
            pool,
            kinds,
            free: 0,
            least: 0,
            bound: count as u32,
            sources,
            epoch: 0,
        })
    }

    pub fn kind(&self, node: NodeId) -> Option<Kind>
        ensures { result ≡ kind_of (net_of self.now) node.0 }
    {
        stored_kind(&self.kinds, node.0)
    }

    // Tells what holds of every graph.
    pub(crate) fn tell(&self)
        ensures graph { IsGraph self.now }
        ensures rings { AreRings (rings_of self.now.pool) }
        ensures nodes { length self.now.pool.fanouts ≡ length self.now.pool.inputs }
        ensures few { pins_taken self.now + free_pins self.now ≤ number_bound }
    {
        tell_rings(&self.pool);
        let _kinds = &self.kinds;
    }

    /// How many runs of changes were kept.
    pub fn epoch(&self) -> u64
        ensures { result ≡ self.now.epoch }
    {
        self.epoch
    }

    /// Whether nothing was kept since the graph had that epoch.
    pub fn is_fresh(&self, epoch: u64) -> bool
        ensures { IsTrue result ↔ ((epoch ≡ self.now.epoch) × (epoch < 2 ^ 64 - 1)) }
    {
        if epoch != self.epoch {
            return false;
        }
        epoch < u64::MAX
    }

    /// Tells what holds of every graph.
    pub fn well_formed(&self)
        ensures net { IsWellFormed (net_of self.now) }
        ensures nodes { length (net_of self.now).nodes ≤ number_bound }
        ensures live { live_nodes self.now ≡ 2 + source_count (net_of self.now) + gate_count (net_of self.now) }
        ensures pins { wire_count (net_of self.now) + length (net_of self.now).observed ≤ pins_taken self.now }
        ensures held { wire_count (net_of self.now) + length (net_of self.now).observed + pins_held self.now ≡ pins_taken self.now }
        ensures few { pins_taken self.now + free_pins self.now ≤ number_bound }
        ensures room { live_nodes self.now + free_nodes self.now ≤ number_bound }
    {
        self.tell();
    }

    /// Tells that the lists of readers are those of the net.
    pub fn readers_listed(&self)
        ensures { ListReaders self.now }
    {
        self.tell();
    }

    /// Undos without an entry lead back from every graph.
    pub fn leads_back(&self)
        ensures { CanGoBack (wiring self.now) [] }
    {
        self.tell();
    }
}

/// Graphs with one wiring have one net and the same readers in order.
pub fn same_wiring()
    ensures { SameWiring }
{}
