//! Undoing and keeping changes.
ghost use Rattle.std.specs.Prelude.{◌≡◌, ◌≢◌, ◌+◌, ◌<◌, ◌≤◌, [], length, ℕ, Some, None, IfSome, min, ◌^◌, ◌-◌, ◌∷◌};
ghost use Rattle.std.specs.FinSet as set;
ghost use Rattle.pin_pool.specs.Pins.{Pins};
ghost use Rattle.pin_pool.specs.Rings.{AreRings, changed, rings_of};
ghost use Rattle.gate_graph.specs.Wirings.{wiring_of, kind_at, free_in};
ghost use Rattle.gate_graph.specs.Inner.Wirings.{free_bit};
ghost use Rattle.gate_graph.specs.Undoing.{CanGoBack, AreWithin, back_to, taken_back, CanTakeBack, IsWithin};
ghost use Rattle.gate_graph.specs.Holds.{held, held_by, pins_held, pins_made};
ghost use Rattle.gate_graph.specs.declared.undo_list.Undo.{Undo};
ghost use Rattle.gate_graph.specs.Circuit.{wiring, net_of, free_pins, free_nodes, pins_taken, live_nodes};
ghost use Rattle.gate_graph.specs.Inner.Circuit.{kinds_live, kinds_dead};
ghost use Rattle.gate_graph.specs.Readers.{SameReaders};
ghost use Rattle.rm_base.specs.Numbers.{number_bound};

use crate::pins::{last_live, stored_kind};
use crate::rings::{drop_pin, move_fanouts_back, relink_pin, restore_pin, tell_rings};
use crate::state::Graph;
use crate::undo_list::{Undo, Undos};
use gate_net::Kind;
use pin_pool::{PinNo, Pool};

impl Graph {
    pub fn undo(&mut self, undos: &mut Undos)
        requires back { CanGoBack (wiring self.old) undos.old.entries }
        requires within { AreWithin (length self.old.kinds) undos.old.entries }
        ensures wiring { wiring self.new ≡ back_to (wiring self.old) undos.old.entries }
        ensures epoch { self.new.epoch ≡ self.old.epoch }
        ensures none { undos.new.entries ≡ [] }
        ensures spare { undos.new.spare ≡ undos.old.spare + length undos.old.entries }
        ensures pins { free_pins self.old ≤ free_pins self.new }
        ensures taken { pins_taken self.new ≤ pins_taken self.old }
        ensures free { free_pins self.new ≡ free_pins self.old + pins_made undos.old.entries }
        ensures made { pins_taken self.new + pins_made undos.old.entries ≡ pins_taken self.old }
        ensures held { pins_held self.new + length (held undos.old.entries) ≡ pins_held self.old }
        ensures numbers { length self.new.kinds ≡ length self.old.kinds }
    {
        self.tell();
        while let Some(entry) = undos.pop() {
            take_back(
                &mut self.pool,
                &mut self.kinds,
                &mut self.free,
                &mut self.least,
                &mut self.bound,
                entry,
            );
        }
        tell_rings(&self.pool);
    }

    /// Keeps the edits, and gives back the pins that the undos hold.
    pub fn keep(&mut self, undos: &mut Undos)
        requires back { CanGoBack (wiring self.old) undos.old.entries }
        ensures net { net_of self.new ≡ net_of self.old }
        ensures fanouts { SameReaders self.old self.new }
        ensures none { undos.new.entries ≡ [] }
        ensures spare { undos.new.spare ≡ undos.old.spare + length undos.old.entries }
        ensures same { undos.old.entries ≡ [] → self.new.epoch ≡ self.old.epoch }
        ensures epoch { undos.old.entries ≢ [] → self.new.epoch ≡ min (self.old.epoch + 1) (2 ^ 64 - 1) }
        ensures free { free_pins self.new ≡ free_pins self.old + length (held undos.old.entries) }
        ensures taken { pins_taken self.new + length (held undos.old.entries) ≡ pins_taken self.old }
        ensures held { pins_held self.new + length (held undos.old.entries) ≡ pins_held self.old }
        ensures nodes { free_nodes self.new ≡ free_nodes self.old }
        ensures numbers { live_nodes self.new ≡ live_nodes self.old }
    {
        if undos.is_empty() {
            return;
        }
        self.tell();
        while let Some(entry) = undos.pop() {
            if let Some(pin) = held_pin(entry) {
                self.pool.give_back(pin);
            }
        }
        tell_rings(&self.pool);
        self.epoch = self.epoch.saturating_add(1);
    }
}

// The pin that an entry holds.
fn held_pin(entry: Undo) -> Option<PinNo>
    ensures some { IfSome result (λ pin. held_by entry ≡ pin.0 ∷ []) }
    ensures none { result ≡ None → held_by entry ≡ [] }
{
    match entry {
        Undo::Removed { pin, slot: _ } => Some(pin),
        Undo::Turned {
            pin,
            slot: _,
            kind: _,
        } => Some(pin),
        _ => None,
    }
}

// How many numbers are free once one has another kind.
fn count_free(free: u32, was: Option<Kind>, now: Option<Kind>) -> u32
    requires some { was ≡ None → 0 < free }
    requires room { was ≢ None → free < number_bound }
    ensures { result + free_bit was ≡ free + free_bit now }
{
    match was {
        None => match now {
            None => free,
            Some(_) => free - 1,
        },
        Some(_) => match now {
            None => free + 1,
            Some(_) => free,
        },
    }
}

// The bound on the numbers of live nodes once a node has that kind.
fn bound_with(kinds: &[Option<Kind>], bound: u32, node: u32, kind: Option<Kind>) -> u32
    requires node { node < number_bound }
    requires kind { kind_at kinds.now node ≡ kind }
    requires others { (m : ℕ) → bound ≤ m → m ≢ node → kind_at kinds.now m ≡ None }
    ensures { kinds_dead kinds.now result }
{
    match kind {
        Some(_) => bound.max(node + 1),
        None => last_live(kinds, bound),
    }
}

// A node gets a kind, or none.
pub(crate) fn set_kind(
    kinds: &mut Vec<Option<Kind>>,
    free: &mut u32,
    bound: &mut u32,
    node: u32,
    kind: Option<Kind>,
)
    requires node { node < length kinds.old.items }
    requires few { length kinds.old.items ≤ number_bound }
    requires free { free.old ≡ free_in kinds.old.items }
    requires dead { kinds_dead kinds.old.items bound.old }
    ensures kinds { (v : Pins) → wiring_of kinds.new.items v ≡ record (wiring_of kinds.old.items v) { kind = changed (wiring_of kinds.old.items v).kind node kind } }
    ensures len { length kinds.new.items ≡ length kinds.old.items }
    ensures count { free_in kinds.new.items + free_bit (kind_at kinds.old.items node) ≡ free_in kinds.old.items + free_bit kind }
    ensures free { free.new ≡ free_in kinds.new.items }
    ensures dead { kinds_dead kinds.new.items bound.new }
{
    let was = stored_kind(kinds, node);
    *free = count_free(*free, was, kind);
    kinds[node as usize] = kind;
    *bound = bound_with(kinds, *bound, node, kind);
}

// Takes one entry back.
pub(crate) fn take_back(
    pool: &mut Pool,
    kinds: &mut Vec<Option<Kind>>,
    free: &mut u32,
    least: &mut u32,
    bound: &mut u32,
    entry: Undo,
)
    requires can { CanTakeBack (wiring_of kinds.old.items pool.old) entry }
    requires within { IsWithin (length kinds.old.items) entry }
    requires room { length kinds.old.items ≤ length pool.old.inputs }
    requires live { kinds_live kinds.old.items least.old }
    requires dead { kinds_dead kinds.old.items bound.old }
    requires few { length kinds.old.items ≤ number_bound }
    requires free { free.old ≡ free_in kinds.old.items }
    ensures wiring { wiring_of kinds.new.items pool.new ≡ taken_back entry (wiring_of kinds.old.items pool.old) }
    ensures nodes { length pool.new.inputs ≡ length pool.old.inputs }
    ensures kinds { length kinds.new.items ≡ length kinds.old.items }
    ensures live { kinds_live kinds.new.items least.new }
    ensures dead { kinds_dead kinds.new.items bound.new }
    ensures spare { pool.old.spare ≤ pool.new.spare }
    ensures free { free.new ≡ free_in kinds.new.items }
    ensures taken { set.len pool.new.taken ≤ set.len pool.old.taken }
    ensures made { set.len pool.new.taken + pins_made (entry ∷ []) ≡ set.len pool.old.taken }
    ensures freed { pool.new.spare ≡ pool.old.spare + pins_made (entry ∷ []) }
    ensures rings { AreRings (rings_of pool.old) }
{
    tell_rings(pool);
    match entry {
        Undo::Appended { pin } => drop_pin(pool, pin),
        Undo::Removed { pin, slot } => relink_pin(pool, pin, slot),
        Undo::Redriven { pin, slot } => restore_pin(pool, pin, slot),
        Undo::Moved { splice } => move_fanouts_back(pool, splice),
        Undo::Made { node, pin } => {
            drop_pin(pool, pin);
            set_kind(kinds, free, bound, node, None);
            if node < *least {
                *least = node;
            }
        }
        Undo::Retired { node, kind } => set_kind(kinds, free, bound, node, Some(kind)),
        Undo::Turned { pin, slot, kind } => {
            relink_pin(pool, pin, slot);
            set_kind(kinds, free, bound, slot.gate, Some(kind));
        }
    }
}
