//! Changes of a graph that can be undone.
ghost use Rattle.std.specs.Prelude.{[], ◌∷◌, ◌≡◌, ◌≢◌, ◌+◌, ◌<◌, ◌≤◌, length, Some, None, slice_set, Bool, ◌-◌};
ghost use Rattle.gate_graph.specs.Undoing.{LeadOn};
ghost use Rattle.gate_graph.specs.Holds.{HoldsOn};
ghost use Rattle.gate_graph.specs.Changes.{CanEdit, Edits, entries_for};
ghost use Rattle.gate_graph.specs.declared.undo_list.Undo.{Undo};
ghost use Rattle.gate_net.specs.Edits.{MakesGate};
ghost use Rattle.gate_graph.specs.Circuit.{net_of, free_pins, free_nodes, Uses, Frees};
ghost use Rattle.gate_graph.specs.Readers.{LastReader, ReadersMove, ReaderMoves, ReaderGoes, GateGoes};
ghost use Rattle.gate_net.specs.Net.{drivers_of, node_at};
ghost use Rattle.gate_net.specs.Paths.{Reaches};
ghost use Rattle.gate_net.specs.Net.{IsLive, IsGate, IsKind};
ghost use Rattle.gate_net.specs.Values.{IsJunction};
ghost use Rattle.gate_net.specs.Edits.{without_pin, turned_to_not, IsUnread, DiffersAt};
ghost use Rattle.gate_net.specs.Edits.{with_readers_moved};
ghost use Rattle.gate_net.specs.Edits.{with_pin, with_drivers};
ghost use Rattle.gate_net.specs.declared.Kind.TheVariants.{One, Not, Xor};

use crate::pins::{least_free, nth_pin};
use crate::rings::{link_new, move_fanouts, redrive_pin, tell_rings, unlink_at, unlink_pin};
use crate::state::Graph;
use crate::undo_list::{Undo, Undos};
use crate::undoing::set_kind;
use gate_net::Kind;
use rm_base::NodeId;

/// One change of a graph.
#[derive(Clone, Copy)]
pub enum Edit {
    Append {
        gate: NodeId,
        driver: NodeId,
    },
    Remove {
        gate: NodeId,
        position: u32,
    },
    Redrive {
        gate: NodeId,
        position: u32,
        driver: NodeId,
    },
    Readers {
        from: NodeId,
        to: NodeId,
    },
    NewNot {
        driver: NodeId,
    },
    Retire {
        gate: NodeId,
    },
    ToNot {
        gate: NodeId,
        position: u32,
    },
}

impl Graph {
    /// Makes the edit.
    pub fn edit(&mut self, edit: &Edit, undos: &mut Undos)
        requires can { CanEdit self.old edit.now }
        requires entries { entries_for self.old edit.now ≤ undos.old.spare }
        ensures edits { Edits self.old edit.now self.new }
        ensures undos { LeadOn self.old self.new undos.old.entries undos.new.entries }
        ensures entries { undos.new.spare + entries_for self.old edit.now ≡ undos.old.spare }
        ensures together { length undos.new.entries + undos.new.spare ≡ length undos.old.entries + undos.old.spare }
        ensures held { HoldsOn self.old self.new undos.old.entries undos.new.entries }
        ensures left { undos.new.entries ≢ [] }
        ensures epoch { self.new.epoch ≡ self.old.epoch }
        ensures numbers { length self.new.kinds ≡ length self.old.kinds }
    {
        match *edit {
            Edit::Append { gate, driver } => self.append(gate, driver, undos),
            Edit::Remove { gate, position } => self.remove(gate, position, undos),
            Edit::Redrive {
                gate,
                position,
                driver,
            } => self.redrive(gate, position, driver, undos),
            Edit::Readers { from, to } => self.reread(from, to, undos),
            Edit::NewNot { driver } => {
                let _node = self.new_not(driver, undos);
            }
            Edit::Retire { gate } => self.retire(gate, undos),
            Edit::ToNot { gate, position } => self.turn(gate, position, undos),
        }
    }

    // The gate gets one more pin.
    fn append(&mut self, gate: NodeId, driver: NodeId, undos: &mut Undos)
        requires gate { (c : Bool) × IsJunction (net_of self.old) gate.0 c }
        requires driver { IsLive (net_of self.old) driver.0 }
        requires apart { driver.0 ≢ gate.0 }
        requires path { Reaches (net_of self.old) gate.0 driver.0 → ⊥ }
        requires room { 0 < free_pins self.old }
        requires entry { 0 < undos.old.spare }
        ensures net { net_of self.new ≡ with_pin (net_of self.old) gate.0 driver.0 }
        ensures readers { LastReader self.old self.new gate.0 driver.0 }
        ensures undos { LeadOn self.old self.new undos.old.entries undos.new.entries }
        ensures held { HoldsOn self.old self.new undos.old.entries undos.new.entries }
        ensures epoch { self.new.epoch ≡ self.old.epoch }
        ensures numbers { length self.new.kinds ≡ length self.old.kinds }
        ensures uses { Uses self.old self.new 1 0 }
        ensures entry { undos.new.spare + 1 ≡ undos.old.spare }
        ensures together { length undos.new.entries + undos.new.spare ≡ length undos.old.entries + undos.old.spare }
        ensures left { undos.new.entries ≢ [] }
    {
        tell_rings(&self.pool);
        let pin = link_new(&mut self.pool, gate.0, driver.0);
        tell_rings(&self.pool);
        undos.push(Undo::Appended { pin });
    }

    // The pin goes.
    fn remove(&mut self, gate: NodeId, position: u32, undos: &mut Undos)
        requires gate { (c : Bool) × IsJunction (net_of self.old) gate.0 c }
        requires position { position < length (drivers_of (net_of self.old) gate.0) }
        requires entry { 0 < undos.old.spare }
        ensures net { net_of self.new ≡ without_pin (net_of self.old) gate.0 position }
        ensures readers { ReaderGoes self.old self.new gate.0 position }
        ensures undos { LeadOn self.old self.new undos.old.entries undos.new.entries }
        ensures held { HoldsOn self.old self.new undos.old.entries undos.new.entries }
        ensures epoch { self.new.epoch ≡ self.old.epoch }
        ensures numbers { length self.new.kinds ≡ length self.old.kinds }
        ensures uses { Uses self.old self.new 0 0 }
        ensures entry { undos.new.spare + 1 ≡ undos.old.spare }
        ensures together { length undos.new.entries + undos.new.spare ≡ length undos.old.entries + undos.old.spare }
        ensures left { undos.new.entries ≢ [] }
    {
        let pin = self.pin_of(gate, position);
        let slot = unlink_at(&mut self.pool, pin, gate.0, position);
        tell_rings(&self.pool);
        undos.push(Undo::Removed { pin, slot });
    }

    // The pin reads another node.
    fn redrive(&mut self, gate: NodeId, position: u32, driver: NodeId, undos: &mut Undos)
        requires position { position < length (drivers_of (net_of self.old) gate.0) }
        requires driver { IsLive (net_of self.old) driver.0 }
        requires apart { driver.0 ≢ gate.0 }
        requires path { Reaches (net_of self.old) gate.0 driver.0 → ⊥ }
        requires entry { 0 < undos.old.spare }
        ensures net { net_of self.new ≡ with_drivers (net_of self.old) gate.0 (slice_set (drivers_of (net_of self.old) gate.0) position driver.0) }
        ensures readers { ReaderMoves self.old self.new gate.0 position driver.0 }
        ensures undos { LeadOn self.old self.new undos.old.entries undos.new.entries }
        ensures held { HoldsOn self.old self.new undos.old.entries undos.new.entries }
        ensures epoch { self.new.epoch ≡ self.old.epoch }
        ensures numbers { length self.new.kinds ≡ length self.old.kinds }
        ensures uses { Uses self.old self.new 0 0 }
        ensures entry { undos.new.spare + 1 ≡ undos.old.spare }
        ensures together { length undos.new.entries + undos.new.spare ≡ length undos.old.entries + undos.old.spare }
        ensures left { undos.new.entries ≢ [] }
    {
        let pin = self.pin_of(gate, position);
        let slot = redrive_pin(&mut self.pool, pin, driver.0);
        tell_rings(&self.pool);
        undos.push(Undo::Redriven { pin, slot });
    }

    // All readers of a node read another.
    fn reread(&mut self, from: NodeId, to: NodeId, undos: &mut Undos)
        requires from { IsLive (net_of self.old) from.0 }
        requires to { IsLive (net_of self.old) to.0 }
        requires apart { to.0 ≢ from.0 }
        requires path { Reaches (net_of self.old) from.0 to.0 → ⊥ }
        requires entry { 0 < undos.old.spare }
        ensures net { net_of self.new ≡ with_readers_moved (net_of self.old) from.0 to.0 }
        ensures readers { ReadersMove self.old self.new from.0 to.0 }
        ensures undos { LeadOn self.old self.new undos.old.entries undos.new.entries }
        ensures held { HoldsOn self.old self.new undos.old.entries undos.new.entries }
        ensures epoch { self.new.epoch ≡ self.old.epoch }
        ensures numbers { length self.new.kinds ≡ length self.old.kinds }
        ensures uses { Uses self.old self.new 0 0 }
        ensures entry { undos.new.spare + 1 ≡ undos.old.spare }
        ensures together { length undos.new.entries + undos.new.spare ≡ length undos.old.entries + undos.old.spare }
        ensures left { undos.new.entries ≢ [] }
    {
        tell_rings(&self.pool);
        let splice = move_fanouts(&mut self.pool, from.0, to.0);
        tell_rings(&self.pool);
        undos.push(Undo::Moved { splice });
    }

    // A Not of the driver takes the least free number, which is given.
    fn new_not(&mut self, driver: NodeId, undos: &mut Undos) -> u32
        requires driver { IsLive (net_of self.old) driver.0 }
        requires room { 0 < free_pins self.old }
        requires nodes { 0 < free_nodes self.old }
        requires entry { 0 < undos.old.spare }
        ensures net { MakesGate (net_of self.old) (net_of self.new) Not (driver.0 ∷ []) result }
        ensures readers { LastReader self.old self.new result driver.0 }
        ensures undos { LeadOn self.old self.new undos.old.entries undos.new.entries }
        ensures held { HoldsOn self.old self.new undos.old.entries undos.new.entries }
        ensures epoch { self.new.epoch ≡ self.old.epoch }
        ensures numbers { length self.new.kinds ≡ length self.old.kinds }
        ensures uses { Uses self.old self.new 1 1 }
        ensures entry { undos.new.spare + 1 ≡ undos.old.spare }
        ensures together { length undos.new.entries + undos.new.spare ≡ length undos.old.entries + undos.old.spare }
        ensures left { undos.new.entries ≢ [] }
    {
        tell_rings(&self.pool);
        let node = least_free(&self.kinds, self.least);
        let pin = link_new(&mut self.pool, node, driver.0);
        tell_rings(&self.pool);
        set_kind(
            &mut self.kinds,
            &mut self.free,
            &mut self.bound,
            node,
            Some(Kind::Not),
        );
        self.least = node + 1;
        undos.push(Undo::Made { node, pin });
        node
    }

    // The gate and its pins go.
    fn retire(&mut self, gate: NodeId, undos: &mut Undos)
        requires gate { IsGate (net_of self.old) gate.0 }
        requires unread { IsUnread (net_of self.old) gate.0 }
        requires entries { length (drivers_of (net_of self.old) gate.0) < undos.old.spare }
        ensures net { DiffersAt (net_of self.old) (net_of self.new) gate.0 × (node_at (net_of self.new) gate.0 ≡ None) }
        ensures readers { GateGoes self.old self.new gate.0 }
        ensures undos { LeadOn self.old self.new undos.old.entries undos.new.entries }
        ensures held { HoldsOn self.old self.new undos.old.entries undos.new.entries }
        ensures epoch { self.new.epoch ≡ self.old.epoch }
        ensures numbers { length self.new.kinds ≡ length self.old.kinds }
        ensures uses { Frees self.old self.new }
        ensures entries { undos.new.spare + 1 + length (drivers_of (net_of self.old) gate.0) ≡ undos.old.spare }
        ensures together { length undos.new.entries + undos.new.spare ≡ length undos.old.entries + undos.old.spare }
        ensures left { undos.new.entries ≢ [] }
    {
        tell_rings(&self.pool);
        while let Some(pin) = nth_pin(&self.pool, gate.0, 0) {
            let slot = unlink_pin(&mut self.pool, pin);
            tell_rings(&self.pool);
            undos.push(Undo::Removed { pin, slot });
        }
        match self.kinds[gate.0 as usize] {
            Some(kind) => {
                set_kind(
                    &mut self.kinds,
                    &mut self.free,
                    &mut self.bound,
                    gate.0,
                    None,
                );
                self.least = self.least.min(gate.0);
                undos.push(Undo::Retired { node: gate.0, kind });
            }
            None => unreachable!(),
        }
    }

    // The pin of an Xor goes, and the gate becomes a Not.
    fn turn(&mut self, gate: NodeId, position: u32, undos: &mut Undos)
        requires gate { IsKind (net_of self.old) gate.0 Xor }
        requires position { position < length (drivers_of (net_of self.old) gate.0) }
        requires entry { 0 < undos.old.spare }
        ensures net { net_of self.new ≡ turned_to_not (net_of self.old) gate.0 position }
        ensures readers { ReaderGoes self.old self.new gate.0 position }
        ensures undos { LeadOn self.old self.new undos.old.entries undos.new.entries }
        ensures held { HoldsOn self.old self.new undos.old.entries undos.new.entries }
        ensures epoch { self.new.epoch ≡ self.old.epoch }
        ensures numbers { length self.new.kinds ≡ length self.old.kinds }
        ensures uses { Uses self.old self.new 0 0 }
        ensures entry { undos.new.spare + 1 ≡ undos.old.spare }
        ensures together { length undos.new.entries + undos.new.spare ≡ length undos.old.entries + undos.old.spare }
        ensures left { undos.new.entries ≢ [] }
    {
        let pin = self.pin_of(gate, position);
        let slot = unlink_at(&mut self.pool, pin, gate.0, position);
        tell_rings(&self.pool);
        set_kind(
            &mut self.kinds,
            &mut self.free,
            &mut self.bound,
            gate.0,
            Some(Kind::Not),
        );
        let kind = Kind::Xor;
        undos.push(Undo::Turned { pin, slot, kind });
    }
}
