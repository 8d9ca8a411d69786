//! Entries by which edits are undone.
ghost use Rattle.std.specs.Prelude.{◌≡◌, ◌+◌, ◌≤◌, ◌<◌, [], ◌∷◌, length, vec_capacity, OnOk, OnErr, MatchOption, IsSome, IsTrue, ◌↔◌};
ghost use Rattle.gate_graph.specs.Trail.{Trail};

use gate_net::Kind;
use pin_pool::{PinNo, Slot, Splice};
use rm_base::NoMemory;
use std::alloc::Global;
use std::marker::Model;

/// What one change of a graph left to be undone.
#[derive(Clone, Copy)]
pub enum Undo {
    Appended { pin: PinNo },
    Removed { pin: PinNo, slot: Slot },
    Redriven { pin: PinNo, slot: Slot },
    Moved { splice: Splice },
    Made { node: u32, pin: PinNo },
    Retired { node: u32, kind: Kind },
    Turned { pin: PinNo, slot: Slot, kind: Kind },
}

/// Entries, of which the last is undone first.
#[derive(Drop)]
pub struct Undos {
    entries: Vec<Undo>,
    room: usize,
}

impl Model for Undos {
    ghost use Rattle.gate_graph.specs.Trail.{Trail};

    ghost Value = { Trail };

    ghost use Rattle.std.specs.Prelude.{◌+◌, ◌≤◌, reverse, length, vec_capacity};

    ghost view = { λ u. record { entries = reverse u.entries.items; spare = u.room } };

    ghost invariant = { λ u. length u.entries.items + u.room ≤ vec_capacity u.entries };
}

impl Undos {
    pub fn new(alloc: Global) -> Undos
        ensures entries { result.entries ≡ [] }
        ensures spare { result.spare ≡ 0 }
    {
        Undos {
            entries: Vec::new(alloc),
            room: 0,
        }
    }

    pub fn spare(&self) -> usize
        ensures { result ≡ self.now.spare }
    {
        self.room
    }

    pub fn is_empty(&self) -> bool
        ensures { IsTrue result ↔ (self.now.entries ≡ []) }
    {
        self.entries.is_empty()
    }

    pub fn reserve(&mut self, entries: usize) -> Result<(), NoMemory>
        ensures entries { self.new.entries ≡ self.old.entries }
        ensures spare { OnOk result (entries ≤ self.new.spare) }
        ensures kept { self.old.spare ≤ self.new.spare }
        ensures refused { OnErr result (self.new ≡ self.old) }
    {
        if entries <= self.room {
            return Ok(());
        }
        match self.entries.reserve(entries) {
            Ok(()) => {
                self.room = entries;
                Ok(())
            }
            Err(_) => Err(NoMemory),
        }
    }

    pub(crate) fn push(&mut self, entry: Undo)
        requires { 0 < self.old.spare }
        ensures entries { self.new.entries ≡ entry ∷ self.old.entries }
        ensures spare { self.new.spare + 1 ≡ self.old.spare }
    {
        match self.entries.push(entry) {
            Ok(()) => self.room -= 1,
            Err(_) => unreachable!(),
        }
    }

    pub(crate) fn pop(&mut self) -> Option<Undo>
        ensures { MatchOption result ((self.old.entries ≡ []) × (self.new ≡ self.old)) (λ entry. (self.old.entries ≡ entry ∷ self.new.entries) × (self.new.spare ≡ self.old.spare + 1)) }
    {
        let entry = self.entries.pop()?;
        self.room += 1;
        Some(entry)
    }
}
