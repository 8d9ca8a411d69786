//! The pool and its calls.
ghost use Rattle.std.specs.Prelude.{Some, drop, slice_get, ◌≡◌, ◌≢◌, ◌<◌, ◌≤◌, ◌+◌, ◌↔◌, ℕ, true, false, length, IfOk, IsErr, OnErr, OnOk};
ghost use Rattle.std.specs.FinSet as set;
ghost use Rattle.pin_pool.specs.Ring.{has};
ghost use Rattle.pin_pool.specs.Pins.{admitted};
ghost use Rattle.pin_pool.specs.Rings.{AreRings, CanMoveBack, CanRelink, CanRestore, IsLinked, IsLoose, IsValid, Rings, Stood, claimed, joined, moved, moved_back, no_rings, redriven, relinked, restored, returned, rings_of, unlinked};
ghost use Rattle.pin_pool.specs.Totals.{linked_pins};
ghost use Rattle.pin_pool.specs.declared.names.Slot.{Slot};
ghost use Rattle.pin_pool.specs.declared.names.Splice.{Splice};
ghost use Rattle.rm_base.specs.Numbers.{number_bound};

use crate::counts::{count_in, count_out, widen};
use crate::finger::{Finger, skip};
use crate::names::{Full, PinNo, Slot, Splice};
use crate::pin_iter::PinIter;
use crate::store::Store;
use rm_base::NoMemory;
use std::alloc::Global;
use std::marker::Model;

/// Pins, each free, taken, or taken and linked to a gate and a driver.
///
/// Node numbers below some bound are admitted. A node has two lists of pins: its inputs, of which it
/// is the gate, and its fanouts, of which it is the driver. No call but `reserve` takes memory.
#[derive(Drop)]
pub struct Pool {
    store: Store,
    // Where `unlink_at` took a pin out last.
    finger: Option<Finger>,
    // How many inputs each node has, and how many all have.
    counts: Vec<u32>,
    linked: u32,
}

impl Model for Pool {
    ghost use Rattle.pin_pool.specs.Pins.{Pins, pins_code};

    ghost Value = { Pins };

    ghost coded = { pins_code };

    ghost use Rattle.pin_pool.specs.Inner.Places.{ArePaired};
    ghost use Rattle.pin_pool.specs.Inner.Pointed.{IsPointed};
    ghost use Rattle.pin_pool.specs.Rings.{rings_of};
    ghost use Rattle.pin_pool.specs.Inner.Totals.{IsCounted};

    ghost view = { λ p. p.store };

    ghost invariant = { λ p. ArePaired (rings_of p.store) × (IsPointed p.store p.finger × IsCounted p.store p.counts.items p.linked) };
}

impl Pool {
    /// A pool that admits no node. It takes no memory.
    pub fn new(alloc: Global) -> Pool
        ensures rings { rings_of result ≡ no_rings }
        ensures taken { result.taken ≡ set.empty }
        ensures spare { result.spare ≡ 0 }
        ensures nodes { admitted result ≡ 0 }
        ensures valid { IsValid result }
    {
        let store = Store::new(alloc);
        store.tell_kept();
        Pool {
            store,
            finger: None,
            counts: Vec::new(alloc),
            linked: 0,
        }
    }

    /// A pool with the same lists and as many pins, in which the pins that aren't linked are free. It takes the
    /// time of the pins and the nodes.
    pub fn copy(&self, alloc: Global) -> Result<Pool, NoMemory>
        ensures inputs { IfOk result (λ p. p.inputs ≡ self.now.inputs) }
        ensures fanouts { IfOk result (λ p. p.fanouts ≡ self.now.fanouts) }
        ensures taken { IfOk result (λ p. (q : ℕ) → set.contains p.taken q ≡ true → IsLinked (rings_of p) q) }
        ensures pins { IfOk result (λ p. set.len p.taken + p.spare ≡ set.len self.now.taken + self.now.spare) }
        ensures valid { IfOk result (λ p. IsValid p) }
    {
        let store = self.store.copy(alloc)?;
        store.tell_kept();
        let counts = Vec::from_slice(alloc, &self.counts)?;
        Ok(Pool {
            store,
            finger: None,
            counts,
            linked: self.linked,
        })
    }

    /// How many pins may be taken before more room is reserved.
    pub fn spare(&self) -> usize
        ensures spare { result ≡ self.now.spare }
        ensures valid { IsValid self.now }
    {
        self.store.tell_kept();
        self.store.spare()
    }

    /// Makes room for `pins` more pins, and admits the node numbers below `nodes`.
    pub fn reserve(&mut self, pins: usize, nodes: usize) -> Result<(), NoMemory>
        requires pins { set.len self.old.taken + pins ≤ number_bound }
        requires nodes { nodes ≤ number_bound }
        ensures spare { OnOk result (pins ≤ self.new.spare) }
        ensures more { self.old.spare ≤ self.new.spare }
        ensures nodes { OnOk result (nodes ≤ admitted self.new) }
        ensures admitted { admitted self.old ≤ admitted self.new }
        ensures rings { rings_of self.new ≡ rings_of self.old }
        ensures relinks { (p : ℕ) (slot : Slot) → CanRelink self.old p slot → CanRelink self.new p slot }
        ensures restores { (p : ℕ) (slot : Slot) → CanRestore self.old p slot → CanRestore self.new p slot }
        ensures moves_back { (splice : Splice) → CanMoveBack self.old splice → CanMoveBack self.new splice }
        ensures taken { self.new.taken ≡ self.old.taken }
        ensures refused { OnErr result (self.new ≡ self.old) }
        ensures valid { IsValid self.new }
    {
        self.store.tell_kept();
        self.finger = None;
        widen(&mut self.counts, nodes)?;
        let done = self.store.reserve(pins, nodes);
        self.store.tell_kept();
        done
    }

    /// Takes a free pin, in constant time.
    pub fn take(&mut self) -> Result<PinNo, Full>
        ensures full { IsErr result ↔ (self.old.spare ≡ 0) }
        ensures refused { OnErr result (self.new ≡ self.old) }
        ensures fresh { IfOk result (λ pin. (rings_of self.old).taken pin.0 ≡ false) }
        ensures rings { IfOk result (λ pin. rings_of self.new ≡ claimed pin.0 (rings_of self.old)) }
        ensures loose { IfOk result (λ pin. IsLoose (rings_of self.new) pin.0) }
        ensures taken { IfOk result (λ pin. self.new.taken ≡ set.insert self.old.taken pin.0) }
        ensures spare { OnOk result (self.new.spare + 1 ≡ self.old.spare) }
        ensures nodes { admitted self.new ≡ admitted self.old }
        ensures valid { IsValid self.new }
    {
        self.finger = None;
        let pin = self.store.take();
        self.store.tell_kept();
        pin
    }

    /// Frees a pin that isn't linked, in constant time.
    pub fn give_back(&mut self, pin: PinNo)
        requires { IsLoose (rings_of self.old) pin.0 }
        ensures rings { rings_of self.new ≡ returned pin.0 (rings_of self.old) }
        ensures taken { self.new.taken ≡ set.remove self.old.taken pin.0 }
        ensures spare { self.new.spare ≡ self.old.spare + 1 }
        ensures nodes { admitted self.new ≡ admitted self.old }
        ensures valid { IsValid self.new }
    {
        self.store.tell_kept();
        self.finger = None;
        self.store.give_back(pin);
        self.store.tell_kept();
    }

    /// Makes a pin the last input of a gate and the last fanout of a driver, in constant time.
    pub fn link(&mut self, pin: PinNo, gate: u32, driver: u32)
        requires loose { IsLoose (rings_of self.old) pin.0 }
        requires gate { gate < admitted self.old }
        requires driver { driver < admitted self.old }
        ensures rings { rings_of self.new ≡ joined pin.0 gate driver (rings_of self.old) }
        ensures linked { IsLinked (rings_of self.new) pin.0 }
        ensures others { (q : ℕ) → IsLinked (rings_of self.old) q → IsLinked (rings_of self.new) q }
        ensures taken { self.new.taken ≡ self.old.taken }
        ensures spare { self.new.spare ≡ self.old.spare }
        ensures nodes { admitted self.new ≡ admitted self.old }
        ensures valid { IsValid self.new }
    {
        self.store.tell_kept();
        self.finger = None;
        self.store.link(pin, gate, driver);
        self.store.tell_kept();
        count_in(&mut self.counts, &mut self.linked, gate);
    }

    /// Takes a pin out of both its lists, in constant time, and gives the place that it had. The pin stays taken.
    pub fn unlink(&mut self, pin: PinNo) -> Slot
        requires { IsLinked (rings_of self.old) pin.0 }
        ensures rings { rings_of self.new ≡ unlinked pin.0 (rings_of self.old) }
        ensures stood { Stood (rings_of self.old) pin.0 result }
        ensures back { CanRelink self.new pin.0 result }
        ensures others { (q : ℕ) → q ≢ pin.0 → IsLinked (rings_of self.old) q → IsLinked (rings_of self.new) q }
        ensures taken { self.new.taken ≡ self.old.taken }
        ensures spare { self.new.spare ≡ self.old.spare }
        ensures nodes { admitted self.new ≡ admitted self.old }
        ensures was_valid { IsValid self.old }
        ensures valid { IsValid self.new }
    {
        self.store.tell_kept();
        self.finger = None;
        let slot = self.store.unlink(pin);
        self.store.tell_kept();
        count_out(&mut self.counts, &mut self.linked, slot.gate);
        slot
    }

    /// Does what `unlink` does, for the pin at a position of a gate, and lets `inputs_from` begin there. It takes the
    /// time of `unlink`.
    pub fn unlink_at(&mut self, pin: PinNo, gate: u32, position: u32) -> Slot
        requires { slice_get ((rings_of self.old).inputs gate) position ≡ Some pin.0 }
        ensures rings { rings_of self.new ≡ unlinked pin.0 (rings_of self.old) }
        ensures stood { Stood (rings_of self.old) pin.0 result }
        ensures back { CanRelink self.new pin.0 result }
        ensures others { (q : ℕ) → q ≢ pin.0 → IsLinked (rings_of self.old) q → IsLinked (rings_of self.new) q }
        ensures taken { self.new.taken ≡ self.old.taken }
        ensures spare { self.new.spare ≡ self.old.spare }
        ensures nodes { admitted self.new ≡ admitted self.old }
        ensures was_valid { IsValid self.old }
        ensures valid { IsValid self.new }
    {
        let next = self.store.after(Finger {
            gate,
            position,
            pin,
        });
        let slot = self.unlink(pin);
        self.finger = next;
        slot
    }

    /// Puts a pin that isn't linked into both lists that the slot names, in constant time: it undoes `unlink`.
    pub fn relink(&mut self, pin: PinNo, slot: Slot)
        requires { CanRelink self.old pin.0 slot }
        ensures rings { rings_of self.new ≡ relinked pin.0 slot (rings_of self.old) }
        ensures undoes { (before : Rings) → AreRings before → Stood before pin.0 slot → rings_of self.old ≡ unlinked pin.0 before → rings_of self.new ≡ before }
        ensures linked { IsLinked (rings_of self.new) pin.0 }
        ensures others { (q : ℕ) → IsLinked (rings_of self.old) q → IsLinked (rings_of self.new) q }
        ensures taken { self.new.taken ≡ self.old.taken }
        ensures spare { self.new.spare ≡ self.old.spare }
        ensures nodes { admitted self.new ≡ admitted self.old }
        ensures valid { IsValid self.new }
    {
        self.store.tell_kept();
        self.finger = None;
        self.store.relink(pin, slot);
        self.store.tell_kept();
        count_in(&mut self.counts, &mut self.linked, slot.gate);
    }

    /// Makes a pin the last fanout of another driver, in constant time, and gives the place that it had.
    /// It keeps its place in its gate. The driver may be the one that it has.
    pub fn move_to_driver(&mut self, pin: PinNo, driver: u32) -> Slot
        requires linked { IsLinked (rings_of self.old) pin.0 }
        requires driver { driver < admitted self.old }
        ensures rings { rings_of self.new ≡ redriven pin.0 driver (rings_of self.old) }
        ensures stood { Stood (rings_of self.old) pin.0 result }
        ensures back { CanRestore self.new pin.0 result }
        ensures taken { self.new.taken ≡ self.old.taken }
        ensures spare { self.new.spare ≡ self.old.spare }
        ensures nodes { admitted self.new ≡ admitted self.old }
        ensures was_valid { IsValid self.old }
        ensures valid { IsValid self.new }
    {
        self.store.tell_kept();
        self.finger = None;
        let slot = self.store.move_to_driver(pin, driver);
        self.store.tell_kept();
        slot
    }

    /// Gives a pin the driver and the place among its fanouts that the slot names, in constant time: it undoes
    /// `move_to_driver`. The pin keeps its place in its gate, whatever the slot says of that.
    pub fn restore_driver(&mut self, pin: PinNo, slot: Slot)
        requires { CanRestore self.old pin.0 slot }
        ensures rings { rings_of self.new ≡ restored pin.0 slot (rings_of self.old) }
        ensures undoes { (before : Rings) (driver : ℕ) → AreRings before → Stood before pin.0 slot → rings_of self.old ≡ redriven pin.0 driver before → rings_of self.new ≡ before }
        ensures taken { self.new.taken ≡ self.old.taken }
        ensures spare { self.new.spare ≡ self.old.spare }
        ensures nodes { admitted self.new ≡ admitted self.old }
        ensures valid { IsValid self.new }
    {
        self.store.tell_kept();
        self.finger = None;
        self.store.restore_driver(pin, slot);
        self.store.tell_kept();
    }

    /// Appends all fanouts of one node, in order, to those of another, in the time of the pins moved.
    pub fn move_all(&mut self, from: u32, to: u32) -> Splice
        requires from { from < admitted self.old }
        requires to { to < admitted self.old }
        requires apart { from ≢ to }
        ensures rings { rings_of self.new ≡ moved from to (rings_of self.old) }
        ensures splice { (result.from ≡ from) × (result.to ≡ to) × (result.count ≡ length ((rings_of self.old).fanouts from)) }
        ensures back { CanMoveBack self.new result }
        ensures taken { self.new.taken ≡ self.old.taken }
        ensures spare { self.new.spare ≡ self.old.spare }
        ensures nodes { admitted self.new ≡ admitted self.old }
        ensures valid { IsValid self.new }
    {
        self.store.tell_kept();
        self.finger = None;
        let splice = self.store.move_all(from, to);
        self.store.tell_kept();
        splice
    }

    /// Makes the last fanouts of one node, in order, those of another that has none, in the time of the pins
    /// moved: it undoes `move_all`.
    pub fn move_back(&mut self, splice: Splice)
        requires { CanMoveBack self.old splice }
        ensures rings { rings_of self.new ≡ moved_back splice (rings_of self.old) }
        ensures undoes { (before : Rings) → splice.count ≡ length (before.fanouts splice.from) → rings_of self.old ≡ moved splice.from splice.to before → rings_of self.new ≡ before }
        ensures taken { self.new.taken ≡ self.old.taken }
        ensures spare { self.new.spare ≡ self.old.spare }
        ensures nodes { admitted self.new ≡ admitted self.old }
        ensures valid { IsValid self.new }
    {
        self.store.tell_kept();
        self.finger = None;
        self.store.move_back(splice);
        self.store.tell_kept();
    }

    /// The pins whose gate is the node, in order.
    pub fn inputs(&self, gate: u32) -> PinIter<'_>
        requires { gate < admitted self.now }
        ensures list { result ≡ (rings_of self.now).inputs gate }
        ensures few { length result ≤ number_bound }
        ensures valid { IsValid self.now }
    {
        self.store.tell_kept();
        self.store.inputs(gate)
    }

    /// The pins whose gate is the node, in order, from a position on. It takes the time of the pins before it, or of
    /// those since the position at which `unlink_at` took a pin out, if that was the last change.
    pub fn inputs_from(&self, gate: u32, position: u32) -> PinIter<'_>
        requires { gate < admitted self.now }
        ensures list { result ≡ drop position ((rings_of self.now).inputs gate) }
        ensures few { length result ≤ number_bound }
        ensures valid { IsValid self.now }
    {
        self.store.tell_kept();
        if let Some(finger) = self.finger {
            if finger.gate == gate {
                if finger.position <= position {
                    let rest = self.store.inputs_from(finger);
                    return skip(rest, position - finger.position);
                }
            }
        }
        skip(self.store.inputs(gate), position)
    }

    /// How many pins have the node as their gate, in constant time.
    pub fn input_count(&self, gate: u32) -> u32
        requires { gate < admitted self.now }
        ensures { result ≡ length ((rings_of self.now).inputs gate) }
    {
        self.counts[gate as usize]
    }

    /// How many pins are linked, in constant time.
    pub fn linked_count(&self) -> u32
        ensures { result ≡ linked_pins self.now }
    {
        self.linked
    }

    /// The pins whose driver is the node, in order.
    pub fn fanouts(&self, driver: u32) -> PinIter<'_>
        requires { driver < admitted self.now }
        ensures list { result ≡ (rings_of self.now).fanouts driver }
        ensures few { length result ≤ number_bound }
        ensures valid { IsValid self.now }
    {
        self.store.tell_kept();
        self.store.fanouts(driver)
    }

    /// The node that is a linked pin's gate, in constant time.
    pub fn gate_of(&self, pin: PinNo) -> u32
        requires { IsLinked (rings_of self.now) pin.0 }
        ensures gate { has pin.0 ((rings_of self.now).inputs result) ≡ true }
        ensures within { result < admitted self.now }
        ensures valid { IsValid self.now }
    {
        self.store.tell_kept();
        self.store.gate_of(pin)
    }

    /// The node that is a linked pin's driver, in constant time.
    pub fn driver_of(&self, pin: PinNo) -> u32
        requires { IsLinked (rings_of self.now) pin.0 }
        ensures driver { has pin.0 ((rings_of self.now).fanouts result) ≡ true }
        ensures within { result < admitted self.now }
        ensures valid { IsValid self.now }
    {
        self.store.tell_kept();
        self.store.driver_of(pin)
    }
}
