//! The records of all pins, with the free ones among them.
ghost use Rattle.std.specs.Prelude.{IfSome, Some, slice_get, take, drop, ◌∷◌, ◌++◌, [], true, false, ◌≡◌, ◌≢◌, ◌<◌, ◌≤◌, ◌+◌, ◌-◌, ◌↔◌, ℕ, length, IfOk, IsErr, OnErr, OnOk};
ghost use Rattle.std.specs.FinSet as set;
ghost use Rattle.pin_pool.specs.Ring.{has};
ghost use Rattle.pin_pool.specs.Inner.Ring.{without_pin};
ghost use Rattle.pin_pool.specs.Pins.{list_of};
ghost use Rattle.pin_pool.specs.Inner.Pointed.{IsThere};
ghost use Rattle.pin_pool.specs.Inner.Places.{GrowsTo, HasDriver, HasPlace, IsFree, IsHeld, IsKept, IsPlace, code as code_of, moved_after, moved_last, named as name_of, put_at, with_list};
ghost use Rattle.rm_base.specs.Numbers.{number_bound};

use crate::finger::Finger;
use crate::links::{Ends, NONE, Pin, Side, move_after, move_all, move_back, move_last};
use crate::names::{Full, PinNo, Slot, Splice};
use crate::pin_iter::PinIter;
use crate::rings::{link, relink, unlink};
use crate::room::grow;
use rm_base::NoMemory;
use std::alloc::Global;
use std::marker::Model;

// The records, the free ones by number, and the ends of the rings of each node.
#[derive(Drop)]
pub(crate) struct Store {
    pub(crate) pins: Vec<Pin>,
    pub(crate) free: Vec<u32>,
    pub(crate) gates: Vec<Ends>,
    pub(crate) drivers: Vec<Ends>,
}

impl Model for Store {
    ghost use Rattle.pin_pool.specs.Pins.{Pins, pins_code};

    ghost Value = { Pins };

    ghost coded = { pins_code };

    ghost use Rattle.std.specs.Prelude.{vec_capacity};
    ghost use Rattle.pin_pool.specs.Inner.Records.{IsPool, pins_of};

    ghost view = { λ p. pins_of p.pins.items p.free.items p.gates.items p.drivers.items };

    ghost invariant = { λ p. IsPool p.pins.items p.free.items (vec_capacity p.free) p.gates.items p.drivers.items };
}

impl Store {
    pub(crate) fn new(alloc: Global) -> Store
        ensures inputs { result.inputs ≡ [] }
        ensures fanouts { result.fanouts ≡ [] }
        ensures spare { result.spare ≡ 0 }
        ensures taken { result.taken ≡ set.empty }
    {
        Store {
            pins: Vec::new(alloc),
            free: Vec::new(alloc),
            gates: Vec::new(alloc),
            drivers: Vec::new(alloc),
        }
    }

    // Tells what holds of every store.
    pub(crate) fn tell_kept(&self)
        ensures { IsKept self.now }
    {
        let _pins = &self.pins;
    }

    pub(crate) fn spare(&self) -> usize
        ensures { result ≡ self.now.spare }
    {
        self.free.len()
    }

    pub(crate) fn reserve(&mut self, pins: usize, nodes: usize) -> Result<(), NoMemory>
        requires pins { set.len self.old.taken + pins ≤ number_bound }
        requires nodes { nodes ≤ number_bound }
        ensures spare { OnOk result (pins ≤ self.new.spare) }
        ensures more { self.old.spare ≤ self.new.spare }
        ensures nodes { OnOk result (nodes ≤ length self.new.inputs) }
        ensures exact { OnOk result ((n : ℕ) → nodes ≤ n → length self.old.inputs ≤ n → length self.new.inputs ≤ n) }
        ensures grown { OnOk result (GrowsTo self.old self.new) }
        ensures refused { OnErr result (self.new ≡ self.old) }
    {
        let more = pins.saturating_sub(self.free.len());
        let nodes = nodes.max(self.gates.len());
        let grown = grow(
            &mut self.pins,
            &mut self.free,
            &mut self.gates,
            &mut self.drivers,
            more,
            nodes,
        );
        let Ok(()) = grown else {
            return Err(NoMemory);
        };
        Ok(())
    }

    pub(crate) fn take(&mut self) -> Result<PinNo, Full>
        ensures full { IsErr result ↔ (self.old.spare ≡ 0) }
        ensures refused { OnErr result (self.new ≡ self.old) }
        ensures fresh { IfOk result (λ pin. set.contains self.old.taken pin.0 ≡ false) }
        ensures spare { OnOk result (self.new.spare + 1 ≡ self.old.spare) }
        ensures taken { IfOk result (λ pin. self.new.taken ≡ set.insert self.old.taken pin.0) }
        ensures inputs { self.new.inputs ≡ self.old.inputs }
        ensures fanouts { self.new.fanouts ≡ self.old.fanouts }
        ensures loose { IfOk result (λ pin. IsFree self.new pin.0) }
    {
        let Some(pin) = self.free.pop() else {
            return Err(Full);
        };
        Ok(PinNo(pin))
    }

    pub(crate) fn give_back(&mut self, pin: PinNo)
        requires { IsFree self.old pin.0 }
        ensures { self.new ≡ record self.old { taken = set.remove self.old.taken pin.0; spare = self.old.spare + 1 } }
    {
        match self.free.push(pin.0) {
            Ok(()) => {}
            Err(_) => unreachable!(),
        }
    }

    pub(crate) fn link(&mut self, pin: PinNo, gate: u32, driver: u32)
        requires loose { IsFree self.old pin.0 }
        requires gate { gate < length self.old.inputs }
        requires driver { driver < length self.old.fanouts }
        ensures { self.new ≡ record self.old {
          inputs = with_list self.old.inputs gate (list_of self.old.inputs gate ++ pin.0 ∷ []);
          fanouts = with_list self.old.fanouts driver (list_of self.old.fanouts driver ++ pin.0 ∷ []);
        } }
    {
        link(
            &mut self.pins,
            &mut self.gates,
            &mut self.drivers,
            pin.0,
            gate,
            driver,
        );
    }

    pub(crate) fn unlink(&mut self, pin: PinNo) -> Slot
        requires { IsHeld self.old pin.0 }
        ensures in_gate { IsPlace self.old.inputs pin.0 result.gate result.in_gate }
        ensures in_driver { IsPlace self.old.fanouts pin.0 result.driver result.in_driver }
        ensures lists { self.new ≡ record self.old {
          inputs = without_pin pin.0 self.old.inputs;
          fanouts = without_pin pin.0 self.old.fanouts;
        } }
    {
        let (gate, driver) = unlink(&mut self.pins, &mut self.gates, &mut self.drivers, pin.0);
        Slot {
            gate: gate.node,
            driver: driver.node,
            in_gate: pin_with_number(gate.previous),
            in_driver: pin_with_number(driver.previous),
        }
    }

    pub(crate) fn relink(&mut self, pin: PinNo, slot: Slot)
        requires { HasPlace self.old pin.0 slot }
        ensures { self.new ≡ record self.old {
          inputs = with_list self.old.inputs slot.gate (put_at (list_of self.old.inputs slot.gate) slot.in_gate pin.0);
          fanouts = with_list self.old.fanouts slot.driver (put_at (list_of self.old.fanouts slot.driver) slot.in_driver pin.0);
        } }
    {
        relink(
            &mut self.pins,
            &mut self.gates,
            &mut self.drivers,
            pin.0,
            slot.gate,
            code(slot.in_gate),
            slot.driver,
            code(slot.in_driver),
        );
    }

    pub(crate) fn move_to_driver(&mut self, pin: PinNo, driver: u32) -> Slot
        requires linked { IsHeld self.old pin.0 }
        requires driver { driver < length self.old.fanouts }
        ensures in_gate { IsPlace self.old.inputs pin.0 result.gate result.in_gate }
        ensures in_driver { IsPlace self.old.fanouts pin.0 result.driver result.in_driver }
        ensures lists { self.new ≡ record self.old { fanouts = moved_last self.old.fanouts pin.0 driver } }
    {
        let gate = self.pins[pin.0 as usize].gate;
        let place = move_last(
            &mut self.pins,
            &mut self.drivers,
            Side::Driver,
            pin.0,
            driver,
        );
        Slot {
            gate: gate.node,
            driver: place.node,
            in_gate: pin_with_number(gate.previous),
            in_driver: pin_with_number(place.previous),
        }
    }

    pub(crate) fn restore_driver(&mut self, pin: PinNo, slot: Slot)
        requires { HasDriver self.old pin.0 slot }
        ensures { self.new ≡ record self.old { fanouts = moved_after self.old.fanouts pin.0 slot.driver slot.in_driver } }
    {
        move_after(
            &mut self.pins,
            &mut self.drivers,
            Side::Driver,
            pin.0,
            slot.driver,
            code(slot.in_driver),
        );
    }

    pub(crate) fn move_all(&mut self, from: u32, to: u32) -> Splice
        requires from { from < length self.old.fanouts }
        requires to { to < length self.old.fanouts }
        requires apart { from ≢ to }
        ensures splice { (result.from ≡ from) × (result.to ≡ to) × (result.count ≡ length (list_of self.old.fanouts from)) }
        ensures lists { self.new ≡ record self.old {
          fanouts = with_list (with_list self.old.fanouts from []) to (list_of self.old.fanouts to ++ list_of self.old.fanouts from);
        } }
    {
        let count = move_all(&mut self.pins, &mut self.drivers, Side::Driver, from, to);
        Splice { from, to, count }
    }

    pub(crate) fn move_back(&mut self, splice: Splice)
        requires from { splice.from < length self.old.fanouts }
        requires to { splice.to < length self.old.fanouts }
        requires apart { splice.from ≢ splice.to }
        requires empty { list_of self.old.fanouts splice.from ≡ [] }
        requires enough { splice.count ≤ length (list_of self.old.fanouts splice.to) }
        ensures { let pins = list_of self.old.fanouts splice.to in let left = length pins - splice.count in self.new ≡ record self.old {
          fanouts = with_list (with_list self.old.fanouts splice.to (take left pins)) splice.from (drop left pins);
        } }
    {
        move_back(
            &mut self.pins,
            &mut self.drivers,
            Side::Driver,
            splice.from,
            splice.to,
            splice.count,
        );
    }

    pub(crate) fn inputs(&self, gate: u32) -> PinIter<'_>
        requires { gate < length self.now.inputs }
        ensures list { result ≡ list_of self.now.inputs gate }
        ensures few { length result ≤ number_bound }
    {
        PinIter {
            pins: &self.pins,
            side: Side::Gate,
            at: self.gates[gate as usize].first,
        }
    }

    // The inputs of a gate from a pin on.
    pub(crate) fn inputs_from(&self, at: Finger) -> PinIter<'_>
        requires { IsThere self.now at }
        ensures list { result ≡ drop at.position (list_of self.now.inputs at.gate) }
        ensures few { length result ≤ number_bound }
    {
        PinIter {
            pins: &self.pins,
            side: Side::Gate,
            at: at.pin.0,
        }
    }

    // The place of a pin, once this one is taken out, of the pin after it.
    pub(crate) fn after(&self, at: Finger) -> Option<Finger>
        requires { IsThere self.now at }
        ensures { IfSome result (λ f. (f.gate ≡ at.gate) × ((f.position ≡ at.position) × (slice_get (list_of self.now.inputs at.gate) (at.position + 1) ≡ Some f.pin.0))) }
    {
        let mut pins = self.inputs_from(at);
        let _ = pins.next();
        let Some(pin) = pins.next() else {
            return None;
        };
        Some(Finger {
            gate: at.gate,
            position: at.position,
            pin,
        })
    }

    pub(crate) fn fanouts(&self, driver: u32) -> PinIter<'_>
        requires { driver < length self.now.fanouts }
        ensures list { result ≡ list_of self.now.fanouts driver }
        ensures few { length result ≤ number_bound }
    {
        PinIter {
            pins: &self.pins,
            side: Side::Driver,
            at: self.drivers[driver as usize].first,
        }
    }

    pub(crate) fn gate_of(&self, pin: PinNo) -> u32
        requires { IsHeld self.now pin.0 }
        ensures { (result < length self.now.inputs) × (has pin.0 (list_of self.now.inputs result) ≡ true) }
    {
        self.pins[pin.0 as usize].gate.node
    }

    pub(crate) fn driver_of(&self, pin: PinNo) -> u32
        requires { IsHeld self.now pin.0 }
        ensures { (result < length self.now.fanouts) × (has pin.0 (list_of self.now.fanouts result) ≡ true) }
    {
        self.pins[pin.0 as usize].driver.node
    }
}

// The pin with a number, and none for the last number.
fn pin_with_number(at: u32) -> Option<PinNo>
    ensures { result ≡ name_of at }
{
    if at == NONE { None } else { Some(PinNo(at)) }
}

// The number of a pin, and the last number for none.
fn code(pin: Option<PinNo>) -> u32
    ensures { result ≡ code_of pin }
{
    match pin {
        None => NONE,
        Some(pin) => pin.0,
    }
}
