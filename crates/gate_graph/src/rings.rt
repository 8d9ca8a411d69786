//! Calls of the pool, by node number.
ghost use Rattle.std.specs.Prelude.{◌≡◌, ◌≢◌, ◌+◌, ◌<◌, ◌≤◌, [], true, false, length, ℕ, map, Some, slice_get};
ghost use Rattle.std.specs.FinSet as set;
ghost use Rattle.pin_pool.specs.Ring.{has, without};
ghost use Rattle.pin_pool.specs.Pins.{StandsIn, list_of};
ghost use Rattle.gate_graph.specs.Circuit.{gate_pins};
ghost use Rattle.gate_graph.specs.Inner.Filled.{IsFilled};
ghost use Rattle.pin_pool.specs.Rings.{rings_of, linked, dropped, unlinked, relinked, redriven, restored, moved, moved_back, IsIn, IsOut, AreRings, Stood};
ghost use Rattle.rm_base.specs.Numbers.{number_bound};

use pin_pool::{PinNo, Pool, Slot, Splice};
use rm_base::NodeId;

// Tells that no pin stands twice.
pub(crate) fn tell_rings(pool: &Pool)
    ensures rings { AreRings (rings_of pool.now) }
    ensures nodes { length pool.now.fanouts ≡ length pool.now.inputs }
    ensures few { set.len pool.now.taken + pool.now.spare ≤ number_bound }
{
    let _spare = pool.spare();
}

// Links a new pin last in both lists.
pub(crate) fn link_new(pool: &mut Pool, gate: u32, driver: u32) -> PinNo
    requires spare { 0 < pool.old.spare }
    requires gate { gate < length pool.old.inputs }
    requires driver { driver < length pool.old.inputs }
    ensures fresh { set.contains pool.old.taken result.0 ≡ false }
    ensures rings { rings_of pool.new ≡ linked result.0 gate driver (rings_of pool.old) }
    ensures spare { pool.new.spare + 1 ≡ pool.old.spare }
    ensures nodes { length pool.new.inputs ≡ length pool.old.inputs }
    ensures taken { set.len pool.new.taken ≡ set.len pool.old.taken + 1 }
{
    tell_rings(pool);
    match pool.take() {
        Ok(pin) => {
            pool.link(pin, gate, driver);
            pin
        }
        Err(_) => unreachable!(),
    }
}

// Takes a pin out of both lists for good.
pub(crate) fn drop_pin(pool: &mut Pool, pin: PinNo)
    requires gate { IsIn (rings_of pool.old).inputs pin.0 }
    requires driver { IsIn (rings_of pool.old).fanouts pin.0 }
    ensures rings { rings_of pool.new ≡ dropped pin.0 (rings_of pool.old) }
    ensures spare { pool.new.spare ≡ pool.old.spare + 1 }
    ensures nodes { length pool.new.inputs ≡ length pool.old.inputs }
    ensures taken { set.len pool.new.taken + 1 ≡ set.len pool.old.taken }
{
    tell_rings(pool);
    let _slot = pool.unlink(pin);
    pool.give_back(pin);
}

// Takes a pin out of both lists, and keeps it.
pub(crate) fn unlink_pin(pool: &mut Pool, pin: PinNo) -> Slot
    requires gate { IsIn (rings_of pool.old).inputs pin.0 }
    requires driver { IsIn (rings_of pool.old).fanouts pin.0 }
    ensures rings { rings_of pool.new ≡ unlinked pin.0 (rings_of pool.old) }
    ensures stood { Stood (rings_of pool.old) pin.0 result }
    ensures spare { pool.new.spare ≡ pool.old.spare }
    ensures nodes { length pool.new.inputs ≡ length pool.old.inputs }
    ensures taken { pool.new.taken ≡ pool.old.taken }
{
    tell_rings(pool);
    pool.unlink(pin)
}

// Does the same for the pin at a position of a gate, near which the next pins are found at once.
pub(crate) fn unlink_at(pool: &mut Pool, pin: PinNo, gate: u32, position: u32) -> Slot
    requires { Some pin.0 ≡ slice_get (gate_pins pool.old gate) position }
    ensures rings { rings_of pool.new ≡ unlinked pin.0 (rings_of pool.old) }
    ensures stood { Stood (rings_of pool.old) pin.0 result }
    ensures spare { pool.new.spare ≡ pool.old.spare }
    ensures nodes { length pool.new.inputs ≡ length pool.old.inputs }
    ensures taken { pool.new.taken ≡ pool.old.taken }
{
    tell_rings(pool);
    pool.unlink_at(pin, gate, position)
}

pub(crate) fn relink_pin(pool: &mut Pool, pin: PinNo, slot: Slot)
    requires taken { set.contains pool.old.taken pin.0 ≡ true }
    requires no_gate { IsOut (rings_of pool.old).inputs pin.0 }
    requires no_driver { IsOut (rings_of pool.old).fanouts pin.0 }
    requires gate { slot.gate < length pool.old.inputs }
    requires driver { slot.driver < length pool.old.inputs }
    requires in_gate { StandsIn ((rings_of pool.old).inputs slot.gate) slot.in_gate }
    requires in_driver { StandsIn ((rings_of pool.old).fanouts slot.driver) slot.in_driver }
    ensures rings { rings_of pool.new ≡ relinked pin.0 slot (rings_of pool.old) }
    ensures spare { pool.new.spare ≡ pool.old.spare }
    ensures nodes { length pool.new.inputs ≡ length pool.old.inputs }
    ensures taken { pool.new.taken ≡ pool.old.taken }
{
    tell_rings(pool);
    pool.relink(pin, slot);
}

pub(crate) fn redrive_pin(pool: &mut Pool, pin: PinNo, driver: u32) -> Slot
    requires gate { IsIn (rings_of pool.old).inputs pin.0 }
    requires driver { IsIn (rings_of pool.old).fanouts pin.0 }
    requires to { driver < length pool.old.inputs }
    ensures rings { rings_of pool.new ≡ redriven pin.0 driver (rings_of pool.old) }
    ensures stood { Stood (rings_of pool.old) pin.0 result }
    ensures spare { pool.new.spare ≡ pool.old.spare }
    ensures nodes { length pool.new.inputs ≡ length pool.old.inputs }
    ensures taken { pool.new.taken ≡ pool.old.taken }
{
    tell_rings(pool);
    pool.move_to_driver(pin, driver)
}

pub(crate) fn restore_pin(pool: &mut Pool, pin: PinNo, slot: Slot)
    requires gate { IsIn (rings_of pool.old).inputs pin.0 }
    requires driver { IsIn (rings_of pool.old).fanouts pin.0 }
    requires to { slot.driver < length pool.old.inputs }
    requires in_driver { StandsIn (without pin.0 ((rings_of pool.old).fanouts slot.driver)) slot.in_driver }
    ensures rings { rings_of pool.new ≡ restored pin.0 slot (rings_of pool.old) }
    ensures spare { pool.new.spare ≡ pool.old.spare }
    ensures nodes { length pool.new.inputs ≡ length pool.old.inputs }
    ensures taken { pool.new.taken ≡ pool.old.taken }
{
    tell_rings(pool);
    pool.restore_driver(pin, slot);
}

pub(crate) fn move_fanouts(pool: &mut Pool, from: u32, to: u32) -> Splice
    requires from { from < length pool.old.inputs }
    requires to { to < length pool.old.inputs }
    requires apart { from ≢ to }
    ensures rings { rings_of pool.new ≡ moved from to (rings_of pool.old) }
    ensures splice { (result.from ≡ from) × (result.to ≡ to) × (result.count ≡ length ((rings_of pool.old).fanouts from)) }
    ensures spare { pool.new.spare ≡ pool.old.spare }
    ensures nodes { length pool.new.inputs ≡ length pool.old.inputs }
    ensures taken { pool.new.taken ≡ pool.old.taken }
{
    tell_rings(pool);
    pool.move_all(from, to)
}

pub(crate) fn move_fanouts_back(pool: &mut Pool, splice: Splice)
    requires from { splice.from < length pool.old.inputs }
    requires to { splice.to < length pool.old.inputs }
    requires apart { splice.from ≢ splice.to }
    requires empty { (rings_of pool.old).fanouts splice.from ≡ [] }
    requires enough { splice.count ≤ length ((rings_of pool.old).fanouts splice.to) }
    ensures rings { rings_of pool.new ≡ moved_back splice (rings_of pool.old) }
    ensures spare { pool.new.spare ≡ pool.old.spare }
    ensures nodes { length pool.new.inputs ≡ length pool.old.inputs }
    ensures taken { pool.new.taken ≡ pool.old.taken }
{
    tell_rings(pool);
    pool.move_back(splice);
}

// Links new pins of a gate, one for each driver.
pub(crate) fn link_all(pool: &mut Pool, gate: u32, drivers: &[NodeId])
    requires spare { length drivers.now ≤ pool.old.spare }
    requires gate { gate < length pool.old.inputs }
    requires none { list_of pool.old.inputs gate ≡ [] }
    requires apart { gate ≢ 0 }
    requires drivers { (d : ℕ) → has d (map (λ n. n.0) drivers.now) ≡ true → d < length pool.old.inputs }
    ensures filled { IsFilled pool.old pool.new gate (map (λ n. n.0) drivers.now) }
    ensures nodes { length pool.new.inputs ≡ length pool.old.inputs }
    ensures taken { set.len pool.new.taken ≡ set.len pool.old.taken + length drivers.now }
{
    tell_rings(pool);
    for driver in drivers {
        let _pin = link_new(pool, gate, driver.0);
        tell_rings(pool);
    }
}
