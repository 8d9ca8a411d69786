//! Copying the records.
ghost use Rattle.std.specs.Prelude.{◌≡◌, ◌+◌, ◌≤◌, ◌||◌, ℕ, true, false, IfOk, length, replicate, vec_capacity};
ghost use Rattle.std.specs.FinSet as set;
ghost use Rattle.pin_pool.specs.Ring.{has};
ghost use Rattle.pin_pool.specs.Inner.Links.{AllWithin, AreLists, lists_of};
ghost use Rattle.pin_pool.specs.Inner.Marks.{is_listed, is_marked, unmarked_from};
ghost use Rattle.pin_pool.specs.Inner.Places.{IsListed};
ghost use Rattle.pin_pool.specs.declared.links.Side.TheVariants.{Gate};
ghost use Rattle.rm_base.specs.Numbers.{number_bound};

use crate::links::{Ends, Pin, Side};
use crate::pin_iter::PinIter;
use crate::store::Store;
use rm_base::NoMemory;
use std::alloc::Global;

// Marks the pins of a ring.
fn mark_ring(pins: PinIter<'_>, marks: &mut [bool])
    requires { AllWithin pins (length marks.old) }
    ensures { (q : ℕ) → is_marked marks.new q ≡ (has q pins.entry || is_marked marks.old q) }
{
    for pin in pins {
        marks[pin.0 as usize] = true;
    }
}

// Marks the pins that are in the ring of a gate.
fn mark_linked(pins: &[Pin], gates: &[Ends], marks: &mut [bool])
    requires lists { AreLists Gate pins.now gates.now }
    requires clear { marks.old ≡ replicate (length pins.now) false }
    ensures { (q : ℕ) → is_marked marks.new q ≡ is_listed q (lists_of Gate pins.now gates.now) }
{
    for ends in gates {
        let ring = PinIter {
            pins,
            side: Side::Gate,
            at: ends.first,
        };
        mark_ring(ring, marks);
    }
}

// The numbers without a mark, with room for all.
fn unmarked_numbers(alloc: Global, marks: &[bool]) -> Result<Vec<u32>, NoMemory>
    requires { length marks.now ≤ number_bound }
    ensures numbers { IfOk result (λ v. v.items ≡ unmarked_from 0 marks.now) }
    ensures room { IfOk result (λ v. length marks.now ≤ vec_capacity v) }
{
    let mut numbers = Vec::with_capacity(alloc, marks.len())?;
    for at in 0..marks.len() {
        if !marks[at] {
            numbers.push(at as u32)?;
        }
    }
    Ok(numbers)
}

impl Store {
    // A store with the same rings, in which only the pins of rings are taken.
    pub(crate) fn copy(&self, alloc: Global) -> Result<Store, NoMemory>
        requires { (q : ℕ) → IsListed self.now.fanouts q → IsListed self.now.inputs q }
        ensures inputs { IfOk result (λ s. s.inputs ≡ self.now.inputs) }
        ensures fanouts { IfOk result (λ s. s.fanouts ≡ self.now.fanouts) }
        ensures taken { IfOk result (λ s. (q : ℕ) → set.contains s.taken q ≡ true → IsListed s.inputs q) }
        ensures pins { IfOk result (λ s. set.len s.taken + s.spare ≡ set.len self.now.taken + self.now.spare) }
    {
        let mut marks = vec![in alloc; false; self.pins.len()]?;
        mark_linked(&self.pins, &self.gates, &mut marks);
        let free = unmarked_numbers(alloc, &marks)?;
        Ok(Store {
            pins: Vec::from_slice(alloc, &self.pins)?,
            free,
            gates: Vec::from_slice(alloc, &self.gates)?,
            drivers: Vec::from_slice(alloc, &self.drivers)?,
        })
    }
}
