//! On which places what is known of gates rests.
ghost use Rattle.std.specs.Prelude.{◌≡◌, ◌<◌, ◌≤◌, ◌-◌, ◌+◌, ℕ, [], Some, IfOk, IsTrue, OnOk, false, length, slice_get, suc, take};
ghost use Rattle.gate_graph.specs.Search.{IsSeen};
ghost use Rattle.recursive_learning.specs.Resting.{IsLonger, IsWatched};
ghost use Rattle.recursive_learning.specs.Inner.Resting.{IsIndex};

use refutation::worklist::Worklist;
use rm_base::{NoMemory, NodeId};
use std::alloc::Global;
use std::marker::Model;

/// What is known of the gate rests on the place. `before` is the number of the entry before it of that place, counted
/// from 1, and 0 where there is none.
#[derive(Clone, Copy, Debug)]
pub struct Rest {
    pub place: u32,
    pub gate: u32,
    pub before: u32,
}

/// The places on which what is known of gates rests. The gates of a place are found from the last one back.
#[derive(Drop)]
pub struct Rests {
    entries: Vec<Rest>,
    last: Vec<u32>,
}

impl Model for Rests {
    ghost use Rattle.std.specs.Prelude.{length};
    ghost use Rattle.recursive_learning.specs.Resting.{RestsState};
    ghost use Rattle.recursive_learning.specs.Inner.Resting.{IsIndex};

    ghost Value = { RestsState };

    ghost view = { λ r. record { numbers = length r.last.items; entries = r.entries.items } };

    ghost invariant = { λ r. IsIndex r.entries.items r.last.items };
}

// No entry of any place.
fn no_entries(alloc: Global, numbers: u32) -> Result<Vec<u32>, NoMemory>
    ensures { IfOk result (λ v. IsIndex [] v.items × (length v.items ≡ numbers)) }
{
    Ok(vec![in alloc; 0u32; numbers as usize]?)
}

// Appends an entry.
fn push_entry(
    entries: &mut Vec<Rest>,
    last: &mut Vec<u32>,
    place: u32,
    gate: u32,
) -> Result<(), NoMemory>
    requires index { IsIndex entries.old.items last.old.items }
    requires place { place < length last.old.items }
    requires gate { gate < length last.old.items }
    ensures index { IsIndex entries.new.items last.new.items }
    ensures longer { IsLonger entries.old.items entries.new.items }
    ensures numbers { length last.new.items ≡ length last.old.items }
    ensures watched { OnOk result (IsWatched entries.new.items place gate) }
{
    let count = entries.len();
    if count >= u32::MAX as usize {
        return Err(NoMemory);
    }
    let before = last[place as usize];
    entries.push(Rest {
        place,
        gate,
        before,
    })?;
    last[place as usize] = count as u32 + 1;
    Ok(())
}

// Takes the last entry off.
fn pop_entry(entries: &mut Vec<Rest>, last: &mut Vec<u32>)
    requires index { IsIndex entries.old.items last.old.items }
    requires some { 0 < length entries.old.items }
    ensures index { IsIndex entries.new.items last.new.items }
    ensures cut { entries.new.items ≡ take (length entries.old.items - 1) entries.old.items }
    ensures fewer { length entries.new.items + 1 ≡ length entries.old.items }
    ensures numbers { length last.new.items ≡ length last.old.items }
{
    let Some(entry) = entries.pop() else {
        return;
    };
    last[entry.place as usize] = entry.before;
}

// Whether that entry is of the gate.
fn is_of_gate(entries: &[Rest], number: u32, gate: u32) -> bool
    requires { number ≤ length entries.now }
    ensures { IsTrue result → (k : ℕ) × ((e : Rest) × ((number ≡ suc k) × ((slice_get entries.now k ≡ Some e) × (e.gate ≡ gate)))) }
{
    if number == 0 {
        return false;
    }
    entries[number as usize - 1].gate == gate
}

impl Rests {
    /// None, for node numbers below `numbers`.
    pub fn new(alloc: Global, numbers: u32) -> Result<Rests, NoMemory>
        ensures numbers { IfOk result (λ r. r.numbers ≡ numbers) }
        ensures entries { IfOk result (λ r. r.entries ≡ []) }
    {
        Ok(Rests {
            entries: Vec::new(alloc),
            last: no_entries(alloc, numbers)?,
        })
    }

    /// What is known of the gate rests on the place too. Where the gate came last there, it isn't put down again.
    pub fn add(&mut self, gate: NodeId, place: NodeId) -> Result<(), NoMemory>
        requires place { place.0 < self.old.numbers }
        requires gate { gate.0 < self.old.numbers }
        ensures longer { IsLonger self.old.entries self.new.entries }
        ensures numbers { self.new.numbers ≡ self.old.numbers }
        ensures watched { OnOk result (IsWatched self.new.entries place.0 gate.0) }
    {
        let number = self.last[place.0 as usize];
        if is_of_gate(&self.entries, number, gate.0) {
            return Ok(());
        }
        push_entry(&mut self.entries, &mut self.last, place.0, gate.0)
    }

    /// Lists the gates that rest on the place.
    pub fn list_at(&self, place: NodeId, listed: &mut Worklist)
        requires place { place.0 < self.now.numbers }
        requires room { self.now.numbers ≤ length listed.old }
        ensures kept { (y : ℕ) → IsSeen listed.old y → IsSeen listed.new y }
        ensures all { (y : ℕ) → IsWatched self.now.entries place.0 y → IsSeen listed.new y }
        ensures size { length listed.new ≡ length listed.old }
    {
        let mut number = self.last[place.0 as usize];
        while number > 0 {
            let entry = self.entries[number as usize - 1];
            listed.add(NodeId(entry.gate));
            number = entry.before;
        }
    }

    /// For how many node numbers.
    pub fn numbers(&self) -> usize
        ensures { result ≡ self.now.numbers }
    {
        self.last.len()
    }

    /// How many entries there are, to come back to by `take_back`.
    pub fn count(&self) -> usize
        ensures { result ≡ length self.now.entries }
    {
        self.entries.len()
    }

    /// Takes the entries back that came after the first ones.
    pub fn take_back(&mut self, count: usize)
        requires { count ≤ length self.old.entries }
        ensures entries { self.new.entries ≡ take count self.old.entries }
        ensures numbers { self.new.numbers ≡ self.old.numbers }
    {
        while self.entries.len() > count {
            pop_entry(&mut self.entries, &mut self.last);
        }
    }
}
