// Patterns out of vectors in a given order: each vector is one that detects a fault which none before it does.
ghost use Rattle.std.specs.Prelude.{◌≡◌, ◌<◌, ℕ, Bool, List, IfOk, OnOk, Some, length, slice_get};
ghost use Rattle.fault_sim.specs.LaneStates.{Fits};
ghost use Rattle.gate_graph.specs.Circuit.{net_of};
ghost use Rattle.gate_net.specs.Net.{source_count};
ghost use Rattle.test_patterns.specs.TestSets.{AreKnown, AreTests};
ghost use Rattle.test_patterns.specs.Inner.Drafts.{AreEmpty, HasFewer, HavePins, IsClosed, IsDraft, IsExtended};
ghost use Rattle.test_patterns.specs.Inner.Groups.{AreGathered};

use crate::gathering::{Caught, gather, is_open};
use crate::groups::{is_in_lane, words_alone, words_of};
use crate::marking::add_lane_pattern;
use crate::set::Draft;
use fault_sim::Lanes;
use gate_graph::Graph;
use rm_base::{Fault, NoMemory, Vector};
use std::alloc::Global;

/// The faults of a net with the vectors that are known for them: for each fault the number of a vector, or None.
#[derive(Clone, Copy)]
pub(crate) struct Known<'a> {
    pub(crate) graph: &'a Graph,
    pub(crate) faults: &'a [Fault],
    pub(crate) vectors: &'a [Vector],
    pub(crate) numbers: &'a [Option<usize>],
}

// Adds the vector of a group that has that place in it, where it stands in that lane of the words.
fn add_in_lane(
    known: &Known<'_>,
    words: &[u64],
    caught: &[Caught],
    lane: u32,
    group: &[usize],
    set: &mut Draft,
) -> Result<(), NoMemory>
    requires lane { lane < 64 }
    requires size { length words.now ≡ source_count (net_of known.now.graph.now) }
    requires draft { IsDraft (net_of known.now.graph.now) known.now.faults.now known.now.vectors.now known.now.numbers.now set.old.patterns.items set.old.firsts.items }
    requires gathered { AreGathered (net_of known.now.graph.now) known.now.faults.now known.now.numbers.now set.old.firsts.items words.now caught.now }
    ensures draft { OnOk result (IsDraft (net_of known.now.graph.now) known.now.faults.now known.now.vectors.now known.now.numbers.now set.new.patterns.items set.new.firsts.items) }
    ensures fewer { OnOk result (HasFewer set.old.firsts.items set.new.firsts.items) }
{
    let Some(number) = group.get(lane as usize).copied() else {
        return Ok(());
    };
    let Some(vector) = known.vectors.get(number) else {
        return Ok(());
    };
    if !is_in_lane(words, lane, vector.values()) {
        return Ok(());
    }
    add_lane_pattern(set, caught, lane, number)
}

// Adds the vectors of a group that stand in the lanes, in their order.
fn add_lanes(
    known: &Known<'_>,
    words: &[u64],
    caught: &[Caught],
    group: &[usize],
    set: &mut Draft,
) -> Result<(), NoMemory>
    requires size { length words.now ≡ source_count (net_of known.now.graph.now) }
    requires draft { IsDraft (net_of known.now.graph.now) known.now.faults.now known.now.vectors.now known.now.numbers.now set.old.patterns.items set.old.firsts.items }
    requires gathered { AreGathered (net_of known.now.graph.now) known.now.faults.now known.now.numbers.now set.old.firsts.items words.now caught.now }
    ensures { OnOk result (IsDraft (net_of known.now.graph.now) known.now.faults.now known.now.vectors.now known.now.numbers.now set.new.patterns.items set.new.firsts.items) }
{
    for lane in 0..64u32 {
        add_in_lane(known, words, caught, lane, group, set)?;
    }
    Ok(())
}

// Adds the vectors of a group, the first 64, in their order.
fn add_group(
    alloc: Global,
    known: &Known<'_>,
    lanes: &mut Lanes,
    group: &[usize],
    set: &mut Draft,
) -> Result<(), NoMemory>
    requires pins { HavePins (net_of known.now.graph.now) known.now.faults.now }
    requires fits { Fits lanes.old (net_of known.now.graph.now) }
    requires draft { IsDraft (net_of known.now.graph.now) known.now.faults.now known.now.vectors.now known.now.numbers.now set.old.patterns.items set.old.firsts.items }
    ensures draft { OnOk result (IsDraft (net_of known.now.graph.now) known.now.faults.now known.now.vectors.now known.now.numbers.now set.new.patterns.items set.new.firsts.items) }
    ensures fits { OnOk result (Fits lanes.new (net_of known.now.graph.now)) }
{
    let words = words_of(alloc, known.vectors, group, known.graph.source_count())?;
    lanes.simulate64(known.graph, words.as_slice());
    let caught = gather(
        alloc,
        known.graph,
        known.faults,
        known.numbers,
        set.firsts.as_slice(),
        lanes,
    )?;
    add_lanes(known, words.as_slice(), caught.as_slice(), group, set)
}

// Adds all vectors of an order.
fn add_all(
    alloc: Global,
    known: &Known<'_>,
    lanes: &mut Lanes,
    order: &[usize],
    set: &mut Draft,
) -> Result<(), NoMemory>
    requires pins { HavePins (net_of known.now.graph.now) known.now.faults.now }
    requires fits { Fits lanes.old (net_of known.now.graph.now) }
    requires draft { IsDraft (net_of known.now.graph.now) known.now.faults.now known.now.vectors.now known.now.numbers.now set.old.patterns.items set.old.firsts.items }
    ensures draft { OnOk result (IsDraft (net_of known.now.graph.now) known.now.faults.now known.now.vectors.now known.now.numbers.now set.new.patterns.items set.new.firsts.items) }
    ensures fits { OnOk result (Fits lanes.new (net_of known.now.graph.now)) }
{
    let mut from = 0usize;
    while from < order.len() {
        let count = (order.len() - from).min(64);
        add_group(alloc, known, lanes, &order[from..from + count], set)?;
        from += count;
    }
    Ok(())
}

// Adds the vector of a number, of as many values as there are sources, alone.
fn add_alone(
    alloc: Global,
    known: &Known<'_>,
    lanes: &mut Lanes,
    number: usize,
    set: &mut Draft,
) -> Result<(), NoMemory>
    requires pins { HavePins (net_of known.now.graph.now) known.now.faults.now }
    requires fits { Fits lanes.old (net_of known.now.graph.now) }
    requires long { (v : List Bool) → slice_get known.now.vectors.now number ≡ Some v → length v ≡ source_count (net_of known.now.graph.now) }
    requires draft { IsDraft (net_of known.now.graph.now) known.now.faults.now known.now.vectors.now known.now.numbers.now set.old.patterns.items set.old.firsts.items }
    ensures extended { OnOk result ((v : List Bool) → slice_get known.now.vectors.now number ≡ Some v
        → IsExtended (net_of known.now.graph.now) known.now.faults.now known.now.vectors.now known.now.numbers.now set.new.patterns.items set.old.firsts.items set.new.firsts.items v) }
    ensures fits { OnOk result (Fits lanes.new (net_of known.now.graph.now)) }
{
    let Some(vector) = known.vectors.get(number) else {
        return Ok(());
    };
    let words = words_alone(alloc, vector.values())?;
    lanes.simulate64(known.graph, words.as_slice());
    let caught = gather(
        alloc,
        known.graph,
        known.faults,
        known.numbers,
        set.firsts.as_slice(),
        lanes,
    )?;
    add_lane_pattern(set, caught.as_slice(), 0, number)
}

// Adds the vector of the fault of a number, where it is open.
fn add_if_open(
    alloc: Global,
    known: &Known<'_>,
    lanes: &mut Lanes,
    at: usize,
    set: &mut Draft,
) -> Result<(), NoMemory>
    requires at { at < length known.now.numbers.now }
    requires pins { HavePins (net_of known.now.graph.now) known.now.faults.now }
    requires known { AreKnown (net_of known.now.graph.now) known.now.faults.now known.now.vectors.now known.now.numbers.now }
    requires fits { Fits lanes.old (net_of known.now.graph.now) }
    requires draft { IsDraft (net_of known.now.graph.now) known.now.faults.now known.now.vectors.now known.now.numbers.now set.old.patterns.items set.old.firsts.items }
    ensures closed { OnOk result (IsClosed (net_of known.now.graph.now) known.now.faults.now known.now.vectors.now known.now.numbers.now set.new.patterns.items set.old.firsts.items set.new.firsts.items at) }
    ensures fits { OnOk result (Fits lanes.new (net_of known.now.graph.now)) }
{
    if !is_open(known.numbers, set.firsts.as_slice(), at) {
        return Ok(());
    }
    let Some(number) = known.numbers[at] else {
        return Ok(());
    };
    add_alone(alloc, known, lanes, number, set)
}

// Adds the vectors of the faults that are still open.
fn add_open(
    alloc: Global,
    known: &Known<'_>,
    lanes: &mut Lanes,
    set: &mut Draft,
) -> Result<(), NoMemory>
    requires pins { HavePins (net_of known.now.graph.now) known.now.faults.now }
    requires known { AreKnown (net_of known.now.graph.now) known.now.faults.now known.now.vectors.now known.now.numbers.now }
    requires size { length known.now.numbers.now ≡ length known.now.faults.now }
    requires fits { Fits lanes.old (net_of known.now.graph.now) }
    requires draft { IsDraft (net_of known.now.graph.now) known.now.faults.now known.now.vectors.now known.now.numbers.now set.old.patterns.items set.old.firsts.items }
    ensures tests { OnOk result (AreTests (net_of known.now.graph.now) known.now.faults.now known.now.vectors.now known.now.numbers.now set.new.patterns.items set.new.firsts.items) }
{
    for at in 0..known.numbers.len() {
        add_if_open(alloc, known, lanes, at, set)?;
    }
    Ok(())
}

// Nothing for each of so many faults.
fn none_each(alloc: Global, count: usize) -> Result<Vec<Option<usize>>, NoMemory>
    ensures size { IfOk result (λ firsts. length firsts.items ≡ count) }
    ensures empty { IfOk result (λ firsts. AreEmpty firsts.items) }
{
    let mut firsts = Vec::new(alloc);
    for _at in 0..count {
        firsts.push(None)?;
    }
    Ok(firsts)
}

/// The patterns that come of vectors in an order. Where those of the order don't detect each fault, vectors that are known
/// for the others are added.
pub(crate) fn assign(alloc: Global, known: &Known<'_>, order: &[usize]) -> Result<Draft, NoMemory>
    requires pins { HavePins (net_of known.now.graph.now) known.now.faults.now }
    requires known { AreKnown (net_of known.now.graph.now) known.now.faults.now known.now.vectors.now known.now.numbers.now }
    requires size { length known.now.numbers.now ≡ length known.now.faults.now }
    ensures { IfOk result (λ s. AreTests (net_of known.now.graph.now) known.now.faults.now known.now.vectors.now known.now.numbers.now s.patterns.items s.firsts.items) }
{
    let mut lanes = Lanes::new(alloc, known.graph)?;
    let mut set = Draft {
        patterns: Vec::new(alloc),
        firsts: none_each(alloc, known.faults.len())?,
    };
    add_all(alloc, known, &mut lanes, order, &mut set)?;
    add_open(alloc, known, &mut lanes, &mut set)?;
    Ok(set)
}
