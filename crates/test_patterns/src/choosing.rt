// An order of vectors in which those that detect most come first. It makes the patterns fewer, and no answer depends on it.
ghost use Rattle.std.specs.Prelude.{◌≡◌, length};
ghost use Rattle.fault_sim.specs.LaneStates.{Fits};
ghost use Rattle.gate_graph.specs.Circuit.{net_of};
ghost use Rattle.test_patterns.specs.Inner.Drafts.{HavePins};

use crate::assigning::Known;
use crate::gathering::{Caught, gather};
use crate::grouping::Grouped;
use crate::groups::words_of;
use fault_sim::Lanes;
use rm_base::NoMemory;
use std::alloc::Global;

// A fault that so many of the vectors detect is easy, and no more are listed for it.
const ENOUGH: usize = 16;

// Vectors and faults that they detect, by their numbers: the i-th vector detects the i-th fault. And how many there are of
// each fault; those with enough are marked.
#[derive(Drop)]
struct Pairs {
    vectors: Vec<usize>,
    faults: Vec<usize>,
    counts: Vec<usize>,
    easy: Vec<Option<usize>>,
}

// Lists the lanes that detect one fault.
fn list_lanes(group: &[usize], one: Caught, pairs: &mut Pairs) -> Result<(), NoMemory> {
    let mut count = 0usize;
    for lane in 0..64u32 {
        if (one.lanes >> lane) & 1 == 1 {
            if let Some(number) = group.get(lane as usize).copied() {
                pairs.vectors.push(number)?;
                pairs.faults.push(one.at)?;
                count = count.saturating_add(1);
            }
        }
    }
    if one.at < pairs.counts.len() && one.at < pairs.easy.len() {
        pairs.counts[one.at] = pairs.counts[one.at].saturating_add(count);
        if pairs.counts[one.at] >= ENOUGH {
            pairs.easy[one.at] = Some(0);
        }
    }
    Ok(())
}

// Lists the faults that a group of vectors detects.
fn list_group(
    alloc: Global,
    known: &Known<'_>,
    lanes: &mut Lanes,
    group: &[usize],
    pairs: &mut Pairs,
) -> Result<(), NoMemory>
    requires pins { HavePins (net_of known.now.graph.now) known.now.faults.now }
    requires fits { Fits lanes.old (net_of known.now.graph.now) }
    ensures fits { Fits lanes.new (net_of known.now.graph.now) }
{
    let words = words_of(alloc, known.vectors, group, known.graph.source_count())?;
    lanes.simulate64(known.graph, words.as_slice());
    let caught = gather(
        alloc,
        known.graph,
        known.faults,
        known.numbers,
        pairs.easy.as_slice(),
        lanes,
    )?;
    for one in caught.as_slice() {
        list_lanes(group, *one, pairs)?;
    }
    Ok(())
}

// Lists the faults that the vectors of an order detect.
fn list_pairs(alloc: Global, known: &Known<'_>, order: &[usize]) -> Result<Pairs, NoMemory>
    requires pins { HavePins (net_of known.now.graph.now) known.now.faults.now }
{
    let mut lanes = Lanes::new(alloc, known.graph)?;
    let mut pairs = Pairs {
        vectors: Vec::new(alloc),
        faults: Vec::new(alloc),
        counts: vec![in alloc; 0usize; known.faults.len()]?,
        easy: vec![in alloc; None; known.faults.len()]?,
    };
    let mut from = 0usize;
    while from < order.len() {
        let count = (order.len() - from).min(64);
        list_group(
            alloc,
            known,
            &mut lanes,
            &order[from..from + count],
            &mut pairs,
        )?;
        from += count;
    }
    Ok(pairs)
}

// How many faults that no chosen vector detects each vector detects.
#[derive(Drop)]
struct Gains {
    left: Vec<usize>,
    covered: Vec<bool>,
}

// One fault more is detected.
fn cover(gains: &mut Gains, fault: usize, detecting: &[usize]) {
    if fault >= gains.covered.len() || gains.covered[fault] {
        return;
    }
    gains.covered[fault] = true;
    for vector in detecting {
        if *vector < gains.left.len() {
            gains.left[*vector] = gains.left[*vector].saturating_sub(1);
        }
    }
}

// Takes a vector.
fn take(gains: &mut Gains, detected: &[usize], by_fault: &Grouped) {
    for fault in detected {
        cover(gains, *fault, by_fault.members(*fault));
    }
}

fn gain_of(gains: &Gains, vector: usize) -> usize {
    match gains.left.get(vector) {
        Some(gain) => *gain,
        None => 0,
    }
}

// The vectors by what they gain, in chains: the first of each gain, and the next of each vector.
#[derive(Drop)]
struct Chains {
    firsts: Vec<Option<usize>>,
    nexts: Vec<Option<usize>>,
}

// Puts a vector in front of the chain of a gain.
fn put(chains: &mut Chains, vector: usize, gain: usize) {
    if gain < chains.firsts.len() && vector < chains.nexts.len() {
        chains.nexts[vector] = chains.firsts[gain];
        chains.firsts[gain] = Some(vector);
    }
}

// Takes a vector off the front of the chain of a gain.
fn pop(chains: &mut Chains, gain: usize) -> Option<usize> {
    if gain >= chains.firsts.len() {
        return None;
    }
    let vector = chains.firsts[gain]?;
    chains.firsts[gain] = match chains.nexts.get(vector) {
        Some(next) => *next,
        None => None,
    };
    Some(vector)
}

// Chains of all vectors, the later ones in front.
fn chains_of(alloc: Global, gains: &Gains, most: usize) -> Result<Chains, NoMemory> {
    let mut chains = Chains {
        firsts: vec![in alloc; None; most]?,
        nexts: vec![in alloc; None; gains.left.len()]?,
    };
    for vector in 0..gains.left.len() {
        put(&mut chains, vector, gain_of(gains, vector));
    }
    Ok(chains)
}

// Takes the vectors that still gain so much; the others move to the chains of what they gain now.
fn take_chain(
    gains: &mut Gains,
    chains: &mut Chains,
    gain: usize,
    by_vector: &Grouped,
    by_fault: &Grouped,
    order: &mut Vec<usize>,
) -> Result<(), NoMemory> {
    for _ in 0..gains.left.len() {
        let Some(vector) = pop(chains, gain) else {
            return Ok(());
        };
        let now = gain_of(gains, vector);
        if now == gain {
            order.push(vector)?;
            take(gains, by_vector.members(vector), by_fault);
        } else {
            put(chains, vector, now);
        }
    }
    Ok(())
}

/// The vectors of an order that detect what no other before them does, the one that gains most always next. Of a fault that
/// many detect only some are looked at.
pub(crate) fn greedy_order(
    alloc: Global,
    known: &Known<'_>,
    order: &[usize],
) -> Result<Vec<usize>, NoMemory>
    requires pins { HavePins (net_of known.now.graph.now) known.now.faults.now }
{
    let pairs = list_pairs(alloc, known, order)?;
    let by_vector = Grouped::new(
        alloc,
        known.vectors.len(),
        pairs.vectors.as_slice(),
        pairs.faults.as_slice(),
    )?;
    let by_fault = Grouped::new(
        alloc,
        known.faults.len(),
        pairs.faults.as_slice(),
        pairs.vectors.as_slice(),
    )?;
    let mut gains = Gains {
        left: by_vector.sizes(alloc)?,
        covered: vec![in alloc; false; known.faults.len()]?,
    };
    let most = known.faults.len();
    let mut chains = chains_of(alloc, &gains, most.saturating_add(1))?;
    let mut chosen = Vec::new(alloc);
    for back in 0..most {
        take_chain(
            &mut gains,
            &mut chains,
            most - back,
            &by_vector,
            &by_fault,
            &mut chosen,
        )?;
    }
    Ok(chosen)
}
