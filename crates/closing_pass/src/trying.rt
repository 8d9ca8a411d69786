// Trying kept vectors on the faults that no vector detects yet, 64 at once.
ghost use Rattle.std.specs.Prelude.{◌≡◌, ◌≤◌, ◌<◌, ◌+◌, ℕ, Bool, List, IfSome, IsNone, OnOk, length};
ghost use Rattle.fault_sim.specs.LaneStates.{Fits, IsSimulated};
ghost use Rattle.fault_sim.specs.Observing.{AreObservabilities};
ghost use Rattle.fault_sim.specs.Words.{assignment};
ghost use Rattle.gate_graph.specs.Circuit.{net_of};
ghost use Rattle.gate_net.specs.Net.{Net, source_count};
ghost use Rattle.gate_net.specs.Values.{Detects};
ghost use Rattle.closing_pass.specs.Inner.Findings.{AreLong};
ghost use Rattle.closing_pass.specs.Inner.Trying.{AreInLanes, HasTried, HasTriedOn};
ghost use Rattle.closing_pass.specs.Verdicts.{HavePins};

use crate::finding::{Finding, is_sought};
use crate::words::words_of;
use fault_sim::{Lanes, Observabilities};
use gate_graph::{Graph, Question};
use rm_base::{Fault, NoMemory, Vector};
use std::alloc::Global;

// The first of so many lanes whose vector detects the fault.
fn first_lane(
    question: &Question<'_>,
    lanes: &mut Lanes,
    notes: &mut Observabilities,
    count: usize,
) -> Option<usize>
    requires fits { Fits lanes.old (net_of question.now.graph.now) }
    requires simulated { IsSimulated lanes.old (net_of question.now.graph.now) }
    requires right { AreObservabilities notes.old (net_of question.now.graph.now) lanes.old.words }
    requires few { count ≤ 64 }
    ensures first { IfSome result (λ i. (i < count) × Detects (net_of question.now.graph.now) question.now.fault (assignment lanes.old.words i)) }
    ensures none { IsNone result → (i : ℕ) → i < count → Detects (net_of question.now.graph.now) question.now.fault (assignment lanes.old.words i) → ⊥ }
    ensures same { lanes.new ≡ lanes.old }
    ensures right { AreObservabilities notes.new (net_of question.now.graph.now) lanes.old.words }
{
    let Some(lane) = lanes.first_detecting_sharing(question, notes) else {
        return None;
    };
    if (lane as usize) < count {
        Some(lane as usize)
    } else {
        None
    }
}

// Tries the kept vectors in the lanes, which are so many from the first on, on the fault at a place.
fn try_on(
    question: &Question<'_>,
    kept: &[Vector],
    lanes: &mut Lanes,
    notes: &mut Observabilities,
    found: &mut Vec<Finding>,
    place: usize,
    first: usize,
    count: usize,
)
    requires fits { Fits lanes.old (net_of question.now.graph.now) }
    requires simulated { IsSimulated lanes.old (net_of question.now.graph.now) }
    requires right { AreObservabilities notes.old (net_of question.now.graph.now) lanes.old.words }
    requires few { count ≤ 64 }
    requires numbers { first + count ≤ length kept.now }
    requires long { AreLong kept.now (source_count (net_of question.now.graph.now)) }
    requires packed { AreInLanes kept.now first count lanes.old.words }
    requires place { place < length found.old.items }
    ensures tried { HasTriedOn (net_of question.now.graph.now) kept.now first (first + count) question.now.fault place found.old.items found.new.items }
    ensures same { lanes.new ≡ lanes.old }
    ensures right { AreObservabilities notes.new (net_of question.now.graph.now) lanes.old.words }
{
    if !is_sought(&found[place]) {
        return;
    }
    if let Some(lane) = first_lane(question, lanes, notes, count) {
        found[place] = Finding::Detected(first + lane);
    }
}

// The same on each fault.
fn try_on_each(
    graph: &Graph,
    faults: &[Fault],
    kept: &[Vector],
    lanes: &mut Lanes,
    notes: &mut Observabilities,
    found: &mut Vec<Finding>,
    first: usize,
    count: usize,
)
    requires pins { HavePins (net_of graph.now) faults.now }
    requires fits { Fits lanes.old (net_of graph.now) }
    requires simulated { IsSimulated lanes.old (net_of graph.now) }
    requires right { AreObservabilities notes.old (net_of graph.now) lanes.old.words }
    requires few { count ≤ 64 }
    requires numbers { first + count ≤ length kept.now }
    requires long { AreLong kept.now (source_count (net_of graph.now)) }
    requires packed { AreInLanes kept.now first count lanes.old.words }
    requires size { length found.old.items ≡ length faults.now }
    ensures tried { HasTried (net_of graph.now) kept.now first (first + count) faults.now found.old.items found.new.items }
    ensures same { lanes.new ≡ lanes.old }
{
    for place in 0..faults.len() {
        let question = Question {
            graph,
            fault: faults[place],
        };
        try_on(&question, kept, lanes, notes, found, place, first, count);
    }
}

// Tries so many kept vectors from one number on.
fn try_some(
    alloc: Global,
    graph: &Graph,
    faults: &[Fault],
    kept: &[Vector],
    lanes: &mut Lanes,
    notes: &mut Observabilities,
    found: &mut Vec<Finding>,
    first: usize,
    count: usize,
) -> Result<(), NoMemory>
    requires pins { HavePins (net_of graph.now) faults.now }
    requires fits { Fits lanes.old (net_of graph.now) }
    requires few { count ≤ 64 }
    requires numbers { first + count ≤ length kept.now }
    requires long { AreLong kept.now (source_count (net_of graph.now)) }
    requires size { length found.old.items ≡ length faults.now }
    ensures tried { OnOk result (HasTried (net_of graph.now) kept.now first (first + count) faults.now found.old.items found.new.items) }
    ensures fits { OnOk result (Fits lanes.new (net_of graph.now)) }
{
    let vectors = &kept[first..first + count];
    let words = words_of(alloc, vectors, graph.source_count())?;
    lanes.simulate64(graph, words.as_slice());
    notes.forget();
    try_on_each(graph, faults, kept, lanes, notes, found, first, count);
    Ok(())
}

/// Tries the kept vectors from one number on, 64 at once, on each fault that is sought.
pub(crate) fn try_kept(
    alloc: Global,
    graph: &Graph,
    faults: &[Fault],
    kept: &[Vector],
    lanes: &mut Lanes,
    notes: &mut Observabilities,
    found: &mut Vec<Finding>,
    from: usize,
) -> Result<(), NoMemory>
    requires pins { HavePins (net_of graph.now) faults.now }
    requires fits { Fits lanes.old (net_of graph.now) }
    requires from { from ≤ length kept.now }
    requires long { AreLong kept.now (source_count (net_of graph.now)) }
    requires size { length found.old.items ≡ length faults.now }
    ensures tried { OnOk result (HasTried (net_of graph.now) kept.now from (length kept.now) faults.now found.old.items found.new.items) }
    ensures fits { OnOk result (Fits lanes.new (net_of graph.now)) }
{
    let mut first = from;
    while first < kept.len() {
        let count = (kept.len() - first).min(64);
        try_some(
            alloc, graph, faults, kept, lanes, notes, found, first, count,
        )?;
        first += count;
    }
    Ok(())
}
