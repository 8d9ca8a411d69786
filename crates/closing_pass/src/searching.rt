// Searching the next faults of a pass.
ghost use Rattle.std.specs.Prelude.{◌≡◌, ◌≤◌, ◌<◌, ◌++◌, ◌∷◌, [], IfOk, IfSome, IsNone, OnOk, length, slice_set};
ghost use Rattle.fault_sim.specs.LaneStates.{Fits};
ghost use Rattle.gate_graph.specs.Circuit.{net_of};
ghost use Rattle.gate_net.specs.Net.{source_count};
ghost use Rattle.closing_pass.specs.Inner.Findings.{AreLong, HasCome};
ghost use Rattle.closing_pass.specs.Inner.Searching.{HasTaken, IsSearched, tree_in};
ghost use Rattle.closing_pass.specs.Verdicts.{HavePins};

use crate::answers::Answers;
use crate::batching::answer_batch;
use crate::choosing::choose;
use crate::effort::Effort;
use crate::finding::Finding;
use crate::trying::try_kept;
use fault_sim::{Lanes, Observabilities};
use gate_graph::Graph;
use podem::Verdict;
use refutation::Tree;
use rm_base::{Fault, Gate, NoMemory, Settings, Vector};
use std::alloc::Global;
use std::thread::Threads;

// Takes the verdict of the fault at a place: a vector is kept. The tree, where the fault is refuted.
fn take_one(
    verdict: Verdict,
    place: usize,
    found: &mut Vec<Finding>,
    kept: &mut Vec<Vector>,
) -> Result<Option<Tree>, NoMemory>
    requires place { place < length found.old.items }
    ensures taken { OnOk result (HasTaken verdict place kept.old.items kept.new.items found.old.items found.new.items) }
    ensures tree { IfOk result (λ tree. tree ≡ tree_in verdict) }
{
    match verdict {
        Verdict::Refuted(tree) => Ok(Some(tree)),
        Verdict::Spent(tree) => {
            found[place] = Finding::Spent(tree);
            Ok(None)
        }
        Verdict::Detected(vector) => {
            found[place] = Finding::Detected(kept.len());
            kept.push(vector)?;
            Ok(None)
        }
    }
}

// Searches the next open faults; once the work has reached its limit nothing more is done where a search is cut short. Their verdicts are
// taken in order, up to the first that is refuted.
fn search_next<R: Threads + Sync, G: Gate>(
    rt: &R,
    alloc: Global,
    graph: &Graph,
    faults: &[Fault],
    settings: &Settings,
    gate: &G,
    effort: Effort,
    found: &mut Vec<Finding>,
    kept: &mut Vec<Vector>,
    next: &mut usize,
    work: &mut u64,
) -> Result<Option<(Fault, Tree)>, NoMemory>
    requires pins { HavePins (net_of graph.now) faults.now }
    requires depth { settings.now.depth ≤ 2 }
    requires budget { 0 < settings.now.budget }
    requires workers { (0 < settings.now.workers) × (settings.now.workers ≤ 64) }
    requires come { HasCome (net_of graph.now) settings.now.budget kept.old.items (length kept.old.items) faults.now found.old.items next.old }
    requires next { next.old < length faults.now }
    ensures searched { IfOk result (IsSearched (net_of graph.now) settings.now.budget kept.new.items (length kept.old.items) faults.now found.new.items next.old next.new) }
    ensures long { OnOk result (AreLong kept.new.items (source_count (net_of graph.now))) }
    ensures more { OnOk result (length kept.old.items ≤ length kept.new.items) }
{
    let chosen = choose(alloc, faults, found, *next)?;
    let effort = if settings.is_worked_off(*work) {
        Effort::Once
    } else {
        effort
    };
    let Answers {
        verdicts,
        work: done,
    } = answer_batch(
        rt,
        alloc,
        graph,
        chosen.faults.as_slice(),
        settings,
        gate,
        effort,
    )?;
    *work = work.saturating_add(done);
    let mut at = 0usize;
    for verdict in verdicts {
        if let Some(tree) = take_one(verdict, chosen.places[at], found, kept)? {
            return Ok(Some((chosen.faults[at], tree)));
        }
        at += 1;
    }
    *next = chosen.next;
    Ok(None)
}

/// Searches the next 64 open faults of a pass, or as many as there are, and tries the vectors that this finds on each
/// fault that is sought. The first refuted fault, with its tree, ends it. `work` counts on.
pub(crate) fn search_and_try<R: Threads + Sync, G: Gate>(
    rt: &R,
    alloc: Global,
    graph: &Graph,
    faults: &[Fault],
    settings: &Settings,
    gate: &G,
    effort: Effort,
    lanes: &mut Lanes,
    notes: &mut Observabilities,
    found: &mut Vec<Finding>,
    kept: &mut Vec<Vector>,
    next: &mut usize,
    work: &mut u64,
) -> Result<Option<(Fault, Tree)>, NoMemory>
    requires pins { HavePins (net_of graph.now) faults.now }
    requires depth { settings.now.depth ≤ 2 }
    requires budget { 0 < settings.now.budget }
    requires workers { (0 < settings.now.workers) × (settings.now.workers ≤ 64) }
    requires come { HasCome (net_of graph.now) settings.now.budget kept.old.items (length kept.old.items) faults.now found.old.items next.old }
    requires next { next.old < length faults.now }
    requires fits { Fits lanes.old (net_of graph.now) }
    ensures searched { IfOk result (IsSearched (net_of graph.now) settings.now.budget kept.new.items (length kept.new.items) faults.now found.new.items next.old next.new) }
    ensures long { OnOk result (AreLong kept.new.items (source_count (net_of graph.now))) }
    ensures fits { OnOk result (Fits lanes.new (net_of graph.now)) }
{
    let tried = kept.len();
    let refuted = search_next(
        rt, alloc, graph, faults, settings, gate, effort, found, kept, next, work,
    )?;
    if let Some(found_refuted) = refuted {
        return Ok(Some(found_refuted));
    }
    try_kept(
        alloc,
        graph,
        faults,
        kept.as_slice(),
        lanes,
        notes,
        found,
        tried,
    )?;
    Ok(None)
}
