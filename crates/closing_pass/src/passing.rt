// A pass through all faults of a graph.
ghost use Rattle.std.specs.Prelude.{◌≡◌, ◌≤◌, ◌<◌, IfOk, OnOk, length, replicate};
ghost use Rattle.gate_graph.specs.Circuit.{net_of};
ghost use Rattle.gate_net.specs.Net.{source_count};
ghost use Rattle.closing_pass.specs.Inner.Findings.{AreLong};
ghost use Rattle.closing_pass.specs.Inner.Passing.{AreKeptOf, IsPassed};
ghost use Rattle.closing_pass.specs.declared.finding.Finding.TheVariants.{Open};

use crate::answering::{USUAL_BUDGET, is_spent};
use crate::effort::Effort;
use crate::finding::Finding;
use crate::searching::search_and_try;
use crate::trying::try_kept;
use crate::used::used_vectors;
use crate::verdicts::verdicts_of;
use fault_sim::{Lanes, Observabilities};
use gate_graph::{Graph, faults_of};
use podem::Verdict;
use refutation::Tree;
use rm_base::{Fault, Gate, NoMemory, Settings, Vector};
use std::alloc::Global;
use std::thread::Threads;

/// How a pass ended.
#[derive(Drop)]
pub(crate) enum Passed {
    /// Every fault has a vector or a spent search.
    Closed(Vec<(Fault, Verdict)>),
    /// A fault that no assignment detects.
    Refuted { fault: Fault, tree: Tree },
}

// No fault is looked at yet.
fn all_open(alloc: Global, count: usize) -> Result<Vec<Finding>, NoMemory>
    ensures { IfOk result (λ v. v.items ≡ replicate count Open) }
{
    let mut found = Vec::with_capacity(alloc, count)?;
    for _place in 0..count {
        found.push(Finding::Open)?;
    }
    Ok(found)
}

// Goes through the faults of the graph. Those that a kept vector detects have the first such vector; the next 64
// others are searched together, with that effort, and the vectors that this finds are kept. Where every fault is
// closed, only the vectors that a verdict has stay kept. `work` counts on.
fn pass<R: Threads + Sync, G: Gate>(
    rt: &R,
    alloc: Global,
    graph: &Graph,
    settings: &Settings,
    gate: &G,
    effort: Effort,
    kept: &mut Vec<Vector>,
    work: &mut u64,
) -> Result<Passed, NoMemory>
    requires depth { settings.now.depth ≤ 2 }
    requires budget { 0 < settings.now.budget }
    requires workers { (0 < settings.now.workers) × (settings.now.workers ≤ 64) }
    requires long { AreLong kept.old.items (source_count (net_of graph.now)) }
    ensures passed { IfOk result (IsPassed (net_of graph.now) settings.now.budget) }
    ensures kept { IfOk result (AreKeptOf kept.new.items) }
    ensures long { OnOk result (AreLong kept.new.items (source_count (net_of graph.now))) }
{
    let all = faults_of(alloc, graph)?;
    let faults = all.as_slice();
    let mut lanes = Lanes::new(alloc, graph)?;
    let mut notes = Observabilities::new(alloc, graph.node_bound() as usize)?;
    let mut found = all_open(alloc, faults.len())?;
    try_kept(
        alloc,
        graph,
        faults,
        kept.as_slice(),
        &mut lanes,
        &mut notes,
        &mut found,
        0,
    )?;
    let mut next = 0usize;
    while next < faults.len() {
        let refuted = search_and_try(
            rt, alloc, graph, faults, settings, gate, effort, &mut lanes, &mut notes, &mut found,
            kept, &mut next, work,
        )?;
        if let Some((fault, tree)) = refuted {
            return Ok(Passed::Refuted { fault, tree });
        }
    }
    let used = used_vectors(alloc, found.as_slice(), kept.as_slice())?;
    let verdicts = verdicts_of(alloc, faults, found, kept.as_slice())?;
    *kept = used;
    Ok(Passed::Closed(verdicts))
}

// Whether the search of a fault was cut short.
fn is_any_spent(verdicts: &[(Fault, Verdict)]) -> bool {
    for entry in verdicts {
        if is_spent(&entry.1) {
            return true;
        }
    }
    false
}

/// Goes through the faults of the graph as a pass does, which begins with the kept vectors. Where it refutes none and leaves some whose
/// search was cut short, it goes through them again with the effort: what that costs is spent on faults that are left, once for each
/// pin that is fixed.
pub(crate) fn pass_twice<R: Threads + Sync, G: Gate>(
    rt: &R,
    alloc: Global,
    graph: &Graph,
    settings: &Settings,
    gate: &G,
    effort: Effort,
    kept: &mut Vec<Vector>,
    work: &mut u64,
) -> Result<Passed, NoMemory>
    requires depth { settings.now.depth ≤ 2 }
    requires budget { 0 < settings.now.budget }
    requires workers { (0 < settings.now.workers) × (settings.now.workers ≤ 64) }
    requires long { AreLong kept.old.items (source_count (net_of graph.now)) }
    ensures passed { IfOk result (IsPassed (net_of graph.now) settings.now.budget) }
    ensures kept { IfOk result (AreKeptOf kept.new.items) }
    ensures long { OnOk result (AreLong kept.new.items (source_count (net_of graph.now))) }
{
    let first = pass(rt, alloc, graph, settings, gate, Effort::Once, kept, work)?;
    match first {
        Passed::Refuted { fault, tree } => Ok(Passed::Refuted { fault, tree }),
        Passed::Closed(verdicts) => {
            if settings.budget < USUAL_BUDGET || !is_any_spent(verdicts.as_slice()) {
                return Ok(Passed::Closed(verdicts));
            }
            pass(rt, alloc, graph, settings, gate, effort, kept, work)
        }
    }
}
