// The sweep of the main gates: every refuted pin is fixed, until none is left.
ghost use Rattle.std.specs.Prelude.{◌≡◌, ◌<◌, ◌≤◌, ◌+◌, ◌||◌, IfOk, OnOk, if◌then◌else◌};
ghost use Rattle.gate_graph.specs.Circuit.{net_of};
ghost use Rattle.recursive_learning.specs.Serving.{IsServing};
ghost use Rattle.rm_base.specs.Numbers.{number_bound};
ghost use Rattle.wire_edit.specs.Work.{work};
ghost use Rattle.care_opt.specs.Inner.Kept.{AreKept};
ghost use Rattle.care_opt.specs.Inner.Working.{HasFallen, Works};
ghost use Rattle.care_opt.specs.MainSteps.{IsMainTidy};

use crate::refuting::refuted_at;
use crate::vectors::Vectors;
use crate::working::fix_main;
use journal_text::runs_join;
use recursive_learning::refuter::Refuter;
use rm_base::{Made, NoMemory, NodeId};
use std::alloc::Global;
use wire_edit::Trial;

// Fixes the first refuted pin of a main gate and tidies; whether there was one.
fn sweep_at(
    alloc: Global,
    trial: &mut Trial,
    refuter: &mut Refuter,
    vectors: &mut Vectors,
    made: &mut Made,
    bound: u32,
    gate: NodeId,
    depth: u8,
) -> Result<bool, NoMemory>
    requires gate { gate.0 < bound }
    requires tidy { IsMainTidy bound (net_of trial.old.graph) }
    requires space { work (net_of trial.old.graph) ≤ trial.old.first.steps }
    requires few { made.old.fixes + made.old.local + work (net_of trial.old.graph) ≤ 4194304 }
    requires serves { IsServing (net_of trial.old.graph) refuter.old }
    requires kept { AreKept vectors.old (net_of trial.old.graph) }
    requires depth { depth ≤ 2 }
    ensures works { OnOk result (Works bound trial.old trial.new made.old made.new) }
    ensures tidy { OnOk result (IsMainTidy bound (net_of trial.new.graph)) }
    ensures fell { IfOk result (λ found. HasFallen found trial.old trial.new) }
    ensures serves { OnOk result (IsServing (net_of trial.new.graph) refuter.new) }
    ensures kept { OnOk result (AreKept vectors.new (net_of trial.new.graph)) }
{
    let graph = trial.graph();
    let found = refuted_at(alloc, refuter, vectors, graph, gate, depth)?;
    match found {
        None => Ok(false),
        Some(fault) => {
            fix_main(trial, made, bound, fault);
            refuter.fit(trial.graph())?;
            vectors.fit(alloc, trial.graph())?;
            Ok(true)
        }
    }
}

// The gate to look at next: the same one, where a pin of it was fixed.
fn next_gate(gate: u32, found: bool) -> u32
    requires { gate < number_bound }
    ensures { result ≡ (if found then gate else gate + 1) }
{
    if found { gate } else { gate + 1 }
}

fn either(one: bool, other: bool) -> bool
    ensures { result ≡ (one || other) }
{
    one || other
}

// Goes through the main gates once, and looks at each until no pin of it is refuted; whether a pin was fixed.
fn pass(
    alloc: Global,
    trial: &mut Trial,
    refuter: &mut Refuter,
    vectors: &mut Vectors,
    made: &mut Made,
    bound: u32,
    depth: u8,
) -> Result<bool, NoMemory>
    requires tidy { IsMainTidy bound (net_of trial.old.graph) }
    requires space { work (net_of trial.old.graph) ≤ trial.old.first.steps }
    requires few { made.old.fixes + made.old.local + work (net_of trial.old.graph) ≤ 4194304 }
    requires serves { IsServing (net_of trial.old.graph) refuter.old }
    requires kept { AreKept vectors.old (net_of trial.old.graph) }
    requires depth { depth ≤ 2 }
    ensures works { OnOk result (Works bound trial.old trial.new made.old made.new) }
    ensures tidy { OnOk result (IsMainTidy bound (net_of trial.new.graph)) }
    ensures fell { IfOk result (λ found. HasFallen found trial.old trial.new) }
    ensures serves { OnOk result (IsServing (net_of trial.new.graph) refuter.new) }
    ensures kept { OnOk result (AreKept vectors.new (net_of trial.new.graph)) }
{
    runs_join();
    let mut has_fixed = false;
    let mut gate = 0u32;
    while gate < bound {
        let found = sweep_at(
            alloc,
            trial,
            refuter,
            vectors,
            made,
            bound,
            NodeId(gate),
            depth,
        )?;
        gate = next_gate(gate, found);
        has_fixed = either(has_fixed, found);
    }
    Ok(has_fixed)
}

/// Fixes refuted pins of main gates until none is left.
pub(crate) fn sweep(
    alloc: Global,
    trial: &mut Trial,
    refuter: &mut Refuter,
    vectors: &mut Vectors,
    made: &mut Made,
    bound: u32,
    depth: u8,
) -> Result<(), NoMemory>
    requires tidy { IsMainTidy bound (net_of trial.old.graph) }
    requires space { work (net_of trial.old.graph) ≤ trial.old.first.steps }
    requires few { made.old.fixes + made.old.local + work (net_of trial.old.graph) ≤ 4194304 }
    requires serves { IsServing (net_of trial.old.graph) refuter.old }
    requires kept { AreKept vectors.old (net_of trial.old.graph) }
    requires depth { depth ≤ 2 }
    ensures works { OnOk result (Works bound trial.old trial.new made.old made.new) }
    ensures tidy { OnOk result (IsMainTidy bound (net_of trial.new.graph)) }
    ensures serves { OnOk result (IsServing (net_of trial.new.graph) refuter.new) }
    ensures kept { OnOk result (AreKept vectors.new (net_of trial.new.graph)) }
{
    runs_join();
    loop {
        let has_fixed = pass(alloc, trial, refuter, vectors, made, bound, depth)?;
        if !has_fixed {
            return Ok(());
        }
    }
}
