//! Going through the pairs of a net.
ghost use Rattle.std.specs.Prelude.{◌≡◌, ◌<◌, ◌≤◌, IfNone, IfOk, IfSome, OnOk, length};
ghost use Rattle.gate_net.specs.Net.{wire_count};
ghost use Rattle.gate_net.specs.Values.{HasPin};
ghost use Rattle.gate_graph.specs.Circuit.{net_of};
ghost use Rattle.rar_loop.specs.Inner.Spaces.{HasToolsFor, IsReady};
ghost use Rattle.rar_loop.specs.Inner.Trying.{IsTryOutcome, MayTry};
ghost use Rattle.rar_loop.specs.Ended.{IsUsedUp};
ghost use Rattle.rar_loop.specs.Inner.Walking.{AreUsedUp, IsTargetOutcome, IsWalkOutcome};

use crate::candidates::candidates_of;
use crate::limits::Limits;
use crate::trying::{TryOutcome, try_pair};
use crate::workspace::Workspace;
use candidate_wires::{Finder, Pair, turn};
use gate_graph::Question;
use journal_text::Record;
use refutation::laws::closed_has_all;
use rm_base::{Fault, NoMemory};
use std::alloc::Global;

/// How a walk through pairs ended.
#[derive(Drop)]
pub(crate) enum WalkOutcome {
    /// No pair is left.
    Done,
    /// The tries are used up, or the work, which is so much, has reached its limit, and this pair would come next.
    Spent { at: Pair, work: u64 },
    /// This pair gained.
    Gained { pair: Pair, records: Vec<Record> },
}

// Tries a pair, unless one of the vectors detects the fault of the wire's pin.
fn try_unless_detected(
    alloc: Global,
    space: &mut Workspace,
    wires: u32,
    pair: &Pair,
    depth: u8,
) -> Result<TryOutcome, NoMemory>
    requires ready { IsReady space.old }
    requires pair { MayTry (net_of space.old.trial.graph) pair.now }
    requires wires { wires ≡ wire_count (net_of space.old.trial.graph) }
    requires depth { depth ≤ 2 }
    ensures try_outcome { IfOk result (IsTryOutcome space.old.trial pair.now depth space.new.trial) }
    ensures tools { OnOk result (HasToolsFor (net_of space.new.trial.graph) space.new) }
{
    closed_has_all();
    let graph = space.trial.graph();
    if space.vectors.detect_wire(graph, &pair.candidate) {
        return Ok(TryOutcome::Failed);
    }
    try_pair(alloc, space, wires, pair, depth)
}

// How much work the run is, where no further pair is tried: no try is left, or the work has reached its limit.
fn work_at_end(space: &Workspace, limits: &Limits, left: u32) -> Option<u64>
    ensures ends { IfSome result (IsUsedUp limits.now.settings left) }
    ensures goes { IfNone result (0 < left) }
{
    let work = limits.work_done(&space.refuter, left);
    if left == 0 {
        return Some(work);
    }
    if limits.settings.is_worked_off(work) {
        return Some(work);
    }
    None
}

// Tries the pairs of one target, with so many tries left.
fn walk_target(
    alloc: Global,
    space: &mut Workspace,
    finder: &mut Finder,
    wires: u32,
    target: Fault,
    limits: &Limits,
    left: &mut u32,
) -> Result<WalkOutcome, NoMemory>
    requires ready { IsReady space.old }
    requires numbers { length (net_of space.old.trial.graph).nodes ≤ finder.old }
    requires pin { HasPin (net_of space.old.trial.graph) target }
    requires wires { wires ≡ wire_count (net_of space.old.trial.graph) }
    requires depth { limits.now.settings.depth ≤ 2 }
    ensures walk_outcome { IfOk result (IsTargetOutcome space.old.trial target limits.now.settings.depth left.old left.new space.new.trial) }
    ensures ends { IfOk result (AreUsedUp limits.now.settings left.new) }
    ensures numbers { finder.new ≡ finder.old }
    ensures tools { OnOk result (HasToolsFor (net_of space.new.trial.graph) space.new) }
{
    let question = Question {
        graph: space.trial.graph(),
        fault: target,
    };
    let found = candidates_of(alloc, &mut space.refuter, finder, &question)?;
    for place in 0..found.len() {
        let pair = Pair {
            fault: target,
            candidate: found[place],
        };
        if let Some(work) = work_at_end(space, limits, *left) {
            return Ok(WalkOutcome::Spent { at: pair, work });
        }
        *left -= 1;
        match try_unless_detected(alloc, space, wires, &pair, limits.settings.depth)? {
            TryOutcome::Failed => {}
            TryOutcome::Gained { records } => return Ok(WalkOutcome::Gained { pair, records }),
        }
    }
    Ok(WalkOutcome::Done)
}

// Tries the pairs of all targets in turn, until one gains.
fn walk_targets(
    alloc: Global,
    space: &mut Workspace,
    finder: &mut Finder,
    wires: u32,
    start: Option<Fault>,
    limits: &Limits,
    left: &mut u32,
) -> Result<WalkOutcome, NoMemory>
    requires ready { IsReady space.old }
    requires numbers { length (net_of space.old.trial.graph).nodes ≤ finder.old }
    requires wires { wires ≡ wire_count (net_of space.old.trial.graph) }
    requires depth { limits.now.settings.depth ≤ 2 }
    ensures walk_outcome { IfOk result (IsWalkOutcome space.old.trial start limits.now.settings.depth left.old left.new space.new.trial) }
    ensures ends { IfOk result (AreUsedUp limits.now.settings left.new) }
    ensures ready { OnOk result (IsReady space.new) }
{
    let faults = turn(alloc, space.trial.graph(), start)?;
    for place in 0..faults.len() {
        let target = faults[place];
        match walk_target(alloc, space, finder, wires, target, limits, left)? {
            WalkOutcome::Done => {}
            WalkOutcome::Spent { at, work } => return Ok(WalkOutcome::Spent { at, work }),
            WalkOutcome::Gained { pair, records } => return Ok(WalkOutcome::Gained {
                pair,
                records,
            }),
        }
    }
    Ok(WalkOutcome::Done)
}

/// Tries the pairs of a swept net in a turn from a target on, until one gains.
pub(crate) fn walk_pairs(
    alloc: Global,
    space: &mut Workspace,
    start: Option<Fault>,
    limits: &Limits,
    left: &mut u32,
) -> Result<WalkOutcome, NoMemory>
    requires ready { IsReady space.old }
    requires depth { limits.now.settings.depth ≤ 2 }
    ensures walk_outcome { IfOk result (IsWalkOutcome space.old.trial start limits.now.settings.depth left.old left.new space.new.trial) }
    ensures ends { IfOk result (AreUsedUp limits.now.settings left.new) }
    ensures ready { OnOk result (IsReady space.new) }
{
    let mut finder = Finder::new(alloc, space.trial.graph().node_bound())?;
    let wires = space.trial.graph().wire_count();
    walk_targets(alloc, space, &mut finder, wires, start, limits, left)
}
