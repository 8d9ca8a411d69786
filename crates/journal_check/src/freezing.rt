// The net is frozen once, and then its faults are settled.
ghost use Rattle.std.specs.Prelude.{◌≡◌};
ghost use Rattle.gate_graph.specs.Circuit.{net_of};
ghost use Rattle.journal_check.specs.Inner.ReplayStates.{EndSays, Freezes, IsReplayState, IsFrozen, IsIdle, IsVerdict, RecordSays, position_of};
ghost use Rattle.journal_check.specs.declared.state.ReplayState.TheVariants.{Frozen};
ghost use Rattle.journal_check.specs.Replaying.{editing};
ghost use Rattle.wire_edit.specs.Steps.{gate_of_step};

use crate::refusal::Why;
use crate::settling::Settling;
use crate::state::ReplayState;
use gate_graph::Graph;
use journal_text::Record;
use refutation_check::TreeChecker;
use rm_base::{NoMemory, Vector};
use std::alloc::Global;
use wire_edit::{Seen, Step, first_rule_by};

// What is to be settled of a net, if it is tidy.
fn settling_of(alloc: Global, graph: &Graph) -> Result<Settling, Why>
    ensures { Freezes (net_of graph.now) result }
{
    let Ok(mut seen) = Seen::new(alloc, graph.node_bound()) else {
        return Err(Why::NoMemory);
    };
    if let Some(step) = first_rule_by(graph, &mut seen) {
        return Err(Why::NotTidy { node: step.gate() });
    }
    match Settling::new(alloc, graph) {
        Ok(settling) => Ok(settling),
        Err(NoMemory) => Err(Why::NoMemory),
    }
}

// One more verdict on a frozen net.
fn next_verdict(
    checker: &mut TreeChecker,
    graph: Graph,
    settling: Settling,
    given: &Record,
    budget: u32,
    ahead: &[Vector],
) -> (ReplayState, Result<(), Why>)
    requires state { IsReplayState (Frozen graph settling) }
    ensures state { IsReplayState result.0 }
    ensures says { RecordSays budget (position_of (Frozen graph settling)) given.now (position_of result.0) result.1 }
{
    let mut settling = settling;
    let answer = settling.settle(checker, &graph, given, budget, ahead);
    (ReplayState::Frozen { graph, settling }, answer)
}

// The first verdict, which freezes the net.
fn first_verdict(
    alloc: Global,
    checker: &mut TreeChecker,
    graph: Graph,
    given: &Record,
    budget: u32,
    ahead: &[Vector],
) -> (ReplayState, Result<(), Why>)
    requires idle { IsIdle graph }
    requires verdict { IsVerdict given.now }
    ensures state { IsReplayState result.0 }
    ensures says { RecordSays budget (editing (net_of graph)) given.now (position_of result.0) result.1 }
{
    let mut settling = match settling_of(alloc, &graph) {
        Ok(settling) => settling,
        Err(why) => return (ReplayState::Idle { graph }, Err(why)),
    };
    if let Err(why) = settling.settle(checker, &graph, given, budget, ahead) {
        return (ReplayState::Idle { graph }, Err(why));
    }
    (ReplayState::Frozen { graph, settling }, Ok(()))
}

/// Settles a fault of the net, which is frozen if it isn't yet.
pub(crate) fn verdict(
    alloc: Global,
    checker: &mut TreeChecker,
    state: ReplayState,
    given: &Record,
    budget: u32,
    ahead: &[Vector],
) -> (ReplayState, Result<(), Why>)
    requires state { IsReplayState state }
    requires verdict { IsVerdict given.now }
    ensures state { IsReplayState result.0 }
    ensures says { RecordSays budget (position_of state) given.now (position_of result.0) result.1 }
{
    match state {
        ReplayState::Idle { graph } => first_verdict(alloc, checker, graph, given, budget, ahead),
        ReplayState::Trying { trial, left: _ } => {
            first_verdict(alloc, checker, trial.commit(), given, budget, ahead)
        }
        ReplayState::Frozen { graph, settling } => {
            next_verdict(checker, graph, settling, given, budget, ahead)
        }
    }
}

// The net frozen at the end of the steps.
fn frozen_graph(alloc: Global, graph: Graph) -> Result<(Graph, Settling), Why>
    ensures { IsFrozen (editing (net_of graph)) result }
{
    match settling_of(alloc, &graph) {
        Ok(settling) => Ok((graph, settling)),
        Err(why) => Err(why),
    }
}

// The frozen net, whether it was frozen before or is now.
fn freeze_state(alloc: Global, state: ReplayState) -> Result<(Graph, Settling), Why>
    requires { IsReplayState state }
    ensures { IsFrozen (position_of state) result }
{
    match state {
        ReplayState::Idle { graph } => frozen_graph(alloc, graph),
        ReplayState::Trying { trial, left: _ } => frozen_graph(alloc, trial.commit()),
        ReplayState::Frozen { graph, settling } => Ok((graph, settling)),
    }
}

/// The last net, where no fault is still to come.
pub(crate) fn end(alloc: Global, state: ReplayState) -> Result<Graph, Why>
    requires { IsReplayState state }
    ensures { EndSays (position_of state) result }
{
    let (graph, settling) = freeze_state(alloc, state)?;
    match settling.next() {
        Some(fault) => Err(Why::FaultMissing { fault }),
        None => Ok(graph),
    }
}
