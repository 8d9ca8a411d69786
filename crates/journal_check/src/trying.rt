// Steps made in a trial that is kept over many records.
ghost use Rattle.std.specs.Prelude.{◌≡◌, ◌<◌, ◌≤◌, ℕ, IfErr, IfOk, OnErr};
ghost use Rattle.gate_graph.specs.Circuit.{net_of};
ghost use Rattle.journal_text.specs.declared.record.Record.TheVariants as kept;
ghost use Rattle.journal_check.specs.Inner.ReplayStates.{IsReplayState, IsEditing, IsIdle, IsReady, RecordSays, net_in, position_of};
ghost use Rattle.journal_check.specs.Replaying.{IsStepTree};
ghost use Rattle.journal_check.specs.Inner.Replaying.{Makes};

use crate::editing::{add_says, added_pin, fix_says};
use crate::refusal::Why;
use crate::state::ReplayState;
use gate_graph::Graph;
use refutation::Tree;
use refutation_check::TreeChecker;
use rm_base::NoMemory;
use std::alloc::Global;
use wire_edit::{BeginRefusal, Room, Step, Trial, answers_agree, answers_apply, steps_grow};

const LEAST_ROOM: usize = 1_024;

const MOST_ROOM: usize = 536_870_912;

// As many steps as the graph has node numbers, within bounds.
fn steps_for(graph: &Graph) -> usize
    ensures some { 0 < result }
    ensures few { result ≤ 536870912 }
{
    (graph.node_bound() as usize).clamp(LEAST_ROOM, MOST_ROOM)
}

// Room for so many steps, whatever each of them makes.
fn room_for(steps: usize) -> Room
    ensures { result ≡ record { pins = steps; nodes = steps; steps = steps } }
{
    Room {
        pins: steps,
        nodes: steps,
        steps,
    }
}

// A trial with room for as many steps as the net has nodes, or the graph where memory is wanting.
fn begin_trial(alloc: Global, graph: Graph) -> Result<(Trial, usize), Graph>
    requires { IsIdle graph }
    ensures ready { IfOk result (λ p. IsReady p.0 p.1) }
    ensures room { IfOk result (λ p. 0 < p.1) }
    ensures net { IfOk result (λ p. net_of p.0.graph ≡ net_of graph) }
    ensures idle { IfErr result (λ g. IsIdle g) }
    ensures back { IfErr result (λ g. net_of g ≡ net_of graph) }
{
    graph.well_formed();
    let left = steps_for(&graph);
    match Trial::begin(alloc, graph, room_for(left)) {
        Ok(trial) => Ok((trial, left)),
        Err(BeginRefusal::NoMemory { graph }) => Err(graph),
    }
}

// Gives a trial whose room is spent room for as many steps as at its beginning, which is mostly there already.
fn renew(alloc: Global, trial: &mut Trial) -> Result<usize, NoMemory>
    requires { IsReady trial.old 0 }
    ensures ready { IfOk result (λ left. IsReady trial.new left) }
    ensures room { IfOk result (λ left. 0 < left) }
    ensures refused { OnErr result (IsReady trial.new 0) }
    ensures net { net_of trial.new.graph ≡ net_of trial.old.graph }
{
    trial.graph().well_formed();
    let left = steps_for(trial.graph());
    trial.make_room(alloc, room_for(left))?;
    Ok(left)
}

// Makes a step that its tree justifies and keeps it for good, or says why not.
fn make(
    checker: &mut TreeChecker,
    trial: Trial,
    left: usize,
    step: Step,
    tree: &Tree,
) -> (ReplayState, Result<(), Why>)
    requires ready { IsReady trial left }
    requires room { 0 < left }
    requires tree { IsStepTree step tree.now }
    ensures makes { Makes (net_of trial.graph) step tree.now (net_in result.0) result.1 }
    ensures editing { IsEditing result.0 }
{
    answers_agree();
    answers_apply();
    steps_grow();
    let mut trial = trial;
    trial.graph().well_formed();
    let before = fix_says(checker, trial.graph(), step, tree);
    let added = added_pin(trial.graph(), step);
    if let Err(refusal) = trial.apply(step) {
        return (ReplayState::Trying { trial, left }, Err(Why::Edit(refusal)));
    }
    if let Err(why) = before {
        let graph = trial.rollback();
        return (ReplayState::Idle { graph }, Err(why));
    }
    if let Err(why) = add_says(checker, trial.graph(), added, tree) {
        let graph = trial.rollback();
        return (ReplayState::Idle { graph }, Err(why));
    }
    trial.keep();
    let left = left - 1;
    (ReplayState::Trying { trial, left }, Ok(()))
}

// Begins a trial for a step.
fn begin_and_make(
    alloc: Global,
    checker: &mut TreeChecker,
    graph: Graph,
    step: Step,
    tree: &Tree,
) -> (ReplayState, Result<(), Why>)
    requires idle { IsIdle graph }
    requires tree { IsStepTree step tree.now }
    ensures makes { Makes (net_of graph) step tree.now (net_in result.0) result.1 }
    ensures editing { IsEditing result.0 }
{
    match begin_trial(alloc, graph) {
        Ok((trial, left)) => make(checker, trial, left, step, tree),
        Err(graph) => (ReplayState::Idle { graph }, Err(Why::NoMemory)),
    }
}

// Gives a trial room for a step.
fn renew_and_make(
    alloc: Global,
    checker: &mut TreeChecker,
    trial: Trial,
    step: Step,
    tree: &Tree,
) -> (ReplayState, Result<(), Why>)
    requires ready { IsReady trial 0 }
    requires tree { IsStepTree step tree.now }
    ensures makes { Makes (net_of trial.graph) step tree.now (net_in result.0) result.1 }
    ensures editing { IsEditing result.0 }
{
    let mut trial = trial;
    match renew(alloc, &mut trial) {
        Ok(left) => make(checker, trial, left, step, tree),
        Err(NoMemory) => (ReplayState::Trying { trial, left: 0 }, Err(Why::NoMemory)),
    }
}

/// Makes a step, where the net isn't frozen and the tree justifies it.
pub(crate) fn edit(
    alloc: Global,
    checker: &mut TreeChecker,
    state: ReplayState,
    step: Step,
    tree: &Tree,
) -> (ReplayState, Result<(), Why>)
    requires state { IsReplayState state }
    requires tree { IsStepTree step tree.now }
    ensures state { IsReplayState result.0 }
    ensures says { (budget : ℕ) → RecordSays budget (position_of state) (kept.Step step tree.now) (position_of result.0) result.1 }
{
    match state {
        ReplayState::Idle { graph } => begin_and_make(alloc, checker, graph, step, tree),
        ReplayState::Trying { trial, left } => {
            if left == 0 {
                return renew_and_make(alloc, checker, trial, step, tree);
            }
            make(checker, trial, left, step, tree)
        }
        ReplayState::Frozen { graph, settling } => {
            let why = settling.late();
            (ReplayState::Frozen { graph, settling }, Err(why))
        }
    }
}
