// Steps made one after another.
ghost use Rattle.std.specs.Prelude.{◌≡◌, ◌<◌, IfOk, OnOk};
ghost use Rattle.gate_graph.specs.Circuit.{net_of};
ghost use Rattle.wire_edit.specs.Steps.{Applies, stepped};
ghost use Rattle.journal_text.specs.Accepted.{MayGrow};
ghost use Rattle.step_replay.specs.Inner.Making.{AreMakeable, IsReady, IsSmall};
ghost use Rattle.step_replay.specs.Rebuilding.{IsBest, after};

use crate::beginning::renew;
use crate::choosing::{Best, better};
use rm_base::NoMemory;
use std::alloc::Global;
use wire_edit::{Step, Trial, answers_agree};

// Makes a step that may be made, keeps it for good, and gives how many more have room.
fn make(trial: &mut Trial, left: usize, step: Step) -> usize
    requires ready { IsReady trial.old left }
    requires room { 0 < left }
    requires applies { Applies (net_of trial.old.graph) step }
    requires grows { MayGrow (net_of trial.old.graph) step }
    ensures ready { IsReady trial.new result }
    ensures net { net_of trial.new.graph ≡ stepped (net_of trial.old.graph) step }
{
    answers_agree();
    if let Err(_refusal) = trial.apply(step) {
        unreachable!()
    }
    trial.keep();
    left - 1
}

// Makes a step, with new room where it is spent.
fn make_next(alloc: Global, trial: &mut Trial, left: usize, step: Step) -> Result<usize, NoMemory>
    requires ready { IsReady trial.old left }
    requires small { IsSmall (net_of trial.old.graph) }
    requires applies { Applies (net_of trial.old.graph) step }
    requires grows { MayGrow (net_of trial.old.graph) step }
    ensures ready { IfOk result (λ left. IsReady trial.new left) }
    ensures net { OnOk result (net_of trial.new.graph ≡ stepped (net_of trial.old.graph) step) }
{
    if left == 0 {
        let left = renew(alloc, trial)?;
        return Ok(make(trial, left, step));
    }
    Ok(make(trial, left, step))
}

/// Makes all the steps, and gives how many of them lead to where the wires are fewest.
pub(crate) fn make_all(
    alloc: Global,
    trial: &mut Trial,
    left: usize,
    steps: &[Step],
) -> Result<usize, NoMemory>
    requires ready { IsReady trial.old left }
    requires makeable { AreMakeable (net_of trial.old.graph) steps.now }
    ensures net { OnOk result (net_of trial.new.graph ≡ after (net_of trial.old.graph) steps.now) }
    ensures best { IfOk result (λ taken. IsBest (net_of trial.old.graph) steps.now taken) }
{
    let mut left = left;
    let mut made = 0usize;
    let mut best = Best {
        taken: 0,
        wires: trial.graph().wire_count(),
    };
    for step in steps {
        left = make_next(alloc, trial, left, *step)?;
        made += 1;
        let later = Best {
            taken: made,
            wires: trial.graph().wire_count(),
        };
        best = better(best, later);
    }
    Ok(best.taken)
}
