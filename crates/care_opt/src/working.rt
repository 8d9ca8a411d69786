// Working on the main gates inside a trial: tidying and fixing.
ghost use Rattle.std.specs.Prelude.{◌≡◌, ◌<◌, ◌≤◌, ◌+◌, false, true};
ghost use Rattle.gate_graph.specs.Circuit.{net_of};
ghost use Rattle.wire_edit.specs.Steps.{gate_of_step};
ghost use Rattle.wire_edit.specs.Work.{work};
ghost use Rattle.care_opt.specs.Gated.{IsMainFault};
ghost use Rattle.care_opt.specs.Inner.Working.{HasFallen, HasStepped, HasTree, Works};
ghost use Rattle.care_opt.specs.MainSteps.{IsMainTidy};

use journal_text::runs_join;
use rm_base::{Fault, Made};
use wire_edit::{
    Step, Trial, answers_agree, fixes_lower, order_tells, room_suffices, tidying_ends,
};

// Whether the step is at a main gate.
fn is_main(step: Step, bound: u32) -> bool
    ensures main { result ≡ true → (gate_of_step step).0 < bound }
    ensures other { result ≡ false → bound ≤ (gate_of_step step).0 }
{
    step.gate().0 < bound
}

// Keeps the trial's steps, and makes the next one of the tidying order; None where the net is tidy.
fn next_step(trial: &mut Trial) -> Option<Step>
    requires space { work (net_of trial.old.graph) ≤ trial.old.first.steps }
    ensures { HasStepped trial.old trial.new result }
{
    room_suffices();
    trial.keep();
    trial.graph().well_formed();
    match trial.tidy_one() {
        Ok(step) => step,
        Err(_refusal) => unreachable!(),
    }
}

// Makes the next step of the tidying order, if it is at a main gate; whether it was made. Any other is taken back.
fn tidy_once(trial: &mut Trial, made: &mut Made, bound: u32) -> bool
    requires space { work (net_of trial.old.graph) ≤ trial.old.first.steps }
    requires few { made.old.fixes + made.old.local + work (net_of trial.old.graph) ≤ 4194304 }
    ensures works { Works bound trial.old trial.new made.old made.new }
    ensures fell { HasFallen result trial.old trial.new }
    ensures tidy { result ≡ false → IsMainTidy bound (net_of trial.new.graph) }
{
    tidying_ends();
    order_tells();
    runs_join();
    trial.graph().well_formed();
    let Some(step) = next_step(trial) else {
        return false;
    };
    let main = is_main(step, bound);
    if !main {
        trial.take_back();
        return false;
    }
    made.local += 1;
    true
}

/// Makes the steps of the tidying order as long as they are at main gates.
pub(crate) fn tidy_main(trial: &mut Trial, made: &mut Made, bound: u32)
    requires space { work (net_of trial.old.graph) ≤ trial.old.first.steps }
    requires few { made.old.fixes + made.old.local + work (net_of trial.old.graph) ≤ 4194304 }
    ensures works { Works bound trial.old trial.new made.old made.new }
    ensures tidy { IsMainTidy bound (net_of trial.new.graph) }
{
    runs_join();
    loop {
        let goes_on = tidy_once(trial, made, bound);
        if !goes_on {
            return;
        }
    }
}

// Fixes a refuted pin of a main gate.
fn fix_once(trial: &mut Trial, made: &mut Made, bound: u32, fault: Fault)
    requires tidy { IsMainTidy bound (net_of trial.old.graph) }
    requires fault { IsMainFault bound (net_of trial.old.graph) fault }
    requires refuted { HasTree (net_of trial.old.graph) fault }
    requires space { work (net_of trial.old.graph) ≤ trial.old.first.steps }
    requires few { made.old.fixes + made.old.local + work (net_of trial.old.graph) ≤ 4194304 }
    ensures works { Works bound trial.old trial.new made.old made.new }
    ensures fell { work (net_of trial.new.graph) < work (net_of trial.old.graph) }
{
    room_suffices();
    tidying_ends();
    fixes_lower();
    answers_agree();
    runs_join();
    trial.graph().well_formed();
    trial.keep();
    let step = Step::Fix {
        gate: fault.gate,
        position: fault.position,
        value: fault.value,
    };
    match trial.apply(step) {
        Ok(()) => {}
        Err(_refusal) => unreachable!(),
    }
    made.fixes += 1;
}

/// Fixes a refuted pin of a main gate, and tidies the main gates.
pub(crate) fn fix_main(trial: &mut Trial, made: &mut Made, bound: u32, fault: Fault)
    requires tidy { IsMainTidy bound (net_of trial.old.graph) }
    requires fault { IsMainFault bound (net_of trial.old.graph) fault }
    requires refuted { HasTree (net_of trial.old.graph) fault }
    requires space { work (net_of trial.old.graph) ≤ trial.old.first.steps }
    requires few { made.old.fixes + made.old.local + work (net_of trial.old.graph) ≤ 4194304 }
    ensures works { Works bound trial.old trial.new made.old made.new }
    ensures fell { work (net_of trial.new.graph) < work (net_of trial.old.graph) }
    ensures tidy { IsMainTidy bound (net_of trial.new.graph) }
{
    runs_join();
    fix_once(trial, made, bound, fault);
    tidy_main(trial, made, bound);
}
