//! The command `replay`.
ghost use Rattle.std.specs.Prelude.{◌≤◌, IfErr, IfOk};
ghost use Rattle.cover_decompose.specs.Count.{decomposed};
ghost use Rattle.cover_decompose.specs.Decomposition.{net_of_model};
ghost use Rattle.cover_decompose.specs.Limits.{most_pins};
ghost use Rattle.rambo_cli.specs.Contract.{Caused};
ghost use Rattle.rambo_cli.specs.Files.{IfTold};
ghost use Rattle.rambo_cli.specs.Inner.Problems.{ModelCause};
ghost use Rattle.rambo_cli.specs.Inner.Written.{IsUsable};
ghost use Rattle.rambo_cli.specs.Problems.{KeepsFiles};
ghost use Rattle.rambo_cli.specs.Replay.{BeginsToReplay, BeginsToReplayFrom, HasReplayed, HasReplayedFrom, ReplayFinds};
ghost use Rattle.step_replay.specs.Rebuilding.{AreAcceptedSteps};

use crate::checking::fits;
use crate::laws::{kept_nets_fit, replays_are_written};
use crate::optimising::replace;
use crate::problem::Problem;
use crate::reading::read_input;
use accepted_steps::{Stop, accepted_steps};
use cover_decompose::{decompositions_are_formed, decompositions_stand};
use net_writer::net_text;
use rm_base::Shelf;
use rm_model::{NameKeys, RankedModel};
use std::alloc::Global;
use step_replay::rebuild;
use wire_edit::Step;

// Writes the net to which accepted steps lead as the output, and gives how many of them lead there.
fn write_replayed<S: Shelf>(
    alloc: Global,
    keys: NameKeys,
    shelf: &mut S,
    model: &RankedModel,
    steps: &[Step],
    output: &str,
) -> Result<u64, Problem>
    requires usable { IsUsable model.now }
    requires few { decomposed model.now ≤ most_pins }
    requires run { AreAcceptedSteps (net_of_model model.now) steps.now }
    ensures done { IfOk result (λ count. IfTold (S.files shelf.old) (S.files shelf.new) (HasReplayed model.now steps.now output.now count)) }
    ensures cause { IfErr result (ModelCause model.now (S.faults shelf.old) (S.faults shelf.new)) }
    ensures unchanged { IfErr result (λ problem. KeepsFiles problem (S.files shelf.old) (S.files shelf.new)) }
    ensures safe { IfTold (S.files shelf.old) (S.files shelf.new) (BeginsToReplay model.now steps.now output.now) }
    ensures later { S.faults shelf.old ≤ S.faults shelf.new }
{
    decompositions_stand();
    decompositions_are_formed();
    kept_nets_fit();
    replays_are_written();
    let rebuilt = rebuild(alloc, model, steps)?;
    let text = net_text(alloc, keys, &rebuilt.graph, model)?;
    replace(shelf, output, text.as_slice())?;
    Ok(rebuilt.taken as u64)
}

/// What `replay` has made: so many steps lead to the output, and what of the journal ends its accepted steps.
#[derive(Clone, Copy, Debug)]
pub(crate) struct Replayed {
    pub(crate) count: u64,
    pub(crate) stop: Option<Stop>,
}

/// Makes the accepted steps of the journal over the input, up to where they leave the fewest wires, and writes the tidied net
/// as the output.
pub(crate) fn replay_journal<S: Shelf>(
    alloc: Global,
    keys: NameKeys,
    shelf: &mut S,
    input: &str,
    journal: &str,
    output: &str,
) -> Result<Replayed, Problem>
    ensures done { IfOk result (λ r. IfTold (S.files shelf.old) (S.files shelf.new) (HasReplayedFrom input.now journal.now output.now r.count r.stop)) }
    ensures cause { IfErr result (Caused (ReplayFinds input.now journal.now (S.files shelf.old)) (S.faults shelf.old) (S.faults shelf.new)) }
    ensures unchanged { IfErr result (λ problem. KeepsFiles problem (S.files shelf.old) (S.files shelf.new)) }
    ensures safe { IfTold (S.files shelf.old) (S.files shelf.new) (BeginsToReplayFrom input.now journal.now output.now) }
    ensures later { S.faults shelf.old ≤ S.faults shelf.new }
{
    let model = read_input(alloc, keys, shelf, input)?;
    fits(alloc, &model)?;
    let accepted = accepted_steps(alloc, shelf, &model, journal)?;
    let count = write_replayed(
        alloc,
        keys,
        shelf,
        &model,
        accepted.steps.as_slice(),
        output,
    )?;
    Ok(Replayed {
        count,
        stop: accepted.stop,
    })
}
