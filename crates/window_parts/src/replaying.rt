// The steps of a window's journal, and the model to which they lead.
ghost use Rattle.std.specs.Prelude.{◌≡◌, ◌≤◌, Err, IfErr, IfOk, IfSome, None, Ok};
ghost use Rattle.rm_base.specs.Causes.{Rose};
ghost use Rattle.rm_base.specs.Files.{file_of};
ghost use Rattle.cover_decompose.specs.Decomposition.{net_of_model};
ghost use Rattle.sewing.specs.Laws.{IsReplacement};
ghost use Rattle.step_replay.specs.Rebuilding.{AreAcceptedSteps};
ghost use Rattle.accepted_steps.specs.Taken.{TakenFrom};
ghost use Rattle.window_parts.specs.Part.{ComesOf, IsLedTo};
ghost use Rattle.window_parts.specs.Refusals.{IsRefusedPart};
ghost use Rattle.window_parts.specs.Inner.Ready.{IsReady};
ghost use Rattle.window_parts.specs.Inner.Stops.{StoppedBy};
ghost use Rattle.window_parts.specs.declared.refusal.PartRefusal.TheVariants as refusal;

use crate::laws::{rebuilt_nets_fit, rebuilt_nets_replace};
use crate::refusal::PartRefusal;
use accepted_steps::{Steps, accepted_steps};
use cover_decompose::{decompositions_are_formed, decompositions_stand};
use file_pieces::PieceProblem;
use graph_to_model::model_of_tidy;
use rm_base::{NoMemory, Shelf};
use rm_model::{Model, NameKeys, RankedModel};
use std::alloc::Global;
use step_replay::rebuild;
use wire_edit::Step;

// Steps that end at a verdict or at the end of the journal.
fn ended(found: Steps) -> Result<Vec<Step>, PartRefusal>
    ensures ok { IfOk result (λ steps. steps.items ≡ found.steps.items) }
    ensures whole { IfOk result (λ _. found.stop ≡ None) }
    ensures stopped { IfErr result (λ e. StoppedBy found.stop e) }
{
    match found.stop {
        None => Ok(found.steps),
        Some(stop) => Err(PartRefusal::Journal { stop }),
    }
}

// The accepted steps of the journal, or None where it isn't there.
fn steps_in<S: Shelf>(
    alloc: Global,
    shelf: &mut S,
    model: &RankedModel,
    journal: &str,
) -> Result<Option<Vec<Step>>, PartRefusal>
    requires ready { IsReady model.now }
    ensures run { IfOk result (λ found. IfSome found (λ steps. AreAcceptedSteps (net_of_model model.now) steps.items)) }
    ensures taken { IfOk result (λ found. IfSome found (λ steps. IfSome (S.files shelf.old) (TakenFrom model.now journal.now steps.items None))) }
    ensures missing { result ≡ Ok None → IfSome (S.files shelf.old) (λ told. file_of told journal.now ≡ None) }
    ensures refused { IfErr result (λ e. IfSome (S.files shelf.old) (IsRefusedPart model.now journal.now e)) }
    ensures fault { result ≡ Err refusal.Fault → Rose (S.faults shelf.old) (S.faults shelf.new) }
    ensures later { S.faults shelf.old ≤ S.faults shelf.new }
    ensures files { S.files shelf.new ≡ S.files shelf.old }
{
    match accepted_steps(alloc, shelf, model, journal) {
        Ok(found) => {
            let steps = ended(found)?;
            Ok(Some(steps))
        }
        Err(PieceProblem::Missing) => Ok(None),
        Err(PieceProblem::TooLong) => Err(PartRefusal::TooLong),
        Err(PieceProblem::Failed) => Err(PartRefusal::Fault),
        Err(PieceProblem::NoMemory) => Err(PartRefusal::NoMemory),
    }
}

// The model to which accepted steps lead, up to where it has the fewest wires, and tidied.
fn replayed(
    alloc: Global,
    keys: NameKeys,
    model: &RankedModel,
    steps: &[Step],
) -> Result<Model, NoMemory>
    requires ready { IsReady model.now }
    requires run { AreAcceptedSteps (net_of_model model.now) steps.now }
    ensures comes { IfOk result (ComesOf model.now steps.now) }
    ensures replacement { IfOk result (IsReplacement model.now) }
{
    decompositions_stand();
    decompositions_are_formed();
    rebuilt_nets_fit();
    rebuilt_nets_replace();
    let rebuilt = rebuild(alloc, model, steps)?;
    let part = model_of_tidy(alloc, keys, &rebuilt.graph, model.model())?;
    Ok(part)
}

/// The model to which the accepted steps of the journal lead, or None where the journal isn't there.
pub(crate) fn replay_journal<S: Shelf>(
    alloc: Global,
    keys: NameKeys,
    shelf: &mut S,
    model: &RankedModel,
    journal: &str,
) -> Result<Option<Model>, PartRefusal>
    requires ready { IsReady model.now }
    ensures led { IfOk result (λ found. IfSome found (λ part. IfSome (S.files shelf.old) (IsLedTo model.now journal.now part))) }
    ensures replacement { IfOk result (λ found. IfSome found (λ part. IsReplacement model.now part)) }
    ensures missing { result ≡ Ok None → IfSome (S.files shelf.old) (λ told. file_of told journal.now ≡ None) }
    ensures refused { IfErr result (λ e. IfSome (S.files shelf.old) (IsRefusedPart model.now journal.now e)) }
    ensures fault { result ≡ Err refusal.Fault → Rose (S.faults shelf.old) (S.faults shelf.new) }
    ensures later { S.faults shelf.old ≤ S.faults shelf.new }
    ensures files { S.files shelf.new ≡ S.files shelf.old }
{
    let Some(steps) = steps_in(alloc, shelf, model, journal)? else {
        return Ok(None);
    };
    let part = replayed(alloc, keys, model, steps.as_slice())?;
    Ok(Some(part))
}
