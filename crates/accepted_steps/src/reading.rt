// Reading the steps of a journal that stands in a file store.
ghost use Rattle.std.specs.Prelude.{◌≡◌, ◌<◌, ◌≤◌, ◌+◌, ◌++◌, ◌^◌, ℕ, List, Err, IfErr, IfOk, IfSome, IsSome, None, Some, length};
ghost use Rattle.std.specs.Option.{option_map};
ghost use Rattle.rm_base.specs.Causes.{Rose};
ghost use Rattle.rm_model.specs.Ranks.{first_without_rank};
ghost use Rattle.rm_model.specs.Value.{observed_names, source_names};
ghost use Rattle.rm_model.specs.WellFormed.{IsWellFormed};
ghost use Rattle.rm_model.specs.declared.parts.Model.{Model as ModelValue};
ghost use Rattle.cover_decompose.specs.Count.{decomposed};
ghost use Rattle.cover_decompose.specs.Decomposition.{net_of_model};
ghost use Rattle.cover_decompose.specs.Limits.{most_pins};
ghost use Rattle.file_pieces.specs.declared.PieceProblem.TheVariants as problem;
ghost use Rattle.journal_reading.specs.Streams.{GivesNone};
ghost use Rattle.step_replay.specs.Rebuilding.{AreAcceptedSteps};
ghost use Rattle.accepted_steps.specs.Taken.{NotTaken, TakenFrom};
ghost use Rattle.accepted_steps.specs.Inner.Stops.{stop_of};
ghost use Rattle.accepted_steps.specs.Inner.Taking.{IsTakenSoFar, IsTakenWith, IsTaking, PieceSays, TakesLast, TurnSays};
ghost use Rattle.accepted_steps.specs.declared.stop.Ended.TheVariants as ended;
ghost use Rattle.accepted_steps.specs.declared.taking.Taking.{Taking as TakingValue};

use crate::stop::{Ended, Stop};
use crate::taking::{Taking, take_entries};
use file_pieces::{FilePieces, PieceProblem};
use journal_reading::{JournalFault, JournalReader, cuts_agree, gather, places_tell};
use rm_base::{NoMemory, Shelf};
use rm_model::RankedModel;
use std::alloc::Global;
use wire_edit::Step;

/// The accepted steps of a journal, from the first on, and what ends them before a verdict and before its end.
#[derive(Drop)]
pub struct Steps {
    pub steps: Vec<Step>,
    pub stop: Option<Stop>,
}

// What behind all entries ends the steps, or nothing yet.
fn ended_by(fault: Option<JournalFault>) -> Option<Ended>
    ensures { result ≡ option_map (λ f. ended.AtFault f) fault }
{
    match fault {
        Some(fault) => Some(Ended::AtFault { fault }),
        None => None,
    }
}

// One more piece of the journal.
fn take_piece(
    alloc: Global,
    model: &RankedModel,
    reader: &mut JournalReader,
    taking: &mut Taking,
    piece: &[u8],
) -> Result<Option<Ended>, NoMemory>
    requires formed { IsWellFormed model.now }
    requires ranked { first_without_rank model.now ≡ None }
    requires covers { length model.now.covers < 2 ^ 32 }
    requires sources { length (source_names model.now) ≤ 1024 }
    requires observed { length (observed_names model.now) ≤ 4096 }
    requires few { decomposed model.now ≤ most_pins }
    requires taken { (text : List ℕ) × (IsTaking model.now text reader.old taking.old × (length text + length piece.now ≤ 2 ^ 62)) }
    ensures { IfOk result (λ o. (text : List ℕ) → IsTaking model.now text reader.old taking.old → length text + length piece.now ≤ 2 ^ 62 → PieceSays model.now (text ++ piece.now) reader.new taking.new o) }
{
    cuts_agree();
    places_tell();
    reader.push(piece)?;
    let gathered = gather(alloc, reader)?;
    if let Some(ended) = take_entries(alloc, model, taking, gathered.entries.as_slice())? {
        return Ok(Some(ended));
    }
    Ok(ended_by(gathered.fault))
}

// What ends the steps where no byte is left.
fn last(reader: &JournalReader) -> Option<Stop>
    requires none { GivesNone reader.now }
    requires taken { (m : ModelValue) × ((text : List ℕ) × ((t : TakingValue) × IsTaking m text reader.now t)) }
    ensures { TakesLast reader.now result }
{
    cuts_agree();
    places_tell();
    match reader.finish() {
        Ok(()) => unreachable!(),
        Err(fault) => Some(Stop::Text { fault }),
    }
}

// What ends the steps, as it is told, or nothing yet.
fn told_by(ended: Option<Ended>) -> Option<Option<Stop>>
    ensures { result ≡ option_map stop_of ended }
{
    match ended {
        Some(ended) => Some(ended.stop()),
        None => None,
    }
}

// Takes the next piece of the journal, or finds its end: what ends the steps, or nothing yet.
fn take_next<S: Shelf>(
    alloc: Global,
    shelf: &mut S,
    model: &RankedModel,
    journal: &str,
    pieces: &mut FilePieces,
    reader: &mut JournalReader,
    taking: &mut Taking,
) -> Result<Option<Option<Stop>>, PieceProblem>
    requires formed { IsWellFormed model.now }
    requires ranked { first_without_rank model.now ≡ None }
    requires covers { length model.now.covers < 2 ^ 32 }
    requires sources { length (source_names model.now) ≤ 1024 }
    requires observed { length (observed_names model.now) ≤ 4096 }
    requires few { decomposed model.now ≤ most_pins }
    requires taken { IsTakenSoFar (S.files shelf.old) model.now journal.now pieces.old reader.old taking.old }
    ensures turn { IfOk result (TurnSays (S.files shelf.old) model.now journal.now pieces.old pieces.new reader.new taking.new) }
    ensures problem { IfErr result (λ e. IfSome (S.files shelf.old) (λ told. NotTaken journal.now told e)) }
    ensures most { pieces.new ≤ 4611686018427387904 }
    ensures missing { result ≡ Err problem.Missing → IsSome (S.files shelf.old) }
    ensures fault { result ≡ Err problem.Failed → Rose (S.faults shelf.old) (S.faults shelf.new) }
    ensures later { S.faults shelf.old ≤ S.faults shelf.new }
    ensures files { S.files shelf.new ≡ S.files shelf.old }
{
    let Some(piece) = pieces.next(shelf, journal)? else {
        return Ok(Some(last(reader)));
    };
    let ended = take_piece(alloc, model, reader, taking, piece.as_slice())?;
    Ok(told_by(ended))
}

// Takes the pieces of the journal, one after another, until the steps end.
fn take_pieces<S: Shelf>(
    alloc: Global,
    shelf: &mut S,
    model: &RankedModel,
    journal: &str,
    pieces: &mut FilePieces,
    reader: &mut JournalReader,
    taking: &mut Taking,
) -> Result<Option<Stop>, PieceProblem>
    requires formed { IsWellFormed model.now }
    requires ranked { first_without_rank model.now ≡ None }
    requires covers { length model.now.covers < 2 ^ 32 }
    requires sources { length (source_names model.now) ≤ 1024 }
    requires observed { length (observed_names model.now) ≤ 4096 }
    requires few { decomposed model.now ≤ most_pins }
    requires taken { IsTakenSoFar (S.files shelf.old) model.now journal.now pieces.old reader.old taking.old }
    ensures taken { IfOk result (IsTakenWith (S.files shelf.old) model.now journal.now taking.new.steps.items) }
    ensures problem { IfErr result (λ e. IfSome (S.files shelf.old) (λ told. NotTaken journal.now told e)) }
    ensures missing { result ≡ Err problem.Missing → IsSome (S.files shelf.old) }
    ensures fault { result ≡ Err problem.Failed → Rose (S.faults shelf.old) (S.faults shelf.new) }
    ensures later { S.faults shelf.old ≤ S.faults shelf.new }
    ensures files { S.files shelf.new ≡ S.files shelf.old }
{
    loop {
        if let Some(stop) = take_next(alloc, shelf, model, journal, pieces, reader, taking)? {
            return Ok(stop);
        }
    }
}

/// The steps of the journal that are accepted over the decomposition of the model, from the first on: up to its first
/// verdict, its end, or what `check` finds before these. Each is judged as soon as it is whole.
pub fn accepted_steps<S: Shelf>(
    alloc: Global,
    shelf: &mut S,
    model: &RankedModel,
    journal: &str,
) -> Result<Steps, PieceProblem>
    requires formed { IsWellFormed model.now }
    requires ranked { first_without_rank model.now ≡ None }
    requires covers { length model.now.covers < 2 ^ 32 }
    requires sources { length (source_names model.now) ≤ 1024 }
    requires observed { length (observed_names model.now) ≤ 4096 }
    requires few { decomposed model.now ≤ most_pins }
    ensures steps { IfOk result (λ s. AreAcceptedSteps (net_of_model model.now) s.steps.items) }
    ensures taken { IfOk result (λ s. IfSome (S.files shelf.old) (TakenFrom model.now journal.now s.steps.items s.stop)) }
    ensures problem { IfErr result (λ e. IfSome (S.files shelf.old) (λ told. NotTaken journal.now told e)) }
    ensures missing { result ≡ Err problem.Missing → IsSome (S.files shelf.old) }
    ensures fault { result ≡ Err problem.Failed → Rose (S.faults shelf.old) (S.faults shelf.new) }
    ensures later { S.faults shelf.old ≤ S.faults shelf.new }
    ensures files { S.files shelf.new ≡ S.files shelf.old }
{
    cuts_agree();
    let mut pieces = FilePieces::new();
    let mut reader = JournalReader::new(alloc);
    let mut taking = Taking::new(alloc);
    let stop = take_pieces(
        alloc,
        shelf,
        model,
        journal,
        &mut pieces,
        &mut reader,
        &mut taking,
    )?;
    Ok(Steps {
        steps: taking.steps,
        stop,
    })
}
