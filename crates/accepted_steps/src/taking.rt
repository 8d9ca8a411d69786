// Taking the steps of a journal, entry by entry.
ghost use Rattle.std.specs.Prelude.{◌≡◌, ◌≢◌, ◌<◌, ◌≤◌, ◌^◌, [], ℕ, List, IfOk, IsSome, None, OnOk, Some, length};
ghost use Rattle.rm_model.specs.Ranks.{first_without_rank};
ghost use Rattle.rm_model.specs.Value.{observed_names, source_names};
ghost use Rattle.rm_model.specs.WellFormed.{IsWellFormed};
ghost use Rattle.rm_model.specs.declared.parts.Model.{Model as ModelValue};
ghost use Rattle.cover_decompose.specs.Count.{decomposed};
ghost use Rattle.cover_decompose.specs.Limits.{most_pins};
ghost use Rattle.journal_text.specs.Text.{IsWritable};
ghost use Rattle.journal_text.specs.declared.reader.Awaited.TheVariants as awaited;
ghost use Rattle.journal_text.specs.declared.record.Record.{Record as RecordValue};
ghost use Rattle.journal_check.specs.Replaying.{IsLocalTree};
ghost use Rattle.journal_check.specs.declared.refusal.Why.TheVariants as why;
ghost use Rattle.accepted_steps.specs.Inner.Taking.{MayTake, RecordSays, Stands, StandsIn, StepOf, TakenAt, TakesAll, TakesOne, TakingSome};
ghost use Rattle.accepted_steps.specs.declared.stop.Ended.TheVariants as ended;

use crate::stop::Ended;
use cover_decompose::DecomposeRefusal;
use journal_check::{JournalRefusal, Replay, Why, records_replay};
use journal_reading::{cuts_agree, places_tell};
use journal_text::{Entry, Record};
use rm_base::NoMemory;
use rm_model::RankedModel;
use std::alloc::Global;
use wire_edit::Step;

/// The replay, once the header has come, and the steps so far.
#[derive(Drop)]
pub(crate) struct Taking {
    pub(crate) replay: Option<Replay>,
    pub(crate) steps: Vec<Step>,
}

impl Taking {
    /// Before the header.
    pub(crate) fn new(alloc: Global) -> Taking
        ensures { (m : ModelValue) (budget : ℕ) → TakenAt m budget [] awaited.Header result }
    {
        Taking {
            replay: None,
            steps: Vec::new(alloc),
        }
    }
}

// The replay begins at the decomposition of the model.
fn begin(
    alloc: Global,
    model: &RankedModel,
    taking: &mut Taking,
    budget: u32,
) -> Result<Option<Ended>, NoMemory>
    requires formed { IsWellFormed model.now }
    requires ranked { first_without_rank model.now ≡ None }
    requires covers { length model.now.covers < 2 ^ 32 }
    requires sources { length (source_names model.now) ≤ 1024 }
    requires observed { length (observed_names model.now) ≤ 4096 }
    requires few { decomposed model.now ≤ most_pins }
    requires none { taking.old.steps.items ≡ [] }
    ensures none { IfOk result (λ o. o ≡ None) }
    ensures taken { OnOk result (TakenAt model.now budget [] awaited.Record taking.new) }
{
    match Replay::new(alloc, model, budget) {
        Ok(replay) => {
            taking.replay = Some(replay);
            Ok(None)
        }
        Err(DecomposeRefusal::Limit { pins: _ }) => unreachable!(),
        Err(DecomposeRefusal::NoMemory) => Err(NoMemory),
    }
}

// A refusal ends the steps; want of memory is no refusal.
fn refuse(refusal: JournalRefusal) -> Result<Option<Ended>, NoMemory>
    ensures { IfOk result (λ o. (o ≡ Some (ended.AtRefusal refusal)) × (refusal.why ≢ why.NoMemory)) }
{
    match refusal.why {
        Why::NoMemory => Err(NoMemory),
        Why::Tree(_)
        | Why::Edit(_)
        | Why::VectorMisses
        | Why::SpentShort { .. }
        | Why::FaultMissing { .. }
        | Why::RecordExtra
        | Why::NotTidy { .. } => Ok(Some(Ended::AtRefusal { refusal })),
    }
}

// One more step.
fn take_step(
    replay: &mut Replay,
    steps: &mut Vec<Step>,
    given: &Record,
    step: Step,
) -> Result<Option<Ended>, NoMemory>
    requires tree { IsLocalTree given.now }
    requires step { StepOf given.now step }
    ensures { (m : ModelValue) (budget : ℕ) (records : List RecordValue) → Stands m budget records replay.old steps.old.items → length records ≤ 2 ^ 62 → IfOk result (λ o. RecordSays m budget records given.now (Some replay.new) steps.new.items o) }
{
    records_replay();
    match replay.step(given) {
        Ok(()) => {
            steps.push(step)?;
            Ok(None)
        }
        Err(refusal) => refuse(refusal),
    }
}

// One more record.
fn take_record(taking: &mut Taking, given: &Record) -> Result<Option<Ended>, NoMemory>
    requires tree { IsLocalTree given.now }
    requires some { IsSome taking.old.replay }
    ensures { (m : ModelValue) (budget : ℕ) (records : List RecordValue) → StandsIn m budget records taking.old.steps.items taking.old.replay → length records ≤ 2 ^ 62 → IfOk result (λ o. RecordSays m budget records given.now taking.new.replay taking.new.steps.items o) }
{
    let Some(replay) = &mut taking.replay else {
        unreachable!()
    };
    match given {
        Record::Step { step, tree: _ } => take_step(replay, &mut taking.steps, given, *step),
        Record::Hit { .. } => Ok(Some(Ended::AtVerdict)),
        Record::Spent { .. } => Ok(Some(Ended::AtVerdict)),
    }
}

// One more entry.
fn take_entry(
    alloc: Global,
    model: &RankedModel,
    taking: &mut Taking,
    entry: &Entry,
) -> Result<Option<Ended>, NoMemory>
    requires formed { IsWellFormed model.now }
    requires ranked { first_without_rank model.now ≡ None }
    requires covers { length model.now.covers < 2 ^ 32 }
    requires sources { length (source_names model.now) ≤ 1024 }
    requires observed { length (observed_names model.now) ≤ 4096 }
    requires few { decomposed model.now ≤ most_pins }
    requires writable { IsWritable entry.now }
    requires taken { MayTake model.now taking.old entry.now }
    ensures { IfOk result (λ o. TakesOne model.now taking.old entry.now taking.new o) }
{
    records_replay();
    match entry {
        Entry::Header { budget } => begin(alloc, model, taking, *budget),
        Entry::Record(record) => take_record(taking, record),
        Entry::End => Ok(Some(Ended::AtVerdict)),
    }
}

/// Takes the entries, one after another, until one ends the steps.
pub(crate) fn take_entries(
    alloc: Global,
    model: &RankedModel,
    taking: &mut Taking,
    entries: &[Entry],
) -> Result<Option<Ended>, NoMemory>
    requires formed { IsWellFormed model.now }
    requires ranked { first_without_rank model.now ≡ None }
    requires covers { length model.now.covers < 2 ^ 32 }
    requires sources { length (source_names model.now) ≤ 1024 }
    requires observed { length (observed_names model.now) ≤ 4096 }
    requires few { decomposed model.now ≤ most_pins }
    requires taken { TakingSome model.now taking.old entries.now }
    ensures { IfOk result (λ o. TakesAll model.now taking.old entries.now taking.new o) }
{
    cuts_agree();
    places_tell();
    for entry in entries {
        if let Some(ended) = take_entry(alloc, model, taking, entry)? {
            return Ok(Some(ended));
        }
    }
    Ok(None)
}
