// Judging a journal entry by entry.
ghost use Rattle.std.specs.Prelude.{◌≡◌, ◌<◌, ◌≤◌, ◌++◌, ◌^◌, [], ℕ, List, Err, IfErr, IfOk, None, length, true};
ghost use Rattle.rm_model.specs.Ranks.{first_without_rank};
ghost use Rattle.rm_model.specs.Value.{observed_names, source_names};
ghost use Rattle.rm_model.specs.WellFormed.{IsWellFormed};
ghost use Rattle.rm_model.specs.declared.parts.Model.{Model as ModelValue};
ghost use Rattle.cover_decompose.specs.Count.{decomposed};
ghost use Rattle.journal_text.specs.Streams.{comes};
ghost use Rattle.journal_text.specs.Text.{IsWritable};
ghost use Rattle.journal_text.specs.declared.reader.Awaited.{Awaited as AwaitedValue};
ghost use Rattle.journal_text.specs.declared.reader.Awaited.TheVariants as awaited;
ghost use Rattle.journal_text.specs.declared.record.Entry.TheVariants as entries;
ghost use Rattle.journal_text.specs.declared.record.Record.{Record as RecordValue};
ghost use Rattle.journal_reading.specs.Streams.{GivesNone};
ghost use Rattle.journal_check.specs.Replaying.{IsLocalTree};
ghost use Rattle.journal_audit.specs.Inner.Judging.{IsTextProblem};
ghost use Rattle.journal_audit.specs.Inner.Problems.{refusal_problem as problem_of_refusal};
ghost use Rattle.journal_audit.specs.Inner.Tallies.{IsTally};
ghost use Rattle.journal_audit.specs.Inner.Stages.{GatheredOn, IsJudged, IsReplayed, JudgedOn, JudgedSome, StageIs, TakenSays, unless_fault};
ghost use Rattle.journal_audit.specs.declared.problem.AuditProblem.TheVariants.{NoMemory as Wanting};
ghost use Rattle.cover_decompose.specs.Limits.{most_pins};

use crate::expecting::expect_hits;
use crate::problem::AuditProblem;
use crate::stage::Stage;
use crate::tally::Tally;
use cover_decompose::DecomposeRefusal;
use journal_check::{JournalRefusal, Replay, Why, records_replay, replays_accept};
use journal_reading::{JournalFault, JournalReader, cuts_agree, gather, places_tell};
use journal_text::{Entry, Record};
use rm_base::NoMemory;
use rm_model::RankedModel;
use std::alloc::Global;

// A refusal, or want of memory.
fn refusal_problem(refusal: JournalRefusal) -> AuditProblem
    ensures { result ≡ problem_of_refusal refusal }
{
    match refusal.why {
        Why::NoMemory => AuditProblem::NoMemory,
        Why::Tree(_)
        | Why::Edit(_)
        | Why::VectorMisses
        | Why::SpentShort { .. }
        | Why::FaultMissing { .. }
        | Why::RecordExtra
        | Why::NotTidy { .. } => AuditProblem::Refused { refusal },
    }
}

// The replay begins at the decomposition of the model.
fn first_stage(alloc: Global, model: &RankedModel, budget: u32) -> Result<Stage, AuditProblem>
    requires formed { IsWellFormed model.now }
    requires ranked { first_without_rank model.now ≡ None }
    requires covers { length model.now.covers < 2 ^ 32 }
    requires sources { length (source_names model.now) ≤ 1024 }
    requires observed { length (observed_names model.now) ≤ 4096 }
    requires few { decomposed model.now ≤ most_pins }
    ensures stage { IfOk result (λ stage. StageIs model.now budget [] awaited.Record stage) }
    ensures memory { IfErr result (λ problem. problem ≡ Wanting) }
{
    match Replay::new(alloc, model, budget) {
        Ok(replay) => Ok(Stage::Records {
            replay,
            tally: Tally::new(alloc),
        }),
        Err(DecomposeRefusal::Limit { pins: _ }) => unreachable!(),
        Err(DecomposeRefusal::NoMemory) => Err(AuditProblem::NoMemory),
    }
}

// One more record.
fn stage_after_record(replay: Replay, tally: Tally, given: &Record) -> Result<Stage, AuditProblem>
    requires tree { IsLocalTree given.now }
    requires few { tally.count < 2 ^ 63 }
    ensures { (m : ModelValue) (budget : ℕ) (records : List RecordValue) → IsReplayed m budget records replay → IsTally records tally → TakenSays m budget records (entries.Record given.now) result }
{
    records_replay();
    let mut replay = replay;
    match replay.step(given) {
        Ok(()) => {
            let mut tally = tally;
            match tally.push(given) {
                Ok(()) => Ok(Stage::Records { replay, tally }),
                Err(NoMemory) => Err(AuditProblem::NoMemory),
            }
        }
        Err(refusal) => Err(refusal_problem(refusal)),
    }
}

// The end of the journal.
fn stage_at_end(replay: Replay, tally: Tally) -> Result<Stage, AuditProblem>
    ensures { (m : ModelValue) (budget : ℕ) (records : List RecordValue) → IsReplayed m budget records replay → IsTally records tally → TakenSays m budget records entries.End result }
{
    records_replay();
    replays_accept();
    match replay.finish() {
        Ok(graph) => Ok(Stage::Ended { graph, tally }),
        Err(refusal) => Err(refusal_problem(refusal)),
    }
}

// One more entry.
fn stage_after_entry(
    alloc: Global,
    model: &RankedModel,
    stage: Stage,
    entry: &Entry,
) -> Result<Stage, AuditProblem>
    requires formed { IsWellFormed model.now }
    requires ranked { first_without_rank model.now ≡ None }
    requires covers { length model.now.covers < 2 ^ 32 }
    requires sources { length (source_names model.now) ≤ 1024 }
    requires observed { length (observed_names model.now) ≤ 4096 }
    requires few { decomposed model.now ≤ most_pins }
    requires valid { IsWritable entry.now }
    requires stage { (budget : ℕ) × ((records : List RecordValue) × ((a : AwaitedValue) × (StageIs model.now budget records a stage × ((comes a entry.now ≡ true) × (length records ≤ 2 ^ 62))))) }
    ensures { (budget : ℕ) (records : List RecordValue) (a : AwaitedValue) → StageIs model.now budget records a stage → comes a entry.now ≡ true → TakenSays model.now budget records entry.now result }
{
    match stage {
        Stage::Header => match entry {
            Entry::Header { budget } => first_stage(alloc, model, *budget),
            Entry::Record(_) => unreachable!(),
            Entry::End => unreachable!(),
        },
        Stage::Records { replay, tally } => match entry {
            Entry::Header { budget: _ } => unreachable!(),
            Entry::Record(record) => stage_after_record(replay, tally, record),
            Entry::End => stage_at_end(replay, tally),
        },
        Stage::Ended { graph: _, tally: _ } => unreachable!(),
    }
}

// Judges the entries, one after another.
fn judge_all(
    alloc: Global,
    model: &RankedModel,
    stage: Stage,
    entries: &[Entry],
) -> Result<Stage, AuditProblem>
    requires formed { IsWellFormed model.now }
    requires ranked { first_without_rank model.now ≡ None }
    requires covers { length model.now.covers < 2 ^ 32 }
    requires sources { length (source_names model.now) ≤ 1024 }
    requires observed { length (observed_names model.now) ≤ 4096 }
    requires few { decomposed model.now ≤ most_pins }
    requires judged { JudgedSome model.now stage entries.now }
    ensures { JudgedOn model.now stage entries.now result }
{
    cuts_agree();
    places_tell();
    let mut stage = stage;
    for entry in entries {
        stage = stage_after_entry(alloc, model, stage, entry)?;
    }
    Ok(stage)
}

// The problem, in place of the stage.
fn give_up(stage: Stage, problem: AuditProblem) -> Result<Stage, AuditProblem>
    ensures { result ≡ Err problem }
{
    let _stage = stage;
    Err(problem)
}

// The stage, unless there is a fault.
fn unless_broken(stage: Stage, fault: Option<JournalFault>) -> Result<Stage, AuditProblem>
    ensures { result ≡ unless_fault stage fault }
{
    match fault {
        Some(fault) => give_up(stage, AuditProblem::Text { fault }),
        None => Ok(stage),
    }
}

// Judges entries, and then the fault behind them if there is one.
fn judge_gathered(
    alloc: Global,
    model: &RankedModel,
    stage: Stage,
    entries: &[Entry],
    fault: Option<JournalFault>,
) -> Result<Stage, AuditProblem>
    requires formed { IsWellFormed model.now }
    requires ranked { first_without_rank model.now ≡ None }
    requires covers { length model.now.covers < 2 ^ 32 }
    requires sources { length (source_names model.now) ≤ 1024 }
    requires observed { length (observed_names model.now) ≤ 4096 }
    requires few { decomposed model.now ≤ most_pins }
    requires judged { JudgedSome model.now stage entries.now }
    ensures { GatheredOn model.now stage entries.now fault result }
{
    cuts_agree();
    places_tell();
    let stage = expect_hits(alloc, stage, entries);
    match judge_all(alloc, model, stage, entries) {
        Ok(stage) => unless_broken(stage, fault),
        Err(problem) => Err(problem),
    }
}

/// Judges all entries that are whole. The vectors of their hits are made known first.
pub(crate) fn judge_entries(
    alloc: Global,
    model: &RankedModel,
    reader: &mut JournalReader,
    stage: Stage,
) -> Result<Stage, AuditProblem>
    requires formed { IsWellFormed model.now }
    requires ranked { first_without_rank model.now ≡ None }
    requires covers { length model.now.covers < 2 ^ 32 }
    requires sources { length (source_names model.now) ≤ 1024 }
    requires observed { length (observed_names model.now) ≤ 4096 }
    requires few { decomposed model.now ≤ most_pins }
    requires judged { (text : List ℕ) × IsJudged model.now text reader.old stage }
    ensures judged { (text : List ℕ) → IsJudged model.now text reader.old stage → IfOk result (λ after. IsJudged model.now text reader.new after × GivesNone reader.new) }
    ensures problem { (text more : List ℕ) → IsJudged model.now text reader.old stage → IfErr result (λ problem. IsTextProblem model.now (text ++ more) problem) }
{
    match gather(alloc, reader) {
        Ok(gathered) => judge_gathered(
            alloc,
            model,
            stage,
            gathered.entries.as_slice(),
            gathered.fault,
        ),
        Err(NoMemory) => give_up(stage, AuditProblem::NoMemory),
    }
}
