// Reading a journal piece by piece.
ghost use Rattle.std.specs.Prelude.{◌≡◌, ◌<◌, ◌≤◌, ◌+◌, ◌^◌, ℕ, List, Option, Err, IfErr, IfOk, IfSome, IsSome, None, Some, length};
ghost use Rattle.std.specs.Option.{option_map};
ghost use Rattle.rm_base.specs.Causes.{Rose};
ghost use Rattle.rm_base.specs.Files.{Files as FilesValue, file_of};
ghost use Rattle.rm_base.specs.Shelves.{GivesPiece};
ghost use Rattle.rm_model.specs.Ranks.{first_without_rank};
ghost use Rattle.rm_model.specs.Value.{observed_names, source_names};
ghost use Rattle.rm_model.specs.WellFormed.{IsWellFormed};
ghost use Rattle.rm_base.specs.Words.{Word};
ghost use Rattle.rm_model.specs.declared.parts.Model.{Model as ModelValue};
ghost use Rattle.cover_decompose.specs.Count.{decomposed};
ghost use Rattle.gate_graph.specs.Circuit.{net_of};
ghost use Rattle.journal_reading.specs.Streams.{GivesNone};
ghost use Rattle.journal_audit.specs.Inner.Judging.{IsTextProblem};
ghost use Rattle.journal_audit.specs.Inner.Stages.{IsJudged};
ghost use Rattle.journal_audit.specs.Inner.Turns.{EndsAccepted, EndsWith, GivesNext, IsInside, IsOfJournal, IsOutside, IsRead, IsToldProblem, TurnSays};
ghost use Rattle.cover_decompose.specs.Limits.{most_pins};

use crate::judge::judge_entries;
use crate::problem::AuditProblem;
use crate::stage::Stage;
use crate::tally::Tally;
use gate_graph::Graph;
use journal_reading::{JournalReader, cuts_agree, places_tell};
use rm_base::{NoMemory, Shelf};
use rm_model::RankedModel;
use std::alloc::Global;

const PIECE: usize = 65_536;

const MOST_BYTES: u64 = 4_611_686_018_427_387_904;

/// What a turn of reading leads to: as many bytes are read, or the journal is accepted.
#[derive(Drop)]
pub(crate) enum Turn {
    GoesOn { stage: Stage, from: u64 },
    Ends { graph: Graph, tally: Tally },
}

// How many bytes are read at a place: never beyond the limit, but for one byte that shows more.
fn piece_size(from: u64) -> usize
    requires { from ≤ 4611686018427387904 }
    ensures some { 0 < result }
    ensures most { result ≤ 65536 }
    ensures within { from < 4611686018427387904 → from + result ≤ 4611686018427387904 }
{
    let left = MOST_BYTES - from;
    if left == 0 {
        return 1;
    }
    if left < PIECE as u64 {
        return left as usize;
    }
    PIECE
}

// The piece of the journal from a place on, empty where nothing is left.
fn piece_of<S: Shelf>(
    shelf: &mut S,
    journal: &str,
    from: u64,
    most: usize,
) -> Result<Vec<u8>, AuditProblem>
    ensures gives { IfOk result (λ piece. GivesPiece (S.files shelf.old) journal.now from most (Some piece.items)) }
    ensures missing { result ≡ Err AuditProblem.NoJournal → IfSome (S.files shelf.old) (λ told. file_of told journal.now ≡ None) }
    ensures told { result ≡ Err AuditProblem.NoJournal → IsSome (S.files shelf.old) }
    ensures fault { result ≡ Err AuditProblem.Fault → Rose (S.faults shelf.old) (S.faults shelf.new) }
    ensures others { IfErr result IsOutside }
    ensures later { S.faults shelf.old ≤ S.faults shelf.new }
    ensures files { S.files shelf.new ≡ S.files shelf.old }
{
    let Some(piece) = shelf.read(journal, from, most)? else {
        return Err(AuditProblem::NoJournal);
    };
    Ok(piece)
}

// What is known where no byte is left.
fn last(reader: &JournalReader, stage: Stage) -> Result<Turn, AuditProblem>
    requires none { GivesNone reader.now }
    requires judged { (m : ModelValue) × ((text : List ℕ) × IsJudged m text reader.now stage) }
    ensures ends { (m : ModelValue) (text : List ℕ) → IsJudged m text reader.now stage → IfOk result (EndsWith m text) }
    ensures problem { (m : ModelValue) (text : List ℕ) → IsJudged m text reader.now stage → IfErr result (λ problem. IsTextProblem m text problem) }
{
    cuts_agree();
    places_tell();
    if let Err(fault) = reader.finish() {
        return Err(AuditProblem::Text { fault });
    }
    match stage {
        Stage::Ended { graph, tally } => Ok(Turn::Ends { graph, tally }),
        Stage::Header => unreachable!(),
        Stage::Records {
            replay: _,
            tally: _,
        } => unreachable!(),
    }
}

// More bytes than a journal may have.
fn too_long() -> Result<Turn, AuditProblem>
    ensures { result ≡ Err AuditProblem.TooLong }
{
    Err(AuditProblem::TooLong)
}

// One more piece of the journal, which begins at that place and is empty at the journal's end.
fn next_turn(
    alloc: Global,
    model: &RankedModel,
    reader: &mut JournalReader,
    stage: Stage,
    from: u64,
    piece: &[u8],
) -> Result<Turn, AuditProblem>
    requires formed { IsWellFormed model.now }
    requires ranked { first_without_rank model.now ≡ None }
    requires covers { length model.now.covers < 2 ^ 32 }
    requires sources { length (source_names model.now) ≤ 1024 }
    requires observed { length (observed_names model.now) ≤ 4096 }
    requires few { decomposed model.now ≤ most_pins }
    requires read { IsRead model.now from reader.old stage }
    requires within { from < 4611686018427387904 → from + length piece.now ≤ 4611686018427387904 }
    requires most { from ≤ 4611686018427387904 }
    ensures says { (files : Option FilesValue) (journal : Word) (most : ℕ) → GivesNext files model.now journal from most reader.old stage piece.now → IfOk result (TurnSays files model.now journal from reader.new) }
    ensures problem { (files : Option FilesValue) (journal : Word) (most : ℕ) → GivesNext files model.now journal from most reader.old stage piece.now → IfErr result (IsToldProblem files model.now journal) }
    ensures inside { IfErr result IsInside }
{
    cuts_agree();
    if piece.is_empty() {
        return last(reader, stage);
    }
    if from == MOST_BYTES {
        return too_long();
    }
    if let Err(NoMemory) = reader.push(piece) {
        return Err(AuditProblem::NoMemory);
    }
    let stage = judge_entries(alloc, model, reader, stage)?;
    let from = from + piece.len() as u64;
    Ok(Turn::GoesOn { stage, from })
}

/// Reads the journal to its end and judges each entry as soon as it is whole: the last net, and what was read of the records.
pub(crate) fn journal_net<S: Shelf>(
    alloc: Global,
    shelf: &mut S,
    model: &RankedModel,
    journal: &str,
) -> Result<(Graph, Tally), AuditProblem>
    requires formed { IsWellFormed model.now }
    requires ranked { first_without_rank model.now ≡ None }
    requires covers { length model.now.covers < 2 ^ 32 }
    requires sources { length (source_names model.now) ≤ 1024 }
    requires observed { length (observed_names model.now) ≤ 4096 }
    requires few { decomposed model.now ≤ most_pins }
    ensures accepted { IfOk result (λ p. EndsAccepted (S.files shelf.old) model.now journal.now (net_of p.0) p.1) }
    ensures problem { IfErr result (IsToldProblem (S.files shelf.old) model.now journal.now) }
    ensures told { result ≡ Err AuditProblem.NoJournal → IsSome (S.files shelf.old) }
    ensures fault { result ≡ Err AuditProblem.Fault → Rose (S.faults shelf.old) (S.faults shelf.new) }
    ensures plain { IfErr result IsOfJournal }
    ensures later { S.faults shelf.old ≤ S.faults shelf.new }
    ensures files { S.files shelf.new ≡ S.files shelf.old }
{
    cuts_agree();
    let mut reader = JournalReader::new(alloc);
    let mut stage = Stage::Header;
    let mut from = 0u64;
    loop {
        let most = piece_size(from);
        let piece = piece_of(shelf, journal, from, most)?;
        match next_turn(alloc, model, &mut reader, stage, from, piece.as_slice())? {
            Turn::GoesOn {
                stage: next,
                from: now,
            } => {
                stage = next;
                from = now;
            }
            Turn::Ends { graph, tally } => return Ok((graph, tally)),
        }
    }
}
