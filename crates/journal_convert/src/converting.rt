// Reading a journal of version 1, and its text in version 2.
ghost use Rattle.std.specs.Prelude.{◌≡◌, ◌≢◌, ◌≤◌, ◌++◌, ◌^◌, ◌+◌, [], ℕ, List, Err, IfErr, IfOk, IfSome, IsSome, OnOk, length};
ghost use Rattle.rm_base.specs.Causes.{Rose};
ghost use Rattle.journal_text.specs.declared.record.Record.{Record as RecordValue};
ghost use Rattle.journal_text.specs.Streams.{GivesNone, IsReadTo, budget_with, records_of};
ghost use Rattle.journal_convert.specs.Converting.{ConvertedFrom, NotConverted};
ghost use Rattle.journal_convert.specs.Inner.Pieces.{EndSays, PieceSays, ReadFrom};
ghost use Rattle.journal_convert.specs.declared.problem.ConvertProblem.TheVariants as problem;

use crate::problem::ConvertProblem;
use file_pieces::FilePieces;
use journal_binary::write_binary;
use journal_text::{Entry, JournalReader, Record, cuts_agree};
use rm_base::{NoMemory, Shelf};
use std::alloc::Global;

/// A journal in version 2, and how many records it has.
#[derive(Drop)]
pub struct Converted {
    pub text: Vec<u8>,
    pub count: u64,
}

// The budget and the records so far.
#[derive(Drop)]
struct Kept {
    budget: u32,
    records: Vec<Record>,
}

// Adds what an entry says.
fn keep(kept: &mut Kept, entry: Entry) -> Result<(), NoMemory>
    ensures budget { OnOk result (kept.new.budget ≡ budget_with kept.old.budget entry) }
    ensures records { OnOk result (kept.new.records.items ≡ kept.old.records.items ++ records_of entry) }
{
    match entry {
        Entry::Header { budget } => kept.budget = budget,
        Entry::Record(record) => kept.records.push(record)?,
        Entry::End => {}
    }
    Ok(())
}

// Keeps all entries whose lines are whole.
fn keep_lines(reader: &mut JournalReader, kept: &mut Kept) -> Result<(), ConvertProblem>
    ensures { (text : List ℕ) → IsReadTo text kept.old.budget kept.old.records.items reader.old → length text ≤ 2 ^ 62 → PieceSays text result kept.new.budget kept.new.records.items reader.new }
{
    cuts_agree();
    while let Some(entry) = reader.next()? {
        keep(kept, entry)?;
    }
    Ok(())
}

// What is known where no byte is left.
fn last(reader: &JournalReader) -> Result<(), ConvertProblem>
    requires { GivesNone reader.now }
    ensures { (text : List ℕ) (budget : ℕ) (records : List RecordValue) → IsReadTo text budget records reader.now → length text ≤ 2 ^ 62 → EndSays text budget records result }
{
    cuts_agree();
    Ok(reader.finish()?)
}

// The budget and the records of the journal.
fn read_file<S: Shelf>(alloc: Global, shelf: &mut S, from: &str) -> Result<Kept, ConvertProblem>
    ensures read { IfOk result (λ k. IfSome (S.files shelf.old) (ReadFrom from.now k.budget k.records.items)) }
    ensures problem { IfErr result (λ e. IfSome (S.files shelf.old) (λ told. NotConverted from.now told e)) }
    ensures missing { result ≡ Err problem.Missing → IsSome (S.files shelf.old) }
    ensures fault { result ≡ Err problem.Failed → Rose (S.faults shelf.old) (S.faults shelf.new) }
    ensures later { S.faults shelf.old ≤ S.faults shelf.new }
    ensures files { S.files shelf.new ≡ S.files shelf.old }
{
    cuts_agree();
    let mut reader = JournalReader::new(alloc);
    let mut pieces = FilePieces::new();
    let mut kept = Kept {
        budget: 0,
        records: Vec::new(alloc),
    };
    while let Some(piece) = pieces.next(shelf, from)? {
        reader.push(piece.as_slice())?;
        keep_lines(&mut reader, &mut kept)?;
    }
    last(&reader)?;
    Ok(kept)
}

/// Reads the file as a journal of version 1, and gives its text in version 2. It doesn't replay it.
pub fn convert<S: Shelf>(
    alloc: Global,
    shelf: &mut S,
    from: &str,
) -> Result<Converted, ConvertProblem>
    ensures converted { IfOk result (λ c. IfSome (S.files shelf.old) (ConvertedFrom from.now c.text.items c.count)) }
    ensures problem { IfErr result (λ e. IfSome (S.files shelf.old) (λ told. NotConverted from.now told e)) }
    ensures missing { result ≡ Err problem.Missing → IsSome (S.files shelf.old) }
    ensures fault { result ≡ Err problem.Failed → Rose (S.faults shelf.old) (S.faults shelf.new) }
    ensures later { S.faults shelf.old ≤ S.faults shelf.new }
    ensures files { S.files shelf.new ≡ S.files shelf.old }
{
    let kept = read_file(alloc, shelf, from)?;
    let text = write_binary(alloc, kept.budget, kept.records.as_slice())?;
    Ok(Converted {
        text,
        count: kept.records.len() as u64,
    })
}
