// Reading lines of evidence as those of a journal.
ghost use Rattle.std.specs.Prelude.{◌≡◌, ◌≢◌, ◌≤◌, ◌++◌, ◌∷◌, [], ℕ, List, IfErr, IfOk, IfSome, None, decimal};
ghost use Rattle.equal_evidence.specs.Inner.Lines.{journal_with};
ghost use Rattle.journal_text.specs.Faults.{IsJournal};
ghost use Rattle.journal_text.specs.Pieces.{HasNo};
ghost use Rattle.journal_text.specs.Text.{IsEntry, entry_line};
ghost use Rattle.journal_text.specs.declared.faults.JournalFault.TheVariants as fault;
ghost use Rattle.journal_text.specs.declared.record.Entry.TheVariants as entry;
ghost use Rattle.journal_text.specs.declared.record.Record.{Record as RecordValue};

use journal_text::{JournalFault, Record, journals_are_one, lines_read, read_journal};
use rm_base::NoMemory;
use std::alloc::Global;

// A fault of the evidence, where it is one of the journal: what is behind a line `end` isn't read.
fn early(found: JournalFault) -> JournalFault
    ensures { found ≡ fault.NoMemory → result ≡ fault.NoMemory }
{
    match found {
        JournalFault::AfterEnd { line } => JournalFault::BadRecord {
            line: line.saturating_sub(1),
        },
        other => other,
    }
}

// The text of a journal with these bytes between its version and its end.
fn journal_with(alloc: Global, lines: &[u8]) -> Result<Vec<u8>, NoMemory>
    ensures { IfOk result (λ text. text.items ≡ journal_with lines.now) }
{
    let mut text = Vec::from_slice(alloc, b"rambo 1 ")?;
    text.extend_from_slice(lines)?;
    text.extend_from_slice(b"end\n")?;
    Ok(text)
}

/// The budget and the records of a journal with these bytes between its version and its end, or a fault, at its line.
pub(crate) fn read_steps(alloc: Global, lines: &[u8]) -> Result<(u32, Vec<Record>), JournalFault>
    ensures read { IfOk result (λ p. IsJournal (journal_with lines.now) p.0 p.1.items) }
    ensures refused { IfErr result (λ f. f ≢ fault.NoMemory → (b : ℕ) (rs : List RecordValue) → IsJournal (journal_with lines.now) b rs → ⊥) }
{
    let text = journal_with(alloc, lines)?;
    match read_journal(alloc, text.as_slice()) {
        Ok(read) => Ok(read),
        Err(found) => Err(early(found)),
    }
}

// The text of a journal without its last line.
fn opening(alloc: Global, lines: &[u8]) -> Result<Vec<u8>, NoMemory> {
    let mut text = Vec::from_slice(alloc, b"rambo 1 ")?;
    text.extend_from_slice(lines)?;
    Ok(text)
}

/// The fault of steps without their last line.
pub(crate) fn unended(alloc: Global, lines: &[u8]) -> JournalFault {
    let Ok(text) = opening(alloc, lines) else {
        return JournalFault::NoMemory;
    };
    match read_journal(alloc, text.as_slice()) {
        Ok((_budget, records)) => JournalFault::BadRecord {
            line: (records.len() as u64).saturating_add(2),
        },
        Err(found) => early(found),
    }
}

// A line, ended by LF.
fn with_end(alloc: Global, line: &[u8]) -> Result<Vec<u8>, NoMemory>
    ensures { IfOk result (λ ended. ended.items ≡ line.now ++ 10 ∷ []) }
{
    let mut ended = Vec::from_slice(alloc, line)?;
    ended.push(b'\n')?;
    Ok(ended)
}

/// The budget that a word says.
pub(crate) fn read_budget(alloc: Global, word: &[u8]) -> Result<u32, JournalFault>
    requires { HasNo 10 word.now }
    ensures least { IfOk result (λ b. 1 ≤ b) }
    ensures most { IfOk result (λ b. b ≤ 1048576) }
    ensures read { IfOk result (λ b. word.now ≡ decimal b) }
    ensures refused { IfErr result (λ f. f ≢ fault.NoMemory → (b : ℕ) → 1 ≤ b → b ≤ 1048576 → word.now ≢ decimal b) }
{
    lines_read();
    let lines = with_end(alloc, word)?;
    let (budget, _records) = read_steps(alloc, lines.as_slice())?;
    Ok(budget)
}

// The lines of a budget and this one.
fn with_budget(alloc: Global, front: &[u8], line: &[u8]) -> Result<Vec<u8>, NoMemory>
    ensures { IfOk result (λ lines. lines.items ≡ 49 ∷ 10 ∷ ((front.now ++ line.now) ++ 10 ∷ [])) }
{
    let mut lines = Vec::from_slice(alloc, b"1\n")?;
    lines.extend_from_slice(front)?;
    lines.extend_from_slice(line)?;
    lines.push(b'\n')?;
    Ok(lines)
}

// The record, if it is the only one.
fn only(mut records: Vec<Record>) -> Option<Record>
    ensures some { IfSome result (λ r. records.items ≡ r ∷ []) }
    ensures none { result ≡ None → (r : RecordValue) → records.items ≢ r ∷ [] }
{
    let last = records.pop()?;
    if records.is_empty() { Some(last) } else { None }
}

/// The record whose line begins so and goes on so.
pub(crate) fn read_line(alloc: Global, front: &[u8], line: &[u8]) -> Result<Record, JournalFault>
    ensures entry { IfOk result (λ r. IsEntry (entry.Record r)) }
    ensures read { IfOk result (λ r. front.now ++ line.now ≡ entry_line (entry.Record r)) }
    ensures refused { IfErr result (λ f. f ≢ fault.NoMemory → (r : RecordValue) → IsEntry (entry.Record r) → front.now ++ line.now ≢ entry_line (entry.Record r)) }
{
    lines_read();
    journals_are_one();
    let lines = with_budget(alloc, front, line)?;
    let (_budget, records) = read_steps(alloc, lines.as_slice())?;
    match only(records) {
        Some(given) => Ok(given),
        None => Err(JournalFault::BadRecord { line: 2 }),
    }
}
