//! The line of the first flaw of a proof.
ghost use Rattle.std.specs.Prelude.{◌≡◌, ◌≤◌, ◌++◌, ◌∷◌, [], codes, drop, IfOk, OnOk, length};
ghost use Rattle.journal_audit.specs.Lines.{number};
ghost use Rattle.rambo_cli.specs.Lines.{flaw_words, line_words, proof_line};

use crate::problem::ProofProblem;
use itoa::Buffer;
use journal_audit::refusal_line;
use journal_check::JournalRefusal;
use journal_text::JournalFault;
use rm_base::NoMemory;
use std::alloc::Global;

// Adds a word, a blank and a number.
fn put_numbered(out: &mut Vec<u8>, word: &[u8], value: u64) -> Result<(), NoMemory>
    ensures { OnOk result (out.new.items ≡ out.old.items ++ (word.now ++ number value)) }
{
    let mut buffer = Buffer::new();
    out.extend_from_slice(word)?;
    out.extend_from_slice(b" ")?;
    out.extend_from_slice(buffer.format(value).as_bytes())?;
    Ok(())
}

// Adds what is wrong with a line.
fn put_fault(out: &mut Vec<u8>, fault: JournalFault) -> Result<(), NoMemory>
    ensures { OnOk result (out.new.items ≡ out.old.items ++ line_words fault) }
{
    match fault {
        JournalFault::BadHeader { line } => put_numbered(out, b"BadHeader", line),
        JournalFault::BadRecord { line } => put_numbered(out, b"BadRecord", line),
        JournalFault::Truncated { line } => put_numbered(out, b"Truncated", line),
        JournalFault::AfterEnd { line } => put_numbered(out, b"AfterEnd", line),
        JournalFault::NoMemory => Ok(out.extend_from_slice(b"NoMemory")?),
    }
}

// What follows the word `journal` of a line, and the blank behind it.
fn behind_journal(line: &[u8]) -> &[u8]
    requires { 8 ≤ length line.now }
    ensures { result.now ≡ drop 8 line.now }
{
    &line[8..]
}

// Adds what `check` prints of such a record of a journal, and ends the line.
fn put_refusal(alloc: Global, out: &mut Vec<u8>, refusal: JournalRefusal) -> Result<(), NoMemory>
    ensures { OnOk result (out.new.items ≡ out.old.items ++ (flaw_words (ProofProblem.Record refusal) ++ 10 ∷ [])) }
{
    let line = refusal_line(alloc, &refusal)?;
    out.extend_from_slice(behind_journal(line.as_slice()))?;
    Ok(())
}

// Adds what is wrong with a line, and ends the line that says it.
fn put_fault_line(out: &mut Vec<u8>, fault: JournalFault) -> Result<(), NoMemory>
    ensures { OnOk result (out.new.items ≡ out.old.items ++ (line_words fault ++ 10 ∷ [])) }
{
    put_fault(out, fault)?;
    Ok(out.extend_from_slice(b"\n")?)
}

// Adds that a record is no step.
fn put_no_step(out: &mut Vec<u8>, value: u64) -> Result<(), NoMemory>
    ensures { OnOk result (out.new.items ≡ out.old.items ++ ((codes "record" ++ (number value ++ codes " NoStep")) ++ 10 ∷ [])) }
{
    put_numbered(out, b"record", value)?;
    Ok(out.extend_from_slice(b" NoStep\n")?)
}

// Adds a flaw, and ends the line.
fn put_flaw(alloc: Global, out: &mut Vec<u8>, found: ProofProblem) -> Result<(), NoMemory>
    ensures { OnOk result (out.new.items ≡ out.old.items ++ (flaw_words found ++ 10 ∷ [])) }
{
    match found {
        ProofProblem::Text { fault } => put_fault_line(out, fault),
        ProofProblem::Record { refusal } => put_refusal(alloc, out, refusal),
        ProofProblem::NoStep { number } => put_no_step(out, number),
        ProofProblem::NotOne => Ok(out.extend_from_slice(b"NotOne\n")?),
    }
}

/// The line of the first flaw of a proof: `proof`, and what is found, with its place.
pub(crate) fn proof_line(alloc: Global, found: ProofProblem) -> Result<Vec<u8>, NoMemory>
    ensures { IfOk result (λ line. line.items ≡ proof_line found) }
{
    let mut line = Vec::from_slice(alloc, b"proof ")?;
    put_flaw(alloc, &mut line, found)?;
    Ok(line)
}
