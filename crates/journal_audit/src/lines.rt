// The lines that say why an audit isn't passed.
ghost use Rattle.std.specs.Prelude.{◌≡◌, ◌++◌, IfOk, OnOk};
ghost use Rattle.journal_audit.specs.Lines.{bit, check_word as word_of_check, edit_word as word_of_edit, fault_line as line_of_fault, fault_word as word_of_fault, item_in, netlist_line as line_of_netlist, number, number_in, place_word as word_of_place, refusal_line as line_of_refusal, version_word as word_of_version, why_words};

use itoa::Buffer;
use journal_check::{JournalRefusal, Why};
use journal_reading::{JournalFault, Version};
use refutation_check::CheckRefusal;
use rm_base::{Fault, NoMemory};
use std::alloc::Global;
use wire_edit::EditRefusal;

fn edit_word(refusal: EditRefusal) -> &'static str
    ensures { result.now ≡ word_of_edit refusal }
{
    match refusal {
        EditRefusal::NoNode { .. } => "NoNode",
        EditRefusal::WrongKind { .. } => "WrongKind",
        EditRefusal::NoPin { .. } => "NoPin",
        EditRefusal::Cycle { .. } => "Cycle",
        EditRefusal::AlreadyPin { .. } => "AlreadyPin",
        EditRefusal::RuleNotMet { .. } => "RuleNotMet",
        EditRefusal::Full => "Full",
    }
}

fn check_word(refusal: CheckRefusal) -> &'static str
    ensures { result.now ≡ word_of_check refusal }
{
    match refusal {
        CheckRefusal::BadLine { .. } => "BadLine",
        CheckRefusal::NotClash { .. } => "NotClash",
        CheckRefusal::NotQuiet { .. } => "NotQuiet",
        CheckRefusal::BadSplit { .. } => "BadSplit",
        CheckRefusal::Shape { .. } => "Shape",
        CheckRefusal::NoMemory => "NoMemory",
    }
}

fn item_of(refusal: CheckRefusal) -> u64
    ensures { result ≡ item_in refusal }
{
    match refusal {
        CheckRefusal::BadLine { item } => item,
        CheckRefusal::NotClash { item } => item,
        CheckRefusal::NotQuiet { item } => item,
        CheckRefusal::BadSplit { item } => item,
        CheckRefusal::Shape { item } => item,
        CheckRefusal::NoMemory => 0,
    }
}

fn fault_word(fault: JournalFault) -> &'static str
    ensures { result.now ≡ word_of_fault fault }
{
    match fault {
        JournalFault::BadHeader { .. } => "BadHeader",
        JournalFault::BadRecord { .. } => "BadRecord",
        JournalFault::Truncated { .. } => "Truncated",
        JournalFault::AfterEnd { .. } => "AfterEnd",
        JournalFault::NoMemory => "NoMemory",
    }
}

fn number_of(fault: JournalFault) -> u64
    ensures { result ≡ number_in fault }
{
    match fault {
        JournalFault::BadHeader { number, .. } => number,
        JournalFault::BadRecord { number, .. } => number,
        JournalFault::Truncated { number, .. } => number,
        JournalFault::AfterEnd { number, .. } => number,
        JournalFault::NoMemory => 0,
    }
}

fn version_word(version: Version) -> &'static str
    ensures { result.now ≡ word_of_version version }
{
    match version {
        Version::One => "line",
        Version::Two => "entry",
    }
}

fn place_word(fault: JournalFault) -> &'static str
    ensures { result.now ≡ word_of_place fault }
{
    match fault {
        JournalFault::BadHeader { version, .. } => version_word(version),
        JournalFault::BadRecord { version, .. } => version_word(version),
        JournalFault::Truncated { version, .. } => version_word(version),
        JournalFault::AfterEnd { version, .. } => version_word(version),
        JournalFault::NoMemory => version_word(Version::One),
    }
}

fn put(out: &mut Vec<u8>, bytes: &[u8]) -> Result<(), NoMemory>
    ensures { OnOk result (out.new.items ≡ out.old.items ++ bytes.now) }
{
    Ok(out.extend_from_slice(bytes)?)
}

// Adds a blank and a number.
fn put_number(out: &mut Vec<u8>, value: u64) -> Result<(), NoMemory>
    ensures { OnOk result (out.new.items ≡ out.old.items ++ number value) }
{
    let mut buffer = Buffer::new();
    put(out, b" ")?;
    put(out, buffer.format(value).as_bytes())
}

fn put_fault(out: &mut Vec<u8>, fault: Fault) -> Result<(), NoMemory>
    ensures { OnOk result (out.new.items ≡ out.old.items ++ (number fault.gate.0 ++ (number fault.position ++ number (bit fault.value)))) }
{
    put_number(out, u64::from(fault.gate.0))?;
    put_number(out, u64::from(fault.position))?;
    put_number(out, u64::from(fault.value))
}

fn put_two(out: &mut Vec<u8>, first: u64, second: u64) -> Result<(), NoMemory>
    ensures { OnOk result (out.new.items ≡ out.old.items ++ (number first ++ number second)) }
{
    put_number(out, first)?;
    put_number(out, second)
}

fn put_tree(out: &mut Vec<u8>, refusal: CheckRefusal) -> Result<(), NoMemory>
    ensures { OnOk result (out.new.items ≡ out.old.items ++ why_words (Why.Tree refusal)) }
{
    put(out, check_word(refusal).as_bytes())?;
    put(out, b" item")?;
    put_number(out, item_of(refusal))
}

fn put_why(out: &mut Vec<u8>, why: Why) -> Result<(), NoMemory>
    ensures { OnOk result (out.new.items ≡ out.old.items ++ why_words why) }
{
    match why {
        Why::Tree(refusal) => put_tree(out, refusal),
        Why::Edit(refusal) => put(out, edit_word(refusal).as_bytes()),
        Why::VectorMisses => put(out, b"VectorMisses"),
        Why::SpentShort { edges, budget } => {
            put(out, b"SpentShort")?;
            put_two(out, edges, u64::from(budget))
        }
        Why::FaultMissing { fault } => {
            put(out, b"FaultMissing")?;
            put_fault(out, fault)
        }
        Why::RecordExtra => put(out, b"RecordExtra"),
        Why::NotTidy { node } => {
            put(out, b"NotTidy")?;
            put_number(out, u64::from(node.0))
        }
        Why::NoMemory => put(out, b"NoMemory"),
    }
}

/// The line of a refusal: `journal record R`, and why.
pub fn refusal_line(alloc: Global, refusal: &JournalRefusal) -> Result<Vec<u8>, NoMemory>
    ensures { IfOk result (λ line. line.items ≡ line_of_refusal refusal.now) }
{
    let mut line = Vec::from_slice(alloc, b"journal record")?;
    put_number(&mut line, refusal.number)?;
    put(&mut line, b" ")?;
    put_why(&mut line, refusal.why)?;
    put(&mut line, b"\n")?;
    Ok(line)
}

/// The line of a fault of the journal's text: `journal line L KIND`, or `journal entry N KIND` of version 2.
pub fn fault_line(alloc: Global, fault: JournalFault) -> Result<Vec<u8>, NoMemory>
    ensures { IfOk result (λ line. line.items ≡ line_of_fault fault) }
{
    let mut line = Vec::from_slice(alloc, b"journal ")?;
    put(&mut line, place_word(fault).as_bytes())?;
    put_number(&mut line, number_of(fault))?;
    put(&mut line, b" ")?;
    put(&mut line, fault_word(fault).as_bytes())?;
    put(&mut line, b"\n")?;
    Ok(line)
}

/// The line of an output that isn't the text of the last net's model: `netlist BYTE`.
pub fn netlist_line(alloc: Global, byte: u64) -> Result<Vec<u8>, NoMemory>
    ensures { IfOk result (λ line. line.items ≡ line_of_netlist byte) }
{
    let mut line = Vec::from_slice(alloc, b"netlist")?;
    put_number(&mut line, byte)?;
    put(&mut line, b"\n")?;
    Ok(line)
}
