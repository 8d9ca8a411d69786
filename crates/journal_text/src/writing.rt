// The lines of entries.
ghost use Rattle.std.specs.Prelude.{◌≡◌, ◌∷◌, ◌++◌, [], Bool, IfOk, OnOk, decimal, map};
ghost use Rattle.journal_text.specs.Pieces.{behind};
ghost use Rattle.journal_text.specs.declared.record.Entry.TheVariants as entry;
ghost use Rattle.journal_text.specs.declared.record.Record.TheVariants as kept;
ghost use Rattle.journal_text.specs.Text.{IsWritable, bit, entry_fields, entry_keyword, entry_text, fault_fields, record_fields, step_fields, step_keyword};

use crate::items::put_items;
use crate::keywords::{Keyword, keyword_text};
use crate::numbers::{bit_byte, put_number};
use crate::record::{Entry, Record};
use refutation::Tree;
use rm_base::{Fault, NoMemory, NodeId, Vector};
use std::alloc::Global;
use wire_edit::Step;

// Adds a blank and a number.
fn put_field(out: &mut Vec<u8>, number: u32) -> Result<(), NoMemory>
    ensures { OnOk result (out.new.items ≡ out.old.items ++ behind 32 (decimal number ∷ [])) }
{
    out.push(b' ')?;
    put_number(out, number)
}

// Adds two numbers, each behind a blank.
fn put_fields(out: &mut Vec<u8>, first: u32, second: u32) -> Result<(), NoMemory>
    ensures { OnOk result (out.new.items ≡ out.old.items ++ behind 32 (decimal first ∷ decimal second ∷ [])) }
{
    put_field(out, first)?;
    put_field(out, second)
}

// Adds a blank and the byte of a value.
fn put_value(out: &mut Vec<u8>, value: bool) -> Result<(), NoMemory>
    ensures { OnOk result (out.new.items ≡ out.old.items ++ behind 32 ((bit value ∷ []) ∷ [])) }
{
    out.push(b' ')?;
    out.push(bit_byte(value))?;
    Ok(())
}

// Adds the gate, the position and the value of a fault.
fn put_fault(out: &mut Vec<u8>, fault: Fault) -> Result<(), NoMemory>
    ensures { OnOk result (out.new.items ≡ out.old.items ++ behind 32 (fault_fields fault)) }
{
    put_fields(out, fault.gate.0, fault.position)?;
    put_value(out, fault.value)
}

// Adds what stands behind the keyword of a step, without its tree.
fn put_step(out: &mut Vec<u8>, step: Step) -> Result<(), NoMemory>
    ensures { OnOk result (out.new.items ≡ out.old.items ++ behind 32 (step_fields step)) }
{
    match step {
        Step::Add { gate, node } => put_fields(out, gate.0, node.0),
        Step::Fix {
            gate,
            position,
            value,
        } => put_fault(
            out,
            Fault {
                gate,
                position,
                value,
            },
        ),
        Step::NewNot { node } => put_field(out, node.0),
        Step::Const { gate, position } => put_fields(out, gate.0, position),
        Step::Same { gate, position } => put_fields(out, gate.0, position),
        Step::NoPins { gate } => put_field(out, gate.0),
        Step::OnePin { gate } => put_field(out, gate.0),
        Step::Twice { gate } => put_field(out, gate.0),
        Step::Twin { gate, other } => put_fields(out, gate.0, other.0),
        Step::Dead { gate } => put_field(out, gate.0),
    }
}

// Adds bits.
fn put_bits(out: &mut Vec<u8>, bits: &[bool]) -> Result<(), NoMemory>
    ensures { OnOk result (out.new.items ≡ out.old.items ++ map bit bits.now) }
{
    for value in bits {
        out.push(bit_byte(*value))?;
    }
    Ok(())
}

fn step_keyword(step: Step) -> Keyword
    ensures { result ≡ step_keyword step }
{
    match step {
        Step::Add { .. } => Keyword::Add,
        Step::Fix { .. } => Keyword::Fix,
        Step::NewNot { .. } => Keyword::NewNot,
        Step::Const { .. } => Keyword::Const,
        Step::Same { .. } => Keyword::Same,
        Step::NoPins { .. } => Keyword::NoPins,
        Step::OnePin { .. } => Keyword::OnePin,
        Step::Twice { .. } => Keyword::Twice,
        Step::Twin { .. } => Keyword::Twin,
        Step::Dead { .. } => Keyword::Dead,
    }
}

fn entry_keyword(entry: &Entry) -> Keyword
    ensures { result ≡ entry_keyword entry.now }
{
    match entry {
        Entry::Header { .. } => Keyword::Header,
        Entry::Record(Record::Step { step, .. }) => step_keyword(*step),
        Entry::Record(Record::Hit { .. }) => Keyword::Hit,
        Entry::Record(Record::Spent { .. }) => Keyword::Spent,
        Entry::End => Keyword::End,
    }
}

// Adds what stands behind the keyword of a step with its tree.
fn put_justified(out: &mut Vec<u8>, step: Step, tree: &Tree) -> Result<(), NoMemory>
    ensures { OnOk result (out.new.items ≡ out.old.items ++ behind 32 (record_fields (kept.Step step tree.now))) }
{
    put_step(out, step)?;
    put_items(out, tree.items())
}

// Adds what stands behind the keyword of a fault with the vector that detects it.
fn put_hit(out: &mut Vec<u8>, fault: Fault, vector: &Vector) -> Result<(), NoMemory>
    ensures { OnOk result (out.new.items ≡ out.old.items ++ behind 32 (record_fields (kept.Hit fault vector.now))) }
{
    put_fault(out, fault)?;
    out.push(b' ')?;
    put_bits(out, vector.values())
}

// Adds what stands behind the keyword of a fault with its partial tree.
fn put_spent(out: &mut Vec<u8>, fault: Fault, tree: &Tree) -> Result<(), NoMemory>
    ensures { OnOk result (out.new.items ≡ out.old.items ++ behind 32 (record_fields (kept.Spent fault tree.now))) }
{
    put_fault(out, fault)?;
    put_items(out, tree.items())
}

// Adds what stands behind the keyword of a record.
fn put_record(out: &mut Vec<u8>, given: &Record) -> Result<(), NoMemory>
    ensures { OnOk result (out.new.items ≡ out.old.items ++ behind 32 (record_fields given.now)) }
{
    match given {
        Record::Step { step, tree } => put_justified(out, *step, tree),
        Record::Hit { fault, vector } => put_hit(out, *fault, vector),
        Record::Spent { fault, tree } => put_spent(out, *fault, tree),
    }
}

// Adds what stands behind the keyword of an entry.
fn put_entry(out: &mut Vec<u8>, entry: &Entry) -> Result<(), NoMemory>
    ensures { OnOk result (out.new.items ≡ out.old.items ++ behind 32 (entry_fields entry.now)) }
{
    match entry {
        Entry::Header { budget } => {
            out.extend_from_slice(b" 1")?;
            put_field(out, *budget)
        }
        Entry::Record(record) => put_record(out, record),
        Entry::End => Ok(()),
    }
}

/// The line of an entry, ended by LF: its keyword, numbers in decimal, then its items or its bits, parted by one blank.
pub fn write_entry(alloc: Global, entry: &Entry) -> Result<Vec<u8>, NoMemory>
    requires { IsWritable entry.now }
    ensures { IfOk result (λ line. line.items ≡ entry_text entry.now) }
{
    let keyword = keyword_text(entry_keyword(entry));
    let mut line = Vec::from_slice(alloc, keyword.as_bytes())?;
    put_entry(&mut line, entry)?;
    line.push(b'\n')?;
    Ok(line)
}

/// The line of a step and its tree, as `write_entry` gives it of their record.
pub(crate) fn write_step(alloc: Global, step: Step, tree: &Tree) -> Result<Vec<u8>, NoMemory>
    ensures { IfOk result (λ line. line.items ≡ entry_text (entry.Record (kept.Step step tree.now))) }
{
    let keyword = keyword_text(step_keyword(step));
    let mut line = Vec::from_slice(alloc, keyword.as_bytes())?;
    put_justified(&mut line, step, tree)?;
    line.push(b'\n')?;
    Ok(line)
}

/// The line of a fault and the vector that detects it, as `write_entry` gives it of their record.
pub(crate) fn write_hit(alloc: Global, fault: Fault, vector: &Vector) -> Result<Vec<u8>, NoMemory>
    ensures { IfOk result (λ line. line.items ≡ entry_text (entry.Record (kept.Hit fault vector.now))) }
{
    let keyword = keyword_text(Keyword::Hit);
    let mut line = Vec::from_slice(alloc, keyword.as_bytes())?;
    put_hit(&mut line, fault, vector)?;
    line.push(b'\n')?;
    Ok(line)
}

/// The line of a fault and its partial tree, as `write_entry` gives it of their record.
pub(crate) fn write_spent(alloc: Global, fault: Fault, tree: &Tree) -> Result<Vec<u8>, NoMemory>
    ensures { IfOk result (λ line. line.items ≡ entry_text (entry.Record (kept.Spent fault tree.now))) }
{
    let keyword = keyword_text(Keyword::Spent);
    let mut line = Vec::from_slice(alloc, keyword.as_bytes())?;
    put_spent(&mut line, fault, tree)?;
    line.push(b'\n')?;
    Ok(line)
}
