// The text of evidence.
ghost use Rattle.std.specs.Prelude.{◌≡◌, ◌++◌, IfOk, OnOk};
ghost use Rattle.equal_evidence.specs.Evidence.{IsWritable, evidence_text, merged_text};
ghost use Rattle.journal_text.specs.Runs.{AreWritable, records_text};
ghost use Rattle.journal_text.specs.Text.{IsWritableRecord, entry_text};
ghost use Rattle.journal_text.specs.declared.record.Entry.TheVariants as entry;

use crate::copying::copy_record;
use crate::evidence::{Evidence, StepRun};
use equal_miter::write_proof;
use itoa::Buffer;
use journal_text::{Entry, Record, write_entry};
use rm_base::NoMemory;
use std::alloc::Global;

// Adds the line of a record.
fn put_record(alloc: Global, out: &mut Vec<u8>, given: &Record) -> Result<(), NoMemory>
    requires { IsWritableRecord given.now }
    ensures { OnOk result (out.new.items ≡ out.old.items ++ entry_text (entry.Record given.now)) }
{
    let entry = Entry::Record(copy_record(alloc, given)?);
    let line = write_entry(alloc, &entry)?;
    out.extend_from_slice(line.as_slice())?;
    Ok(())
}

// Adds the lines of records, in order.
fn put_records(alloc: Global, out: &mut Vec<u8>, records: &[Record]) -> Result<(), NoMemory>
    requires { AreWritable records.now }
    ensures { OnOk result (out.new.items ≡ out.old.items ++ records_text records.now) }
{
    for given in records {
        put_record(alloc, out, given)?;
    }
    Ok(())
}

// The text of steps that make a miter One.
fn write_merged(alloc: Global, budget: u32, run: &StepRun) -> Result<Vec<u8>, NoMemory>
    requires { AreWritable run.now }
    ensures { IfOk result (λ text. text.items ≡ merged_text budget run.now) }
{
    let mut buffer = Buffer::new();
    let mut text = Vec::from_slice(alloc, b"rambo-equal 2 ")?;
    text.extend_from_slice(buffer.format(budget).as_bytes())?;
    text.push(b'\n')?;
    put_records(alloc, &mut text, run.records())?;
    text.extend_from_slice(b"equal\n")?;
    Ok(text)
}

/// The text of evidence, which another program can check: that of a proof as `equal_miter` writes it, or the header of the second
/// form, the lines of the steps as they stand in a journal, and `equal`.
pub fn write_evidence(alloc: Global, budget: u32, evidence: &Evidence) -> Result<Vec<u8>, NoMemory>
    requires writable { IsWritable evidence.now }
    ensures { IfOk result (λ text. text.items ≡ evidence_text budget evidence.now) }
{
    match evidence {
        Evidence::Plain(likeness) => write_proof(alloc, budget, likeness),
        Evidence::Merged(run) => write_merged(alloc, budget, run),
    }
}
