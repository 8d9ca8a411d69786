// Reading a whole journal of either version.
ghost use Rattle.std.specs.Prelude.{◌≡◌, ◌≢◌, ◌++◌, ℕ, List, IfErr, IfOk, OnOk};
ghost use Rattle.journal_text.specs.Streams.{budget_with, records_of};
ghost use Rattle.journal_text.specs.declared.record.Record.{Record as RecordValue};
ghost use Rattle.journal_reading.specs.Faults.{IsFault, IsJournal};
ghost use Rattle.journal_reading.specs.declared.faults.JournalFault.{JournalFault as FaultValue};
ghost use Rattle.journal_reading.specs.declared.faults.JournalFault.TheVariants as fault;

use crate::faults::JournalFault;
use crate::laws::{cuts_agree, faults_are_one, journals_are_one};
use crate::reader::JournalReader;
use journal_text::{Entry, Record};
use rm_base::NoMemory;
use std::alloc::Global;

// Adds what an entry says.
fn add_entry(entry: Entry, budget: &mut u32, records: &mut Vec<Record>) -> Result<(), NoMemory>
    ensures budget { OnOk result (budget.new ≡ budget_with budget.old entry) }
    ensures records { OnOk result (records.new.items ≡ records.old.items ++ records_of entry) }
{
    match entry {
        Entry::Header { budget: given } => *budget = given,
        Entry::Record(record) => records.push(record)?,
        Entry::End => {}
    }
    Ok(())
}

// The budget and the records of a journal, or a fault of the text.
fn read_whole(alloc: Global, text: &[u8]) -> Result<(u32, Vec<Record>), JournalFault>
    ensures read { IfOk result (λ p. IsJournal text.now p.0 p.1.items) }
    ensures refused { IfErr result (λ f. f ≢ fault.NoMemory → IsFault text.now f) }
{
    cuts_agree();
    let mut reader = JournalReader::new(alloc);
    reader.push(text)?;
    let mut budget = 0u32;
    let mut records = Vec::new(alloc);
    while let Some(entry) = reader.next()? {
        add_entry(entry, &mut budget, &mut records)?;
    }
    reader.finish()?;
    Ok((budget, records))
}

/// The budget and the records of a journal of either version, or the fault of a text that is none.
pub fn read_journal(alloc: Global, text: &[u8]) -> Result<(u32, Vec<Record>), JournalFault>
    ensures read { IfOk result (λ p. IsJournal text.now p.0 p.1.items) }
    ensures refused { IfErr result (λ f. f ≢ fault.NoMemory → IsFault text.now f) }
    ensures journal { (b : ℕ) (rs : List RecordValue) → IsJournal text.now b rs → IfOk result (λ p. (p.0 ≡ b) × (p.1.items ≡ rs)) × IfErr result (λ f. f ≡ fault.NoMemory) }
    ensures faulty { (f : FaultValue) → IsFault text.now f → IfOk result (λ p. ⊥) × IfErr result (λ g. g ≢ fault.NoMemory → g ≡ f) }
{
    journals_are_one();
    faults_are_one();
    read_whole(alloc, text)
}
