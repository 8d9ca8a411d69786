// All entries that are whole.
ghost use Rattle.std.specs.Prelude.{◌≡◌, ◌≢◌, IfOk, Some};
ghost use Rattle.journal_reading.specs.Streams.{Gathers};
ghost use Rattle.journal_reading.specs.declared.faults.JournalFault.TheVariants as faults;

use crate::faults::JournalFault;
use crate::laws::cuts_agree;
use crate::reader::JournalReader;
use journal_text::Entry;
use rm_base::NoMemory;
use std::alloc::Global;

/// Entries, and the fault behind them if there is one.
#[derive(Drop)]
pub struct Gathered {
    pub entries: Vec<Entry>,
    pub fault: Option<JournalFault>,
}

// The entries before a fault of the text; want of memory is no such fault.
fn broken(entries: Vec<Entry>, fault: JournalFault) -> Result<Gathered, NoMemory>
    ensures { IfOk result (λ g. (g.entries.items ≡ entries.items) × ((g.fault ≡ Some fault) × (fault ≢ faults.NoMemory))) }
{
    match fault {
        JournalFault::BadHeader { .. }
        | JournalFault::BadRecord { .. }
        | JournalFault::Truncated { .. }
        | JournalFault::AfterEnd { .. } => Ok(Gathered {
            entries,
            fault: Some(fault),
        }),
        JournalFault::NoMemory => Err(NoMemory),
    }
}

/// Gives all entries of the reader that are whole.
pub fn gather(alloc: Global, reader: &mut JournalReader) -> Result<Gathered, NoMemory>
    ensures { IfOk result (λ g. Gathers reader.old g.entries.items g.fault reader.new) }
{
    cuts_agree();
    let mut entries = Vec::new(alloc);
    loop {
        match reader.next() {
            Ok(Some(entry)) => entries.push(entry)?,
            Ok(None) => {
                return Ok(Gathered {
                    entries,
                    fault: None,
                });
            }
            Err(fault) => return broken(entries, fault),
        }
    }
}
