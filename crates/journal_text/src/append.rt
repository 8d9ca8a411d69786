// Recording an entry on a shelf.
ghost use Rattle.std.specs.Prelude.{◌≡◌, ◌≤◌, Err, OnOk, OnErr};
ghost use Rattle.rm_base.specs.Causes.{Rose};
ghost use Rattle.journal_text.specs.Appends.{IsRecorded, IsThere};
ghost use Rattle.journal_text.specs.Runs.{HasAppended, HasAppendedPart};
ghost use Rattle.journal_text.specs.Text.{IsWritable, entry_text};
ghost use Rattle.journal_text.specs.declared.append.Stop.TheVariants as stop;

use crate::record::Entry;
use crate::writing::write_entry;
use rm_base::{NoMemory as WantOfMemory, OutsideFault, Shelf};
use std::alloc::Global;
use std::error::Error;
use std::fmt;

/// Why an entry wasn't recorded.
#[derive(Clone, Copy, Debug, PartialEq, Eq)]
pub enum Stop {
    /// The shelf failed, and its count of faults rose. A beginning of the line was added.
    Failed,
    /// Nothing was added.
    NoMemory,
}

impl fmt::Display for Stop {
    fn fmt<W: fmt::Write>(&self, f: &mut fmt::Formatter<W>) -> fmt::Result {
        match self {
            Stop::Failed => f.write_str("the journal couldn't be written"),
            Stop::NoMemory => f.write_str("out of memory"),
        }
    }
}

impl Error for Stop {}

impl From<WantOfMemory> for Stop {
    ghost from_gives = { λ _ s. s ≡ stop.NoMemory };

    fn from(_: WantOfMemory) -> Self {
        Stop::NoMemory
    }
}

impl From<OutsideFault> for Stop {
    ghost use Rattle.journal_text.specs.Appends.{stop_of};

    ghost from_gives = { λ f s. s ≡ stop_of f };

    fn from(fault: OutsideFault) -> Self {
        match fault {
            OutsideFault::Failed => Stop::Failed,
            OutsideFault::NoMemory => Stop::NoMemory,
        }
    }
}

/// Adds a line to the file, by one call of the shelf.
pub(crate) fn append_line<S: Shelf>(shelf: &mut S, journal: &str, line: &[u8]) -> Result<(), Stop>
    requires there { IsThere (S.files shelf.old) journal.now }
    ensures files { IsRecorded result (S.files shelf.old) (S.files shelf.new) journal.now line.now }
    ensures written { OnOk result (HasAppended (S.files shelf.old) (S.files shelf.new) journal.now line.now) }
    ensures stopped { OnErr result (HasAppendedPart (S.files shelf.old) (S.files shelf.new) journal.now line.now) }
    ensures there { IsThere (S.files shelf.new) journal.now }
    ensures later { S.faults shelf.old ≤ S.faults shelf.new }
    ensures failed { result ≡ Err stop.Failed → Rose (S.faults shelf.old) (S.faults shelf.new) }
{
    shelf.append(journal, line)?;
    Ok(())
}

/// Adds the line of an entry to the file, by one call of the shelf.
pub fn append_entry<S: Shelf>(
    alloc: Global,
    shelf: &mut S,
    journal: &str,
    entry: &Entry,
) -> Result<(), Stop>
    requires writable { IsWritable entry.now }
    requires there { IsThere (S.files shelf.old) journal.now }
    ensures files { IsRecorded result (S.files shelf.old) (S.files shelf.new) journal.now (entry_text entry.now) }
    ensures written { OnOk result (HasAppended (S.files shelf.old) (S.files shelf.new) journal.now (entry_text entry.now)) }
    ensures stopped { OnErr result (HasAppendedPart (S.files shelf.old) (S.files shelf.new) journal.now (entry_text entry.now)) }
    ensures there { IsThere (S.files shelf.new) journal.now }
    ensures later { S.faults shelf.old ≤ S.faults shelf.new }
    ensures failed { result ≡ Err stop.Failed → Rose (S.faults shelf.old) (S.faults shelf.new) }
{
    let line = write_entry(alloc, entry)?;
    append_line(shelf, journal, &line)
}
