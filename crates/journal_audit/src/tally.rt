// What was read of the records of a journal.
ghost use Rattle.std.specs.Prelude.{◌≡◌, ◌<◌, ◌++◌, ◌∷◌, ◌^◌, [], List, OnOk};
ghost use Rattle.journal_text.specs.declared.record.Record.{Record as RecordValue};
ghost use Rattle.journal_audit.specs.Inner.Tallies.{IsTally};

use crate::verdicts::Verdicts;
use journal_text::Record;
use rm_base::NoMemory;
use std::alloc::Global;

/// How many records there are, and their verdicts.
#[derive(Drop)]
pub(crate) struct Tally {
    pub(crate) count: u64,
    pub(crate) verdicts: Verdicts,
}

impl Tally {
    /// Of no records.
    pub(crate) fn new(alloc: Global) -> Tally
        ensures { IsTally [] result }
    {
        Tally {
            count: 0,
            verdicts: Verdicts::new(alloc),
        }
    }

    /// One more record.
    pub(crate) fn push(&mut self, given: &Record) -> Result<(), NoMemory>
        requires few { self.old.count < 2 ^ 63 }
        ensures { OnOk result ((records : List RecordValue) → IsTally records self.old → IsTally (records ++ given.now ∷ []) self.new) }
    {
        self.verdicts.push(given)?;
        self.count += 1;
        Ok(())
    }
}
