// Recording the verdicts.
ghost use Rattle.std.specs.Prelude.{◌≡◌, ◌≤◌, Err, OnErr, OnOk};
ghost use Rattle.journal_text.specs.Appends.{IsThere};
ghost use Rattle.journal_ranges.specs.Ranges.{AreFit};
ghost use Rattle.journal_text.specs.Runs.{HasAppended, HasAppendedPart, records_text};
ghost use Rattle.journal_text.specs.declared.append.Stop.TheVariants as stop;
ghost use Rattle.rm_base.specs.Causes.{Rose};
ghost use Rattle.closing_pass.specs.Recording.{AreRecordable, IsRecordable, verdict_record, verdict_records};

use crate::report::Report;
use journal_ranges::{fault_fits, tree_fits};
use journal_text::{Stop, append_hit, append_spent, runs_join, texts_append};
use podem::Verdict;
use rm_base::{Fault, Shelf};
use std::alloc::Global;

// Records a verdict.
fn write_one<S: Shelf>(
    alloc: Global,
    fault: Fault,
    verdict: &Verdict,
    shelf: &mut S,
    journal: &str,
) -> Result<(), Stop>
    requires recordable { IsRecordable (fault, verdict.now) }
    requires there { IsThere (S.files shelf.old) journal.now }
    ensures written { OnOk result (HasAppended (S.files shelf.old) (S.files shelf.new) journal.now (records_text (verdict_record (fault, verdict.now)))) }
    ensures fit { AreFit (verdict_record (fault, verdict.now)) }
    ensures stopped { OnErr result (HasAppendedPart (S.files shelf.old) (S.files shelf.new) journal.now (records_text (verdict_record (fault, verdict.now)))) }
    ensures there { IsThere (S.files shelf.new) journal.now }
    ensures later { S.faults shelf.old ≤ S.faults shelf.new }
    ensures failed { result ≡ Err stop.Failed → Rose (S.faults shelf.old) (S.faults shelf.new) }
{
    fault_fits(fault);
    match verdict {
        Verdict::Detected(vector) => append_hit(alloc, shelf, journal, fault, vector),
        Verdict::Refuted(_tree) => unreachable!(),
        Verdict::Spent(tree) => {
            tree_fits(tree);
            append_spent(alloc, shelf, journal, fault, tree)
        }
    }
}

/// Records verdicts in order, each by one call of the shelf: a vector as a `Hit`, and the tree of a spent search as a
/// `Spent`. A closing pass gives only such. After a `Stop` the lines before were added, and of the next one a beginning
/// or nothing.
pub fn write_verdicts<S: Shelf>(
    alloc: Global,
    report: &Report,
    shelf: &mut S,
    journal: &str,
) -> Result<(), Stop>
    requires recordable { AreRecordable report.now.verdicts.items }
    requires there { IsThere (S.files shelf.old) journal.now }
    ensures written { OnOk result (HasAppended (S.files shelf.old) (S.files shelf.new) journal.now (records_text (verdict_records report.now.verdicts.items))) }
    ensures fit { OnOk result (AreFit (verdict_records report.now.verdicts.items)) }
    ensures stopped { OnErr result (HasAppendedPart (S.files shelf.old) (S.files shelf.new) journal.now (records_text (verdict_records report.now.verdicts.items))) }
    ensures there { IsThere (S.files shelf.new) journal.now }
    ensures later { S.faults shelf.old ≤ S.faults shelf.new }
    ensures failed { result ≡ Err stop.Failed → Rose (S.faults shelf.old) (S.faults shelf.new) }
{
    texts_append();
    runs_join();
    for entry in report.verdicts.iter() {
        write_one(alloc, entry.0, &entry.1, shelf, journal)?;
    }
    Ok(())
}
