// Recording steps and verdicts on a shelf, one append a record.
ghost use Rattle.std.specs.Prelude.{◌≡◌, ◌≤◌, ◌<◌, ◌+◌, ◌^◌, ◌∷◌, [], length, Err, OnOk, OnErr};
ghost use Rattle.rm_base.specs.Causes.{Rose};
ghost use Rattle.journal_text.specs.Appends.{IsRecorded, IsThere};
ghost use Rattle.journal_text.specs.Runs.{AreWritable, HasAppended, HasAppendedPart, counted, made_by, records_text, steps_of};
ghost use Rattle.journal_text.specs.Text.{HasItsTree, IsWritableRecord, entry_text};
ghost use Rattle.journal_text.specs.declared.append.Stop.TheVariants as stop;
ghost use Rattle.journal_text.specs.declared.record.Entry.TheVariants as entry;
ghost use Rattle.journal_text.specs.declared.record.Record.TheVariants as kept;

use crate::append::{Stop, append_line};
use crate::record::Record;
use crate::writing::{write_hit, write_spent, write_step};
use refutation::Tree;
use rm_base::{Fault, Made, Shelf, Vector};
use std::alloc::Global;
use wire_edit::Step;

/// Adds the line of a step and its tree to the file, by one call of the shelf, as `append_entry` adds that of their
/// record; neither is copied. The tree of a local step is empty.
pub fn append_step<S: Shelf>(
    alloc: Global,
    shelf: &mut S,
    journal: &str,
    step: Step,
    tree: &Tree,
) -> Result<(), Stop>
    requires writable { HasItsTree step tree.now }
    requires there { IsThere (S.files shelf.old) journal.now }
    ensures files { IsRecorded result (S.files shelf.old) (S.files shelf.new) journal.now (entry_text (entry.Record (kept.Step step tree.now))) }
    ensures written { OnOk result (HasAppended (S.files shelf.old) (S.files shelf.new) journal.now (entry_text (entry.Record (kept.Step step tree.now)))) }
    ensures stopped { OnErr result (HasAppendedPart (S.files shelf.old) (S.files shelf.new) journal.now (entry_text (entry.Record (kept.Step step tree.now)))) }
    ensures there { IsThere (S.files shelf.new) journal.now }
    ensures later { S.faults shelf.old ≤ S.faults shelf.new }
    ensures failed { result ≡ Err stop.Failed → Rose (S.faults shelf.old) (S.faults shelf.new) }
{
    let line = write_step(alloc, step, tree)?;
    append_line(shelf, journal, &line)
}

/// Adds the line of a fault and the vector that detects it to the file, by one call of the shelf, as `append_entry`
/// adds that of their record; the vector, of one value or more, is not copied.
pub fn append_hit<S: Shelf>(
    alloc: Global,
    shelf: &mut S,
    journal: &str,
    fault: Fault,
    vector: &Vector,
) -> Result<(), Stop>
    requires writable { IsWritableRecord (kept.Hit fault vector.now) }
    requires there { IsThere (S.files shelf.old) journal.now }
    ensures files { IsRecorded result (S.files shelf.old) (S.files shelf.new) journal.now (entry_text (entry.Record (kept.Hit fault vector.now))) }
    ensures written { OnOk result (HasAppended (S.files shelf.old) (S.files shelf.new) journal.now (entry_text (entry.Record (kept.Hit fault vector.now)))) }
    ensures stopped { OnErr result (HasAppendedPart (S.files shelf.old) (S.files shelf.new) journal.now (entry_text (entry.Record (kept.Hit fault vector.now)))) }
    ensures there { IsThere (S.files shelf.new) journal.now }
    ensures later { S.faults shelf.old ≤ S.faults shelf.new }
    ensures failed { result ≡ Err stop.Failed → Rose (S.faults shelf.old) (S.faults shelf.new) }
{
    let line = write_hit(alloc, fault, vector)?;
    append_line(shelf, journal, &line)
}

/// Adds the line of a fault and its partial tree to the file, by one call of the shelf, as `append_entry` adds that of
/// their record; the tree, of one item or more, is not copied.
pub fn append_spent<S: Shelf>(
    alloc: Global,
    shelf: &mut S,
    journal: &str,
    fault: Fault,
    tree: &Tree,
) -> Result<(), Stop>
    requires writable { IsWritableRecord (kept.Spent fault tree.now) }
    requires there { IsThere (S.files shelf.old) journal.now }
    ensures files { IsRecorded result (S.files shelf.old) (S.files shelf.new) journal.now (entry_text (entry.Record (kept.Spent fault tree.now))) }
    ensures written { OnOk result (HasAppended (S.files shelf.old) (S.files shelf.new) journal.now (entry_text (entry.Record (kept.Spent fault tree.now)))) }
    ensures stopped { OnErr result (HasAppendedPart (S.files shelf.old) (S.files shelf.new) journal.now (entry_text (entry.Record (kept.Spent fault tree.now)))) }
    ensures there { IsThere (S.files shelf.new) journal.now }
    ensures later { S.faults shelf.old ≤ S.faults shelf.new }
    ensures failed { result ≡ Err stop.Failed → Rose (S.faults shelf.old) (S.faults shelf.new) }
{
    let line = write_spent(alloc, fault, tree)?;
    append_line(shelf, journal, &line)
}

// Adds the line of a record.
fn append_record<S: Shelf>(
    alloc: Global,
    shelf: &mut S,
    journal: &str,
    given: &Record,
) -> Result<(), Stop>
    requires writable { IsWritableRecord given.now }
    requires there { IsThere (S.files shelf.old) journal.now }
    ensures written { OnOk result (HasAppended (S.files shelf.old) (S.files shelf.new) journal.now (entry_text (entry.Record given.now))) }
    ensures stopped { OnErr result (HasAppendedPart (S.files shelf.old) (S.files shelf.new) journal.now (entry_text (entry.Record given.now))) }
    ensures there { IsThere (S.files shelf.new) journal.now }
    ensures later { S.faults shelf.old ≤ S.faults shelf.new }
    ensures failed { result ≡ Err stop.Failed → Rose (S.faults shelf.old) (S.faults shelf.new) }
{
    match given {
        Record::Step { step, tree } => append_step(alloc, shelf, journal, *step, tree),
        Record::Hit { fault, vector } => append_hit(alloc, shelf, journal, *fault, vector),
        Record::Spent { fault, tree } => append_spent(alloc, shelf, journal, *fault, tree),
    }
}

/// Adds the lines of records to the file, in order, each by one call of the shelf. After `Failed` or `NoMemory` the
/// lines before were added, and of the next one a beginning or nothing.
pub fn append_records<S: Shelf>(
    alloc: Global,
    shelf: &mut S,
    journal: &str,
    records: &[Record],
) -> Result<(), Stop>
    requires writable { AreWritable records.now }
    requires there { IsThere (S.files shelf.old) journal.now }
    ensures written { OnOk result (HasAppended (S.files shelf.old) (S.files shelf.new) journal.now (records_text records.now)) }
    ensures stopped { OnErr result (HasAppendedPart (S.files shelf.old) (S.files shelf.new) journal.now (records_text records.now)) }
    ensures there { IsThere (S.files shelf.new) journal.now }
    ensures later { S.faults shelf.old ≤ S.faults shelf.new }
    ensures failed { result ≡ Err stop.Failed → Rose (S.faults shelf.old) (S.faults shelf.new) }
{
    for record in records {
        append_record(alloc, shelf, journal, record)?;
    }
    Ok(())
}

// Counts a step.
fn count_step(made: &mut Made, step: Step)
    requires adds { made.old.adds + 1 < 2 ^ 64 }
    requires fixes { made.old.fixes + 1 < 2 ^ 64 }
    requires local { made.old.local + 1 < 2 ^ 64 }
    ensures { made.new ≡ counted made.old step }
{
    match step {
        Step::Add { .. } => made.adds += 1,
        Step::Fix { .. } => made.fixes += 1,
        Step::NewNot { .. }
        | Step::Const { .. }
        | Step::Same { .. }
        | Step::NoPins { .. }
        | Step::OnePin { .. }
        | Step::Twice { .. }
        | Step::Twin { .. }
        | Step::Dead { .. } => made.local += 1,
    }
}

// Counts the step of a record, if it has one.
fn count_record(made: &mut Made, given: &Record)
    requires adds { made.old.adds + 1 < 2 ^ 64 }
    requires fixes { made.old.fixes + 1 < 2 ^ 64 }
    requires local { made.old.local + 1 < 2 ^ 64 }
    ensures { made.new ≡ made_by made.old (steps_of (given.now ∷ [])) }
{
    match given {
        Record::Step { step, .. } => count_step(made, *step),
        Record::Hit { .. } => (),
        Record::Spent { .. } => (),
    }
}

/// Counts the steps of records, by kind.
pub fn count_records(records: &[Record], made: &mut Made)
    requires adds { made.old.adds + length records.now < 2 ^ 64 }
    requires fixes { made.old.fixes + length records.now < 2 ^ 64 }
    requires local { made.old.local + length records.now < 2 ^ 64 }
    ensures { made.new ≡ made_by made.old (steps_of records.now) }
{
    for record in records {
        count_record(made, record);
    }
}
