//! Tidying inside a trial, each step recorded.
ghost use Rattle.std.specs.Prelude.{◌≡◌, ◌≤◌, ◌++◌, ◌∷◌, [], OnOk};
ghost use Rattle.gate_graph.specs.Circuit.{net_of};
ghost use Rattle.wire_edit.specs.Order.{IsTidy};
ghost use Rattle.wire_edit.specs.Work.{work};
ghost use Rattle.wire_edit.specs.Tidying.{TidiesTo};
ghost use Rattle.journal_text.specs.declared.record.Record.TheVariants as record_of;
ghost use Rattle.changed_nodes.specs.Changing.{NotesOn};
ghost use Rattle.recorded_removals.specs.Going.{AddsLocal, Goes};

use changed_nodes::Changed;
use journal_text::Record;
use refutation::TreeBuilder;
use rm_base::NoMemory;
use std::alloc::Global;
use wire_edit::{Step, Trial, room_suffices, steps_keep, tidying_ends};

/// Adds the record of a local step, whose tree is empty.
pub fn push_local(alloc: Global, log: &mut Vec<Record>, step: Step) -> Result<(), NoMemory>
    ensures { OnOk result (log.new.items ≡ log.old.items ++ record_of.Step step [] ∷ []) }
{
    let tree = TreeBuilder::new(alloc).finish();
    log.push(Record::Step { step, tree })?;
    Ok(())
}

/// Makes every step of the tidying order, records it, and notes what it changes. The room must suffice for the work.
pub fn tidy(
    alloc: Global,
    trial: &mut Trial,
    log: &mut Vec<Record>,
    changed: &mut Changed,
) -> Result<(), NoMemory>
    requires room { work (net_of trial.old.graph) ≤ trial.old.room.steps }
    ensures goes { OnOk result (Goes trial.old trial.new log.old.items log.new.items) }
    ensures local { OnOk result (AddsLocal log.old.items log.new.items) }
    ensures order { OnOk result (TidiesTo (net_of trial.old.graph) (net_of trial.new.graph)) }
    ensures tidy { OnOk result (IsTidy (net_of trial.new.graph)) }
    ensures noted { OnOk result (NotesOn (net_of trial.old.graph) (net_of trial.new.graph) changed.old changed.new) }
{
    tidying_ends();
    room_suffices();
    steps_keep();
    loop {
        trial.graph().well_formed();
        match trial.tidy_one() {
            Ok(Some(step)) => {
                push_local(alloc, log, step)?;
                changed.note(trial.graph(), step)?;
            }
            Ok(None) => return Ok(()),
            Err(_refusal) => unreachable!(),
        }
    }
}
