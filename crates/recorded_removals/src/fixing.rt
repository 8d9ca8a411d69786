//! Fixing a refuted pin inside a trial, and tidying.
ghost use Rattle.std.specs.Prelude.{◌≡◌, ◌<◌, ◌≤◌, OnOk};
ghost use Rattle.gate_graph.specs.Circuit.{net_of};
ghost use Rattle.gate_net.specs.Edits.{fixed};
ghost use Rattle.gate_net.specs.Net.{wire_count};
ghost use Rattle.refutation.specs.Branches.{AreAccepted};
ghost use Rattle.wire_edit.specs.Order.{IsTidy};
ghost use Rattle.wire_edit.specs.Work.{work};
ghost use Rattle.wire_edit.specs.Tidying.{TidiesTo};
ghost use Rattle.wire_edit.specs.Removals.{HasFreePin, ReadsNoConstants};
ghost use Rattle.changed_nodes.specs.Changing.{NotesOn};
ghost use Rattle.recorded_removals.specs.Going.{Goes, HasFixed};

use crate::tidying::tidy;
use changed_nodes::Changed;
use journal_text::Record;
use refutation::Tree;
use rm_base::{Fault, NoMemory};
use std::alloc::Global;
use wire_edit::{Step, Trial, room_suffices, steps_keep, tidying_ends};

/// Fixes the refuted pin, which no constant drives, tidies, records these steps, the fix with its tree, and notes what they
/// change. In a net without constant pins a wire goes. The room must suffice for the work.
pub fn fix_and_tidy(
    alloc: Global,
    trial: &mut Trial,
    log: &mut Vec<Record>,
    changed: &mut Changed,
    fault: Fault,
    tree: Tree,
) -> Result<(), NoMemory>
    requires pin { HasFreePin (net_of trial.old.graph) fault }
    requires tree { AreAccepted (net_of trial.old.graph) fault tree }
    requires room { work (net_of trial.old.graph) ≤ trial.old.room.steps }
    ensures goes { OnOk result (Goes trial.old trial.new log.old.items log.new.items) }
    ensures order { OnOk result (TidiesTo (fixed (net_of trial.old.graph) fault) (net_of trial.new.graph)) }
    ensures tidy { OnOk result (IsTidy (net_of trial.new.graph)) }
    ensures noted { OnOk result (NotesOn (net_of trial.old.graph) (net_of trial.new.graph) changed.old changed.new) }
    ensures fixed { OnOk result (HasFixed fault tree log.old.items log.new.items) }
    ensures fewer { ReadsNoConstants (net_of trial.old.graph) → OnOk result (wire_count (net_of trial.new.graph) < wire_count (net_of trial.old.graph)) }
{
    trial.graph().well_formed();
    room_suffices();
    tidying_ends();
    steps_keep();
    let step = Step::Fix {
        gate: fault.gate,
        position: fault.position,
        value: fault.value,
    };
    match trial.apply(step) {
        Ok(()) => {}
        Err(_refusal) => unreachable!(),
    }
    log.push(Record::Step { step, tree })?;
    changed.note(trial.graph(), step)?;
    tidy(alloc, trial, log, changed)?;
    Ok(())
}
