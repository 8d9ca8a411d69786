//! Trying one merge.
ghost use Rattle.std.specs.Prelude.{◌≡◌, ◌≤◌, ◌+◌, ◌++◌, [], IfOk, OnOk, IsTrue};
ghost use Rattle.gate_graph.specs.Circuit.{net_of};
ghost use Rattle.recursive_learning.specs.Serving.{IsServing};
ghost use Rattle.wire_edit.specs.Order.{IsTidy};
ghost use Rattle.wire_edit.specs.Work.{work};
ghost use Rattle.merging.specs.Inner.Going.{Follows, Goes, HasKept, IsBack, IsLent, Pays};
ghost use Rattle.merging.specs.Inner.Merging.{HasMerged, IsEffort, IsReady};
ghost use Rattle.merging.specs.declared.space.Space.{Space as SpaceValue};

use crate::effort::Effort;
use crate::joining::{Merge, join};
use crate::space::Space;
use changed_nodes::Changed;
use journal_text::{Record, accepted_steps_keep};
use recorded_removals::tidy;
use rm_base::{NoMemory, Vector};
use std::alloc::Global;
use wire_edit::tidying_ends;

// Tidies, which the refuter follows.
fn settle(alloc: Global, space: &mut Space, log: &mut Vec<Record>) -> Result<(), NoMemory>
    requires serves { IsServing (net_of space.old.trial.graph) space.old.refuter }
    requires room { work (net_of space.old.trial.graph) ≤ space.old.trial.room.steps }
    ensures follows { OnOk result (Follows space.old space.new) }
    ensures goes { OnOk result (Goes 0 0 space.old.trial space.new.trial log.old.items log.new.items) }
    ensures tidy { OnOk result (IsTidy (net_of space.new.trial.graph)) }
{
    let mut changed = Changed::new(alloc);
    tidy(alloc, &mut space.trial, log, &mut changed)?;
    space.trial.graph().well_formed();
    let nodes = changed.nodes(alloc, space.trial.graph())?;
    space.follow(nodes.as_slice())?;
    Ok(())
}

// Merges and tidies, as far as that is refuted; whether that leaves fewer wires.
fn merge_and_settle(
    alloc: Global,
    space: &mut Space,
    log: &mut Vec<Record>,
    merge: Merge,
    effort: Effort,
    found: &mut Vec<Vector>,
) -> Result<bool, NoMemory>
    requires serves { IsServing (net_of space.old.trial.graph) space.old.refuter }
    requires effort { IsEffort effort }
    requires room { work (net_of space.old.trial.graph) + 9 ≤ space.old.trial.room.steps }
    ensures follows { OnOk result (Follows space.old space.new) }
    ensures pays { IfOk result (λ pays. IsTrue pays → Pays space.old.trial space.new.trial log.old.items log.new.items) }
{
    let wires = space.trial.graph().wire_count();
    let joined = join(alloc, space, log, merge, effort, found)?;
    if !joined {
        return Ok(false);
    }
    settle(alloc, space, log)?;
    Ok(space.trial.graph().wire_count() < wires)
}

// Keeps what a try came to, and its records.
fn keep(space: &mut Space, log: &mut Vec<Record>, records: &mut Vec<Record>) -> Result<(), NoMemory>
    ensures kept { HasKept space.old space.new }
    ensures log { OnOk result (log.new.items ≡ log.old.items ++ records.old.items) }
{
    space.trial.keep();
    log.append(records)?;
    Ok(())
}

// Takes the try back, which the refuter follows.
fn give_back(space: &mut Space) -> Result<(), NoMemory>
    requires back { (start : SpaceValue) × (IsLent start.trial × ((start.touched.items ≡ []) × Follows start space.old)) }
    ensures back { (start : SpaceValue) → IsLent start.trial → start.touched.items ≡ [] → Follows start space.old → OnOk result (IsBack start space.new) }
{
    space.trial.take_back();
    space.follow_back()?;
    Ok(())
}

/// Tries a merge in a tidy net. It is kept where it leaves fewer wires, and else all is as it was; whether it is kept.
pub(crate) fn try_merge(
    alloc: Global,
    space: &mut Space,
    log: &mut Vec<Record>,
    merge: Merge,
    effort: Effort,
    found: &mut Vec<Vector>,
) -> Result<bool, NoMemory>
    requires ready { IsReady space.old }
    requires effort { IsEffort effort }
    ensures ready { OnOk result (IsReady space.new) }
    ensures merged { OnOk result (HasMerged space.old.trial.graph space.new.trial.graph log.old.items log.new.items) }
{
    accepted_steps_keep();
    tidying_ends();
    space.trial.graph().well_formed();
    let mut records = Vec::new(alloc);
    space.touched.clear();
    let pays = merge_and_settle(alloc, space, &mut records, merge, effort, found)?;
    if pays {
        keep(space, log, &mut records)?;
        space.trial.graph().well_formed();
        return Ok(true);
    }
    give_back(space)?;
    space.trial.graph().well_formed();
    Ok(false)
}
