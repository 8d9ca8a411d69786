//! Fixing pins inside a try, each where its fault is refuted.
ghost use Rattle.std.specs.Prelude.{OnOk};
ghost use Rattle.gate_graph.specs.Circuit.{net_of};
ghost use Rattle.recursive_learning.specs.Serving.{IsServing};
ghost use Rattle.refutation.specs.Branches.{AreAccepted};
ghost use Rattle.merging.specs.Inner.Going.{Follows, Goes};
ghost use Rattle.merging.specs.Inner.Merging.{IsEffort};
ghost use Rattle.wire_edit.specs.Removals.{HasFreePin};

use crate::effort::Effort;
use crate::refuting::refuted;
use crate::space::Space;
use gate_graph::{Question, pin_count};
use journal_text::Record;
use refutation::Tree;
use rm_base::{Fault, NoMemory, NodeId, Vector};
use std::alloc::Global;
use wire_edit::{Step, room_suffices};

// Fixes a refuted pin that no constant drives, as far as there is room; whether there is.
fn make_fix(
    space: &mut Space,
    log: &mut Vec<Record>,
    fault: Fault,
    tree: Tree,
) -> Result<bool, NoMemory>
    requires serves { IsServing (net_of space.old.trial.graph) space.old.refuter }
    requires free { HasFreePin (net_of space.old.trial.graph) fault }
    requires accepted { AreAccepted (net_of space.old.trial.graph) fault tree }
    ensures follows { OnOk result (Follows space.old space.new) }
    ensures goes { OnOk result (Goes 0 0 space.old.trial space.new.trial log.old.items log.new.items) }
{
    space.trial.graph().well_formed();
    room_suffices();
    let step = Step::Fix {
        gate: fault.gate,
        position: fault.position,
        value: fault.value,
    };
    match space.trial.apply(step) {
        Ok(()) => {}
        Err(_refusal) => return Ok(false),
    }
    log.push(Record::Step { step, tree })?;
    space.follow(&[fault.gate])?;
    Ok(true)
}

// Fixes a pin that no constant drives, where that is refuted; whether it was fixed.
fn fix_free(
    alloc: Global,
    space: &mut Space,
    log: &mut Vec<Record>,
    fault: Fault,
    effort: Effort,
    found: &mut Vec<Vector>,
) -> Result<bool, NoMemory>
    requires serves { IsServing (net_of space.old.trial.graph) space.old.refuter }
    requires effort { IsEffort effort }
    requires free { HasFreePin (net_of space.old.trial.graph) fault }
    ensures follows { OnOk result (Follows space.old space.new) }
    ensures goes { OnOk result (Goes 0 0 space.old.trial space.new.trial log.old.items log.new.items) }
{
    let question = Question {
        graph: space.trial.graph(),
        fault,
    };
    match refuted(alloc, &mut space.refuter, &question, effort, found)? {
        None => Ok(false),
        Some(tree) => make_fix(space, log, fault, tree),
    }
}

// Lets a pin read a constant, where it doesn't yet and that is refuted; whether it reads it then, or it is the kept one.
fn fix_pin(
    alloc: Global,
    space: &mut Space,
    log: &mut Vec<Record>,
    fault: Fault,
    kept: Option<u32>,
    effort: Effort,
    found: &mut Vec<Vector>,
) -> Result<bool, NoMemory>
    requires serves { IsServing (net_of space.old.trial.graph) space.old.refuter }
    requires effort { IsEffort effort }
    ensures follows { OnOk result (Follows space.old space.new) }
    ensures goes { OnOk result (Goes 0 0 space.old.trial space.new.trial log.old.items log.new.items) }
{
    if kept == Some(fault.position) {
        return Ok(true);
    }
    match space.trial.graph().driver(fault.gate, fault.position) {
        None => Ok(false),
        Some(driver) => {
            if driver.0 > 1 {
                return fix_free(alloc, space, log, fault, effort, found);
            }
            Ok((driver.0 == 1) == fault.value)
        }
    }
}

/// Fixes each pin of a gate at the value but the kept one, as long as that is refuted; whether all are fixed.
pub(crate) fn fix_others(
    alloc: Global,
    space: &mut Space,
    log: &mut Vec<Record>,
    gate: NodeId,
    kept: Option<u32>,
    value: bool,
    effort: Effort,
    found: &mut Vec<Vector>,
) -> Result<bool, NoMemory>
    requires serves { IsServing (net_of space.old.trial.graph) space.old.refuter }
    requires effort { IsEffort effort }
    ensures follows { OnOk result (Follows space.old space.new) }
    ensures goes { OnOk result (Goes 0 0 space.old.trial space.new.trial log.old.items log.new.items) }
{
    for position in 0..pin_count(space.trial.graph(), gate) {
        let fault = Fault {
            gate,
            position,
            value,
        };
        let fixed = fix_pin(alloc, space, log, fault, kept, effort, found)?;
        if !fixed {
            return Ok(false);
        }
    }
    Ok(true)
}

// Whether no further pin is tried: one was fixed, or a vector was found.
fn has_ended(fixed: bool, found: &[Vector], known: usize) -> bool {
    if fixed {
        return true;
    }
    found.len() > known
}

/// Fixes the first pin of a gate where the controlling value there is refuted; whether there is one. A vector that detects
/// one of these faults gives the gate its other value, and then no pin is left to try.
pub(crate) fn fix_one(
    alloc: Global,
    space: &mut Space,
    log: &mut Vec<Record>,
    gate: NodeId,
    value: bool,
    effort: Effort,
    found: &mut Vec<Vector>,
) -> Result<bool, NoMemory>
    requires serves { IsServing (net_of space.old.trial.graph) space.old.refuter }
    requires effort { IsEffort effort }
    ensures follows { OnOk result (Follows space.old space.new) }
    ensures goes { OnOk result (Goes 0 0 space.old.trial space.new.trial log.old.items log.new.items) }
{
    let known = found.len();
    for position in 0..pin_count(space.trial.graph(), gate) {
        let fault = Fault {
            gate,
            position,
            value,
        };
        let fixed = fix_pin(alloc, space, log, fault, None, effort, found)?;
        let ended = has_ended(fixed, found.as_slice(), known);
        if ended {
            return Ok(fixed);
        }
    }
    Ok(false)
}
