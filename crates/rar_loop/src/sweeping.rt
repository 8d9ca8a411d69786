//! The sweep: every refuted pin is fixed, until none is left.
ghost use Rattle.std.specs.Prelude.{◌≡◌, ◌<◌, ◌≤◌, ◌+◌, ◌||◌, IfOk, OnOk, length, if◌then◌else◌};
ghost use Rattle.gate_graph.specs.Circuit.{net_of};
ghost use Rattle.wire_edit.specs.Order.{IsTidy};
ghost use Rattle.wire_edit.specs.Work.{work};
ghost use Rattle.recorded_removals.specs.Going.{Goes};
ghost use Rattle.rar_loop.specs.Inner.Spaces.{HasToolsFor, TouchesOn};
ghost use Rattle.rar_loop.specs.Inner.Swept.{HasLookedAt, HasPassed, HasSwept};
ghost use Rattle.rm_base.specs.Numbers.{number_bound};

use crate::refuting::refuted_at;
use crate::workspace::Workspace;
use changed_nodes::Changed;
use journal_text::{Record, accepted_steps_keep};
use recorded_removals::fix_and_tidy;
use rm_base::{NoMemory, NodeId};
use std::alloc::Global;

// Fixes the first refuted pin of a gate and tidies, which the vectors follow; whether there was one.
fn sweep_at(
    alloc: Global,
    space: &mut Workspace,
    log: &mut Vec<Record>,
    gate: NodeId,
    depth: u8,
) -> Result<bool, NoMemory>
    requires tidy { IsTidy (net_of space.old.trial.graph) }
    requires room { work (net_of space.old.trial.graph) ≤ space.old.trial.room.steps }
    requires tools { HasToolsFor (net_of space.old.trial.graph) space.old }
    requires depth { depth ≤ 2 }
    ensures goes { OnOk result (Goes space.old.trial space.new.trial log.old.items log.new.items) }
    ensures tidy { OnOk result (IsTidy (net_of space.new.trial.graph)) }
    ensures looked { IfOk result (HasLookedAt (net_of space.old.trial.graph) (net_of space.new.trial.graph) gate.0 depth) }
    ensures touched { OnOk result (TouchesOn (net_of space.old.trial.graph) (net_of space.new.trial.graph) space.old.touched.items space.new.touched.items) }
    ensures tools { OnOk result (HasToolsFor (net_of space.new.trial.graph) space.new) }
{
    accepted_steps_keep();
    let graph = space.trial.graph();
    graph.well_formed();
    let found = refuted_at(
        alloc,
        &mut space.refuter,
        &mut space.vectors,
        graph,
        gate,
        depth,
    )?;
    match found {
        None => Ok(false),
        Some((fault, tree)) => {
            let mut changed = Changed::new(alloc);
            fix_and_tidy(alloc, &mut space.trial, log, &mut changed, fault, tree)?;
            space.follow(alloc, &changed, &[])?;
            Ok(true)
        }
    }
}

// The gate to look at next: the same one, where a pin of it was fixed.
fn next_gate(gate: u32, found: bool) -> u32
    requires { gate < number_bound }
    ensures { result ≡ (if found then gate else gate + 1) }
{
    if found { gate } else { gate + 1 }
}

fn either(one: bool, other: bool) -> bool
    ensures { result ≡ (one || other) }
{
    one || other
}

// Goes through the gates once, and looks at each until no pin of it is refuted; whether a pin was fixed.
fn pass(
    alloc: Global,
    space: &mut Workspace,
    log: &mut Vec<Record>,
    depth: u8,
) -> Result<bool, NoMemory>
    requires tidy { IsTidy (net_of space.old.trial.graph) }
    requires room { work (net_of space.old.trial.graph) ≤ space.old.trial.room.steps }
    requires tools { HasToolsFor (net_of space.old.trial.graph) space.old }
    requires depth { depth ≤ 2 }
    ensures goes { OnOk result (Goes space.old.trial space.new.trial log.old.items log.new.items) }
    ensures tidy { OnOk result (IsTidy (net_of space.new.trial.graph)) }
    ensures passed { IfOk result (HasPassed (net_of space.old.trial.graph) (net_of space.new.trial.graph) depth (length (net_of space.new.trial.graph).nodes)) }
    ensures touched { OnOk result (TouchesOn (net_of space.old.trial.graph) (net_of space.new.trial.graph) space.old.touched.items space.new.touched.items) }
    ensures tools { OnOk result (HasToolsFor (net_of space.new.trial.graph) space.new) }
{
    let mut has_fixed = false;
    let mut gate = 0u32;
    while gate < space.trial.graph().node_bound() {
        let found = sweep_at(alloc, space, log, NodeId(gate), depth)?;
        gate = next_gate(gate, found);
        has_fixed = either(has_fixed, found);
    }
    Ok(has_fixed)
}

/// Fixes refuted pins in a tidy net until none is left.
pub(crate) fn sweep(
    alloc: Global,
    space: &mut Workspace,
    log: &mut Vec<Record>,
    depth: u8,
) -> Result<(), NoMemory>
    requires tidy { IsTidy (net_of space.old.trial.graph) }
    requires room { work (net_of space.old.trial.graph) ≤ space.old.trial.room.steps }
    requires tools { HasToolsFor (net_of space.old.trial.graph) space.old }
    requires depth { depth ≤ 2 }
    ensures goes { OnOk result (Goes space.old.trial space.new.trial log.old.items log.new.items) }
    ensures tidy { OnOk result (IsTidy (net_of space.new.trial.graph)) }
    ensures swept { OnOk result (HasSwept (net_of space.old.trial.graph) (net_of space.new.trial.graph) depth) }
    ensures touched { OnOk result (TouchesOn (net_of space.old.trial.graph) (net_of space.new.trial.graph) space.old.touched.items space.new.touched.items) }
    ensures tools { OnOk result (HasToolsFor (net_of space.new.trial.graph) space.new) }
{
    loop {
        let has_fixed = pass(alloc, space, log, depth)?;
        if !has_fixed {
            return Ok(());
        }
    }
}
