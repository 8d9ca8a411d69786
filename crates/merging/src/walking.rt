//! Going through the gates, sources first.
ghost use Rattle.std.specs.Prelude.{OnOk};
ghost use Rattle.merging.specs.Inner.Merging.{HasMerged, IsEffort, IsReady};

use crate::classes::Classes;
use crate::effort::Effort;
use crate::space::Space;
use crate::trying::try_merge;
use gate_graph::Graph;
use journal_text::Record;
use rm_base::{NoMemory, NodeId, Vector};
use std::alloc::Global;

// So many merges of a gate are tried.
const MOST_TRIES: u32 = 3;

// So many found vectors part the classes.
const BLOCK: usize = 64;

// Whether the node is an And or an Or.
fn is_junction(graph: &Graph, node: NodeId) -> bool {
    match graph.kind(node) {
        None => false,
        Some(kind) => kind.takes_pins(),
    }
}

// Tries to merge a gate into the member at a place of its class, as long as tries are left; whether it was merged.
fn try_member(
    alloc: Global,
    space: &mut Space,
    log: &mut Vec<Record>,
    classes: &Classes,
    gate: NodeId,
    place: usize,
    left: &mut u32,
    effort: Effort,
    found: &mut Vec<Vector>,
) -> Result<bool, NoMemory>
    requires ready { IsReady space.old }
    requires effort { IsEffort effort }
    ensures ready { OnOk result (IsReady space.new) }
    ensures merged { OnOk result (HasMerged space.old.trial.graph space.new.trial.graph log.old.items log.new.items) }
{
    if *left == 0 {
        return Ok(false);
    }
    match classes.merge_at(space.trial.graph(), gate, place) {
        None => Ok(false),
        Some(merge) => {
            *left -= 1;
            let merged = try_merge(alloc, space, log, merge, effort, found)?;
            Ok(merged)
        }
    }
}

// Tries to merge a gate into members of its class; whether it was merged.
fn merge_gate(
    alloc: Global,
    space: &mut Space,
    log: &mut Vec<Record>,
    classes: &Classes,
    gate: NodeId,
    effort: Effort,
    found: &mut Vec<Vector>,
) -> Result<bool, NoMemory>
    requires ready { IsReady space.old }
    requires effort { IsEffort effort }
    ensures ready { OnOk result (IsReady space.new) }
    ensures merged { OnOk result (HasMerged space.old.trial.graph space.new.trial.graph log.old.items log.new.items) }
{
    let mut left = MOST_TRIES;
    for place in 0..classes.member_count(gate) {
        let merged = try_member(
            alloc, space, log, classes, gate, place, &mut left, effort, found,
        )?;
        if merged {
            return Ok(true);
        }
    }
    Ok(false)
}

// The same for any node; nothing is tried for one that isn't an And or an Or.
fn merge_node(
    alloc: Global,
    space: &mut Space,
    log: &mut Vec<Record>,
    classes: &Classes,
    node: NodeId,
    effort: Effort,
    found: &mut Vec<Vector>,
) -> Result<bool, NoMemory>
    requires ready { IsReady space.old }
    requires effort { IsEffort effort }
    ensures ready { OnOk result (IsReady space.new) }
    ensures merged { OnOk result (HasMerged space.old.trial.graph space.new.trial.graph log.old.items log.new.items) }
{
    if !is_junction(space.trial.graph(), node) {
        return Ok(false);
    }
    merge_gate(alloc, space, log, classes, node, effort, found)
}

// Enters a node that wasn't merged, after the classes were parted by so many found vectors, if there are as many.
fn enter(
    alloc: Global,
    graph: &Graph,
    classes: &mut Classes,
    node: NodeId,
    place: usize,
    found: &mut Vec<Vector>,
) -> Result<(), NoMemory> {
    if found.len() >= BLOCK {
        classes.refine(alloc, graph, found.as_slice(), place)?;
        found.clear();
    }
    classes.enter(graph, node)
}

// Tries to merge the gate at a place of the order, and enters it where it isn't merged.
fn merge_next(
    alloc: Global,
    space: &mut Space,
    log: &mut Vec<Record>,
    classes: &mut Classes,
    place: usize,
    effort: Effort,
    found: &mut Vec<Vector>,
) -> Result<(), NoMemory>
    requires ready { IsReady space.old }
    requires effort { IsEffort effort }
    ensures ready { OnOk result (IsReady space.new) }
    ensures merged { OnOk result (HasMerged space.old.trial.graph space.new.trial.graph log.old.items log.new.items) }
{
    let Some(node) = classes.node_at(place) else {
        return Ok(());
    };
    let merged = merge_node(alloc, space, log, classes, node, effort, found)?;
    if merged {
        return Ok(());
    }
    enter(alloc, space.trial.graph(), classes, node, place, found)
}

/// Tries to merge each gate into an earlier node.
pub(crate) fn merge_all(
    alloc: Global,
    space: &mut Space,
    log: &mut Vec<Record>,
    effort: Effort,
) -> Result<(), NoMemory>
    requires ready { IsReady space.old }
    requires effort { IsEffort effort }
    ensures ready { OnOk result (IsReady space.new) }
    ensures merged { OnOk result (HasMerged space.old.trial.graph space.new.trial.graph log.old.items log.new.items) }
{
    let mut classes = Classes::draw(alloc, space.trial.graph())?;
    let mut found = Vec::new(alloc);
    for place in 0..classes.count() {
        merge_next(alloc, space, log, &mut classes, place, effort, &mut found)?;
    }
    Ok(())
}
