//! Letting a gate read one node alone, or be a constant.
ghost use Rattle.std.specs.Prelude.{◌≡◌, IfOk, IsSome, IsTrue, OnOk, Some};
ghost use Rattle.gate_graph.specs.Circuit.{net_of};
ghost use Rattle.recursive_learning.specs.Serving.{IsServing};
ghost use Rattle.merging.specs.Inner.Going.{Follows, Goes};
ghost use Rattle.merging.specs.Inner.Merging.{IsEffort};
ghost use Rattle.wire_edit.specs.Tests.{control_of};

use crate::effort::Effort;
use crate::fixing::{fix_one, fix_others};
use crate::refuting::refuted;
use crate::space::Space;
use gate_graph::{Graph, Question, pin_count};
use gate_net::Kind;
use journal_text::Record;
use recorded_removals::push_local;
use rm_base::{Fault, NoMemory, NodeId, Vector, ZERO};
use std::alloc::Global;
use wire_edit::{Step, answers_apply, room_suffices, steps_grow};

/// A gate, and an earlier node that agrees with it, or always differs from it. Zero stands for a constant gate.
#[derive(Clone, Copy)]
pub(crate) struct Merge {
    pub(crate) gate: NodeId,
    pub(crate) node: NodeId,
    pub(crate) opposite: bool,
}

// The controlling value of an And or an Or.
fn control_of(graph: &Graph, gate: NodeId) -> Option<bool>
    ensures { result ≡ control_of (net_of graph.now) gate.0 }
{
    graph.kind(gate)?.controlling_value()
}

// The first position at which a gate reads the node.
fn position_of(graph: &Graph, gate: NodeId, node: NodeId) -> Option<u32> {
    for position in 0..pin_count(graph, gate) {
        if graph.driver(gate, position) == Some(node) {
            return Some(position);
        }
    }
    None
}

// A Not that reads the node.
fn inverter_of(graph: &Graph, node: NodeId) -> Option<NodeId> {
    let Some(_kind) = graph.kind(node) else {
        return None;
    };
    for reader in graph.readers_of(node) {
        if graph.kind(reader) == Some(Kind::Not) {
            return Some(reader);
        }
    }
    None
}

// Makes a Not of the node, as far as there is room, and gives its number.
fn make_not(
    alloc: Global,
    space: &mut Space,
    log: &mut Vec<Record>,
    node: NodeId,
) -> Result<Option<NodeId>, NoMemory>
    requires serves { IsServing (net_of space.old.trial.graph) space.old.refuter }
    ensures follows { OnOk result (Follows space.old space.new) }
    ensures goes { OnOk result (Goes 1 5 space.old.trial space.new.trial log.old.items log.new.items) }
{
    answers_apply();
    room_suffices();
    space.trial.graph().well_formed();
    let number = space.trial.graph().least_free();
    let step = Step::NewNot { node };
    match space.trial.apply(step) {
        Ok(()) => {}
        Err(_refusal) => return Ok(None),
    }
    push_local(alloc, log, step)?;
    space.follow(&[number])?;
    Ok(Some(number))
}

// A Not of the node: one that there is, or a new one; None where none can be made.
fn not_of(
    alloc: Global,
    space: &mut Space,
    log: &mut Vec<Record>,
    node: NodeId,
) -> Result<Option<NodeId>, NoMemory>
    requires serves { IsServing (net_of space.old.trial.graph) space.old.refuter }
    ensures follows { OnOk result (Follows space.old space.new) }
    ensures goes { OnOk result (Goes 1 5 space.old.trial space.new.trial log.old.items log.new.items) }
{
    if let Some(inverter) = inverter_of(space.trial.graph(), node) {
        return Ok(Some(inverter));
    }
    make_not(alloc, space, log, node)
}

// Lets an And or an Or with that controlling value read the node too, where the other value at the new pin is refuted;
// whether it is.
fn add_pin(
    alloc: Global,
    space: &mut Space,
    log: &mut Vec<Record>,
    gate: NodeId,
    node: NodeId,
    control: bool,
    effort: Effort,
    found: &mut Vec<Vector>,
) -> Result<bool, NoMemory>
    requires serves { IsServing (net_of space.old.trial.graph) space.old.refuter }
    requires effort { IsEffort effort }
    requires control { control_of (net_of space.old.trial.graph) gate.0 ≡ Some control }
    ensures follows { OnOk result (Follows space.old space.new) }
    ensures goes { IfOk result (λ added. IsTrue added → Goes 0 4 space.old.trial space.new.trial log.old.items log.new.items) }
{
    answers_apply();
    room_suffices();
    steps_grow();
    space.trial.graph().well_formed();
    let fault = Fault {
        gate,
        position: pin_count(space.trial.graph(), gate),
        value: !control,
    };
    let step = Step::Add { gate, node };
    match space.trial.apply(step) {
        Ok(()) => {}
        Err(_refusal) => return Ok(false),
    }
    space.follow(&[gate])?;
    let question = Question {
        graph: space.trial.graph(),
        fault,
    };
    match refuted(alloc, &mut space.refuter, &question, effort, found)? {
        None => Ok(false),
        Some(tree) => {
            log.push(Record::Step { step, tree })?;
            Ok(true)
        }
    }
}

// Lets an And or an Or with that controlling value read the node, where it doesn't yet and that is refuted; the position at
// which it reads it then.
fn read_too(
    alloc: Global,
    space: &mut Space,
    log: &mut Vec<Record>,
    gate: NodeId,
    node: NodeId,
    control: bool,
    effort: Effort,
    found: &mut Vec<Vector>,
) -> Result<Option<u32>, NoMemory>
    requires serves { IsServing (net_of space.old.trial.graph) space.old.refuter }
    requires effort { IsEffort effort }
    requires control { control_of (net_of space.old.trial.graph) gate.0 ≡ Some control }
    ensures follows { OnOk result (Follows space.old space.new) }
    ensures goes { IfOk result (λ kept. IsSome kept → Goes 0 4 space.old.trial space.new.trial log.old.items log.new.items) }
{
    let there = position_of(space.trial.graph(), gate, node);
    if there.is_some() {
        return Ok(there);
    }
    let position = pin_count(space.trial.graph(), gate);
    let added = add_pin(alloc, space, log, gate, node, control, effort, found)?;
    if !added {
        return Ok(None);
    }
    Ok(Some(position))
}

// Lets an And or an Or read the node and nothing else, as far as that is refuted; whether it is so then.
fn read_alone(
    alloc: Global,
    space: &mut Space,
    log: &mut Vec<Record>,
    gate: NodeId,
    node: NodeId,
    effort: Effort,
    found: &mut Vec<Vector>,
) -> Result<bool, NoMemory>
    requires serves { IsServing (net_of space.old.trial.graph) space.old.refuter }
    requires effort { IsEffort effort }
    ensures follows { OnOk result (Follows space.old space.new) }
    ensures goes { IfOk result (λ done. IsTrue done → Goes 0 4 space.old.trial space.new.trial log.old.items log.new.items) }
{
    let Some(control) = control_of(space.trial.graph(), gate) else {
        return Ok(false);
    };
    match read_too(alloc, space, log, gate, node, control, effort, found)? {
        None => Ok(false),
        Some(position) => {
            let kept = Some(position);
            let done = fix_others(alloc, space, log, gate, kept, !control, effort, found)?;
            Ok(done)
        }
    }
}

// Lets an And or an Or be a constant, as far as that is refuted; whether it is one then.
fn make_constant(
    alloc: Global,
    space: &mut Space,
    log: &mut Vec<Record>,
    gate: NodeId,
    value: bool,
    effort: Effort,
    found: &mut Vec<Vector>,
) -> Result<bool, NoMemory>
    requires serves { IsServing (net_of space.old.trial.graph) space.old.refuter }
    requires effort { IsEffort effort }
    ensures follows { OnOk result (Follows space.old space.new) }
    ensures goes { OnOk result (Goes 0 0 space.old.trial space.new.trial log.old.items log.new.items) }
{
    let Some(control) = control_of(space.trial.graph(), gate) else {
        return Ok(false);
    };
    if value == control {
        return fix_one(alloc, space, log, gate, value, effort, found);
    }
    fix_others(alloc, space, log, gate, None, value, effort, found)
}

// The same with a Not of the node.
fn read_opposite(
    alloc: Global,
    space: &mut Space,
    log: &mut Vec<Record>,
    gate: NodeId,
    node: NodeId,
    effort: Effort,
    found: &mut Vec<Vector>,
) -> Result<bool, NoMemory>
    requires serves { IsServing (net_of space.old.trial.graph) space.old.refuter }
    requires effort { IsEffort effort }
    ensures follows { OnOk result (Follows space.old space.new) }
    ensures goes { IfOk result (λ done. IsTrue done → Goes 1 9 space.old.trial space.new.trial log.old.items log.new.items) }
{
    match not_of(alloc, space, log, node)? {
        None => Ok(false),
        Some(inverter) => {
            let done = read_alone(alloc, space, log, gate, inverter, effort, found)?;
            Ok(done)
        }
    }
}

/// Makes the steps after which tidying merges the gate into the node, as far as they are refuted; whether it came to that.
pub(crate) fn join(
    alloc: Global,
    space: &mut Space,
    log: &mut Vec<Record>,
    merge: Merge,
    effort: Effort,
    found: &mut Vec<Vector>,
) -> Result<bool, NoMemory>
    requires serves { IsServing (net_of space.old.trial.graph) space.old.refuter }
    requires effort { IsEffort effort }
    ensures follows { OnOk result (Follows space.old space.new) }
    ensures goes { IfOk result (λ done. IsTrue done → Goes 1 9 space.old.trial space.new.trial log.old.items log.new.items) }
{
    let Merge {
        gate,
        node,
        opposite,
    } = merge;
    if node == ZERO {
        let done = make_constant(alloc, space, log, gate, opposite, effort, found)?;
        return Ok(done);
    }
    if !opposite {
        let done = read_alone(alloc, space, log, gate, node, effort, found)?;
        return Ok(done);
    }
    read_opposite(alloc, space, log, gate, node, effort, found)
}
