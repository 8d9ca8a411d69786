//! The targets of a net.
ghost use Rattle.std.specs.Prelude.{◌≡◌, ◌<◌, ◌++◌, IfOk, OnOk, length, Option, Bool, not, filter, if◌then◌else◌};
ghost use Rattle.gate_graph.specs.Circuit.{net_of};
ghost use Rattle.wire_edit.specs.Tests.{control_of};
ghost use Rattle.candidate_wires.specs.Pairs.{faults_from, is_before, targets_at, targets_of, turn_of};
ghost use Rattle.rm_base.specs.declared.numbers.Fault.{Fault};

use gate_graph::{Graph, pin_count};
use rm_base::{Fault, NoMemory, NodeId};
use std::alloc::Global;

/// The controlling value of an And or an Or.
pub fn control_of(graph: &Graph, gate: NodeId) -> Option<bool>
    ensures { result ≡ control_of (net_of graph.now) gate.0 }
{
    graph.kind(gate)?.controlling_value()
}

// Adds the faults at a value of so many pins of a gate.
fn push_faults(
    faults: &mut Vec<Fault>,
    gate: NodeId,
    value: bool,
    count: u32,
) -> Result<(), NoMemory>
    ensures { OnOk result (faults.new.items ≡ faults.old.items ++ faults_from gate.0 value 0 count) }
{
    for position in 0..count {
        faults.push(Fault {
            gate,
            position,
            value,
        })?;
    }
    Ok(())
}

// Adds the targets at a gate.
fn push_at(graph: &Graph, gate: NodeId, faults: &mut Vec<Fault>) -> Result<(), NoMemory>
    ensures { OnOk result (faults.new.items ≡ faults.old.items ++ targets_at (net_of graph.now) gate.0) }
{
    let Some(control) = control_of(graph, gate) else {
        return Ok(());
    };
    push_faults(faults, gate, !control, pin_count(graph, gate))?;
    Ok(())
}

/// The targets of the net, by gate and position.
pub fn targets(alloc: Global, graph: &Graph) -> Result<Vec<Fault>, NoMemory>
    ensures { IfOk result (λ faults. faults.items ≡ targets_of (net_of graph.now)) }
{
    let mut faults = Vec::new(alloc);
    for number in 0..graph.node_bound() {
        push_at(graph, NodeId(number), &mut faults)?;
    }
    Ok(faults)
}

// Whether the fault comes before the other, by gate and position.
fn is_before(fault: Fault, other: Fault) -> bool
    ensures { result ≡ is_before other fault }
{
    if fault.gate.0 == other.gate.0 {
        return fault.position < other.position;
    }
    fault.gate.0 < other.gate.0
}

// Adds the targets that come before the start, or those that don't.
fn push_part(
    all: &[Fault],
    start: Fault,
    early: bool,
    turn: &mut Vec<Fault>,
) -> Result<(), NoMemory>
    ensures { OnOk result (turn.new.items ≡ turn.old.items ++ filter (λ (fault : Fault). if early then is_before start fault else not (is_before start fault)) all.now) }
{
    for fault in all {
        if is_before(*fault, start) == early {
            turn.push(*fault)?;
        }
    }
    Ok(())
}

/// The targets of the net in the order of a turn that begins at a target: from there on, or where it is gone from the next
/// one that is left, and then those before it. Without a start it begins with the first.
pub fn turn(alloc: Global, graph: &Graph, start: Option<Fault>) -> Result<Vec<Fault>, NoMemory>
    ensures { IfOk result (λ faults. faults.items ≡ turn_of (net_of graph.now) start) }
{
    let all = targets(alloc, graph)?;
    let Some(first) = start else {
        return Ok(all);
    };
    let mut turn = Vec::with_capacity(alloc, all.len())?;
    push_part(all.as_slice(), first, false, &mut turn)?;
    push_part(all.as_slice(), first, true, &mut turn)?;
    Ok(turn)
}
