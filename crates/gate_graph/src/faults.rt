// The stuck-at faults of a graph.
ghost use Rattle.std.specs.Prelude.{◌≡◌, ◌++◌, ◌∷◌, [], IfOk, OnOk, false, length, true};
ghost use Rattle.std.specs.List.{AllByRecursion};
ghost use Rattle.gate_net.specs.Net.{drivers_of};
ghost use Rattle.gate_net.specs.Values.{HasPin};
ghost use Rattle.gate_net.specs.Faults.{fault_at, faults_of, pin_faults};
ghost use Rattle.gate_graph.specs.Circuit.{net_of};

use crate::state::Graph;
use rm_base::{Fault, NoMemory, NodeId};
use std::alloc::Global;

// Adds the two faults of a pin.
fn add_pin(gate: NodeId, position: u32, faults: &mut Vec<Fault>) -> Result<(), NoMemory>
    ensures { OnOk result (faults.new.items ≡ faults.old.items ++ fault_at gate.0 position false ∷ fault_at gate.0 position true ∷ []) }
{
    faults.push(Fault {
        gate,
        position,
        value: false,
    })?;
    faults.push(Fault {
        gate,
        position,
        value: true,
    })?;
    Ok(())
}

// Adds the faults of a node's pins.
fn add_faults(graph: &Graph, gate: NodeId, faults: &mut Vec<Fault>) -> Result<(), NoMemory>
    ensures { OnOk result (faults.new.items ≡ faults.old.items ++ pin_faults gate.0 0 (length (drivers_of (net_of graph.now) gate.0))) }
{
    let Some(_kind) = graph.kind(gate) else {
        return Ok(());
    };
    let count = graph.input_count(gate);
    for position in 0..count {
        add_pin(gate, position, faults)?;
    }
    Ok(())
}

/// Each stuck-at fault of the graph's pins, by gate, position and value, 0 before 1.
pub fn faults_of(alloc: Global, graph: &Graph) -> Result<Vec<Fault>, NoMemory>
    ensures faults { IfOk result (λ faults. faults.items ≡ faults_of (net_of graph.now)) }
    ensures pins { IfOk result (λ faults. AllByRecursion (HasPin (net_of graph.now)) faults.items) }
{
    let mut faults = Vec::new(alloc);
    for number in 0..graph.node_bound() {
        add_faults(graph, NodeId(number), &mut faults)?;
    }
    Ok(faults)
}

/// How many pins a node has, in constant time; none where it isn't live.
pub fn pin_count(graph: &Graph, node: NodeId) -> u32
    ensures { result ≡ length (drivers_of (net_of graph.now) node.0) }
{
    match graph.kind(node) {
        None => 0,
        Some(_kind) => graph.input_count(node),
    }
}
