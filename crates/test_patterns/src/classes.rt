// Classes of equivalent faults, each told by its last one.
ghost use Rattle.std.specs.Prelude.{◌≡◌, ◌↔◌, ℕ, IfOk, IsTrue};
ghost use Rattle.rm_base.specs.declared.numbers.Fault.{Fault as FaultValue};
ghost use Rattle.gate_net.specs.Net.{IsLive};
ghost use Rattle.gate_graph.specs.Circuit.{net_of};
ghost use Rattle.test_patterns.specs.Classes.{AreLast, DrivesOnly, Leads, forced as forced_by};

use gate_graph::Graph;
use gate_net::Kind;
use rm_base::{Fault, NoMemory, NodeId};
use std::alloc::Global;

// The value that a gate has where an input is stuck at this one, whatever the others are.
fn forced(kind: Kind, value: bool) -> Option<bool>
    ensures { result ≡ forced_by kind value }
{
    match kind {
        Kind::And => { if value { None } else { Some(false) } }
        Kind::Or => { if value { Some(true) } else { None } }
        Kind::Not => Some(!value),
        Kind::Source | Kind::Zero | Kind::One | Kind::Xor => None,
    }
}

// Whether a live node drives one pin alone, and isn't observed.
fn drives_one(graph: &Graph, node: NodeId) -> bool
    requires { IsLive (net_of graph.now) node.0 }
    ensures { IsTrue result ↔ ((gate : ℕ) × ((position : ℕ) × DrivesOnly (net_of graph.now) node.0 gate position)) }
{
    graph.readers_listed();
    if graph.is_observed(node) {
        return false;
    }
    let mut pins = graph.fanouts_of(node);
    let Some(_pin) = pins.next() else {
        return false;
    };
    let Some(_other) = pins.next() else {
        return true;
    };
    false
}

// Whether another fault is told for this one.
fn leads_on(graph: &Graph, fault: Fault) -> bool
    ensures { IsTrue result ↔ ((other : FaultValue) × Leads (net_of graph.now) fault other) }
{
    let Some(kind) = graph.kind(fault.gate) else {
        return false;
    };
    let Some(_value) = forced(kind, fault.value) else {
        return false;
    };
    if fault.position > 0 {
        return true;
    }
    drives_one(graph, fault.gate)
}

/// For each fault whether it is the last of its class.
pub(crate) fn last_of_classes(
    alloc: Global,
    graph: &Graph,
    faults: &[Fault],
) -> Result<Vec<bool>, NoMemory>
    ensures { IfOk result (λ lasts. AreLast (net_of graph.now) faults.now lasts.items) }
{
    let mut lasts = Vec::new(alloc);
    for at in 0..faults.len() {
        lasts.push(!leads_on(graph, faults[at]))?;
    }
    Ok(lasts)
}
