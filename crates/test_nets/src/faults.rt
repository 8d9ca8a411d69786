//! Faults by numbers.
ghost use Rattle.std.specs.Prelude.{◌≡◌, IfOk};
ghost use Rattle.gate_net.specs.Values.{HasPin};
ghost use Rattle.gate_graph.specs.Circuit.{net_of};

use gate_graph::Graph;
use rm_base::{Fault, NodeId};
use std::test::Fail;

/// The fault of a pin that the net has.
pub fn fault_at(graph: &Graph, gate: u32, position: u32, value: bool) -> Result<Fault, Fail>
    ensures { IfOk result (λ fault. HasPin (net_of graph.now) fault) }
{
    let Some(_) = graph.driver(NodeId(gate), position) else {
        return Err("no such pin".into());
    };
    Ok(Fault {
        gate: NodeId(gate),
        position,
        value,
    })
}
