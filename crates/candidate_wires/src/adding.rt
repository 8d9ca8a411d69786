//! What adding a candidate's wire makes.
ghost use Rattle.std.specs.Prelude.{◌≡◌, ◌<◌, length, not, Some, Bool};
ghost use Rattle.gate_graph.specs.Circuit.{net_of};
ghost use Rattle.gate_net.specs.Edits.{last_pin};
ghost use Rattle.wire_edit.specs.Tests.{control_of};
ghost use Rattle.candidate_wires.specs.Gains.{least_free};

use gate_graph::{Graph, pin_count};
use rm_base::{Fault, NodeId};

/// The least number that no live node has, which the next new Not takes.
pub fn least_free(graph: &Graph) -> NodeId
    ensures { result.0 ≡ least_free (net_of graph.now) }
{
    graph.least_free()
}

/// The fault at that value of the pin after a gate's pins, which an addition makes.
pub fn added_pin(graph: &Graph, gate: NodeId, value: bool) -> Fault
    ensures { result ≡ last_pin (net_of graph.now) gate.0 value }
{
    Fault {
        gate,
        position: pin_count(graph, gate),
        value,
    }
}
