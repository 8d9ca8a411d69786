//! The drivers of a gate's pins.
ghost use Rattle.std.specs.Prelude.{◌≡◌, ◌≢◌, ◌<◌, ◌≤◌, IfSome, None, length, slice_get};
ghost use Rattle.std.specs.Option.{option_map};
ghost use Rattle.gate_net.specs.Net.{kind_of, drivers_of};
ghost use Rattle.gate_graph.specs.Circuit.{net_of};
ghost use Rattle.local_evaluation.specs.Pins.{AreBelow};
ghost use Rattle.rm_base.specs.Numbers.{number_bound};

use gate_graph::{Graph, Inputs};
use rm_base::NodeId;

/// The drivers of a live node.
pub fn gate_pins(graph: &Graph, node: NodeId) -> Inputs<'_>
    requires { kind_of (net_of graph.now) node.0 ≢ None }
    ensures drivers { result ≡ drivers_of (net_of graph.now) node.0 }
    ensures within { AreBelow (drivers_of (net_of graph.now) node.0) (length (net_of graph.now).nodes) }
    ensures few { length (drivers_of (net_of graph.now) node.0) ≤ number_bound }
    ensures bound { node.0 < length (net_of graph.now).nodes }
{
    graph.well_formed();
    graph.inputs_of(node)
}

/// The driver of a pin, where there is one.
pub fn pin_driver(graph: &Graph, gate: NodeId, position: u32) -> Option<NodeId>
    ensures driver { option_map (λ n. n.0) result ≡ slice_get (drivers_of (net_of graph.now) gate.0) position }
    ensures within { IfSome result (λ d. d.0 < length (net_of graph.now).nodes) }
{
    graph.well_formed();
    graph.driver(gate, position)
}
