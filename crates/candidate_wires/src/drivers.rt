// The drivers of a gate, marked.
ghost use Rattle.std.specs.Prelude.{◌≡◌, ◌≤◌, length};
ghost use Rattle.gate_net.specs.Net.{IsLive};
ghost use Rattle.gate_graph.specs.Circuit.{net_of};
ghost use Rattle.candidate_wires.specs.Inner.Parts.{MarksDrivers};

use crate::node_set::NodeSet;
use gate_graph::Graph;
use refutation::following::gate_pins;
use rm_base::NodeId;

// Marks the drivers of the gate, and nothing else.
pub(crate) fn mark_drivers(graph: &Graph, gate: NodeId, driving: &mut NodeSet)
    requires live { IsLive (net_of graph.now) gate.0 }
    requires room { length (net_of graph.now).nodes ≤ length driving.old }
    ensures marks { MarksDrivers (net_of graph.now) gate.0 driving.new }
    ensures size { length driving.new ≡ length driving.old }
{
    driving.clear();
    for driver in gate_pins(graph, gate) {
        driving.set(driver);
    }
}
