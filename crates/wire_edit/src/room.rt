//! How much a trial may make.
ghost use Rattle.std.specs.Prelude.{◌≡◌, ◌+◌, ◌*◌, ◌≤◌};
ghost use Rattle.gate_graph.specs.Circuit.{net_of, pins_taken, live_nodes};
ghost use Rattle.gate_net.specs.Net.{wire_count};
ghost use Rattle.wire_edit.specs.Refusals.{live_count};

use crate::counts::live_total;
use gate_graph::Graph;

/// How many pins, nodes and steps a trial may still make.
#[derive(Clone, Copy, Debug, PartialEq, Eq)]
pub struct Room {
    pub pins: usize,
    pub nodes: usize,
    pub steps: usize,
}

impl Room {
    /// Enough for one `NewNot`, one `Add`, any later fixes of pins that no constant drives, and tidying.
    pub fn enough(graph: &Graph) -> Room
        requires { pins_taken graph.now + live_nodes graph.now ≤ 1048576 }
        ensures pins { result.pins ≡ 2 }
        ensures nodes { result.nodes ≡ 1 }
        ensures steps { result.steps ≡ 2 * wire_count (net_of graph.now) + 2 * live_count (net_of graph.now) + 16 }
    {
        graph.well_formed();
        let wires = graph.wire_count() as usize;
        let nodes = live_total(graph);
        Room {
            pins: 2,
            nodes: 1,
            steps: 2 * wires + 2 * nodes + 16,
        }
    }
}
