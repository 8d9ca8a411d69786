//! What steps take of a room.
ghost use Rattle.std.specs.Prelude.{◌≡◌};
ghost use Rattle.gate_graph.specs.Circuit.{net_of};
ghost use Rattle.wire_edit.specs.Refusals.{has_room, nodes_made};
ghost use Rattle.wire_edit.specs.Work.{pins_made};

use crate::counts::{few_nodes, few_wires};
use crate::room::Room;
use crate::steps::Step;
use gate_graph::Graph;

// How many pins a step makes.
pub(crate) fn pins_made(step: Step) -> usize
    ensures { result ≡ pins_made step }
{
    match step {
        Step::Add { gate: _, node: _ } => 1,
        Step::NewNot { node: _ } => 1,
        _ => 0,
    }
}

// How many nodes a step makes.
pub(crate) fn nodes_made(step: Step) -> usize
    ensures { result ≡ nodes_made step }
{
    match step {
        Step::NewNot { node: _ } => 1,
        _ => 0,
    }
}

// Whether there is room for a step.
pub(crate) fn room_for(graph: &Graph, room: Room, step: Step) -> bool
    ensures { result ≡ has_room (net_of graph.now) room step }
{
    if room.steps == 0 {
        return false;
    }
    match step {
        Step::Add { gate: _, node: _ } => {
            if room.pins == 0 {
                return false;
            }
            few_wires(graph)
        }
        Step::NewNot { node: _ } => {
            if room.pins == 0 {
                return false;
            }
            if room.nodes == 0 {
                return false;
            }
            few_nodes(graph)
        }
        _ => true,
    }
}
