//! The beginning of merging: the net is tidied.
ghost use Rattle.std.specs.Prelude.{◌≡◌, ◌≤◌, ◌+◌, ◌*◌, [], IfOk};
ghost use Rattle.gate_graph.specs.Circuit.{live_nodes, net_of, pins_taken};
ghost use Rattle.gate_graph.specs.Holds.{pins_held};
ghost use Rattle.gate_net.specs.Net.{gate_count, source_count, wire_count};
ghost use Rattle.merging.specs.Inner.Merging.{HasBegun, IsReady};

use crate::space::Space;
use changed_nodes::Changed;
use gate_graph::Graph;
use journal_text::{Record, accepted_steps_keep};
use recorded_removals::tidy;
use rm_base::NoMemory;
use std::alloc::Global;
use wire_edit::{BeginRefusal, Room, Trial, tidying_ends};

// Room for all merges in a graph: each makes a Not and two pins at most, and leaves fewer wires.
fn whole_room(graph: &Graph) -> Room
    requires { pins_taken graph.now + live_nodes graph.now ≤ 1048576 }
    ensures pins { result.pins ≡ 2 * wire_count (net_of graph.now) }
    ensures nodes { result.nodes ≡ wire_count (net_of graph.now) }
    ensures steps { result.steps ≡ 2 * wire_count (net_of graph.now) + 2 * (2 + source_count (net_of graph.now) + gate_count (net_of graph.now)) + 16 }
{
    graph.well_formed();
    let wires = graph.wire_count() as usize;
    let nodes = 2 + graph.source_count() as usize + graph.gate_count() as usize;
    Room {
        pins: 2 * wires,
        nodes: wires,
        steps: 2 * wires + 2 * nodes + 16,
    }
}

// A trial with all that room.
fn begin(alloc: Global, graph: Graph) -> Result<Trial, NoMemory>
    requires { pins_taken graph + live_nodes graph ≤ 1048576 }
    ensures net { IfOk result (λ t. net_of t.graph ≡ net_of graph) }
    ensures steps { IfOk result (λ t. t.room.steps ≡ 2 * wire_count (net_of graph) + 2 * (2 + source_count (net_of graph) + gate_count (net_of graph)) + 16) }
    ensures first { IfOk result (λ t. t.first ≡ t.room) }
    ensures entries { IfOk result (λ t. t.trail.entries ≡ []) }
    ensures held { IfOk result (λ t. pins_held t.graph ≡ pins_held graph) }
{
    graph.well_formed();
    let room = whole_room(&graph);
    match Trial::begin(alloc, graph, room) {
        Ok(trial) => Ok(trial),
        Err(BeginRefusal::NoMemory { graph: _ }) => Err(NoMemory),
    }
}

/// Tidies the graph, and gives a space over it that is ready for merges, and the records of tidying.
pub(crate) fn open_space(alloc: Global, graph: Graph) -> Result<(Space, Vec<Record>), NoMemory>
    requires few { pins_taken graph + live_nodes graph ≤ 1048576 }
    ensures begun { IfOk result (λ r. HasBegun graph r.0.trial.graph r.1.items) }
    ensures ready { IfOk result (λ r. IsReady r.0) }
{
    accepted_steps_keep();
    tidying_ends();
    graph.well_formed();
    let mut trial = begin(alloc, graph)?;
    let mut log = Vec::new(alloc);
    tidy(alloc, &mut trial, &mut log, &mut Changed::new(alloc))?;
    trial.keep();
    trial.graph().well_formed();
    let space = Space::over(alloc, trial)?;
    Ok((space, log))
}
