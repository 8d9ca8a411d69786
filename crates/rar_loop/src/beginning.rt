//! The beginning of the addition loop: the net is tidied and swept.
ghost use Rattle.std.specs.Prelude.{◌≡◌, ◌≤◌, ◌+◌, ◌*◌, [], IfOk};
ghost use Rattle.gate_graph.specs.Circuit.{net_of, pins_taken, live_nodes};
ghost use Rattle.gate_graph.specs.Holds.{pins_held};
ghost use Rattle.gate_net.specs.Net.{gate_count, source_count, wire_count};
ghost use Rattle.rar_loop.specs.Inner.Improving.{HasBegun};
ghost use Rattle.rar_loop.specs.Inner.Spaces.{IsReady};

use crate::limits::raise;
use crate::sweeping::sweep;
use crate::workspace::{Workspace, into_graph};
use changed_nodes::Changed;
use gate_graph::Graph;
use journal_text::{Record, accepted_steps_keep};
use recorded_removals::tidy;
use rm_base::NoMemory;
use std::alloc::Global;
use wire_edit::{BeginRefusal, Room, Trial, tidying_ends};

// Room for all tries on a graph and on what they leave: one that gains makes a Not and two pins at most, and leaves fewer
// wires.
pub(crate) fn whole_room(graph: &Graph) -> Room
    requires { pins_taken graph.now + live_nodes graph.now ≤ 1048576 }
    ensures pins { result.pins ≡ 2 * wire_count (net_of graph.now) }
    ensures nodes { result.nodes ≡ wire_count (net_of graph.now) }
    ensures steps { result.steps ≡ 2 * wire_count (net_of graph.now) + 2 * (2 + source_count (net_of graph.now) + gate_count (net_of graph.now)) + 16 }
{
    graph.well_formed();
    let wires = graph.wire_count() as usize;
    let nodes = 2 + graph.source_count() as usize + graph.gate_count() as usize;
    Room {
        pins: 2 * wires,
        nodes: wires,
        steps: 2 * wires + 2 * nodes + 16,
    }
}

// A trial that goes on to the end of the loop.
fn begin(alloc: Global, graph: Graph) -> Result<Trial, NoMemory>
    requires { pins_taken graph + live_nodes graph ≤ 1048576 }
    ensures net { IfOk result (λ t. net_of t.graph ≡ net_of graph) }
    ensures pins { IfOk result (λ t. t.room.pins ≡ 2 * wire_count (net_of graph)) }
    ensures nodes { IfOk result (λ t. t.room.nodes ≡ wire_count (net_of graph)) }
    ensures steps { IfOk result (λ t. t.room.steps ≡ 2 * wire_count (net_of graph) + 2 * (2 + source_count (net_of graph) + gate_count (net_of graph)) + 16) }
    ensures first { IfOk result (λ t. t.first ≡ t.room) }
    ensures entries { IfOk result (λ t. t.trail.entries ≡ []) }
    ensures held { IfOk result (λ t. pins_held t.graph ≡ pins_held graph) }
{
    graph.well_formed();
    let room = whole_room(&graph);
    match Trial::begin(alloc, graph, room) {
        Ok(trial) => Ok(trial),
        Err(BeginRefusal::NoMemory { graph: _ }) => Err(NoMemory),
    }
}

// A trial for removals alone: nothing is made in it, so that the numbers of the net stay close together.
fn begin_removals(alloc: Global, graph: Graph) -> Result<Trial, NoMemory>
    requires { pins_taken graph + live_nodes graph ≤ 1048576 }
    ensures net { IfOk result (λ t. net_of t.graph ≡ net_of graph) }
    ensures steps { IfOk result (λ t. t.room.steps ≡ 2 * wire_count (net_of graph) + 2 * (2 + source_count (net_of graph) + gate_count (net_of graph)) + 16) }
    ensures entries { IfOk result (λ t. t.trail.entries ≡ []) }
    ensures held { IfOk result (λ t. pins_held t.graph ≡ pins_held graph) }
{
    graph.well_formed();
    let steps = whole_room(&graph).steps;
    let room = Room {
        pins: 0,
        nodes: 0,
        steps,
    };
    match Trial::begin(alloc, graph, room) {
        Ok(trial) => Ok(trial),
        Err(BeginRefusal::NoMemory { graph: _ }) => Err(NoMemory),
    }
}

/// The graph, tidied and swept, and the records of that. The units of work that this was come to `work`.
pub(crate) fn swept_graph(
    alloc: Global,
    graph: Graph,
    depth: u8,
    found: &[Vec<u64>],
    work: &mut u64,
) -> Result<(Graph, Vec<Record>), NoMemory>
    requires few { pins_taken graph + live_nodes graph ≤ 1048576 }
    requires depth { depth ≤ 2 }
    ensures begun { IfOk result (λ r. HasBegun graph depth r.0 r.1.items) }
    ensures grown { work.old ≤ work.new }
{
    tidying_ends();
    accepted_steps_keep();
    graph.well_formed();
    let mut trial = begin_removals(alloc, graph)?;
    let mut log = Vec::new(alloc);
    tidy(alloc, &mut trial, &mut log, &mut Changed::new(alloc))?;
    let mut space = Workspace::over(alloc, trial, found)?;
    sweep(alloc, &mut space, &mut log, depth)?;
    let done = work.saturating_add(space.refuter.work_done());
    raise(work, done);
    space.trial.keep();
    space.trial.graph().well_formed();
    let swept = into_graph(space);
    swept.well_formed();
    Ok((swept, log))
}

/// Tidies and sweeps, and gives the records of that beside a workspace that is ready for tries. The units of work that this was
/// come to `work`.
pub(crate) fn open_workspace(
    alloc: Global,
    graph: Graph,
    depth: u8,
    found: &[Vec<u64>],
    work: &mut u64,
) -> Result<(Workspace, Vec<Record>), NoMemory>
    requires few { pins_taken graph + live_nodes graph ≤ 1048576 }
    requires depth { depth ≤ 2 }
    ensures begun { IfOk result (λ r. HasBegun graph depth r.0.trial.graph r.1.items) }
    ensures ready { IfOk result (λ r. IsReady r.0) }
    ensures grown { work.old ≤ work.new }
{
    let (swept, log) = swept_graph(alloc, graph, depth, found, work)?;
    swept.well_formed();
    let lent = begin(alloc, swept)?;
    lent.graph().well_formed();
    let ready = Workspace::over(alloc, lent, found)?;
    Ok((ready, log))
}
