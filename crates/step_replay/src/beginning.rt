// A trial of the decomposition, before the first step, and the room that it gets.
ghost use Rattle.std.specs.Prelude.{◌≡◌, ◌<◌, ◌≤◌, ◌^◌, IfOk, None, length};
ghost use Rattle.rm_model.specs.Ranks.{first_without_rank};
ghost use Rattle.rm_model.specs.Value.{observed_names, source_names};
ghost use Rattle.rm_model.specs.WellFormed.{IsWellFormed};
ghost use Rattle.gate_graph.specs.Circuit.{net_of};
ghost use Rattle.gate_graph.specs.Holds.{pins_held};
ghost use Rattle.cover_decompose.specs.Count.{decomposed};
ghost use Rattle.cover_decompose.specs.Decomposition.{net_of_model};
ghost use Rattle.cover_decompose.specs.Limits.{most_pins};
ghost use Rattle.step_replay.specs.Inner.Making.{IsReady, IsSmall};

use cover_decompose::{DecomposeRefusal, decompose};
use gate_graph::Graph;
use rm_base::NoMemory;
use rm_model::RankedModel;
use std::alloc::Global;
use wire_edit::{BeginRefusal, Room, Trial};

const LEAST_ROOM: usize = 1_024;

const MOST_ROOM: usize = 536_870_912;

/// As many steps as the graph has node numbers, within bounds.
pub(crate) fn steps_for(graph: &Graph) -> usize
    ensures some { 0 < result }
    ensures few { result ≤ 536870912 }
{
    (graph.node_bound() as usize).clamp(LEAST_ROOM, MOST_ROOM)
}

// Room for so many steps, whatever each of them makes.
fn room_for(steps: usize) -> Room
    ensures { result ≡ record { pins = steps; nodes = steps; steps = steps } }
{
    Room {
        pins: steps,
        nodes: steps,
        steps,
    }
}

/// The decomposition of a model that is within the limit.
pub(crate) fn decompose_few(alloc: Global, model: &RankedModel) -> Result<Graph, NoMemory>
    requires formed { IsWellFormed model.now }
    requires ranked { first_without_rank model.now ≡ None }
    requires covers { length model.now.covers < 2 ^ 32 }
    requires sources { length (source_names model.now) ≤ 1024 }
    requires observed { length (observed_names model.now) ≤ 4096 }
    requires few { decomposed model.now ≤ most_pins }
    ensures net { IfOk result (λ g. net_of g ≡ net_of_model model.now) }
    ensures held { IfOk result (λ g. pins_held g ≡ 0) }
    ensures nodes { IfOk result (λ _. length (net_of_model model.now).nodes ≤ 66562) }
{
    match decompose(alloc, model) {
        Ok(graph) => Ok(graph),
        Err(DecomposeRefusal::Limit { pins: _ }) => unreachable!(),
        Err(DecomposeRefusal::NoMemory) => Err(NoMemory),
    }
}

/// A trial with room for as many steps as the net has nodes, and how many those are.
pub(crate) fn begin(alloc: Global, graph: Graph) -> Result<(Trial, usize), NoMemory>
    requires small { IsSmall (net_of graph) }
    requires held { pins_held graph ≡ 0 }
    ensures ready { IfOk result (λ p. IsReady p.0 p.1) }
    ensures net { IfOk result (λ p. net_of p.0.graph ≡ net_of graph) }
{
    graph.well_formed();
    let left = steps_for(&graph);
    match Trial::begin(alloc, graph, room_for(left)) {
        Ok(trial) => Ok((trial, left)),
        Err(BeginRefusal::NoMemory { graph: _graph }) => Err(NoMemory),
    }
}

/// Gives a trial whose room is spent room for as many steps as at its beginning, which is mostly there already.
pub(crate) fn renew(alloc: Global, trial: &mut Trial) -> Result<usize, NoMemory>
    requires ready { IsReady trial.old 0 }
    requires small { IsSmall (net_of trial.old.graph) }
    ensures ready { IfOk result (λ left. IsReady trial.new left) }
    ensures room { IfOk result (λ left. 0 < left) }
    ensures net { net_of trial.new.graph ≡ net_of trial.old.graph }
{
    trial.graph().well_formed();
    let left = steps_for(trial.graph());
    trial.make_room(alloc, room_for(left))?;
    Ok(left)
}
