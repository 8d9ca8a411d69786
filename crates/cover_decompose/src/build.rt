// The graph of a plan.
ghost use Rattle.std.specs.Prelude.{◌≡◌, ◌<◌, ◌≤◌, ◌+◌, ◌^◌, [], length, map, take, All, IfOk, OnOk, slice_index};
ghost use Rattle.cover_decompose.specs.Built.{IsBuilt};
ghost use Rattle.cover_decompose.specs.Inner.Built.{IsBuildable};
ghost use Rattle.gate_graph.specs.Circuit.{pins_taken};
ghost use Rattle.cover_decompose.specs.Inner.PlanView.{node_of_plan};
ghost use Rattle.cover_decompose.specs.Limits.{most_pins};
ghost use Rattle.rm_base.specs.Numbers.{first_source};

use crate::plan::{Plan, PlanNode};
use gate_graph::Graph;
use rm_base::{FIRST_SOURCE, NoMemory, NodeId};
use std::alloc::Global;

fn node_ids(alloc: Global, nodes: &[usize]) -> Result<Vec<NodeId>, NoMemory>
    requires { All (λ n. n < 2 ^ 32) nodes.now }
    ensures { IfOk result (λ ids. map (λ id. id.0) ids.items ≡ nodes.now) }
{
    let mut ids = Vec::new(alloc);
    for node in nodes {
        ids.push(NodeId(*node as u32))?;
    }
    Ok(ids)
}

// Makes the gate of a listed node.
fn add_node(
    alloc: Global,
    graph: &mut Graph,
    made: &[PlanNode],
    sources: usize,
    at: usize,
) -> Result<(), NoMemory>
    requires plan { IsBuildable (map node_of_plan made.now) sources }
    requires after { first_source + sources ≤ at }
    requires within { at < length made.now }
    requires built { IsBuilt graph.old (take at (map node_of_plan made.now)) [] }
    ensures { OnOk result (IsBuilt graph.new (take (at + 1) (map node_of_plan made.now)) []) }
{
    let node = &made[at];
    let drivers = node_ids(alloc, node.drivers.as_slice())?;
    let _number = graph.add_gate(node.kind, drivers.as_slice())?;
    graph.well_formed();
    Ok(())
}

fn add_nodes(
    alloc: Global,
    graph: &mut Graph,
    made: &[PlanNode],
    sources: usize,
) -> Result<(), NoMemory>
    requires plan { IsBuildable (map node_of_plan made.now) sources }
    requires built { IsBuilt graph.old (take (first_source + sources) (map node_of_plan made.now)) [] }
    ensures { OnOk result (IsBuilt graph.new (map node_of_plan made.now) []) }
{
    for at in FIRST_SOURCE as usize + sources..made.len() {
        add_node(alloc, graph, made, sources, at)?;
    }
    Ok(())
}

// Observes the node of a signal.
fn observe(graph: &mut Graph, plan: &Plan, observed: &[u32], at: usize) -> Result<(), NoMemory>
    requires within { at < length observed.now }
    requires signals { All (λ k. k < length plan.now.nodes) observed.now }
    requires nodes { All (λ k. slice_index plan.now.nodes k < length plan.now.made) observed.now }
    requires small { length plan.now.made < 2 ^ 32 }
    requires few { length observed.now ≤ 4096 }
    requires built { IsBuilt graph.old plan.now.made (map (slice_index plan.now.nodes) (take at observed.now)) }
    requires pins { pins_taken graph.old ≤ most_pins + at }
    ensures built { OnOk result (IsBuilt graph.new plan.now.made (map (slice_index plan.now.nodes) (take (at + 1) observed.now))) }
    ensures pins { OnOk result (pins_taken graph.new ≤ most_pins + (at + 1)) }
{
    let node = plan.node(observed[at] as usize);
    graph.observe(NodeId(node as u32))?;
    Ok(())
}

fn observe_all(graph: &mut Graph, plan: &Plan, observed: &[u32]) -> Result<(), NoMemory>
    requires signals { All (λ k. k < length plan.now.nodes) observed.now }
    requires nodes { All (λ k. slice_index plan.now.nodes k < length plan.now.made) observed.now }
    requires small { length plan.now.made < 2 ^ 32 }
    requires few { length observed.now ≤ 4096 }
    requires built { IsBuilt graph.old plan.now.made [] }
    requires pins { pins_taken graph.old ≤ most_pins }
    ensures { OnOk result (IsBuilt graph.new plan.now.made (map (slice_index plan.now.nodes) observed.now)) }
{
    for at in 0..observed.len() {
        observe(graph, plan, observed, at)?;
    }
    Ok(())
}

/// Makes the graph of a plan, and observes the nodes of these signals.
pub fn build(
    alloc: Global,
    sources: usize,
    plan: &Plan,
    observed: &[u32],
) -> Result<Graph, NoMemory>
    requires plan { IsBuildable plan.now.made sources }
    requires signals { All (λ k. k < length plan.now.nodes) observed.now }
    requires nodes { All (λ k. slice_index plan.now.nodes k < length plan.now.made) observed.now }
    requires few { length observed.now ≤ 4096 }
    ensures { IfOk result (λ g. IsBuilt g plan.now.made (map (slice_index plan.now.nodes) observed.now)) }
{
    let mut graph = Graph::new(alloc, sources as u32)?;
    add_nodes(alloc, &mut graph, plan.made_nodes(), sources)?;
    observe_all(&mut graph, plan, observed)?;
    Ok(graph)
}
