// The gated net of two nets, in one graph.
ghost use Rattle.std.specs.Prelude.{◌≡◌, ◌<◌, ◌≤◌, ◌+◌, ◌++◌, IfOk, OnOk, Some, length, map, slice_get, ℕ};
ghost use Rattle.gate_graph.specs.Circuit.{live_nodes, net_of, pins_taken};
ghost use Rattle.gate_net.specs.Net.{IsLive};
ghost use Rattle.joined_nets.specs.Growing.{Fits, IsOrdered, IsSmall, IsWhole, live, with_nodes};
ghost use Rattle.joined_nets.specs.Joined.{ShareSources};
ghost use Rattle.rm_base.specs.Numbers.{number_bound};
ghost use Rattle.care_opt.specs.Gated.{care_node, gated_net, gates_by, numbers_from};

use gate_graph::Graph;
use gate_net::Kind;
use joined_nets::{add_last, copy_both, moved};
use rm_base::{FIRST_SOURCE, NoMemory, NodeId};
use std::alloc::Global;

// Makes an And of each node and the care node, and gives them.
fn add_gating(
    alloc: Global,
    graph: &mut Graph,
    nodes: &[NodeId],
    care: NodeId,
) -> Result<Vec<NodeId>, NoMemory>
    requires whole { IsWhole graph.old }
    requires nodes { (p x : ℕ) → slice_get (map (λ n. n.0) nodes.now) p ≡ Some x → x < length (net_of graph.old).nodes }
    requires care { care.0 < length (net_of graph.old).nodes }
    requires fits { Fits (with_nodes (net_of graph.old) (live (gates_by care.0 (map (λ n. n.0) nodes.now)))) }
    ensures net { OnOk result (net_of graph.new ≡ with_nodes (net_of graph.old) (live (gates_by care.0 (map (λ n. n.0) nodes.now)))) }
    ensures gates { IfOk result (λ r. map (λ n. n.0) r.items ≡ numbers_from (length (net_of graph.old).nodes) (map (λ n. n.0) nodes.now)) }
    ensures whole { OnOk result (IsWhole graph.new) }
{
    let mut gates = Vec::new(alloc);
    for at in 0..nodes.len() {
        let gate = add_last(graph, Kind::And, &[nodes[at], care])?;
        gates.push(gate)?;
    }
    Ok(gates)
}

/// Observes the nodes, in order.
pub(crate) fn observe_all(graph: &mut Graph, nodes: &[NodeId]) -> Result<(), NoMemory>
    requires live { (p x : ℕ) → slice_get (map (λ n. n.0) nodes.now) p ≡ Some x → IsLive (net_of graph.old) x }
    requires pins { pins_taken graph.old + length nodes.now ≤ number_bound }
    ensures net { OnOk result (net_of graph.new ≡ record (net_of graph.old) { observed = (net_of graph.old).observed ++ map (λ n. n.0) nodes.now }) }
    ensures pins { OnOk result (pins_taken graph.new ≡ pins_taken graph.old + length nodes.now) }
    ensures nodes { OnOk result (live_nodes graph.new ≡ live_nodes graph.old) }
{
    for at in 0..nodes.len() {
        graph.observe(nodes[at])?;
    }
    Ok(())
}

// The observed nodes, in order.
fn seen_nodes(alloc: Global, graph: &Graph) -> Result<Vec<NodeId>, NoMemory>
    ensures { IfOk result (λ r. map (λ n. n.0) r.items ≡ (net_of graph.now).observed) }
{
    let mut nodes = Vec::new(alloc);
    for node in graph.observed_points() {
        nodes.push(node)?;
    }
    Ok(nodes)
}

// The number among both nets of the one observed node of the second.
fn care_gate(a: &Graph, b: &Graph) -> NodeId
    requires share { ShareSources (net_of a.now) (net_of b.now) }
    requires small { IsSmall (net_of a.now) }
    requires other_small { IsSmall (net_of b.now) }
    requires one { length (net_of b.now).observed ≡ 1 }
    ensures { result.0 ≡ care_node (net_of a.now) (net_of b.now) }
{
    let first = FIRST_SOURCE + a.source_count();
    moved(first, a.node_bound(), b.observed_at(0))
}

/// The gated net of two nets over the same sources, of which the second is observed at one node.
pub(crate) fn gated_graph(alloc: Global, a: &Graph, b: &Graph) -> Result<Graph, NoMemory>
    requires share { ShareSources (net_of a.now) (net_of b.now) }
    requires order { IsOrdered (net_of a.now) }
    requires other_order { IsOrdered (net_of b.now) }
    requires small { IsSmall (net_of a.now) }
    requires other_small { IsSmall (net_of b.now) }
    requires one { length (net_of b.now).observed ≡ 1 }
    ensures net { IfOk result (λ g. net_of g ≡ gated_net (net_of a.now) (net_of b.now)) }
    ensures few { IfOk result (λ g. pins_taken g + live_nodes g ≤ 1048576) }
{
    let mut graph = copy_both(alloc, a, b)?;
    let nodes = seen_nodes(alloc, a)?;
    let care = care_gate(a, b);
    let gates = add_gating(alloc, &mut graph, nodes.as_slice(), care)?;
    observe_all(&mut graph, gates.as_slice())?;
    Ok(graph)
}
