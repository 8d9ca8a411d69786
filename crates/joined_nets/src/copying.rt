// Both nets in one graph.
ghost use Rattle.std.specs.Prelude.{◌≡◌, ◌+◌, ◌<◌, ◌≤◌, ◌∷◌, [], IfOk, OnOk, Some, drop, length, map, slice_get, ℕ};
ghost use Rattle.joined_nets.specs.Growing.{Fits, IsOrdered, IsSmall, IsWhole, with_nodes};
ghost use Rattle.joined_nets.specs.Joined.{ShareSources, both, first_gate, moved, node_moved};
ghost use Rattle.gate_graph.specs.Circuit.{net_of};
ghost use Rattle.gate_net.specs.Net.{IsGate, node_at};
ghost use Rattle.rm_base.specs.Numbers.{number_bound};

use crate::appending::add_last;
use gate_graph::{Graph, Inputs};
use rm_base::{FIRST_SOURCE, NoMemory, NodeId};
use std::alloc::Global;

/// The number that a node of the second net has among both nets, as `moved_all` gives it.
pub fn moved(first: u32, count: u32, node: NodeId) -> NodeId
    requires { count + node.0 ≤ number_bound }
    ensures { result.0 ≡ moved first count node.0 }
{
    if node.0 < first {
        return node;
    }
    NodeId(count + (node.0 - first))
}

/// The numbers that nodes of the second net have among both nets: those below `first`, the least number of a gate, stay, and the
/// others come from `count` on, which is how many nodes the first net has. Both numbers may be `first`, by which nothing moves.
pub fn moved_all(
    alloc: Global,
    nodes: Inputs<'_>,
    first: u32,
    count: u32,
) -> Result<Vec<NodeId>, NoMemory>
    requires small { (p x : ℕ) → slice_get nodes p ≡ Some x → count + x ≤ number_bound }
    ensures { IfOk result (λ r. map (λ n. n.0) r.items ≡ map (moved first count) nodes.entry) }
{
    let mut numbers = Vec::new(alloc);
    for node in nodes {
        numbers.push(moved(first, count, node))?;
    }
    Ok(numbers)
}

// Makes a gate that another graph has at this number.
fn copy_gate(
    alloc: Global,
    graph: &mut Graph,
    from: &Graph,
    node: NodeId,
    first: u32,
    count: u32,
) -> Result<(), NoMemory>
    requires gate { IsGate (net_of from.now) node.0 }
    requires order { IsOrdered (net_of from.now) }
    requires whole { IsWhole graph.old }
    requires first { first ≤ count }
    requires next { length (net_of graph.old).nodes + first ≡ count + node.0 }
    requires small { count + node.0 ≤ number_bound }
    requires fits { Fits (with_nodes (net_of graph.old) (node_moved first count (node_at (net_of from.now) node.0) ∷ [])) }
    ensures net { OnOk result (net_of graph.new ≡ with_nodes (net_of graph.old) (node_moved first count (node_at (net_of from.now) node.0) ∷ [])) }
    ensures whole { OnOk result (IsWhole graph.new) }
{
    from.well_formed();
    let Some(kind) = from.kind(node) else {
        unreachable!()
    };
    let drivers = moved_all(alloc, from.gate_inputs(node), first, count)?;
    let _number = add_last(graph, kind, drivers.as_slice())?;
    Ok(())
}

// Makes the gates of a graph, which begin at `first`, on the numbers from `count` on.
fn add_gates(
    alloc: Global,
    graph: &mut Graph,
    from: &Graph,
    first: u32,
    count: u32,
) -> Result<(), NoMemory>
    requires order { IsOrdered (net_of from.now) }
    requires whole { IsWhole graph.old }
    requires first { first ≡ first_gate (net_of from.now) }
    requires count { count ≡ length (net_of graph.old).nodes }
    requires later { first ≤ count }
    requires small { count + length (net_of from.now).nodes ≤ number_bound }
    requires fits { Fits (with_nodes (net_of graph.old) (map (node_moved first count) (drop first (net_of from.now).nodes))) }
    ensures net { OnOk result (net_of graph.new ≡ with_nodes (net_of graph.old) (map (node_moved first count) (drop first (net_of from.now).nodes))) }
    ensures whole { OnOk result (IsWhole graph.new) }
{
    from.well_formed();
    for number in first..from.node_bound() {
        copy_gate(alloc, graph, from, NodeId(number), first, count)?;
    }
    Ok(())
}

// A graph with the nodes of the first net.
fn copy_first(alloc: Global, a: &Graph) -> Result<Graph, NoMemory>
    requires order { IsOrdered (net_of a.now) }
    requires small { IsSmall (net_of a.now) }
    ensures net { IfOk result (λ g. net_of g ≡ record { nodes = (net_of a.now).nodes; observed = [] }) }
    ensures whole { IfOk result (λ g. IsWhole g) }
{
    a.well_formed();
    let mut graph = Graph::new(alloc, a.source_count())?;
    let first = FIRST_SOURCE + a.source_count();
    add_gates(alloc, &mut graph, a, first, first)?;
    Ok(graph)
}

/// A graph with the nodes of both nets over the same sources, the second's gates behind all of the first's nodes, which keep
/// their numbers. Nothing is observed in it. Each net's gates read lower numbers, and no number is free. It takes the time of
/// their wires.
pub fn copy_both(alloc: Global, a: &Graph, b: &Graph) -> Result<Graph, NoMemory>
    requires share { ShareSources (net_of a.now) (net_of b.now) }
    requires order { IsOrdered (net_of a.now) }
    requires other_order { IsOrdered (net_of b.now) }
    requires small { IsSmall (net_of a.now) }
    requires other_small { IsSmall (net_of b.now) }
    ensures net { IfOk result (λ g. net_of g ≡ record { nodes = both (net_of a.now) (net_of b.now); observed = [] }) }
    ensures whole { IfOk result (λ g. IsWhole g) }
{
    let mut graph = copy_first(alloc, a)?;
    let first = FIRST_SOURCE + a.source_count();
    let count = graph.node_bound();
    add_gates(alloc, &mut graph, b, first, count)?;
    Ok(graph)
}
