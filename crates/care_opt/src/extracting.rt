// The graph of the extract of a gated net.
ghost use Rattle.std.specs.Prelude.{◌≡◌, ◌≢◌, ◌<◌, ◌≤◌, IfOk, None, OnOk, Some, length, map, slice_get, ℕ};
ghost use Rattle.gate_graph.specs.Circuit.{net_of};
ghost use Rattle.gate_net.specs.Net.{IsGate, IsLive, Reads, drivers_of, node_at, wire_count};
ghost use Rattle.joined_nets.specs.Growing.{Fits, IsWhole};
ghost use Rattle.joined_nets.specs.Joined.{first_gate};
ghost use Rattle.care_opt.specs.Extract.{extract, gated_nodes, main_nodes, new_number};
ghost use Rattle.care_opt.specs.Inner.Looking.{looked, with_main, with_node};
ghost use Rattle.care_opt.specs.Inner.Standing.{IsExtractable};

use crate::gating::observe_all;
use gate_graph::Graph;
use joined_nets::add_last;
use rm_base::{FIRST_SOURCE, NoMemory, NodeId};
use std::alloc::Global;

// The new number of a node.
fn look(numbers: &[u32], node: NodeId) -> NodeId
    ensures { result.0 ≡ looked numbers.now node.0 }
{
    match numbers.get(node.0 as usize) {
        Some(number) => NodeId(*number),
        None => NodeId(0),
    }
}

// The new numbers of the drivers of a node.
fn new_drivers(
    alloc: Global,
    graph: &Graph,
    node: NodeId,
    numbers: &[u32],
) -> Result<Vec<NodeId>, NoMemory>
    requires { IsLive (net_of graph.now) node.0 }
    ensures { IfOk result (λ r. map (λ n. n.0) r.items ≡ map (looked numbers.now) (drivers_of (net_of graph.now) node.0)) }
{
    let mut drivers = Vec::new(alloc);
    for driver in graph.inputs_of(node) {
        drivers.push(look(numbers, driver))?;
    }
    Ok(drivers)
}

// Makes a main gate on the next number, with new numbers for its drivers; nothing where the number has no node.
fn copy_main(
    alloc: Global,
    small: &mut Graph,
    graph: &Graph,
    node: NodeId,
    numbers: &[u32],
) -> Result<(), NoMemory>
    requires gate { node_at (net_of graph.now) node.0 ≢ None → IsGate (net_of graph.now) node.0 }
    requires lower { (p x : ℕ) → Reads (net_of graph.now) node.0 p x → looked numbers.now x < length (net_of small.old).nodes }
    requires whole { IsWhole small.old }
    requires fits { Fits (with_node (net_of small.old) numbers.now (net_of graph.now) node.0) }
    ensures net { OnOk result (net_of small.new ≡ with_node (net_of small.old) numbers.now (net_of graph.now) node.0) }
    ensures whole { OnOk result (IsWhole small.new) }
{
    graph.well_formed();
    let Some(kind) = graph.kind(node) else {
        return Ok(());
    };
    let drivers = new_drivers(alloc, graph, node, numbers)?;
    let _number = add_last(small, kind, drivers.as_slice())?;
    Ok(())
}

// The numbers below this one, which sources and constants keep.
fn first_numbers(alloc: Global, count: u32) -> Result<Vec<u32>, NoMemory>
    ensures size { IfOk result (λ r. length r.items ≡ count) }
    ensures numbers { IfOk result (λ r. (x : ℕ) → x < count → slice_get r.items x ≡ Some x) }
{
    let mut numbers = Vec::new(alloc);
    for number in 0..count {
        numbers.push(number)?;
    }
    Ok(numbers)
}

// Makes the main gates on the next numbers, and gives the new number of each main node.
fn copy_gates(
    alloc: Global,
    small: &mut Graph,
    graph: &Graph,
    bound: u32,
) -> Result<Vec<u32>, NoMemory>
    requires stands { IsExtractable bound (net_of graph.now) }
    requires whole { IsWhole small.old }
    requires size { length (net_of small.old).nodes ≡ first_gate (net_of graph.now) }
    requires fits { Fits (with_main (net_of small.old) (first_gate (net_of graph.now)) bound (net_of graph.now)) }
    ensures net { OnOk result (net_of small.new ≡ with_main (net_of small.old) (first_gate (net_of graph.now)) bound (net_of graph.now)) }
    ensures count { IfOk result (λ r. length r.items ≡ bound) }
    ensures numbers { IfOk result (λ r. (x : ℕ) → x < bound → slice_get r.items x ≡ Some (new_number (main_nodes bound (net_of graph.now)) x)) }
    ensures whole { OnOk result (IsWhole small.new) }
{
    graph.well_formed();
    let first = FIRST_SOURCE + graph.source_count();
    let mut numbers = first_numbers(alloc, first)?;
    for number in first..bound {
        let next = small.node_bound();
        copy_main(alloc, small, graph, NodeId(number), numbers.as_slice())?;
        numbers.push(next)?;
    }
    Ok(numbers)
}

// The new numbers of the nodes that the gating Ands read at pin 0.
fn gated_numbers(alloc: Global, graph: &Graph, numbers: &[u32]) -> Result<Vec<NodeId>, NoMemory>
    requires gates { (k y : ℕ) → slice_get (net_of graph.now).observed k ≡ Some y → (d : ℕ) × Reads (net_of graph.now) y 0 d }
    ensures { IfOk result (λ r. map (λ n. n.0) r.items ≡ map (looked numbers.now) (gated_nodes (net_of graph.now))) }
{
    let mut nodes = Vec::new(alloc);
    for gate in graph.observed_points() {
        let Some(driver) = graph.driver(gate, 0) else {
            unreachable!()
        };
        nodes.push(look(numbers, driver))?;
    }
    Ok(nodes)
}

/// The sources and the main gates of a gated net, numbered anew, observed where the net's gating Ands read them.
pub(crate) fn extract_graph(alloc: Global, graph: &Graph, bound: u32) -> Result<Graph, NoMemory>
    requires stands { IsExtractable bound (net_of graph.now) }
    requires few { bound ≤ 66562 }
    requires wires { wire_count (net_of graph.now) ≤ 1048576 }
    requires observed { length (net_of graph.now).observed ≤ 4096 }
    ensures net { IfOk result (λ g. net_of g ≡ extract bound (net_of graph.now)) }
{
    graph.well_formed();
    let mut small = Graph::new(alloc, graph.source_count())?;
    let numbers = copy_gates(alloc, &mut small, graph, bound)?;
    let nodes = gated_numbers(alloc, graph, numbers.as_slice())?;
    observe_all(&mut small, nodes.as_slice())?;
    Ok(small)
}
