//! What is asked of single nodes.
ghost use Rattle.std.specs.Prelude.{◌≡◌, ◌<◌, length, nat_lt, slice_get, Some, None, true, false};
ghost use Rattle.std.specs.Option.{option_map};
ghost use Rattle.gate_graph.specs.Circuit.{net_of};
ghost use Rattle.gate_net.specs.Net.{drivers_of};
ghost use Rattle.wire_edit.specs.Tests.{is_present, is_live, is_gate, is_junction, is_not, is_xor, reads_several, control_of, family_of, constant_of, driver_at, second_driver, is_in_use, is_among};

use gate_graph::Graph;
use gate_net::{Family, Kind};
use rm_base::NodeId;

// Whether the number is that of a live node.
pub(crate) fn is_live(graph: &Graph, node: NodeId) -> bool
    ensures { result ≡ is_live (net_of graph.now) node.0 }
{
    graph.kind(node).is_some()
}

// The controlling value of an And or an Or.
pub(crate) fn control_of(graph: &Graph, node: NodeId) -> Option<bool>
    ensures { result ≡ control_of (net_of graph.now) node.0 }
{
    graph.kind(node)?.controlling_value()
}

// Whether the node is an And or an Or.
pub(crate) fn is_junction(graph: &Graph, node: NodeId) -> bool
    ensures { result ≡ is_junction (net_of graph.now) node.0 }
{
    control_of(graph, node).is_some()
}

// Whether the node is a Not.
pub(crate) fn is_not(graph: &Graph, node: NodeId) -> bool
    ensures { result ≡ is_not (net_of graph.now) node.0 }
{
    graph.kind(node) == Some(Kind::Not)
}

// Whether the node is a gate.
pub(crate) fn is_gate(graph: &Graph, node: NodeId) -> bool
    ensures { result ≡ is_gate (net_of graph.now) node.0 }
{
    match graph.kind(node) {
        Some(kind) => kind.is_gate(),
        None => false,
    }
}

// Whether the node is an Xor.
pub(crate) fn is_xor(graph: &Graph, node: NodeId) -> bool
    ensures { result ≡ is_xor (net_of graph.now) node.0 }
{
    graph.kind(node) == Some(Kind::Xor)
}

// Whether the node is an And, an Or or an Xor.
pub(crate) fn reads_several(graph: &Graph, node: NodeId) -> bool
    ensures { result ≡ reads_several (net_of graph.now) node.0 }
{
    is_junction(graph, node) || is_xor(graph, node)
}

// What the node is, where a number without one is as a source.
pub(crate) fn family_of(graph: &Graph, node: NodeId) -> Family
    ensures { result ≡ family_of (net_of graph.now) node.0 }
{
    match graph.kind(node) {
        Some(kind) => kind.family(),
        None => Family::Input,
    }
}

// The value of a constant.
pub(crate) fn constant_of(graph: &Graph, node: NodeId) -> Option<bool>
    ensures { result ≡ constant_of (net_of graph.now) node.0 }
{
    graph.kind(node)?.constant_value()
}

// Whether the node is a constant.
pub(crate) fn is_constant(graph: &Graph, node: NodeId) -> bool
    ensures { result ≡ is_present (constant_of (net_of graph.now) node.0) }
{
    constant_of(graph, node).is_some()
}

// The driver of a Not's driver.
pub(crate) fn second_driver(graph: &Graph, gate: NodeId) -> Option<NodeId>
    ensures { option_map (λ n. n.0) result ≡ second_driver (net_of graph.now) gate.0 }
{
    match graph.driver(gate, 0) {
        Some(inner) => graph.driver(inner, 0),
        None => None,
    }
}

// Whether some pin reads the node or it is observed.
pub(crate) fn is_in_use(graph: &Graph, node: NodeId) -> bool
    ensures { result ≡ is_in_use (net_of graph.now) node.0 }
{
    graph.well_formed();
    graph.readers_listed();
    if !is_live(graph, node) {
        return false;
    }
    graph.is_in_use(node)
}

// Whether the node drives a pin of the gate.
pub(crate) fn drives(graph: &Graph, gate: NodeId, node: NodeId) -> bool
    ensures { result ≡ is_among node.0 (drivers_of (net_of graph.now) gate.0) }
{
    if !is_live(graph, gate) {
        return false;
    }
    for driver in graph.inputs_of(gate) {
        if driver == node {
            return true;
        }
    }
    false
}
