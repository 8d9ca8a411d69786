// A source without a value that matters.
use crate::goals::Goal;
use gate_graph::Graph;
use gate_net::Kind;
use refutation::following::gate_pins;
use rm_base::NodeId;
use rm_base::vectors::Value3;
use ternary_sim::Sim;

// The first driver whose good value wasn't read.
fn unread_driver(graph: &Graph, sim: &Sim, gate: NodeId) -> Option<NodeId> {
    let _kind = graph.kind(gate)?;
    for driver in gate_pins(graph, gate) {
        if sim.good(driver) == Value3::Unknown {
            return Some(driver);
        }
    }
    None
}

// The first driver that wasn't marked equal.
fn unequal_driver(graph: &Graph, sim: &Sim, gate: NodeId) -> Option<NodeId> {
    let _kind = graph.kind(gate)?;
    for driver in gate_pins(graph, gate) {
        if !sim.equal(driver) {
            return Some(driver);
        }
    }
    None
}

// From a node to a driver on which it rests whether the node is marked equal.
fn step_back(graph: &Graph, sim: &Sim, gate: NodeId) -> Option<NodeId> {
    match unread_driver(graph, sim, gate) {
        Some(driver) => Some(driver),
        None => unequal_driver(graph, sim, gate),
    }
}

// A source behind the node.
fn source_behind(graph: &Graph, sim: &Sim, node: NodeId) -> Option<NodeId> {
    let mut at = node;
    for _ in 0..graph.node_bound() {
        if graph.kind(at) == Some(Kind::Source) {
            return Some(at);
        }
        at = step_back(graph, sim, at)?;
    }
    None
}

// The first observed node that wasn't marked equal.
fn open_output(graph: &Graph, sim: &Sim) -> Option<NodeId> {
    for node in graph.observed_points() {
        if !sim.equal(node) {
            return Some(node);
        }
    }
    None
}

/// A source behind an observed node that wasn't marked equal when values were read last.
pub(crate) fn waiting_source(graph: &Graph, sim: &Sim) -> Option<Goal> {
    let node = source_behind(graph, sim, open_output(graph, sim)?)?;
    Some(Goal { node, value: false })
}
