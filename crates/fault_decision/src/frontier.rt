// Where the difference may go on.
use crate::goals::{Goal, equal_of, first_unknown};
use gate_graph::Graph;
use gate_net::{Family, Kind};
use refutation::{Fact, FactSet};
use rm_base::NodeId;

// The good value of other drivers that lets a difference on through a gate: the noncontrolling one, and 0 at an Xor.
fn passing_value(kind: Kind) -> Option<bool> {
    match kind.family() {
        Family::Junction { controlling } => Some(!controlling),
        Family::Parity { inverts: false } => Some(false),
        _ => None,
    }
}

// What lets a difference on through a gate that reads it, where it isn't known whether the gate differs.
fn goal_through(graph: &Graph, facts: &FactSet, gate: NodeId) -> Option<Goal> {
    let value = passing_value(graph.kind(gate)?)?;
    if equal_of(facts, gate).is_some() {
        return None;
    }
    let node = first_unknown(graph, facts, gate)?;
    Some(Goal { node, value })
}

// What lets the difference of a node on through one of its readers.
fn goal_after(graph: &Graph, facts: &FactSet, node: NodeId) -> Option<Goal> {
    let Some(_kind) = graph.kind(node) else {
        return None;
    };
    for reader in graph.readers_of(node) {
        let goal = goal_through(graph, facts, reader);
        if goal.is_some() {
            return goal;
        }
    }
    None
}

// The same, where the fact that was added is that the node differs.
fn goal_by(graph: &Graph, facts: &FactSet, added: (NodeId, Fact)) -> Option<Goal> {
    let (node, Fact::Differs) = added else {
        return None;
    };
    goal_after(graph, facts, node)
}

/// A driver of a gate of the frontier, with the value that lets the difference on. The nodes that differ are among those whose
/// facts were added.
pub(crate) fn frontier_goal(
    graph: &Graph,
    facts: &FactSet,
    added: &[(NodeId, Fact)],
) -> Option<Goal> {
    for entry in added {
        let goal = goal_by(graph, facts, *entry);
        if goal.is_some() {
            return goal;
        }
    }
    None
}
