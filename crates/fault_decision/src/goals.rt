// On what a branch may be split.
ghost use Rattle.std.specs.Prelude.{IfSome};
ghost use Rattle.gate_graph.specs.Circuit.{net_of};
ghost use Rattle.fault_decision.specs.Inner.Working.{MaySplitOn};

use gate_graph::Graph;
use refutation::FactSet;
use refutation::following::gate_pins;
use refutation::pins::{Aspect, known_of};
use rm_base::NodeId;

/// A node, and the good value that is tried there first.
#[derive(Clone, Copy, Debug)]
pub(crate) struct Goal {
    pub node: NodeId,
    pub value: bool,
}

/// The good value of a node, where it is known.
pub(crate) fn good_of(facts: &FactSet, node: NodeId) -> Option<bool> {
    if node.0 as usize >= facts.len() {
        return None;
    }
    known_of(facts, Aspect::OfGood, node)
}

/// Whether the node is equal, where that is known.
pub(crate) fn equal_of(facts: &FactSet, node: NodeId) -> Option<bool> {
    if node.0 as usize >= facts.len() {
        return None;
    }
    known_of(facts, Aspect::OfEqual, node)
}

/// The first driver whose good value isn't known.
pub(crate) fn first_unknown(graph: &Graph, facts: &FactSet, gate: NodeId) -> Option<NodeId> {
    let _kind = graph.kind(gate)?;
    for driver in gate_pins(graph, gate) {
        if good_of(facts, driver).is_none() {
            return Some(driver);
        }
    }
    None
}

/// The goal, where its node is a live one whose good value isn't known.
pub(crate) fn open_goal(graph: &Graph, facts: &FactSet, goal: Goal) -> Option<Goal>
    ensures { IfSome result (λ g. MaySplitOn (net_of graph.now) facts.now g.node.0) }
{
    if goal.node.0 as usize >= facts.len() {
        return None;
    }
    if let Some(_known) = known_of(facts, Aspect::OfGood, goal.node) {
        return None;
    }
    let Some(_kind) = graph.kind(goal.node) else {
        return None;
    };
    Some(goal)
}
