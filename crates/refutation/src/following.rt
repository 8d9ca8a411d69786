//! What follows at one gate.
ghost use Rattle.std.specs.Prelude.{◌≡◌, ◌≤◌, length, slice_get};
ghost use Rattle.std.specs.Option.{option_map};
ghost use Rattle.gate_net.specs.Net.{drivers_of};
ghost use Rattle.gate_graph.specs.Circuit.{net_of};
ghost use Rattle.refutation.specs.FactSets.{held_by};
ghost use Rattle.refutation.specs.Answers.{forward_at, backward_at, both_at, seen_pull};

use crate::held::FactSet;
use crate::pin_scans::{back, forward};
use crate::pins::{Aspect, Stuck, known_of};
use gate_graph::Graph;
pub use local_evaluation::drivers::{gate_pins, pin_driver};
pub use local_evaluation::pin_walk::PinWalk;
use rm_base::NodeId;

/// The value of a gate that follows.
pub fn forward_line(
    graph: &Graph,
    stuck: Option<Stuck>,
    facts: &FactSet,
    aspect: Aspect,
    node: NodeId,
) -> Option<bool>
    requires { length (net_of graph.now).nodes ≤ length facts.now }
    ensures { result ≡ forward_at (net_of graph.now) stuck aspect (held_by facts.now) node.0 }
{
    let kind = graph.kind(node)?;
    forward(kind, gate_pins(graph, node), stuck, facts, aspect)
}

/// A pin's driver, and the value that follows for it.
pub fn backward_line(
    graph: &Graph,
    stuck: Option<Stuck>,
    facts: &FactSet,
    aspect: Aspect,
    node: NodeId,
    position: u32,
) -> Option<(NodeId, bool)>
    requires { length (net_of graph.now).nodes ≤ length facts.now }
    ensures { seen_pull result ≡ backward_at (net_of graph.now) stuck aspect (held_by facts.now) node.0 position }
{
    let kind = graph.kind(node)?;
    let value = known_of(facts, aspect, node)?;
    let driver = graph.driver(node, position)?;
    let follows = back(
        kind,
        value,
        gate_pins(graph, node),
        stuck,
        facts,
        aspect,
        position as usize,
    )?;
    Some((driver, follows))
}

/// A pin's driver, which is known, and the value that follows for it.
pub fn backward_from(
    graph: &Graph,
    stuck: Option<Stuck>,
    facts: &FactSet,
    aspect: Aspect,
    node: NodeId,
    position: u32,
    driver: Option<NodeId>,
) -> Option<(NodeId, bool)>
    requires facts { length (net_of graph.now).nodes ≤ length facts.now }
    requires driver { option_map (λ n. n.0) driver ≡ slice_get (drivers_of (net_of graph.now) node.0) position }
    ensures { seen_pull result ≡ backward_at (net_of graph.now) stuck aspect (held_by facts.now) node.0 position }
{
    let kind = graph.kind(node)?;
    let value = known_of(facts, aspect, node)?;
    let driver = driver?;
    let follows = back(
        kind,
        value,
        gate_pins(graph, node),
        stuck,
        facts,
        aspect,
        position as usize,
    )?;
    Some((driver, follows))
}

/// Two things that are known of one live node.
pub fn both_known(
    graph: &Graph,
    facts: &FactSet,
    one: Aspect,
    other: Aspect,
    node: NodeId,
) -> Option<(bool, bool)>
    requires { length (net_of graph.now).nodes ≤ length facts.now }
    ensures { result ≡ both_at (net_of graph.now) one other (held_by facts.now) node.0 }
{
    let _kind = graph.kind(node)?;
    let a = known_of(facts, one, node)?;
    let b = known_of(facts, other, node)?;
    Some((a, b))
}
