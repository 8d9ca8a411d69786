//! Gates whose known value no driver is known to give, and the drivers that may give it.
ghost use Rattle.std.specs.Prelude.{◌≡◌, ◌≤◌, ◌≢◌, IfOk, MatchOption, None, Option, length, map, nat_eq};
ghost use Rattle.std.specs.List.{list_any};
ghost use Rattle.gate_net.specs.Net.{kind_of};
ghost use Rattle.gate_graph.specs.Circuit.{net_of};
ghost use Rattle.refutation.specs.FactSets.{held_by};
ghost use Rattle.refutation.specs.Learning.{HasFew};
ghost use Rattle.recursive_learning.specs.Inner.Gates.{AreJustifications, IsWanted};

use gate_graph::Graph;
use refutation::FactSet;
use refutation::following::gate_pins;
use refutation::pin_scans::look_at_facts;
use refutation::pins::{Aspect, controlling, known_of};
use rm_base::{NoMemory, NodeId};
use std::alloc::Global;

/// The controlling value of an And or an Or that is known to have it while no driver is known to.
pub fn wanted_value(graph: &Graph, facts: &FactSet, gate: NodeId) -> Option<bool>
    requires { length (net_of graph.now).nodes ≤ length facts.now }
    ensures { IsWanted (net_of graph.now) (held_by facts.now) gate.0 result }
{
    let kind = graph.kind(gate)?;
    let value = controlling(kind)?;
    let known_value = known_of(facts, Aspect::OfGood, gate)?;
    if known_value != value {
        return None;
    }
    if look_at_facts(gate_pins(graph, gate), None, facts, Aspect::OfGood, value).any {
        return None;
    }
    Some(value)
}

fn is_listed(nodes: &[NodeId], node: NodeId) -> bool
    ensures { result ≡ list_any (λ n. nat_eq node.0 n.0) nodes.now }
{
    nodes.iter().any(|n| node.0 == n.0)
}

/// The different drivers of a gate whose good value isn't known, or None where there are more than 8.
pub fn open_drivers(
    alloc: Global,
    graph: &Graph,
    facts: &FactSet,
    gate: NodeId,
) -> Result<Option<Vec<NodeId>>, NoMemory>
    requires live { kind_of (net_of graph.now) gate.0 ≢ None }
    requires facts { length (net_of graph.now).nodes ≤ length facts.now }
    ensures { IfOk result (λ o. MatchOption o (HasFew (net_of graph.now) (held_by facts.now) gate.0 → ⊥) (λ v. AreJustifications (net_of graph.now) (held_by facts.now) gate.0 (map (λ n. n.0) v.items))) }
{
    let mut open = Vec::new(alloc);
    for driver in gate_pins(graph, gate) {
        if known_of(facts, Aspect::OfGood, driver).is_some() {
            continue;
        }
        if is_listed(&open, driver) {
            continue;
        }
        if open.len() == 8 {
            return Ok(None);
        }
        open.push(driver)?;
    }
    Ok(Some(open))
}
