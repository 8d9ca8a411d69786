// The nodes that may be the source of a new wire.
ghost use Rattle.std.specs.Prelude.{◌≡◌, ◌<◌, ◌≤◌, ◌↔◌, ◌⊎◌, Bool, IfOk, IsTrue, OnOk, length};
ghost use Rattle.gate_net.specs.Net.{IsKind, IsLive};
ghost use Rattle.gate_net.specs.declared.Kind.TheVariants.{Not};
ghost use Rattle.gate_graph.specs.Circuit.{net_of};
ghost use Rattle.refutation.specs.Branches.{IsNoConstant};
ghost use Rattle.refutation.specs.FactSets.{held_by};
ghost use Rattle.refutation.specs.declared.reasoning.Fact.TheVariants.{Good};
ghost use Rattle.candidate_wires.specs.Joining.{HasNoNot};
ghost use Rattle.refutation.specs.FactLists.{HasAllGoods};
ghost use Rattle.candidate_wires.specs.Inner.Parts.{AreKnown, HasGoods, HasUsable, IsAscending, IsLook, KeepsKnown};

use gate_graph::Graph;
use gate_net::Kind;
use refutation::pins::{Aspect, known_of};
use refutation::{Fact, FactSet};
use rm_base::{NoMemory, NodeId};
use std::alloc::Global;

/// A source or gate that is known to be equal, its good value, and whether it is no Not and no Not reads it.
#[derive(Clone, Copy, Debug, PartialEq, Eq)]
pub struct Known {
    pub(crate) node: NodeId,
    pub(crate) value: bool,
    pub(crate) has_no_not: bool,
}

fn is_not(graph: &Graph, node: NodeId) -> bool
    ensures { IsTrue result ↔ IsKind (net_of graph.now) node.0 Not }
{
    match graph.kind(node) {
        Some(Kind::Not) => true,
        _ => false,
    }
}

// Whether the node is no Not, and no Not reads it.
fn has_no_not(graph: &Graph, node: NodeId) -> bool
    requires { IsLive (net_of graph.now) node.0 }
    ensures { IsTrue result ↔ HasNoNot (net_of graph.now) node.0 }
{
    if is_not(graph, node) {
        return false;
    }
    graph.readers_listed();
    for reader in graph.readers_of(node) {
        if is_not(graph, reader) {
            return false;
        }
    }
    true
}

fn is_no_constant(kind: Kind) -> bool
    ensures { IsTrue result ↔ IsNoConstant kind }
{
    kind.constant_value().is_none()
}

// What a look at the node tells; few nodes have a known good value, so that is asked first.
fn known_at(graph: &Graph, facts: &FactSet, node: NodeId) -> Option<Known>
    requires { node.0 < length facts.now }
    ensures { IsLook (net_of graph.now) (held_by facts.now) node.0 result }
{
    let value = known_of(facts, Aspect::OfGood, node)?;
    if known_of(facts, Aspect::OfEqual, node) != Some(true) {
        return None;
    }
    let kind = graph.kind(node)?;
    if !is_no_constant(kind) {
        return None;
    }
    let has_no_not = has_no_not(graph, node);
    Some(Known {
        node,
        value,
        has_no_not,
    })
}

// The known nodes, in ascending order.
pub(crate) fn known_nodes(
    alloc: Global,
    graph: &Graph,
    facts: &FactSet,
) -> Result<Vec<Known>, NoMemory>
    requires { length (net_of graph.now).nodes ≤ length facts.now }
    ensures { IfOk result (λ v. AreKnown (net_of graph.now) (held_by facts.now) (length (net_of graph.now).nodes) v.items) }
{
    let mut nodes = Vec::new(alloc);
    for number in 0..graph.node_bound() {
        let Some(found) = known_at(graph, facts, NodeId(number)) else {
            continue;
        };
        nodes.push(found)?;
    }
    Ok(nodes)
}

fn is_good(fact: Fact) -> bool
    ensures { (value : Bool) → fact ≡ Good value → IsTrue result }
{
    match fact {
        Fact::Good(_) => true,
        _ => false,
    }
}

// The numbers of the nodes of which a good value is among the facts.
fn good_numbers(alloc: Global, added: &[(NodeId, Fact)]) -> Result<Vec<u32>, NoMemory>
    ensures { IfOk result (λ v. HasGoods added.now v.items) }
{
    let mut numbers = Vec::new(alloc);
    for entry in added {
        let (node, fact) = *entry;
        if !is_good(fact) {
            continue;
        }
        numbers.push(node.0)?;
    }
    Ok(numbers)
}

// The same, in ascending order.
fn ascending(alloc: Global, added: &[(NodeId, Fact)]) -> Result<Vec<u32>, NoMemory>
    ensures goods { IfOk result (λ v. HasGoods added.now v.items) }
    ensures order { IfOk result (λ v. IsAscending v.items) }
{
    let mut numbers = good_numbers(alloc, added)?;
    numbers.sort_unstable();
    Ok(numbers)
}

// Looks at a node beyond those that were looked at.
fn look_on(
    graph: &Graph,
    facts: &FactSet,
    bound: u32,
    number: u32,
    next: &mut u32,
    nodes: &mut Vec<Known>,
) -> Result<(), NoMemory>
    requires facts { length (net_of graph.now).nodes ≤ length facts.now }
    requires bound { bound ≡ length (net_of graph.now).nodes }
    requires next { next.old ≤ length (net_of graph.now).nodes }
    ensures known { OnOk result (KeepsKnown (net_of graph.now) (held_by facts.now) number next.old nodes.old.items next.new nodes.new.items) }
    ensures seen { OnOk result ((number < next.new) ⊎ (length (net_of graph.now).nodes ≤ number)) }
    ensures grows { OnOk result (next.old ≤ next.new) }
    ensures bound { OnOk result (next.new ≤ length (net_of graph.now).nodes) }
{
    if number < *next {
        return Ok(());
    }
    if number >= bound {
        return Ok(());
    }
    *next = number + 1;
    let Some(found) = known_at(graph, facts, NodeId(number)) else {
        return Ok(());
    };
    nodes.push(found)?;
    Ok(())
}

// The known nodes among ascending numbers, of which there is each usable one.
fn known_in_order(
    alloc: Global,
    graph: &Graph,
    facts: &FactSet,
    numbers: &[u32],
) -> Result<Vec<Known>, NoMemory>
    requires facts { length (net_of graph.now).nodes ≤ length facts.now }
    requires order { IsAscending numbers.now }
    requires all { HasUsable (net_of graph.now) (held_by facts.now) numbers.now }
    ensures { IfOk result (λ v. AreKnown (net_of graph.now) (held_by facts.now) (length (net_of graph.now).nodes) v.items) }
{
    let mut nodes = Vec::new(alloc);
    let mut next = 0u32;
    let bound = graph.node_bound();
    for number in numbers {
        look_on(graph, facts, bound, *number, &mut next, &mut nodes)?;
    }
    Ok(nodes)
}

// The known nodes, in ascending order, by a list that has each good value that is held.
pub(crate) fn known_among(
    alloc: Global,
    graph: &Graph,
    facts: &FactSet,
    added: &[(NodeId, Fact)],
) -> Result<Vec<Known>, NoMemory>
    requires facts { length (net_of graph.now).nodes ≤ length facts.now }
    requires added { HasAllGoods (held_by facts.now) added.now }
    ensures { IfOk result (λ v. AreKnown (net_of graph.now) (held_by facts.now) (length (net_of graph.now).nodes) v.items) }
{
    let numbers = ascending(alloc, added)?;
    known_in_order(alloc, graph, facts, numbers.as_slice())
}
