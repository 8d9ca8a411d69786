// The comparison of two nets in one graph, observed place by observed place.
ghost use Rattle.std.specs.Prelude.{◌≡◌, ◌<◌, ◌++◌, ◌∷◌, [], IfOk, OnOk, Some, length, map, slice_get, suc, true, ℕ};
ghost use Rattle.joined_nets.specs.Growing.{Fits, IsWhole, and_gate, live, with_nodes};
ghost use Rattle.equal_miter.specs.Miter.{comparisons, differences, not_gate, or_gate};
ghost use Rattle.gate_graph.specs.Circuit.{live_nodes, net_of};
ghost use Rattle.gate_graph.specs.Holds.{pins_held};
ghost use Rattle.pin_pool.specs.Ring.{has};

use gate_graph::Graph;
use gate_net::Kind;
use joined_nets::add_last;
use rm_base::{NoMemory, NodeId};
use std::alloc::Global;

// Makes the Nots of two nodes.
fn add_nots(graph: &mut Graph, x: NodeId, y: NodeId) -> Result<(NodeId, NodeId), NoMemory>
    requires whole { IsWhole graph.old }
    requires ours { x.0 < length (net_of graph.old).nodes }
    requires theirs { y.0 < length (net_of graph.old).nodes }
    requires fits { Fits (with_nodes (net_of graph.old) (live (not_gate x.0 ∷ not_gate y.0 ∷ []))) }
    ensures net { OnOk result (net_of graph.new ≡ with_nodes (net_of graph.old) (live (not_gate x.0 ∷ not_gate y.0 ∷ []))) }
    ensures first { IfOk result (λ r. r.0.0 ≡ length (net_of graph.old).nodes) }
    ensures second { IfOk result (λ r. r.1.0 ≡ suc (length (net_of graph.old).nodes)) }
    ensures whole { OnOk result (IsWhole graph.new) }
{
    let without_x = add_last(graph, Kind::Not, &[x])?;
    let without_y = add_last(graph, Kind::Not, &[y])?;
    Ok((without_x, without_y))
}

// Makes the Ands of either node and the other's Not.
fn add_ands(
    graph: &mut Graph,
    x: NodeId,
    y: NodeId,
    without_x: NodeId,
    without_y: NodeId,
) -> Result<(NodeId, NodeId), NoMemory>
    requires whole { IsWhole graph.old }
    requires ours { x.0 < length (net_of graph.old).nodes }
    requires theirs { y.0 < length (net_of graph.old).nodes }
    requires not_ours { without_x.0 < length (net_of graph.old).nodes }
    requires not_theirs { without_y.0 < length (net_of graph.old).nodes }
    requires fits { Fits (with_nodes (net_of graph.old) (live (and_gate x.0 without_y.0 ∷ and_gate without_x.0 y.0 ∷ []))) }
    ensures net { OnOk result (net_of graph.new ≡ with_nodes (net_of graph.old) (live (and_gate x.0 without_y.0 ∷ and_gate without_x.0 y.0 ∷ []))) }
    ensures first { IfOk result (λ r. r.0.0 ≡ length (net_of graph.old).nodes) }
    ensures second { IfOk result (λ r. r.1.0 ≡ suc (length (net_of graph.old).nodes)) }
    ensures whole { OnOk result (IsWhole graph.new) }
{
    let ours = add_last(graph, Kind::And, &[x, without_y])?;
    let theirs = add_last(graph, Kind::And, &[without_x, y])?;
    Ok((ours, theirs))
}

// Makes the five gates that compare two nodes. The last of them, which is 1 where they differ, is the result.
fn add_comparison(graph: &mut Graph, x: NodeId, y: NodeId) -> Result<NodeId, NoMemory>
    requires whole { IsWhole graph.old }
    requires ours { x.0 < length (net_of graph.old).nodes }
    requires theirs { y.0 < length (net_of graph.old).nodes }
    requires fits { Fits (with_nodes (net_of graph.old) (live (comparisons (length (net_of graph.old).nodes) (x.0 ∷ []) (y.0 ∷ [])))) }
    ensures net { OnOk result (net_of graph.new ≡ with_nodes (net_of graph.old) (live (comparisons (length (net_of graph.old).nodes) (x.0 ∷ []) (y.0 ∷ [])))) }
    ensures last { IfOk result (λ top. top.0 ∷ [] ≡ differences (length (net_of graph.old).nodes) (x.0 ∷ []) (y.0 ∷ [])) }
    ensures whole { OnOk result (IsWhole graph.new) }
{
    let (without_x, without_y) = add_nots(graph, x, y)?;
    let (ours, theirs) = add_ands(graph, x, y, without_x, without_y)?;
    let top = add_last(graph, Kind::Or, &[ours, theirs])?;
    Ok(top)
}

/// Compares nodes of the graph in pairs, and gives the gates that are 1 where a pair differs.
pub(crate) fn add_comparisons(
    alloc: Global,
    graph: &mut Graph,
    xs: &[NodeId],
    ys: &[NodeId],
) -> Result<Vec<NodeId>, NoMemory>
    requires whole { IsWhole graph.old }
    requires pairs { length xs.now ≡ length ys.now }
    requires ours { (p x : ℕ) → slice_get (map (λ n. n.0) xs.now) p ≡ Some x → x < length (net_of graph.old).nodes }
    requires theirs { (p y : ℕ) → slice_get (map (λ n. n.0) ys.now) p ≡ Some y → y < length (net_of graph.old).nodes }
    requires fits { Fits (with_nodes (net_of graph.old) (live (comparisons (length (net_of graph.old).nodes) (map (λ n. n.0) xs.now) (map (λ n. n.0) ys.now)))) }
    ensures net { OnOk result (net_of graph.new ≡ with_nodes (net_of graph.old) (live (comparisons (length (net_of graph.old).nodes) (map (λ n. n.0) xs.now) (map (λ n. n.0) ys.now)))) }
    ensures last { IfOk result (λ r. map (λ n. n.0) r.items ≡ differences (length (net_of graph.old).nodes) (map (λ n. n.0) xs.now) (map (λ n. n.0) ys.now)) }
    ensures whole { OnOk result (IsWhole graph.new) }
{
    let mut tops = Vec::new(alloc);
    for at in 0..xs.len() {
        let top = add_comparison(graph, xs[at], ys[at])?;
        tops.push(top)?;
    }
    Ok(tops)
}

/// Makes the Or of these nodes and its Not, observes the Not, and gives it.
pub(crate) fn observe_none(graph: &mut Graph, nodes: &[NodeId]) -> Result<NodeId, NoMemory>
    requires whole { IsWhole graph.old }
    requires nodes { (d : ℕ) → has d (map (λ n. n.0) nodes.now) ≡ true → d < length (net_of graph.old).nodes }
    requires fits { Fits (with_nodes (net_of graph.old) (live (or_gate (map (λ n. n.0) nodes.now) ∷ not_gate (length (net_of graph.old).nodes) ∷ []))) }
    ensures net { OnOk result (net_of graph.new ≡ record { nodes = (net_of graph.old).nodes ++ live (or_gate (map (λ n. n.0) nodes.now) ∷ not_gate (length (net_of graph.old).nodes) ∷ []); observed = (net_of graph.old).observed ++ suc (length (net_of graph.old).nodes) ∷ [] }) }
    ensures number { IfOk result (λ gate. gate.0 ≡ suc (length (net_of graph.old).nodes)) }
    ensures live { OnOk result (live_nodes graph.new ≡ length (net_of graph.new).nodes) }
    ensures held { OnOk result (pins_held graph.new ≡ 0) }
{
    let some = add_last(graph, Kind::Or, nodes)?;
    let none = add_last(graph, Kind::Not, &[some])?;
    graph.observe(none)?;
    Ok(none)
}
