// The graph of a miter.
ghost use Rattle.std.specs.Prelude.{◌≡◌, ◌<◌, ◌≤◌, ◌+◌, ◌++◌, [], IfErr, IfOk, None, OnOk, length, map};
ghost use Rattle.cover_decompose.specs.Limits.{most_pins};
ghost use Rattle.cover_decompose.specs.Spelled.{plain_decomposed, plain_net};
ghost use Rattle.equal_miter.specs.Equal.{AreComparable, models_fault, models_miter};
ghost use Rattle.joined_nets.specs.Growing.{IsOrdered, IsSmall, IsWhole, live};
ghost use Rattle.equal_miter.specs.Inner.Tops.{tops};
ghost use Rattle.equal_miter.specs.Laws.{AreAlike};
ghost use Rattle.joined_nets.specs.Joined.{both};
ghost use Rattle.equal_miter.specs.Miter.{compared, miter_fault, miter_of};
ghost use Rattle.equal_miter.specs.Refusals.{HaveSameNames, IsLimit, IsMiterRefused, IsReady, IsUnlike, first_difference};
ghost use Rattle.gate_graph.specs.Circuit.{live_nodes, net_of};
ghost use Rattle.gate_graph.specs.Holds.{pins_held};
ghost use Rattle.gate_net.specs.Net.{wire_count};

use crate::places::{add_comparisons, observe_none};
use crate::refusal::MiterRefusal;
use cover_decompose::{DecomposeRefusal, plain_nets_are_formed, plain_nets_stand};
use gate_graph::Graph;
use joined_nets::{copy_both, first_difference, moved_all, plain_decomposition};
use rm_base::{FIRST_SOURCE, Fault, NoMemory, NodeId};
use rm_model::{Name, NameKeys, RankedModel, list_observed, sources};
use std::alloc::Global;

// The comparison of both nets, which the graph has, at every observed place, with the gates that are 1 where a place differs.
fn compare_places(
    alloc: Global,
    graph: &mut Graph,
    a: &Graph,
    b: &Graph,
) -> Result<Vec<NodeId>, NoMemory>
    requires alike { AreAlike (net_of a.now) (net_of b.now) }
    requires small { IsSmall (net_of a.now) }
    requires other_small { IsSmall (net_of b.now) }
    requires net { net_of graph.old ≡ record { nodes = both (net_of a.now) (net_of b.now); observed = [] } }
    requires whole { IsWhole graph.old }
    ensures net { OnOk result (net_of graph.new ≡ record { nodes = both (net_of a.now) (net_of b.now) ++ live (compared (net_of a.now) (net_of b.now)); observed = [] }) }
    ensures last { IfOk result (λ r. map (λ n. n.0) r.items ≡ tops (net_of a.now) (net_of b.now)) }
    ensures whole { OnOk result (IsWhole graph.new) }
{
    let first = FIRST_SOURCE + a.source_count();
    let xs = moved_all(alloc, a.observed_points(), first, first)?;
    let ys = moved_all(alloc, b.observed_points(), first, a.node_bound())?;
    let tops = add_comparisons(alloc, graph, xs.as_slice(), ys.as_slice())?;
    Ok(tops)
}

// The miter of two graphs with as many sources and observed places, and its fault.
fn miter_of_graphs(alloc: Global, a: &Graph, b: &Graph) -> Result<(Graph, Fault), NoMemory>
    requires alike { AreAlike (net_of a.now) (net_of b.now) }
    requires order { IsOrdered (net_of a.now) }
    requires other_order { IsOrdered (net_of b.now) }
    requires small { IsSmall (net_of a.now) }
    requires other_small { IsSmall (net_of b.now) }
    ensures net { IfOk result (λ r. net_of r.0 ≡ miter_of (net_of a.now) (net_of b.now)) }
    ensures fault { IfOk result (λ r. r.1 ≡ miter_fault (net_of a.now) (net_of b.now)) }
    ensures wires { IfOk result (λ r. wire_count (net_of r.0) ≤ 200000) }
    ensures nodes { IfOk result (λ r. length (net_of r.0).nodes ≤ 200000) }
    ensures live { IfOk result (λ r. live_nodes r.0 ≤ 200000) }
    ensures observed { IfOk result (λ r. length (net_of r.0).observed ≡ 1) }
    ensures held { IfOk result (λ r. pins_held r.0 ≡ 0) }
{
    let mut graph = copy_both(alloc, a, b)?;
    let differing = compare_places(alloc, &mut graph, a, b)?;
    let gate = observe_none(&mut graph, differing.as_slice())?;
    let fault = Fault {
        gate,
        position: 0,
        value: false,
    };
    Ok((graph, fault))
}

// Whether the names are the same in both.
#[tactic(auto, using(joined_nets::proofs::Public::no_difference))]
fn compare_names(
    alloc: Global,
    keys: NameKeys,
    a: &RankedModel,
    b: &RankedModel,
) -> Result<(), MiterRefusal>
    requires first { IsReady a.now }
    ensures same { OnOk result (HaveSameNames a.now b.now) }
    ensures refused { IfErr result (λ refusal. IsUnlike a.now b.now refusal) }
{
    let ours = sources(alloc, keys, a.model())?;
    let theirs = sources(alloc, keys, b.model())?;
    if let Some(at) = first_difference(ours.as_slice(), theirs.as_slice()) {
        return Err(MiterRefusal::UnlikeSources { at });
    }
    let ours = list_observed(alloc, a.model())?;
    let theirs = list_observed(alloc, b.model())?;
    if let Some(at) = first_difference(ours.as_slice(), theirs.as_slice()) {
        return Err(MiterRefusal::UnlikeObserved { at });
    }
    Ok(())
}

// The graph of one of the models.
fn graph_of(
    alloc: Global,
    keys: NameKeys,
    model: &RankedModel,
    second: bool,
) -> Result<Graph, MiterRefusal>
    requires ready { IsReady model.now }
    ensures net { IfOk result (λ g. net_of g ≡ plain_net model.now) }
    ensures within { OnOk result (plain_decomposed model.now ≤ most_pins) }
    ensures order { OnOk result (IsOrdered (plain_net model.now)) }
    ensures small { OnOk result (IsSmall (plain_net model.now)) }
    ensures refused { IfErr result (λ refusal. IsLimit model.now second refusal) }
{
    match plain_decomposition(alloc, keys, model) {
        Ok(graph) => Ok(graph),
        Err(DecomposeRefusal::Limit { pins }) => Err(MiterRefusal::Limit { second, pins }),
        Err(DecomposeRefusal::NoMemory) => Err(MiterRefusal::NoMemory),
    }
}

/// The miter of two models (Brand, Verification of large synthesized designs, ICCAD 1993): both decompositions in one graph
/// over the same sources, compared at every observed place, and observed at one gate, whose pin has the fault that is asked
/// of it. An assignment detects the fault exactly where the models differ under it. The miter has And, Or and Not gates alone,
/// in place of a parity cover and to compare a place: equal gates are merged by wires, and a wire can't be added to an Xor. It
/// takes the time of the wires of both, but for the look-ups of names, whose keys change the time alone. A refusal names the
/// sources before the observed names, and these before a limit.
pub fn miter(
    alloc: Global,
    keys: NameKeys,
    a: &RankedModel,
    b: &RankedModel,
) -> Result<(Graph, Fault), MiterRefusal>
    requires first { IsReady a.now }
    requires second { IsReady b.now }
    ensures net { IfOk result (λ r. net_of r.0 ≡ models_miter a.now b.now) }
    ensures fault { IfOk result (λ r. r.1 ≡ models_fault a.now b.now) }
    ensures comparable { OnOk result (AreComparable a.now b.now) }
    ensures wires { IfOk result (λ r. wire_count (net_of r.0) ≤ 200000) }
    ensures nodes { IfOk result (λ r. length (net_of r.0).nodes ≤ 200000) }
    ensures live { IfOk result (λ r. live_nodes r.0 ≤ 200000) }
    ensures observed { IfOk result (λ r. length (net_of r.0).observed ≡ 1) }
    ensures held { IfOk result (λ r. pins_held r.0 ≡ 0) }
    ensures refused { IfErr result (λ refusal. IsMiterRefused a.now b.now refusal) }
{
    plain_nets_stand();
    plain_nets_are_formed();
    compare_names(alloc, keys, a, b)?;
    let ours = graph_of(alloc, keys, a, false)?;
    let theirs = graph_of(alloc, keys, b, true)?;
    let made = miter_of_graphs(alloc, &ours, &theirs)?;
    Ok(made)
}
