// The gated net of a model and a care model, in one graph.
ghost use Rattle.std.specs.Prelude.{◌≡◌, ◌≤◌, ◌+◌, IfErr, IfOk, OnOk, false, true};
ghost use Rattle.cover_decompose.specs.Count.{decomposed};
ghost use Rattle.cover_decompose.specs.Decomposition.{net_of_model};
ghost use Rattle.cover_decompose.specs.Limits.{most_pins};
ghost use Rattle.gate_graph.specs.Circuit.{live_nodes, net_of, pins_taken};
ghost use Rattle.joined_nets.specs.Growing.{IsOrdered, IsSmall};
ghost use Rattle.joined_nets.specs.Ready.{IsReady};
ghost use Rattle.care_opt.specs.EquivalentOn.{HasCareShape, IsCareOf};
ghost use Rattle.care_opt.specs.Gated.{main_bound, models_gated};
ghost use Rattle.care_opt.specs.Inner.Checking.{IsLimit, IsUnfit};
ghost use Rattle.care_opt.specs.Refusals.{CanCare, IsCareRefused};

use crate::gating::gated_graph;
use crate::refusal::CareRefusal;
use cover_decompose::{DecomposeRefusal, decompositions_are_formed, decompositions_stand};
use gate_graph::Graph;
use joined_nets::{first_difference, ordered_decomposition};
use rm_model::{Model, NameKeys, RankedModel, sources};
use std::alloc::Global;

// Whether a model can be a care model.
fn has_care_shape(care: &Model) -> bool
    ensures shape { result ≡ true → HasCareShape care.now }
    ensures other { result ≡ false → HasCareShape care.now → ⊥ }
{
    if care.clocks.items().len() != 0 {
        return false;
    }
    if care.latches.items().len() != 0 {
        return false;
    }
    care.outputs.items().len() == 1
}

// Whether the second model is a care model over the sources of the first.
#[tactic(auto, using(joined_nets::proofs::Public::no_difference))]
fn check_care(
    alloc: Global,
    keys: NameKeys,
    model: &RankedModel,
    care: &RankedModel,
) -> Result<(), CareRefusal>
    requires ready { IsReady model.now }
    ensures cares { OnOk result (IsCareOf model.now care.now) }
    ensures refused { IfErr result (λ refusal. IsUnfit model.now care.now refusal) }
{
    if !has_care_shape(care.model()) {
        return Err(CareRefusal::Shape);
    }
    let ours = sources(alloc, keys, model.model())?;
    let theirs = sources(alloc, keys, care.model())?;
    if let Some(at) = first_difference(ours.as_slice(), theirs.as_slice()) {
        return Err(CareRefusal::UnlikeSources { at });
    }
    Ok(())
}

// The graph of one of the models.
fn graph_of(alloc: Global, model: &RankedModel, second: bool) -> Result<Graph, CareRefusal>
    requires ready { IsReady model.now }
    ensures net { IfOk result (λ g. net_of g ≡ net_of_model model.now) }
    ensures within { OnOk result (decomposed model.now ≤ most_pins) }
    ensures order { OnOk result (IsOrdered (net_of_model model.now)) }
    ensures small { OnOk result (IsSmall (net_of_model model.now)) }
    ensures refused { IfErr result (λ refusal. IsLimit model.now second refusal) }
{
    match ordered_decomposition(alloc, model) {
        Ok(graph) => Ok(graph),
        Err(DecomposeRefusal::Limit { pins }) => Err(CareRefusal::Limit { second, pins }),
        Err(DecomposeRefusal::NoMemory) => Err(CareRefusal::NoMemory),
    }
}

/// The gated net of both models, and the number below which the main gates are.
pub(crate) fn gated_models(
    alloc: Global,
    keys: NameKeys,
    model: &RankedModel,
    care: &RankedModel,
) -> Result<(Graph, u32), CareRefusal>
    requires ready { IsReady model.now }
    requires care_ready { IsReady care.now }
    ensures net { IfOk result (λ r. net_of r.0 ≡ models_gated model.now care.now) }
    ensures bound { IfOk result (λ r. r.1 ≡ main_bound model.now) }
    ensures low { IfOk result (λ r. r.1 ≤ 66562) }
    ensures few { IfOk result (λ r. pins_taken r.0 + live_nodes r.0 ≤ 1048576) }
    ensures can { OnOk result (CanCare model.now care.now) }
    ensures refused { IfErr result (λ refusal. IsCareRefused model.now care.now refusal) }
{
    decompositions_stand();
    decompositions_are_formed();
    check_care(alloc, keys, model, care)?;
    let ours = graph_of(alloc, model, false)?;
    let theirs = graph_of(alloc, care, true)?;
    let graph = gated_graph(alloc, &ours, &theirs)?;
    Ok((graph, ours.node_bound()))
}
