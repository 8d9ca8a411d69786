// The graph of a model, with what it needs to be joined with another.
ghost use Rattle.std.specs.Prelude.{◌≡◌, ◌<◌, ◌≤◌, IfErr, IfOk, OnOk};
ghost use Rattle.cover_decompose.specs.Count.{decomposed};
ghost use Rattle.cover_decompose.specs.Decomposition.{net_of_model};
ghost use Rattle.cover_decompose.specs.Limits.{most_pins};
ghost use Rattle.cover_decompose.specs.Refusals.{IsRefused};
ghost use Rattle.cover_decompose.specs.Spelled.{plain_decomposed, plain_net, spelled};
ghost use Rattle.gate_graph.specs.Circuit.{net_of};
ghost use Rattle.joined_nets.specs.Growing.{IsOrdered, IsSmall};
ghost use Rattle.joined_nets.specs.Ready.{IsReady};

use cover_decompose::{
    DecomposeRefusal, decompose, decompositions_are_formed, decompositions_stand, spell,
    spelled_models_stay,
};
use gate_graph::Graph;
use rm_model::{NameKeys, RankedModel};
use std::alloc::Global;

/// The decomposition of a model, whose gates read lower numbers, which leaves no number free, and which is small enough to stand
/// beside another. A model with more than 65,536 wires is refused.
pub fn ordered_decomposition(alloc: Global, model: &RankedModel) -> Result<Graph, DecomposeRefusal>
    requires ready { IsReady model.now }
    ensures net { IfOk result (λ g. net_of g ≡ net_of_model model.now) }
    ensures within { OnOk result (decomposed model.now ≤ most_pins) }
    ensures order { OnOk result (IsOrdered (net_of_model model.now)) }
    ensures small { OnOk result (IsSmall (net_of_model model.now)) }
    ensures refused { IfErr result (λ refusal. IsRefused model.now refusal) }
{
    decompositions_stand();
    decompositions_are_formed();
    let graph = decompose(alloc, model)?;
    Ok(graph)
}

/// The same of the decomposition without Xor gates, in which a parity cover is an Or of Ands of literals like any other. Keys
/// change the time alone.
pub fn plain_decomposition(
    alloc: Global,
    keys: NameKeys,
    model: &RankedModel,
) -> Result<Graph, DecomposeRefusal>
    requires ready { IsReady model.now }
    ensures net { IfOk result (λ g. net_of g ≡ plain_net model.now) }
    ensures within { OnOk result (plain_decomposed model.now ≤ most_pins) }
    ensures order { OnOk result (IsOrdered (plain_net model.now)) }
    ensures small { OnOk result (IsSmall (plain_net model.now)) }
    ensures refused { IfErr result (λ refusal. IsRefused (spelled model.now) refusal) }
{
    spelled_models_stay();
    let made = spell(alloc, keys, model)?;
    let graph = ordered_decomposition(alloc, &made)?;
    Ok(graph)
}
