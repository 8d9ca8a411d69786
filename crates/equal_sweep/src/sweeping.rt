// Merging the equal gates of a miter until it is One.
ghost use Rattle.std.specs.Prelude.{◌≡◌, ◌≢◌, ◌<◌, ◌≤◌, ◌+◌, ◌∷◌, [], IfErr, IfOk, IfSome, false, true};
ghost use Rattle.equal_evidence.specs.Evidence.{IsWritten};
ghost use Rattle.equal_evidence.specs.Shown.{IsEvidenceFor, IsSwept};
ghost use Rattle.equal_evidence.specs.declared.evidence.Evidence.TheVariants as evidence;
ghost use Rattle.equal_miter.specs.Refusals.{IsMiterRefused, IsReady};
ghost use Rattle.gate_graph.specs.Circuit.{live_nodes, net_of, pins_taken};
ghost use Rattle.rm_base.specs.Numbers.{one_number};

use equal_evidence::{StepRun, swept_models_agree};
use equal_miter::{MiterRefusal, miter};
use gate_graph::Graph;
use journal_ranges::records_fit;
use journal_text::accepted_runs_are_writable;
use merging::merge_equal;
use rm_base::{NoMemory, ONE};
use rm_model::{NameKeys, RankedModel};
use std::alloc::Global;

// Whether the graph observes the constant One alone.
fn observes_one(graph: &Graph) -> bool
    ensures one { result ≡ true → (net_of graph.now).observed ≡ one_number ∷ [] }
    ensures other { result ≡ false → (net_of graph.now).observed ≢ one_number ∷ [] }
{
    if graph.observed_count() != 1 {
        return false;
    }
    graph.observed_at(0) == ONE
}

// The steps that merge the equal gates of a net, where they lead to one that observes the constant One alone.
fn merge_to_one(
    alloc: Global,
    graph: Graph,
    depth: u8,
    budget: u32,
) -> Result<Option<StepRun>, NoMemory>
    requires few { pins_taken graph + live_nodes graph ≤ 1048576 }
    requires depth { depth ≤ 2 }
    requires budget { 0 < budget }
    ensures swept { IfOk result (λ found. IfSome found (λ run. IsSwept (net_of graph) run)) }
    ensures written { IfOk result (λ found. IfSome found (λ run. IsWritten (evidence.Merged run))) }
{
    accepted_runs_are_writable();
    let mut work = 0u64;
    let (merged, records) = merge_equal(alloc, graph, depth, budget, &mut work)?;
    if !observes_one(&merged) {
        return Ok(None);
    }
    records_fit(records.as_slice());
    Ok(Some(StepRun::of(records)))
}

/// The steps that make the miter of two models One, where merging its equal gates does: the models compute the same.
pub(crate) fn sweep(
    alloc: Global,
    keys: NameKeys,
    a: &RankedModel,
    b: &RankedModel,
    depth: u8,
    budget: u32,
) -> Result<Option<StepRun>, MiterRefusal>
    requires first { IsReady a.now }
    requires second { IsReady b.now }
    requires depth { depth ≤ 2 }
    requires budget { 0 < budget }
    ensures evidence { IfOk result (λ found. IfSome found (λ run. IsEvidenceFor a.now b.now budget (evidence.Merged run))) }
    ensures written { IfOk result (λ found. IfSome found (λ run. IsWritten (evidence.Merged run))) }
    ensures refused { IfErr result (λ refusal. IsMiterRefused a.now b.now refusal) }
{
    swept_models_agree();
    let (graph, _fault) = miter(alloc, keys, a, b)?;
    graph.well_formed();
    let found = merge_to_one(alloc, graph, depth, budget)?;
    Ok(found)
}
