// Deciding the fault of a miter.
ghost use Rattle.std.specs.Prelude.{◌<◌, ◌≤◌, ◌+◌, ◌^◌, IfErr, IfOk, OnOk, length};
ghost use Rattle.equal_miter.specs.Equal.{AreComparable};
ghost use Rattle.equal_miter.specs.Likeness.{IsDecided, IsEvidence, IsLikeness};
ghost use Rattle.equal_miter.specs.Refusals.{IsMiterRefused, IsReady};
ghost use Rattle.gate_graph.specs.Circuit.{net_of};
ghost use Rattle.gate_net.specs.Net.{source_count};
ghost use Rattle.gate_net.specs.Values.{HasPin};
ghost use Rattle.rm_model.specs.Value.{source_names};

use crate::building::miter;
use crate::laws::miters_tell_models;
use crate::likeness::Likeness;
use crate::refusal::MiterRefusal;
use gate_graph::{Graph, Question};
use podem::{Verdict, search};
use recursive_learning::refuter::Refuter;
use refutation::laws::trees_refute;
use rm_base::{Fault, NoMemory};
use rm_model::{NameKeys, RankedModel};
use std::alloc::Global;

// What a search answers.
fn searched(alloc: Global, question: &Question<'_>, budget: u32) -> Result<Likeness, NoMemory>
    requires budget { 0 < budget }
    ensures evidence { IfOk result (λ l. IsEvidence (net_of question.now.graph.now) question.now.fault budget l) }
    ensures decided { 2 ^ (source_count (net_of question.now.graph.now) + 1) ≤ budget → IfOk result (λ l. IsDecided l) }
{
    match search(alloc, question, budget)? {
        Verdict::Detected(vector) => Ok(Likeness::Differ(vector)),
        Verdict::Refuted(tree) => Ok(Likeness::Same(tree)),
        Verdict::Spent(tree) => Ok(Likeness::Undecided(tree)),
    }
}

// Decides whether an assignment detects the fault of a graph, which is `Differ`: it is refuted by learning, or else searched.
fn decide_fault(
    alloc: Global,
    question: &Question<'_>,
    depth: u8,
    budget: u32,
) -> Result<Likeness, NoMemory>
    requires depth { depth ≤ 2 }
    requires budget { 0 < budget }
    ensures evidence { IfOk result (λ l. IsEvidence (net_of question.now.graph.now) question.now.fault budget l) }
    ensures decided { 2 ^ (source_count (net_of question.now.graph.now) + 1) ≤ budget → IfOk result (λ l. IsDecided l) }
{
    let mut refuter = Refuter::for_graph(alloc, question.graph)?;
    if let Some(tree) = refuter.refute(question, depth)? {
        return Ok(Likeness::Same(tree));
    }
    searched(alloc, question, budget)
}

// Decides the fault of a miter that was built.
fn decide_miter(
    alloc: Global,
    graph: &Graph,
    fault: Fault,
    depth: u8,
    budget: u32,
) -> Result<Likeness, NoMemory>
    requires pin { HasPin (net_of graph.now) fault }
    requires depth { depth ≤ 2 }
    requires budget { 0 < budget }
    ensures evidence { IfOk result (λ l. IsEvidence (net_of graph.now) fault budget l) }
    ensures decided { 2 ^ (source_count (net_of graph.now) + 1) ≤ budget → IfOk result (λ l. IsDecided l) }
{
    decide_fault(alloc, &Question { graph, fault }, depth, budget)
}

/// Decides whether two models compute the same, by the fault of their miter, which is refuted by learning to the depth, 0 to 2,
/// or else searched by implicit enumeration (Goel, An implicit enumeration algorithm to generate tests for combinational logic
/// circuits, IEEE Transactions on Computers, 1981), which enters at most `budget` edges. `Same` comes only where they do, with
/// an accepted closed tree of the fault, which another program can check; `Differ` comes only where they don't, with values of
/// the sources, in their order, as evidence. A budget of at least 2^(n+1) for n sources is enough for either; a smaller one may
/// end as `Undecided`. The refusals are those of `miter`.
pub fn decide(
    alloc: Global,
    keys: NameKeys,
    a: &RankedModel,
    b: &RankedModel,
    depth: u8,
    budget: u32,
) -> Result<Likeness, MiterRefusal>
    requires first { IsReady a.now }
    requires second { IsReady b.now }
    requires depth { depth ≤ 2 }
    requires budget { 0 < budget }
    ensures comparable { OnOk result (AreComparable a.now b.now) }
    ensures likeness { IfOk result (λ l. IsLikeness a.now b.now budget l) }
    ensures decided { 2 ^ (length (source_names a.now) + 1) ≤ budget → IfOk result (λ l. IsDecided l) }
    ensures refused { IfErr result (λ refusal. IsMiterRefused a.now b.now refusal) }
{
    miters_tell_models();
    trees_refute();
    let (graph, fault) = miter(alloc, keys, a, b)?;
    graph.well_formed();
    let likeness = decide_miter(alloc, &graph, fault, depth, budget)?;
    Ok(likeness)
}
