//! Whether a pin's fault is refuted.
ghost use Rattle.std.specs.Prelude.{IfOk, IfSome, OnOk};
ghost use Rattle.gate_net.specs.Faults.{IsTest};
ghost use Rattle.gate_graph.specs.Circuit.{net_of};
ghost use Rattle.recursive_learning.specs.Serving.{IsServing};
ghost use Rattle.refutation.specs.Branches.{AreAccepted};
ghost use Rattle.merging.specs.Inner.Merging.{IsEffort};

use crate::effort::Effort;
use candidate_vectors::complete;
use fault_sim::Lanes;
use gate_graph::Question;
use podem::{Verdict, search};
use recursive_learning::refuter::Refuter;
use refutation::Tree;
use rm_base::{NoMemory, Vector};
use std::alloc::Global;

// The tree of a search; a vector that it finds is kept.
fn searched(
    alloc: Global,
    question: &Question<'_>,
    effort: Effort,
    found: &mut Vec<Vector>,
) -> Result<Option<Tree>, NoMemory>
    requires effort { IsEffort effort }
    ensures accepted { IfOk result (λ tree. IfSome tree (AreAccepted (net_of question.now.graph.now) question.now.fault)) }
{
    match search(alloc, question, effort.budget)? {
        Verdict::Detected(vector) => {
            found.push(vector)?;
            Ok(None)
        }
        Verdict::Refuted(tree) => Ok(Some(tree)),
        Verdict::Spent(_tree) => Ok(None),
    }
}

// A vector that detects the fault, among those that complete what lines lead to. There is none where these clash.
fn completed(
    alloc: Global,
    refuter: &mut Refuter,
    question: &Question<'_>,
) -> Result<Option<Vector>, NoMemory>
    requires serves { IsServing (net_of question.now.graph.now) refuter.old }
    ensures test { IfOk result (λ found. IfSome found (IsTest (net_of question.now.graph.now) question.now.fault)) }
    ensures serves { OnOk result (IsServing (net_of question.now.graph.now) refuter.new) }
{
    if refuter.close(question)? {
        return Ok(None);
    }
    let mut lanes = Lanes::new(alloc, question.graph)?;
    complete(alloc, question, refuter.facts(), &mut lanes)
}

/// The tree that refutes the fault, by learning or by a search, if one of them comes to it. A vector that detects the fault
/// is kept. One is looked for before anything is learned, as most gates that only seem to agree are told apart so: a search
/// would have to choose the value of each source of a wide gate or of a long chain.
pub(crate) fn refuted(
    alloc: Global,
    refuter: &mut Refuter,
    question: &Question<'_>,
    effort: Effort,
    found: &mut Vec<Vector>,
) -> Result<Option<Tree>, NoMemory>
    requires serves { IsServing (net_of question.now.graph.now) refuter.old }
    requires effort { IsEffort effort }
    ensures accepted { IfOk result (λ tree. IfSome tree (AreAccepted (net_of question.now.graph.now) question.now.fault)) }
    ensures serves { OnOk result (IsServing (net_of question.now.graph.now) refuter.new) }
{
    if let Some(vector) = completed(alloc, refuter, question)? {
        found.push(vector)?;
        return Ok(None);
    }
    if let Some(tree) = refuter.refute(question, effort.depth)? {
        return Ok(Some(tree));
    }
    searched(alloc, question, effort, found)
}
