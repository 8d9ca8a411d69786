// What trees show.
ghost use Rattle.std.specs.Prelude.{◌≡◌, ◌≢◌, IfErr, IfOk, OnOk};
ghost use Rattle.equal_evidence.specs.Shown.{IsSpentTree};
ghost use Rattle.gate_graph.specs.Circuit.{net_of};
ghost use Rattle.proof_check.specs.Flaws.{IsSpentFlaw, IsTreeFlaw};
ghost use Rattle.proof_check.specs.Inner.Trees.{IsRefusedTree, refusal_of_tree};
ghost use Rattle.proof_check.specs.declared.refusal.JudgeRefusal.TheVariants as refusal;
ghost use Rattle.refutation.specs.Branches.{AreAccepted};
ghost use Rattle.refutation_check.specs.FirstRefusal.{IsAcceptedAs};
ghost use Rattle.refutation_check.specs.Shapes.{IsShapeOf};

use crate::refusal::JudgeRefusal;
use gate_graph::Question;
use refutation::laws::edges_are_few;
use refutation::{Form, Shape, Tree};
use refutation_check::{CheckRefusal, TreeChecker};
use std::alloc::Global;

// The refusal of a tree, as one of a proof.
fn refusal_of_tree(found: CheckRefusal) -> JudgeRefusal
    ensures { result ≡ refusal_of_tree found }
{
    match found {
        CheckRefusal::NoMemory => JudgeRefusal::NoMemory,
        CheckRefusal::BadLine { .. }
        | CheckRefusal::NotClash { .. }
        | CheckRefusal::NotQuiet { .. }
        | CheckRefusal::BadSplit { .. }
        | CheckRefusal::Shape { .. } => JudgeRefusal::Tree(found),
    }
}

// Whether a tree is accepted, and how large it is.
fn check_as(
    alloc: Global,
    question: &Question<'_>,
    tree: &Tree,
    form: Form,
) -> Result<Shape, JudgeRefusal>
    ensures accepted { OnOk result (IsAcceptedAs form (net_of question.now.graph.now) question.now.fault tree.now) }
    ensures shape { IfOk result (λ s. IsShapeOf tree.now s) }
    ensures refused { IfErr result (λ r. r ≢ refusal.NoMemory → IsRefusedTree (net_of question.now.graph.now) question.now.fault form tree.now r) }
{
    let mut checker = TreeChecker::new(alloc, question.graph.node_bound())?;
    match checker.check(question, tree, form) {
        Ok(shape) => Ok(shape),
        Err(found) => Err(refusal_of_tree(found)),
    }
}

/// Whether the tree refutes the fault.
pub(crate) fn weigh_closed(
    alloc: Global,
    question: &Question<'_>,
    tree: &Tree,
) -> Result<(), JudgeRefusal>
    ensures shown { OnOk result (AreAccepted (net_of question.now.graph.now) question.now.fault tree.now) }
    ensures refused { IfErr result (λ r. r ≢ refusal.NoMemory → IsTreeFlaw (net_of question.now.graph.now) question.now.fault tree.now r) }
{
    let _shape = check_as(alloc, question, tree, Form::Closed)?;
    Ok(())
}

/// Whether the tree is that of a search for a test of the fault which spent exactly its budget.
pub(crate) fn weigh_spent(
    alloc: Global,
    question: &Question<'_>,
    tree: &Tree,
    budget: u32,
) -> Result<(), JudgeRefusal>
    ensures shown { OnOk result (IsSpentTree (net_of question.now.graph.now) question.now.fault budget tree.now) }
    ensures refused { IfErr result (λ r. r ≢ refusal.NoMemory → IsSpentFlaw (net_of question.now.graph.now) question.now.fault budget tree.now r) }
{
    edges_are_few();
    let shape = check_as(alloc, question, tree, Form::Partial)?;
    if shape.edges == u64::from(budget) {
        return Ok(());
    }
    Err(JudgeRefusal::SpentShort {
        edges: shape.edges,
        budget,
    })
}
