// Checking one tree.
ghost use Rattle.std.specs.Prelude.{◌≡◌, ◌≢◌, ◌⊎◌, IfErr, IfOk, IsErrOf, IsOkUnless, OnOk};
ghost use Rattle.gate_net.specs.Values.{IsUndetected};
ghost use Rattle.gate_graph.specs.Circuit.{net_of};
ghost use Rattle.refutation.specs.declared.items.Form.TheVariants.{Closed};
ghost use Rattle.refutation_check.specs.FirstRefusal.{IsAcceptedAs, IsFirstRefusal};
ghost use Rattle.refutation_check.specs.Shapes.{IsShapeOf};
ghost use Rattle.refutation_check.specs.declared.refusals.CheckRefusal.{CheckRefusal};
ghost use Rattle.refutation_check.specs.declared.refusals.CheckRefusal.TheVariants as refusal;

use crate::checker::TreeChecker;
use crate::refusals::CheckRefusal;
use gate_graph::Question;
use refutation::{Form, Shape, Tree};
use std::alloc::Global;

/// Checks a tree: Ok exactly where it is accepted in the form, with its shape, and else the first refusal. It reads the
/// items once, without recursion. An item's facts are taken back when its branch ends, and an item that follows the end of
/// the tree or the `Here` of a partial one is looked at for its shape alone. Room for the graph is made for this one call;
/// a `TreeChecker` keeps it.
pub fn check_tree(
    alloc: Global,
    question: &Question<'_>,
    tree: &Tree,
    form: Form,
) -> Result<Shape, CheckRefusal>
    ensures accepted { OnOk result (IsAcceptedAs form (net_of question.now.graph.now) question.now.fault tree.now) }
    ensures complete { IsAcceptedAs form (net_of question.now.graph.now) question.now.fault tree.now → IsOkUnless result refusal.NoMemory }
    ensures shape { IfOk result (λ s. IsShapeOf tree.now s) }
    ensures refused { IfErr result (λ r. r ≢ refusal.NoMemory → IsFirstRefusal (net_of question.now.graph.now) question.now.fault form tree.now r) }
    ensures first { (r : CheckRefusal) → IsFirstRefusal (net_of question.now.graph.now) question.now.fault form tree.now r → IsErrOf result r ⊎ IsErrOf result refusal.NoMemory }
    ensures undetected { form ≡ Closed → OnOk result (IsUndetected (net_of question.now.graph.now) question.now.fault) }
{
    let mut checker = TreeChecker::new(alloc, question.graph.node_bound())?;
    checker.check(question, tree, form)
}
