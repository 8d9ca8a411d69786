// Leaving out of a tree what its ends don't rest on.
ghost use Rattle.std.specs.Prelude.{◌≡◌, ◌≤◌, ◌⊎◌, IfOk, length};
ghost use Rattle.gate_graph.specs.Circuit.{net_of};
ghost use Rattle.refutation.specs.Branches.{AreAccepted};

use crate::account::Account;
use crate::check::check_tree;
use crate::kept::Kept;
use crate::refusals::CheckRefusal;
use gate_graph::Question;
use refutation::following::PinWalk;
use refutation::site::Site;
use refutation::{Form, Item, Tree};
use rm_base::NoMemory;
use std::alloc::Global;

// What is left where what nothing rests on is left out; None where some item is none of a closed tree.
fn kept_of(
    alloc: Global,
    question: &Question<'_>,
    items: &[Item],
) -> Result<Option<Tree>, NoMemory> {
    let mut site = Site::new(alloc, question.graph.node_bound())?;
    site.mark(question.graph, question.fault.gate);
    let mut account = Account::new(alloc, question.graph.node_bound())?;
    let mut walk = PinWalk::new(question.graph);
    for item in items {
        if !account.read(question, &site, &mut walk, *item)? {
            return Ok(None);
        }
    }
    let mut kept = Kept::new(alloc, question.graph.node_bound())?;
    for _ in 0..account.len() {
        if let Some(step) = account.pop() {
            kept.go_back(&mut account, step)?;
        }
    }
    let tree = kept.tree(alloc)?;
    Ok(Some(tree))
}

/// The tree without the lines and the splits that its ends don't rest on. What is left is put before the checker, and the
/// tree stays as it is where that isn't accepted as closed. It takes the time of checking both trees.
pub fn shorten_tree(alloc: Global, question: &Question<'_>, tree: Tree) -> Result<Tree, NoMemory>
    ensures accepted { AreAccepted (net_of question.now.graph.now) question.now.fault tree → IfOk result (λ t. AreAccepted (net_of question.now.graph.now) question.now.fault t) }
    ensures same { IfOk result (λ t. (t ≡ tree) ⊎ AreAccepted (net_of question.now.graph.now) question.now.fault t) }
    ensures fewer { IfOk result (λ t. length t ≤ length tree) }
{
    let Some(short) = kept_of(alloc, question, tree.items())? else {
        return Ok(tree);
    };
    if short.items().len() >= tree.items().len() {
        return Ok(tree);
    }
    match check_tree(alloc, question, &short, Form::Closed) {
        Ok(_) => Ok(short),
        Err(CheckRefusal::NoMemory) => Err(NoMemory),
        Err(_) => Ok(tree),
    }
}
