// A checker that serves tree after tree.
ghost use Rattle.std.specs.Prelude.{◌≡◌, ◌≢◌, ◌≤◌, ◌⊎◌, ◌∷◌, [], IfErr, IfOk, IsErrOf, IsOkUnless, OnErr, OnOk, length};
ghost use Rattle.gate_net.specs.Values.{IsUndetected};
ghost use Rattle.gate_graph.specs.Circuit.{net_of};
ghost use Rattle.refutation.specs.Facts.{none_held};
ghost use Rattle.refutation.specs.Sites.{Serves};
ghost use Rattle.refutation.specs.Stack.{AreReadToEnd, tree};
ghost use Rattle.refutation.specs.declared.items.Form.TheVariants.{Closed};
ghost use Rattle.refutation_check.specs.FirstRefusal.{IsAcceptedAs, IsFirstRefusal};
ghost use Rattle.refutation_check.specs.Shapes.{IsShapeOf};
ghost use Rattle.refutation_check.specs.Inner.Standing.{left_of};
ghost use Rattle.refutation_check.specs.Inner.Walks.{IsWalk};
ghost use Rattle.refutation_check.specs.declared.refusals.CheckRefusal.{CheckRefusal};
ghost use Rattle.refutation_check.specs.declared.refusals.CheckRefusal.TheVariants as refusal;

use crate::laws::refusals_agree;
use crate::reading::Walk;
use crate::refusals::CheckRefusal;
use crate::shape::shape_of;
use gate_graph::Question;
use refutation::asking::AskedSite;
use refutation::laws::{edges_are_few, readings_accept, trees_refute};
use refutation::{Form, Item, Shape, Tree};
use rm_base::NoMemory;
use std::alloc::Global;
use std::marker::Model;

/// Checks trees of any faults, one after another, on graphs that may change between them, for the node numbers below a
/// bound. It keeps its room: a tree takes memory only where it holds more facts than any tree before it, and for a
/// simulator at its first `Quiet`.
#[derive(Drop)]
pub struct TreeChecker {
    alloc: Global,
    numbers: u32,
    walk: Walk,
    site: AskedSite,
}

impl Model for TreeChecker {
    ghost use Rattle.std.specs.Prelude.{◌≡◌, ℕ, length};

    ghost Value = { ℕ };

    ghost view = { λ c. c.numbers };

    ghost invariant = { λ c. (c.walk.branches.trail.numbers ≡ c.numbers) × (length c.site.marks.reached ≡ c.numbers) };
}

// Reads the items to the end of the tree, or finds the first that is refused.
fn read_items(
    alloc: Global,
    question: &Question<'_>,
    items: &[Item],
    form: Form,
    site: &mut AskedSite,
    walk: &mut Walk,
) -> Result<(), CheckRefusal>
    requires site { Serves (net_of question.now.graph.now) question.now.fault.gate.0 site.old }
    requires walk { IsWalk (net_of question.now.graph.now) walk.old }
    requires left { left_of walk.old.branches ≡ tree none_held ∷ [] }
    ensures ok { OnOk result (AreReadToEnd (net_of question.now.graph.now) question.now.fault form items.now) }
    ensures err { IfErr result (λ r. r ≢ refusal.NoMemory → IsFirstRefusal (net_of question.now.graph.now) question.now.fault form items.now r) }
    ensures numbers { walk.new.branches.trail.numbers ≡ walk.old.branches.trail.numbers }
    ensures size { length site.new.marks.reached ≡ length site.old.marks.reached }
{
    let mut number = 0u64;
    for item in items {
        number += 1;
        walk.read(alloc, question, site, form, item, number)?;
    }
    if walk.branches.is_end() {
        return Ok(());
    }
    Err(CheckRefusal::Shape { item: number + 1 })
}

impl TreeChecker {
    /// For the node numbers below `numbers`.
    pub fn new(alloc: Global, numbers: u32) -> Result<TreeChecker, NoMemory>
        ensures { IfOk result (λ c. c ≡ numbers) }
    {
        let walk = Walk::new(alloc, numbers)?;
        let site = AskedSite::new(alloc, numbers)?;
        Ok(TreeChecker {
            alloc,
            numbers,
            walk,
            site,
        })
    }

    /// Makes room for the node numbers below `numbers`, and for twice as many as before where there were fewer.
    pub fn reserve(&mut self, numbers: u32) -> Result<(), NoMemory>
        ensures room { OnOk result (numbers ≤ self.new) }
        ensures more { self.old ≤ self.new }
        ensures err { OnErr result (self.new ≡ self.old) }
    {
        if numbers > self.numbers {
            let more = numbers.max(self.numbers.saturating_mul(2));
            *self = TreeChecker::new(self.alloc, more)?;
        }
        Ok(())
    }

    // Reads the items from a state in which nothing of an earlier tree is left.
    fn read(
        &mut self,
        question: &Question<'_>,
        items: &[Item],
        form: Form,
    ) -> Result<(), CheckRefusal>
        requires room { length (net_of question.now.graph.now).nodes ≤ self.old }
        ensures ok { OnOk result (AreReadToEnd (net_of question.now.graph.now) question.now.fault form items.now) }
        ensures err { IfErr result (λ r. r ≢ refusal.NoMemory → IsFirstRefusal (net_of question.now.graph.now) question.now.fault form items.now r) }
        ensures room { self.new ≡ self.old }
    {
        self.walk.begin();
        self.site.forget();
        read_items(
            self.alloc,
            question,
            items,
            form,
            &mut self.site,
            &mut self.walk,
        )
    }

    /// Checks a tree as `check_tree` does, in the time of its items: a line takes the time of one gate's pins, the first
    /// `Out` that of what the faulty gate reaches, the first `Chain` that of its chain, and a `Quiet` that of one forward
    /// reading.
    pub fn check(
        &mut self,
        question: &Question<'_>,
        tree: &Tree,
        form: Form,
    ) -> Result<Shape, CheckRefusal>
        requires room { length (net_of question.now.graph.now).nodes ≤ self.old }
        ensures accepted { OnOk result (IsAcceptedAs form (net_of question.now.graph.now) question.now.fault tree.now) }
        ensures complete { IsAcceptedAs form (net_of question.now.graph.now) question.now.fault tree.now → IsOkUnless result refusal.NoMemory }
        ensures shape { IfOk result (λ s. IsShapeOf tree.now s) }
        ensures refused { IfErr result (λ r. r ≢ refusal.NoMemory → IsFirstRefusal (net_of question.now.graph.now) question.now.fault form tree.now r) }
        ensures first { (r : CheckRefusal) → IsFirstRefusal (net_of question.now.graph.now) question.now.fault form tree.now r → IsErrOf result r ⊎ IsErrOf result refusal.NoMemory }
        ensures undetected { form ≡ Closed → OnOk result (IsUndetected (net_of question.now.graph.now) question.now.fault) }
        ensures room { self.new ≡ self.old }
    {
        question.graph.well_formed();
        trees_refute();
        edges_are_few();
        readings_accept();
        refusals_agree();
        let items = tree.items();
        self.read(question, items, form)?;
        Ok(shape_of(items, form))
    }
}
