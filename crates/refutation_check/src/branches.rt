// The branch that is read and those that are still to be read.
ghost use Rattle.std.specs.Prelude.{◌≡◌, ◌≢◌, ◌<◌, ◌∷◌, ◌↔◌, [], List, false, not, true, IsTrue, IfErr, IfOk, OnOk};
ghost use Rattle.refutation.specs.Facts.{none_held, with_fact};
ghost use Rattle.refutation.specs.Stack.{Due, MayEnd, no_tree, tree, untried_for};
ghost use Rattle.refutation.specs.declared.items.Form.TheVariants.{Partial};
ghost use Rattle.refutation.specs.declared.reasoning.Fact.TheVariants.{Good};
ghost use Rattle.refutation_check.specs.Inner.Notes.{held_of};
ghost use Rattle.refutation_check.specs.Inner.Standing.{IsClimbing, Moves, left_of, others_of, split_left};
ghost use Rattle.refutation_check.specs.declared.refusals.CheckRefusal.TheVariants as refusal;

use crate::refusals::CheckRefusal;
use crate::trail::Trail;
use refutation::{Fact, Form};
use rm_base::{NoMemory, NodeId};
use std::alloc::Global;

/// A second branch that is still to be read: how many facts came before its split, and what was split on.
#[derive(Clone, Copy, Debug, PartialEq, Eq)]
pub(crate) struct Pending {
    mark: usize,
    node: NodeId,
    first: bool,
}

/// The facts of the branch that is read and the branches that are still to be read. Once a tree has come to its `Here`
/// or its end, only the number of those that are left counts.
#[derive(Debug, Drop)]
pub(crate) struct Branches {
    pub(crate) trail: Trail,
    pending: Vec<Pending>,
    pub(crate) stopped: bool,
}

impl Branches {
    /// One branch, without a fact, for the node numbers below `numbers`.
    pub(crate) fn new(alloc: Global, numbers: u32) -> Result<Branches, NoMemory>
        ensures { IfOk result (λ b. b.trail.numbers ≡ numbers) }
    {
        let trail = Trail::for_numbers(alloc, numbers)?;
        Ok(Branches {
            trail,
            pending: Vec::new(alloc),
            stopped: false,
        })
    }

    /// Goes back to one branch, without a fact, in the time of what is taken back.
    pub(crate) fn begin(&mut self)
        ensures climbs { IsClimbing self.new }
        ensures numbers { self.new.trail.numbers ≡ self.old.trail.numbers }
        ensures left { left_of self.new ≡ tree none_held ∷ [] }
    {
        self.trail.undo_to(0);
        self.pending.clear();
        self.stopped = false;
    }

    /// Whether nothing is left to be read.
    pub(crate) fn is_end(&self) -> bool
        ensures { IsTrue result ↔ (left_of self.now ≡ []) }
    {
        self.stopped && self.pending.is_empty()
    }

    /// Holds the fact too.
    pub(crate) fn hold(&mut self, node: NodeId, fact: Fact) -> Result<(), NoMemory>
        requires climbs { IsClimbing self.old }
        requires open { self.old.stopped ≡ false }
        requires node { node.0 < self.old.trail.numbers }
        ensures moves { OnOk result (Moves (tree (with_fact (held_of self.old.trail.entries) node.0 fact) ∷ others_of self.old.trail.entries self.old.pending.items) self.old self.new) }
        ensures numbers { self.new.trail.numbers ≡ self.old.trail.numbers }
    {
        self.trail.hold(node, fact)?;
        Ok(())
    }

    /// Goes into the first branch of a split.
    pub(crate) fn split(&mut self, node: NodeId, first: bool) -> Result<(), NoMemory>
        requires climbs { IsClimbing self.old }
        requires open { self.old.stopped ≡ false }
        requires node { node.0 < self.old.trail.numbers }
        ensures moves { OnOk result (Moves (split_left (held_of self.old.trail.entries) (others_of self.old.trail.entries self.old.pending.items) node.0 first) self.old self.new) }
        ensures numbers { self.new.trail.numbers ≡ self.old.trail.numbers }
    {
        let mark = self.trail.mark();
        self.pending.push(Pending { mark, node, first })?;
        self.trail.hold(node, Fact::Good(first))?;
        Ok(())
    }

    /// Goes to the next branch after the end of one, which is item `number`.
    pub(crate) fn end(&mut self, form: Form, number: u64) -> Result<(), CheckRefusal>
        requires climbs { IsClimbing self.old }
        requires open { self.old.stopped ≡ false }
        ensures ok { OnOk result (MayEnd form (others_of self.old.trail.entries self.old.pending.items) × Moves (others_of self.old.trail.entries self.old.pending.items) self.old self.new) }
        ensures err { IfErr result (λ r. r ≢ refusal.NoMemory → (MayEnd form (others_of self.old.trail.entries self.old.pending.items) → ⊥) × (r ≡ refusal.Shape number)) }
        ensures numbers { self.new.trail.numbers ≡ self.old.trail.numbers }
    {
        let Some(next) = self.pending.pop() else {
            if form == Form::Partial {
                return Err(CheckRefusal::Shape { item: number });
            }
            self.stopped = true;
            return Ok(());
        };
        self.trail.undo_to(next.mark);
        self.trail.hold(next.node, Fact::Good(!next.first))?;
        Ok(())
    }

    /// Stops at the `Here` of a partial tree, which is item `number`.
    pub(crate) fn stop(&mut self, form: Form, number: u64) -> Result<(), CheckRefusal>
        requires climbs { IsClimbing self.old }
        requires open { self.old.stopped ≡ false }
        ensures ok { OnOk result ((form ≡ Partial) × Moves (untried_for (others_of self.old.trail.entries self.old.pending.items)) self.old self.new) }
        ensures err { IfErr result (λ r. (form ≢ Partial) × (r ≡ refusal.Shape number)) }
        ensures numbers { self.new.trail.numbers ≡ self.old.trail.numbers }
    {
        match form {
            Form::Closed => Err(CheckRefusal::Shape { item: number }),
            Form::Partial => {
                self.stopped = true;
                Ok(())
            }
        }
    }

    /// Passes over a branch that wasn't entered, or tells whether there is none.
    pub(crate) fn pass(&mut self) -> bool
        requires climbs { IsClimbing self.old }
        requires stopped { self.old.stopped ≡ true }
        ensures passed { result ≡ true → (left : List Due) × ((left_of self.old ≡ no_tree ∷ left) × Moves left self.old self.new) }
        ensures none { result ≡ false → left_of self.old ≡ [] }
        ensures numbers { self.new.trail.numbers ≡ self.old.trail.numbers }
    {
        match self.pending.pop() {
            Some(_) => true,
            None => false,
        }
    }
}
