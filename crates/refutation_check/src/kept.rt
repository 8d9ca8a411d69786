// Going back over a tree from its end, and keeping what its ends rest on.
use crate::account::{Account, OpenSplit, Step};
use crate::premises::{Premise, Premises};
use refutation::{Fact, FactSet, Item, Line, Tree, TreeBuilder};
use rm_base::{NoMemory, NodeId};
use std::alloc::Global;

// Puts the fact among those that are wanted.
fn want_in(wanted: &mut FactSet, premise: Premise) {
    if (premise.node.0 as usize) < wanted.len() {
        wanted.insert(premise.node, premise.fact);
    }
}

// Takes the fact out of those that are wanted.
fn drop_from(wanted: &mut FactSet, premise: Premise) {
    if (premise.node.0 as usize) < wanted.len() {
        wanted.remove(premise.node, premise.fact);
    }
}

// Whether the fact is wanted, which is given there.
fn give_in(wanted: &mut FactSet, given: Premise) -> bool {
    if given.node.0 as usize >= wanted.len() {
        return false;
    }
    let is_wanted = wanted.holds(given.node, given.fact);
    wanted.remove(given.node, given.fact);
    is_wanted
}

/// What is kept of a tree that is gone through from its end.
#[derive(Drop)]
pub(crate) struct Kept {
    /// The facts that kept items rest on and that weren't given yet.
    wanted: FactSet,
    /// Those of them on which the first fact of a clash rests.
    wanted_first: FactSet,
    /// The items, the last one first.
    items: Vec<Item>,
    /// The lines of the branch that come before those among the items, the last one first.
    first_lines: Vec<Item>,
    /// Where the items of each branch begin that was gone through.
    branches: Vec<usize>,
    /// Each fact that came to be wanted.
    marked: Vec<Premise>,
}

impl Kept {
    /// Nothing, for node numbers below `numbers`.
    pub(crate) fn new(alloc: Global, numbers: u32) -> Result<Kept, NoMemory> {
        let wanted = FactSet::for_numbers(alloc, numbers)?;
        let wanted_first = FactSet::for_numbers(alloc, numbers)?;
        Ok(Kept {
            wanted,
            wanted_first,
            items: Vec::new(alloc),
            first_lines: Vec::new(alloc),
            branches: Vec::new(alloc),
            marked: Vec::new(alloc),
        })
    }

    /// Nothing again, in the time of what was wanted.
    pub(crate) fn clear(&mut self) {
        self.items.clear();
        self.first_lines.clear();
        self.branches.clear();
        for premise in &self.marked {
            drop_from(&mut self.wanted, *premise);
            drop_from(&mut self.wanted_first, *premise);
        }
        self.marked.clear();
    }

    // Wants the fact.
    fn want(&mut self, premise: Premise, first: bool) -> Result<(), NoMemory> {
        self.marked.push(premise)?;
        want_in(&mut self.wanted, premise);
        if first {
            want_in(&mut self.wanted_first, premise);
        }
        Ok(())
    }

    // Wants the premises behind the mark.
    fn want_all(
        &mut self,
        premises: &mut Premises,
        mark: usize,
        first: bool,
    ) -> Result<(), NoMemory> {
        for _ in mark..premises.mark() {
            if let Some(premise) = premises.pop_after(mark) {
                self.want(premise, first)?;
            }
        }
        Ok(())
    }

    // Wants what an end rests on, the last fact behind the others.
    fn want_end(&mut self, premises: &mut Premises, mark: usize) -> Result<(), NoMemory> {
        if let Some(last) = premises.pop_after(mark) {
            self.want(last, false)?;
        }
        self.want_all(premises, mark, true)
    }

    // Whether the fact of a branch of a split is wanted.
    fn give_split(&mut self, node: NodeId, value: bool) -> bool {
        let given = Premise {
            node,
            fact: Fact::Good(value),
        };
        give_in(&mut self.wanted_first, given);
        give_in(&mut self.wanted, given)
    }

    // Puts the lines of a branch together.
    fn join_lines(&mut self) -> Result<(), NoMemory> {
        self.items.append(&mut self.first_lines)?;
        Ok(())
    }

    // Drops the items of the second branch of a split, whose first one ends without its fact.
    fn drop_second(&mut self, from: usize, to: usize) -> Result<(), NoMemory> {
        let to = to.min(self.items.len());
        let mut first = self.items.split_off(to)?;
        self.items.truncate(from);
        self.items.append(&mut first)?;
        Ok(())
    }

    // Goes back over a line that gave a fact.
    fn line(
        &mut self,
        premises: &mut Premises,
        line: Line,
        given: Premise,
        mark: usize,
    ) -> Result<(), NoMemory> {
        let is_wanted = give_in(&mut self.wanted, given);
        let is_first = give_in(&mut self.wanted_first, given);
        if is_wanted {
            let lines = if is_first {
                &mut self.first_lines
            } else {
                &mut self.items
            };
            lines.push(Item::Line(line))?;
            self.want_all(premises, mark, is_first)?;
        }
        premises.cut(mark);
        Ok(())
    }

    // Goes back over a split.
    fn split(&mut self, node: NodeId, first: bool) -> Result<(), NoMemory> {
        self.join_lines()?;
        let Some(at) = self.branches.pop() else {
            return Ok(());
        };
        if self.give_split(node, first) {
            self.items.push(Item::Split { node, first })?;
            return Ok(());
        }
        let second = match self.branches.last() {
            Some(begins) => *begins,
            None => return Ok(()),
        };
        self.drop_second(second, at)
    }

    // Goes back over the end of a branch; false where it is the first one of a split and the second one doesn't rest on
    // its fact.
    fn end(&mut self, item: Item, next: Option<OpenSplit>) -> Result<bool, NoMemory> {
        self.join_lines()?;
        if let Some(split) = next {
            if !self.give_split(split.node, !split.first) {
                return Ok(false);
            }
        }
        self.branches.push(self.items.len())?;
        self.items.push(item)?;
        Ok(true)
    }

    /// Goes back over the last step.
    pub(crate) fn go_back(&mut self, account: &mut Account, step: Step) -> Result<(), NoMemory> {
        match step {
            Step::Gave { line, given, mark } => self.line(
                &mut account.premises,
                line,
                given,
                mark,
            )?,
            Step::Split { node, first } => self.split(node, first)?,
            Step::End { item, next, mark } => {
                if self.end(item, next)? {
                    return self.want_end(&mut account.premises, mark);
                }
                if let Some(split) = next {
                    account.cut(split);
                }
            }
        }
        Ok(())
    }

    /// The tree of the kept items.
    pub(crate) fn tree(&mut self, alloc: Global) -> Result<Tree, NoMemory> {
        let mut tree = TreeBuilder::new(alloc);
        self.join_lines()?;
        self.items.reverse();
        for item in &self.items {
            tree.push(*item)?;
        }
        Ok(tree.finish())
    }
}
