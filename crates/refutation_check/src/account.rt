// What became of each item while a tree was read.
ghost use Rattle.std.specs.Prelude.{◌≡◌, ◌<◌, ◌≤◌, IfOk, OnOk, length};
ghost use Rattle.gate_graph.specs.Circuit.{net_of};
ghost use Rattle.refutation.specs.Sites.{IsSiteOf};

use crate::premises::{Premise, Premises};
use crate::trail::Trail;
use gate_graph::Question;
use refutation::following::PinWalk;
use refutation::site::Site;
use refutation::{Fact, Item, Line, conclude_along, conclude_marked};
use rm_base::{NoMemory, NodeId};
use std::alloc::Global;

/// A split whose second branch is still to be read: what was split on, and what there was before it.
#[derive(Clone, Copy)]
pub(crate) struct OpenSplit {
    pub(crate) node: NodeId,
    pub(crate) first: bool,
    facts: usize,
    steps: usize,
    premises: usize,
}

/// What an item came to. What it rests on begins at the mark.
#[derive(Clone, Copy)]
pub(crate) enum Step {
    /// A line that gave a new fact.
    Gave {
        line: Line,
        given: Premise,
        mark: usize,
    },
    /// A split of which both branches follow.
    Split {
        node: NodeId,
        first: bool,
    },
    /// The end of a branch, and the split whose second branch comes next.
    End {
        item: Item,
        next: Option<OpenSplit>,
        mark: usize,
    },
}

/// What came of the items that were read.
#[derive(Drop)]
pub(crate) struct Account {
    trail: Trail,
    open: Vec<OpenSplit>,
    steps: Vec<Step>,
    pub(crate) premises: Premises,
}

impl Account {
    /// Before the first item, for node numbers below `numbers`.
    pub(crate) fn new(alloc: Global, numbers: u32) -> Result<Account, NoMemory>
        ensures { IfOk result (λ a. a.trail.numbers ≡ numbers) }
    {
        let trail = Trail::for_numbers(alloc, numbers)?;
        Ok(Account {
            trail,
            open: Vec::new(alloc),
            steps: Vec::new(alloc),
            premises: Premises::new(alloc),
        })
    }

    /// Before the first item again, in the time of the facts that are held.
    pub(crate) fn clear(&mut self)
        ensures { self.new.trail.numbers ≡ self.old.trail.numbers }
    {
        self.trail.undo_to(0);
        self.open.clear();
        self.steps.clear();
        self.premises.cut(0);
    }

    /// For how many node numbers.
    pub(crate) fn numbers(&self) -> usize
        ensures { result ≡ self.now.trail.numbers }
    {
        self.trail.facts().len()
    }

    /// Whether that is held on the node.
    pub(crate) fn holds(&self, node: NodeId, fact: Fact) -> bool {
        if node.0 as usize >= self.trail.facts().len() {
            return false;
        }
        self.trail.facts().holds(node, fact)
    }

    /// How many items came to something.
    pub(crate) fn len(&self) -> usize {
        self.steps.len()
    }

    /// Takes the last step back.
    pub(crate) fn pop(&mut self) -> Option<Step> {
        self.steps.pop()
    }

    /// Takes back the split and what came after it.
    pub(crate) fn cut(&mut self, split: OpenSplit) {
        self.steps.truncate(split.steps);
        self.premises.cut(split.premises);
    }

    // Holds the fact too.
    fn hold(&mut self, node: NodeId, fact: Fact) -> Result<(), NoMemory>
        ensures { OnOk result (self.new.trail.numbers ≡ self.old.trail.numbers) }
    {
        if (node.0 as usize) < self.trail.facts().len() {
            self.trail.hold(node, fact)?;
        }
        Ok(())
    }

    // Holds what a line gives, where it isn't held, with what it rests on.
    fn take(&mut self, question: &Question<'_>, line: Line, given: Premise) -> Result<(), NoMemory>
        requires { given.node.0 < self.old.trail.numbers }
        ensures { OnOk result (self.new.trail.numbers ≡ self.old.trail.numbers) }
    {
        let facts = self.trail.facts();
        if facts.holds(given.node, given.fact) {
            return Ok(());
        }
        let mark = self.premises.mark();
        self.premises
            .ask_for_line(question, facts, &line, given.node)?;
        self.steps.push(Step::Gave { line, given, mark })?;
        self.trail.hold(given.node, given.fact)?;
        Ok(())
    }

    /// Reads that the node is equal, where the faulty gate doesn't reach it.
    pub(crate) fn read_outside(
        &mut self,
        question: &Question<'_>,
        site: &Site,
        node: NodeId,
    ) -> Result<(), NoMemory>
        requires site { IsSiteOf (net_of question.now.graph.now) question.now.fault.gate.0 site.now }
        requires numbers { length (net_of question.now.graph.now).nodes ≤ self.old.trail.numbers }
        ensures { OnOk result (self.new.trail.numbers ≡ self.old.trail.numbers) }
    {
        let line = Line::Out { node };
        let Some((node, fact)) = conclude_marked(question, self.trail.facts(), &line, site) else {
            return Ok(());
        };
        self.take(question, line, Premise { node, fact })
    }

    // Reads a line; false where its condition isn't met.
    fn read_line(
        &mut self,
        question: &Question<'_>,
        site: &Site,
        walk: &mut PinWalk<'_>,
        line: Line,
    ) -> Result<bool, NoMemory>
        requires site { IsSiteOf (net_of question.now.graph.now) question.now.fault.gate.0 site.now }
        requires numbers { length (net_of question.now.graph.now).nodes ≤ self.old.trail.numbers }
        requires walk { walk.old ≡ net_of question.now.graph.now }
        ensures numbers { OnOk result (self.new.trail.numbers ≡ self.old.trail.numbers) }
        ensures walk { walk.new ≡ walk.old }
    {
        let facts = self.trail.facts();
        let Some((node, fact)) = conclude_along(question, facts, &line, site, walk) else {
            return Ok(false);
        };
        self.take(question, line, Premise { node, fact })?;
        Ok(true)
    }

    // Goes into the first branch of a split.
    fn split(&mut self, node: NodeId, first: bool) -> Result<(), NoMemory>
        ensures { OnOk result (self.new.trail.numbers ≡ self.old.trail.numbers) }
    {
        let split = OpenSplit {
            node,
            first,
            facts: self.trail.mark(),
            steps: self.steps.len(),
            premises: self.premises.mark(),
        };
        self.open.push(split)?;
        self.steps.push(Step::Split { node, first })?;
        self.hold(node, Fact::Good(first))
    }

    // Goes to the next branch after the end of one, whose premises begin at the mark.
    fn end(&mut self, item: Item, mark: usize) -> Result<(), NoMemory>
        ensures { OnOk result (self.new.trail.numbers ≡ self.old.trail.numbers) }
    {
        let next = self.open.pop();
        self.steps.push(Step::End { item, next, mark })?;
        let Some(split) = next else {
            return Ok(());
        };
        self.trail.undo_to(split.facts.min(self.trail.mark()));
        self.hold(split.node, Fact::Good(!split.first))
    }

    /// Reads an item; false where it is none of a closed tree, or a line whose condition isn't met. The walk goes to the
    /// pins that lines name.
    pub(crate) fn read(
        &mut self,
        question: &Question<'_>,
        site: &Site,
        walk: &mut PinWalk<'_>,
        item: Item,
    ) -> Result<bool, NoMemory>
        requires site { IsSiteOf (net_of question.now.graph.now) question.now.fault.gate.0 site.now }
        requires numbers { length (net_of question.now.graph.now).nodes ≤ self.old.trail.numbers }
        requires walk { walk.old ≡ net_of question.now.graph.now }
        ensures numbers { OnOk result (self.new.trail.numbers ≡ self.old.trail.numbers) }
        ensures walk { walk.new ≡ walk.old }
    {
        let mark = self.premises.mark();
        match item {
            Item::Line(line) => return self.read_line(question, site, walk, line),
            Item::Split { node, first } => self.split(node, first)?,
            Item::Clash(node) => {
                self.premises.ask_for_clash(self.trail.facts(), node)?;
                self.end(item, mark)?;
            }
            Item::Quiet => {
                self.premises
                    .ask_for_sources(question.graph, self.trail.facts())?;
                self.end(item, mark)?;
            }
            Item::Here | Item::Untried => return Ok(false),
        }
        Ok(true)
    }
}
