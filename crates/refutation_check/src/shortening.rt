// Making tree after tree of the items that were written for them.
ghost use Rattle.std.specs.Prelude.{◌≡◌, ◌≤◌, IfOk, IfSome, IsTrue, OnOk, length};
ghost use Rattle.gate_graph.specs.Circuit.{net_of};
ghost use Rattle.refutation.specs.Branches.{AreAccepted};
ghost use Rattle.refutation.specs.Sites.{IsSiteOf};

use crate::account::Account;
use crate::checker::TreeChecker;
use crate::kept::Kept;
use crate::refusals::CheckRefusal;
use gate_graph::{Graph, Question};
use refutation::following::{PinWalk, gate_pins};
use refutation::site::Site;
use refutation::{Fact, Form, Item, Line, Tree};
use rm_base::{NoMemory, NodeId};
use std::alloc::Global;
use std::marker::Model;

/// Makes trees of items that were written for them, one after another, on graphs that may change between them, for the
/// node numbers below a bound. It keeps its room.
#[derive(Drop)]
pub struct Shortener {
    alloc: Global,
    numbers: u32,
    site: Site,
    account: Account,
    kept: Kept,
    checker: TreeChecker,
}

impl Model for Shortener {
    ghost use Rattle.std.specs.Prelude.{◌≡◌, ℕ, length};

    ghost Value = { ℕ };

    ghost view = { λ s. s.numbers };

    ghost invariant = { λ s. (length s.site.reached ≡ s.numbers) × (s.checker ≡ s.numbers) };
}

// Reads that the node is equal, where the faulty gate doesn't reach it and that wasn't read.
fn ask_at(
    question: &Question<'_>,
    site: &Site,
    account: &mut Account,
    node: NodeId,
) -> Result<(), NoMemory>
    requires site { IsSiteOf (net_of question.now.graph.now) question.now.fault.gate.0 site.now }
    requires numbers { length (net_of question.now.graph.now).nodes ≤ account.old.trail.numbers }
    ensures { OnOk result (account.new.trail.numbers ≡ account.old.trail.numbers) }
{
    if account.holds(node, Fact::Equal) {
        return Ok(());
    }
    account.read_outside(question, site, node)
}

// Reads so what isn't reached of a node and its drivers.
fn ask_around(
    question: &Question<'_>,
    site: &Site,
    account: &mut Account,
    node: NodeId,
) -> Result<(), NoMemory>
    requires site { IsSiteOf (net_of question.now.graph.now) question.now.fault.gate.0 site.now }
    requires numbers { length (net_of question.now.graph.now).nodes ≤ account.old.trail.numbers }
    ensures { OnOk result (account.new.trail.numbers ≡ account.old.trail.numbers) }
{
    let Some(_kind) = question.graph.kind(node) else {
        return Ok(());
    };
    ask_at(question, site, account, node)?;
    for driver in gate_pins(question.graph, node) {
        ask_at(question, site, account, driver)?;
    }
    Ok(())
}

// Reads so what isn't reached of the drivers that aren't held to differ.
fn ask_beside(
    question: &Question<'_>,
    site: &Site,
    account: &mut Account,
    node: NodeId,
) -> Result<(), NoMemory>
    requires site { IsSiteOf (net_of question.now.graph.now) question.now.fault.gate.0 site.now }
    requires numbers { length (net_of question.now.graph.now).nodes ≤ account.old.trail.numbers }
    ensures { OnOk result (account.new.trail.numbers ≡ account.old.trail.numbers) }
{
    let Some(_kind) = question.graph.kind(node) else {
        return Ok(());
    };
    for driver in gate_pins(question.graph, node) {
        if !account.holds(driver, Fact::Differs) {
            ask_at(question, site, account, driver)?;
        }
    }
    Ok(())
}

// Reads so the nodes of which the line's condition asks whether they are equal.
fn ask_for_line(
    question: &Question<'_>,
    site: &Site,
    account: &mut Account,
    walk: &mut PinWalk<'_>,
    line: Line,
) -> Result<(), NoMemory>
    requires site { IsSiteOf (net_of question.now.graph.now) question.now.fault.gate.0 site.now }
    requires numbers { length (net_of question.now.graph.now).nodes ≤ account.old.trail.numbers }
    requires walk { walk.old ≡ net_of question.now.graph.now }
    ensures numbers { OnOk result (account.new.trail.numbers ≡ account.old.trail.numbers) }
    ensures walk { walk.new ≡ walk.old }
{
    match line {
        Line::ToFaulty { node } | Line::ToGood { node } | Line::NotEqual { node } => {
            ask_at(question, site, account, node)
        }
        Line::EqualForward { node } | Line::DiffersBack { node, .. } => {
            ask_around(question, site, account, node)
        }
        Line::NotDiffers { node } => ask_beside(question, site, account, node),
        Line::Side { node, position } => match walk.driver(node, position) {
            Some(driver) => ask_at(question, site, account, driver),
            None => Ok(()),
        },
        Line::Act | Line::Site | Line::Chain { .. } | Line::Out { .. } => Ok(()),
        Line::Constant { .. } | Line::GoodForward { .. } | Line::GoodBack { .. } => Ok(()),
        Line::FaultyForward { .. } | Line::FaultyBack { .. } => Ok(()),
        Line::Compare { .. } => Ok(()),
    }
}

// Reads so what an item may rest on.
fn ask_for(
    question: &Question<'_>,
    site: &Site,
    account: &mut Account,
    walk: &mut PinWalk<'_>,
    item: Item,
) -> Result<(), NoMemory>
    requires site { IsSiteOf (net_of question.now.graph.now) question.now.fault.gate.0 site.now }
    requires numbers { length (net_of question.now.graph.now).nodes ≤ account.old.trail.numbers }
    requires walk { walk.old ≡ net_of question.now.graph.now }
    ensures numbers { OnOk result (account.new.trail.numbers ≡ account.old.trail.numbers) }
    ensures walk { walk.new ≡ walk.old }
{
    match item {
        Item::Line(line) => ask_for_line(question, site, account, walk, line),
        Item::Clash(node) => ask_at(question, site, account, node),
        Item::Split { .. } | Item::Quiet | Item::Here | Item::Untried => Ok(()),
    }
}

// Reads so what the items may rest on.
fn ask_for_all(
    question: &Question<'_>,
    site: &Site,
    account: &mut Account,
    items: &[Item],
) -> Result<(), NoMemory>
    requires site { IsSiteOf (net_of question.now.graph.now) question.now.fault.gate.0 site.now }
    requires numbers { length (net_of question.now.graph.now).nodes ≤ account.old.trail.numbers }
    ensures { OnOk result (account.new.trail.numbers ≡ account.old.trail.numbers) }
{
    let mut walk = PinWalk::new(question.graph);
    for item in items {
        ask_for(question, site, account, &mut walk, *item)?;
    }
    Ok(())
}

// Reads the items; false where one isn't of a closed tree, or a line's condition isn't met.
fn read_all(
    question: &Question<'_>,
    site: &Site,
    account: &mut Account,
    items: &[Item],
) -> Result<bool, NoMemory>
    requires site { IsSiteOf (net_of question.now.graph.now) question.now.fault.gate.0 site.now }
    requires numbers { length (net_of question.now.graph.now).nodes ≤ account.old.trail.numbers }
{
    let mut walk = PinWalk::new(question.graph);
    for item in items {
        if !account.read(question, site, &mut walk, *item)? {
            return Ok(false);
        }
    }
    Ok(true)
}

// What the ends of the items that were read rest on.
fn keep_all(account: &mut Account, kept: &mut Kept) -> Result<(), NoMemory> {
    for _ in 0..account.len() {
        if let Some(step) = account.pop() {
            kept.go_back(account, step)?;
        }
    }
    Ok(())
}

// What is left of the items where what nothing rests on is left out, behind lines by which nodes that aren't reached are
// equal; None where some item is none of a closed tree.
fn left_of(
    alloc: Global,
    question: &Question<'_>,
    site: &Site,
    account: &mut Account,
    kept: &mut Kept,
    items: &[Item],
) -> Result<Option<Tree>, NoMemory>
    requires site { IsSiteOf (net_of question.now.graph.now) question.now.fault.gate.0 site.now }
    requires numbers { length (net_of question.now.graph.now).nodes ≤ account.old.trail.numbers }
{
    account.clear();
    kept.clear();
    ask_for_all(question, site, account, items)?;
    if !read_all(question, site, account, items)? {
        return Ok(None);
    }
    keep_all(account, kept)?;
    let tree = kept.tree(alloc)?;
    Ok(Some(tree))
}

impl Shortener {
    /// For the node numbers below `numbers`.
    pub fn new(alloc: Global, numbers: u32) -> Result<Shortener, NoMemory>
        ensures { IfOk result (λ s. s ≡ numbers) }
    {
        Ok(Shortener {
            alloc,
            numbers,
            site: Site::new(alloc, numbers)?,
            account: Account::new(alloc, numbers)?,
            kept: Kept::new(alloc, numbers)?,
            checker: TreeChecker::new(alloc, numbers)?,
        })
    }

    /// Whether there is room for the node numbers of the graph.
    pub fn has_room(&self, graph: &Graph) -> bool
        ensures { IsTrue result → length (net_of graph.now).nodes ≤ self.now }
    {
        graph.node_bound() <= self.numbers
    }

    /// A tree of these items, which lead from what the faulty gate doesn't reach: the lines that lead there are put before
    /// them, but for those that nothing rests on, and lines and splits that the ends don't rest on are left out. What is
    /// left is put before the checker: None where that isn't accepted as closed. It takes the time of the items and of what
    /// the faulty gate reaches.
    pub fn tree(
        &mut self,
        question: &Question<'_>,
        items: &[Item],
    ) -> Result<Option<Tree>, NoMemory>
        requires room { length (net_of question.now.graph.now).nodes ≤ self.old }
        ensures accepted { IfOk result (λ t. IfSome t (AreAccepted (net_of question.now.graph.now) question.now.fault)) }
        ensures room { self.new ≡ self.old }
    {
        question.graph.well_formed();
        if self.account.numbers() < question.graph.node_bound() as usize {
            self.account = Account::new(self.alloc, self.numbers)?;
        }
        self.site.mark(question.graph, question.fault.gate);
        let Some(short) = left_of(
            self.alloc,
            question,
            &self.site,
            &mut self.account,
            &mut self.kept,
            items,
        )?
        else {
            return Ok(None);
        };
        match self.checker.check(question, &short, Form::Closed) {
            Ok(_) => Ok(Some(short)),
            Err(CheckRefusal::NoMemory) => Err(NoMemory),
            Err(_) => Ok(None),
        }
    }
}
