// Closing a set of facts.
ghost use Rattle.std.specs.Prelude.{◌≡◌, ◌≤◌, ◌↔◌, ◌++◌, [], None, IfOk, OnOk, OnErr, length, replicate, false};
ghost use Rattle.gate_net.specs.Net.{IsLive};
ghost use Rattle.gate_graph.specs.Circuit.{net_of};
ghost use Rattle.refutation.specs.Closing.{Clashes, IsClashFree};
ghost use Rattle.refutation.specs.Facts.{known_good, with_fact};
ghost use Rattle.refutation.specs.FactSets.{held_by};
ghost use Rattle.refutation.specs.Sites.{IsSiteOf};
ghost use Rattle.implications.specs.Inner.Beginning.{AreDoneOutside};
ghost use Rattle.implications.specs.Outcomes.{IsClash, IsClosing, IsGrown, clash_items};
ghost use Rattle.implications.specs.Outside.{AppendsOutside};
ghost use Rattle.implications.specs.Inner.Settled.{IsReady};
ghost use Rattle.implications.specs.Inner.Tallies.{AreTallied};
ghost use Rattle.implications.specs.Inner.Trail.{IsLonger};
ghost use Rattle.implications.specs.Inner.Working.{Closes, IsPending, Keeps, Works};

use crate::beginning::{begin, write_outside};
use crate::first_lines::{give_at_fault, give_on_chain, give_outside};
use crate::log::{Log, start};
use crate::outcome::Closed;
use crate::settling::work_off;
use crate::state::Engine;
use crate::tallies::Tallies;
use gate_graph::Question;
use refutation::site::Site;
use refutation::worklist::Worklist;
use refutation::{Fact, FactSet, Item, Line, Tree, TreeBuilder};
use rm_base::{NoMemory, NodeId};
use std::alloc::Global;

/// Adds all to which lines lead, or up to a clash, whose node is given; what isn't reached is held already, and each node
/// is on the worklist or settled. The stuck pin's driver comes last here, and so its readers first on the worklist.
pub(crate) fn add_all_lines(
    question: &Question<'_>,
    facts: &mut FactSet,
    log: &mut Log,
    worklist: &mut Worklist,
    tallies: &mut Tallies,
) -> Result<Option<NodeId>, NoMemory>
    requires ready { IsReady (net_of question.now.graph.now) question.now.fault facts.old }
    requires free { IsClashFree (held_by facts.old) }
    requires outside { AreDoneOutside (net_of question.now.graph.now) question.now.fault facts.old }
    requires pending { IsPending (net_of question.now.graph.now) question.now.fault facts.old worklist.old }
    requires worklist { length (net_of question.now.graph.now).nodes ≤ length worklist.old }
    requires room { length (net_of question.now.graph.now).nodes ≤ length tallies.old.counted }
    requires tallied { AreTallied (net_of question.now.graph.now) (held_by facts.old) question.now.fault.position tallies.old }
    ensures works { OnOk result (Works (net_of question.now.graph.now) question.now.fault facts.old log.old.lines.items facts.new log.new.lines.items) }
    ensures keeps { Keeps facts.old log.old.trail.items facts.new log.new.trail.items }
    ensures closes { IfOk result (Closes (net_of question.now.graph.now) question.now.fault facts.new) }
    ensures worklist { length worklist.new ≡ length worklist.old }
    ensures room { length tallies.new.counted ≡ length tallies.old.counted }
{
    if let Some(clash) = give_on_chain(question, facts, log, worklist, tallies)? {
        return Ok(Some(clash));
    }
    if let Some(clash) = give_at_fault(question, facts, log, worklist, tallies)? {
        return Ok(Some(clash));
    }
    work_off(question, facts, log, worklist, tallies)
}

// The same from any facts, over a worklist on which all nodes are put.
fn grow_all_lines(
    question: &Question<'_>,
    site: &Site,
    facts: &mut FactSet,
    log: &mut Log,
    worklist: &mut Worklist,
    tallies: &mut Tallies,
) -> Result<Option<NodeId>, NoMemory>
    requires ready { IsReady (net_of question.now.graph.now) question.now.fault facts.old }
    requires free { IsClashFree (held_by facts.old) }
    requires site { IsSiteOf (net_of question.now.graph.now) question.now.fault.gate.0 site.now }
    requires worklist { length (net_of question.now.graph.now).nodes ≤ length worklist.old }
    requires room { length (net_of question.now.graph.now).nodes ≤ length tallies.old.counted }
    requires uncounted { tallies.old.counted ≡ replicate (length tallies.old.counted) false }
    ensures works { OnOk result (Works (net_of question.now.graph.now) question.now.fault facts.old log.old.lines.items facts.new log.new.lines.items) }
    ensures keeps { Keeps facts.old log.old.trail.items facts.new log.new.trail.items }
    ensures closes { IfOk result (Closes (net_of question.now.graph.now) question.now.fault facts.new) }
    ensures worklist { length worklist.new ≡ length worklist.old }
    ensures room { length tallies.new.counted ≡ length tallies.old.counted }
{
    if let Some(clash) = give_outside(question, site, facts, log, worklist, tallies)? {
        return Ok(Some(clash));
    }
    worklist.add_all(question.graph.node_bound());
    add_all_lines(question, facts, log, worklist, tallies)
}

// The tree that was begun, with the lines, ended by a clash.
fn end_tree(tree: TreeBuilder, lines: &[Line], node: NodeId) -> Result<Tree, NoMemory>
    ensures { IfOk result (λ t. t ≡ tree ++ clash_items lines.now node) }
{
    let mut tree = tree;
    for line in lines {
        tree.push(Item::Line(*line))?;
    }
    tree.push(Item::Clash(node))?;
    Ok(tree.finish())
}

// Closes no facts, and logs how, but for what the faulty gate doesn't reach.
fn close_none(
    alloc: Global,
    question: &Question<'_>,
    site: &Site,
    log: &mut Log,
    worklist: &mut Worklist,
    tallies: &mut Tallies,
) -> Result<Closed, NoMemory>
    requires site { IsSiteOf (net_of question.now.graph.now) question.now.fault.gate.0 site.now }
    requires worklist { length (net_of question.now.graph.now).nodes ≤ length worklist.old }
    requires room { length (net_of question.now.graph.now).nodes ≤ length tallies.old.counted }
    requires uncounted { tallies.old.counted ≡ replicate (length tallies.old.counted) false }
    requires lines { log.old.lines.items ≡ [] }
    ensures closing { IfOk result (IsClosing (net_of question.now.graph.now) question.now.fault log.new.lines.items) }
    ensures trail { IsLonger log.old.trail.items log.new.trail.items }
    ensures worklist { length worklist.new ≡ length worklist.old }
    ensures room { length tallies.new.counted ≡ length tallies.old.counted }
{
    question.graph.well_formed();
    let mut held = begin(alloc, question, site, worklist)?;
    match add_all_lines(question, &mut held, log, worklist, tallies)? {
        Some(node) => {
            let mut tree = TreeBuilder::new(alloc);
            write_outside(question, site, &mut tree)?;
            let closed = end_tree(tree, log.lines.as_slice(), node)?;
            Ok(Closed::Clash(closed))
        }
        None => Ok(Closed::Open(held)),
    }
}

// Closes the facts, and logs how.
fn close_facts(
    alloc: Global,
    question: &Question<'_>,
    mut facts: FactSet,
    log: &mut Log,
    worklist: &mut Worklist,
    tallies: &mut Tallies,
    site: &Site,
) -> Result<Closed, NoMemory>
    requires ready { IsReady (net_of question.now.graph.now) question.now.fault facts }
    requires free { IsClashFree (held_by facts) }
    requires site { IsSiteOf (net_of question.now.graph.now) question.now.fault.gate.0 site.now }
    requires worklist { length (net_of question.now.graph.now).nodes ≤ length worklist.old }
    requires room { length (net_of question.now.graph.now).nodes ≤ length tallies.old.counted }
    requires uncounted { tallies.old.counted ≡ replicate (length tallies.old.counted) false }
    requires lines { log.old.lines.items ≡ [] }
    ensures grown { IfOk result (IsGrown (net_of question.now.graph.now) question.now.fault (held_by facts) log.new.lines.items) }
    ensures trail { IsLonger log.old.trail.items log.new.trail.items }
    ensures worklist { length worklist.new ≡ length worklist.old }
    ensures room { length tallies.new.counted ≡ length tallies.old.counted }
{
    match grow_all_lines(question, site, &mut facts, log, worklist, tallies)? {
        Some(node) => {
            let tree = end_tree(TreeBuilder::new(alloc), log.lines.as_slice(), node)?;
            Ok(Closed::Clash(tree))
        }
        None => Ok(Closed::Open(facts)),
    }
}

impl Engine {
    // Closes the facts.
    fn close_from(&mut self, question: &Question<'_>, facts: FactSet) -> Result<Closed, NoMemory>
        requires numbers { length (net_of question.now.graph.now).nodes ≤ self.old.numbers }
        requires size { length (net_of question.now.graph.now).nodes ≤ length facts }
        requires free { IsClashFree (held_by facts) }
        ensures grown { IfOk result (IsGrown (net_of question.now.graph.now) question.now.fault (held_by facts) self.new.lines) }
        ensures refused { OnErr result (self.new.lines ≡ []) }
        ensures numbers { self.new.numbers ≡ self.old.numbers }
        ensures trail { self.new.trail ≡ self.old.trail }
    {
        question.graph.well_formed();
        let mark = start(&mut self.log);
        self.site.mark(question.graph, question.fault.gate);
        let answer = close_facts(
            self.alloc,
            question,
            facts,
            &mut self.log,
            &mut self.worklist,
            &mut self.tallies,
            &self.site,
        );
        self.log.trail.truncate(mark);
        self.worklist.clear();
        self.tallies.clear();
        match answer {
            Ok(closed) => Ok(closed),
            Err(NoMemory) => {
                self.log.lines.clear();
                Err(NoMemory)
            }
        }
    }

    /// Closes no facts under every line of reasoning about the fault. What the faulty gate doesn't reach is held to be
    /// equal without a line: the engine's lines lead on from there, and `push_outside` gives the lines that lead there.
    /// A tree has both.
    pub fn close(&mut self, question: &Question<'_>) -> Result<Closed, NoMemory>
        requires numbers { length (net_of question.now.graph.now).nodes ≤ self.old.numbers }
        ensures closing { IfOk result (IsClosing (net_of question.now.graph.now) question.now.fault self.new.lines) }
        ensures exact { IfOk result (λ c. IsClash c ↔ Clashes (net_of question.now.graph.now) question.now.fault) }
        ensures refused { OnErr result (self.new.lines ≡ []) }
        ensures numbers { self.new.numbers ≡ self.old.numbers }
        ensures trail { self.new.trail ≡ self.old.trail }
    {
        let mark = start(&mut self.log);
        self.site.mark(question.graph, question.fault.gate);
        let answer = close_none(
            self.alloc,
            question,
            &self.site,
            &mut self.log,
            &mut self.worklist,
            &mut self.tallies,
        );
        self.log.trail.truncate(mark);
        self.worklist.clear();
        self.tallies.clear();
        match answer {
            Ok(closed) => Ok(closed),
            Err(NoMemory) => {
                self.log.lines.clear();
                Err(NoMemory)
            }
        }
    }

    /// Appends the lines by which what the faulty gate doesn't reach is equal: those that `close` leaves out.
    pub fn push_outside(
        &mut self,
        question: &Question<'_>,
        tree: &mut TreeBuilder,
    ) -> Result<(), NoMemory>
        requires numbers { length (net_of question.now.graph.now).nodes ≤ self.old.numbers }
        ensures appends { OnOk result (AppendsOutside (net_of question.now.graph.now) question.now.fault tree.old tree.new) }
        ensures lines { self.new.lines ≡ self.old.lines }
        ensures numbers { self.new.numbers ≡ self.old.numbers }
        ensures trail { self.new.trail ≡ self.old.trail }
    {
        question.graph.well_formed();
        self.site.mark(question.graph, question.fault.gate);
        write_outside(question, &self.site, tree)
    }

    /// Closes these facts and a good value of the node under every line of reasoning about the fault.
    pub fn grow(
        &mut self,
        question: &Question<'_>,
        facts: &FactSet,
        node: NodeId,
        value: bool,
    ) -> Result<Closed, NoMemory>
        requires numbers { length (net_of question.now.graph.now).nodes ≤ self.old.numbers }
        requires size { length (net_of question.now.graph.now).nodes ≤ length facts.now }
        requires free { IsClashFree (held_by facts.now) }
        requires node { IsLive (net_of question.now.graph.now) node.0 }
        requires unknown { known_good (held_by facts.now) node.0 ≡ None }
        ensures grown { IfOk result (IsGrown (net_of question.now.graph.now) question.now.fault (with_fact (held_by facts.now) node.0 (Fact.Good value)) self.new.lines) }
        ensures refused { OnErr result (self.new.lines ≡ []) }
        ensures numbers { self.new.numbers ≡ self.old.numbers }
        ensures trail { self.new.trail ≡ self.old.trail }
    {
        let Ok(mut more) = facts.copy(self.alloc) else {
            self.log.lines.clear();
            return Err(NoMemory);
        };
        more.insert(node, Fact::Good(value));
        self.close_from(question, more)
    }
}
