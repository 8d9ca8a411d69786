// Reading a tree item by item.
ghost use Rattle.std.specs.Prelude.{◌≡◌, ◌<◌, ◌≤◌, ◌∷◌, ◌↔◌, [], IfErr, IfOk, IsTrue, OnOk, false, length};
ghost use Rattle.gate_net.specs.Net.{Net};
ghost use Rattle.gate_graph.specs.Circuit.{net_of};
ghost use Rattle.refutation.specs.Branches.{HasNoGood};
ghost use Rattle.refutation.specs.FactSets.{held_by};
ghost use Rattle.refutation.specs.Facts.{AreOpposed, none_held};
ghost use Rattle.refutation.specs.Sites.{Serves};
ghost use Rattle.refutation.specs.Stack.{MaySplitIn, tree};
ghost use Rattle.rm_base.specs.declared.numbers.Fault.{Fault};
ghost use Rattle.refutation.specs.declared.items.Item.TheVariants as item;
ghost use Rattle.refutation_check.specs.Inner.Standing.{IsClimbing, MaySplitKind, left_of};
ghost use Rattle.refutation_check.specs.Inner.Walks.{Goes, IsWalk, Stops};

use crate::branches::Branches;
use crate::forward::is_quiet;
use crate::refusals::CheckRefusal;
use gate_graph::{Graph, Question};
use gate_net::Kind;
use refutation::asking::AskedSite;
use refutation::{Fact, FactSet, Form, Item, Line, conclude_asked};
use rm_base::{Fault, NoMemory, NodeId};
use std::alloc::Global;
use ternary_sim::Sim;

/// A reading of a tree: what is left to be read, with a simulator for quiet ends.
#[derive(Drop)]
pub(crate) struct Walk {
    pub(crate) branches: Branches,
    sim: Option<Sim>,
}

// Whether the node is one with two opposed facts.
fn is_opposed(facts: &FactSet, node: NodeId) -> bool
    ensures { IsTrue result ↔ AreOpposed (held_by facts.now) node.0 }
{
    if node.0 as usize >= facts.len() {
        return false;
    }
    facts.is_opposed(node)
}

// Whether a tree of the form may split on nodes of the kind.
fn may_split_kind(form: Form, kind: Kind) -> bool
    ensures { IsTrue result ↔ MaySplitKind form kind }
{
    match form {
        Form::Closed => kind.constant_value().is_none(),
        Form::Partial => kind == Kind::Source,
    }
}

// Whether no good fact is held on the node.
fn has_no_good(facts: &FactSet, node: NodeId) -> bool
    requires { node.0 < length facts.now }
    ensures { IsTrue result ↔ HasNoGood (held_by facts.now) node.0 }
{
    !facts.holds(node, Fact::Good(false)) && !facts.holds(node, Fact::Good(true))
}

// Whether a tree of the form may split on the node.
fn may_split(graph: &Graph, facts: &FactSet, form: Form, node: NodeId) -> bool
    requires { length (net_of graph.now).nodes ≤ length facts.now }
    ensures { IsTrue result ↔ MaySplitIn form (net_of graph.now) (held_by facts.now) node.0 }
{
    let Some(kind) = graph.kind(node) else {
        return false;
    };
    may_split_kind(form, kind) && has_no_good(facts, node)
}

impl Walk {
    /// Before the first item, for the node numbers below `numbers`.
    pub(crate) fn new(alloc: Global, numbers: u32) -> Result<Walk, NoMemory>
        ensures { IfOk result (λ w. w.branches.trail.numbers ≡ numbers) }
    {
        let branches = Branches::new(alloc, numbers)?;
        Ok(Walk {
            branches,
            sim: None,
        })
    }

    /// Goes back to before the first item, on any net that there is room for.
    pub(crate) fn begin(&mut self)
        ensures walk { (net : Net) → length net.nodes ≤ self.old.branches.trail.numbers → IsWalk net self.new }
        ensures numbers { self.new.branches.trail.numbers ≡ self.old.branches.trail.numbers }
        ensures left { left_of self.new.branches ≡ tree none_held ∷ [] }
    {
        self.branches.begin();
        self.sim = None;
    }

    // Reads a line.
    fn read_line(
        &mut self,
        question: &Question<'_>,
        site: &mut AskedSite,
        form: Form,
        line: &Line,
        number: u64,
    ) -> Result<(), CheckRefusal>
        requires site { Serves (net_of question.now.graph.now) question.now.fault.gate.0 site.old }
        requires walk { IsWalk (net_of question.now.graph.now) self.old }
        requires open { self.old.branches.stopped ≡ false }
        ensures ok { OnOk result (Goes (net_of question.now.graph.now) question.now.fault form (item.Line line.now) self.old self.new) }
        ensures err { IfErr result (λ r. Stops (net_of question.now.graph.now) question.now.fault form number (item.Line line.now) self.old r) }
        ensures numbers { self.new.branches.trail.numbers ≡ self.old.branches.trail.numbers }
        ensures site { Serves (net_of question.now.graph.now) question.now.fault.gate.0 site.new }
        ensures size { length site.new.marks.reached ≡ length site.old.marks.reached }
    {
        let facts = self.branches.trail.facts();
        let Some((node, fact)) = conclude_asked(question, facts, line, site) else {
            return Err(CheckRefusal::BadLine { item: number });
        };
        self.branches.hold(node, fact)?;
        Ok(())
    }

    // Reads a split.
    fn read_split(
        &mut self,
        graph: &Graph,
        form: Form,
        node: NodeId,
        first: bool,
        number: u64,
    ) -> Result<(), CheckRefusal>
        requires walk { IsWalk (net_of graph.now) self.old }
        requires open { self.old.branches.stopped ≡ false }
        ensures ok { (fault : Fault) → OnOk result (Goes (net_of graph.now) fault form (item.Split node first) self.old self.new) }
        ensures err { (fault : Fault) → IfErr result (λ r. Stops (net_of graph.now) fault form number (item.Split node first) self.old r) }
        ensures numbers { self.new.branches.trail.numbers ≡ self.old.branches.trail.numbers }
    {
        if !may_split(graph, self.branches.trail.facts(), form, node) {
            return Err(CheckRefusal::BadSplit { item: number });
        }
        self.branches.split(node, first)?;
        Ok(())
    }

    // Reads the end of a branch by two opposed facts.
    fn read_clash(&mut self, form: Form, node: NodeId, number: u64) -> Result<(), CheckRefusal>
        requires climbs { IsClimbing self.old.branches }
        requires open { self.old.branches.stopped ≡ false }
        ensures ok { (net : Net) (fault : Fault) → IsWalk net self.old → OnOk result (Goes net fault form (item.Clash node) self.old self.new) }
        ensures err { (net : Net) (fault : Fault) → IfErr result (λ r. Stops net fault form number (item.Clash node) self.old r) }
        ensures numbers { self.new.branches.trail.numbers ≡ self.old.branches.trail.numbers }
    {
        if !is_opposed(self.branches.trail.facts(), node) {
            return Err(CheckRefusal::NotClash { item: number });
        }
        self.branches.end(form, number)?;
        Ok(())
    }

    // Reads the end of a branch by forward reading.
    fn read_quiet(
        &mut self,
        alloc: Global,
        question: &Question<'_>,
        form: Form,
        number: u64,
    ) -> Result<(), CheckRefusal>
        requires walk { IsWalk (net_of question.now.graph.now) self.old }
        requires open { self.old.branches.stopped ≡ false }
        ensures ok { OnOk result (Goes (net_of question.now.graph.now) question.now.fault form item.Quiet self.old self.new) }
        ensures err { IfErr result (λ r. Stops (net_of question.now.graph.now) question.now.fault form number item.Quiet self.old r) }
        ensures numbers { self.new.branches.trail.numbers ≡ self.old.branches.trail.numbers }
    {
        if !is_quiet(alloc, question, self.branches.trail.facts(), &mut self.sim)? {
            return Err(CheckRefusal::NotQuiet { item: number });
        }
        self.branches.end(form, number)?;
        Ok(())
    }

    // Reads an item of an open branch.
    fn read_open(
        &mut self,
        alloc: Global,
        question: &Question<'_>,
        site: &mut AskedSite,
        form: Form,
        item: &Item,
        number: u64,
    ) -> Result<(), CheckRefusal>
        requires site { Serves (net_of question.now.graph.now) question.now.fault.gate.0 site.old }
        requires walk { IsWalk (net_of question.now.graph.now) self.old }
        requires open { self.old.branches.stopped ≡ false }
        ensures ok { OnOk result (Goes (net_of question.now.graph.now) question.now.fault form item.now self.old self.new) }
        ensures err { IfErr result (λ r. Stops (net_of question.now.graph.now) question.now.fault form number item.now self.old r) }
        ensures numbers { self.new.branches.trail.numbers ≡ self.old.branches.trail.numbers }
        ensures site { Serves (net_of question.now.graph.now) question.now.fault.gate.0 site.new }
        ensures size { length site.new.marks.reached ≡ length site.old.marks.reached }
    {
        match *item {
            Item::Line(line) => self.read_line(question, site, form, &line, number),
            Item::Split { node, first } => self.read_split(
                question.graph,
                form,
                node,
                first,
                number,
            ),
            Item::Clash(node) => self.read_clash(form, node, number),
            Item::Quiet => self.read_quiet(alloc, question, form, number),
            Item::Here => self.branches.stop(form, number),
            Item::Untried => Err(CheckRefusal::Shape { item: number }),
        }
    }

    /// Reads item `number`. The site of the fault is marked when a line first asks for it.
    pub(crate) fn read(
        &mut self,
        alloc: Global,
        question: &Question<'_>,
        site: &mut AskedSite,
        form: Form,
        item: &Item,
        number: u64,
    ) -> Result<(), CheckRefusal>
        requires site { Serves (net_of question.now.graph.now) question.now.fault.gate.0 site.old }
        requires walk { IsWalk (net_of question.now.graph.now) self.old }
        ensures ok { OnOk result (Goes (net_of question.now.graph.now) question.now.fault form item.now self.old self.new) }
        ensures err { IfErr result (λ r. Stops (net_of question.now.graph.now) question.now.fault form number item.now self.old r) }
        ensures numbers { self.new.branches.trail.numbers ≡ self.old.branches.trail.numbers }
        ensures site { Serves (net_of question.now.graph.now) question.now.fault.gate.0 site.new }
        ensures size { length site.new.marks.reached ≡ length site.old.marks.reached }
    {
        if !self.branches.stopped {
            return self.read_open(alloc, question, site, form, item, number);
        }
        if *item == Item::Untried && self.branches.pass() {
            return Ok(());
        }
        Err(CheckRefusal::Shape { item: number })
    }
}
