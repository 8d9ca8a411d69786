//! Refuting fault after fault, on a net that may change between them.
ghost use Rattle.std.specs.Prelude.{◌≡◌, ◌≤◌, ◌↔◌, IfOk, IsSome, IsTrue, OnOk, length, map};
ghost use Rattle.gate_net.specs.Edits.{IsSameBut};
ghost use Rattle.gate_net.specs.Net.{Net};
ghost use Rattle.gate_graph.specs.Circuit.{net_of};
ghost use Rattle.implications.specs.Bases.{IsFor};
ghost use Rattle.implications.specs.Outcomes.{IsOpen};
ghost use Rattle.refutation.specs.Branches.{AreAccepted};
ghost use Rattle.refutation.specs.Closing.{Clashes};
ghost use Rattle.refutation.specs.Facts.{none_held};
ghost use Rattle.refutation.specs.FactLists.{HasAllGoods};
ghost use Rattle.refutation.specs.FactSets.{held_by};
ghost use Rattle.refutation.specs.Learning.{LeadsToClash};
ghost use Rattle.recursive_learning.specs.Inner.Bodies.{IsBody};
ghost use Rattle.recursive_learning.specs.Serving.{HasAllRoom, IsMade, IsRefuted, IsServing, IsShut};
ghost use Rattle.recursive_learning.specs.Inner.Serving.{IsBodyTo};
ghost use Rattle.recursive_learning.specs.Watching.{HasRoom};

use crate::bodies::{clash_body, learned_body, whole_tree};
use crate::refuting::deepen;
use crate::watch::Watch;
use gate_graph::{Graph, Question};
use implications::Engine;
use implications::basis::Basis;
use refutation::{Fact, FactSet, Tree};
use refutation_check::Shortener;
use rm_base::{NoMemory, NodeId};
use std::alloc::Global;

/// Refutes stuck pins of one net after another, in the time of what the faults touch. It is fitted to a net by `fit`, and
/// serves it until that changes, which `follow` tells it.
#[derive(Drop)]
pub struct Refuter {
    alloc: Global,
    engine: Engine,
    basis: Basis,
    watch: Watch,
    shortener: Shortener,
}

// The items of a fault that leads to a clash at the depth, from what the faulty gate doesn't reach.
fn body_at(
    engine: &mut Engine,
    question: &Question<'_>,
    basis: &mut Basis,
    watch: &mut Watch,
    level: u8,
) -> Result<Tree, NoMemory>
    requires serves { IsFor (net_of question.now.graph.now) engine.old basis.old }
    requires room { HasRoom (net_of question.now.graph.now) watch.old }
    requires clash { LeadsToClash (net_of question.now.graph.now) question.now.fault level none_held }
    ensures body { IfOk result (IsBody (net_of question.now.graph.now) question.now.fault) }
    ensures serves { OnOk result (IsFor (net_of question.now.graph.now) engine.new basis.new) }
    ensures room { OnOk result (HasRoom (net_of question.now.graph.now) watch.new) }
{
    question.graph.well_formed();
    watch.forget();
    if let Some(node) = engine.open(question, basis)? {
        return clash_body(watch.alloc(), engine, question, node);
    }
    learned_body(engine, question, watch, level, &mut basis.facts)
}

// The items that lead to the first clash that is learned up to the depth, where lines lead to none.
fn learned_to(
    engine: &mut Engine,
    question: &Question<'_>,
    basis: &mut Basis,
    watch: &mut Watch,
    depth: u8,
) -> Result<Option<Tree>, NoMemory>
    requires serves { IsFor (net_of question.now.graph.now) engine.old basis.old }
    requires open { IsOpen (net_of question.now.graph.now) question.now.fault engine.old.lines basis.old.facts }
    requires room { HasRoom (net_of question.now.graph.now) watch.old }
    requires depth { depth ≤ 2 }
    ensures body { IfOk result (IsBodyTo (net_of question.now.graph.now) question.now.fault depth basis.new.facts) }
    ensures serves { OnOk result (IsFor (net_of question.now.graph.now) engine.new basis.new) }
    ensures room { OnOk result (HasRoom (net_of question.now.graph.now) watch.new) }
{
    question.graph.well_formed();
    watch.forget();
    let found = deepen(engine, question, &mut basis.facts, watch, depth)?;
    let Some(level) = found else {
        return Ok(None);
    };
    let body = body_at(engine, question, basis, watch, level)?;
    Ok(Some(body))
}

// The items that lead to the first clash up to the depth, from what the faulty gate doesn't reach: those of the lines that
// were taken, where lines lead to one.
fn body_to(
    engine: &mut Engine,
    question: &Question<'_>,
    basis: &mut Basis,
    watch: &mut Watch,
    depth: u8,
) -> Result<Option<Tree>, NoMemory>
    requires serves { IsFor (net_of question.now.graph.now) engine.old basis.old }
    requires room { HasRoom (net_of question.now.graph.now) watch.old }
    requires depth { depth ≤ 2 }
    ensures body { IfOk result (IsBodyTo (net_of question.now.graph.now) question.now.fault depth basis.new.facts) }
    ensures serves { OnOk result (IsFor (net_of question.now.graph.now) engine.new basis.new) }
    ensures room { OnOk result (HasRoom (net_of question.now.graph.now) watch.new) }
{
    if let Some(node) = engine.open(question, basis)? {
        let body = clash_body(watch.alloc(), engine, question, node)?;
        return Ok(Some(body));
    }
    learned_to(engine, question, basis, watch, depth)
}

// The tree of these items, with as few lines as they rest on; with all where the checker doesn't accept that.
fn tree_of(
    alloc: Global,
    engine: &mut Engine,
    question: &Question<'_>,
    shortener: &mut Shortener,
    body: &Tree,
) -> Result<Tree, NoMemory>
    requires numbers { length (net_of question.now.graph.now).nodes ≤ engine.old.numbers }
    requires room { length (net_of question.now.graph.now).nodes ≤ shortener.old }
    requires body { IsBody (net_of question.now.graph.now) question.now.fault body.now }
    ensures accepted { IfOk result (λ t. AreAccepted (net_of question.now.graph.now) question.now.fault t) }
    ensures numbers { engine.new.numbers ≡ engine.old.numbers }
    ensures trail { engine.new.trail ≡ engine.old.trail }
    ensures room { shortener.new ≡ shortener.old }
{
    if let Some(short) = shortener.tree(question, body.items())? {
        return Ok(short);
    }
    whole_tree(alloc, engine, question, body)
}

impl Refuter {
    /// For node numbers below `numbers`; it is to be fitted to a net.
    pub fn new(alloc: Global, numbers: u32) -> Result<Refuter, NoMemory>
        ensures { IfOk result (IsMade numbers) }
    {
        Ok(Refuter {
            alloc,
            engine: Engine::for_numbers(alloc, numbers)?,
            basis: Basis::new(alloc, numbers)?,
            watch: Watch::new(alloc, numbers)?,
            shortener: Shortener::new(alloc, numbers)?,
        })
    }

    /// One that is fitted to the net of the graph.
    pub fn for_graph(alloc: Global, graph: &Graph) -> Result<Refuter, NoMemory>
        ensures { IfOk result (IsServing (net_of graph.now)) }
    {
        let mut refuter = Refuter::new(alloc, graph.node_bound())?;
        refuter.fit(graph)?;
        Ok(refuter)
    }

    /// The work of its calls together, which a limit of work bounds: a unit for each fact that was held, and for each node that
    /// a faulty gate reaches.
    pub fn work_done(&self) -> u64 {
        self.engine.work_done()
    }

    // Whether there is room for the node numbers of the graph.
    fn has_room(&self, graph: &Graph) -> bool
        ensures { IsTrue result → HasAllRoom (net_of graph.now) self.now }
    {
        if !self.engine.has_room(graph) {
            return false;
        }
        if !self.shortener.has_room(graph) {
            return false;
        }
        self.basis.has_room(graph) && self.watch.has_room(graph)
    }

    // Makes room for the node numbers of the graph, where there is too little.
    fn make_room(&mut self, graph: &Graph) -> Result<(), NoMemory>
        ensures { OnOk result (HasAllRoom (net_of graph.now) self.new) }
    {
        if self.has_room(graph) {
            return Ok(());
        }
        let mut more = Refuter::new(self.alloc, graph.node_bound())?;
        more.engine.count_work(self.work_done());
        *self = more;
        Ok(())
    }

    /// Fits it to the net of the graph, which it serves from then on until that changes. It makes more room where there is
    /// too little, and goes over the whole net. After `NoMemory`, here or in another call, it is to be fitted again.
    pub fn fit(&mut self, graph: &Graph) -> Result<(), NoMemory>
        ensures serves { OnOk result (IsServing (net_of graph.now) self.new) }
    {
        self.make_room(graph)?;
        self.engine.forget();
        self.basis.fit(self.alloc, graph)?;
        Ok(())
    }

    /// Fits it to the net of the graph, which differs at these nodes alone from the one that it serves. It takes the time of
    /// these nodes and of what the last call led to; where there is too little room, it goes over the whole net as `fit` does.
    pub fn follow(&mut self, graph: &Graph, nodes: &[NodeId]) -> Result<(), NoMemory>
        requires before { (before : Net) × (IsServing before self.old × IsSameBut before (net_of graph.now) (map (λ n. n.0) nodes.now)) }
        ensures serves { OnOk result (IsServing (net_of graph.now) self.new) }
    {
        if !self.has_room(graph) {
            return self.fit(graph);
        }
        self.engine.rest(&mut self.basis);
        self.basis.follow(self.alloc, graph, nodes)?;
        Ok(())
    }

    /// Closes no facts under every line of reasoning about the fault; whether that is a clash. Where it isn't, `facts` are
    /// all to which lines lead.
    pub fn close(&mut self, question: &Question<'_>) -> Result<bool, NoMemory>
        requires serves { IsServing (net_of question.now.graph.now) self.old }
        ensures shut { IfOk result (IsShut (net_of question.now.graph.now) question.now.fault self.new.basis.facts) }
        ensures exact { IfOk result (λ clash. IsTrue clash ↔ Clashes (net_of question.now.graph.now) question.now.fault) }
        ensures serves { OnOk result (IsServing (net_of question.now.graph.now) self.new) }
    {
        Ok(self.engine.open(question, &mut self.basis)?.is_some())
    }

    /// Refutes a stuck pin by learning to the depth. A tree comes exactly where no set of facts without opposed facts is
    /// closed at that depth; what its ends don't rest on is left out of it. Else `facts` are the least such set. It looks for
    /// a clash at the smaller depths first.
    pub fn refute(&mut self, question: &Question<'_>, depth: u8) -> Result<Option<Tree>, NoMemory>
        requires serves { IsServing (net_of question.now.graph.now) self.old }
        requires depth { depth ≤ 2 }
        ensures refuted { IfOk result (IsRefuted (net_of question.now.graph.now) question.now.fault depth self.new.basis.facts) }
        ensures exact { IfOk result (λ t. IsSome t ↔ LeadsToClash (net_of question.now.graph.now) question.now.fault depth none_held) }
        ensures serves { OnOk result (IsServing (net_of question.now.graph.now) self.new) }
    {
        let found = body_to(
            &mut self.engine,
            question,
            &mut self.basis,
            &mut self.watch,
            depth,
        )?;
        let Some(body) = found else {
            return Ok(None);
        };
        let tree = tree_of(
            self.alloc,
            &mut self.engine,
            question,
            &mut self.shortener,
            &body,
        )?;
        Ok(Some(tree))
    }

    /// The facts that the last call left: where it found no clash, they are closed as it says.
    pub fn facts(&self) -> &FactSet
        ensures { result.now ≡ self.now.basis.facts }
    {
        &self.basis.facts
    }

    /// The facts that lines led to and that were learned, in order; each good value that is held is among them.
    pub fn added_facts(&self) -> &[(NodeId, Fact)]
        ensures added { result.now ≡ self.now.engine.trail }
        ensures goods { (net : Net) → IsServing net self.now → HasAllGoods (held_by self.now.basis.facts) result.now }
    {
        self.engine.added_facts(0)
    }
}
