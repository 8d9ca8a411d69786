// The verdicts on the faults of the last net.
ghost use Rattle.std.specs.Prelude.{◌≡◌, ◌↔◌, IsTrue, IfOk, IfSome, List, ℕ, length, map};
ghost use Rattle.gate_graph.specs.Circuit.{net_of};
ghost use Rattle.gate_net.specs.Net.{Net, source_count};
ghost use Rattle.gate_net.specs.Faults.{IsTest, faults_of};
ghost use Rattle.fault_sim.specs.LaneStates.{Fits};
ghost use Rattle.journal_text.specs.declared.record.Record.TheVariants as kept;
ghost use Rattle.refutation.specs.declared.items.Item.{Item};
ghost use Rattle.wire_edit.specs.declared.steps.Step.{Step as StepValue};
ghost use Rattle.journal_check.specs.Inner.ReplayStates.{Expects, IsSettling, VerdictSays, head_of, left_of};
ghost use Rattle.journal_check.specs.Replaying.{VerdictLeads, refused};
ghost use Rattle.journal_check.specs.Inner.Replaying.{SpentSays};
ghost use Rattle.journal_check.specs.Inner.Vectors.{bit_word};
ghost use Rattle.journal_check.specs.Inner.Batches.{IsBatch};
ghost use Rattle.std.specs.List.{AllByRecursion};

use crate::batches::Batches;
use crate::editing::why_tree;
use crate::refusal::Why;
use fault_sim::Lanes;
use gate_graph::{Graph, Question, faults_of};
use journal_text::Record;
use refutation::{Form, Tree};
use refutation_check::TreeChecker;
use rm_base::{Fault, NoMemory, Vector};
use std::alloc::Global;

/// The faults of the frozen net, how many of them are settled, the vectors that were simulated 64 at a time, and lanes for a
/// vector that is in none of these, with a word for each source.
#[derive(Drop)]
pub(crate) struct Settling {
    faults: Vec<Fault>,
    settled: usize,
    batches: Batches,
    lanes: Lanes,
    words: Vec<u64>,
}

// Puts the vector into the first lane.
fn fill(words: &mut Vec<u64>, vector: &[bool])
    requires { length words.old.items ≡ length vector.now }
    ensures { words.new.items ≡ map bit_word vector.now }
{
    for at in 0..words.len() {
        words[at] = u64::from(vector[at]);
    }
}

// Whether the vector, which has a value for each source, detects the fault, simulated alone.
fn detects_alone(
    lanes: &mut Lanes,
    words: &mut Vec<u64>,
    question: &Question<'_>,
    vector: &Vector,
) -> bool
    requires fits { Fits lanes.old (net_of question.now.graph.now) }
    requires words { length words.old.items ≡ source_count (net_of question.now.graph.now) }
    requires size { length vector.now ≡ source_count (net_of question.now.graph.now) }
    ensures hit { IsTrue result ↔ IsTest (net_of question.now.graph.now) question.now.fault vector.now }
    ensures fits { Fits lanes.new (net_of question.now.graph.now) }
    ensures words { length words.new.items ≡ source_count (net_of question.now.graph.now) }
{
    fill(words, vector.values());
    let found = lanes.detect64(question, words.as_slice());
    found & 1 == 1
}

// Whether the vector detects the fault, by the batch in which it stands; it is simulated with others first, if it stands in none.
fn detects_by_batch(
    batches: &mut Batches,
    question: &Question<'_>,
    vector: &Vector,
    ahead: &[Vector],
) -> Option<bool>
    requires batches { AllByRecursion (IsBatch (net_of question.now.graph.now)) batches.old.kept.items }
    requires size { length vector.now ≡ source_count (net_of question.now.graph.now) }
    ensures batches { AllByRecursion (IsBatch (net_of question.now.graph.now)) batches.new.kept.items }
    ensures found { IfSome result (λ found. IsTrue found ↔ IsTest (net_of question.now.graph.now) question.now.fault vector.now) }
{
    if let Some(found) = batches.detects(question, vector.values()) {
        return Some(found);
    }
    match batches.simulate(question.graph, vector.values(), ahead) {
        Ok(()) => batches.detects(question, vector.values()),
        Err(NoMemory) => None,
    }
}

// Whether the tree is that of a search of the fault that spent exactly its budget.
fn spends(
    checker: &mut TreeChecker,
    question: &Question<'_>,
    tree: &Tree,
    budget: u32,
) -> Result<(), Why>
    ensures { SpentSays (net_of question.now.graph.now) budget question.now.fault tree.now result }
{
    if let Err(NoMemory) = checker.reserve(question.graph.node_bound()) {
        return Err(Why::NoMemory);
    }
    let shape = match checker.check(question, tree, Form::Partial) {
        Ok(shape) => shape,
        Err(refusal) => return Err(why_tree(refusal)),
    };
    if shape.edges != u64::from(budget) {
        return Err(Why::SpentShort {
            edges: shape.edges,
            budget,
        });
    }
    Ok(())
}

impl Settling {
    /// All faults of the net are to come.
    pub(crate) fn new(alloc: Global, graph: &Graph) -> Result<Settling, NoMemory>
        ensures left { IfOk result (λ s. left_of s ≡ faults_of (net_of graph.now)) }
        ensures settling { IfOk result (λ s. IsSettling (net_of graph.now) s) }
    {
        let faults = faults_of(alloc, graph)?;
        let lanes = Lanes::new(alloc, graph)?;
        let words = vec![in alloc; 0u64; graph.source_count() as usize]?;
        Ok(Settling {
            faults,
            settled: 0,
            batches: Batches::new(alloc),
            lanes,
            words,
        })
    }

    /// The fault that comes next.
    pub(crate) fn next(&self) -> Option<Fault>
        ensures { result ≡ head_of (left_of self.now) }
    {
        self.faults.get(self.settled).copied()
    }

    // The next fault, which is to be that one.
    fn expect_fault(&self, given: Fault) -> Result<Fault, Why>
        ensures { Expects (left_of self.now) given result }
    {
        let Some(fault) = self.next() else {
            return Err(Why::RecordExtra);
        };
        if fault != given {
            return Err(Why::FaultMissing { fault });
        }
        Ok(fault)
    }

    // Whether the vector has a value for each source and detects the fault.
    fn detects(&mut self, question: &Question<'_>, vector: &Vector, ahead: &[Vector]) -> bool
        requires { IsSettling (net_of question.now.graph.now) self.old }
        ensures hit { IsTrue result ↔ IsTest (net_of question.now.graph.now) question.now.fault vector.now }
        ensures settling { IsSettling (net_of question.now.graph.now) self.new }
        ensures faults { (self.new.faults ≡ self.old.faults) × (self.new.settled ≡ self.old.settled) }
    {
        if vector.len() != self.words.len() {
            return false;
        }
        match detects_by_batch(&mut self.batches, question, vector, ahead) {
            Some(found) => found,
            None => detects_alone(&mut self.lanes, &mut self.words, question, vector),
        }
    }

    // Settles the next fault by a vector.
    fn settle_by_vector(
        &mut self,
        graph: &Graph,
        given: Fault,
        vector: &Vector,
        ahead: &[Vector],
    ) -> Result<(), Why>
        requires { IsSettling (net_of graph.now) self.old }
        ensures settling { IsSettling (net_of graph.now) self.new }
        ensures says { (budget : ℕ) → VerdictSays (net_of graph.now) budget (left_of self.old) (kept.Hit given vector.now) (left_of self.new) result }
    {
        let fault = self.expect_fault(given)?;
        let question = Question { graph, fault };
        if !self.detects(&question, vector, ahead) {
            return Err(Why::VectorMisses);
        }
        self.settled += 1;
        Ok(())
    }

    // Settles the next fault by the tree of a search.
    fn settle_by_search(
        &mut self,
        checker: &mut TreeChecker,
        graph: &Graph,
        given: Fault,
        tree: &Tree,
        budget: u32,
    ) -> Result<(), Why>
        requires { IsSettling (net_of graph.now) self.old }
        ensures settling { IsSettling (net_of graph.now) self.new }
        ensures says { VerdictSays (net_of graph.now) budget (left_of self.old) (kept.Spent given tree.now) (left_of self.new) result }
    {
        let fault = self.expect_fault(given)?;
        spends(checker, &Question { graph, fault }, tree, budget)?;
        self.settled += 1;
        Ok(())
    }

    /// Why a step comes too late.
    pub(crate) fn late(&self) -> Why
        ensures { (net : Net) (budget : ℕ) (step : StepValue) (tree : List Item) → VerdictLeads net budget (left_of self.now) (kept.Step step tree) (refused result) }
    {
        match self.next() {
            Some(fault) => Why::FaultMissing { fault },
            None => Why::RecordExtra,
        }
    }

    /// Settles the next fault by a record. Vectors that are likely to follow save time; the result is the same with any.
    pub(crate) fn settle(
        &mut self,
        checker: &mut TreeChecker,
        graph: &Graph,
        given: &Record,
        budget: u32,
        ahead: &[Vector],
    ) -> Result<(), Why>
        requires { IsSettling (net_of graph.now) self.old }
        ensures settling { IsSettling (net_of graph.now) self.new }
        ensures says { VerdictSays (net_of graph.now) budget (left_of self.old) given.now (left_of self.new) result }
    {
        match given {
            Record::Step { step: _, tree: _ } => Err(self.late()),
            Record::Hit { fault, vector } => {
                self.settle_by_vector(graph, *fault, vector, ahead)
            },
            Record::Spent { fault, tree } => self.settle_by_search(
                checker, graph, *fault, tree, budget,
            ),
        }
    }
}
