// The pass through the faults of the main gates.
ghost use Rattle.std.specs.Prelude.{◌≡◌, ◌<◌, ◌≤◌, ◌+◌, ℕ, IfOk, IfSome, IsNone, OnOk, Some, slice_get};
ghost use Rattle.gate_graph.specs.Circuit.{net_of};
ghost use Rattle.fault_sim.specs.LaneStates.{Fits};
ghost use Rattle.gate_net.specs.Faults.{IsTest};
ghost use Rattle.gate_net.specs.Net.{Net};
ghost use Rattle.gate_net.specs.Values.{HasPin};
ghost use Rattle.rm_base.specs.declared.numbers.Fault.{Fault as FaultValue};
ghost use Rattle.podem.specs.Searchers.{Serves};
ghost use Rattle.recursive_learning.specs.Serving.{IsServing};
ghost use Rattle.refutation.specs.Detected.{HasOpenSet};
ghost use Rattle.wire_edit.specs.Work.{work};
ghost use Rattle.care_opt.specs.Done.{AreRecordsOf, IsRecordOf};
ghost use Rattle.care_opt.specs.Extract.{main_faults};
ghost use Rattle.care_opt.specs.Gated.{IsMainFault};
ghost use Rattle.care_opt.specs.Inner.Kept.{AreKept};
ghost use Rattle.care_opt.specs.Inner.Passing.{IsJudged, IsPassed};
ghost use Rattle.care_opt.specs.Inner.Working.{HasTree, Works};
ghost use Rattle.care_opt.specs.MainSteps.{IsMainTidy};

use crate::listing::list_faults;
use crate::refuting::is_refuted;
use crate::vectors::Vectors;
use crate::working::fix_main;
use candidate_vectors::complete;
use fault_sim::Lanes;
use gate_graph::{Graph, Question};
use journal_text::{Record, runs_join};
use podem::{Searcher, Verdict};
use recursive_learning::refuter::Refuter;
use refutation::detected::detected_faults_stay_open;
use rm_base::{Fault, Made, NoMemory, Vector};
use std::alloc::Global;
use wire_edit::Trial;

// What searches for tests on a graph, and what simulates it.
#[derive(Drop)]
struct Tools {
    searcher: Searcher,
    lanes: Lanes,
}

// Most faults are detected by a search of so few edges; a budget of no more asks for that search alone.
const FEW_EDGES: u32 = 16;

/// How a pass ended.
#[derive(Drop)]
pub(crate) enum Passed {
    /// Every fault has a vector or a spent search.
    Closed(Vec<Record>),
    /// A fault that no assignment detects.
    Refuted(Fault),
}

// What a search for a test of the fault leaves; None where no assignment detects it.
fn searched(
    searcher: &mut Searcher,
    question: &Question<'_>,
    budget: u32,
) -> Result<Option<Record>, NoMemory>
    requires serves { Serves searcher.old (net_of question.now.graph.now) }
    requires budget { 0 < budget }
    ensures record { IfOk result (λ r. IfSome r (IsRecordOf (net_of question.now.graph.now) budget question.now.fault)) }
    ensures refuted { IfOk result (λ r. IsNone r → HasTree (net_of question.now.graph.now) question.now.fault) }
    ensures serves { (net : Net) → Serves searcher.old net → Serves searcher.new net }
{
    let fault = question.fault;
    question.graph.well_formed();
    let verdict = searcher.search(question, budget)?;
    match verdict {
        Verdict::Detected(vector) => Ok(Some(Record::Hit { fault, vector })),
        Verdict::Refuted(_tree) => Ok(None),
        Verdict::Spent(tree) => Ok(Some(Record::Spent { fault, tree })),
    }
}

// A vector that completes the facts to which lines lead, and detects the fault.
fn complete_lines(
    alloc: Global,
    question: &Question<'_>,
    refuter: &mut Refuter,
    lanes: &mut Lanes,
) -> Result<Option<Vector>, NoMemory>
    requires refutes { IsServing (net_of question.now.graph.now) refuter.old }
    requires fits { Fits lanes.old (net_of question.now.graph.now) }
    ensures test { IfOk result (λ found. IfSome found (IsTest (net_of question.now.graph.now) question.now.fault)) }
    ensures refutes { OnOk result (IsServing (net_of question.now.graph.now) refuter.new) }
    ensures fits { (net : Net) → Fits lanes.old net → Fits lanes.new net }
{
    if refuter.close(question)? {
        return Ok(None);
    }
    complete(alloc, question, refuter.facts(), lanes)
}

// A vector that detects the fault: that of a search of few edges, or else one that completes what lines lead to.
fn detected_soon(
    alloc: Global,
    question: &Question<'_>,
    refuter: &mut Refuter,
    tools: &mut Tools,
) -> Result<Option<Vector>, NoMemory>
    requires refutes { IsServing (net_of question.now.graph.now) refuter.old }
    requires searches { Serves tools.old.searcher (net_of question.now.graph.now) }
    requires fits { Fits tools.old.lanes (net_of question.now.graph.now) }
    ensures test { IfOk result (λ found. IfSome found (IsTest (net_of question.now.graph.now) question.now.fault)) }
    ensures refutes { OnOk result (IsServing (net_of question.now.graph.now) refuter.new) }
    ensures searches { (net : Net) → Serves tools.old.searcher net → Serves tools.new.searcher net }
    ensures fits { (net : Net) → Fits tools.old.lanes net → Fits tools.new.lanes net }
{
    match tools.searcher.search(question, FEW_EDGES)? {
        Verdict::Detected(vector) => Ok(Some(vector)),
        Verdict::Refuted(_tree) => Ok(None),
        Verdict::Spent(_tree) => complete_lines(alloc, question, refuter, &mut tools.lanes),
    }
}

// What is found of a fault: a vector that is found soon, or else what a search leaves; None where no assignment detects it.
fn sought(
    alloc: Global,
    question: &Question<'_>,
    refuter: &mut Refuter,
    tools: &mut Tools,
    budget: u32,
) -> Result<Option<Record>, NoMemory>
    requires refutes { IsServing (net_of question.now.graph.now) refuter.old }
    requires searches { Serves tools.old.searcher (net_of question.now.graph.now) }
    requires fits { Fits tools.old.lanes (net_of question.now.graph.now) }
    requires budget { 0 < budget }
    ensures record { IfOk result (λ r. IfSome r (IsRecordOf (net_of question.now.graph.now) budget question.now.fault)) }
    ensures refuted { IfOk result (λ r. IsNone r → HasTree (net_of question.now.graph.now) question.now.fault) }
    ensures refutes { OnOk result (IsServing (net_of question.now.graph.now) refuter.new) }
    ensures searches { (net : Net) → Serves tools.old.searcher net → Serves tools.new.searcher net }
    ensures fits { (net : Net) → Fits tools.old.lanes net → Fits tools.new.lanes net }
{
    if budget > FEW_EDGES {
        if let Some(vector) = detected_soon(alloc, question, refuter, tools)? {
            return Ok(Some(Record::Hit {
                fault: question.fault,
                vector,
            }));
        }
    }
    searched(&mut tools.searcher, question, budget)
}

// A kept vector that detects the fault, which then no depth refutes.
fn known_test(
    alloc: Global,
    question: &Question<'_>,
    vectors: &mut Vectors,
    tools: &mut Tools,
) -> Result<Option<Vector>, NoMemory>
    requires kept { AreKept vectors.old (net_of question.now.graph.now) }
    requires fits { Fits tools.old.lanes (net_of question.now.graph.now) }
    ensures test { IfOk result (λ found. IfSome found (IsTest (net_of question.now.graph.now) question.now.fault)) }
    ensures open_sets { IfOk result (λ found. IfSome found (λ _. (depth : ℕ) → HasOpenSet (net_of question.now.graph.now) question.now.fault depth)) }
    ensures kept { AreKept vectors.new (net_of question.now.graph.now) }
    ensures searches { tools.new.searcher ≡ tools.old.searcher }
    ensures fits { (net : Net) → Fits tools.old.lanes net → Fits tools.new.lanes net }
{
    question.graph.well_formed();
    detected_faults_stay_open();
    let found = vectors.test_of(alloc, question, &mut tools.lanes)?;
    Ok(found)
}

// The record of a fault that is neither refuted by learning nor by the search; None where it is.
fn judged(
    alloc: Global,
    refuter: &mut Refuter,
    vectors: &mut Vectors,
    tools: &mut Tools,
    question: &Question<'_>,
    depth: u8,
    budget: u32,
) -> Result<Option<Record>, NoMemory>
    requires refutes { IsServing (net_of question.now.graph.now) refuter.old }
    requires kept { AreKept vectors.old (net_of question.now.graph.now) }
    requires searches { Serves tools.old.searcher (net_of question.now.graph.now) }
    requires fits { Fits tools.old.lanes (net_of question.now.graph.now) }
    requires depth { depth ≤ 2 }
    requires budget { 0 < budget }
    ensures record { IfOk result (λ r. IfSome r (IsRecordOf (net_of question.now.graph.now) budget question.now.fault)) }
    ensures unrefuted { IfOk result (λ r. IfSome r (λ _. HasOpenSet (net_of question.now.graph.now) question.now.fault depth)) }
    ensures refuted { IfOk result (λ r. IsNone r → HasTree (net_of question.now.graph.now) question.now.fault) }
    ensures refutes { OnOk result (IsServing (net_of question.now.graph.now) refuter.new) }
    ensures kept { OnOk result (AreKept vectors.new (net_of question.now.graph.now)) }
    ensures searches { OnOk result (Serves tools.new.searcher (net_of question.now.graph.now)) }
    ensures fits { OnOk result (Fits tools.new.lanes (net_of question.now.graph.now)) }
{
    if budget > FEW_EDGES {
        if let Some(vector) = known_test(alloc, question, vectors, tools)? {
            return Ok(Some(Record::Hit {
                fault: question.fault,
                vector,
            }));
        }
    }
    let refuted = is_refuted(alloc, refuter, vectors, question, depth)?;
    if refuted {
        return Ok(None);
    }
    let found = sought(alloc, question, refuter, tools, budget)?;
    Ok(found)
}

// Goes through faults of the graph in order, up to the first that is refuted.
fn judge_all(
    alloc: Global,
    graph: &Graph,
    faults: &[Fault],
    refuter: &mut Refuter,
    vectors: &mut Vectors,
    tools: &mut Tools,
    depth: u8,
    budget: u32,
) -> Result<Passed, NoMemory>
    requires pins { (k : ℕ) (fault : FaultValue) → slice_get faults.now k ≡ Some fault → HasPin (net_of graph.now) fault }
    requires refutes { IsServing (net_of graph.now) refuter.old }
    requires kept { AreKept vectors.old (net_of graph.now) }
    requires searches { Serves tools.old.searcher (net_of graph.now) }
    requires fits { Fits tools.old.lanes (net_of graph.now) }
    requires depth { depth ≤ 2 }
    requires budget { 0 < budget }
    ensures judged { IfOk result (IsJudged (net_of graph.now) depth budget faults.now) }
    ensures refutes { OnOk result (IsServing (net_of graph.now) refuter.new) }
    ensures kept { OnOk result (AreKept vectors.new (net_of graph.now)) }
{
    let mut records = Vec::new(alloc);
    for at in 0..faults.len() {
        let fault = faults[at];
        let question = Question { graph, fault };
        let found = judged(alloc, refuter, vectors, tools, &question, depth, budget)?;
        let Some(record) = found else {
            return Ok(Passed::Refuted(fault));
        };
        records.push(record)?;
    }
    Ok(Passed::Closed(records))
}

// Goes through the faults of the main gates, by gate, position and value, up to the first that is refuted.
fn pass(
    alloc: Global,
    graph: &Graph,
    refuter: &mut Refuter,
    vectors: &mut Vectors,
    bound: u32,
    depth: u8,
    budget: u32,
) -> Result<Passed, NoMemory>
    requires serves { IsServing (net_of graph.now) refuter.old }
    requires kept { AreKept vectors.old (net_of graph.now) }
    requires depth { depth ≤ 2 }
    requires budget { 0 < budget }
    ensures passed { IfOk result (IsPassed bound (net_of graph.now) depth budget) }
    ensures serves { OnOk result (IsServing (net_of graph.now) refuter.new) }
    ensures kept { OnOk result (AreKept vectors.new (net_of graph.now)) }
{
    let faults = list_faults(alloc, graph, bound)?;
    let mut tools = Tools {
        searcher: Searcher::new(alloc, graph)?,
        lanes: Lanes::new(alloc, graph)?,
    };
    let passed = judge_all(
        alloc,
        graph,
        faults.as_slice(),
        refuter,
        vectors,
        &mut tools,
        depth,
        budget,
    )?;
    Ok(passed)
}

/// Passes through the faults of the main gates, from the first again after each that is fixed, until none is refuted.
pub(crate) fn close_main(
    alloc: Global,
    trial: &mut Trial,
    refuter: &mut Refuter,
    vectors: &mut Vectors,
    made: &mut Made,
    bound: u32,
    depth: u8,
    budget: u32,
) -> Result<Vec<Record>, NoMemory>
    requires tidy { IsMainTidy bound (net_of trial.old.graph) }
    requires space { work (net_of trial.old.graph) ≤ trial.old.first.steps }
    requires few { made.old.fixes + made.old.local + work (net_of trial.old.graph) ≤ 4194304 }
    requires serves { IsServing (net_of trial.old.graph) refuter.old }
    requires kept { AreKept vectors.old (net_of trial.old.graph) }
    requires depth { depth ≤ 2 }
    requires budget { 0 < budget }
    ensures works { OnOk result (Works bound trial.old trial.new made.old made.new) }
    ensures tidy { OnOk result (IsMainTidy bound (net_of trial.new.graph)) }
    ensures records { IfOk result (λ r. AreRecordsOf (net_of trial.new.graph) budget (main_faults bound (net_of trial.new.graph)) r.items) }
    ensures unrefuted { OnOk result ((fault : FaultValue) → IsMainFault bound (net_of trial.new.graph) fault → HasOpenSet (net_of trial.new.graph) fault depth) }
{
    runs_join();
    loop {
        let graph = trial.graph();
        let passed = pass(alloc, graph, refuter, vectors, bound, depth, budget)?;
        match passed {
            Passed::Closed(records) => return Ok(records),
            Passed::Refuted(fault) => {
                fix_main(trial, made, bound, fault);
                refuter.fit(trial.graph())?;
                vectors.fit(alloc, trial.graph())?;
            }
        }
    }
}
