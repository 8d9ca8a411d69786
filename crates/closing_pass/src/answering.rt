// The verdicts of faults: what refutes them by learning, and else the answers of searches.
ghost use Rattle.std.specs.Prelude.{◌≡◌, ◌<◌, ◌≤◌, ℕ, IfOk, IfSome, OnOk};
ghost use Rattle.fault_sim.specs.LaneStates.{Fits};
ghost use Rattle.gate_net.specs.Faults.{IsTest};
ghost use Rattle.gate_net.specs.Net.{Net};
ghost use Rattle.gate_graph.specs.Circuit.{net_of};
ghost use Rattle.podem.specs.Searchers.{Serves};
ghost use Rattle.podem.specs.Verdicts.{IsDecided, IsVerdict};
ghost use Rattle.fault_decision.specs.Serving.{IsServing as DecidesOn};
ghost use Rattle.recursive_learning.specs.Serving.{IsServing};
ghost use Rattle.closing_pass.specs.Verdicts.{AreVerdicts, HavePins, IsAnswer};

use crate::answers::Answers;
use crate::effort::Effort;
use candidate_vectors::complete;
use fault_decision::Decider;
use fault_sim::Lanes;
use gate_graph::{Graph, Question};
use podem::{Searcher, Verdict};
use recursive_learning::refuter::Refuter;
use refutation::FactSet;
use rm_base::{Fault, NoMemory, Settings, Vector};
use std::alloc::Global;

// What searches for tests on a graph, and what simulates it; and how much is done for faults whose search was cut short.
#[derive(Drop)]
struct Tools {
    searcher: Searcher,
    lanes: Lanes,
    effort: Effort,
}

// Most faults are detected by a search of so few edges, which costs less than learning.
const FEW_EDGES: u32 = 16;

/// A smaller budget asks for no more than it says.
pub(crate) const USUAL_BUDGET: u32 = 256;

// In a graph of more nodes a fault has fewer splits, since each may look at every node.
const MOST_NODES: u32 = 2048;

// A vector that completes the facts to which lines lead, and detects the fault.
fn complete_lines(
    alloc: Global,
    question: &Question<'_>,
    refuter: &mut Refuter,
    lanes: &mut Lanes,
) -> Result<Option<Vector>, NoMemory>
    requires refutes { IsServing (net_of question.now.graph.now) refuter.old }
    requires fits { Fits lanes.old (net_of question.now.graph.now) }
    ensures test { IfOk result (λ found. IfSome found (IsTest (net_of question.now.graph.now) question.now.fault)) }
    ensures refutes { OnOk result (IsServing (net_of question.now.graph.now) refuter.new) }
    ensures fits { (net : Net) → Fits lanes.old net → Fits lanes.new net }
{
    if refuter.close(question)? {
        return Ok(None);
    }
    complete(alloc, question, refuter.facts(), lanes)
}

// A vector that detects the fault: that of a search of few edges, or else one that completes what lines lead to.
fn detected_soon(
    alloc: Global,
    question: &Question<'_>,
    refuter: &mut Refuter,
    tools: &mut Tools,
) -> Result<Option<Vector>, NoMemory>
    requires refutes { IsServing (net_of question.now.graph.now) refuter.old }
    requires searches { Serves tools.old.searcher (net_of question.now.graph.now) }
    requires fits { Fits tools.old.lanes (net_of question.now.graph.now) }
    ensures test { IfOk result (λ found. IfSome found (IsTest (net_of question.now.graph.now) question.now.fault)) }
    ensures refutes { OnOk result (IsServing (net_of question.now.graph.now) refuter.new) }
    ensures searches { (net : Net) → Serves tools.old.searcher net → Serves tools.new.searcher net }
    ensures fits { (net : Net) → Fits tools.old.lanes net → Fits tools.new.lanes net }
{
    match tools.searcher.search(question, FEW_EDGES)? {
        Verdict::Detected(vector) => Ok(Some(vector)),
        Verdict::Refuted(_tree) => Ok(None),
        Verdict::Spent(_tree) => complete_lines(alloc, question, refuter, &mut tools.lanes),
    }
}

/// Whether the search was cut short.
pub(crate) fn is_spent(verdict: &Verdict) -> bool {
    match verdict {
        Verdict::Spent(_) => true,
        _ => false,
    }
}

// Makes a decider, where none is kept.
fn make_decider(alloc: Global, graph: &Graph, kept: &mut Option<Decider>) -> Result<(), NoMemory>
    requires { IfSome kept.old (DecidesOn (net_of graph.now)) }
    ensures decides { OnOk result (IfSome kept.new (DecidesOn (net_of graph.now))) }
{
    if kept.is_none() {
        *kept = Some(Decider::for_graph(alloc, graph)?);
    }
    Ok(())
}

// How many splits a fault may take.
fn splits_for(graph: &Graph, effort: Effort) -> u32 {
    let most = effort.splits();
    let bound = graph.node_bound();
    if bound <= MOST_NODES {
        return most;
    }
    most * MOST_NODES / bound
}

// The verdict of a fault whose search was cut short, where it is decided. The decider is made when it is first asked, and kept.
fn decide_spent(
    alloc: Global,
    question: &Question<'_>,
    effort: Effort,
    kept: &mut Option<Decider>,
    lanes: &mut Lanes,
) -> Result<Option<Verdict>, NoMemory>
    requires decides { IfSome kept.old (DecidesOn (net_of question.now.graph.now)) }
    requires fits { Fits lanes.old (net_of question.now.graph.now) }
    ensures verdict { IfOk result (λ found. IfSome found (λ v. (budget : ℕ) → IsVerdict (net_of question.now.graph.now) question.now.fault budget v)) }
    ensures decided { IfOk result (λ found. IfSome found IsDecided) }
    ensures decides { OnOk result (IfSome kept.new (DecidesOn (net_of question.now.graph.now))) }
    ensures fits { (net : Net) → Fits lanes.old net → Fits lanes.new net }
{
    make_decider(alloc, question.graph, kept)?;
    match kept {
        Some(decider) => decider.decide(question, splits_for(question.graph, effort), lanes),
        None => Ok(None),
    }
}

// The verdict of a search with the budget, or where that was cut short what the fault is decided to be.
fn search_longer(
    alloc: Global,
    question: &Question<'_>,
    budget: u32,
    tools: &mut Tools,
    decider: &mut Option<Decider>,
) -> Result<Verdict, NoMemory>
    requires budget { 0 < budget }
    requires searches { Serves tools.old.searcher (net_of question.now.graph.now) }
    requires fits { Fits tools.old.lanes (net_of question.now.graph.now) }
    requires decides { IfSome decider.old (DecidesOn (net_of question.now.graph.now)) }
    ensures answer { IfOk result (IsAnswer (net_of question.now.graph.now) budget question.now.fault) }
    ensures searches { (net : Net) → Serves tools.old.searcher net → Serves tools.new.searcher net }
    ensures fits { (net : Net) → Fits tools.old.lanes net → Fits tools.new.lanes net }
    ensures decides { OnOk result (IfSome decider.new (DecidesOn (net_of question.now.graph.now))) }
{
    let verdict = tools.searcher.search(question, budget)?;
    if !tools.effort.is_longer() || budget < USUAL_BUDGET || !is_spent(&verdict) {
        return Ok(verdict);
    }
    let decided = decide_spent(alloc, question, tools.effort, decider, &mut tools.lanes)?;
    match decided {
        Some(other) => Ok(other),
        None => Ok(verdict),
    }
}

// The verdict of a fault that isn't refuted: a vector that completes the facts, or else what a search with the budget answers.
fn search_open(
    alloc: Global,
    question: &Question<'_>,
    budget: u32,
    facts: &FactSet,
    tools: &mut Tools,
    decider: &mut Option<Decider>,
) -> Result<Verdict, NoMemory>
    requires budget { 0 < budget }
    requires searches { Serves tools.old.searcher (net_of question.now.graph.now) }
    requires fits { Fits tools.old.lanes (net_of question.now.graph.now) }
    requires decides { IfSome decider.old (DecidesOn (net_of question.now.graph.now)) }
    ensures answer { IfOk result (IsAnswer (net_of question.now.graph.now) budget question.now.fault) }
    ensures searches { (net : Net) → Serves tools.old.searcher net → Serves tools.new.searcher net }
    ensures fits { (net : Net) → Fits tools.old.lanes net → Fits tools.new.lanes net }
    ensures decides { OnOk result (IfSome decider.new (DecidesOn (net_of question.now.graph.now))) }
{
    if budget > FEW_EDGES {
        if let Some(vector) = complete(alloc, question, facts, &mut tools.lanes)? {
            return Ok(Verdict::Detected(vector));
        }
    }
    search_longer(alloc, question, budget, tools, decider)
}

// The depth at which faults are refuted: at least 1 where a search may be long, as one that refutes costs more than what
// justifications have in common.
fn depth_for(settings: &Settings, effort: Effort) -> u8
    requires { settings.now.depth ≤ 2 }
    ensures { result ≤ 2 }
{
    if effort.is_longer() && settings.budget >= USUAL_BUDGET {
        settings.depth.max(1)
    } else {
        settings.depth
    }
}

// The verdict of the fault: it is refuted by learning, and else searched with the budget of the settings. As most faults
// have a test, one is looked for before that where it costs little; a budget of few edges asks for no more than these.
fn answer(
    alloc: Global,
    question: &Question<'_>,
    settings: &Settings,
    refuter: &mut Refuter,
    tools: &mut Tools,
    decider: &mut Option<Decider>,
) -> Result<Verdict, NoMemory>
    requires depth { settings.now.depth ≤ 2 }
    requires budget { 0 < settings.now.budget }
    requires refutes { IsServing (net_of question.now.graph.now) refuter.old }
    requires searches { Serves tools.old.searcher (net_of question.now.graph.now) }
    requires fits { Fits tools.old.lanes (net_of question.now.graph.now) }
    requires decides { IfSome decider.old (DecidesOn (net_of question.now.graph.now)) }
    ensures answer { IfOk result (IsAnswer (net_of question.now.graph.now) settings.now.budget question.now.fault) }
    ensures refutes { OnOk result (IsServing (net_of question.now.graph.now) refuter.new) }
    ensures searches { (net : Net) → Serves tools.old.searcher net → Serves tools.new.searcher net }
    ensures fits { (net : Net) → Fits tools.old.lanes net → Fits tools.new.lanes net }
    ensures decides { OnOk result (IfSome decider.new (DecidesOn (net_of question.now.graph.now))) }
{
    if settings.budget > FEW_EDGES {
        if let Some(vector) = detected_soon(alloc, question, refuter, tools)? {
            return Ok(Verdict::Detected(vector));
        }
    }
    match refuter.refute(question, depth_for(settings, tools.effort))? {
        Some(tree) => Ok(Verdict::Refuted(tree)),
        None => search_open(
            alloc,
            question,
            settings.budget,
            refuter.facts(),
            tools,
            decider,
        ),
    }
}

// The verdicts of the faults, in order.
fn answer_each(
    alloc: Global,
    graph: &Graph,
    faults: &[Fault],
    settings: &Settings,
    refuter: &mut Refuter,
    tools: &mut Tools,
    decider: &mut Option<Decider>,
) -> Result<Vec<Verdict>, NoMemory>
    requires pins { HavePins (net_of graph.now) faults.now }
    requires depth { settings.now.depth ≤ 2 }
    requires budget { 0 < settings.now.budget }
    requires refutes { IsServing (net_of graph.now) refuter.old }
    requires searches { Serves tools.old.searcher (net_of graph.now) }
    requires fits { Fits tools.old.lanes (net_of graph.now) }
    requires decides { IfSome decider.old (DecidesOn (net_of graph.now)) }
    ensures { IfOk result (λ v. AreVerdicts (net_of graph.now) settings.now.budget faults.now v.items) }
{
    let mut verdicts = Vec::with_capacity(alloc, faults.len())?;
    for fault in faults {
        let question = Question {
            graph,
            fault: *fault,
        };
        let verdict = answer(alloc, &question, settings, refuter, tools, decider)?;
        verdicts.push(verdict)?;
    }
    Ok(verdicts)
}

// How many units of work all that served the faults has done.
fn work_of(refuter: &Refuter, searcher: &Searcher, decider: &Option<Decider>) -> u64 {
    let decided = match decider {
        Some(made) => made.work_done(),
        None => 0,
    };
    refuter
        .work_done()
        .saturating_add(searcher.work_done())
        .saturating_add(decided)
}

// The same, with no decider made yet.
fn answer_lazily(
    alloc: Global,
    graph: &Graph,
    faults: &[Fault],
    settings: &Settings,
    refuter: &mut Refuter,
    tools: &mut Tools,
) -> Result<Answers, NoMemory>
    requires pins { HavePins (net_of graph.now) faults.now }
    requires depth { settings.now.depth ≤ 2 }
    requires budget { 0 < settings.now.budget }
    requires refutes { IsServing (net_of graph.now) refuter.old }
    requires searches { Serves tools.old.searcher (net_of graph.now) }
    requires fits { Fits tools.old.lanes (net_of graph.now) }
    ensures { IfOk result (λ a. AreVerdicts (net_of graph.now) settings.now.budget faults.now a.verdicts.items) }
{
    let mut decider = None;
    let verdicts = answer_each(alloc, graph, faults, settings, refuter, tools, &mut decider)?;
    let work = work_of(refuter, &tools.searcher, &decider);
    Ok(Answers { verdicts, work })
}

// The same, by a refuter that is made for them.
fn answer_all(
    alloc: Global,
    graph: &Graph,
    faults: &[Fault],
    settings: &Settings,
    tools: &mut Tools,
) -> Result<Answers, NoMemory>
    requires pins { HavePins (net_of graph.now) faults.now }
    requires depth { settings.now.depth ≤ 2 }
    requires budget { 0 < settings.now.budget }
    requires searches { Serves tools.old.searcher (net_of graph.now) }
    requires fits { Fits tools.old.lanes (net_of graph.now) }
    ensures { IfOk result (λ a. AreVerdicts (net_of graph.now) settings.now.budget faults.now a.verdicts.items) }
{
    let mut refuter = Refuter::for_graph(alloc, graph)?;
    answer_lazily(alloc, graph, faults, settings, &mut refuter, tools)
}

/// The verdicts of the faults, in order, by one refuter and one set of tools. For those whose search is cut short as much is
/// done as that says.
pub(crate) fn answers(
    alloc: Global,
    graph: &Graph,
    faults: &[Fault],
    settings: &Settings,
    effort: Effort,
) -> Result<Answers, NoMemory>
    requires pins { HavePins (net_of graph.now) faults.now }
    requires depth { settings.now.depth ≤ 2 }
    requires budget { 0 < settings.now.budget }
    ensures { IfOk result (λ a. AreVerdicts (net_of graph.now) settings.now.budget faults.now a.verdicts.items) }
{
    let mut tools = Tools {
        searcher: Searcher::new(alloc, graph)?,
        lanes: Lanes::new(alloc, graph)?,
        effort,
    };
    answer_all(alloc, graph, faults, settings, &mut tools)
}
