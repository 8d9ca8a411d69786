// Deciding fault after fault on one graph.
ghost use Rattle.std.specs.Prelude.{◌≡◌, ◌≤◌, ℕ, IfOk, IfSome, OnOk, length};
ghost use Rattle.fault_sim.specs.LaneStates.{Fits};
ghost use Rattle.gate_graph.specs.Circuit.{net_of};
ghost use Rattle.gate_net.specs.Net.{Net};
ghost use Rattle.implications.specs.Bases.{IsFor};
ghost use Rattle.podem.specs.Verdicts.{IsDecided, IsVerdict};
ghost use Rattle.refutation.specs.Branches.{AreAccepted};
ghost use Rattle.ternary_sim.specs.Sims.{Fits as Reads};
ghost use Rattle.fault_decision.specs.Inner.Working.{IsEnd};
ghost use Rattle.fault_decision.specs.Serving.{IsServing};

use crate::deciding::decide_open;
use crate::looking::End;
use crate::telling::push_lines;
use crate::work::Work;
use fault_sim::Lanes;
use gate_graph::{Graph, Question};
use implications::Engine;
use implications::basis::Basis;
use podem::Verdict;
use refutation::Item;
use refutation_check::Shortener;
use rm_base::NoMemory;
use std::alloc::Global;
use ternary_sim::Sim;

/// Decides faults by splits on good values, and by what lines lead to after each. It is made once for a graph, as it stands,
/// and serves one fault after another.
#[derive(Drop)]
pub struct Decider {
    engine: Engine,
    basis: Basis,
    shortener: Shortener,
    work: Work,
}

// At most so many splits are open at once.
const MOST_OPEN: u32 = 500;

// Closes no facts, and searches from there; the items that it wrote are in `work`.
fn search(
    engine: &mut Engine,
    question: &Question<'_>,
    basis: &mut Basis,
    work: &mut Work,
    lanes: &mut Lanes,
) -> Result<End, NoMemory>
    requires serves { IsFor (net_of question.now.graph.now) engine.old basis.old }
    requires fits { Fits lanes.old (net_of question.now.graph.now) }
    requires reads { Reads work.old.sim (net_of question.now.graph.now) }
    ensures end { IfOk result (IsEnd (net_of question.now.graph.now) question.now.fault) }
    ensures serves { OnOk result (IsFor (net_of question.now.graph.now) engine.new basis.new) }
    ensures fits { (net : Net) → Fits lanes.old net → Fits lanes.new net }
    ensures reads { Reads work.new.sim (net_of question.now.graph.now) }
{
    work.items.clear();
    let clash = engine.open(question, basis)?;
    push_lines(&mut work.items, engine.lines())?;
    if let Some(node) = clash {
        work.items.push(Item::Clash(node))?;
        return Ok(End::Closed);
    }
    decide_open(engine, question, &mut basis.facts, work, lanes, MOST_OPEN)
}

// Searches twice, with two orders of the gates that are to be justified: where one leads astray the other seldom does.
fn search_twice(
    engine: &mut Engine,
    question: &Question<'_>,
    basis: &mut Basis,
    work: &mut Work,
    lanes: &mut Lanes,
    splits: u32,
) -> Result<End, NoMemory>
    requires serves { IsFor (net_of question.now.graph.now) engine.old basis.old }
    requires fits { Fits lanes.old (net_of question.now.graph.now) }
    requires reads { Reads work.old.sim (net_of question.now.graph.now) }
    ensures end { IfOk result (IsEnd (net_of question.now.graph.now) question.now.fault) }
    ensures serves { OnOk result (IsFor (net_of question.now.graph.now) engine.new basis.new) }
    ensures fits { (net : Net) → Fits lanes.old net → Fits lanes.new net }
    ensures reads { Reads work.new.sim (net_of question.now.graph.now) }
{
    work.greatest = true;
    work.left = splits / 8;
    let first = search(engine, question, basis, work, lanes)?;
    let End::Open = first else {
        return Ok(first);
    };
    work.greatest = false;
    work.left = splits - splits / 8;
    search(engine, question, basis, work, lanes)
}

// The verdict of a search that ended so. The tree of its items is put before the checker: None where that isn't accepted.
fn verdict_of(
    question: &Question<'_>,
    shortener: &mut Shortener,
    items: &[Item],
    end: End,
) -> Result<Option<Verdict>, NoMemory>
    requires room { length (net_of question.now.graph.now).nodes ≤ shortener.old }
    requires end { IsEnd (net_of question.now.graph.now) question.now.fault end }
    ensures verdict { IfOk result (λ found. IfSome found (λ v. (budget : ℕ) → IsVerdict (net_of question.now.graph.now) question.now.fault budget v)) }
    ensures decided { IfOk result (λ found. IfSome found IsDecided) }
    ensures room { shortener.new ≡ shortener.old }
{
    match end {
        End::Detected(vector) => Ok(Some(Verdict::Detected(vector))),
        End::Closed => match shortener.tree(question, items)? {
            Some(tree) => Ok(Some(Verdict::Refuted(tree))),
            None => Ok(None),
        },
        End::Open => Ok(None),
    }
}

impl Decider {
    /// A decider for the graph, as it stands.
    pub fn for_graph(alloc: Global, graph: &Graph) -> Result<Decider, NoMemory>
        ensures { IfOk result (IsServing (net_of graph.now)) }
    {
        let mut basis = Basis::new(alloc, graph.node_bound())?;
        basis.fit(alloc, graph)?;
        let work = Work {
            alloc,
            items: Vec::new(alloc),
            left: 0,
            greatest: true,
            sim: Sim::new(alloc, graph)?,
        };
        Ok(Decider {
            engine: Engine::new(alloc, graph)?,
            basis,
            shortener: Shortener::new(alloc, graph.node_bound())?,
            work,
        })
    }

    /// The work of its calls together, which a limit of work bounds: a unit for each fact that was held, and for each node that
    /// a faulty gate reaches.
    pub fn work_done(&self) -> u64 {
        self.engine.work_done()
    }

    /// A vector that detects the fault, or a tree that refutes it; None where more than `splits` splits would be needed, or
    /// where they alone don't decide it. After `NoMemory` it serves no graph.
    pub fn decide(
        &mut self,
        question: &Question<'_>,
        splits: u32,
        lanes: &mut Lanes,
    ) -> Result<Option<Verdict>, NoMemory>
        requires serves { IsServing (net_of question.now.graph.now) self.old }
        requires fits { Fits lanes.old (net_of question.now.graph.now) }
        ensures verdict { IfOk result (λ found. IfSome found (λ v. (budget : ℕ) → IsVerdict (net_of question.now.graph.now) question.now.fault budget v)) }
        ensures decided { IfOk result (λ found. IfSome found IsDecided) }
        ensures serves { OnOk result (IsServing (net_of question.now.graph.now) self.new) }
        ensures fits { (net : Net) → Fits lanes.old net → Fits lanes.new net }
    {
        let end = search_twice(
            &mut self.engine,
            question,
            &mut self.basis,
            &mut self.work,
            lanes,
            splits,
        )?;
        verdict_of(question, &mut self.shortener, &self.work.items, end)
    }
}
