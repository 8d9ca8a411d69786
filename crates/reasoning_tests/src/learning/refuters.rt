// One refuter over many faults, depths and nets, against a fresh refutation of each.
ghost use Rattle.std.specs.Prelude.{◌≤◌, OnOk};
ghost use Rattle.gate_graph.specs.Circuit.{net_of};
ghost use Rattle.recursive_learning.specs.Serving.{IsServing};

use super::answers::accept;
use super::drawn::{GATES, draw_net};
use crate::facts::hold_same;
use gate_graph::{Graph, Question};
use implications::{Closed, Engine};
use recursive_learning::refute;
use recursive_learning::refuter::Refuter;
use refutation::{FactSet, Tree};
use rm_base::{Fault, NoMemory, NodeId};
use std::alloc::Global;
use std::test::Fail;

// What a fresh refutation answers.
fn refuted_anew(alloc: Global, question: &Question<'_>, depth: u8) -> Result<Closed, NoMemory>
    requires { depth ≤ 2 }
{
    let mut engine = Engine::new(alloc, question.graph)?;
    refute(alloc, &mut engine, question, depth)
}

// Whether a tree that is accepted, or these facts, are what a fresh refutation answers too.
fn is_same(
    alloc: Global,
    question: &Question<'_>,
    fresh: &Closed,
    answer: &Option<Tree>,
    held: &FactSet,
) -> Result<bool, Fail> {
    match (fresh, answer) {
        (Closed::Clash(_), Some(tree)) => {
            accept(alloc, question, tree)?;
            Ok(true)
        }
        (Closed::Open(facts), None) => Ok(hold_same(facts, held, question.graph.node_bound())),
        _ => Ok(false),
    }
}

// Whether the refuter answers what a fresh refutation does.
fn agrees(
    alloc: Global,
    refuter: &mut Refuter,
    question: &Question<'_>,
    depth: u8,
) -> Result<bool, Fail>
    requires serves { IsServing (net_of question.now.graph.now) refuter.old }
    requires depth { depth ≤ 2 }
    ensures { OnOk result (IsServing (net_of question.now.graph.now) refuter.new) }
{
    let fresh = refuted_anew(alloc, question, depth)?;
    let answer = refuter.refute(question, depth)?;
    is_same(alloc, question, &fresh, &answer, refuter.facts())
}

// The same at each depth, and what closing answers is what refuting at depth 0 does.
fn agrees_at_all(
    alloc: Global,
    refuter: &mut Refuter,
    graph: &Graph,
    fault: &Fault,
) -> Result<bool, Fail>
    requires serves { IsServing (net_of graph.now) refuter.old }
    ensures { OnOk result (IsServing (net_of graph.now) refuter.new) }
{
    let Some(_) = graph.driver(fault.gate, fault.position) else {
        return Ok(true);
    };
    let question = Question {
        graph,
        fault: *fault,
    };
    let deep = agrees(alloc, refuter, &question, 2)?;
    let none = agrees(alloc, refuter, &question, 0)?;
    let one = agrees(alloc, refuter, &question, 1)?;
    let clash = refuter.close(&question)?;
    let refuted = refuter.refute(&question, 0)?.is_some();
    Ok(deep && none && one && clash == refuted)
}

// Whether the refuter answers so of all faults of a net, to which it is fitted first.
fn agrees_on_graph(alloc: Global, refuter: &mut Refuter, graph: &Graph) -> Result<bool, Fail> {
    refuter.fit(graph)?;
    for at in 0..4 * GATES {
        let fault = Fault {
            gate: NodeId(at / 4 + 6),
            position: at / 2 % 2,
            value: at % 2 == 1,
        };
        if !agrees_at_all(alloc, refuter, graph, &fault)? {
            return Ok(false);
        }
    }
    Ok(true)
}

fn agrees_on_net(alloc: Global, refuter: &mut Refuter, seed: u64) -> Result<bool, Fail> {
    let graph = draw_net(alloc, seed)?;
    agrees_on_graph(alloc, refuter, &graph)
}

// The first seed on whose net it doesn't.
fn first_wrong(alloc: Global, refuter: &mut Refuter) -> Result<Option<u64>, Fail> {
    for seed in 1..21u64 {
        if !agrees_on_net(alloc, refuter, seed)? {
            return Ok(Some(seed));
        }
    }
    Ok(None)
}

fn first_wrong_of_one(alloc: Global) -> Result<Option<u64>, Fail> {
    let mut refuter = Refuter::new(alloc, 3)?;
    first_wrong(alloc, &mut refuter)
}

#[test]
fn one_for_many_nets(rt: HostRuntime) -> Result<(), Fail> {
    assert_eq!(rt; first_wrong_of_one(rt.alloc())?, None);
    Ok(())
}
