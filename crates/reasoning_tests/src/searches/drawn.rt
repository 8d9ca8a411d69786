// Every fault of fifty drawn nets at every budget up to one that is enough, against all assignments, and every tree before
// the checker.
ghost use Rattle.gate_graph.specs.Circuit.{net_of};
ghost use Rattle.podem.specs.Searchers.{Serves};

use crate::assignments::{detects, some_detects};
use gate_graph::{Graph, Question};
use podem::{Searcher, Verdict};
use refutation::{Form, Tree};
use refutation_check::check_tree;
use rm_base::{Fault, NoMemory, NodeId};
use std::alloc::Global;
use std::test::Fail;
use ternary_sim::Sim;
use test_nets::drawn_net;

pub const SOURCES: u32 = 4;

pub const GATES: u32 = 7;

// With so many edges every search on four sources comes to an end.
pub const ENOUGH: u32 = 32;

// A net of drawn gates, of which the last one and another node are observed.
pub fn draw_net(alloc: Global, seed: u64) -> Result<Graph, Fail> {
    drawn_net(alloc, SOURCES, GATES, &[1 + SOURCES + GATES], seed)
}

// The assignment of a vector, as a number.
fn number_of(bits: &[bool]) -> u32 {
    let mut number = 0u32;
    let mut place = 0u32;
    for bit in bits {
        if *bit {
            number |= 1u32.wrapping_shl(place);
        }
        place = place.wrapping_add(1);
    }
    number
}

// How many edges the checker counts in a tree that it accepts.
fn edges_of(alloc: Global, question: &Question<'_>, tree: &Tree, form: Form) -> Option<u64> {
    match check_tree(alloc, question, tree, form) {
        Ok(shape) => Some(shape.edges),
        Err(_) => None,
    }
}

// Whether a verdict is right: a vector that detects, a tree that is accepted where no assignment does, or one of as
// many edges as were allowed, fewer than are always enough.
fn is_right(
    alloc: Global,
    question: &Question<'_>,
    budget: u32,
    verdict: &Verdict,
) -> Result<bool, NoMemory> {
    match verdict {
        Verdict::Detected(vector) => {
            let mut sim = Sim::new(alloc, question.graph)?;
            Ok(detects(&mut sim, question, number_of(vector.values())))
        }
        Verdict::Refuted(tree) => {
            let closed = edges_of(alloc, question, tree, Form::Closed).is_some();
            Ok(closed && !some_detects(alloc, question)?)
        }
        Verdict::Spent(tree) => {
            let edges = edges_of(alloc, question, tree, Form::Partial);
            Ok(edges == Some(budget as u64) && budget < ENOUGH)
        }
    }
}

fn is_spent(verdict: &Verdict) -> bool {
    match verdict {
        Verdict::Spent(_) => true,
        _ => false,
    }
}

// Whether a fault has a right verdict at every budget up to one at which the search isn't spent.
fn all_right(
    alloc: Global,
    searcher: &mut Searcher,
    graph: &Graph,
    fault: &Fault,
) -> Result<bool, NoMemory>
    requires { Serves searcher.old (net_of graph.now) }
    ensures { Serves searcher.new (net_of graph.now) }
{
    let Some(_) = graph.driver(fault.gate, fault.position) else {
        return Ok(true);
    };
    let question = Question {
        graph,
        fault: *fault,
    };
    for budget in 1..ENOUGH + 1 {
        let verdict = searcher.search(&question, budget)?;
        if !is_right(alloc, &question, budget, &verdict)? {
            return Ok(false);
        }
        if !is_spent(&verdict) {
            return Ok(true);
        }
    }
    Ok(false)
}

// Whether all faults of a net have right verdicts.
fn faults_are_right(alloc: Global, searcher: &mut Searcher, graph: &Graph) -> Result<bool, NoMemory>
    requires { Serves searcher.old (net_of graph.now) }
{
    for number in 0..6 * GATES {
        let fault = Fault {
            gate: NodeId(2 + SOURCES + number / 6),
            position: number % 3,
            value: number % 6 < 3,
        };
        if !all_right(alloc, searcher, graph, &fault)? {
            return Ok(false);
        }
    }
    Ok(true)
}

fn net_is_right(alloc: Global, graph: &Graph) -> Result<bool, NoMemory> {
    let mut searcher = Searcher::new(alloc, graph)?;
    faults_are_right(alloc, &mut searcher, graph)
}

#[test]
fn drawn_nets(rt: HostRuntime) -> Result<(), Fail> {
    for seed in 1..51u64 {
        let graph = draw_net(rt.alloc(), seed)?;
        let right = net_is_right(rt.alloc(), &graph)?;
        assert!(rt; right, "at seed {seed}");
    }
    Ok(())
}
