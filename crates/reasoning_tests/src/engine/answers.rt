// Answers that were worked out by hand.
ghost use Rattle.std.specs.Prelude.{◌≤◌, length};
ghost use Rattle.gate_graph.specs.Circuit.{net_of};

use crate::facts::hold_same;
use gate_graph::{Graph, Marks, Question};
use implications::{Closed, Engine};
use refutation::pins::{Aspect, known_of};
use refutation::{FactSet, Item, Tree, TreeBuilder, conclude};
use rm_base::NodeId;
use std::alloc::Global;
use std::test::Fail;
use test_nets::worked::{ABSORBED, FOUR_GATES};
use test_nets::{Gate, Wiring, build_net, fault_at};

// s' a + s b + a b, of the sources s, a and b.
const SELECTED: Wiring<'static> = Wiring {
    sources: 3,
    gates: &[
        Gate::Not(2),
        Gate::And(&[5, 3]),
        Gate::And(&[2, 4]),
        Gate::And(&[3, 4]),
        Gate::Or(&[6, 7, 8]),
    ],
    observed: &[9],
};

// What is known of a node: its good value, its faulty value, and whether it is equal.
type Known = (Option<bool>, Option<bool>, Option<bool>);

const NO: Known = (Some(false), Some(false), Some(true));

const YES: Known = (Some(true), Some(true), Some(true));

const RISES: Known = (Some(false), Some(true), Some(false));

const FALLS: Known = (Some(true), Some(false), Some(false));

const SAME: Known = (None, None, Some(true));

// A fault of the four gates, and what is known of their nodes from number 0 on.
#[derive(Clone, Copy)]
struct Case {
    fault: (u32, u32, bool),
    known: [Known; 10],
}

const CASES: [Case; 3] = [
    Case {
        fault: (6, 0, true),
        known: [NO, YES, NO, YES, SAME, YES, RISES, NO, RISES, RISES],
    },
    Case {
        fault: (9, 1, true),
        known: [NO, YES, SAME, SAME, SAME, NO, SAME, SAME, YES, RISES],
    },
    Case {
        fault: (8, 0, false),
        known: [NO, YES, YES, YES, NO, YES, YES, NO, FALLS, FALLS],
    },
];

// Whether closing the fault comes to a clash.
fn clashes(
    alloc: Global,
    wiring: &Wiring,
    gate: u32,
    position: u32,
    value: bool,
) -> Result<bool, Fail> {
    let graph = build_net(alloc, wiring)?;
    let fault = fault_at(&graph, gate, position, value)?;
    let question = Question {
        graph: &graph,
        fault,
    };
    let mut engine = Engine::new(alloc, &graph)?;
    match engine.close(&question)? {
        Closed::Clash(_) => Ok(true),
        Closed::Open(_) => Ok(false),
    }
}

#[test]
fn redundant_pins_clash(rt: HostRuntime) -> Result<(), Fail> {
    assert!(rt; clashes(rt.alloc(), &ABSORBED, 4, 0, false)?);
    assert!(rt; clashes(rt.alloc(), &SELECTED, 8, 0, false)?);
    assert!(rt; !clashes(rt.alloc(), &FOUR_GATES, 6, 0, true)?);
    Ok(())
}

fn is_known(facts: &FactSet, node: NodeId, wanted: &Known) -> bool {
    if node.0 as usize >= facts.len() {
        return false;
    }
    known_of(facts, Aspect::OfGood, node) == wanted.0
        && known_of(facts, Aspect::OfFaulty, node) == wanted.1
        && known_of(facts, Aspect::OfEqual, node) == wanted.2
}

// Whether that is known of each node.
fn are_known(facts: &FactSet, wanted: &[Known; 10]) -> bool {
    for node in 0..10u32 {
        if !is_known(facts, NodeId(node), &wanted[node as usize]) {
            return false;
        }
    }
    true
}

// Whether lines lead, one after another, from no facts to these.
fn lead_to(
    alloc: Global,
    question: &Question<'_>,
    items: &[Item],
    facts: &FactSet,
) -> Result<bool, Fail> {
    let mut marks = Marks::new(alloc, question.graph.node_bound())?;
    let mut led = FactSet::new(alloc, question.graph)?;
    for item in items {
        let Item::Line(line) = item else {
            return Ok(false);
        };
        let Some((node, fact)) = conclude(question, &led, line, &mut marks) else {
            return Ok(false);
        };
        led.insert(node, fact);
    }
    Ok(led.len() == facts.len() && hold_same(&led, facts, question.graph.node_bound()))
}

// The lines to what the faulty gate doesn't reach, and then those of the engine's last call.
fn all_lines(alloc: Global, engine: &mut Engine, question: &Question<'_>) -> Result<Tree, Fail>
    requires { length (net_of question.now.graph.now).nodes ≤ engine.old.numbers }
{
    let mut tree = TreeBuilder::new(alloc);
    engine.push_outside(question, &mut tree)?;
    for line in engine.lines() {
        tree.push(Item::Line(*line))?;
    }
    Ok(tree.finish())
}

// Whether closing the fault gives exactly what is wanted, with the lines of this call alone.
fn gives(alloc: Global, engine: &mut Engine, graph: &Graph, case: &Case) -> Result<bool, Fail>
    requires { length (net_of graph.now).nodes ≤ engine.old.numbers }
{
    let fault = fault_at(graph, case.fault.0, case.fault.1, case.fault.2)?;
    let question = Question { graph, fault };
    let Closed::Open(facts) = engine.close(&question)? else {
        return Ok(false);
    };
    let tree = all_lines(alloc, engine, &question)?;
    if !lead_to(alloc, &question, tree.items(), &facts)? {
        return Ok(false);
    }
    Ok(are_known(&facts, &case.known))
}

// The same after closing another fault.
fn is_right(alloc: Global, graph: &Graph, case: &Case) -> Result<bool, Fail> {
    let fault = fault_at(graph, 6, 0, true)?;
    let mut engine = Engine::new(alloc, graph)?;
    if !engine.lines().is_empty() {
        return Ok(false);
    }
    let _first = engine.close(&Question { graph, fault })?;
    gives(alloc, &mut engine, graph, case)
}

#[test]
fn derivable_facts_are_known(rt: HostRuntime) -> Result<(), Fail> {
    let graph = build_net(rt.alloc(), &FOUR_GATES)?;
    for at in 0..CASES.len() {
        let right = is_right(rt.alloc(), &graph, &CASES[at])?;
        assert!(rt; right, "at case {at}");
    }
    Ok(())
}
