//! Steps, refusals and rollback on small nets.
ghost use Rattle.std.specs.Prelude.{◌≤◌, ◌+◌};
ghost use Rattle.gate_graph.specs.Circuit.{live_nodes, pins_taken};

use gate_graph::Graph;
use rm_base::NodeId;
use std::alloc::Global;
use std::test::Fail;
use test_nets::worked::{BUFFER, FOUR_GATES};
use test_nets::{Wiring, build_net, is_live};
use wire_edit::{EditRefusal, Room, Rule, Step, Trial, first_rule};

// A trial of the graph with room for so many pins.
pub(crate) fn begin_trial(alloc: Global, graph: Graph, pins: usize) -> Result<Trial, Fail>
    requires few { pins_taken graph + live_nodes graph ≤ 300000 }
    requires pins { pins ≤ 10 }
{
    let room = Room {
        pins,
        nodes: 1,
        steps: 40,
    };
    match Trial::begin(alloc, graph, room) {
        Ok(trial) => Ok(trial),
        Err(_) => Err("no trial".into()),
    }
}

// A trial of the net of a table.
pub(crate) fn trial_of(alloc: Global, wiring: &Wiring, pins: usize) -> Result<Trial, Fail>
    requires { pins ≤ 10 }
{
    let graph = build_net(alloc, wiring)?;
    begin_trial(alloc, graph, pins)
}

fn add_step(gate: u32, driver: u32) -> Step {
    Step::Add {
        gate: NodeId(gate),
        node: NodeId(driver),
    }
}

// Whether these pins read the node, in order.
fn is_read(graph: &Graph, node: u32, places: &[(u32, u32)]) -> bool {
    if !is_live(graph, NodeId(node)) {
        return false;
    }
    let mut at = 0;
    for (gate, position) in graph.fanouts_of(NodeId(node)) {
        if at >= places.len() {
            return false;
        }
        if places[at].0 != gate.0 || places[at].1 != position {
            return false;
        }
        at += 1;
    }
    at == places.len()
}

// Steps, and why they are refused. Fails at the first that isn't refused so, and where a step was made.
pub(crate) fn refuse_all(trial: &mut Trial, rows: &[(Step, EditRefusal)]) -> Result<(), Fail> {
    for (step, refusal) in rows {
        if trial.apply(*step) != Err(*refusal) {
            return Err(Fail::new(format_args!("{step:?}")));
        }
    }
    if trial.steps().is_empty() {
        Ok(())
    } else {
        Err("a step was made".into())
    }
}

const REFUSED: &[(Step, EditRefusal)] = &[
    (
        Step::Add {
            gate: NodeId(6),
            node: NodeId(9),
        },
        EditRefusal::Cycle {
            from: NodeId(6),
            to: NodeId(9),
        },
    ),
    (
        Step::Add {
            gate: NodeId(6),
            node: NodeId(2),
        },
        EditRefusal::AlreadyPin {
            gate: NodeId(6),
            node: NodeId(2),
        },
    ),
    (
        Step::Add {
            gate: NodeId(2),
            node: NodeId(3),
        },
        EditRefusal::WrongKind { node: NodeId(2) },
    ),
    (
        Step::Add {
            gate: NodeId(6),
            node: NodeId(40),
        },
        EditRefusal::NoNode { node: NodeId(40) },
    ),
];

#[test]
fn refusals(rt: HostRuntime) -> Result<(), Fail> {
    let mut trial = trial_of(rt.alloc(), &FOUR_GATES, 2)?;
    refuse_all(&mut trial, REFUSED)
}

const WITHOUT_ROOM: &[(Step, EditRefusal)] = &[
    (
        Step::Fix {
            gate: NodeId(6),
            position: 5,
            value: true,
        },
        EditRefusal::NoPin {
            gate: NodeId(6),
            position: 5,
        },
    ),
    (
        Step::Const {
            gate: NodeId(6),
            position: 0,
        },
        EditRefusal::RuleNotMet {
            rule: Rule::Const,
            node: NodeId(6),
        },
    ),
    (
        Step::Add {
            gate: NodeId(9),
            node: NodeId(2),
        },
        EditRefusal::Full,
    ),
];

#[test]
fn pins_and_room(rt: HostRuntime) -> Result<(), Fail> {
    let mut trial = trial_of(rt.alloc(), &FOUR_GATES, 0)?;
    refuse_all(&mut trial, WITHOUT_ROOM)
}

// Whether an addition is made, but not again.
fn adds_once(trial: &mut Trial) -> bool {
    if trial.apply(add_step(9, 2)).is_err() || trial.apply(add_step(9, 2)).is_ok() {
        return false;
    }
    is_read(trial.graph(), 2, &[(6, 0), (7, 0), (9, 2)])
        && trial.graph().wire_count() == 9
        && trial.steps().len() == 1
}

// Whether nothing of it is left.
fn is_as_before(graph: &Graph) -> bool {
    graph.wire_count() == 8
        && is_read(graph, 2, &[(6, 0), (7, 0)])
        && is_read(graph, 8, &[(9, 0)])
        && graph.epoch() == 0
}

#[test]
fn add_and_back(rt: HostRuntime) -> Result<(), Fail> {
    let mut trial = trial_of(rt.alloc(), &FOUR_GATES, 2)?;
    assert!(rt; adds_once(&mut trial));
    let graph = trial.rollback();
    assert!(rt; is_as_before(&graph));
    Ok(())
}

// Whether these are the steps that tidy the net, in order.
pub(crate) fn tidies(trial: &mut Trial, steps: &[Step]) -> bool {
    for wanted in steps {
        if trial.tidy_one() != Ok(Some(*wanted)) {
            return false;
        }
    }
    matches!(trial.tidy_one(), Ok(None))
}

const SAME: Step = Step::Same {
    gate: NodeId(3),
    position: 1,
};

const TIDIED: &[Step] = &[
    SAME,
    Step::OnePin { gate: NodeId(3) },
    Step::Dead { gate: NodeId(3) },
];

#[test]
fn tidying(rt: HostRuntime) -> Result<(), Fail> {
    let mut trial = trial_of(rt.alloc(), &BUFFER, 2)?;
    assert!(rt; first_rule(trial.graph()) == Some(SAME));
    assert!(rt; tidies(&mut trial, TIDIED));
    let graph = trial.commit();
    assert!(rt; graph.epoch() == 1 && graph.wire_count() == 0 && first_rule(&graph).is_none());
    Ok(())
}
