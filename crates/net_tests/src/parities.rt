//! Steps at Xors, by hand, and scripts of steps over them with a rollback.
ghost use Rattle.std.specs.Prelude.{◌≤◌, ◌+◌};
ghost use Rattle.gate_graph.specs.Circuit.{live_nodes, pins_taken};

use crate::trial_scripts::{list_all, play};
use crate::trials::{begin_trial, refuse_all, tidies, trial_of};
use gate_graph::Graph;
use gate_net::Kind;
use rm_base::NodeId;
use std::alloc::Global;
use std::test::Fail;
use test_nets::{Gate, Wiring, build_net};
use wire_edit::{EditRefusal, Rule, Step, Trial};

// (a differs from b) a, where the Xor may be tidied on from.
const PARITY: Wiring<'static> = Wiring {
    sources: 2,
    gates: &[Gate::Xor(2, 3), Gate::And(&[4, 2])],
    observed: &[5],
};

// a differs from a, and from b.
const TWICE: Wiring<'static> = Wiring {
    sources: 2,
    gates: &[Gate::Xor(2, 2), Gate::Xor(4, 3)],
    observed: &[5],
};

// The parity of four in three gates, and the And and the Or of its ends.
const MANY: Wiring<'static> = Wiring {
    sources: 4,
    gates: &[
        Gate::Xor(2, 3),
        Gate::Xor(6, 4),
        Gate::Xor(7, 5),
        Gate::And(&[6, 8]),
        Gate::Or(&[9, 7]),
        Gate::Xor(10, 6),
        Gate::Not(11),
    ],
    observed: &[8, 12],
};

macro_rules! step {
    (fix $gate:literal $position:literal $value:literal) => {
        Step::Fix { gate: NodeId($gate), position: $position, value: $value }
    };
    (constant $gate:literal $position:literal) => {
        Step::Const { gate: NodeId($gate), position: $position }
    };
    (same $gate:literal $position:literal) => {
        Step::Same { gate: NodeId($gate), position: $position }
    };
    (one $gate:literal) => {
        Step::OnePin { gate: NodeId($gate) }
    };
    (dead $gate:literal) => {
        Step::Dead { gate: NodeId($gate) }
    };
}

// A step that is made, if any, the steps that tidy the net from there on, and how many wires are left.
type Row = (Option<Step>, &'static [Step], u32);

const ON_PARITY: [Row; 4] = [
    // Beside a 1 it becomes a Not, at either pin.
    (Some(step!(fix 4 1 true)), &[step!(constant 4 1)], 3),
    (Some(step!(fix 4 0 true)), &[step!(constant 4 0)], 3),
    // Beside a 0 its reader reads the other driver: a at both pins, which is a alone.
    (
        Some(step!(fix 4 1 false)),
        &[
            step!(constant 4 1),
            step!(dead 4),
            step!(same 5 1),
            step!(one 5),
            step!(dead 5),
        ],
        0,
    ),
    // Or b and a.
    (
        Some(step!(fix 4 0 false)),
        &[step!(constant 4 0), step!(dead 4)],
        2,
    ),
];

// The one of equal drivers is 0, and the other one the source.
const ON_TWICE: [Row; 1] = [(
    None,
    &[
        step!(same 4 1),
        step!(dead 4),
        step!(constant 5 0),
        step!(dead 5),
    ],
    0,
)];

// Whether the steps follow, and leave so many wires.
fn follow(trial: &mut Trial, row: &Row) -> bool {
    if let Some(step) = row.0 {
        if trial.apply(step).is_err() {
            return false;
        }
    }
    tidies(trial, row.1) && trial.graph().wire_count() == row.2
}

// Whether they do so on the net of a table, and a rollback gives it back.
fn follow_and_back(alloc: Global, wiring: &Wiring, row: &Row) -> Result<bool, Fail> {
    let graph = build_net(alloc, wiring)?;
    let before = list_all(alloc, &graph)?;
    let mut trial = begin_trial(alloc, graph, 2)?;
    let follows = follow(&mut trial, row);
    let graph = trial.rollback();
    Ok(follows && list_all(alloc, &graph)?.as_slice() == before.as_slice())
}

#[test]
fn rules_at_parities(rt: HostRuntime) -> Result<(), Fail> {
    for row in &ON_PARITY {
        assert!(rt; follow_and_back(rt.alloc(), &PARITY, row)?);
    }
    for row in &ON_TWICE {
        assert!(rt; follow_and_back(rt.alloc(), &TWICE, row)?);
    }
    Ok(())
}

// Whether the gate 4 is of this kind, and this is its first driver.
fn is_over(graph: &Graph, kind: Kind, driver: u32) -> bool {
    graph.kind(NodeId(4)) == Some(kind) && graph.driver(NodeId(4), 0) == Some(NodeId(driver))
}

#[test]
fn a_parity_becomes_a_not(rt: HostRuntime) -> Result<(), Fail> {
    let mut trial = trial_of(rt.alloc(), &PARITY, 2)?;
    assert!(rt; trial.apply(step!(fix 4 0 true)).is_ok());
    assert!(rt; trial.apply(step!(constant 4 0)).is_ok());
    assert!(rt; is_over(trial.graph(), Kind::Not, 3));
    let graph = trial.rollback();
    assert!(rt; is_over(&graph, Kind::Xor, 2));
    Ok(())
}

// Steps that a parity doesn't take.
const REFUSED: &[(Step, EditRefusal)] = &[
    (
        Step::Add {
            gate: NodeId(4),
            node: NodeId(3),
        },
        EditRefusal::WrongKind { node: NodeId(4) },
    ),
    (
        step!(same 4 1),
        EditRefusal::RuleNotMet {
            rule: Rule::Same,
            node: NodeId(4),
        },
    ),
    (
        Step::NoPins { gate: NodeId(4) },
        EditRefusal::RuleNotMet {
            rule: Rule::NoPins,
            node: NodeId(4),
        },
    ),
    (
        Step::OnePin { gate: NodeId(4) },
        EditRefusal::RuleNotMet {
            rule: Rule::OnePin,
            node: NodeId(4),
        },
    ),
];

#[test]
fn refusals_at_parities(rt: HostRuntime) -> Result<(), Fail> {
    let mut trial = trial_of(rt.alloc(), &PARITY, 2)?;
    refuse_all(&mut trial, REFUSED)
}

// Whether a script of calls is undone by a rollback.
fn plays_and_back(alloc: Global, graph: Graph, seed: u32) -> Result<bool, Fail>
    requires few { pins_taken graph + live_nodes graph ≤ 300000 }
{
    let before = list_all(alloc, &graph)?;
    let mut trial = begin_trial(alloc, graph, 10)?;
    let (made, _refused) = play(&mut trial, seed, 300);
    let graph = trial.rollback();
    Ok(made > 5 && list_all(alloc, &graph)?.as_slice() == before.as_slice())
}

#[test]
fn scripts_over_parities_and_back(rt: HostRuntime) -> Result<(), Fail> {
    for seed in 1..9u32 {
        let graph = build_net(rt.alloc(), &MANY)?;
        assert!(rt; plays_and_back(rt.alloc(), graph, seed)?, "at seed {seed}");
    }
    Ok(())
}
