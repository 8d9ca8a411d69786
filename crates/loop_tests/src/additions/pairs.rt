// The pairs of a net, listed and tried one by one by public calls alone: each in a fresh trial of a copy of the graph, with
// the plain search for refutations and a plain sweep.
ghost use Rattle.std.specs.Prelude.{◌≤◌, ◌+◌};
ghost use Rattle.gate_graph.specs.Circuit.{live_nodes, pins_taken};

use super::drawn::draw_net;
use super::optimise_for;
use candidate_wires::{Candidate, Pair, added_pin, candidates, control_of, least_free, targets};
use gate_graph::{Graph, Question, faults_of};
use implications::{Closed, Engine};
use recursive_learning::refute;
use rm_base::{Fault, NodeId};
use std::alloc::Global;
use std::test::Fail;
use test_nets::build_net;
use test_nets::worked::FOUR_GATES;
use wire_edit::{Room, Step, Trial};

// Whether the fault is refuted at depth 1.
fn is_refuted(alloc: Global, graph: &Graph, fault: &Fault) -> Result<bool, Fail> {
    let Some(_) = graph.driver(fault.gate, fault.position) else {
        return Err("no pin".into());
    };
    let question = Question {
        graph,
        fault: *fault,
    };
    let mut engine = Engine::new(alloc, graph)?;
    match refute(alloc, &mut engine, &question, 1)? {
        Closed::Clash(_tree) => Ok(true),
        Closed::Open(_facts) => Ok(false),
    }
}

// The first refuted fault, if there is one.
fn refuted_in(alloc: Global, graph: &Graph) -> Result<Option<Fault>, Fail> {
    let faults = faults_of(alloc, graph)?;
    for fault in faults.as_slice() {
        if is_refuted(alloc, graph, fault)? {
            return Ok(Some(*fault));
        }
    }
    Ok(None)
}

fn apply(trial: &mut Trial, step: Step) -> Result<(), Fail> {
    match trial.apply(step) {
        Ok(()) => Ok(()),
        Err(_) => Err("refused".into()),
    }
}

fn tidy(trial: &mut Trial) -> Result<(), Fail> {
    for _ in 0..1000u32 {
        match trial.tidy_one() {
            Ok(Some(_step)) => {}
            Ok(None) => return Ok(()),
            Err(_) => return Err("no room".into()),
        }
    }
    Err("never tidy".into())
}

fn fix(trial: &mut Trial, fault: &Fault) -> Result<(), Fail> {
    let step = Step::Fix {
        gate: fault.gate,
        position: fault.position,
        value: fault.value,
    };
    apply(trial, step)?;
    tidy(trial)
}

// Fixes refuted pins until none is left.
fn sweep(alloc: Global, trial: &mut Trial) -> Result<(), Fail> {
    for _ in 0..1000u32 {
        match refuted_in(alloc, trial.graph())? {
            Some(fault) => fix(trial, &fault)?,
            None => return Ok(()),
        }
    }
    Err("never swept".into())
}

// The node that a candidate's gate is to read, its Not made first where it is fresh.
fn driver_of(trial: &mut Trial, candidate: &Candidate) -> Result<NodeId, Fail> {
    if !candidate.fresh {
        return Ok(candidate.node);
    }
    let made = least_free(trial.graph());
    let step = Step::NewNot {
        node: candidate.node,
    };
    apply(trial, step)?;
    Ok(made)
}

// Adds the wire; the fault of its pin at the noncontrolling value.
fn add_wire(trial: &mut Trial, candidate: &Candidate) -> Result<Fault, Fail> {
    let gate = candidate.gate;
    let node = driver_of(trial, candidate)?;
    let Some(control) = control_of(trial.graph(), gate) else {
        return Err("neither And nor Or".into());
    };
    let pin = added_pin(trial.graph(), gate, !control);
    apply(trial, Step::Add { gate, node })?;
    Ok(pin)
}

// Adds the wire and fixes the target, as far as both faults are refuted, and sweeps where that leaves no more wires; how
// many there are then.
fn try_replacing(alloc: Global, trial: &mut Trial, pair: &Pair) -> Result<Option<u32>, Fail> {
    let before = trial.graph().wire_count();
    let pin = add_wire(trial, &pair.candidate)?;
    if !is_refuted(alloc, trial.graph(), &pin)? {
        return Ok(None);
    }
    if !is_refuted(alloc, trial.graph(), &pair.fault)? {
        return Ok(None);
    }
    fix(trial, &pair.fault)?;
    if trial.graph().wire_count() > before {
        return Ok(None);
    }
    sweep(alloc, trial)?;
    Ok(Some(trial.graph().wire_count()))
}

// Room for any try over the nets of this page.
const ROOM: Room = Room {
    pins: 2,
    nodes: 1,
    steps: 1000,
};

// A trial of a copy of the graph.
fn begin_trial(alloc: Global, graph: &Graph) -> Result<Trial, Fail>
    requires { pins_taken graph.now + live_nodes graph.now ≤ 1048576 }
{
    let copy = graph.copy(alloc)?;
    match Trial::begin(alloc, copy, ROOM) {
        Ok(trial) => Ok(trial),
        Err(_) => Err("no memory".into()),
    }
}

// Whether the pair leaves fewer wires.
fn pays(alloc: Global, graph: &Graph, pair: &Pair) -> Result<bool, Fail>
    requires { pins_taken graph.now + live_nodes graph.now ≤ 1048576 }
{
    let mut trial = begin_trial(alloc, graph)?;
    match try_replacing(alloc, &mut trial, pair)? {
        Some(wires) => Ok(wires < graph.wire_count()),
        None => Ok(false),
    }
}

// Adds the pairs of a target and its candidates.
fn push_each(found: &[Candidate], fault: Fault, pairs: &mut Vec<Pair>) -> Result<(), Fail> {
    for candidate in found {
        pairs.push(Pair {
            fault,
            candidate: *candidate,
        })?;
    }
    Ok(())
}

// Adds the pairs of a target.
fn push_pairs(
    alloc: Global,
    graph: &Graph,
    fault: Fault,
    pairs: &mut Vec<Pair>,
) -> Result<(), Fail> {
    let Some(_) = graph.driver(fault.gate, fault.position) else {
        return Err("no pin".into());
    };
    let question = Question { graph, fault };
    let mut engine = Engine::new(alloc, graph)?;
    let Closed::Open(facts) = engine.close(&question)? else {
        return Ok(());
    };
    let found = candidates(alloc, &question, &facts)?;
    push_each(found.as_slice(), fault, pairs)
}

fn pairs_of(alloc: Global, graph: &Graph) -> Result<Vec<Pair>, Fail> {
    let mut pairs = Vec::new(alloc);
    let faults = targets(alloc, graph)?;
    for fault in faults.as_slice() {
        push_pairs(alloc, graph, *fault, &mut pairs)?;
    }
    Ok(pairs)
}

// How many pairs a net has, and how many of them leave fewer wires.
fn tally(alloc: Global, graph: &Graph) -> Result<(usize, u32), Fail>
    requires { pins_taken graph.now + live_nodes graph.now ≤ 1048576 }
{
    let pairs = pairs_of(alloc, graph)?;
    let mut paying = 0u32;
    for pair in pairs.as_slice() {
        if pays(alloc, graph, pair)? {
            paying = paying.saturating_add(1);
        }
    }
    Ok((pairs.len(), paying))
}

// With node 2 at the last gate, each of the two pins that read it elsewhere can be fixed, and the sweep fixes the other one.
#[test]
fn pairs_that_pay(rt: HostRuntime) -> Result<(), Fail> {
    let graph = build_net(rt.alloc(), &FOUR_GATES)?;
    assert_eq!(rt; tally(rt.alloc(), &graph)?, (58, 2));
    Ok(())
}

fn settled_tally(alloc: Global, seed: u64) -> Result<(usize, u32), Fail> {
    let net = draw_net(alloc, seed)?;
    let end = optimise_for(alloc, net.graph, 100_000)?;
    tally(alloc, &end.graph)
}

// Seeds of drawn nets, and the pairs of each settled net.
const SETTLED: [(u64, usize); 6] = [(6, 25), (8, 15), (10, 8), (21, 36), (24, 10), (28, 14)];

#[test]
fn no_pair_of_a_settled_net_pays(rt: HostRuntime) -> Result<(), Fail> {
    for (seed, pairs) in SETTLED {
        assert_eq!(rt; settled_tally(rt.alloc(), seed)?, (pairs, 0));
    }
    Ok(())
}
