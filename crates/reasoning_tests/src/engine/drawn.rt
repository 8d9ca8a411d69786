// Every fault of fifty small nets, against all assignments.
ghost use Rattle.std.specs.Prelude.{◌≡◌, ◌<◌, ◌≤◌, length};
ghost use Rattle.gate_graph.specs.Circuit.{net_of};

use crate::assignments::some_detects;
use gate_graph::{Graph, Question};
use implications::{Closed, Engine};
use rm_base::{Fault, NodeId};
use std::alloc::Global;
use std::test::Fail;
use test_nets::{Draws, Gate, NetBuilder};

const SOURCES: u32 = 4;

const GATES: u32 = 9;

// Adds a gate whose drivers are constants, sources and gates before it.
fn add_gate(net: &mut NetBuilder, draws: &mut Draws, nodes: u32) -> Result<NodeId, Fail>
    requires { 0 < nodes }
{
    let kind = draws.below(5);
    let one = draws.below(nodes);
    let other = draws.below(nodes);
    match kind {
        0 | 1 => net.add(Gate::And(&[one, other])),
        2 | 3 => net.add(Gate::Or(&[one, other])),
        _ => net.add(Gate::Not(one)),
    }
}

// The net of a seed, of which the last gate is observed.
fn draw_net(alloc: Global, seed: u64) -> Result<Graph, Fail> {
    let mut draws = Draws::new(seed);
    let mut net = NetBuilder::new(alloc, SOURCES)?;
    for at in 0..GATES {
        add_gate(&mut net, &mut draws, 2 + SOURCES + at)?;
    }
    net.observe(1 + SOURCES + GATES)?;
    Ok(net.finish())
}

// How many faults were closed, how many of these clashed, and how many clashed though some assignment detects them.
#[derive(Clone, Copy, Debug, PartialEq, Eq)]
struct Count {
    faults: u32,
    clashes: u32,
    wrong: u32,
}

// Closes one fault, and counts.
fn count_fault(
    alloc: Global,
    engine: &mut Engine,
    graph: &Graph,
    fault: &Fault,
    count: &mut Count,
) -> Result<(), Fail>
    requires { length (net_of graph.now).nodes ≤ engine.old.numbers }
    ensures { engine.new.numbers ≡ engine.old.numbers }
{
    let Some(_) = graph.driver(fault.gate, fault.position) else {
        return Ok(());
    };
    let question = Question {
        graph,
        fault: *fault,
    };
    count.faults = count.faults.wrapping_add(1);
    let Closed::Clash(_) = engine.close(&question)? else {
        return Ok(());
    };
    count.clashes = count.clashes.wrapping_add(1);
    if some_detects(alloc, &question)? {
        count.wrong = count.wrong.wrapping_add(1);
    }
    Ok(())
}

// Closes all faults of a net.
fn count_faults(alloc: Global, graph: &Graph, count: &mut Count) -> Result<(), Fail> {
    let mut engine = Engine::new(alloc, graph)?;
    for number in 0..4 * GATES {
        let fault = Fault {
            gate: NodeId(2 + SOURCES + number / 4),
            position: number % 2,
            value: number % 4 < 2,
        };
        count_fault(alloc, &mut engine, graph, &fault, count)?;
    }
    Ok(())
}

#[test]
fn detected_faults_are_open(rt: HostRuntime) -> Result<(), Fail> {
    let mut count = Count {
        faults: 0,
        clashes: 0,
        wrong: 0,
    };
    for seed in 1..51u64 {
        let graph = draw_net(rt.alloc(), seed)?;
        count_faults(rt.alloc(), &graph, &mut count)?;
    }
    assert_eq!(rt; count.wrong, 0);
    assert!(rt; count.faults > 1000);
    assert!(rt; count.clashes > 100);
    Ok(())
}
