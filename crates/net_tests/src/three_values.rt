//! Forward reading on three nets, against values written by hand.
ghost use Rattle.gate_net.specs.Net.{Net};
ghost use Rattle.ternary_sim.specs.Sims.{Fits};

use gate_graph::{Graph, Question};
use rm_base::vectors::Value3;
use rm_base::{NodeId, SourceNo};
use std::alloc::Global;
use std::test::Fail;
use ternary_sim::Sim;
use test_nets::worked::{ABSORBED, FOUR_GATES_AND_NOT, ONE_GATE};
use test_nets::{Wiring, build_net, fault_at};

// Values of the sources; what three nodes then have, good, faulty and whether equal; detected and quiet.
#[derive(Clone, Copy)]
struct Case {
    sources: [Value3; 4],
    reads: [(u32, Value3, Value3, bool); 3],
    detected: bool,
    quiet: bool,
}

const U: Value3 = Value3::Unknown;

const O: Value3 = Value3::Zero;

const I: Value3 = Value3::One;

const CASES: [Case; 4] = [
    // Nothing is known.
    Case {
        sources: [U, U, U, U],
        reads: [(6, U, U, false), (7, U, U, true), (9, U, U, false)],
        detected: false,
        quiet: false,
    },
    // The stuck pin reads what it is stuck at.
    Case {
        sources: [I, U, U, U],
        reads: [(6, U, U, true), (8, U, U, true), (9, U, U, true)],
        detected: false,
        quiet: true,
    },
    // The fault is seen at node 9.
    Case {
        sources: [O, I, U, I],
        reads: [(6, O, I, false), (8, O, I, false), (9, O, I, false)],
        detected: true,
        quiet: false,
    },
    // Node 9 is 0 with the fault and without it.
    Case {
        sources: [O, U, U, O],
        reads: [(6, O, U, false), (8, O, U, false), (9, O, O, true)],
        detected: false,
        quiet: true,
    },
];

const FAULT: (u32, u32, bool) = (6, 0, true);

// With the fault, gate 5 still reads source 2.
const COVERED: [Case; 4] = [
    // The stuck pin alone makes gate 4 known.
    Case {
        sources: [U, U, U, U],
        reads: [(2, U, U, true), (4, U, O, false), (5, U, U, false)],
        detected: false,
        quiet: false,
    },
    Case {
        sources: [O, U, U, U],
        reads: [(2, O, O, true), (4, O, O, true), (5, O, O, true)],
        detected: false,
        quiet: true,
    },
    // Gate 4 differs, and gate 5 doesn't.
    Case {
        sources: [I, I, U, U],
        reads: [(2, I, I, true), (4, I, O, false), (5, I, I, true)],
        detected: false,
        quiet: true,
    },
    Case {
        sources: [I, U, U, U],
        reads: [(3, U, U, true), (4, U, O, false), (5, I, I, true)],
        detected: false,
        quiet: true,
    },
];

const COVERED_FAULT: (u32, u32, bool) = (4, 0, false);

const ALONE: [Case; 4] = [
    Case {
        sources: [U, U, U, U],
        reads: [(2, U, U, true), (3, U, U, true), (4, U, U, false)],
        detected: false,
        quiet: false,
    },
    // The driver of the stuck pin has the value.
    Case {
        sources: [U, I, U, U],
        reads: [(2, U, U, true), (3, I, I, true), (4, U, U, true)],
        detected: false,
        quiet: true,
    },
    // It has the other one, and that alone tells nothing.
    Case {
        sources: [U, O, U, U],
        reads: [(2, U, U, true), (3, O, O, true), (4, O, U, false)],
        detected: false,
        quiet: false,
    },
    Case {
        sources: [I, O, U, U],
        reads: [(2, I, I, true), (3, O, O, true), (4, O, I, false)],
        detected: true,
        quiet: false,
    },
];

const ALONE_FAULT: (u32, u32, bool) = (4, 1, true);

fn set(sim: &mut Sim, source: u32, value: Value3)
    ensures { (net : Net) → Fits sim.old net → Fits sim.new net }
{
    if (source as usize) < sim.source_count() {
        sim.set(SourceNo(source), value);
    }
}

fn reads(sim: &Sim, read: (u32, Value3, Value3, bool)) -> bool {
    let node = NodeId(read.0);
    sim.good(node) == read.1 && sim.faulty(node) == read.2 && sim.equal(node) == read.3
}

// Whether the case reads as it should.
fn holds(alloc: Global, graph: &Graph, pin: (u32, u32, bool), case: &Case) -> Result<bool, Fail> {
    let fault = fault_at(graph, pin.0, pin.1, pin.2)?;
    let mut sim = Sim::new(alloc, graph)?;
    set(&mut sim, 0, case.sources[0]);
    set(&mut sim, 1, case.sources[1]);
    set(&mut sim, 2, case.sources[2]);
    set(&mut sim, 3, case.sources[3]);
    sim.run_fault(&Question { graph, fault });
    let ends = sim.is_detected(graph) == case.detected && sim.quiet(graph) == case.quiet;
    Ok(
        ends && reads(&sim, case.reads[0])
            && reads(&sim, case.reads[1])
            && reads(&sim, case.reads[2]),
    )
}

// Fails at the first case that reads otherwise.
fn hold(alloc: Global, net: &Wiring, pin: (u32, u32, bool), cases: &[Case]) -> Result<(), Fail> {
    let graph = build_net(alloc, net)?;
    let mut at = 0u32;
    for case in cases {
        if !holds(alloc, &graph, pin, case)? {
            return Err(Fail::new(format_args!("at case {at}")));
        }
        at = at.saturating_add(1);
    }
    Ok(())
}

#[test]
fn four_gates_and_a_not(rt: HostRuntime) -> Result<(), Fail> {
    let cases = CASES;
    hold(rt.alloc(), &FOUR_GATES_AND_NOT, FAULT, &cases)
}

#[test]
fn a_gate_beside_its_source(rt: HostRuntime) -> Result<(), Fail> {
    let cases = COVERED;
    hold(rt.alloc(), &ABSORBED, COVERED_FAULT, &cases)
}

#[test]
fn one_gate_alone(rt: HostRuntime) -> Result<(), Fail> {
    let cases = ALONE;
    hold(rt.alloc(), &ONE_GATE, ALONE_FAULT, &cases)
}
