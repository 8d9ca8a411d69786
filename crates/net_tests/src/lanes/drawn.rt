// Faults of fifty drawn nets under 64 vectors: one in five of each net, and one vector in eight against a reading.
ghost use Rattle.std.specs.Prelude.{◌+◌, ◌<◌, ◌≤◌, IfOk};
ghost use Rattle.gate_graph.specs.Circuit.{live_nodes, net_of, pins_taken};
ghost use Rattle.fault_sim.specs.LaneStates.{Fits};
ghost use Rattle.ternary_sim.specs.Sims.{Fits as FitsSim};

use fault_sim::Lanes;
use gate_graph::{Graph, Question};
use rm_base::vectors::Value3;
use rm_base::{Fault, NodeId, SourceNo};
use std::alloc::Global;
use std::test::Fail;
use ternary_sim::Sim;

// All vectors of six sources: bit k of the number of a lane is source k.
pub(super) const ALL: [u64; 6] = [
    0xaaaaaaaaaaaaaaaa,
    0xcccccccccccccccc,
    0xf0f0f0f0f0f0f0f0,
    0xff00ff00ff00ff00,
    0xffff0000ffff0000,
    0xffffffff00000000,
];

pub(super) const GATES: u32 = 12;

// A net of so many sources and drawn gates, of which the last one, the third last and another are observed.
pub(super) fn drawn_net(alloc: Global, sources: u32, seed: u64) -> Result<Graph, Fail>
    requires { sources ≤ 8 }
    ensures { IfOk result (λ g. pins_taken g + live_nodes g ≤ 300000) }
{
    test_nets::drawn_net(
        alloc,
        sources,
        GATES,
        &[1 + sources + GATES, sources + GATES - 1],
        seed,
    )
}

// Gives the sources the values of a vector.
pub(super) fn give(sim: &mut Sim, graph: &Graph, lane: u32)
    requires { FitsSim sim.old (net_of graph.now) }
    ensures { FitsSim sim.new (net_of graph.now) }
{
    for source in 0..graph.source_count() {
        let value = if lane.wrapping_shr(source) & 1 == 1 {
            Value3::One
        } else {
            Value3::Zero
        };
        sim.set(SourceNo(source), value);
    }
}

// Whether every eighth lane from that one on agrees with a reading on a fault.
fn agree(lanes: &mut Lanes, sim: &mut Sim, graph: &Graph, fault: &Fault, first: u32) -> bool
    requires lanes { Fits lanes.old (net_of graph.now) }
    requires sim { FitsSim sim.old (net_of graph.now) }
    requires first { first < 8 }
    ensures lanes { Fits lanes.new (net_of graph.now) }
    ensures sim { FitsSim sim.new (net_of graph.now) }
{
    let Some(_) = graph.driver(fault.gate, fault.position) else {
        return true;
    };
    if graph.source_count() as usize != ALL.len() {
        return false;
    }
    let question = Question {
        graph,
        fault: *fault,
    };
    let found = lanes.detect64(&question, &ALL);
    for eighth in 0..8u32 {
        let lane = 8 * eighth + first;
        give(sim, graph, lane);
        sim.run_fault(&question);
        if sim.is_detected(graph) != (found.wrapping_shr(lane) & 1 == 1) {
            return false;
        }
    }
    true
}

// Whether they agree on every fifth fault of a net from that one on.
fn all_agree(lanes: &mut Lanes, sim: &mut Sim, graph: &Graph, first: u32) -> bool
    requires lanes { Fits lanes.old (net_of graph.now) }
    requires sim { FitsSim sim.old (net_of graph.now) }
    requires first { first < 5 }
{
    for fifth in 0..6 * GATES / 5 {
        let number = 5 * fifth + first;
        let fault = Fault {
            gate: NodeId(8 + number / 6),
            position: number % 3,
            value: number % 6 < 3,
        };
        if !agree(lanes, sim, graph, &fault, fifth % 8) {
            return false;
        }
    }
    true
}

// Whether those of a drawn net agree.
fn is_right(alloc: Global, seed: u64) -> Result<bool, Fail> {
    let graph = drawn_net(alloc, 6, seed)?;
    let mut lanes = Lanes::new(alloc, &graph)?;
    let mut sim = Sim::new(alloc, &graph)?;
    Ok(all_agree(&mut lanes, &mut sim, &graph, (seed % 5) as u32))
}

#[test]
fn drawn_nets(rt: HostRuntime) -> Result<(), Fail> {
    for seed in 1..51u64 {
        assert!(rt; is_right(rt.alloc(), seed)?, "at seed {seed}");
    }
    Ok(())
}
