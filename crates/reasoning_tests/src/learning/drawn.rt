// Small nets that are drawn by a fixed rule, against all assignments of their four sources.
ghost use Rattle.std.specs.Prelude.{◌≤◌};

use super::answers::item_count;
use crate::assignments::some_detects;
use gate_graph::{Graph, Question};
use rm_base::{Fault, NodeId};
use std::alloc::Global;
use std::test::Fail;
use test_nets::{Draws, Gate, NetBuilder};

pub const GATES: u32 = 8;

// Adds the gate of the number, with two different drivers among the nodes from 2 on, or a Not.
fn add_gate(net: &mut NetBuilder, draws: &mut Draws, number: u32) -> Result<NodeId, Fail>
    requires least { 4 ≤ number }
    requires most { number ≤ 1000 }
{
    let nodes = number - 2;
    let kind = draws.below(5);
    let one = draws.below(nodes);
    let other = (one + 1 + draws.below(nodes - 1)) % nodes;
    match kind {
        0 | 1 => net.add(Gate::And(&[one + 2, other + 2])),
        2 | 3 => net.add(Gate::Or(&[one + 2, other + 2])),
        _ => net.add(Gate::Not(one + 2)),
    }
}

/// The net of a seed, of which the last gate is observed.
pub fn draw_net(alloc: Global, seed: u64) -> Result<Graph, Fail> {
    let mut draws = Draws::new(seed);
    let mut net = NetBuilder::new(alloc, 4)?;
    for at in 0..GATES {
        add_gate(&mut net, &mut draws, at + 6)?;
    }
    net.observe(5 + GATES)?;
    Ok(net.finish())
}

// At each depth, no fault that some assignment detects is refuted, and what is refuted stays so deeper.
fn is_sound(alloc: Global, graph: &Graph, fault: &Fault) -> Result<bool, Fail> {
    let Some(_) = graph.driver(fault.gate, fault.position) else {
        return Ok(true);
    };
    let question = Question {
        graph,
        fault: *fault,
    };
    let detected = some_detects(alloc, &question)?;
    let mut before = false;
    for depth in 0..3u8 {
        let refuted = item_count(alloc, &question, depth)?.is_some();
        if detected && refuted {
            return Ok(false);
        }
        if before && !refuted {
            return Ok(false);
        }
        before = refuted;
    }
    Ok(true)
}

// Whether all faults of the drawn net have sound answers.
fn is_net_sound(alloc: Global, seed: u64) -> Result<bool, Fail> {
    let graph = draw_net(alloc, seed)?;
    for at in 0..4 * GATES {
        let fault = Fault {
            gate: NodeId(at / 4 + 6),
            position: at / 2 % 2,
            value: at % 2 == 1,
        };
        if !is_sound(alloc, &graph, &fault)? {
            return Ok(false);
        }
    }
    Ok(true)
}

#[test]
fn fifty_drawn_nets(rt: HostRuntime) -> Result<(), Fail> {
    for seed in 1..51u64 {
        let sound = is_net_sound(rt.alloc(), seed)?;
        assert!(rt; sound, "at seed {seed}");
    }
    Ok(())
}
