// First vectors of four blocks, against a reading of each vector in turn.
ghost use Rattle.std.specs.Prelude.{◌<◌, IfOk, OnOk};
ghost use Rattle.gate_graph.specs.Circuit.{net_of};
ghost use Rattle.fault_sim.specs.BlockStates.{AreSimulated};
ghost use Rattle.ternary_sim.specs.Sims.{Fits as FitsSim};

use super::drawn::{ALL, GATES, drawn_net, give};
use fault_sim::Blocks;
use gate_graph::{Graph, Question};
use rm_base::{Fault, NodeId};
use std::alloc::Global;
use std::test::Fail;
use ternary_sim::Sim;

// The high bits of the numbers of the vectors of each block.
const HIGH: [[u64; 2]; 4] = [[0, 0], [u64::MAX, 0], [0, u64::MAX], [u64::MAX, u64::MAX]];

// Keeps the 64 vectors whose numbers have these high bits.
fn keep(alloc: Global, graph: &Graph, blocks: &mut Blocks, high: [u64; 2]) -> Result<(), Fail>
    requires simulated { AreSimulated blocks.old (net_of graph.now) }
    ensures simulated { OnOk result (AreSimulated blocks.new (net_of graph.now)) }
{
    let words = [
        ALL[0], ALL[1], ALL[2], ALL[3], ALL[4], ALL[5], high[0], high[1],
    ];
    if graph.source_count() as usize != words.len() {
        return Err("other sources".into());
    }
    if blocks.count() > 100 {
        return Err("many blocks".into());
    }
    blocks.keep64(alloc, graph, &words)?;
    Ok(())
}

// All vectors of eight sources, in order.
fn all_kept(alloc: Global, graph: &Graph) -> Result<Blocks, Fail>
    ensures { IfOk result (λ blocks. AreSimulated blocks (net_of graph.now)) }
{
    let mut blocks = Blocks::new(alloc, graph)?;
    for block in 0..HIGH.len() {
        keep(alloc, graph, &mut blocks, HIGH[block])?;
    }
    if blocks.count() != 4 {
        return Err("other blocks".into());
    }
    Ok(blocks)
}

// The first of the 256 vectors that a reading finds to detect the fault.
fn first_read(sim: &mut Sim, question: &Question<'_>) -> Option<usize>
    requires sim { FitsSim sim.old (net_of question.now.graph.now) }
    ensures sim { FitsSim sim.new (net_of question.now.graph.now) }
{
    for number in 0..256u32 {
        give(sim, question.graph, number);
        sim.run_fault(question);
        if sim.is_detected(question.graph) {
            return Some(number as usize);
        }
    }
    None
}

// Whether the blocks and a reading agree on a fault, where its gate has the pin.
fn agree(blocks: &mut Blocks, sim: &mut Sim, graph: &Graph, fault: &Fault) -> bool
    requires simulated { AreSimulated blocks.old (net_of graph.now) }
    requires sim { FitsSim sim.old (net_of graph.now) }
    ensures simulated { AreSimulated blocks.new (net_of graph.now) }
    ensures sim { FitsSim sim.new (net_of graph.now) }
{
    let Some(_) = graph.driver(fault.gate, fault.position) else {
        return true;
    };
    let question = Question {
        graph,
        fault: *fault,
    };
    blocks.detects_any(&question) == first_read(sim, &question)
}

// Whether they agree on every seventh fault of a net from that one on.
fn all_agree(blocks: &mut Blocks, sim: &mut Sim, graph: &Graph, first: u32) -> bool
    requires simulated { AreSimulated blocks.old (net_of graph.now) }
    requires sim { FitsSim sim.old (net_of graph.now) }
    requires first { first < 7 }
{
    for seventh in 0..6 * GATES / 7 {
        let number = 7 * seventh + first;
        let fault = Fault {
            gate: NodeId(10 + number / 6),
            position: number % 3,
            value: number % 6 < 3,
        };
        if !agree(blocks, sim, graph, &fault) {
            return false;
        }
    }
    true
}

// Whether those of a drawn net agree.
fn is_right(alloc: Global, seed: u64) -> Result<bool, Fail> {
    let graph = drawn_net(alloc, 8, seed)?;
    let mut blocks = all_kept(alloc, &graph)?;
    let mut sim = Sim::new(alloc, &graph)?;
    Ok(all_agree(&mut blocks, &mut sim, &graph, (seed % 7) as u32))
}

#[test]
fn first_of_four_blocks(rt: HostRuntime) -> Result<(), Fail> {
    for seed in 1..21u64 {
        assert!(rt; is_right(rt.alloc(), seed)?, "at seed {seed}");
    }
    Ok(())
}
