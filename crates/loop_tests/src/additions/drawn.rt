// Drawn nets, before and after the loop, for all assignments of their six sources.
ghost use Rattle.std.specs.Prelude.{◌<◌, ◌≤◌, ◌+◌, IfOk};
ghost use Rattle.fault_sim.specs.LaneStates.{Fits};
ghost use Rattle.gate_graph.specs.Circuit.{live_nodes, net_of, pins_taken};

use super::{counts_made, optimise_for, settled_after};
use fault_sim::Lanes;
use gate_graph::Graph;
use std::alloc::Global;
use std::test::Fail;
use test_nets::{Draws, Gate, NetBuilder};

const GATES: u32 = 14;

const OBSERVED: [u32; 3] = [18, 20, 21];

// The words of the constants and the sources: bit k of the number of an assignment is the source k.
const FIRST: [u64; 8] = [
    0,
    u64::MAX,
    0xaaaa_aaaa_aaaa_aaaa,
    0xcccc_cccc_cccc_cccc,
    0xf0f0_f0f0_f0f0_f0f0,
    0xff00_ff00_ff00_ff00,
    0xffff_0000_ffff_0000,
    0xffff_ffff_0000_0000,
];

/// A drawn net, and the words of its nodes as they were drawn.
#[derive(Drop)]
pub struct DrawnNet {
    pub graph: Graph,
    words: Vec<u64>,
}

fn word_at(words: &[u64], node: u32) -> u64 {
    match words.get(node as usize) {
        Some(word) => *word,
        None => 0,
    }
}

// Adds a gate whose drivers are below the bound; its word.
fn add_gate(net: &mut NetBuilder, draws: &mut Draws, words: &[u64], bound: u32) -> Result<u64, Fail>
    requires { 0 < bound }
{
    let kind = draws.below(5);
    let one = draws.below(bound);
    let other = draws.below(bound);
    let word = word_at(words, one);
    match kind {
        0 | 1 => {
            net.add(Gate::And(&[one, other]))?;
            Ok(word & word_at(words, other))
        }
        2 | 3 => {
            net.add(Gate::Or(&[one, other]))?;
            Ok(word | word_at(words, other))
        }
        _ => {
            net.add(Gate::Not(one))?;
            Ok(word ^ u64::MAX)
        }
    }
}

/// A net whose gates read constants, sources and gates before them.
pub fn draw_net(alloc: Global, seed: u64) -> Result<DrawnNet, Fail>
    ensures few { IfOk result (λ d. pins_taken d.graph + live_nodes d.graph ≤ 300000) }
{
    let mut draws = Draws::new(seed);
    let mut net = NetBuilder::new(alloc, 6)?;
    let mut words = Vec::from_slice(alloc, &FIRST)?;
    for at in 0..GATES {
        let word = add_gate(&mut net, &mut draws, words.as_slice(), 8 + at)?;
        words.push(word)?;
    }
    for node in OBSERVED {
        net.observe(node)?;
    }
    Ok(DrawnNet {
        graph: net.finish(),
        words,
    })
}

// Adds the words of the observed nodes, by simulation.
fn push_observed(graph: &Graph, lanes: &mut Lanes, found: &mut Vec<u64>) -> Result<(), Fail>
    requires { Fits lanes.old (net_of graph.now) }
{
    if graph.source_count() != 6 {
        return Err("other sources".into());
    }
    lanes.simulate64(graph, &FIRST[2..]);
    for node in graph.observed_points() {
        found.push(lanes.value(node))?;
    }
    Ok(())
}

fn observed_words(alloc: Global, graph: &Graph) -> Result<Vec<u64>, Fail> {
    let mut found = Vec::new(alloc);
    let mut lanes = Lanes::new(alloc, graph)?;
    push_observed(graph, &mut lanes, &mut found)?;
    Ok(found)
}

// How many wires the loop takes away from the net of a seed.
fn wires_less(alloc: Global, seed: u64) -> Result<u32, Fail> {
    let net = draw_net(alloc, seed)?;
    let words = net.words.as_slice();
    let wanted = [word_at(words, 18), word_at(words, 20), word_at(words, 21)];
    let end = optimise_for(alloc, net.graph, 100_000)?;
    let found = observed_words(alloc, &end.graph)?;
    if found.as_slice() != wanted.as_slice() {
        return Err("another function".into());
    }
    Ok(end.before.wrapping_sub(end.graph.wire_count()))
}

// Seed, tries, additions, fixes, other steps, and wires at the end.
const ENDS: [(u64, u32, u64, u64, u64, u32); 12] = [
    (2, 9, 0, 0, 16, 8),
    (6, 31, 1, 3, 18, 8),
    (8, 15, 0, 0, 21, 6),
    (10, 12, 1, 1, 16, 8),
    (18, 2, 1, 2, 18, 4),
    (19, 2, 1, 1, 24, 3),
    (21, 57, 3, 6, 20, 12),
    (24, 17, 2, 2, 18, 8),
    (27, 20, 3, 4, 26, 5),
    (28, 14, 0, 1, 15, 7),
    (36, 3, 1, 1, 25, 3),
    (40, 2, 1, 3, 27, 3),
];

#[test]
fn drawn_ends(rt: HostRuntime) -> Result<(), Fail> {
    for (seed, tries, adds, fixes, local, wires) in ENDS {
        let net = draw_net(rt.alloc(), seed)?;
        let end = optimise_for(rt.alloc(), net.graph, 100_000)?;
        assert_eq!(rt; end.outcome, settled_after(tries));
        assert_eq!(rt; end.made, counts_made(adds, fixes, local));
        assert_eq!(rt; end.graph.wire_count(), wires);
    }
    Ok(())
}

#[test]
fn functions_stay(rt: HostRuntime) -> Result<(), Fail> {
    let mut less = 0u32;
    for seed in 1..41u64 {
        less = less.wrapping_add(wires_less(rt.alloc(), seed)?);
    }
    assert!(rt; less > 100);
    Ok(())
}
