// Few patterns out of many vectors.
ghost use Rattle.std.specs.Prelude.{◌≡◌, IfOk, length};
ghost use Rattle.gate_graph.specs.Circuit.{net_of};
ghost use Rattle.gate_net.specs.Faults.{faults_of as faults_of_net};
ghost use Rattle.test_patterns.specs.Classes.{AreLast};
ghost use Rattle.test_patterns.specs.TestSets.{AreKnown, AreTests};
ghost use Rattle.test_patterns.specs.Inner.Drafts.{HavePins};

use crate::assigning::{Known, assign};
use crate::choosing::greedy_order;
use crate::classes::last_of_classes;
use crate::set::{Draft, TestSet};
use gate_graph::{Graph, faults_of};
use rm_base::{NoMemory, Vector};
use std::alloc::Global;

// How often the order is turned round.
const TURNS: usize = 4;

// All numbers below one, the last one first.
fn falling(alloc: Global, count: usize) -> Result<Vec<usize>, NoMemory> {
    let mut order = Vec::new(alloc);
    for back in 0..count {
        order.push(count - 1 - back)?;
    }
    Ok(order)
}

// The same numbers, the last one first.
fn turned(alloc: Global, order: &[usize]) -> Result<Vec<usize>, NoMemory> {
    let mut other = Vec::new(alloc);
    for back in 0..order.len() {
        other.push(order[order.len() - 1 - back])?;
    }
    Ok(other)
}

// The patterns in an order, and in that order turned round, as long as they get fewer.
fn assign_in_turn(alloc: Global, known: &Known<'_>, order: &[usize]) -> Result<Draft, NoMemory>
    requires pins { HavePins (net_of known.now.graph.now) known.now.faults.now }
    requires known { AreKnown (net_of known.now.graph.now) known.now.faults.now known.now.vectors.now known.now.numbers.now }
    requires size { length known.now.numbers.now ≡ length known.now.faults.now }
    ensures { IfOk result (λ s. AreTests (net_of known.now.graph.now) known.now.faults.now known.now.vectors.now known.now.numbers.now s.patterns.items s.firsts.items) }
{
    let mut best = assign(alloc, known, order)?;
    for _ in 0..TURNS {
        let other = turned(alloc, best.patterns.as_slice())?;
        let next = assign(alloc, known, other.as_slice())?;
        if next.patterns.len() >= best.patterns.len() {
            return Ok(best);
        }
        best = next;
    }
    Ok(best)
}

/// Few of the vectors, so that each fault with a known vector is detected by one of them, and for each fault the first that
/// detects it. The faults are those of the graph, in order; `numbers` has for each the number of a vector that detects it,
/// or None. How few there are is not said by the contract: the vectors that detect most faults which no other of them does
/// are taken first, and then those are left out that the others, in the opposite order, make idle.
pub fn compact(
    alloc: Global,
    graph: &Graph,
    vectors: &[Vector],
    numbers: &[Option<usize>],
) -> Result<TestSet, NoMemory>
    requires known { AreKnown (net_of graph.now) (faults_of_net (net_of graph.now)) vectors.now numbers.now }
    requires size { length numbers.now ≡ length (faults_of_net (net_of graph.now)) }
    ensures tests { IfOk result (λ s. AreTests (net_of graph.now) (faults_of_net (net_of graph.now)) vectors.now numbers.now s.patterns.items s.firsts.items) }
    ensures classes { IfOk result (λ s. AreLast (net_of graph.now) (faults_of_net (net_of graph.now)) s.lasts.items) }
{
    let faults = faults_of(alloc, graph)?;
    let known = Known {
        graph,
        faults: faults.as_slice(),
        vectors,
        numbers,
    };
    let all = falling(alloc, vectors.len())?;
    let order = greedy_order(alloc, &known, all.as_slice())?;
    let made = assign_in_turn(alloc, &known, order.as_slice())?;
    let lasts = last_of_classes(alloc, graph, faults.as_slice())?;
    Ok(TestSet {
        patterns: made.patterns,
        firsts: made.firsts,
        lasts,
    })
}
