// All faults of drawn nets beside a large part that they don't concern, against the nets without it.
ghost use Rattle.std.specs.Prelude.{◌≤◌};
ghost use Rattle.gate_graph.specs.Circuit.{net_of};
ghost use Rattle.podem.specs.Searchers.{Serves};

use super::drawn::{ENOUGH, GATES, SOURCES};
use super::used::same_verdict;
use gate_graph::{Graph, Question};
use podem::{Searcher, search};
use rm_base::{Fault, NoMemory, NodeId};
use std::alloc::Global;
use std::test::Fail;
use test_nets::{Draws, Gate, NetBuilder, add_drawn, fault_at};

const MORE: u32 = 60;

// Adds a gate that reads a source, and the one before it or another source.
fn add_link(net: &mut NetBuilder, at: u32) -> Result<NodeId, Fail>
    requires { at ≤ 100 }
{
    let before = if at == 0 { 3 } else { 1 + SOURCES + GATES + at };
    let source = 2 + at % SOURCES;
    if at % 3 == 0 {
        net.add(Gate::And(&[before, source]))
    } else {
        net.add(Gate::Or(&[before, source]))
    }
}

// A net of drawn gates beside a chain of so many, of which the last drawn gate and the end of the chain are observed.
fn net(alloc: Global, seed: u64, more: u32) -> Result<Graph, Fail>
    requires { more ≤ 100 }
{
    let mut draws = Draws::new(seed);
    let mut net = NetBuilder::new(alloc, SOURCES)?;
    for at in 0..GATES {
        add_drawn(&mut net, &mut draws, 2 + SOURCES + at)?;
    }
    for at in 0..more {
        add_link(&mut net, at)?;
    }
    net.observe(1 + SOURCES + GATES)?;
    net.observe(1 + SOURCES + GATES + more)?;
    Ok(net.finish())
}

// Searches a fault of the chain.
fn search_chain(searcher: &mut Searcher, graph: &Graph, number: u32) -> Result<(), Fail>
    requires { Serves searcher.old (net_of graph.now) }
    ensures { Serves searcher.new (net_of graph.now) }
{
    let gate = 2 + SOURCES + GATES + number % MORE;
    let fault = fault_at(graph, gate, number % 2, number % 3 == 0)?;
    searcher.search(&Question { graph, fault }, 3)?;
    Ok(())
}

// Whether a fault has the same verdicts with the chain and without it.
fn same_at(
    alloc: Global,
    searcher: &mut Searcher,
    graph: &Graph,
    alone: &Graph,
    fault: &Fault,
) -> Result<bool, NoMemory>
    requires { Serves searcher.old (net_of graph.now) }
    ensures { Serves searcher.new (net_of graph.now) }
{
    let Some(_) = graph.driver(fault.gate, fault.position) else {
        return Ok(true);
    };
    let Some(_) = alone.driver(fault.gate, fault.position) else {
        return Ok(false);
    };
    let beside = Question {
        graph,
        fault: *fault,
    };
    let few = searcher.search(&beside, 3)?;
    let all = searcher.search(&beside, ENOUGH)?;
    let apart = Question {
        graph: alone,
        fault: *fault,
    };
    let few_alone = search(alloc, &apart, 3)?;
    let all_alone = search(alloc, &apart, ENOUGH)?;
    Ok(same_verdict(&few, &few_alone) && same_verdict(&all, &all_alone))
}

// Whether all faults of the drawn gates have, each after one of the chain.
fn all_same(
    alloc: Global,
    searcher: &mut Searcher,
    graph: &Graph,
    alone: &Graph,
) -> Result<bool, Fail>
    requires { Serves searcher.old (net_of graph.now) }
{
    for number in 0..6 * GATES {
        let fault = Fault {
            gate: NodeId(2 + SOURCES + number / 6),
            position: number % 3,
            value: number % 6 < 3,
        };
        search_chain(searcher, graph, number)?;
        if !same_at(alloc, searcher, graph, alone, &fault)? {
            return Ok(false);
        }
    }
    Ok(true)
}

fn same_on(alloc: Global, graph: &Graph, alone: &Graph) -> Result<bool, Fail> {
    let mut searcher = Searcher::new(alloc, graph)?;
    all_same(alloc, &mut searcher, graph, alone)
}

#[test]
fn what_a_fault_does_not_concern_changes_nothing(rt: HostRuntime) -> Result<(), Fail> {
    for seed in 1..6u64 {
        let graph = net(rt.alloc(), seed, MORE)?;
        let alone = net(rt.alloc(), seed, 0)?;
        let same = same_on(rt.alloc(), &graph, &alone)?;
        assert!(rt; same, "at seed {seed}");
    }
    Ok(())
}
