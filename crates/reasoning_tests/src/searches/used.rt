// One searcher over all faults of drawn nets against a fresh one for each fault.
ghost use Rattle.gate_graph.specs.Circuit.{net_of};
ghost use Rattle.podem.specs.Searchers.{Serves};

use super::drawn::{ENOUGH, GATES, SOURCES, draw_net};
use gate_graph::{Graph, Question};
use podem::{Searcher, Verdict, search};
use rm_base::{Fault, NoMemory, NodeId};
use std::alloc::Global;
use std::test::Fail;

pub fn same_verdict(one: &Verdict, other: &Verdict) -> bool {
    match (one, other) {
        (Verdict::Detected(one), Verdict::Detected(other)) => { one.values() == other.values() }
        (Verdict::Refuted(one), Verdict::Refuted(other)) => one.items() == other.items(),
        (Verdict::Spent(one), Verdict::Spent(other)) => one.items() == other.items(),
        _ => false,
    }
}

// Whether both give a fault the same at a small budget and at one that is enough.
fn same_at(
    alloc: Global,
    searcher: &mut Searcher,
    graph: &Graph,
    fault: &Fault,
) -> Result<bool, NoMemory>
    requires { Serves searcher.old (net_of graph.now) }
    ensures { Serves searcher.new (net_of graph.now) }
{
    let Some(_) = graph.driver(fault.gate, fault.position) else {
        return Ok(true);
    };
    let question = Question {
        graph,
        fault: *fault,
    };
    let few = searcher.search(&question, 3)?;
    let all = searcher.search(&question, ENOUGH)?;
    let fresh_few = search(alloc, &question, 3)?;
    let fresh_all = search(alloc, &question, ENOUGH)?;
    Ok(same_verdict(&few, &fresh_few) && same_verdict(&all, &fresh_all))
}

// Whether both give all faults of a net the same.
fn all_same(alloc: Global, searcher: &mut Searcher, graph: &Graph) -> Result<bool, NoMemory>
    requires { Serves searcher.old (net_of graph.now) }
{
    for number in 0..6 * GATES {
        let fault = Fault {
            gate: NodeId(2 + SOURCES + number / 6),
            position: number % 3,
            value: number % 6 < 3,
        };
        if !same_at(alloc, searcher, graph, &fault)? {
            return Ok(false);
        }
    }
    Ok(true)
}

fn same_on(alloc: Global, graph: &Graph) -> Result<bool, NoMemory> {
    let mut searcher = Searcher::new(alloc, graph)?;
    all_same(alloc, &mut searcher, graph)
}

#[test]
fn a_used_searcher_is_as_a_fresh_one(rt: HostRuntime) -> Result<(), Fail> {
    for seed in 1..21u64 {
        let graph = draw_net(rt.alloc(), seed)?;
        let same = same_on(rt.alloc(), &graph)?;
        assert!(rt; same, "at seed {seed}");
    }
    Ok(())
}
