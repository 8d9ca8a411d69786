//! The candidates of a fault, against a list written by hand.
use candidate_wires::{Candidate, candidates};
use gate_graph::Question;
use refutation::{Fact, FactSet};
use rm_base::{Fault, NodeId};
use std::alloc::Global;
use std::test::Fail;
use test_nets::worked::FOUR_GATES;
use test_nets::{build_net, fault_at};

// The node, its good value and whether it is equal, as the fault of gate 6, position 0, value 1 implies them.
const FACTS: [(u32, bool, bool); 7] = [
    (2, false, true),
    (3, true, true),
    (5, true, true),
    (6, false, false),
    (7, false, true),
    (8, false, false),
    (9, false, false),
];

fn hold(facts: &mut FactSet, fact: (u32, bool, bool)) {
    let node = NodeId(fact.0);
    if (fact.0 as usize) < facts.len() {
        facts.insert(node, Fact::Good(fact.1));
        let equal = if fact.2 { Fact::Equal } else { Fact::Differs };
        facts.insert(node, equal);
    }
}

// The candidates of the fault with these facts and one more.
fn candidates_with(alloc: Global, more: (u32, bool, bool)) -> Result<Vec<Candidate>, Fail> {
    let graph = build_net(alloc, &FOUR_GATES)?;
    let fault = fault_at(&graph, 6, 0, true)?;
    let mut facts = FactSet::new(alloc, &graph)?;
    for fact in FACTS {
        hold(&mut facts, fact);
    }
    hold(&mut facts, more);
    if facts.len() < graph.node_bound() as usize {
        return Err("too few facts".into());
    }
    let question = Question {
        graph: &graph,
        fault,
    };
    Ok(candidates(alloc, &question, &facts)?)
}

fn wire(node: u32, fresh: bool, gate: u32) -> Candidate {
    Candidate {
        node: NodeId(node),
        fresh,
        gate: NodeId(gate),
    }
}

#[test]
fn along_the_chain(rt: HostRuntime) -> Result<(), Fail> {
    let list = candidates_with(rt.alloc(), FACTS[0])?;
    let wanted = [
        wire(5, true, 6),
        wire(7, false, 6),
        wire(2, true, 8),
        wire(3, false, 8),
        wire(5, false, 8),
        wire(2, false, 9),
        wire(3, true, 9),
        wire(7, false, 9),
    ];
    assert_eq!(rt; list.as_slice(), wanted.as_slice());
    Ok(())
}

// A node that holds both good values is known by neither.
#[test]
fn opposed_values_tell_nothing(rt: HostRuntime) -> Result<(), Fail> {
    let list = candidates_with(rt.alloc(), (2, true, true))?;
    let wanted = [
        wire(5, true, 6),
        wire(7, false, 6),
        wire(3, false, 8),
        wire(5, false, 8),
        wire(3, true, 9),
        wire(7, false, 9),
    ];
    assert_eq!(rt; list.as_slice(), wanted.as_slice());
    Ok(())
}

// A node that is equal and differs is known by neither of these.
#[test]
fn opposed_marks_tell_nothing(rt: HostRuntime) -> Result<(), Fail> {
    let list = candidates_with(rt.alloc(), (7, false, false))?;
    let wanted = [
        wire(5, true, 6),
        wire(2, true, 8),
        wire(3, false, 8),
        wire(5, false, 8),
        wire(2, false, 9),
        wire(3, true, 9),
    ];
    assert_eq!(rt; list.as_slice(), wanted.as_slice());
    Ok(())
}
