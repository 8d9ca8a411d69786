// A net with a part that the fault doesn't touch.
ghost use Rattle.std.specs.Prelude.{◌≡◌, ◌≤◌, length};
ghost use Rattle.gate_graph.specs.Circuit.{net_of};

use crate::facts::hold_same;
use gate_graph::{Graph, Marks, Question};
use implications::{Closed, Engine};
use refutation::{Fact, FactSet, Line, conclude};
use rm_base::{Fault, NodeId};
use std::alloc::Global;
use std::test::Fail;
use test_nets::{Gate, Wiring, build_net, fault_at};

// a 1 + b, of the sources a and b, where the 1 is a gate without pins; and apart from that (c + d)' c, of c and d.
const PARTS: Wiring<'static> = Wiring {
    sources: 4,
    gates: &[
        Gate::And(&[]),
        Gate::And(&[2, 6]),
        Gate::Or(&[7, 3]),
        Gate::Or(&[4, 5]),
        Gate::Not(9),
        Gate::And(&[10, 4]),
    ],
    observed: &[8],
};

// Each line that names the node, or the pin at the position, and those that name none.
fn lines_at(node: NodeId, position: u32) -> [Line; 17] {
    [
        Line::Act,
        Line::Site,
        Line::Chain { node },
        Line::Out { node },
        Line::Constant { node },
        Line::GoodForward { node },
        Line::FaultyForward { node },
        Line::GoodBack { node, position },
        Line::FaultyBack { node, position },
        Line::Compare { node },
        Line::ToFaulty { node },
        Line::ToGood { node },
        Line::EqualForward { node },
        Line::NotDiffers { node },
        Line::NotEqual { node },
        Line::DiffersBack { node, position },
        Line::Side { node, position },
    ]
}

// Adds what these lines give; whether that is more than there was.
fn add_at(
    question: &Question<'_>,
    facts: &mut FactSet,
    marks: &mut Marks,
    node: NodeId,
    position: u32,
) -> bool
    requires facts { length (net_of question.now.graph.now).nodes ≤ length facts.old }
    requires marks { length (net_of question.now.graph.now).nodes ≤ marks.old }
    ensures facts { length facts.new ≡ length facts.old }
    ensures marks { marks.new ≡ marks.old }
{
    let mut more = false;
    for line in lines_at(node, position) {
        if let Some((on, fact)) = conclude(question, facts, &line, marks) {
            more = more || !facts.holds(on, fact);
            facts.insert(on, fact);
        }
    }
    more
}

// The same at all nodes.
fn add_everywhere(question: &Question<'_>, facts: &mut FactSet, marks: &mut Marks) -> bool
    requires facts { length (net_of question.now.graph.now).nodes ≤ length facts.old }
    requires marks { length (net_of question.now.graph.now).nodes ≤ marks.old }
    ensures facts { length facts.new ≡ length facts.old }
    ensures marks { marks.new ≡ marks.old }
{
    let mut more = false;
    for number in 0..question.graph.node_bound() {
        let first = add_at(question, facts, marks, NodeId(number), 0);
        let second = add_at(question, facts, marks, NodeId(number), 1);
        more = more || first || second;
    }
    more
}

// All facts to which lines lead, by trying each line over and over.
fn derivable(alloc: Global, question: &Question<'_>) -> Result<FactSet, Fail> {
    let mut facts = FactSet::new(alloc, question.graph)?;
    let mut marks = Marks::new(alloc, question.graph.node_bound())?;
    for _round in 0..100u32 {
        if !add_everywhere(question, &mut facts, &mut marks) {
            break;
        }
    }
    Ok(facts)
}

// Whether closing gives exactly the derivable facts; None where there is no such pin, or they clash.
fn is_exact(
    alloc: Global,
    engine: &mut Engine,
    graph: &Graph,
    fault: &Fault,
) -> Result<Option<bool>, Fail>
    requires { length (net_of graph.now).nodes ≤ engine.old.numbers }
    ensures { engine.new.numbers ≡ engine.old.numbers }
{
    let Some(_) = graph.driver(fault.gate, fault.position) else {
        return Ok(None);
    };
    let question = Question {
        graph,
        fault: *fault,
    };
    let Closed::Open(facts) = engine.close(&question)? else {
        return Ok(None);
    };
    let all = derivable(alloc, &question)?;
    Ok(Some(hold_same(&facts, &all, graph.node_bound())))
}

// How many faults give exactly the derivable facts, and how many others.
fn count_exact(alloc: Global, graph: &Graph) -> Result<(u32, u32), Fail> {
    let mut engine = Engine::new(alloc, graph)?;
    let mut exact = 0u32;
    let mut other = 0u32;
    for number in 0..20u32 {
        let fault = Fault {
            gate: NodeId(7 + number / 4),
            position: number % 2,
            value: number % 4 < 2,
        };
        match is_exact(alloc, &mut engine, graph, &fault)? {
            Some(true) => exact = exact.wrapping_add(1),
            Some(false) => other = other.wrapping_add(1),
            None => {}
        }
    }
    Ok((exact, other))
}

// Of the eight faults of the observed part seven don't clash: only the 1 stuck at 1 does. (c + d)' c is always 0, and of
// the ten faults there four don't: (c + d)' and c stuck at 1 in the product, and c in the sum and the sum stuck at 0.
#[test]
fn closes_to_the_derivable_facts(rt: HostRuntime) -> Result<(), Fail> {
    let graph = build_net(rt.alloc(), &PARTS)?;
    assert_eq!(rt; count_exact(rt.alloc(), &graph)?, (11, 0));
    Ok(())
}

fn node_named(line: &Line) -> Option<NodeId> {
    match *line {
        Line::Act | Line::Site => None,
        Line::Chain { node }
        | Line::Out { node }
        | Line::Constant { node }
        | Line::GoodForward { node }
        | Line::FaultyForward { node }
        | Line::GoodBack { node, .. }
        | Line::FaultyBack { node, .. }
        | Line::Compare { node }
        | Line::ToFaulty { node }
        | Line::ToGood { node }
        | Line::EqualForward { node }
        | Line::NotDiffers { node }
        | Line::NotEqual { node }
        | Line::DiffersBack { node, .. }
        | Line::Side { node, .. } => Some(node),
    }
}

// How many of the lines name a node of the part with c and d.
fn count_apart(lines: &[Line]) -> u32 {
    let mut count = 0u32;
    for line in lines {
        if let Some(NodeId(4 | 5 | 9 | 10 | 11)) = node_named(line) {
            count = count.wrapping_add(1);
        }
    }
    count
}

// The pin of the first product that reads a is stuck at 1.
#[test]
fn leaves_the_other_part_alone(rt: HostRuntime) -> Result<(), Fail> {
    let graph = build_net(rt.alloc(), &PARTS)?;
    let fault = fault_at(&graph, 7, 0, true)?;
    let question = Question {
        graph: &graph,
        fault,
    };
    let mut engine = Engine::new(rt.alloc(), &graph)?;
    let _closed = engine.close(&question)?;
    assert!(rt; engine.lines().len() > 0);
    assert_eq!(rt; count_apart(engine.lines()), 0);
    Ok(())
}
