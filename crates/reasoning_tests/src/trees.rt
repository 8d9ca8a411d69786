//! Each line once where it gives a fact and once where it doesn't, on a net of six gates.
ghost use Rattle.std.specs.Prelude.{◌≡◌, length};

use gate_graph::{Graph, Marks, Question};
use refutation::site::Site;
use refutation::{Fact, FactSet, Item, Line, TreeBuilder, conclude, conclude_marked};
use rm_base::NodeId;
use std::alloc::Global;
use std::test::Fail;
use test_nets::worked::FOUR_GATES_AND_NOT;
use test_nets::{build_net, fault_at};

// Facts that are held, a line, and what it gives.
#[derive(Clone, Copy)]
struct Case {
    facts: [(u32, Fact); 2],
    line: Line,
    gives: Option<(u32, Fact)>,
}

// No fact of a gate.
const NOTHING: (u32, Fact) = (1, Fact::Equal);

const CASES: [Case; 34] = [
    Case {
        facts: [NOTHING, NOTHING],
        line: Line::Act,
        gives: Some((2, Fact::Good(false))),
    },
    Case {
        facts: [NOTHING, NOTHING],
        line: Line::Site,
        gives: Some((6, Fact::Differs)),
    },
    Case {
        facts: [NOTHING, NOTHING],
        line: Line::Chain { node: NodeId(9) },
        gives: Some((9, Fact::Differs)),
    },
    Case {
        facts: [NOTHING, NOTHING],
        line: Line::Chain { node: NodeId(10) },
        gives: None,
    },
    Case {
        facts: [NOTHING, NOTHING],
        line: Line::Chain { node: NodeId(7) },
        gives: None,
    },
    Case {
        facts: [NOTHING, NOTHING],
        line: Line::Out { node: NodeId(7) },
        gives: Some((7, Fact::Equal)),
    },
    Case {
        facts: [NOTHING, NOTHING],
        line: Line::Out { node: NodeId(9) },
        gives: None,
    },
    Case {
        facts: [NOTHING, NOTHING],
        line: Line::Constant { node: NodeId(0) },
        gives: Some((0, Fact::Good(false))),
    },
    Case {
        facts: [NOTHING, NOTHING],
        line: Line::Constant { node: NodeId(6) },
        gives: None,
    },
    Case {
        facts: [(2, Fact::Good(false)), NOTHING],
        line: Line::GoodForward { node: NodeId(6) },
        gives: Some((6, Fact::Good(false))),
    },
    Case {
        facts: [(2, Fact::Good(true)), NOTHING],
        line: Line::GoodForward { node: NodeId(6) },
        gives: None,
    },
    Case {
        facts: [(3, Fact::Faulty(true)), NOTHING],
        line: Line::FaultyForward { node: NodeId(6) },
        gives: Some((6, Fact::Faulty(true))),
    },
    Case {
        facts: [(4, Fact::Faulty(true)), NOTHING],
        line: Line::FaultyForward { node: NodeId(7) },
        gives: None,
    },
    Case {
        facts: [(8, Fact::Good(false)), NOTHING],
        line: Line::GoodBack {
            node: NodeId(8),
            position: 0,
        },
        gives: Some((6, Fact::Good(false))),
    },
    Case {
        facts: [(8, Fact::Good(true)), NOTHING],
        line: Line::GoodBack {
            node: NodeId(8),
            position: 0,
        },
        gives: None,
    },
    Case {
        facts: [(6, Fact::Faulty(false)), NOTHING],
        line: Line::FaultyBack {
            node: NodeId(6),
            position: 1,
        },
        gives: Some((3, Fact::Faulty(false))),
    },
    Case {
        facts: [(6, Fact::Faulty(true)), NOTHING],
        line: Line::FaultyBack {
            node: NodeId(6),
            position: 0,
        },
        gives: None,
    },
    Case {
        facts: [(7, Fact::Good(true)), (7, Fact::Faulty(false))],
        line: Line::Compare { node: NodeId(7) },
        gives: Some((7, Fact::Differs)),
    },
    Case {
        facts: [(7, Fact::Good(true)), NOTHING],
        line: Line::Compare { node: NodeId(7) },
        gives: None,
    },
    Case {
        facts: [(7, Fact::Good(true)), (7, Fact::Equal)],
        line: Line::ToFaulty { node: NodeId(7) },
        gives: Some((7, Fact::Faulty(true))),
    },
    Case {
        facts: [(7, Fact::Good(true)), NOTHING],
        line: Line::ToFaulty { node: NodeId(7) },
        gives: None,
    },
    Case {
        facts: [(7, Fact::Faulty(true)), (7, Fact::Differs)],
        line: Line::ToGood { node: NodeId(7) },
        gives: Some((7, Fact::Good(false))),
    },
    Case {
        facts: [(7, Fact::Faulty(true)), NOTHING],
        line: Line::ToGood { node: NodeId(7) },
        gives: None,
    },
    Case {
        facts: [(2, Fact::Equal), (4, Fact::Equal)],
        line: Line::EqualForward { node: NodeId(7) },
        gives: Some((7, Fact::Equal)),
    },
    Case {
        facts: [(2, Fact::Equal), (3, Fact::Equal)],
        line: Line::EqualForward { node: NodeId(6) },
        gives: None,
    },
    Case {
        facts: [(9, Fact::Differs), NOTHING],
        line: Line::NotDiffers { node: NodeId(10) },
        gives: Some((10, Fact::Differs)),
    },
    Case {
        facts: [(9, Fact::Equal), NOTHING],
        line: Line::NotDiffers { node: NodeId(10) },
        gives: None,
    },
    Case {
        facts: [(10, Fact::Equal), NOTHING],
        line: Line::NotEqual { node: NodeId(10) },
        gives: Some((9, Fact::Equal)),
    },
    Case {
        facts: [(10, Fact::Differs), NOTHING],
        line: Line::NotEqual { node: NodeId(10) },
        gives: None,
    },
    Case {
        facts: [(9, Fact::Differs), (5, Fact::Equal)],
        line: Line::DiffersBack {
            node: NodeId(9),
            position: 0,
        },
        gives: Some((8, Fact::Differs)),
    },
    Case {
        facts: [(9, Fact::Differs), NOTHING],
        line: Line::DiffersBack {
            node: NodeId(9),
            position: 0,
        },
        gives: None,
    },
    Case {
        facts: [(6, Fact::Differs), (3, Fact::Equal)],
        line: Line::Side {
            node: NodeId(6),
            position: 1,
        },
        gives: Some((3, Fact::Good(true))),
    },
    Case {
        facts: [(6, Fact::Differs), (2, Fact::Equal)],
        line: Line::Side {
            node: NodeId(6),
            position: 0,
        },
        gives: None,
    },
    Case {
        facts: [NOTHING, NOTHING],
        line: Line::GoodForward { node: NodeId(11) },
        gives: None,
    },
];

fn hold(facts: &mut FactSet, fact: (u32, Fact))
    ensures { length facts.new ≡ length facts.old }
{
    if (fact.0 as usize) < facts.len() {
        facts.insert(NodeId(fact.0), fact.1);
    }
}

fn same(given: Option<(NodeId, Fact)>, wanted: Option<(u32, Fact)>) -> bool {
    match (given, wanted) {
        (Some(g), Some(w)) => g.0.0 == w.0 && g.1 == w.1,
        (None, None) => true,
        _ => false,
    }
}

// Whether the line of the case gives what it should, by a search and by marks.
fn holds(alloc: Global, graph: &Graph, case: &Case) -> Result<bool, Fail> {
    let fault = fault_at(graph, 6, 0, true)?;
    let question = Question { graph, fault };
    let mut facts = FactSet::new(alloc, graph)?;
    let mut marks = Marks::new(alloc, graph.node_bound())?;
    hold(&mut facts, case.facts[0]);
    hold(&mut facts, case.facts[1]);
    let given = conclude(&question, &facts, &case.line, &mut marks);
    let mut site = Site::new(alloc, graph.node_bound())?;
    site.mark(graph, fault.gate);
    let marked = conclude_marked(&question, &facts, &case.line, &site);
    Ok(same(given, case.gives) && same(marked, case.gives))
}

#[test]
fn each_line_both_ways(rt: HostRuntime) -> Result<(), Fail> {
    let graph = build_net(rt.alloc(), &FOUR_GATES_AND_NOT)?;
    for at in 0..CASES.len() {
        let right = holds(rt.alloc(), &graph, &CASES[at])?;
        assert!(rt; right, "at case {at}");
    }
    Ok(())
}

#[test]
fn items_are_cut(rt: HostRuntime) -> Result<(), Fail> {
    let mut tree = TreeBuilder::new(rt.alloc());
    tree.push(Item::Quiet)?;
    let mark = tree.mark();
    tree.push(Item::Here)?;
    tree.cut(mark);
    assert!(rt; tree.finish().items() == [Item::Quiet].as_slice());
    Ok(())
}
