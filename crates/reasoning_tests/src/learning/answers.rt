// Nets whose answers were worked out by hand.
ghost use Rattle.std.specs.Prelude.{◌≤◌};
ghost use Rattle.gate_graph.specs.Circuit.{net_of};

use gate_graph::{Graph, Question};
use implications::{Closed, Engine};
use recursive_learning::refute;
use refutation::{Form, Tree};
use refutation_check::check_tree;
use rm_base::NodeId;
use std::alloc::Global;
use std::test::Fail;
use test_nets::worked::{ABSORBED, FOUR_GATES};
use test_nets::{Gate, NetBuilder, Wiring, build, build_net, fault_at};

// (a b + a c) d a, of the sources a, b, c and d. That the last pin is stuck at 1 is refuted by lines alone.
const WIRE_ADDED: Wiring<'static> = Wiring {
    sources: 4,
    gates: &[
        Gate::And(&[2, 3]),
        Gate::And(&[2, 4]),
        Gate::Or(&[6, 7]),
        Gate::And(&[8, 5]),
        Gate::And(&[9, 2]),
    ],
    observed: &[10],
};

// (a b + a c) (a' d + a' e) f, of the sources a to f. If f stuck at 1 is detected, both sums are 1. Neither sum says by
// itself which of its products is 1, so no line leads on. But each product of the first needs a, and then both products
// of the second are 0: all justifications of the first sum clash.
const ONE_DEEP: Wiring<'static> = Wiring {
    sources: 6,
    gates: &[
        Gate::Not(2),
        Gate::And(&[2, 3]),
        Gate::And(&[2, 4]),
        Gate::And(&[8, 5]),
        Gate::And(&[8, 6]),
        Gate::Or(&[9, 10]),
        Gate::Or(&[11, 12]),
        Gate::And(&[13, 14]),
        Gate::And(&[15, 7]),
    ],
    observed: &[16],
};

// (P + Q) f, where P is (a b + a c) (a' d + a' e), and Q is the same of five other sources. If f stuck at 1 is
// detected, P or Q is 1. Either alone clashes only where its own sums are looked into, as above, and the two share no
// node, so with justifications that lines close nothing is learned; with justifications that are closed at depth 1,
// both clash.
const TWO_DEEP: Wiring<'static> = Wiring {
    sources: 11,
    gates: &[
        Gate::Not(2),
        Gate::And(&[2, 3]),
        Gate::And(&[2, 4]),
        Gate::And(&[13, 5]),
        Gate::And(&[13, 6]),
        Gate::Or(&[14, 15]),
        Gate::Or(&[16, 17]),
        Gate::And(&[18, 19]),
        Gate::Not(7),
        Gate::And(&[7, 8]),
        Gate::And(&[7, 9]),
        Gate::And(&[21, 10]),
        Gate::And(&[21, 11]),
        Gate::Or(&[22, 23]),
        Gate::Or(&[24, 25]),
        Gate::And(&[26, 27]),
        Gate::Or(&[20, 28]),
        Gate::And(&[29, 12]),
    ],
    observed: &[30],
};

// S f where S is (a b + a c) (a' + y) (a' + z), and y is p q + p r, and z is p' s + p' u. If f stuck at 1 is detected,
// all three are 1. Each justification of the first gives a, and from that y and z, without a clash: a is learned. Only
// then do all justifications of y clash.
const LEARNS: Wiring<'static> = Wiring {
    sources: 9,
    gates: &[
        Gate::And(&[2, 3]),
        Gate::And(&[2, 4]),
        Gate::Or(&[11, 12]),
        Gate::Not(5),
        Gate::And(&[5, 6]),
        Gate::And(&[5, 7]),
        Gate::Or(&[15, 16]),
        Gate::And(&[14, 8]),
        Gate::And(&[14, 9]),
        Gate::Or(&[18, 19]),
        Gate::Not(2),
        Gate::Or(&[21, 17]),
        Gate::Or(&[21, 20]),
        Gate::And(&[13, 22]),
        Gate::And(&[24, 23]),
        Gate::And(&[25, 10]),
    ],
    observed: &[26],
};

// (a + b) ((e a + e b)' + P) (e p + e q) f, where P is (h i + h j) (h' k + h' l). If f stuck at 1 is detected, all three
// are 1. At first neither a + b nor the second one implies anything: e isn't known, so neither a nor b leads to e a + e b.
// The third one, which comes last, implies e. Only then do both a and b lead to e a + e b, and so to P, which clashes at
// depth 1: the two sums have to be looked at again for a fact that is on none of their drivers.
const FAR: Wiring<'static> = Wiring {
    sources: 11,
    gates: &[
        Gate::Or(&[2, 3]),
        Gate::And(&[4, 2]),
        Gate::And(&[4, 3]),
        Gate::Or(&[14, 15]),
        Gate::Not(16),
        Gate::Not(7),
        Gate::And(&[7, 8]),
        Gate::And(&[7, 9]),
        Gate::And(&[18, 10]),
        Gate::And(&[18, 11]),
        Gate::Or(&[19, 20]),
        Gate::Or(&[21, 22]),
        Gate::And(&[23, 24]),
        Gate::Or(&[17, 25]),
        Gate::And(&[4, 5]),
        Gate::And(&[4, 6]),
        Gate::Or(&[27, 28]),
        Gate::And(&[13, 26]),
        Gate::And(&[30, 29]),
        Gate::And(&[31, 12]),
    ],
    observed: &[32],
};

/// Fails where the checker doesn't accept the tree.
pub fn accept(alloc: Global, question: &Question<'_>, tree: &Tree) -> Result<(), Fail> {
    match check_tree(alloc, question, tree, Form::Closed) {
        Ok(_) => Ok(()),
        Err(_) => Err("not accepted".into()),
    }
}

/// How many items the refutation of the fault has at the depth; None where it isn't refuted.
pub fn item_count(alloc: Global, question: &Question<'_>, depth: u8) -> Result<Option<usize>, Fail>
    requires { depth ≤ 2 }
{
    let mut engine = Engine::new(alloc, question.graph)?;
    match refute(alloc, &mut engine, question, depth)? {
        Closed::Clash(tree) => {
            accept(alloc, question, &tree)?;
            Ok(Some(tree.items().len()))
        }
        Closed::Open(_) => Ok(None),
    }
}

// A net, a fault of it, and the least depth at which it is refuted.
#[derive(Clone, Copy)]
struct Case {
    wiring: Wiring<'static>,
    fault: (u32, u32, bool),
    from: u8,
}

const CASES: [Case; 6] = [
    // That the first pin of a b is stuck at 0 is refuted by lines alone.
    Case {
        wiring: ABSORBED,
        fault: (4, 0, false),
        from: 0,
    },
    // The assignment 0101 detects that the first pin of a b is stuck at 1.
    Case {
        wiring: FOUR_GATES,
        fault: (6, 0, true),
        from: 3,
    },
    Case {
        wiring: ONE_DEEP,
        fault: (16, 1, true),
        from: 1,
    },
    Case {
        wiring: TWO_DEEP,
        fault: (30, 1, true),
        from: 2,
    },
    Case {
        wiring: LEARNS,
        fault: (26, 1, true),
        from: 1,
    },
    Case {
        wiring: FAR,
        fault: (32, 1, true),
        from: 1,
    },
];

// Whether the fault is refuted from the depth on.
fn is_right(alloc: Global, case: &Case) -> Result<bool, Fail> {
    let graph = build_net(alloc, &case.wiring)?;
    let fault = fault_at(&graph, case.fault.0, case.fault.1, case.fault.2)?;
    let question = Question {
        graph: &graph,
        fault,
    };
    for depth in 0..3u8 {
        let refuted = item_count(alloc, &question, depth)?.is_some();
        if refuted != (depth >= case.from) {
            return Ok(false);
        }
    }
    Ok(true)
}

#[test]
fn each_needs_its_depth(rt: HostRuntime) -> Result<(), Fail> {
    for at in 0..CASES.len() {
        let right = is_right(rt.alloc(), &CASES[at])?;
        assert!(rt; right, "at case {at}");
    }
    Ok(())
}

// A net, a fault that is refuted at the depth, and how many items are enough for that.
#[derive(Clone, Copy)]
struct Short {
    wiring: Wiring<'static>,
    fault: (u32, u32, bool),
    depth: u8,
    most: usize,
}

const SHORT: [Short; 4] = [
    // The wire of x reads 1; gate 5 differs, x is equal, so x is 0.
    Short {
        wiring: ABSORBED,
        fault: (4, 0, false),
        depth: 0,
        most: 5,
    },
    // a is 0, and so are gates 6 to 9; gate 10 differs, gate 9 is equal, so it is 1.
    Short {
        wiring: WIRE_ADDED,
        fault: (10, 1, true),
        depth: 0,
        most: 9,
    },
    // Both sums are 1 by five lines; then a split on a product of the first, and in each branch five lines and a clash.
    Short {
        wiring: ONE_DEEP,
        fault: (16, 1, true),
        depth: 1,
        most: 19,
    },
    // P + Q is 1 by three lines; then a split on P, and in each branch two lines and such a split.
    Short {
        wiring: TWO_DEEP,
        fault: (30, 1, true),
        depth: 2,
        most: 37,
    },
];

fn is_short(alloc: Global, graph: &Graph, case: &Short) -> Result<bool, Fail> {
    if case.depth > 2 {
        return Err("too deep".into());
    }
    let fault = fault_at(graph, case.fault.0, case.fault.1, case.fault.2)?;
    match item_count(alloc, &Question { graph, fault }, case.depth)? {
        Some(items) => Ok(items <= case.most),
        None => Ok(false),
    }
}

#[test]
fn trees_are_short(rt: HostRuntime) -> Result<(), Fail> {
    for at in 0..SHORT.len() {
        let graph = build_net(rt.alloc(), &SHORT[at].wiring)?;
        let short = is_short(rt.alloc(), &graph, &SHORT[at])?;
        assert!(rt; short, "at case {at}");
    }
    Ok(())
}

// Adds a gate that reads a source and the gate before it.
fn add_link(net: &mut NetBuilder, before: u32) -> Result<NodeId, Fail> {
    if before % 2 == 0 {
        net.add(Gate::Or(&[before, 3]))
    } else {
        net.add(Gate::And(&[before, 2]))
    }
}

// The first net beside 98 gates that aren't reached from it.
#[test]
fn a_tree_is_short_beside_more_gates(rt: HostRuntime) -> Result<(), Fail> {
    let mut net = build(rt.alloc(), &ABSORBED)?;
    net.add(Gate::Not(3))?;
    for before in 6..103u32 {
        add_link(&mut net, before)?;
    }
    let short = is_short(rt.alloc(), &net.finish(), &SHORT[0])?;
    assert!(rt; short);
    Ok(())
}
