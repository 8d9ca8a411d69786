// One checker over many faults, on two nets and on a net that changes, against a fresh one each time.
use super::{Case, ON_FOUR_GATES, ON_ONE_GATE, tree_of};
use gate_graph::{Graph, Question};
use refutation::{Form, Item, Line, Shape};
use refutation_check::{CheckRefusal, TreeChecker, check_tree};
use rm_base::NodeId;
use std::alloc::Global;
use std::test::Fail;
use test_nets::worked::{FOUR_GATES_AND_PIN, ONE_GATE};
use test_nets::{Gate, NetBuilder, build, build_net, fault_at};

// Whether a checker that served other trees answers as it should, and as a fresh one does.
fn keeps(
    alloc: Global,
    checker: &mut TreeChecker,
    graph: &Graph,
    case: &Case,
) -> Result<bool, Fail> {
    let fault = fault_at(graph, case.fault.0, case.fault.1, case.fault.2)?;
    let question = Question { graph, fault };
    let tree = tree_of(alloc, case.items)?;
    checker.reserve(graph.node_bound())?;
    let kept = checker.check(&question, &tree, case.form);
    let fresh = check_tree(alloc, &question, &tree, case.form);
    Ok(kept == case.answer && fresh == case.answer)
}

// Whether the checker answers each case as it should.
fn keeps_all(
    alloc: Global,
    checker: &mut TreeChecker,
    graph: &Graph,
    cases: &[Case],
) -> Result<bool, Fail> {
    for case in cases {
        if !keeps(alloc, checker, graph, case)? {
            return Ok(false);
        }
    }
    Ok(true)
}

// The same of cases on one net, each followed by all on another.
fn serves_both(
    alloc: Global,
    checker: &mut TreeChecker,
    one: &Graph,
    other: &Graph,
    on_one: &[Case],
    on_other: &[Case],
) -> Result<bool, Fail> {
    for case in on_one {
        if !keeps(alloc, checker, one, case)? {
            return Ok(false);
        }
        if !keeps_all(alloc, checker, other, on_other)? {
            return Ok(false);
        }
    }
    Ok(true)
}

fn serves_two(alloc: Global, one: &Graph, four: &Graph) -> Result<bool, Fail> {
    let mut checker = TreeChecker::new(alloc, 0)?;
    serves_both(alloc, &mut checker, one, four, &ON_ONE_GATE, &ON_FOUR_GATES)
}

#[test]
fn one_checker_serves_two_nets(rt: HostRuntime) -> Result<(), Fail> {
    let one = build_net(rt.alloc(), &ONE_GATE)?;
    let four = build_net(rt.alloc(), &FOUR_GATES_AND_PIN)?;
    assert!(rt; serves_two(rt.alloc(), &one, &four)?);
    Ok(())
}

// The first pins of gates 6, 7 and 9.
const AT_SIX: (u32, u32, bool) = (6, 0, true);

const AT_SEVEN: (u32, u32, bool) = (7, 0, true);

const AT_NINE: (u32, u32, bool) = (9, 0, true);

// A line that is accepted leaves a tree that ends too early.
const BEFORE: [Case; 9] = [
    refused!(AT_SIX Closed [o 8] BadLine 1),
    refused!(AT_NINE Closed [o 8] Shape 2),
    refused!(AT_SEVEN Closed [o 6] Shape 2),
    refused!(AT_SIX Closed [o 6] BadLine 1),
    refused!(AT_SIX Closed [h 9] Shape 2),
    refused!(AT_SEVEN Closed [h 6] BadLine 1),
    refused!(AT_SIX Closed [h 7] BadLine 1),
    refused!(AT_SEVEN Closed [h 8, h 9, o 3] Shape 4),
    accepted!(AT_SIX Closed [one 2, quiet, quiet] 2 0 0),
];

// With gate 10, And(6, 5), which isn't observed: gate 6 has two readers.
const WITH_TEN: [Case; 7] = [
    refused!(AT_SIX Closed [h 9] BadLine 1),
    refused!(AT_SIX Closed [h 6, h 8] BadLine 2),
    refused!(AT_SIX Closed [o 10] BadLine 1),
    refused!(AT_SEVEN Closed [o 10] Shape 2),
    refused!(AT_SEVEN Closed [h 8, h 9] Shape 3),
    refused!(AT_NINE Closed [o 10, h 9] Shape 3),
    accepted!(AT_SIX Closed [one 2, quiet, quiet] 2 0 0),
];

// With gates 8 and 10 observed too.
const OBSERVED: [Case; 4] = [
    refused!(AT_SIX Closed [one 2, quiet, quiet] NotQuiet 3),
    refused!(AT_SEVEN Closed [h 8, h 9] BadLine 2),
    refused!(AT_SEVEN Closed [h 8, o 10] Shape 3),
    refused!(AT_SIX Closed [a, one 2, quiet, quiet] BadSplit 2),
];

// Fails where the checker doesn't answer as it should while the net changes.
fn serve_changing(
    alloc: Global,
    checker: &mut TreeChecker,
    net: &mut NetBuilder,
) -> Result<(), Fail> {
    if !keeps_all(alloc, checker, net.graph(), &BEFORE)? {
        return Err("before".into());
    }
    net.add(Gate::And(&[6, 5]))?;
    if !keeps_all(alloc, checker, net.graph(), &WITH_TEN)? {
        return Err("with gate 10".into());
    }
    net.observe(8)?;
    net.observe(10)?;
    if !keeps_all(alloc, checker, net.graph(), &OBSERVED)? {
        return Err("observed".into());
    }
    Ok(())
}

fn serve_with_one(alloc: Global, net: &mut NetBuilder) -> Result<(), Fail> {
    let mut checker = TreeChecker::new(alloc, 10)?;
    serve_changing(alloc, &mut checker, net)
}

#[test]
fn one_checker_serves_a_net_that_changes(rt: HostRuntime) -> Result<(), Fail> {
    let mut net = build(rt.alloc(), &FOUR_GATES_AND_PIN)?;
    serve_with_one(rt.alloc(), &mut net)
}
