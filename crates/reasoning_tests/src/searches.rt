//! Searches on small nets, each with its verdict; the verdicts are those of an independent slow program, or worked by hand.
ghost use Rattle.gate_graph.specs.Circuit.{net_of};
ghost use Rattle.podem.specs.Searchers.{Serves};

mod beside;
mod drawn;
mod used;

use gate_graph::{Edit, Graph, Question, Undos};
use podem::{Searcher, Verdict};
use refutation::Item;
use rm_base::NodeId;
use std::alloc::Global;
use std::test::Fail;
use test_nets::worked::{ABSORBED, FOUR_GATES, ONE_GATE, ONE_GATE_TWICE};
use test_nets::{Gate, Wiring, build_net, fault_at, try_edit};

#[derive(Clone, Copy)]
enum Answer {
    Detected(&'static [bool]),
    Refuted(&'static [Item]),
    Spent(&'static [Item]),
}

// A fault, the budget, and the verdict.
#[derive(Clone, Copy)]
struct Case {
    fault: (u32, u32, bool),
    budget: u32,
    answer: Answer,
}

macro_rules! item {
    (zero $x:literal) => {
        Item::Split { node: NodeId($x), first: false }
    };
    (one $x:literal) => {
        Item::Split { node: NodeId($x), first: true }
    };
    (quiet) => {
        Item::Quiet
    };
    (here) => {
        Item::Here
    };
    (untried) => {
        Item::Untried
    };
}

macro_rules! hit {
    ($gate:literal $position:literal $value:literal $budget:literal [$($bit:literal)*]) => {
        Case {
            fault: ($gate, $position, $value),
            budget: $budget,
            answer: Answer::Detected(&[$($bit),*]),
        }
    };
}

macro_rules! tree {
    ($form:ident $gate:literal $position:literal $value:literal $budget:literal [$($word:ident $($number:literal)*),*]) => {
        Case {
            fault: ($gate, $position, $value),
            budget: $budget,
            answer: Answer::$form(&[$(item!($word $($number)*)),*]),
        }
    };
}

const ON_ONE_GATE: [Case; 9] = [
    hit!(4 0 false 256 [true true]),
    hit!(4 0 true 256 [false true]),
    hit!(4 1 false 256 [true true]),
    hit!(4 1 true 256 [true false]),
    hit!(4 0 false 8 [true true]),
    tree!(Spent 4 0 false 1 [one 2, here, untried]),
    tree!(Spent 4 0 true 1 [zero 2, here, untried]),
    tree!(Spent 4 1 false 1 [one 3, here, untried]),
    tree!(Spent 4 1 true 1 [zero 3, here, untried]),
];

const ON_TWO_GATES: [Case; 11] = [
    // At the budget's end a Here stands for a quiet end, but where no branch is left the fault is refuted.
    tree!(Spent 4 1 false 1 [one 3, here, untried]),
    tree!(Spent 4 1 false 2 [one 3, one 2, here, untried, untried]),
    tree!(Spent 4 1 false 3 [one 3, one 2, quiet, here, untried]),
    tree!(Refuted 4 1 false 4 [one 3, one 2, quiet, quiet, quiet]),
    tree!(Refuted 4 0 false 2 [one 2, quiet, quiet]),
    tree!(Refuted 5 1 false 256 [one 2, quiet, quiet]),
    // A detection comes before the budget's end.
    hit!(5 0 true 1 [false false]),
    hit!(4 0 true 2 [false true]),
    hit!(5 0 false 256 [true false]),
    hit!(5 1 true 256 [false false]),
    tree!(Refuted 4 1 true 4 [zero 3, one 2, quiet, quiet, quiet]),
];

const ON_FOUR_GATES: [Case; 20] = [
    // Every fault of the net.
    hit!(6 0 false 256 [true true false true]),
    hit!(6 0 true 256 [false true false true]),
    hit!(6 1 false 256 [true true false true]),
    hit!(6 1 true 256 [true false false true]),
    hit!(7 0 false 256 [true false true true]),
    hit!(7 0 true 256 [false false true true]),
    hit!(7 1 false 256 [true false true true]),
    hit!(7 1 true 256 [true false false true]),
    hit!(8 0 false 256 [true true false true]),
    hit!(8 0 true 256 [false false false true]),
    hit!(8 1 false 256 [true false true true]),
    hit!(8 1 true 256 [false false false true]),
    hit!(9 0 false 256 [true true false true]),
    hit!(9 0 true 256 [false false false true]),
    hit!(9 1 false 256 [true true false true]),
    hit!(9 1 true 256 [true true false false]),
    // As many edges as are needed, and one less.
    hit!(6 0 true 3 [false true false true]),
    tree!(Spent 6 0 true 2 [zero 2, one 3, here, untried, untried]),
    tree!(Spent 7 0 false 3 [one 2, one 4, zero 3, here, untried, untried, untried]),
    hit!(8 0 true 2 [false false false true]),
];

// (not a) b, and (not a) + c.
const NOT_AT_FIRST: Wiring<'static> = Wiring {
    sources: 3,
    gates: &[Gate::Not(2), Gate::And(&[5, 3]), Gate::Or(&[5, 4])],
    observed: &[6, 7],
};

// Where a search turns first: the values of its vectors and the edges that it takes, worked by hand.
const ON_NOT_AT_FIRST: [Case; 6] = [
    // A goal is turned where it goes back through a Not.
    tree!(Spent 6 0 false 1 [zero 2, here, untried]),
    tree!(Spent 6 0 true 1 [one 2, here, untried]),
    // The other pin of an And is set to 1, and that of an Or to 0.
    hit!(6 0 false 2 [false true false]),
    hit!(7 0 false 2 [false false false]),
    // A difference that has come to both gates goes on through the lesser one.
    hit!(5 0 false 2 [true true false]),
    hit!(5 0 true 2 [false true false]),
];

// (7 + 11) b' and 7 d d', where 7 is a' b and 11 is a' c. The sum is gate 10, which gets its pin of 11 by an edit alone: so its
// number is less than that of its driver.
const BEFORE_THE_EDIT: Wiring<'static> = Wiring {
    sources: 4,
    gates: &[
        Gate::Not(2),
        Gate::And(&[6, 3]),
        Gate::Not(5),
        Gate::And(&[7, 5, 8]),
        Gate::Or(&[7]),
        Gate::And(&[6, 4]),
        Gate::Not(3),
        Gate::And(&[10, 12]),
    ],
    observed: &[9, 13],
};

// What a search wants next, by the rule: first the opposite of the stuck value at the pin's driver, and then, at the first
// unknown pin of the least gate to which the difference has come and where it may go on, the value that lets it on. A gate is
// to have a value through its first unknown pin.
const ON_A_LATE_PIN: [Case; 4] = [
    // a = 0, as 6 is to differ. Of its readers 7 is the lesser: b = 1. Then 9 and 11 are open, and 9 is the lesser: d = 1, which
    // makes 9 equal, as b does 13; and so does d = 0. So b = 0, and 7 is equal. Only 11 still has the difference at a pin, and
    // not 10, which had it under b = 1 and has the lesser number: c = 1, the sixth edge, and 13 differs.
    tree!(Spent 6 0 true 5 [zero 2, one 3, one 5, quiet, quiet, here, untried]),
    hit!(6 0 true 6 [false false true false]),
    // 10 is to be 1, and so 7, and so 6: a = 0. Now 7 is to be 1 still: b = 1, which makes 13 equal. Under b = 0 it is 11 that
    // is to be 1: c = 1, the fourth edge, and 13 differs.
    tree!(Spent 13 0 false 3 [zero 2, one 3, quiet, here, untried]),
    hit!(13 0 false 4 [false false true false]),
];

// (a differs from b) c.
const PARITY_FIRST: Wiring<'static> = Wiring {
    sources: 3,
    gates: &[Gate::Xor(2, 3), Gate::And(&[5, 4])],
    observed: &[6],
};

// What a search wants of an Xor, by the rule: as it goes back, the value stays at the first unknown pin, and is turned where the
// other pin is 1; and the other pin of an Xor to which the difference has come is to be 0.
const ON_PARITY_FIRST: [Case; 8] = [
    // 5 is to be 1: a = 1, and then, as a is 1, b = 0. Then c = 1 lets it on.
    tree!(Spent 6 0 false 2 [one 2, zero 3, here, untried, untried]),
    hit!(6 0 false 3 [true false true]),
    // 5 is to be 0: a = 0, and then b = 0.
    tree!(Spent 6 0 true 2 [zero 2, zero 3, here, untried, untried]),
    hit!(6 0 true 3 [false false true]),
    // a is to be 1. The Xor is open: b = 0, and then c = 1.
    tree!(Spent 5 0 false 2 [one 2, zero 3, here, untried, untried]),
    hit!(5 0 false 3 [true false true]),
    // b is to be 0. The Xor is open at its first pin: a = 0.
    tree!(Spent 5 1 true 2 [zero 3, zero 2, here, untried, untried]),
    hit!(5 1 true 3 [false false true]),
];

// The net after the edit.
fn net_with_late_pin(alloc: Global) -> Result<Graph, Fail> {
    let mut graph = build_net(alloc, &BEFORE_THE_EDIT)?;
    graph.leads_back();
    let mut undos = Undos::new(alloc);
    let edit = Edit::Append {
        gate: NodeId(10),
        driver: NodeId(11),
    };
    if try_edit(alloc, &mut graph, &mut undos, &edit)? {
        Ok(graph)
    } else {
        Err("not edited".into())
    }
}

fn agrees(verdict: &Verdict, answer: Answer) -> bool {
    match (verdict, answer) {
        (Verdict::Detected(vector), Answer::Detected(bits)) => vector.values() == bits,
        (Verdict::Refuted(tree), Answer::Refuted(items)) => tree.items() == items,
        (Verdict::Spent(tree), Answer::Spent(items)) => tree.items() == items,
        _ => false,
    }
}

// Whether a search gives the verdict.
fn gives(searcher: &mut Searcher, graph: &Graph, case: &Case) -> Result<bool, Fail>
    requires { Serves searcher.old (net_of graph.now) }
    ensures { Serves searcher.new (net_of graph.now) }
{
    let fault = fault_at(graph, case.fault.0, case.fault.1, case.fault.2)?;
    if case.budget == 0 {
        return Err("no budget".into());
    }
    let verdict = searcher.search(&Question { graph, fault }, case.budget)?;
    Ok(agrees(&verdict, case.answer))
}

// Whether one searcher gives each verdict in turn.
fn gives_all(searcher: &mut Searcher, graph: &Graph, cases: &[Case]) -> Result<bool, Fail>
    requires { Serves searcher.old (net_of graph.now) }
{
    for case in cases {
        if !gives(searcher, graph, case)? {
            return Ok(false);
        }
    }
    Ok(true)
}

fn holds(alloc: Global, graph: &Graph, cases: &[Case]) -> Result<bool, Fail> {
    let mut searcher = Searcher::new(alloc, graph)?;
    gives_all(&mut searcher, graph, cases)
}

#[test]
fn searches_on_one_gate(rt: HostRuntime) -> Result<(), Fail> {
    let graph = build_net(rt.alloc(), &ONE_GATE)?;
    assert!(rt; holds(rt.alloc(), &graph, &ON_ONE_GATE)?);
    Ok(())
}

#[test]
fn searches_on_a_place_observed_twice(rt: HostRuntime) -> Result<(), Fail> {
    let graph = build_net(rt.alloc(), &ONE_GATE_TWICE)?;
    assert!(rt; holds(rt.alloc(), &graph, &ON_ONE_GATE)?);
    Ok(())
}

#[test]
fn searches_on_two_gates(rt: HostRuntime) -> Result<(), Fail> {
    let graph = build_net(rt.alloc(), &ABSORBED)?;
    assert!(rt; holds(rt.alloc(), &graph, &ON_TWO_GATES)?);
    Ok(())
}

#[test]
fn searches_on_four_gates(rt: HostRuntime) -> Result<(), Fail> {
    let graph = build_net(rt.alloc(), &FOUR_GATES)?;
    assert!(rt; holds(rt.alloc(), &graph, &ON_FOUR_GATES)?);
    Ok(())
}

#[test]
fn a_search_turns_where_it_should_at_first(rt: HostRuntime) -> Result<(), Fail> {
    let graph = build_net(rt.alloc(), &NOT_AT_FIRST)?;
    assert!(rt; holds(rt.alloc(), &graph, &ON_NOT_AT_FIRST)?);
    Ok(())
}

#[test]
fn a_search_turns_at_a_parity(rt: HostRuntime) -> Result<(), Fail> {
    let graph = build_net(rt.alloc(), &PARITY_FIRST)?;
    assert!(rt; holds(rt.alloc(), &graph, &ON_PARITY_FIRST)?);
    Ok(())
}

#[test]
fn a_search_goes_on_at_the_least_gate(rt: HostRuntime) -> Result<(), Fail> {
    let graph = net_with_late_pin(rt.alloc())?;
    assert!(rt; holds(rt.alloc(), &graph, &ON_A_LATE_PIN)?);
    Ok(())
}
