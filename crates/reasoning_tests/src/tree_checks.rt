//! Trees on two nets, each with what the checker answers.
use gate_graph::{Graph, Question};
use refutation::{Form, Item, Line, Shape, Tree, TreeBuilder};
use refutation_check::{CheckRefusal, check_tree, shorten_tree};
use rm_base::{NoMemory, NodeId};
use std::alloc::Global;
use std::test::Fail;
use test_nets::worked::{FOUR_GATES_AND_PIN, ONE_GATE};
use test_nets::{build_net, fault_at};

// An item, written by its word.
macro_rules! item {
    (a) => {
        Item::Line(Line::Act)
    };
    (s) => {
        Item::Line(Line::Site)
    };
    (g $x:literal) => {
        Item::Line(Line::GoodForward { node: NodeId($x) })
    };
    (f $x:literal) => {
        Item::Line(Line::FaultyForward { node: NodeId($x) })
    };
    (h $x:literal) => {
        Item::Line(Line::Chain { node: NodeId($x) })
    };
    (o $x:literal) => {
        Item::Line(Line::Out { node: NodeId($x) })
    };
    (q $x:literal) => {
        Item::Line(Line::ToFaulty { node: NodeId($x) })
    };
    (i $x:literal $p:literal) => {
        Item::Line(Line::Side { node: NodeId($x), position: $p })
    };
    (zero $x:literal) => {
        Item::Split { node: NodeId($x), first: false }
    };
    (one $x:literal) => {
        Item::Split { node: NodeId($x), first: true }
    };
    (clash $x:literal) => {
        Item::Clash(NodeId($x))
    };
    (quiet) => {
        Item::Quiet
    };
    (here) => {
        Item::Here
    };
    (untried) => {
        Item::Untried
    };
}

// A fault, a tree, its form, and what the checker answers.
#[derive(Clone, Copy)]
struct Case {
    fault: (u32, u32, bool),
    items: &'static [Item],
    form: Form,
    answer: Result<Shape, CheckRefusal>,
}

macro_rules! refused {
    ($fault:ident $form:ident [$($word:ident $($number:literal)*),*] $why:ident $item:literal) => {
        Case {
            fault: $fault,
            items: &[$(item!($word $($number)*)),*],
            form: Form::$form,
            answer: Err(CheckRefusal::$why { item: $item }),
        }
    };
}

macro_rules! accepted {
    ($fault:ident $form:ident [$($word:ident $($number:literal)*),*] $edges:literal $here:literal $untried:literal) => {
        Case {
            fault: $fault,
            items: &[$(item!($word $($number)*)),*],
            form: Form::$form,
            answer: Ok(Shape { edges: $edges, here: $here, untried: $untried }),
        }
    };
}

mod keeping;

// Pin 0 of the And of two.
const STUCK_AT_0: (u32, u32, bool) = (4, 0, false);

const STUCK_AT_1: (u32, u32, bool) = (4, 0, true);

const ON_ONE_GATE: [Case; 31] = [
    // Each refusal at the first item, and no item at all.
    refused!(STUCK_AT_0 Closed [g 4] BadLine 1),
    refused!(STUCK_AT_0 Closed [clash 2] NotClash 1),
    refused!(STUCK_AT_0 Closed [quiet] NotQuiet 1),
    refused!(STUCK_AT_0 Closed [one 0, quiet, quiet] BadSplit 1),
    refused!(STUCK_AT_0 Closed [here] Shape 1),
    refused!(STUCK_AT_0 Closed [untried] Shape 1),
    refused!(STUCK_AT_0 Closed [] Shape 1),
    refused!(STUCK_AT_0 Partial [] Shape 1),
    // Partial trees.
    accepted!(STUCK_AT_0 Partial [here] 0 1 0),
    accepted!(STUCK_AT_0 Partial [one 2, here, untried] 1 1 1),
    accepted!(STUCK_AT_0 Partial [zero 2, quiet, here] 2 1 0),
    accepted!(STUCK_AT_0 Partial [zero 2, quiet, zero 3, quiet, here] 4 1 0),
    accepted!(STUCK_AT_0 Partial [zero 2, quiet, one 3, here, untried] 3 1 1),
    // An Untried before the Here, a second Here, an end too early, an item after the end.
    refused!(STUCK_AT_0 Partial [untried] Shape 1),
    refused!(STUCK_AT_0 Partial [one 2, untried, here] Shape 2),
    refused!(STUCK_AT_0 Partial [one 2, here, here] Shape 3),
    refused!(STUCK_AT_0 Partial [one 2, here, quiet] Shape 3),
    refused!(STUCK_AT_0 Partial [one 2, here] Shape 3),
    refused!(STUCK_AT_0 Partial [one 2, here, untried, untried] Shape 4),
    // After the Here nothing but the shape is looked at, and at the end of a tree the shape comes last.
    refused!(STUCK_AT_0 Partial [one 2, here, g 99] Shape 3),
    refused!(STUCK_AT_0 Partial [clash 2] NotClash 1),
    // Splits on a node that is decided, on a gate, on a constant and on a dead number.
    refused!(STUCK_AT_0 Closed [one 2, zero 2, quiet, quiet] BadSplit 2),
    refused!(STUCK_AT_0 Partial [a, zero 2, here, untried] BadSplit 2),
    refused!(STUCK_AT_0 Partial [zero 4, here, untried] BadSplit 1),
    refused!(STUCK_AT_0 Closed [zero 4, quiet] NotQuiet 2),
    refused!(STUCK_AT_0 Partial [zero 1, here, untried] BadSplit 1),
    refused!(STUCK_AT_0 Closed [one 99, quiet, quiet] BadSplit 1),
    refused!(STUCK_AT_0 Partial [one 99, here, untried] BadSplit 1),
    refused!(STUCK_AT_0 Closed [clash 99] NotClash 1),
    // The second branch holds the other value.
    refused!(STUCK_AT_0 Closed [zero 2, quiet, quiet] NotQuiet 3),
    // Good 0 and faulty 1 are not opposed.
    refused!(STUCK_AT_1 Closed [a, g 4, one 3, o 3, q 3, f 4, clash 4] NotClash 7),
];

// The last pin of the And of three, and the first pin of gate 6.
const NEW_PIN: (u32, u32, bool) = (9, 2, true);

const OLD_PIN: (u32, u32, bool) = (6, 0, true);

const ON_FOUR_GATES: [Case; 12] = [
    // A new pin stuck at 1 and an old one stuck at 1, each refuted by a clash.
    accepted!(NEW_PIN Closed [a, g 6, g 7, g 8, s, o 8, i 9 0, clash 8] 0 0 0),
    accepted!(OLD_PIN Closed [a, s, h 8, h 9, o 2, i 9 2, clash 2] 0 0 0),
    // Splits with two closed branches.
    accepted!(NEW_PIN Closed [a, g 6, g 7, g 8, s, o 8, i 9 0, zero 3, clash 8, clash 8] 2 0 0),
    accepted!(OLD_PIN Closed [one 2, quiet, s, h 8, h 9, o 2, i 9 2, clash 2] 2 0 0),
    accepted!(NEW_PIN Partial [a, g 6, g 7, g 8, s, o 8, i 9 0, zero 3, clash 8, here] 2 1 0),
    // An item after the end, and a second branch that is missing.
    refused!(NEW_PIN Closed [a, g 6, g 7, g 8, s, o 8, i 9 0, clash 8, g 99] Shape 9),
    refused!(NEW_PIN Closed [a, g 6, g 7, g 8, s, o 8, i 9 0, zero 3, clash 8] Shape 10),
    // A partial tree without its Here.
    refused!(NEW_PIN Partial [a, g 6, g 7, g 8, s, o 8, i 9 0, clash 8] Shape 8),
    // The facts of the first branch are not held in the second.
    refused!(NEW_PIN Closed [zero 3, a, g 6, g 7, g 8, s, o 8, i 9 0, clash 8, clash 8] NotClash 10),
    // A node with both good facts is decided.
    refused!(OLD_PIN Closed [a, s, h 8, h 9, o 2, i 9 2, zero 2] BadSplit 7),
    // Each branch that is left has its Untried.
    accepted!(NEW_PIN Partial [zero 3, zero 4, here, untried, untried] 2 1 2),
    refused!(NEW_PIN Partial [zero 3, zero 4, here, untried] Shape 5),
];

fn tree_of(alloc: Global, items: &[Item]) -> Result<Tree, NoMemory> {
    let mut tree = TreeBuilder::new(alloc);
    for item in items {
        tree.push(*item)?;
    }
    Ok(tree.finish())
}

// Whether the checker answers as it should.
fn holds(alloc: Global, graph: &Graph, case: &Case) -> Result<bool, Fail> {
    let fault = fault_at(graph, case.fault.0, case.fault.1, case.fault.2)?;
    let tree = tree_of(alloc, case.items)?;
    Ok(check_tree(alloc, &Question { graph, fault }, &tree, case.form) == case.answer)
}

// The first case that the checker doesn't answer as it should.
fn first_wrong(alloc: Global, graph: &Graph, cases: &[Case]) -> Result<Option<usize>, Fail> {
    for at in 0..cases.len() {
        if !holds(alloc, graph, &cases[at])? {
            return Ok(Some(at));
        }
    }
    Ok(None)
}

#[test]
fn trees_on_one_gate(rt: HostRuntime) -> Result<(), Fail> {
    let graph = build_net(rt.alloc(), &ONE_GATE)?;
    assert_eq!(rt; first_wrong(rt.alloc(), &graph, &ON_ONE_GATE)?, None);
    Ok(())
}

#[test]
fn trees_on_four_gates(rt: HostRuntime) -> Result<(), Fail> {
    let graph = build_net(rt.alloc(), &FOUR_GATES_AND_PIN)?;
    assert_eq!(rt; first_wrong(rt.alloc(), &graph, &ON_FOUR_GATES)?, None);
    Ok(())
}

// A fault, a tree, and what is left of it.
#[derive(Clone, Copy)]
struct Shorter {
    fault: (u32, u32, bool),
    items: &'static [Item],
    left: &'static [Item],
}

macro_rules! left {
    ($fault:ident [$($word:ident $($number:literal)*),*] [$($kept:ident $($of:literal)*),*]) => {
        Shorter {
            fault: $fault,
            items: &[$(item!($word $($number)*)),*],
            left: &[$(item!($kept $($of)*)),*],
        }
    };
}

const SHORTER: [Shorter; 8] = [
    // All lines that can be taken, and those behind the two opposed facts.
    left!(NEW_PIN [a, s, o 2, o 3, o 4, o 5, o 6, o 7, o 8, q 2, g 6, q 6, g 7, q 7, g 8, q 8, i 9 0, clash 8]
        [a, g 6, g 7, g 8, s, o 8, i 9 0, clash 8]),
    left!(OLD_PIN [a, s, h 8, h 9, o 2, i 9 2, clash 2] [a, h 9, o 2, i 9 2, clash 2]),
    // A split whose second branch doesn't rest on it, one whose first branch doesn't, and one on which both rest.
    left!(NEW_PIN [a, g 6, g 7, g 8, s, o 8, i 9 0, zero 3, clash 8, clash 8] [a, g 6, g 7, g 8, s, o 8, i 9 0, clash 8]),
    left!(NEW_PIN [one 5, a, g 6, g 7, g 8, s, o 8, i 9 0, clash 8, quiet] [a, g 6, g 7, g 8, s, o 8, i 9 0, clash 8]),
    left!(OLD_PIN [one 2, quiet, s, h 8, h 9, o 2, i 9 2, clash 2] [one 2, quiet, h 9, o 2, i 9 2, clash 2]),
    // What isn't accepted stays as it is.
    left!(OLD_PIN [a, s, h 8, o 2, clash 2] [a, s, h 8, o 2, clash 2]),
    left!(OLD_PIN [a, s, h 8, h 9, o 2, i 9 2, clash 2, g 99] [a, s, h 8, h 9, o 2, i 9 2, clash 2, g 99]),
    left!(NEW_PIN [s, zero 3, h 8, here, untried] [s, zero 3, h 8, here, untried]),
];

// Whether that is left of the tree.
fn is_left(alloc: Global, graph: &Graph, case: &Shorter) -> Result<bool, Fail> {
    let fault = fault_at(graph, case.fault.0, case.fault.1, case.fault.2)?;
    let tree = tree_of(alloc, case.items)?;
    let short = shorten_tree(alloc, &Question { graph, fault }, tree)?;
    Ok(short.items() == case.left)
}

// The first tree of which something else is left.
fn first_longer(alloc: Global, graph: &Graph, cases: &[Shorter]) -> Result<Option<usize>, Fail> {
    for at in 0..cases.len() {
        if !is_left(alloc, graph, &cases[at])? {
            return Ok(Some(at));
        }
    }
    Ok(None)
}

#[test]
fn trees_are_shortened(rt: HostRuntime) -> Result<(), Fail> {
    let graph = build_net(rt.alloc(), &FOUR_GATES_AND_PIN)?;
    assert_eq!(rt; first_longer(rt.alloc(), &graph, &SHORTER)?, None);
    Ok(())
}

// A tree that splits so often on source 2.
fn many_splits(alloc: Global, count: u32) -> Result<Tree, NoMemory> {
    let mut tree = TreeBuilder::new(alloc);
    for _ in 0..count {
        tree.push(item!(one 2))?;
    }
    Ok(tree.finish())
}

#[test]
fn a_source_is_split_once(rt: HostRuntime) -> Result<(), Fail> {
    let graph = build_net(rt.alloc(), &ONE_GATE)?;
    let fault = fault_at(&graph, 4, 0, false)?;
    let tree = many_splits(rt.alloc(), 1_000_000)?;
    let question = Question {
        graph: &graph,
        fault,
    };
    let answer = check_tree(rt.alloc(), &question, &tree, Form::Closed);
    assert!(rt; answer == Err(CheckRefusal::BadSplit { item: 2 }));
    Ok(())
}
