//! The calls on a net of four gates.
use super::comparing::{drivers, readers};
use crate::editing::is_live;
use crate::wiring::build_net;
use crate::worked::FOUR_GATES;
use gate_graph::{Graph, Marks};
use gate_net::Kind;
use rm_base::{NoMemory, NodeId};
use std::alloc::Global;
use std::test::Fail;

const KINDS: [(u32, Option<Kind>); 7] = [
    (0, Some(Kind::Zero)),
    (1, Some(Kind::One)),
    (2, Some(Kind::Source)),
    (5, Some(Kind::Source)),
    (8, Some(Kind::Or)),
    (9, Some(Kind::And)),
    (10, None),
];

const DRIVERS: [(u32, &[u32]); 2] = [(9, &[8, 5]), (2, &[])];

const READERS: [(u32, &[(u32, u32)]); 3] = [(2, &[(6, 0), (7, 0)]), (7, &[(8, 1)]), (9, &[])];

fn are_kinds(graph: &Graph) -> bool {
    for (node, kind) in &KINDS {
        if graph.kind(NodeId(*node)) != *kind {
            return false;
        }
    }
    true
}

fn has_driver(graph: &Graph, node: u32, position: u32, wanted: Option<u32>) -> bool {
    match graph.driver(NodeId(node), position) {
        Some(driver) => wanted == Some(driver.0),
        None => wanted.is_none(),
    }
}

fn are_drivers(alloc: Global, graph: &Graph) -> Result<bool, NoMemory> {
    for (node, wanted) in &DRIVERS {
        if drivers(alloc, graph, *node)?.as_slice() != *wanted {
            return Ok(false);
        }
    }
    Ok(true)
}

fn are_readers(alloc: Global, graph: &Graph) -> Result<bool, NoMemory> {
    for (node, wanted) in &READERS {
        if readers(alloc, graph, *node)?.as_slice() != *wanted {
            return Ok(false);
        }
    }
    Ok(true)
}

#[test]
fn four_gates(rt: HostRuntime) -> Result<(), Fail> {
    let graph = build_net(rt.alloc(), &FOUR_GATES)?;
    assert!(rt; are_kinds(&graph));
    assert!(rt; has_driver(&graph, 8, 1, Some(7)));
    assert!(rt; has_driver(&graph, 8, 2, None));
    assert!(rt; are_drivers(rt.alloc(), &graph)?);
    assert!(rt; are_readers(rt.alloc(), &graph)?);
    Ok(())
}

// Sources, gates, wires and numbers.
fn counts_of(graph: &Graph) -> [u32; 4] {
    [
        graph.source_count(),
        graph.gate_count(),
        graph.wire_count(),
        graph.node_bound(),
    ]
}

#[test]
fn counts(rt: HostRuntime) -> Result<(), Fail> {
    let graph = build_net(rt.alloc(), &FOUR_GATES)?;
    assert!(rt; counts_of(&graph) == [4, 4, 8, 10]);
    assert!(rt; graph.observed_count() == 1);
    assert!(rt; graph.is_observed(NodeId(9)));
    assert!(rt; !graph.is_observed(NodeId(8)));
    assert!(rt; graph.epoch() == 0);
    assert!(rt; graph.is_fresh(0));
    Ok(())
}

// Whether a path leads from one node to the other.
const PATHS: [(u32, u32, bool); 7] = [
    (2, 9, true),
    (7, 8, true),
    (9, 9, false),
    (5, 8, false),
    (9, 2, false),
    (6, 9, true),
    (9, 6, false),
];

fn leads(alloc: Global, graph: &Graph, from: u32, to: u32) -> Result<bool, Fail> {
    if !is_live(graph, NodeId(from)) {
        return Err("no such node".into());
    }
    if !is_live(graph, NodeId(to)) {
        return Err("no such node".into());
    }
    let mut marks = Marks::new(alloc, graph.node_bound())?;
    Ok(graph.reaches(NodeId(from), NodeId(to), &mut marks))
}

#[test]
fn paths_lead(rt: HostRuntime) -> Result<(), Fail> {
    let graph = build_net(rt.alloc(), &FOUR_GATES)?;
    for (from, to, wanted) in &PATHS {
        assert!(rt; leads(rt.alloc(), &graph, *from, *to)? == *wanted);
    }
    Ok(())
}

// The drivers of the four gates, each with its gate.
const WIRES: [(u32, u32); 8] = [
    (2, 6),
    (3, 6),
    (2, 7),
    (4, 7),
    (6, 8),
    (7, 8),
    (8, 9),
    (5, 9),
];

// Where the node stands in the order.
fn place_in(order: &[NodeId], node: u32) -> usize {
    for at in 0..order.len() {
        if order[at].0 == node {
            return at;
        }
    }
    order.len()
}

#[test]
fn drivers_come_first(rt: HostRuntime) -> Result<(), Fail> {
    let graph = build_net(rt.alloc(), &FOUR_GATES)?;
    let order = graph.order(rt.alloc())?;
    assert_eq!(rt; order.len(), 10);
    for node in 0..10u32 {
        assert!(rt; place_in(&order, node) < 10);
    }
    for (driver, gate) in &WIRES {
        assert!(rt; place_in(&order, *driver) < place_in(&order, *gate));
    }
    Ok(())
}
