//! Decompositions against gate lists that are worked out by hand.
ghost use Rattle.std.specs.Prelude.{◌≡◌, true};
ghost use Rattle.gate_graph.specs.Circuit.{net_of};
ghost use Rattle.gate_net.specs.Net.{IsLive};

use crate::cover_rows::{Gate, model, wide_model};
use cover_decompose::{DecomposeRefusal, decompose, is_small, wires_are_bounded};
use gate_graph::{Graph, Inputs};
use gate_net::Kind;
use rm_base::{NoMemory, NodeId};
use rm_model::{Model, NameKeys, RankedModel, is_well_formed, ranks_exist};
use std::alloc::Global;
use std::test::Fail;

// The decomposition, where the model meets what it needs.
fn decompose_formed(alloc: Global, model: Model) -> Result<Option<Graph>, DecomposeRefusal> {
    ranks_exist();
    wires_are_bounded();
    if !is_well_formed(alloc, NameKeys::Ordered, &model)? {
        return Ok(None);
    }
    if !is_small(alloc, NameKeys::Ordered, &model)? || model.covers.len() > 1_000_000 {
        return Ok(None);
    }
    match RankedModel::new(alloc, NameKeys::Ordered, model) {
        Ok(ranked) => Ok(Some(decompose(alloc, &ranked)?)),
        Err(_) => Ok(None),
    }
}

fn is_live(graph: &Graph, node: NodeId) -> bool
    ensures { result ≡ true → IsLive (net_of graph.now) node.0 }
{
    match graph.kind(node) {
        Some(_) => true,
        None => false,
    }
}

// Whether these are the nodes.
fn are_these(nodes: Inputs<'_>, numbers: &[u32]) -> bool {
    let mut at = 0usize;
    for node in nodes {
        if at >= numbers.len() {
            return false;
        }
        if numbers[at] != node.0 {
            return false;
        }
        at += 1;
    }
    at == numbers.len()
}

// A gate of a list, with its drivers.
#[derive(Clone, Copy)]
struct Made<'a> {
    kind: Kind,
    drivers: &'a [u32],
}

fn is_made(graph: &Graph, node: NodeId, made: Made) -> bool {
    if graph.kind(node) != Some(made.kind) {
        return false;
    }
    if !is_live(graph, node) {
        return false;
    }
    are_these(graph.inputs_of(node), made.drivers)
}

// Whether the graph has these gates from a number on, no node after them, and these observed nodes.
fn has_gates(graph: &Graph, first: u32, gates: &[Made], observed: &[u32]) -> bool {
    let mut node = first;
    for made in gates {
        if !is_made(graph, NodeId(node), *made) {
            return false;
        }
        node = node.saturating_add(1);
    }
    if graph.node_bound() != node {
        return false;
    }
    are_these(graph.observed_points(), observed)
}

fn and<'a>(drivers: &'a [u32]) -> Made<'a> {
    Made {
        kind: Kind::And,
        drivers,
    }
}

fn or<'a>(drivers: &'a [u32]) -> Made<'a> {
    Made {
        kind: Kind::Or,
        drivers,
    }
}

fn not<'a>(drivers: &'a [u32]) -> Made<'a> {
    Made {
        kind: Kind::Not,
        drivers,
    }
}

fn gate<'a>(inputs: &'a [&'a str], output: &'a str, rows: &'a [&'a str]) -> Gate<'a> {
    Gate {
        inputs,
        output,
        rows,
        on: true,
    }
}

// Whether the model of these covers has these gates after its sources.
fn gives(
    alloc: Global,
    inputs: &[&str],
    outputs: &[&str],
    covers: &[Gate],
    gates: &[Made],
    observed: &[u32],
) -> Result<bool, DecomposeRefusal> {
    let model = model(alloc, inputs, outputs, covers)?;
    let mut first = 2u32;
    for _ in inputs {
        first = first.saturating_add(1);
    }
    match decompose_formed(alloc, model)? {
        Some(graph) => Ok(has_gates(&graph, first, gates, observed)),
        None => Ok(false),
    }
}

fn gate_disappears(alloc: Global) -> Result<bool, DecomposeRefusal> {
    gives(
        alloc,
        &["x", "y"],
        &["z"],
        &[gate(&["x", "y"], "z", &["1-", "11"])],
        &[and(&[2, 3]), or(&[2, 4])],
        &[5],
    )
}

fn four_gates(alloc: Global) -> Result<bool, DecomposeRefusal> {
    gives(
        alloc,
        &["a", "b", "c", "d"],
        &["k"],
        &[
            gate(&["a", "b", "c"], "o", &["11-", "1-1"]),
            gate(&["o", "d"], "k", &["11"]),
        ],
        &[and(&[2, 3]), and(&[2, 4]), or(&[6, 7]), and(&[8, 5])],
        &[9],
    )
}

fn rows_of_zero(alloc: Global) -> Result<bool, DecomposeRefusal> {
    let cover = Gate {
        inputs: &["a", "b"],
        output: "z",
        rows: &["00"],
        on: false,
    };
    gives(
        alloc,
        &["a", "b"],
        &["z"],
        &[cover],
        &[not(&[2]), not(&[3]), and(&[4, 5]), not(&[6])],
        &[7],
    )
}

fn multiplexer(alloc: Global) -> Result<bool, DecomposeRefusal> {
    gives(
        alloc,
        &["s", "a", "b"],
        &["y"],
        &[gate(&["s", "a", "b"], "y", &["01-", "1-1", "-11"])],
        &[
            not(&[2]),
            and(&[5, 3]),
            and(&[2, 4]),
            and(&[3, 4]),
            or(&[6, 7, 8]),
        ],
        &[9],
    )
}

// A cover without inputs, with the rows' number and their end, and its gates.
fn constant(
    alloc: Global,
    rows: &[&str],
    on: bool,
    gates: &[Made],
    observed: u32,
) -> Result<bool, DecomposeRefusal> {
    let cover = Gate {
        inputs: &[],
        output: "z",
        rows,
        on,
    };
    gives(alloc, &[], &["z"], &[cover], gates, &[observed])
}

#[test]
fn gates_are_those_by_hand(rt: HostRuntime) -> Result<(), Fail> {
    let alloc = rt.alloc();
    assert_eq!(rt; gate_disappears(alloc), Ok(true));
    assert_eq!(rt; four_gates(alloc), Ok(true));
    assert_eq!(rt; rows_of_zero(alloc), Ok(true));
    assert_eq!(rt; multiplexer(alloc), Ok(true));
    assert_eq!(rt; constant(alloc, &[], true, &[], 0), Ok(true));
    assert_eq!(rt; constant(alloc, &[""], true, &[], 1), Ok(true));
    assert_eq!(rt; constant(alloc, &[""], false, &[not(&[1])], 2), Ok(true));
    Ok(())
}

// The wires of the decomposition of a model with two covers of so many literals.
fn wide_wires(alloc: Global, count: usize) -> Result<Option<u32>, DecomposeRefusal> {
    let model = wide_model(alloc, count)?;
    match decompose_formed(alloc, model)? {
        Some(graph) => Ok(Some(graph.wire_count())),
        None => Ok(None),
    }
}

#[test]
fn too_many_wires_are_refused(rt: HostRuntime) -> Result<(), Fail> {
    let alloc = rt.alloc();
    assert_eq!(rt; wide_wires(alloc, 32_768), Ok(Some(65_536)));
    assert_eq!(rt;
        wide_wires(alloc, 40_000),
        Err(DecomposeRefusal::Limit { pins: 80_000 })
    );
    Ok(())
}
