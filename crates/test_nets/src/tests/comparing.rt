//! A graph against a plain net.
use super::plain_net::PlainNet;
use crate::editing::is_live;
use gate_graph::{Graph, Inputs};
use rm_base::{NoMemory, NodeId};
use std::alloc::Global;

fn numbers(alloc: Global, nodes: Inputs<'_>) -> Result<Vec<u32>, NoMemory> {
    let mut numbers = Vec::new(alloc);
    for node in nodes {
        numbers.push(node.0)?;
    }
    Ok(numbers)
}

pub fn drivers(alloc: Global, graph: &Graph, node: u32) -> Result<Vec<u32>, NoMemory> {
    if !is_live(graph, NodeId(node)) {
        return Ok(Vec::new(alloc));
    }
    numbers(alloc, graph.inputs_of(NodeId(node)))
}

pub fn readers(alloc: Global, graph: &Graph, node: u32) -> Result<Vec<(u32, u32)>, NoMemory> {
    let mut readers = Vec::new(alloc);
    if !is_live(graph, NodeId(node)) {
        return Ok(readers);
    }
    for (gate, position) in graph.fanouts_of(NodeId(node)) {
        readers.push((gate.0, position))?;
    }
    Ok(readers)
}

// Whether the number has the same kind, drivers and readers in both, in the same order.
fn is_same(alloc: Global, graph: &Graph, plain: &PlainNet, node: u32) -> Result<bool, NoMemory> {
    if graph.kind(NodeId(node)) != plain.kind(node) {
        return Ok(false);
    }
    if node != 0 && drivers(alloc, graph, node)? != plain.drivers(alloc, node)? {
        return Ok(false);
    }
    Ok(readers(alloc, graph, node)? == plain.readers(alloc, node)?)
}

// Whether both have the same nodes, drivers, observed list and readers in order.
pub fn are_same(alloc: Global, graph: &Graph, plain: &PlainNet) -> Result<bool, NoMemory> {
    if numbers(alloc, graph.observed_points())? != plain.drivers(alloc, 0)? {
        return Ok(false);
    }
    for node in 0..plain.bound() {
        if !is_same(alloc, graph, plain, node)? {
            return Ok(false);
        }
    }
    Ok(graph.node_bound() <= plain.bound())
}
