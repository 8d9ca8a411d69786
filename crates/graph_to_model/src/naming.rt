// The names of nodes by number.
ghost use Rattle.std.specs.Prelude.{◌≡◌, ◌<◌, ◌-◌, ◌+◌, ◌^◌, ◌≤◌, ◌++◌, ℕ, [], IfOk, length, slice_get, unwrap_or};
ghost use Rattle.std.specs.Fmt.{decimal};
ghost use Rattle.gate_graph.specs.Circuit.{net_of};
ghost use Rattle.rm_model.specs.Value.{observed_names, source_names};
ghost use Rattle.graph_to_model.specs.Fits.{Fits};
ghost use Rattle.graph_to_model.specs.Inner.Making.{AreNames, name_by, named, word_at};

use crate::places::first_places;
use crate::prefix::free_prefix;
use gate_graph::Graph;
use itoa::Buffer;
use rm_base::{FIRST_SOURCE, NoMemory};
use rm_model::{Listed, Model, Name, copy_name};
use std::alloc::Global;

fn source_name(alloc: Global, node: usize, sources: &[Name]) -> Result<Name, NoMemory>
    ensures { IfOk result (λ name. name ≡ unwrap_or (slice_get sources.now (node - 2)) []) }
{
    match sources.get(node.saturating_sub(2)) {
        Some(name) => copy_name(alloc, name),
        None => Ok(Listed::new(alloc)),
    }
}

fn made_name(alloc: Global, node: usize, prefix: &[u8]) -> Result<Name, NoMemory>
    ensures { IfOk result (λ name. name ≡ prefix.now ++ decimal node) }
{
    let mut buffer = Buffer::new();
    let mut text = Vec::from_slice(alloc, prefix)?;
    text.extend_from_slice(buffer.format(node).as_bytes())?;
    Ok(Listed::from_vec(text))
}

fn gate_name(
    alloc: Global,
    node: usize,
    observed: &[Name],
    place: Option<usize>,
    prefix: &[u8],
) -> Result<Name, NoMemory>
    ensures { IfOk result (λ name. name ≡ unwrap_or (word_at observed.now place) (prefix.now ++ decimal node)) }
{
    let Some(place) = place else {
        return made_name(alloc, node, prefix);
    };
    match observed.get(place) {
        Some(name) => copy_name(alloc, name),
        None => made_name(alloc, node, prefix),
    }
}

fn name_of(
    alloc: Global,
    node: usize,
    sources: &[Name],
    observed: &[Name],
    places: &[Option<usize>],
    prefix: &[u8],
) -> Result<Name, NoMemory>
    requires within { node < length places.now }
    requires few { length sources.now < 2 ^ 63 }
    ensures { IfOk result (λ name. name ≡ name_by sources.now observed.now places.now prefix.now node) }
{
    if node < FIRST_SOURCE as usize + sources.len() {
        return source_name(alloc, node, sources);
    }
    gate_name(alloc, node, observed, places[node], prefix)
}

fn names_by(
    alloc: Global,
    sources: &[Name],
    observed: &[Name],
    places: &[Option<usize>],
    prefix: &[u8],
) -> Result<Vec<Name>, NoMemory>
    requires { length sources.now < 2 ^ 63 }
    ensures count { IfOk result (λ names. length names.items ≡ length places.now) }
    ensures each { IfOk result (λ names. (n : ℕ) → n < length places.now → named names.items n ≡ name_by sources.now observed.now places.now prefix.now n) }
{
    let mut names = Vec::new(alloc);
    for node in 0..places.len() {
        names.push(name_of(alloc, node, sources, observed, places, prefix)?)?;
    }
    Ok(names)
}

/// The names of the nodes by number.
pub fn node_names(
    alloc: Global,
    graph: &Graph,
    original: &Model,
    sources: &[Name],
    observed: &[Name],
    nodes: &[usize],
) -> Result<Vec<Name>, NoMemory>
    requires fits { Fits (net_of graph.now) original.now }
    requires sources { sources.now ≡ source_names original.now }
    requires observed { observed.now ≡ observed_names original.now }
    requires nodes { nodes.now ≡ (net_of graph.now).observed }
    ensures { IfOk result (λ names. AreNames original.now (net_of graph.now) names.items) }
{
    graph.well_formed();
    let prefix = free_prefix(alloc, sources, observed)?;
    let bound = graph.node_bound() as usize;
    let places = first_places(alloc, bound, nodes)?;
    let names = names_by(
        alloc,
        sources,
        observed,
        places.as_slice(),
        prefix.as_slice(),
    )?;
    Ok(names)
}
