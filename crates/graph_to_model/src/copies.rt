// The covers of observed names that no gate has.
ghost use Rattle.std.specs.Prelude.{◌≡◌, ◌<◌, ◌++◌, ◌∷◌, [], ℕ, All, IfOk, List, OnOk, length, map};
ghost use Rattle.rm_base.specs.Words.{Word};
ghost use Rattle.gate_graph.specs.Circuit.{net_of};
ghost use Rattle.graph_to_model.specs.Inner.Making.{all_by, copies_by, copy_by};

use crate::driven_names::table_of_driven;
use crate::gates::{cover_with, even_row, gate_covers};
use gate_graph::Graph;
use rm_base::NoMemory;
use rm_model::{Cover, Literal, Name, NameKeys, NameTable, copy_name};
use std::alloc::Global;

fn copy_cover(alloc: Global, node: usize, name: &Name, names: &[Name]) -> Result<Cover, NoMemory>
    requires { node < length names.now }
    ensures { IfOk result (λ cover. cover ≡ copy_by names.now node name.now) }
{
    let output = copy_name(alloc, name)?;
    let mut inputs = Vec::new(alloc);
    if node == 0 {
        return Ok(cover_with(inputs, output, true, Vec::new(alloc)));
    }
    if node == 1 {
        return Ok(cover_with(inputs, output, true, even_row(alloc, 0, Literal::One)?));
    }
    inputs.push(copy_name(alloc, &names[node])?)?;
    Ok(cover_with(inputs, output, true, even_row(alloc, 1, Literal::One)?))
}

// Covers the name, unless it is had.
fn cover_name<'a>(
    alloc: Global,
    had: &mut NameTable<'a>,
    covers: &mut Vec<Cover>,
    node: usize,
    name: &'a Name,
    names: &[Name],
) -> Result<(), NoMemory>
    requires { node < length names.now }
    ensures { OnOk result ((ns : List ℕ) (xs : List Word) → covers.new.items ++ copies_by names.now had.new ns xs ≡ covers.old.items ++ copies_by names.now had.old (node ∷ ns) (name.now ∷ xs)) }
{
    if had.has(name.items()) {
        return Ok(());
    }
    had.include(name.items())?;
    covers.push(copy_cover(alloc, node, name, names)?)?;
    Ok(())
}

pub fn copies<'a>(
    alloc: Global,
    had: &mut NameTable<'a>,
    nodes: &[usize],
    observed: &'a [Name],
    names: &[Name],
) -> Result<Vec<Cover>, NoMemory>
    requires within { All (λ n. n < length names.now) nodes.now }
    requires observed { length nodes.now ≡ length observed.now }
    ensures { IfOk result (λ covers. covers.items ≡ copies_by names.now had.old nodes.now observed.now) }
{
    let mut covers = Vec::new(alloc);
    for at in 0..nodes.len() {
        cover_name(alloc, had, &mut covers, nodes[at], &observed[at], names)?;
    }
    Ok(covers)
}

fn copies_beside(
    alloc: Global,
    keys: NameKeys,
    sources: &[Name],
    gates: &[Cover],
    nodes: &[usize],
    observed: &[Name],
    names: &[Name],
) -> Result<Vec<Cover>, NoMemory>
    requires within { All (λ n. n < length names.now) nodes.now }
    requires observed { length nodes.now ≡ length observed.now }
    ensures { IfOk result (λ covers. covers.items ≡ copies_by names.now (sources.now ++ map (λ c. c.output) gates.now) nodes.now observed.now) }
{
    let mut had = table_of_driven(alloc, keys, sources, gates)?;
    let covers = copies(alloc, &mut had, nodes, observed, names)?;
    Ok(covers)
}

fn append(covers: &mut Vec<Cover>, more: Vec<Cover>) -> Result<(), NoMemory>
    ensures { OnOk result (covers.new.items ≡ covers.old.items ++ more.items) }
{
    for cover in more {
        covers.push(cover)?;
    }
    Ok(())
}

/// The covers of the gates, and then those of the other observed names.
pub fn all_covers(
    alloc: Global,
    keys: NameKeys,
    graph: &Graph,
    sources: &[Name],
    nodes: &[usize],
    observed: &[Name],
    names: &[Name],
) -> Result<Vec<Cover>, NoMemory>
    requires names { length names.now ≡ length (net_of graph.now).nodes }
    requires nodes { nodes.now ≡ (net_of graph.now).observed }
    requires observed { length nodes.now ≡ length observed.now }
    ensures { IfOk result (λ covers. covers.items ≡ all_by names.now (net_of graph.now) sources.now observed.now) }
{
    graph.well_formed();
    let mut covers = gate_covers(alloc, graph, names)?;
    let copies = copies_beside(
        alloc,
        keys,
        sources,
        covers.as_slice(),
        nodes,
        observed,
        names,
    )?;
    append(&mut covers, copies)?;
    Ok(covers)
}
