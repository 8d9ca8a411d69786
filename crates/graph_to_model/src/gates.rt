// The covers of gates.
ghost use Rattle.std.specs.Prelude.{◌≡◌, ◌<◌, ◌-◌, ◌+◌, ◌++◌, ◌∷◌, [], IfOk, OnOk, length, map, replicate};
ghost use Rattle.rm_model.specs.declared.parts.Literal.TheVariants.{Any, One, Zero};
ghost use Rattle.gate_graph.specs.Circuit.{net_of};
ghost use Rattle.gate_net.specs.Net.{IsLive, drivers_of, node_at};
ghost use Rattle.graph_to_model.specs.NetModel.{cover_with as cover_of, gate_cover_of, onto, row_per_pin};
ghost use Rattle.graph_to_model.specs.Inner.Making.{cover_by, covers_by, named};

use gate_graph::Graph;
use gate_net::Kind;
use rm_base::{NoMemory, NodeId};
use rm_model::{Cover, Listed, Literal, Name, Row, copy_name};
use std::alloc::Global;

pub fn cover_with(inputs: Vec<Name>, output: Name, on: bool, rows: Vec<Row>) -> Cover
    ensures { result ≡ cover_of inputs.items output on rows.items }
{
    Cover {
        inputs: Listed::from_vec(inputs),
        output,
        on,
        rows: Listed::from_vec(rows),
    }
}

// One row with that literal for each pin.
pub fn even_row(alloc: Global, count: usize, literal: Literal) -> Result<Vec<Row>, NoMemory>
    ensures { IfOk result (λ rows. rows.items ≡ replicate count literal ∷ []) }
{
    let mut row = Vec::new(alloc);
    row.resize(count, literal)?;
    let mut rows = Vec::new(alloc);
    rows.push(Listed::from_vec(row))?;
    Ok(rows)
}

// The row with 1 at one pin.
fn unit_row(alloc: Global, at: usize, count: usize) -> Result<Row, NoMemory>
    requires { at < count }
    ensures { IfOk result (λ row. row ≡ replicate at Any ++ (One ∷ replicate (count - (at + 1)) Any)) }
{
    let mut row = Vec::new(alloc);
    row.resize(at, Literal::Any)?;
    row.push(Literal::One)?;
    row.resize(count, Literal::Any)?;
    Ok(Listed::from_vec(row))
}

fn rows_per_pin(alloc: Global, count: usize) -> Result<Vec<Row>, NoMemory>
    ensures { IfOk result (λ rows. rows.items ≡ row_per_pin count) }
{
    let mut rows = Vec::new(alloc);
    for at in 0..count {
        rows.push(unit_row(alloc, at, count)?)?;
    }
    Ok(rows)
}

fn pair_row(alloc: Global, one: Literal, other: Literal) -> Result<Row, NoMemory>
    ensures { IfOk result (λ row. row ≡ one ∷ other ∷ []) }
{
    Ok(Listed::from_vec(Vec::from_array(alloc, [one, other])?))
}

// The rows where one of two pins is 1.
fn xor_rows(alloc: Global) -> Result<Vec<Row>, NoMemory>
    ensures { IfOk result (λ rows. rows.items ≡ (One ∷ Zero ∷ []) ∷ (Zero ∷ One ∷ []) ∷ []) }
{
    let mut rows = Vec::new(alloc);
    rows.push(pair_row(alloc, Literal::One, Literal::Zero)?)?;
    rows.push(pair_row(alloc, Literal::Zero, Literal::One)?)?;
    Ok(rows)
}

pub fn gate_cover(
    alloc: Global,
    kind: Kind,
    inputs: Vec<Name>,
    output: Name,
) -> Result<Option<Cover>, NoMemory>
    ensures { IfOk result (λ cover. cover ≡ gate_cover_of kind inputs.items output) }
{
    let count = inputs.len();
    let (on, rows) = match kind {
        Kind::And => (true, even_row(alloc, count, Literal::One)?),
        Kind::Not => (true, even_row(alloc, 1, Literal::Zero)?),
        Kind::Or => {
            if count <= 64 {
                (true, rows_per_pin(alloc, count)?)
            } else {
                (false, even_row(alloc, count, Literal::Zero)?)
            }
        }
        Kind::Xor => (true, xor_rows(alloc)?),
        Kind::Source | Kind::Zero | Kind::One => return Ok(None),
    };
    Ok(Some(cover_with(inputs, output, on, rows)))
}

// The names of a node's drivers.
fn driver_names(
    alloc: Global,
    graph: &Graph,
    node: NodeId,
    names: &[Name],
) -> Result<Vec<Name>, NoMemory>
    requires live { IsLive (net_of graph.now) node.0 }
    requires names { length names.now ≡ length (net_of graph.now).nodes }
    ensures { IfOk result (λ drivers. drivers.items ≡ map (named names.now) (drivers_of (net_of graph.now) node.0)) }
{
    graph.well_formed();
    let mut drivers = Vec::new(alloc);
    for driver in graph.inputs_of(node) {
        drivers.push(copy_name(alloc, &names[driver.0 as usize])?)?;
    }
    Ok(drivers)
}

fn cover_at(
    alloc: Global,
    graph: &Graph,
    node: NodeId,
    names: &[Name],
) -> Result<Option<Cover>, NoMemory>
    requires names { length names.now ≡ length (net_of graph.now).nodes }
    requires within { node.0 < length (net_of graph.now).nodes }
    ensures { IfOk result (λ cover. cover ≡ cover_by names.now node.0 (node_at (net_of graph.now) node.0)) }
{
    let Some(kind) = graph.kind(node) else {
        return Ok(None);
    };
    let inputs = driver_names(alloc, graph, node, names)?;
    let output = copy_name(alloc, &names[node.0 as usize])?;
    gate_cover(alloc, kind, inputs, output)
}

fn push_some(covers: &mut Vec<Cover>, cover: Option<Cover>) -> Result<(), NoMemory>
    ensures { OnOk result (covers.new.items ≡ covers.old.items ++ onto cover []) }
{
    match cover {
        None => Ok(()),
        Some(cover) => {
            covers.push(cover)?;
            Ok(())
        }
    }
}

/// The covers of the gates by number.
pub fn gate_covers(alloc: Global, graph: &Graph, names: &[Name]) -> Result<Vec<Cover>, NoMemory>
    requires { length names.now ≡ length (net_of graph.now).nodes }
    ensures { IfOk result (λ covers. covers.items ≡ covers_by names.now 0 (net_of graph.now).nodes) }
{
    let mut covers = Vec::new(alloc);
    for number in 0..graph.node_bound() {
        push_some(&mut covers, cover_at(alloc, graph, NodeId(number), names)?)?;
    }
    Ok(covers)
}
