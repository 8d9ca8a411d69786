// Writing items as bytes.
ghost use Rattle.std.specs.Prelude.{◌≡◌, ◌++◌, ◌∷◌, OnOk};
ghost use Rattle.journal_binary.specs.Binary.{counted, four, item_bytes};
ghost use Rattle.std.specs.List.{flat_map};
ghost use Rattle.refutation.specs.declared.items.Item.TheVariants as item;

use refutation::{Item, Line};
use rm_base::{NoMemory, NodeId};

// Adds a number of 4 bytes.
pub(crate) fn put_four(out: &mut Vec<u8>, number: u32) -> Result<(), NoMemory>
    ensures { OnOk result (out.new.items ≡ out.old.items ++ four number) }
{
    out.extend_from_slice(&number.to_le_bytes())?;
    Ok(())
}

// Adds a byte and a node.
fn put_node(out: &mut Vec<u8>, code: u8, node: NodeId) -> Result<(), NoMemory>
    ensures { OnOk result (out.new.items ≡ out.old.items ++ code ∷ four node.0) }
{
    out.push(code)?;
    put_four(out, node.0)
}

// Adds a byte, a node and a position.
fn put_pin(out: &mut Vec<u8>, code: u8, node: NodeId, position: u32) -> Result<(), NoMemory>
    ensures { OnOk result (out.new.items ≡ out.old.items ++ code ∷ (four node.0 ++ four position)) }
{
    put_node(out, code, node)?;
    put_four(out, position)
}

fn put_line(out: &mut Vec<u8>, line: Line) -> Result<(), NoMemory>
    ensures { OnOk result (out.new.items ≡ out.old.items ++ item_bytes (item.Line line)) }
{
    match line {
        Line::Act => Ok(out.push(1)?),
        Line::Site => Ok(out.push(2)?),
        Line::Chain { node } => put_node(out, 3, node),
        Line::Out { node } => put_node(out, 4, node),
        Line::Constant { node } => put_node(out, 5, node),
        Line::GoodForward { node } => put_node(out, 6, node),
        Line::FaultyForward { node } => put_node(out, 7, node),
        Line::GoodBack { node, position } => put_pin(out, 8, node, position),
        Line::FaultyBack { node, position } => put_pin(out, 9, node, position),
        Line::Compare { node } => put_node(out, 10, node),
        Line::ToFaulty { node } => put_node(out, 11, node),
        Line::ToGood { node } => put_node(out, 12, node),
        Line::EqualForward { node } => put_node(out, 13, node),
        Line::NotDiffers { node } => put_node(out, 14, node),
        Line::NotEqual { node } => put_node(out, 15, node),
        Line::DiffersBack { node, position } => put_pin(out, 16, node, position),
        Line::Side { node, position } => put_pin(out, 17, node, position),
    }
}

fn put_split(out: &mut Vec<u8>, node: NodeId, first: bool) -> Result<(), NoMemory>
    ensures { OnOk result (out.new.items ≡ out.old.items ++ item_bytes (item.Split node first)) }
{
    put_node(out, 18, node)?;
    out.push(if first { 1 } else { 0 })?;
    Ok(())
}

fn put_item(out: &mut Vec<u8>, given: Item) -> Result<(), NoMemory>
    ensures { OnOk result (out.new.items ≡ out.old.items ++ item_bytes given) }
{
    match given {
        Item::Line(line) => put_line(out, line),
        Item::Split { node, first } => put_split(out, node, first),
        Item::Clash(node) => put_node(out, 19, node),
        Item::Quiet => Ok(out.push(20)?),
        Item::Here => Ok(out.push(21)?),
        Item::Untried => Ok(out.push(22)?),
    }
}

// Adds the items, one after another.
fn put_all(out: &mut Vec<u8>, items: &[Item]) -> Result<(), NoMemory>
    ensures { OnOk result (out.new.items ≡ out.old.items ++ flat_map item_bytes items.now) }
{
    for given in items {
        put_item(out, *given)?;
    }
    Ok(())
}

/// Adds the count of the items, in 8 bytes, and the items.
pub fn put_items(out: &mut Vec<u8>, items: &[Item]) -> Result<(), NoMemory>
    ensures { OnOk result (out.new.items ≡ out.old.items ++ counted item_bytes items.now) }
{
    out.extend_from_slice(&(items.len() as u64).to_le_bytes())?;
    put_all(out, items)
}
