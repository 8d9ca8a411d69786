// The covers of a part under their names in the sewn model.
ghost use Rattle.std.specs.Prelude.{◌≡◌, ◌++◌, IfOk, OnOk, map};
ghost use Rattle.rm_base.specs.Words.{Word};
ghost use Rattle.rm_model.specs.Value.{is_among};
ghost use Rattle.sewing.specs.Inner.Making.{name_by};
ghost use Rattle.sewing.specs.Names.{edge_names, inner_name as name_inside, sewn_name as name_sewn};
ghost use Rattle.sewing.specs.Sewn.{renamed_cover as cover_renamed};

use itoa::Buffer;
use rm_base::NoMemory;
use rm_model::{Cover, Listed, Model, Name, NameKeys, NameTable, copy_name, copy_rows};
use std::alloc::Global;

fn include_names<'a>(table: &mut NameTable<'a>, names: &'a [Name]) -> Result<(), NoMemory>
    ensures { OnOk result ((x : Word) → is_among table.new x ≡ is_among (table.old ++ names.now) x) }
{
    for name in names {
        table.include(name.items())?;
    }
    Ok(())
}

fn edge_table<'a>(alloc: Global, keys: NameKeys, part: &'a Model) -> Result<NameTable<'a>, NoMemory>
    ensures { IfOk result (λ table. (x : Word) → is_among table x ≡ is_among (edge_names part.now) x) }
{
    let mut edge = NameTable::new(alloc, keys);
    include_names(&mut edge, part.inputs.items())?;
    include_names(&mut edge, part.outputs.items())?;
    Ok(edge)
}

fn inner_name(alloc: Global, lead: &[u8], number: usize, name: &Name) -> Result<Name, NoMemory>
    ensures { IfOk result (λ made. made ≡ name_inside lead.now number name.now) }
{
    let mut buffer = Buffer::new();
    let mut text = Vec::from_slice(alloc, lead)?;
    text.extend_from_slice(buffer.format(number).as_bytes())?;
    text.push(b'_')?;
    text.extend_from_slice(name.items())?;
    Ok(Listed::from_vec(text))
}

fn sewn_name<'a>(
    alloc: Global,
    lead: &[u8],
    number: usize,
    edge: &NameTable<'a>,
    name: &'a Name,
) -> Result<Name, NoMemory>
    ensures { IfOk result (λ made. made ≡ name_by edge.now lead.now number name.now) }
{
    if edge.has(name.items()) {
        return copy_name(alloc, name);
    }
    inner_name(alloc, lead, number, name)
}

fn sewn_names<'a>(
    alloc: Global,
    lead: &[u8],
    number: usize,
    edge: &NameTable<'a>,
    names: &'a [Name],
) -> Result<Listed<Name>, NoMemory>
    ensures { IfOk result (λ made. made ≡ map (name_by edge.now lead.now number) names.now) }
{
    let mut made = Vec::with_capacity(alloc, names.len())?;
    for name in names {
        made.push(sewn_name(alloc, lead, number, edge, name)?)?;
    }
    Ok(Listed::from_vec(made))
}

fn renamed_cover<'a>(
    alloc: Global,
    lead: &[u8],
    number: usize,
    edge: &NameTable<'a>,
    cover: &'a Cover,
) -> Result<Cover, NoMemory>
    ensures { IfOk result (λ made. made ≡ cover_renamed (name_by edge.now lead.now number) cover.now) }
{
    let inputs = sewn_names(alloc, lead, number, edge, cover.inputs.items())?;
    let output = sewn_name(alloc, lead, number, edge, &cover.output)?;
    let rows = copy_rows(alloc, cover.rows.items())?;
    Ok(Cover {
        inputs,
        output,
        on: cover.on,
        rows,
    })
}

fn push_covers<'a>(
    alloc: Global,
    lead: &[u8],
    number: usize,
    edge: &NameTable<'a>,
    out: &mut Vec<Cover>,
    covers: &'a [Cover],
) -> Result<(), NoMemory>
    ensures { OnOk result (out.new.items ≡ out.old.items ++ map (cover_renamed (name_by edge.now lead.now number)) covers.now) }
{
    for cover in covers {
        out.push(renamed_cover(alloc, lead, number, edge, cover)?)?;
    }
    Ok(())
}

/// Adds the covers of a part. It takes time linear in the part, but for the look-ups of names.
pub fn push_part(
    alloc: Global,
    keys: NameKeys,
    lead: &[u8],
    number: usize,
    out: &mut Vec<Cover>,
    part: &Model,
) -> Result<(), NoMemory>
    ensures { OnOk result (out.new.items ≡ out.old.items ++ map (cover_renamed (name_sewn lead.now number part.now)) part.now.covers) }
{
    let edge = edge_table(alloc, keys, part)?;
    push_covers(alloc, lead, number, &edge, out, part.covers.items())
}
