// What stands for names, by the places of the covers that drive them.
ghost use Rattle.std.specs.Prelude.{◌≡◌, map, replicate, IfOk, None as NoneOf};
ghost use Rattle.cover_sharing.specs.Inner.Standing.{stand_by};

use rm_base::NoMemory;
use rm_model::{Cover, Listed, Name, NameTable, copy_name, copy_rows};
use std::alloc::Global;

/// Nothing stands for the outputs of so many covers but themselves.
pub fn no_stands(alloc: Global, count: usize) -> Result<Vec<Option<Name>>, NoMemory>
    ensures { IfOk result (λ stands. stands.items ≡ replicate count NoneOf) }
{
    let mut stands = Vec::new(alloc);
    for _ in 0..count {
        stands.push(None)?;
    }
    Ok(stands)
}

// What stands for a name.
fn stand_for<'a>(
    alloc: Global,
    table: &NameTable<'a>,
    stands: &[Option<Name>],
    name: &'a Name,
) -> Result<Name, NoMemory>
    ensures { IfOk result (λ made. made ≡ stand_by table.now stands.now name.now) }
{
    let Some(place) = table.place(name.items()) else {
        return copy_name(alloc, name);
    };
    match stands.get(place) {
        Some(Some(other)) => copy_name(alloc, other),
        _ => copy_name(alloc, name),
    }
}

fn stand_for_all<'a>(
    alloc: Global,
    table: &NameTable<'a>,
    stands: &[Option<Name>],
    names: &'a [Name],
) -> Result<Listed<Name>, NoMemory>
    ensures { IfOk result (λ made. made ≡ map (stand_by table.now stands.now) names.now) }
{
    let mut made = Vec::with_capacity(alloc, names.len())?;
    for name in names {
        made.push(stand_for(alloc, table, stands, name)?)?;
    }
    Ok(Listed::from_vec(made))
}

/// A cover that reads what stands for its inputs.
pub fn standing_cover<'a>(
    alloc: Global,
    table: &NameTable<'a>,
    stands: &[Option<Name>],
    cover: &'a Cover,
) -> Result<Cover, NoMemory>
    ensures { IfOk result (λ made. made ≡ record cover.now { inputs = map (stand_by table.now stands.now) cover.now.inputs }) }
{
    let inputs = stand_for_all(alloc, table, stands, cover.inputs.items())?;
    let output = copy_name(alloc, &cover.output)?;
    let rows = copy_rows(alloc, cover.rows.items())?;
    Ok(Cover {
        inputs,
        output,
        on: cover.on,
        rows,
    })
}
