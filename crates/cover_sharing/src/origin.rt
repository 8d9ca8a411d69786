// The name that has a cover's value already, and the copy that keeps another name for it.
ghost use Rattle.std.specs.Prelude.{◌≡◌, ◌∷◌, [], IfOk};
ghost use Rattle.std.specs.Option.{option_copied};
ghost use Rattle.cover_sharing.specs.Inner.Encoding.{encoding_of};
ghost use Rattle.rm_model.specs.declared.parts.Literal.TheVariants.{One as OneOf};
ghost use Rattle.cover_sharing.specs.Shared.{copied as copied_of_cover, copied_by as copied_of_row, copy_of, origin};

use crate::kept_covers::KeptCovers;
use rm_base::NoMemory;
use rm_model::{Cover, Listed, Literal, Name, Row, copy_name};
use std::alloc::Global;

// The name that a cover copies.
fn copied(cover: &Cover) -> Option<&Name>
    ensures { option_copied result ≡ copied_of_cover cover.now }
{
    if !cover.on {
        return None;
    }
    match (cover.inputs.items(), cover.rows.items()) {
        ([name], [row]) => copied_by(name, row),
        _ => None,
    }
}

fn copied_by<'a>(name: &'a Name, row: &Row) -> Option<&'a Name>
    ensures { option_copied result ≡ copied_of_row (name.now ∷ []) row.now }
{
    match row.items() {
        [Literal::One] => Some(name),
        _ => None,
    }
}

/// The name whose value a cover has, where one is kept. The cover's bytes are given.
pub fn origin_of(
    alloc: Global,
    kept: &KeptCovers,
    cover: &Cover,
    bytes: &[u8],
) -> Result<Option<Name>, NoMemory>
    requires { bytes.now ≡ encoding_of cover.now }
    ensures { IfOk result (λ name. name ≡ origin kept.now cover.now) }
{
    if let Some(name) = copied(cover) {
        return Ok(Some(copy_name(alloc, name)?));
    }
    let name = kept.first(alloc, bytes)?;
    Ok(name)
}

fn one_row(alloc: Global) -> Result<Listed<Row>, NoMemory>
    ensures { IfOk result (λ rows. rows ≡ (OneOf ∷ []) ∷ []) }
{
    let mut row = Vec::new(alloc);
    row.push(Literal::One)?;
    let mut rows = Vec::new(alloc);
    rows.push(Listed::from_vec(row))?;
    Ok(Listed::from_vec(rows))
}

/// A cover by which the second name has the value of the first.
pub fn copy_cover_of(alloc: Global, origin: &Name, output: &Name) -> Result<Cover, NoMemory>
    ensures { IfOk result (λ cover. cover ≡ copy_of origin.now output.now) }
{
    let mut inputs = Vec::new(alloc);
    inputs.push(copy_name(alloc, origin)?)?;
    let output = copy_name(alloc, output)?;
    let rows = one_row(alloc)?;
    Ok(Cover {
        inputs: Listed::from_vec(inputs),
        output,
        on: true,
        rows,
    })
}
