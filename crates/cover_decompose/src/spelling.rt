// The model without parity covers, whose decomposition has no Xor.
ghost use Rattle.std.specs.Prelude.{◌≡◌, ◌<◌, ◌^◌, Bool, IfOk, None, OnOk, Some, map};
ghost use Rattle.cover_decompose.specs.Spelled.{first_again as names_again, plain_decomposed, spelled as spelled_model, spelled_by, spelled_cover as cover_spelled, with_any as row_with_any};
ghost use Rattle.rm_model.specs.Ranks.{first_without_rank};
ghost use Rattle.rm_model.specs.WellFormed.{IsWellFormed};

use crate::bounds::weight;
use crate::laws::{spelled_models_stay, wires_are_bounded};
use crate::parity::parity_ending;
use rm_base::NoMemory;
use rm_model::{
    Cover, Listed, Literal, Model, Name, NameKeys, RankFault, RankedModel, Row, copy_cover,
    copy_latches, copy_name, copy_names, push_names,
};
use std::alloc::Global;

fn first_again(alloc: Global, names: &[Name]) -> Result<Listed<Name>, NoMemory>
    ensures { IfOk result (λ made. made ≡ names_again names.now) }
{
    let mut made = Vec::with_capacity(alloc, 3)?;
    push_names(alloc, &mut made, names)?;
    if let Some(first) = names.first() {
        made.push(copy_name(alloc, first)?)?;
    }
    Ok(Listed::from_vec(made))
}

fn with_any(alloc: Global, row: &Row) -> Result<Row, NoMemory>
    ensures { IfOk result (λ made. made ≡ row_with_any row.now) }
{
    let mut literals = Vec::from_slice(alloc, row.items())?;
    literals.push(Literal::Any)?;
    Ok(Listed::from_vec(literals))
}

fn rows_with_any(alloc: Global, rows: &[Row]) -> Result<Listed<Row>, NoMemory>
    ensures { IfOk result (λ made. made ≡ map row_with_any rows.now) }
{
    let mut made = Vec::with_capacity(alloc, rows.len())?;
    for row in rows {
        made.push(with_any(alloc, row)?)?;
    }
    Ok(Listed::from_vec(made))
}

// The cover with its first input once more.
fn widened(alloc: Global, cover: &Cover) -> Result<Cover, NoMemory>
    ensures { (ends : Bool) → IfOk result (λ made. made ≡ spelled_by (Some ends) cover.now) }
{
    let inputs = first_again(alloc, cover.inputs.items())?;
    let output = copy_name(alloc, &cover.output)?;
    let rows = rows_with_any(alloc, cover.rows.items())?;
    Ok(Cover {
        inputs,
        output,
        on: cover.on,
        rows,
    })
}

fn spelled_cover(alloc: Global, cover: &Cover) -> Result<Cover, NoMemory>
    ensures { IfOk result (λ made. made ≡ cover_spelled cover.now) }
{
    match parity_ending(cover) {
        None => copy_cover(alloc, cover),
        Some(_ends) => widened(alloc, cover),
    }
}

fn spelled_covers(alloc: Global, covers: &[Cover]) -> Result<Listed<Cover>, NoMemory>
    ensures { IfOk result (λ made. made ≡ map cover_spelled covers.now) }
{
    let mut made = Vec::with_capacity(alloc, covers.len())?;
    for cover in covers {
        made.push(spelled_cover(alloc, cover)?)?;
    }
    Ok(Listed::from_vec(made))
}

fn spelled(alloc: Global, model: &Model) -> Result<Model, NoMemory>
    ensures { IfOk result (λ made. made ≡ spelled_model model.now) }
{
    Ok(Model {
        name: copy_name(alloc, &model.name)?,
        inputs: copy_names(alloc, model.inputs.items())?,
        clocks: copy_names(alloc, model.clocks.items())?,
        outputs: copy_names(alloc, model.outputs.items())?,
        latches: copy_latches(alloc, model.latches.items())?,
        covers: spelled_covers(alloc, model.covers.items())?,
    })
}

/// The model without parity covers: each gets its first input once more, and a `-` in each row. It has the same sources and
/// observed names, and computes the same (`plain_nets_stand`); its decomposition has And, Or and Not gates alone. It takes
/// time linear in the names and rows, but for the look-ups of names.
pub fn spell(alloc: Global, keys: NameKeys, model: &RankedModel) -> Result<RankedModel, NoMemory>
    requires formed { IsWellFormed model.now }
    requires ranked { first_without_rank model.now ≡ None }
    ensures spelled { IfOk result (λ made. made ≡ spelled_model model.now) }
    ensures fits { OnOk result (plain_decomposed model.now < 2 ^ 64) }
{
    spelled_models_stay();
    wires_are_bounded();
    let made = spelled(alloc, model.model())?;
    // No memory holds more.
    if weight(made.covers.items()).is_none() {
        return Err(NoMemory);
    }
    if model.numbering().sources >= 2_147_483_648 || made.covers.len() >= 2_147_483_648 {
        return Err(NoMemory);
    }
    match RankedModel::new(alloc, keys, made) {
        Ok(ranked) => Ok(ranked),
        Err(RankFault::NoMemory) => Err(NoMemory),
        Err(RankFault::NoRank { cover: _ }) => unreachable!(),
    }
}
