//! Whether the decomposition of a model can be counted and numbered.
ghost use Rattle.std.specs.Prelude.{◌≡◌, ◌+◌, ◌*◌, length, IfOk, IfSome, true};
ghost use Rattle.rm_model.specs.Size.{rows_weight, covers_weight};
ghost use Rattle.cover_decompose.specs.Bounds.{IsSmall};

use rm_base::NoMemory;
use rm_model::{Cover, Model, NameKeys, Row, list_observed, sources};
use std::alloc::Global;

fn add_row(total: usize, row: &Row) -> Option<usize>
    ensures { IfSome result (λ n. n ≡ total + (2 * length row.now + 1)) }
{
    let literals = row.items().len();
    let twice = literals.checked_mul(2)?;
    let more = twice.checked_add(1)?;
    total.checked_add(more)
}

fn add_rows(total: usize, rows: &[Row]) -> Option<usize>
    ensures { IfSome result (λ n. n ≡ total + rows_weight rows.now) }
{
    let mut sum = total;
    for row in rows {
        sum = add_row(sum, row)?;
    }
    Some(sum)
}

fn add_cover(total: usize, cover: &Cover) -> Option<usize>
    ensures { IfSome result (λ n. n ≡ total + (rows_weight cover.now.rows + 1)) }
{
    let sum = add_rows(total, cover.rows.items())?;
    sum.checked_add(1)
}

/// A bound of the wires of covers, if a number of 64 bits says it.
pub fn weight(covers: &[Cover]) -> Option<usize>
    ensures { IfSome result (λ n. n ≡ covers_weight covers.now) }
{
    let mut sum = 0usize;
    for cover in covers {
        sum = add_cover(sum, cover)?;
    }
    Some(sum)
}

/// Whether the decomposition of the model can be counted and numbered.
pub fn is_small(alloc: Global, keys: NameKeys, model: &Model) -> Result<bool, NoMemory>
    ensures { IfOk result (λ small. small ≡ true → IsSmall model.now) }
{
    if model.covers.items().len() >= 4_294_967_296 {
        return Ok(false);
    }
    if weight(model.covers.items()).is_none() {
        return Ok(false);
    }
    let sources = sources(alloc, keys, model)?;
    if sources.len() > 1_024 {
        return Ok(false);
    }
    let observed = list_observed(alloc, model)?;
    Ok(observed.len() <= 4_096)
}
