// Copies of the parts of a model.
ghost use Rattle.std.specs.Prelude.{◌≡◌, IfOk};

use crate::list::Listed;
use crate::parts::{Cover, Latch, Name, Row, Timing};
use crate::points::{copy_name, push_names};
use rm_base::NoMemory;
use std::alloc::Global;

/// Copies of names, in order.
pub fn copy_names(alloc: Global, names: &[Name]) -> Result<Listed<Name>, NoMemory>
    ensures { IfOk result (λ copies. copies ≡ names.now) }
{
    let mut copies = Vec::with_capacity(alloc, names.len())?;
    push_names(alloc, &mut copies, names)?;
    Ok(Listed::from_vec(copies))
}

fn copy_row(alloc: Global, row: &Row) -> Result<Row, NoMemory>
    ensures { IfOk result (λ copy. copy ≡ row.now) }
{
    Ok(Listed::from_vec(Vec::from_slice(alloc, row.items())?))
}

/// Copies of the rows of a cover, in order.
pub fn copy_rows(alloc: Global, rows: &[Row]) -> Result<Listed<Row>, NoMemory>
    ensures { IfOk result (λ copies. copies ≡ rows.now) }
{
    let mut copies = Vec::with_capacity(alloc, rows.len())?;
    for row in rows {
        copies.push(copy_row(alloc, row)?)?;
    }
    Ok(Listed::from_vec(copies))
}

/// A copy of a cover.
pub fn copy_cover(alloc: Global, cover: &Cover) -> Result<Cover, NoMemory>
    ensures { IfOk result (λ copy. copy ≡ cover.now) }
{
    let inputs = copy_names(alloc, cover.inputs.items())?;
    let output = copy_name(alloc, &cover.output)?;
    let rows = copy_rows(alloc, cover.rows.items())?;
    Ok(Cover {
        inputs,
        output,
        on: cover.on,
        rows,
    })
}

fn copy_control(alloc: Global, control: &Option<Name>) -> Result<Option<Name>, NoMemory>
    ensures { IfOk result (λ copy. copy ≡ control.now) }
{
    match control {
        None => Ok(None),
        Some(name) => Ok(Some(copy_name(alloc, name)?)),
    }
}

fn copy_timing(alloc: Global, timing: &Option<Timing>) -> Result<Option<Timing>, NoMemory>
    ensures { IfOk result (λ copy. copy ≡ timing.now) }
{
    match timing {
        None => Ok(None),
        Some(timing) => Ok(Some(Timing {
            kind: timing.kind,
            control: copy_control(alloc, &timing.control)?,
        })),
    }
}

fn copy_latch(alloc: Global, latch: &Latch) -> Result<Latch, NoMemory>
    ensures { IfOk result (λ copy. copy ≡ latch.now) }
{
    let input = copy_name(alloc, &latch.input)?;
    let output = copy_name(alloc, &latch.output)?;
    let timing = copy_timing(alloc, &latch.timing)?;
    Ok(Latch {
        input,
        output,
        timing,
        init: latch.init,
    })
}

/// Copies of latches, in order.
pub fn copy_latches(alloc: Global, latches: &[Latch]) -> Result<Listed<Latch>, NoMemory>
    ensures { IfOk result (λ copies. copies ≡ latches.now) }
{
    let mut copies = Vec::with_capacity(alloc, latches.len())?;
    for latch in latches {
        copies.push(copy_latch(alloc, latch)?)?;
    }
    Ok(Listed::from_vec(copies))
}
