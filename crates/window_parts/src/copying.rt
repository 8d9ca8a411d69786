// A copy of a window.
ghost use Rattle.std.specs.Prelude.{◌≡◌, IfOk};

use rm_base::NoMemory;
use rm_model::{Cover, Listed, Model, copy_cover, copy_latches, copy_name, copy_names};
use std::alloc::Global;

fn copy_covers(alloc: Global, covers: &[Cover]) -> Result<Listed<Cover>, NoMemory>
    ensures { IfOk result (λ copies. copies ≡ covers.now) }
{
    let mut copies = Vec::with_capacity(alloc, covers.len())?;
    for cover in covers {
        copies.push(copy_cover(alloc, cover)?)?;
    }
    Ok(Listed::from_vec(copies))
}

/// A copy of a model.
pub(crate) fn copy_model(alloc: Global, model: &Model) -> Result<Model, NoMemory>
    ensures { IfOk result (λ copy. copy ≡ model.now) }
{
    Ok(Model {
        name: copy_name(alloc, &model.name)?,
        inputs: copy_names(alloc, model.inputs.items())?,
        clocks: copy_names(alloc, model.clocks.items())?,
        outputs: copy_names(alloc, model.outputs.items())?,
        latches: copy_latches(alloc, model.latches.items())?,
        covers: copy_covers(alloc, model.covers.items())?,
    })
}
