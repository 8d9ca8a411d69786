// The model whose equal covers are merged.
ghost use Rattle.std.specs.Prelude.{◌≡◌, IfOk};
ghost use Rattle.rm_model.specs.Value.{IsRanked};
ghost use Rattle.rm_model.specs.WellFormed.{IsWellFormed};
ghost use Rattle.cover_sharing.specs.Shared.{shared as shared_of};

use crate::sharing::shared_covers;
use rm_base::NoMemory;
use rm_model::{
    Cover, Listed, Model, NameKeys, copy_latches, copy_name, copy_names, list_observed,
};
use std::alloc::Global;
use window_cut::places_in_order;

// A copy of a model with other covers.
fn with_covers(alloc: Global, model: &Model, covers: Vec<Cover>) -> Result<Model, NoMemory>
    ensures { IfOk result (λ made. made ≡ record model.now { covers = covers.items }) }
{
    Ok(Model {
        name: copy_name(alloc, &model.name)?,
        inputs: copy_names(alloc, model.inputs.items())?,
        clocks: copy_names(alloc, model.clocks.items())?,
        outputs: copy_names(alloc, model.outputs.items())?,
        latches: copy_latches(alloc, model.latches.items())?,
        covers: Listed::from_vec(covers),
    })
}

/// The model in which needed covers that compute the same of the same names are one. What a copy drives is read at its origin,
/// and a merged output that is observed stays as a copy. The model that is made is well formed, acyclic and equivalent to the
/// given one (`shared_models_agree`). It takes time linear in the model, but for the look-ups of names and of covers.
pub fn share(alloc: Global, keys: NameKeys, model: &Model) -> Result<Model, NoMemory>
    requires formed { IsWellFormed model.now }
    requires ranked { IsRanked model.now }
    ensures { IfOk result (λ made. made ≡ shared_of model.now) }
{
    let places = places_in_order(alloc, keys, model)?;
    let observed = list_observed(alloc, model)?;
    let covers = shared_covers(
        alloc,
        keys,
        model.covers.items(),
        observed.as_slice(),
        places.as_slice(),
    )?;
    let made = with_covers(alloc, model, covers)?;
    Ok(made)
}
