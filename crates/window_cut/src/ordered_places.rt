// The places of a model's needed covers in post-order.
ghost use Rattle.std.specs.Prelude.{◌≡◌, IfOk};
ghost use Rattle.rm_model.specs.Value.{IsRanked};
ghost use Rattle.rm_model.specs.WellFormed.{IsWellFormed};
ghost use Rattle.window_cut.specs.Order.{post_order as post_order_of};

use crate::laws::ranked_models_have_levels;
use crate::walk::post_order;
use rm_base::NoMemory;
use rm_model::{Model, NameKeys};
use std::alloc::Global;

/// The places of the covers that an observed name needs, each once and behind those of the covers that it reads, in depth-first
/// post-order. It takes time linear in the model, but for the look-ups of names.
pub fn places_in_order(alloc: Global, keys: NameKeys, model: &Model) -> Result<Vec<usize>, NoMemory>
    requires formed { IsWellFormed model.now }
    requires ranked { IsRanked model.now }
    ensures { IfOk result (λ places. places.items ≡ post_order_of model.now) }
{
    ranked_models_have_levels();
    let places = post_order(alloc, keys, model)?;
    Ok(places)
}
