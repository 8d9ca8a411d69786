// The nodes of a model's decomposition.
ghost use Rattle.std.specs.Prelude.{◌≡◌, ◌<◌, ◌+◌, ◌^◌, length, map, IfOk, slice_index};
ghost use Rattle.cover_decompose.specs.Inner.Chosen.{AtPlaces, IsNumbered};
ghost use Rattle.cover_decompose.specs.Decomposition.{last_state, net_of_model};
ghost use Rattle.cover_decompose.specs.Needed.{taken};
ghost use Rattle.rm_model.specs.Value.{source_names};
ghost use Rattle.rm_base.specs.Numbers.{first_source};

use crate::plan::Plan;
use rm_base::NoMemory;
use rm_model::{Model, Numbering};
use std::alloc::Global;

/// Lists the nodes of a model's decomposition.
pub fn list_nodes(
    alloc: Global,
    model: &Model,
    numbering: &Numbering,
    places: &[usize],
) -> Result<Plan, NoMemory>
    requires numbered { IsNumbered model.now (map (λ ks. ks.items) numbering.now.inputs.items) numbering.now.observed.items }
    requires sources { numbering.now.sources ≡ length (source_names model.now) }
    requires signals { first_source + numbering.now.sources + length model.now.covers < 2 ^ 64 }
    requires places { AtPlaces model.now.covers places.now (taken model.now) }
    ensures made { IfOk result (λ plan. plan.made ≡ (last_state model.now).made) }
    ensures observed { IfOk result (λ plan. map (slice_index plan.nodes) numbering.now.observed.items ≡ (net_of_model model.now).observed) }
    ensures signals { IfOk result (λ plan. length plan.nodes ≡ numbering.now.sources + length model.now.covers) }
{
    let mut plan = Plan::start(alloc, numbering.sources as usize, model.covers.len())?;
    plan.covers(
        model.covers.items(),
        numbering.inputs.as_slice(),
        numbering.sources as usize,
        places,
    )?;
    Ok(plan)
}
