// The number of wires of a decomposition that isn't made, of a model of any size.
ghost use Rattle.std.specs.Prelude.{◌≡◌, ◌<◌, ◌+◌, ◌^◌, IfOk, length};
ghost use Rattle.cover_decompose.specs.Count.{decomposed};
ghost use Rattle.rm_model.specs.Value.{source_names};
ghost use Rattle.rm_model.specs.WellFormed.{IsWellFormed};

use crate::bounds::weight;
use crate::laws::wires_are_bounded;
use crate::numbering::{cover_order, numbers_of, taken_places, wire_count};
use rm_base::NoMemory;
use rm_model::RankedModel;
use std::alloc::Global;

// The wires of the covers that a decomposition takes.
fn count_taken(alloc: Global, model: &RankedModel) -> Result<u64, NoMemory>
    requires formed { IsWellFormed model.now }
    requires room { length (source_names model.now) + length model.now.covers < 2 ^ 32 }
    requires fits { decomposed model.now < 2 ^ 64 }
    ensures { IfOk result (λ n. n ≡ decomposed model.now) }
{
    let order = cover_order(alloc, model)?;
    let numbering = numbers_of(model);
    let places = taken_places(alloc, model.model(), numbering, order.as_slice())?;
    let pins = wire_count(alloc, model.model(), numbering, places.as_slice())?;
    Ok(pins)
}

/// The number of wires that the decomposition of a model has, however many sources and observed points there are. It takes
/// time linear in the rows and names.
pub fn count_wires(alloc: Global, model: &RankedModel) -> Result<u64, NoMemory>
    requires formed { IsWellFormed model.now }
    requires room { length (source_names model.now) + length model.now.covers < 2 ^ 32 }
    ensures { IfOk result (λ n. n ≡ decomposed model.now) }
{
    wires_are_bounded();
    // No memory holds more.
    if weight(model.model().covers.items()).is_none() {
        return Err(NoMemory);
    }
    count_taken(alloc, model)
}
