// The signals of a model by number, and the covers that are taken by their places.
ghost use Rattle.std.specs.Prelude.{◌≡◌, ◌<◌, ◌≤◌, ◌+◌, ◌^◌, length, map, IfOk, None, Some, All, replicate, false};
ghost use Rattle.std.specs.List.{list_all};
ghost use Rattle.cover_decompose.specs.Inner.Chosen.{AtPlaces, IsNumbered};
ghost use Rattle.cover_decompose.specs.Needed.{covers_by_rank, taken};
ghost use Rattle.cover_decompose.specs.Count.{decomposed};
ghost use Rattle.rm_model.specs.Ranks.{first_without_rank, ranks_of};
ghost use Rattle.rm_model.specs.Value.{observed_names, source_names};
ghost use Rattle.cover_decompose.specs.Inner.Places.{marked};
ghost use Rattle.rm_model.specs.WellFormed.{IsWellFormed, driven_names};

use crate::count::wires;
use crate::needed::{list_needed, mark, places_by_rank};
use rm_base::NoMemory;
use rm_model::{Model, Numbering, RankedModel, ranks_follow};
use std::alloc::Global;

/// The numbers of a model's signals: first the sources, and then the output of each cover.
pub fn numbers_of(model: &RankedModel) -> &Numbering
    requires formed { IsWellFormed model.now }
    ensures numbered { IsNumbered model.now (map (λ ks. ks.items) result.now.inputs.items) result.now.observed.items }
    ensures sources { result.now.sources ≡ length (source_names model.now) }
{
    model.numbering()
}

/// The places of the covers by rank.
pub fn cover_order(alloc: Global, model: &RankedModel) -> Result<Vec<usize>, NoMemory>
    ensures { IfOk result (λ is. AtPlaces model.now.covers is.items (covers_by_rank model.now)) }
{
    ranks_follow();
    let order = places_by_rank(alloc, model.ranks())?;
    Ok(order)
}

fn observed_marks(alloc: Global, signals: usize, observed: &[u32]) -> Result<Vec<bool>, NoMemory>
    requires { All (λ k. k < signals) observed.now }
    ensures { IfOk result (λ ms. ms.items ≡ marked (replicate signals false) observed.now) }
{
    let mut marks = Vec::new(alloc);
    marks.resize(signals, false)?;
    mark(marks.as_mut_slice(), observed);
    Ok(marks)
}

/// The places of the covers that a decomposition takes.
pub fn taken_places(
    alloc: Global,
    model: &Model,
    numbering: &Numbering,
    order: &[usize],
) -> Result<Vec<usize>, NoMemory>
    requires numbered { IsNumbered model.now (map (λ ks. ks.items) numbering.now.inputs.items) numbering.now.observed.items }
    requires sources { numbering.now.sources ≡ length (source_names model.now) }
    requires signals { numbering.now.sources + length model.now.covers < 2 ^ 64 }
    requires order { AtPlaces model.now.covers order.now (covers_by_rank model.now) }
    ensures { IfOk result (λ is. AtPlaces model.now.covers is.items (taken model.now)) }
{
    let signals = numbering.sources as usize + model.covers.len();
    let mut marks = observed_marks(alloc, signals, numbering.observed.as_slice())?;
    let taken = list_needed(
        alloc,
        order,
        numbering.inputs.as_slice(),
        numbering.sources as usize,
        marks.as_mut_slice(),
    )?;
    Ok(taken)
}

/// The number of wires of a model's decomposition.
pub fn wire_count(
    alloc: Global,
    model: &Model,
    numbering: &Numbering,
    places: &[usize],
) -> Result<u64, NoMemory>
    requires numbered { IsNumbered model.now (map (λ ks. ks.items) numbering.now.inputs.items) numbering.now.observed.items }
    requires sources { numbering.now.sources ≡ length (source_names model.now) }
    requires signals { numbering.now.sources + length model.now.covers < 2 ^ 64 }
    requires places { AtPlaces model.now.covers places.now (taken model.now) }
    requires fits { decomposed model.now < 2 ^ 64 }
    ensures { IfOk result (λ n. n ≡ decomposed model.now) }
{
    let signals = numbering.sources as usize + model.covers.len();
    let pins = wires(
        alloc,
        signals,
        numbering.inputs.as_slice(),
        model.covers.items(),
        places,
    )?;
    Ok(pins)
}
