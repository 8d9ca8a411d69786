// Copies of covers and of names.
ghost use Rattle.std.specs.Prelude.{◌≡◌, ◌++◌, IfOk, OnOk, map, slice_get};
ghost use Rattle.std.specs.Option.{option_to_list};
ghost use Rattle.window_cut.specs.Order.{covers_at};

use crate::places::cover_at;
use rm_base::NoMemory;
use rm_model::{Cover, Listed, Name, copy_cover, copy_name};
use std::alloc::Global;

// Adds a copy of the cover at a place.
fn push_copy(
    alloc: Global,
    made: &mut Vec<Cover>,
    covers: &[Cover],
    place: usize,
) -> Result<(), NoMemory>
    ensures { OnOk result (made.new.items ≡ made.old.items ++ option_to_list (slice_get covers.now place)) }
{
    match cover_at(covers, place) {
        None => Ok(()),
        Some(cover) => {
            made.push(copy_cover(alloc, cover)?)?;
            Ok(())
        }
    }
}

/// Copies of the covers at these places.
pub fn copy_covers(
    alloc: Global,
    covers: &[Cover],
    places: &[usize],
) -> Result<Listed<Cover>, NoMemory>
    ensures { IfOk result (λ made. made ≡ covers_at covers.now places.now) }
{
    let mut made = Vec::new(alloc);
    for place in places {
        push_copy(alloc, &mut made, covers, *place)?;
    }
    Ok(Listed::from_vec(made))
}

/// Copies of names that are lent.
pub fn copy_lent(alloc: Global, names: &[&Name]) -> Result<Listed<Name>, NoMemory>
    ensures { IfOk result (λ made. made ≡ map (λ n. n.now) names.now) }
{
    let mut made = Vec::with_capacity(alloc, names.len())?;
    for name in names {
        made.push(copy_name(alloc, name)?)?;
    }
    Ok(Listed::from_vec(made))
}
