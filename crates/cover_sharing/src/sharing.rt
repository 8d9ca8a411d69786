// Covers at places, in order, equal ones merged.
ghost use Rattle.std.specs.Prelude.{◌≡◌, ◌<◌, ◌++◌, List, length, fold, slice_get, true, Some as SomeOf, IfOk, OnOk};
ghost use Rattle.std.specs.Option.{option_copied, option_to_list};
ghost use Rattle.rm_base.specs.Words.{Word};
ghost use Rattle.rm_model.specs.Numbers.{place_of};
ghost use Rattle.rm_model.specs.Value.{is_among, outputs_of};
ghost use Rattle.rm_model.specs.WellFormed.{is_distinct};
ghost use Rattle.window_cut.specs.Order.{covers_at};
ghost use Rattle.cover_sharing.specs.Inner.Standing.{IsShown};
ghost use Rattle.cover_sharing.specs.Shared.{copy_if_observed, sharing_of, with_cover, Sharing};

use crate::encoding::encode;
use crate::kept_covers::KeptCovers;
use crate::origin::{copy_cover_of, origin_of};
use crate::standing::{no_stands, standing_cover};
use rm_base::NoMemory;
use rm_model::{Cover, Name, NameKeys, NameTable};
use std::alloc::Global;

// The outputs of the covers, each at its cover's place.
fn output_table<'a>(
    alloc: Global,
    keys: NameKeys,
    covers: &'a [Cover],
) -> Result<NameTable<'a>, NoMemory>
    requires { is_distinct (outputs_of covers.now) ≡ true }
    ensures { IfOk result (λ table. table ≡ outputs_of covers.now) }
{
    let mut table = NameTable::new(alloc, keys);
    for cover in covers {
        table.add(cover.output.items())?;
    }
    Ok(table)
}

fn name_table<'a>(
    alloc: Global,
    keys: NameKeys,
    names: &'a [Name],
) -> Result<NameTable<'a>, NoMemory>
    ensures { IfOk result (λ table. (x : Word) → is_among table x ≡ is_among names.now x) }
{
    let mut table = NameTable::new(alloc, keys);
    for name in names {
        table.include(name.items())?;
    }
    Ok(table)
}

// Keeps an observed name as a copy of its origin.
fn keep_observed<'a>(
    alloc: Global,
    observed: &NameTable<'a>,
    origin: &Name,
    output: &'a Name,
    kept: &mut KeptCovers,
) -> Result<(), NoMemory>
    ensures { OnOk result (kept.new ≡ kept.old ++ copy_if_observed observed.now origin.now output.now) }
{
    if observed.has(output.items()) {
        let copy = copy_cover_of(alloc, origin, output)?;
        let bytes = encode(alloc, &copy)?;
        kept.push(copy, bytes)?;
    }
    Ok(())
}

// Takes a cover: it is kept, or its origin stands for its output.
fn take_cover<'a>(
    alloc: Global,
    outputs: &NameTable<'a>,
    observed: &NameTable<'a>,
    cover: &'a Cover,
    place: usize,
    kept: &mut KeptCovers,
    stands: &mut [Option<Name>],
) -> Result<(), NoMemory>
    requires place { place_of outputs.now cover.now.output ≡ SomeOf place }
    requires only { (x : Word) → place_of outputs.now x ≡ SomeOf place → x ≡ cover.now.output }
    requires room { place < length stands.old }
    ensures room { OnOk result (length stands.new ≡ length stands.old) }
    ensures shown { OnOk result ((s : Sharing) → IsShown outputs.now s kept.old stands.old
        → IsShown outputs.now (with_cover observed.now s cover.now) kept.new stands.new) }
{
    let standing = standing_cover(alloc, outputs, stands, cover)?;
    let bytes = encode(alloc, &standing)?;
    let origin = origin_of(alloc, kept, &standing, bytes.as_slice())?;
    match origin {
        None => {
            kept.push(standing, bytes)?;
        }
        Some(name) => {
            keep_observed(alloc, observed, &name, &cover.output, kept)?;
            stands[place] = Some(name);
        }
    }
    Ok(())
}

fn cover_at(covers: &[Cover], place: usize) -> Option<&Cover>
    ensures { option_copied result ≡ slice_get covers.now place }
{
    covers.get(place)
}

// Takes the cover at a place.
fn take_place<'a>(
    alloc: Global,
    covers: &'a [Cover],
    outputs: &NameTable<'a>,
    observed: &NameTable<'a>,
    place: usize,
    kept: &mut KeptCovers,
    stands: &mut [Option<Name>],
) -> Result<(), NoMemory>
    requires outputs { outputs.now ≡ outputs_of covers.now }
    requires once { is_distinct (outputs_of covers.now) ≡ true }
    requires room { length stands.old ≡ length covers.now }
    ensures room { OnOk result (length stands.new ≡ length covers.now) }
    ensures shown { OnOk result ((s : Sharing) → IsShown outputs.now s kept.old stands.old
        → IsShown outputs.now (fold (with_cover observed.now) s (option_to_list (slice_get covers.now place))) kept.new stands.new) }
{
    let cover = match cover_at(covers, place) {
        None => return Ok(()),
        Some(cover) => cover,
    };
    take_cover(alloc, outputs, observed, cover, place, kept, stands)?;
    Ok(())
}

fn take_places<'a>(
    alloc: Global,
    covers: &'a [Cover],
    outputs: &NameTable<'a>,
    observed: &NameTable<'a>,
    places: &[usize],
    kept: &mut KeptCovers,
    stands: &mut [Option<Name>],
) -> Result<(), NoMemory>
    requires outputs { outputs.now ≡ outputs_of covers.now }
    requires once { is_distinct (outputs_of covers.now) ≡ true }
    requires room { length stands.old ≡ length covers.now }
    ensures { OnOk result ((s : Sharing) → IsShown outputs.now s kept.old stands.old
        → IsShown outputs.now (fold (with_cover observed.now) s (covers_at covers.now places.now)) kept.new stands.new) }
{
    for place in places {
        take_place(alloc, covers, outputs, observed, *place, kept, stands)?;
    }
    Ok(())
}

/// The covers that are kept of those at these places. The names are the observed ones.
pub fn shared_covers<'a>(
    alloc: Global,
    keys: NameKeys,
    covers: &'a [Cover],
    names: &'a [Name],
    places: &[usize],
) -> Result<Vec<Cover>, NoMemory>
    requires once { is_distinct (outputs_of covers.now) ≡ true }
    ensures { IfOk result (λ made. made.items ≡ (sharing_of names.now (covers_at covers.now places.now)).kept) }
{
    let outputs = output_table(alloc, keys, covers)?;
    let observed = name_table(alloc, keys, names)?;
    let mut stands = no_stands(alloc, covers.len())?;
    let mut kept = KeptCovers::new(alloc);
    take_places(
        alloc,
        covers,
        &outputs,
        &observed,
        places,
        &mut kept,
        stands.as_mut_slice(),
    )?;
    Ok(kept.into_covers())
}
