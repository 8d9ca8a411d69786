// The covers in their order, cut into windows.
ghost use Rattle.std.specs.Prelude.{◌≡◌, ◌+◌, ◌++◌, [], ◌∷◌, IfOk, OnOk, slice_get, List, ℕ};
ghost use Rattle.std.specs.Option.{option_to_list};
ghost use Rattle.rm_model.specs.declared.parts.Cover.{Cover};
ghost use Rattle.cover_decompose.specs.Count.{cover_wires as wires_of_cover};
ghost use Rattle.window_cut.specs.Cut.{first_width as width_of_first, windows_from};
ghost use Rattle.window_cut.specs.Inner.Places.{IsWeighed, TakesOn, windows_at, windows_with};
ghost use Rattle.window_cut.specs.Inner.Weights.{capped};
ghost use Rattle.window_cut.specs.Order.{covers_at};

use crate::places::cover_at;
use crate::weights::cover_wires;
use rm_base::NoMemory;
use rm_model::Cover;
use std::alloc::Global;
use std::mem;

/// The windows that are closed, the one that is begun with its weight, and the weight at which it is closed.
#[derive(Drop)]
pub struct Cutting {
    pub windows: Vec<Vec<usize>>,
    pub begun: Vec<usize>,
    pub weight: u64,
    pub least: u32,
}

// Adds a cover to the window that is begun.
fn push_cover(cutting: &mut Cutting, cover: &Cover, place: usize) -> Result<(), NoMemory>
    ensures windows { cutting.new.windows ≡ cutting.old.windows }
    ensures least { cutting.new.least ≡ cutting.old.least }
    ensures begun { OnOk result (cutting.new.begun.items ≡ cutting.old.begun.items ++ place ∷ []) }
    ensures weight { OnOk result (cutting.new.weight ≡ capped (cutting.old.weight + capped (wires_of_cover cover.now))) }
{
    cutting.begun.push(place)?;
    cutting.weight = cutting.weight.saturating_add(cover_wires(cover));
    Ok(())
}

// Closes the window that is begun, and begins another.
fn begin_next(alloc: Global, cutting: &mut Cutting, width: u32) -> Result<(), NoMemory>
    ensures windows { OnOk result (cutting.new.windows.items ≡ cutting.old.windows.items ++ cutting.old.begun ∷ []) }
    ensures begun { OnOk result (cutting.new.begun.items ≡ []) }
    ensures weight { OnOk result (cutting.new.weight ≡ 0) }
    ensures least { OnOk result (cutting.new.least ≡ width) }
{
    let window = mem::replace(&mut cutting.begun, Vec::new(alloc));
    cutting.windows.push(window)?;
    cutting.weight = 0;
    cutting.least = width;
    Ok(())
}

// Takes the cover at a place.
fn take_cover(
    alloc: Global,
    covers: &[Cover],
    place: usize,
    width: u32,
    cutting: &mut Cutting,
) -> Result<(), NoMemory>
    requires { IsWeighed covers.now cutting.old }
    ensures { OnOk result (TakesOn covers.now width cutting.old (option_to_list (slice_get covers.now place)) cutting.new) }
{
    let cover = match cover_at(covers, place) {
        None => return Ok(()),
        Some(cover) => cover,
    };
    push_cover(cutting, cover, place)?;
    if cutting.weight >= cutting.least as u64 {
        begin_next(alloc, cutting, width)?;
    }
    Ok(())
}

fn take_covers(
    alloc: Global,
    covers: &[Cover],
    order: &[usize],
    width: u32,
    cutting: &mut Cutting,
) -> Result<(), NoMemory>
    requires { IsWeighed covers.now cutting.old }
    ensures { OnOk result (TakesOn covers.now width cutting.old (covers_at covers.now order.now) cutting.new) }
{
    for place in order {
        take_cover(alloc, covers, *place, width, cutting)?;
    }
    Ok(())
}

// Closes the last window, if anything is left for it.
fn finish(cutting: Cutting) -> Result<Vec<Vec<usize>>, NoMemory>
    ensures { IfOk result (λ ws. (cs : List Cover) (width : ℕ) → IsWeighed cs cutting
        → windows_at cs ws.items ≡ windows_with cs width cutting []) }
{
    let mut windows = cutting.windows;
    if cutting.begun.is_empty() {
        return Ok(windows);
    }
    windows.push(cutting.begun)?;
    Ok(windows)
}

fn first_width(width: u32, shift: u32) -> u32
    ensures { result ≡ width_of_first width shift }
{
    if shift == 0 { width } else { shift }
}

/// The windows of covers in this order, each by the places of its covers.
pub fn windows_of(
    alloc: Global,
    covers: &[Cover],
    order: &[usize],
    width: u32,
    shift: u32,
) -> Result<Vec<Vec<usize>>, NoMemory>
    ensures { IfOk result (λ ws. windows_at covers.now ws.items
        ≡ windows_from (width_of_first width shift) width [] (covers_at covers.now order.now)) }
{
    let mut cutting = Cutting {
        windows: Vec::new(alloc),
        begun: Vec::new(alloc),
        weight: 0,
        least: first_width(width, shift),
    };
    take_covers(alloc, covers, order, width, &mut cutting)?;
    let windows = finish(cutting)?;
    Ok(windows)
}
