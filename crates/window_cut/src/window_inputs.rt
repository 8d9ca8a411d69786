// What windows read from outside, and what is wanted of them.
ghost use Rattle.std.specs.Prelude.{◌≡◌, ◌++◌, ◌||◌, IfOk, OnOk, map, slice_get};
ghost use Rattle.std.specs.Option.{option_to_list};
ghost use Rattle.rm_base.specs.Words.{Word};
ghost use Rattle.rm_model.specs.Value.{is_among, observed_names, outputs_of};
ghost use Rattle.window_cut.specs.Inner.Places.{windows_at};
ghost use Rattle.window_cut.specs.Order.{covers_at};
ghost use Rattle.window_cut.specs.Windows.{new_names, read_names, wanted_names, window_inputs as inputs_of_window};

use crate::places::cover_at;
use rm_base::NoMemory;
use rm_model::{Cover, Model, Name, NameKeys, NameTable};
use std::alloc::Global;

fn include_output<'a>(
    table: &mut NameTable<'a>,
    covers: &'a [Cover],
    place: usize,
) -> Result<(), NoMemory>
    ensures { OnOk result ((x : Word)
        → is_among table.new x ≡ (is_among table.old x || is_among (outputs_of (option_to_list (slice_get covers.now place))) x)) }
{
    match cover_at(covers, place) {
        None => Ok(()),
        Some(cover) => table.include(cover.output.items()),
    }
}

// The outputs of the covers at these places.
fn given_names<'a>(
    alloc: Global,
    keys: NameKeys,
    covers: &'a [Cover],
    places: &[usize],
) -> Result<NameTable<'a>, NoMemory>
    ensures { IfOk result (λ table. (x : Word) → is_among table x ≡ is_among (outputs_of (covers_at covers.now places.now)) x) }
{
    let mut table = NameTable::new(alloc, keys);
    for place in places {
        include_output(&mut table, covers, *place)?;
    }
    Ok(table)
}

// Adds the names that aren't known.
fn push_new<'a>(
    known: &mut NameTable<'a>,
    out: &mut Vec<&'a Name>,
    names: &'a [Name],
) -> Result<(), NoMemory>
    ensures known { OnOk result (known.new ≡ known.old ++ new_names known.old names.now) }
    ensures out { OnOk result (map (λ x. x.now) out.new.items ≡ map (λ x. x.now) out.old.items ++ new_names known.old names.now) }
{
    for name in names {
        if !known.has(name.items()) {
            known.add(name.items())?;
            out.push(name)?;
        }
    }
    Ok(())
}

fn push_inputs<'a>(
    known: &mut NameTable<'a>,
    out: &mut Vec<&'a Name>,
    covers: &'a [Cover],
    place: usize,
) -> Result<(), NoMemory>
    ensures known { OnOk result (known.new ≡ known.old ++ new_names known.old (read_names (option_to_list (slice_get covers.now place)))) }
    ensures out { OnOk result (map (λ x. x.now) out.new.items
        ≡ map (λ x. x.now) out.old.items ++ new_names known.old (read_names (option_to_list (slice_get covers.now place)))) }
{
    match cover_at(covers, place) {
        None => Ok(()),
        Some(cover) => push_new(known, out, cover.inputs.items()),
    }
}

/// The names that the window of the covers at these places reads from outside.
pub fn window_inputs<'a>(
    alloc: Global,
    keys: NameKeys,
    covers: &'a [Cover],
    places: &[usize],
) -> Result<Vec<&'a Name>, NoMemory>
    ensures { IfOk result (λ names. map (λ x. x.now) names.items ≡ inputs_of_window (covers_at covers.now places.now)) }
{
    let mut known = given_names(alloc, keys, covers, places)?;
    let mut inputs = Vec::new(alloc);
    for place in places {
        push_inputs(&mut known, &mut inputs, covers, *place)?;
    }
    Ok(inputs)
}

fn include_all<'a>(table: &mut NameTable<'a>, names: &'a [Name]) -> Result<(), NoMemory>
    ensures { OnOk result ((x : Word) → is_among table.new x ≡ (is_among table.old x || is_among names.now x)) }
{
    for name in names {
        table.include(name.items())?;
    }
    Ok(())
}

fn include_lent<'a>(table: &mut NameTable<'a>, names: &[&'a Name]) -> Result<(), NoMemory>
    ensures { OnOk result ((x : Word) → is_among table.new x ≡ (is_among table.old x || is_among (map (λ n. n.now) names.now) x)) }
{
    for name in names {
        table.include(name.items())?;
    }
    Ok(())
}

/// The names that are needed outside the windows that drive them.
pub fn wanted_names_of<'a>(
    alloc: Global,
    keys: NameKeys,
    model: &'a Model,
    observed: &'a [Name],
    windows: &[Vec<usize>],
) -> Result<NameTable<'a>, NoMemory>
    requires { observed.now ≡ observed_names model.now }
    ensures { IfOk result (λ table. (x : Word) → is_among table x ≡ is_among (wanted_names model.now (windows_at model.now.covers windows.now)) x) }
{
    let mut wanted = NameTable::new(alloc, keys);
    include_all(&mut wanted, observed)?;
    for window in windows {
        let inputs = window_inputs(alloc, keys, model.covers.items(), window.as_slice())?;
        include_lent(&mut wanted, inputs.as_slice())?;
    }
    Ok(wanted)
}
