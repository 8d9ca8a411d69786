// The windows of a model, each as a model of its own.
ghost use Rattle.std.specs.Prelude.{◌≡◌, ◌++◌, IfOk, OnOk, filter, slice_get};
ghost use Rattle.std.specs.Option.{option_to_list};
ghost use Rattle.rm_model.specs.Value.{is_among, outputs_of, IsRanked};
ghost use Rattle.rm_model.specs.WellFormed.{IsWellFormed};
ghost use Rattle.window_cut.specs.Inner.Models.{model_with, models_with};
ghost use Rattle.window_cut.specs.Inner.Places.{windows_at};
ghost use Rattle.window_cut.specs.Order.{covers_at};
ghost use Rattle.window_cut.specs.Windows.{models_of, window_models, window_name};

use crate::copies::{copy_covers, copy_lent};
use crate::cutting::windows_of;
use crate::laws::ranked_models_have_levels;
use crate::places::cover_at;
use crate::walk::post_order;
use crate::window_inputs::{wanted_names_of, window_inputs};
use itoa::Buffer;
use rm_base::NoMemory;
use rm_model::{Cover, Listed, Model, Name, NameKeys, NameTable, copy_name, list_observed};
use std::alloc::Global;

fn name_of(alloc: Global, number: usize) -> Result<Name, NoMemory>
    ensures { IfOk result (λ name. name ≡ window_name number) }
{
    let mut buffer = Buffer::new();
    let mut text = Vec::from_slice(alloc, b"w")?;
    text.extend_from_slice(buffer.format(number).as_bytes())?;
    Ok(Listed::from_vec(text))
}

// Adds the output of the cover at a place, if it is wanted.
fn push_wanted<'a>(
    alloc: Global,
    wanted: &NameTable<'a>,
    outputs: &mut Vec<Name>,
    covers: &'a [Cover],
    place: usize,
) -> Result<(), NoMemory>
    ensures { OnOk result (outputs.new.items ≡ outputs.old.items ++ filter (is_among wanted.now) (outputs_of (option_to_list (slice_get covers.now place)))) }
{
    let cover = match cover_at(covers, place) {
        None => return Ok(()),
        Some(cover) => cover,
    };
    if wanted.has(cover.output.items()) {
        outputs.push(copy_name(alloc, &cover.output)?)?;
    }
    Ok(())
}

// The wanted outputs of the covers at these places.
fn wanted_outputs<'a>(
    alloc: Global,
    wanted: &NameTable<'a>,
    covers: &'a [Cover],
    places: &[usize],
) -> Result<Listed<Name>, NoMemory>
    ensures { IfOk result (λ names. names ≡ filter (is_among wanted.now) (outputs_of (covers_at covers.now places.now))) }
{
    let mut outputs = Vec::new(alloc);
    for place in places {
        push_wanted(alloc, wanted, &mut outputs, covers, *place)?;
    }
    Ok(Listed::from_vec(outputs))
}

// The model of the window of the covers at these places.
fn model_of<'a>(
    alloc: Global,
    keys: NameKeys,
    model: &'a Model,
    wanted: &NameTable<'a>,
    number: usize,
    places: &[usize],
) -> Result<Model, NoMemory>
    ensures { IfOk result (λ made. made ≡ model_with wanted.now number (covers_at model.now.covers places.now)) }
{
    let inputs = window_inputs(alloc, keys, model.covers.items(), places)?;
    Ok(Model {
        name: name_of(alloc, number)?,
        inputs: copy_lent(alloc, inputs.as_slice())?,
        clocks: Listed::new(alloc),
        outputs: wanted_outputs(alloc, wanted, model.covers.items(), places)?,
        latches: Listed::new(alloc),
        covers: copy_covers(alloc, model.covers.items(), places)?,
    })
}

fn models_by<'a>(
    alloc: Global,
    keys: NameKeys,
    model: &'a Model,
    wanted: &NameTable<'a>,
    windows: &[Vec<usize>],
) -> Result<Vec<Model>, NoMemory>
    ensures { IfOk result (λ models. models.items ≡ models_with wanted.now 1 (windows_at model.now.covers windows.now)) }
{
    let mut models = Vec::new(alloc);
    for (index, window) in windows.iter().enumerate() {
        models.push(model_of(alloc, keys, model, wanted, index + 1, window.as_slice())?)?;
    }
    Ok(models)
}

fn models_of_windows(
    alloc: Global,
    keys: NameKeys,
    model: &Model,
    windows: &[Vec<usize>],
) -> Result<Vec<Model>, NoMemory>
    ensures { IfOk result (λ models. models.items ≡ models_of model.now (windows_at model.now.covers windows.now)) }
{
    let observed = list_observed(alloc, model)?;
    let wanted = wanted_names_of(alloc, keys, model, observed.as_slice(), windows)?;
    let models = models_by(alloc, keys, model, &wanted, windows)?;
    Ok(models)
}

/// Cuts a model into windows, each a model of its own whose name is `w` with its number, from 1 on. A window is closed as soon
/// as the gates of its covers have `width` wires, and the first one as soon as they have `shift`, if that isn't 0: with other
/// shifts the seams are elsewhere. It takes time linear in the model, but for the look-ups of names.
pub fn cut(
    alloc: Global,
    keys: NameKeys,
    model: &Model,
    width: u32,
    shift: u32,
) -> Result<Vec<Model>, NoMemory>
    requires formed { IsWellFormed model.now }
    requires ranked { IsRanked model.now }
    ensures { IfOk result (λ models. models.items ≡ window_models width shift model.now) }
{
    ranked_models_have_levels();
    let order = post_order(alloc, keys, model)?;
    let windows = windows_of(alloc, model.covers.items(), order.as_slice(), width, shift)?;
    models_of_windows(alloc, keys, model, windows.as_slice())
}
