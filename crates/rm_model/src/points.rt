// The names at which a model is driven and observed from outside.
ghost use Rattle.std.specs.Prelude.{◌≡◌, ◌++◌, ◌∷◌, [], IfOk, OnOk, filter, map, not, Option};
ghost use Rattle.std.specs.List.{filter_map};
ghost use Rattle.std.specs.Option.{option_copied};
ghost use Rattle.rm_base.specs.Words.{Word};
ghost use Rattle.rm_model.specs.Value.{control_of, is_among as among, observed_names, source_names};

use crate::list::Listed;
use crate::name_keys::NameKeys;
use crate::name_table::NameTable;
use crate::parts::{Latch, Model, Name};
use rm_base::NoMemory;
use std::alloc::Global;

/// A copy of a name.
pub fn copy_name(alloc: Global, name: &Name) -> Result<Name, NoMemory>
    ensures { IfOk result (λ copy. copy ≡ name.now) }
{
    Ok(Listed::from_vec(Vec::from_slice(alloc, name.items())?))
}

/// Copies of names, behind those that are there.
pub fn push_names(alloc: Global, out: &mut Vec<Name>, names: &[Name]) -> Result<(), NoMemory>
    ensures { OnOk result (out.new.items ≡ out.old.items ++ names.now) }
{
    for name in names {
        out.push(copy_name(alloc, name)?)?;
    }
    Ok(())
}

pub fn table_of<'a>(
    alloc: Global,
    keys: NameKeys,
    names: &'a [Name],
) -> Result<NameTable<'a>, NoMemory>
    ensures { IfOk result (λ table. (x : Word) → among table x ≡ among names.now x) }
{
    let mut table = NameTable::new(alloc, keys);
    for name in names {
        table.include(name.items())?;
    }
    Ok(table)
}

fn push_unknown<'a>(
    alloc: Global,
    out: &mut Vec<Name>,
    known: &NameTable<'a>,
    names: &'a [Name],
) -> Result<(), NoMemory>
    ensures { OnOk result (out.new.items
        ≡ out.old.items ++ filter (λ x. not (among known.now x)) names.now) }
{
    for name in names {
        if !known.has(name.items()) {
            out.push(copy_name(alloc, name)?)?;
        }
    }
    Ok(())
}

fn push_others<'a>(
    alloc: Global,
    keys: NameKeys,
    out: &mut Vec<Name>,
    inputs: &'a [Name],
    names: &'a [Name],
) -> Result<(), NoMemory>
    ensures { OnOk result (out.new.items
        ≡ out.old.items ++ filter (λ x. not (among inputs.now x)) names.now) }
{
    let known = table_of(alloc, keys, inputs)?;
    push_unknown(alloc, out, &known, names)
}

fn push_latch_outputs(alloc: Global, out: &mut Vec<Name>, latches: &[Latch]) -> Result<(), NoMemory>
    ensures { OnOk result (out.new.items ≡ out.old.items ++ map (λ l. l.output) latches.now) }
{
    for latch in latches {
        out.push(copy_name(alloc, &latch.output)?)?;
    }
    Ok(())
}

pub fn push_latch_inputs(
    alloc: Global,
    out: &mut Vec<Name>,
    latches: &[Latch],
) -> Result<(), NoMemory>
    ensures { OnOk result (out.new.items ≡ out.old.items ++ map (λ l. l.input) latches.now) }
{
    for latch in latches {
        out.push(copy_name(alloc, &latch.input)?)?;
    }
    Ok(())
}

pub fn control(latch: &Latch) -> Option<&Name>
    ensures { option_copied result ≡ control_of latch.now }
{
    match &latch.timing {
        None => None,
        Some(timing) => timing.control.as_ref(),
    }
}

pub fn push_controls(alloc: Global, out: &mut Vec<Name>, latches: &[Latch]) -> Result<(), NoMemory>
    ensures { OnOk result (out.new.items ≡ out.old.items ++ filter_map control_of latches.now) }
{
    for latch in latches {
        if let Some(control) = control(latch) {
            out.push(copy_name(alloc, control)?)?;
        }
    }
    Ok(())
}

/// The names that drive the model from outside, each once in a well-formed model: the inputs, the
/// clocks that aren't inputs, and the latch outputs, each in order. It takes time linear in these
/// lists, but for the look-ups of names.
pub fn sources(alloc: Global, keys: NameKeys, model: &Model) -> Result<Vec<Name>, NoMemory>
    ensures { IfOk result (λ names. names.items ≡ source_names model.now) }
{
    let mut names = Vec::new(alloc);
    push_names(alloc, &mut names, model.inputs.items())?;
    push_others(
        alloc,
        keys,
        &mut names,
        model.inputs.items(),
        model.clocks.items(),
    )?;
    push_latch_outputs(alloc, &mut names, model.latches.items())?;
    Ok(names)
}

/// The names that are seen from outside: the outputs, the latch inputs and the latch controls, each
/// in order. A name may stand twice, and it may be a source.
pub fn list_observed(alloc: Global, model: &Model) -> Result<Vec<Name>, NoMemory>
    ensures { IfOk result (λ names. names.items ≡ observed_names model.now) }
{
    let mut names = Vec::new(alloc);
    push_names(alloc, &mut names, model.outputs.items())?;
    push_latch_inputs(alloc, &mut names, model.latches.items())?;
    push_controls(alloc, &mut names, model.latches.items())?;
    Ok(names)
}
