// The model that is sewn of parts.
ghost use Rattle.std.specs.Prelude.{◌≡◌, ◌++◌, IfOk, OnOk};
ghost use Rattle.sewing.specs.Laws.{AreFew};
ghost use Rattle.sewing.specs.Sewn.{sewn, sewn_covers as covers_sewn};
ghost use Rattle.sewing.specs.Windows.{kept_names as names_kept, window_outputs};

use crate::lead::free_lead;
use crate::renaming::push_part;
use rm_base::NoMemory;
use rm_model::{
    Cover, Listed, Model, Name, NameKeys, copy_latches, copy_name, copy_names, push_names, sources,
};
use std::alloc::Global;

fn push_outputs(alloc: Global, names: &mut Vec<Name>, parts: &[Model]) -> Result<(), NoMemory>
    ensures { OnOk result (names.new.items ≡ names.old.items ++ window_outputs parts.now) }
{
    for part in parts {
        push_names(alloc, names, part.outputs.items())?;
    }
    Ok(())
}

fn kept_names(
    alloc: Global,
    keys: NameKeys,
    model: &Model,
    parts: &[Model],
) -> Result<Vec<Name>, NoMemory>
    ensures { IfOk result (λ names. names.items ≡ names_kept model.now parts.now) }
{
    let mut names = sources(alloc, keys, model)?;
    push_outputs(alloc, &mut names, parts)?;
    Ok(names)
}

fn sewn_covers(
    alloc: Global,
    keys: NameKeys,
    lead: &[u8],
    parts: &[Model],
) -> Result<Vec<Cover>, NoMemory>
    ensures { IfOk result (λ covers. covers.items ≡ covers_sewn lead.now 1 parts.now) }
{
    let mut covers = Vec::new(alloc);
    for (place, part) in parts.iter().enumerate() {
        push_part(alloc, keys, lead, place + 1, &mut covers, part)?;
    }
    Ok(covers)
}

/// The model with the covers of these parts in place of its own, under names that are told apart: the inputs and outputs
/// of parts keep theirs, and an inner name gets a lead and the part's number before it. Where the parts are models of the
/// model's windows, it computes what the model does (`windows_compose`). It takes time linear in the names and rows, but
/// for the look-ups of names.
pub fn sew(alloc: Global, keys: NameKeys, model: &Model, parts: &[Model]) -> Result<Model, NoMemory>
    ensures made { IfOk result (λ made. made ≡ sewn model.now parts.now) }
    ensures few { OnOk result (AreFew model.now parts.now) }
{
    let kept = kept_names(alloc, keys, model, parts)?;
    let lead = free_lead(alloc, kept.as_slice())?;
    let covers = sewn_covers(alloc, keys, lead.as_slice(), parts)?;
    Ok(Model {
        name: copy_name(alloc, &model.name)?,
        inputs: copy_names(alloc, model.inputs.items())?,
        clocks: copy_names(alloc, model.clocks.items())?,
        outputs: copy_names(alloc, model.outputs.items())?,
        latches: copy_latches(alloc, model.latches.items())?,
        covers: Listed::from_vec(covers),
    })
}
