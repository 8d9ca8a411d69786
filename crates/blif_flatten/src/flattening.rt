// The flat model of modules that call each other.
ghost use Rattle.std.specs.Prelude.{◌≡◌, ◌<◌, ◌+◌, ◌^◌, ℕ, IfOk, OnOk, Some, length, slice_get};
ghost use Rattle.blif_flatten.specs.declared.modules.Module.{Module as ModuleValue};
ghost use Rattle.blif_flatten.specs.Instances.{instance_count, whole};
ghost use Rattle.blif_flatten.specs.Flat.{flat_model, places_in};
ghost use Rattle.blif_flatten.specs.Laws.{AreRankedBy};
ghost use Rattle.blif_flatten.specs.Recursion.{links_of};
ghost use Rattle.blif_flatten.specs.Flattened.{IsFlatOf};

use crate::modules::Module;
use crate::pieces::{Pieces, push_own};
use crate::walk::{Walked, walk_calls};
use rm_base::{NoMemory, Place};
use rm_model::{Listed, Model, copy_name, copy_names};
use std::alloc::Global;

/// A flat model, the place of each of its covers, and how many instances it has.
#[derive(Drop)]
pub struct Flattened {
    pub model: Model,
    pub places: Listed<Place>,
    pub instances: usize,
}

// The model of the top with other latches and covers.
fn with_parts(alloc: Global, top: &Model, walked: Walked) -> Result<Flattened, NoMemory>
    ensures name { IfOk result (λ f. f.model.name ≡ top.now.name) }
    ensures inputs { IfOk result (λ f. f.model.inputs ≡ top.now.inputs) }
    ensures clocks { IfOk result (λ f. f.model.clocks ≡ top.now.clocks) }
    ensures outputs { IfOk result (λ f. f.model.outputs ≡ top.now.outputs) }
    ensures latches { IfOk result (λ f. f.model.latches ≡ walked.pieces.latches) }
    ensures covers { IfOk result (λ f. f.model.covers ≡ walked.pieces.covers) }
    ensures places { IfOk result (λ f. f.places ≡ walked.pieces.places) }
    ensures instances { IfOk result (λ f. f.instances ≡ walked.instances) }
{
    let name = copy_name(alloc, &top.name)?;
    let inputs = copy_names(alloc, top.inputs.items())?;
    let clocks = copy_names(alloc, top.clocks.items())?;
    let outputs = copy_names(alloc, top.outputs.items())?;
    let Walked { pieces, instances } = walked;
    let Pieces {
        covers,
        latches,
        places,
    } = pieces;
    Ok(Flattened {
        model: Model {
            name,
            inputs,
            clocks,
            outputs,
            latches,
            covers,
        },
        places,
        instances,
    })
}

/// The flat model of modules, of which the first is the top.
pub fn flatten_modules(
    alloc: Global,
    modules: &[Module],
    lead: &[u8],
) -> Result<Flattened, NoMemory>
    requires ranked { (rank : ℕ → ℕ) × AreRankedBy modules.now rank }
    requires top { 0 < length modules.now }
    requires few { instance_count (whole modules.now (links_of modules.now 0)) < 2 ^ 32 }
    ensures { (top : ModuleValue) → slice_get modules.now 0 ≡ Some top → IfOk result (IsFlatOf lead.now modules.now top) }
{
    let top = &modules[0];
    let mut start = Pieces {
        covers: Listed::new(alloc),
        latches: Listed::new(alloc),
        places: Listed::new(alloc),
    };
    push_own(alloc, lead, 0, top, &mut start)?;
    let walked = walk_calls(alloc, modules, lead, 0, start)?;
    with_parts(alloc, &top.model, walked)
}
