//! The command `flat`.
ghost use Rattle.std.specs.Prelude.{◌≡◌, ◌≤◌, ◌⊎◌, IfOk, IfErr};
ghost use Rattle.rambo_cli.specs.Contract.{Caused};
ghost use Rattle.rambo_cli.specs.Files.{IfTold};
ghost use Rattle.rambo_cli.specs.Flat.{BeginsFlat, FlatFinds, HasFlattened, flat_limits};
ghost use Rattle.rambo_cli.specs.Problems.{KeepsFiles};

use crate::input_model::flat_model;
use crate::optimising::replace;
use crate::problem::Problem;
use blif_writer::write_model;
use rm_base::Shelf;
use rm_model::NameKeys;
use std::alloc::Global;

/// What `flat` has made: a flat model of so many instances and covers.
#[derive(Clone, Copy, Debug)]
pub(crate) struct FlatCounts {
    pub(crate) instances: u32,
    pub(crate) covers: u64,
}

/// Makes one flat model of the input, and writes it as the output.
pub(crate) fn flatten_input<S: Shelf>(
    alloc: Global,
    keys: NameKeys,
    shelf: &mut S,
    input: &str,
    output: &str,
) -> Result<FlatCounts, Problem>
    ensures done { IfOk result (λ c. IfTold (S.files shelf.old) (S.files shelf.new) (HasFlattened input.now output.now c.instances c.covers)) }
    ensures cause { IfErr result (Caused (FlatFinds flat_limits input.now (S.files shelf.old)) (S.faults shelf.old) (S.faults shelf.new)) }
    ensures unchanged { IfErr result (λ problem. KeepsFiles problem (S.files shelf.old) (S.files shelf.new)) }
    ensures safe { IfTold (S.files shelf.old) (S.files shelf.new) (λ before after. (after ≡ before) ⊎ BeginsFlat input.now output.now before after) }
    ensures later { S.faults shelf.old ≤ S.faults shelf.new }
{
    let flat = flat_model(alloc, keys, shelf, input)?;
    let text = write_model(alloc, &flat.model)?;
    replace(shelf, output, text.as_slice())?;
    Ok(FlatCounts {
        instances: flat.instances,
        covers: flat.model.covers.len() as u64,
    })
}
