//! The command `convert`.
ghost use Rattle.std.specs.Prelude.{◌≡◌, ◌≤◌, ◌⊎◌, IfErr, IfOk, IfSome};
ghost use Rattle.journal_convert.specs.Converting.{IsConverted};
ghost use Rattle.rambo_cli.specs.Contract.{Caused};
ghost use Rattle.rambo_cli.specs.Convert.{BeginsConverted, ConvertFinds, HasConverted};
ghost use Rattle.rambo_cli.specs.Files.{Holds, IfTold};
ghost use Rattle.rambo_cli.specs.Problems.{KeepsFiles};

use crate::optimising::replace;
use crate::problem::Problem;
use journal_convert::{Converted, convert};
use rm_base::Shelf;
use std::alloc::Global;

// The journal of the file in version 2.
fn converted_of<S: Shelf>(alloc: Global, shelf: &mut S, from: &str) -> Result<Converted, Problem>
    ensures converted { IfOk result (λ c. IfSome (S.files shelf.old) (λ told. Holds told from.now (λ text. IsConverted text c.text.items c.count))) }
    ensures cause { IfErr result (Caused (ConvertFinds from.now (S.files shelf.old)) (S.faults shelf.old) (S.faults shelf.new)) }
    ensures files { S.files shelf.new ≡ S.files shelf.old }
    ensures later { S.faults shelf.old ≤ S.faults shelf.new }
{
    Ok(convert(alloc, shelf, from)?)
}

/// Writes a journal of version 1 as one of version 2: how many records it has. It isn't replayed.
pub(crate) fn convert_file<S: Shelf>(
    alloc: Global,
    shelf: &mut S,
    from: &str,
    to: &str,
) -> Result<u64, Problem>
    ensures done { IfOk result (λ count. IfTold (S.files shelf.old) (S.files shelf.new) (HasConverted from.now to.now count)) }
    ensures cause { IfErr result (Caused (ConvertFinds from.now (S.files shelf.old)) (S.faults shelf.old) (S.faults shelf.new)) }
    ensures unchanged { IfErr result (λ problem. KeepsFiles problem (S.files shelf.old) (S.files shelf.new)) }
    ensures safe { IfTold (S.files shelf.old) (S.files shelf.new) (λ before after. (after ≡ before) ⊎ BeginsConverted from.now to.now before after) }
    ensures later { S.faults shelf.old ≤ S.faults shelf.new }
{
    let converted = converted_of(alloc, shelf, from)?;
    replace(shelf, to, converted.text.as_slice())?;
    Ok(converted.count)
}
