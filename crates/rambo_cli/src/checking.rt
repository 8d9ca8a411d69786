//! The command `check`.
ghost use Rattle.std.specs.Prelude.{◌≡◌, ◌≤◌, IfErr, IfOk, IfSome, OnOk};
ghost use Rattle.cover_decompose.specs.Count.{decomposed};
ghost use Rattle.rambo_cli.specs.Check.{CheckFinds, HasPassed};
ghost use Rattle.rambo_cli.specs.Contract.{Caused};
ghost use Rattle.rambo_cli.specs.Inner.Problems.{ModelCause};
ghost use Rattle.rambo_cli.specs.Inner.Written.{IsUsable};
ghost use Rattle.cover_decompose.specs.Limits.{most_pins};

use crate::laws::passed_audits_tell;
use crate::problem::Problem;
use crate::reading::read_input;
use cover_decompose::{DecomposeRefusal, decompose};
use journal_audit::audit;
use rm_base::Shelf;
use rm_model::{NameKeys, RankedModel};
use std::alloc::Global;

/// Whether the decomposition keeps the limit on wires.
pub(crate) fn fits(alloc: Global, model: &RankedModel) -> Result<(), Problem>
    requires usable { IsUsable model.now }
    ensures few { OnOk result (decomposed model.now ≤ most_pins) }
    ensures cause { IfErr result (ModelCause model.now 0 0) }
{
    match decompose(alloc, model) {
        Ok(_graph) => Ok(()),
        Err(DecomposeRefusal::Limit { pins }) => Err(Problem::Limit {
            quantity: blif_format::Quantity::Pins,
            count: pins,
        }),
        Err(DecomposeRefusal::NoMemory) => Err(Problem::Memory),
    }
}

/// Replays the journal over the input, and compares the output with the text of the last net: how many records the journal
/// has, or the first reason against it.
pub(crate) fn check<S: Shelf>(
    alloc: Global,
    keys: NameKeys,
    shelf: &mut S,
    input: &str,
    journal: &str,
    output: &str,
) -> Result<u64, Problem>
    ensures passed { IfOk result (λ count. IfSome (S.files shelf.old) (HasPassed input.now journal.now output.now count)) }
    ensures cause { IfErr result (Caused (CheckFinds input.now journal.now output.now (S.files shelf.old)) (S.faults shelf.old) (S.faults shelf.new)) }
    ensures files { S.files shelf.new ≡ S.files shelf.old }
    ensures later { S.faults shelf.old ≤ S.faults shelf.new }
{
    passed_audits_tell();
    let model = read_input(alloc, keys, shelf, input)?;
    fits(alloc, &model)?;
    let count = audit(alloc, keys, shelf, &model, journal, output)?;
    Ok(count)
}
