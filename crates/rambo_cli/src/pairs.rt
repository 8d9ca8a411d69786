//! Reads two texts as models.
ghost use Rattle.std.specs.Prelude.{◌≡◌, ◌≤◌, IfErr, IfOk, IfSome, OnOk};
ghost use Rattle.cover_decompose.specs.Limits.{most_pins};
ghost use Rattle.cover_decompose.specs.Spelled.{plain_decomposed};
ghost use Rattle.rambo_cli.specs.Contract.{Caused};
ghost use Rattle.rambo_cli.specs.Files.{Holds};
ghost use Rattle.rambo_cli.specs.Input.{CauseBy};
ghost use Rattle.rambo_cli.specs.Pairs.{AreRead, PairFinds};
ghost use Rattle.rambo_cli.specs.Inner.Pairs.{IsOfSecond, second_problem, wires_by};
ghost use Rattle.rambo_cli.specs.Inner.Problems.{ModelCauseBy};
ghost use Rattle.rambo_cli.specs.Inner.Written.{IsUsable};
ghost use Rattle.rambo_cli.specs.Written.{IsSaid};

use crate::checking::fits;
use crate::problem::{Problem, TextProblem};
use crate::reading::read_input;
use blif_format::{Quantity, reads_once};
use cover_decompose::DecomposeRefusal;
use joined_nets::plain_decomposition;
use rm_base::Shelf;
use rm_model::{NameKeys, RankedModel};
use std::alloc::Global;

/// How parity covers are decomposed: as one gate each, or by their rows, like other covers.
#[derive(Clone, Copy, Debug)]
pub enum Parities {
    AsGates,
    ByRows,
}

// Whether the decomposition without Xor gates keeps the limit on wires.
#[tactic(auto, using(crate::proofs::Compared::ready))]
fn fits_by_rows(alloc: Global, keys: NameKeys, model: &RankedModel) -> Result<(), Problem>
    requires usable { IsUsable model.now }
    ensures few { OnOk result (plain_decomposed model.now ≤ most_pins) }
    ensures cause { IfErr result (ModelCauseBy plain_decomposed model.now 0 0) }
{
    match plain_decomposition(alloc, keys, model) {
        Ok(_graph) => Ok(()),
        Err(DecomposeRefusal::Limit { pins }) => Err(Problem::Limit {
            quantity: Quantity::Pins,
            count: pins,
        }),
        Err(DecomposeRefusal::NoMemory) => Err(Problem::Memory),
    }
}

// Whether the decomposition keeps the limit on wires.
fn fits_with(
    alloc: Global,
    keys: NameKeys,
    parities: Parities,
    model: &RankedModel,
) -> Result<(), Problem>
    requires usable { IsUsable model.now }
    ensures few { OnOk result (wires_by parities model.now ≤ most_pins) }
    ensures cause { IfErr result (ModelCauseBy (wires_by parities) model.now 0 0) }
{
    match parities {
        Parities::AsGates => fits(alloc, model),
        Parities::ByRows => fits_by_rows(alloc, keys, model),
    }
}

// The model of a text that is within all limits.
fn read_fitting<S: Shelf>(
    alloc: Global,
    keys: NameKeys,
    shelf: &mut S,
    parities: Parities,
    name: &str,
) -> Result<RankedModel, Problem>
    ensures said { IfOk result (λ model. IfSome (S.files shelf.old) (λ told. Holds told name.now (λ text. IsSaid text model))) }
    ensures usable { IfOk result IsUsable }
    ensures few { IfOk result (λ model. wires_by parities model ≤ most_pins) }
    ensures cause { IfErr result (CauseBy (wires_by parities) name.now (S.files shelf.old) (S.faults shelf.old) (S.faults shelf.new)) }
    ensures files { S.files shelf.new ≡ S.files shelf.old }
    ensures later { S.faults shelf.old ≤ S.faults shelf.new }
{
    let model = read_input(alloc, keys, shelf, name)?;
    fits_with(alloc, keys, parities, &model)?;
    Ok(model)
}

// What is found of a text, where that is the second one.
fn of_second(problem: Problem) -> Problem
    ensures { result ≡ second_problem problem }
{
    match problem {
        Problem::Text { kind, place } => Problem::Second {
            found: TextProblem::Fault { kind, place },
        },
        Problem::Limit { quantity, count } => Problem::Second {
            found: TextProblem::Limit { quantity, count },
        },
        other => other,
    }
}

// The model of the second text.
fn read_second<S: Shelf>(
    alloc: Global,
    keys: NameKeys,
    shelf: &mut S,
    parities: Parities,
    name: &str,
) -> Result<RankedModel, Problem>
    ensures said { IfOk result (λ model. IfSome (S.files shelf.old) (λ told. Holds told name.now (λ text. IsSaid text model))) }
    ensures usable { IfOk result IsUsable }
    ensures few { IfOk result (λ model. wires_by parities model ≤ most_pins) }
    ensures cause { IfErr result (IsOfSecond (CauseBy (wires_by parities) name.now (S.files shelf.old) (S.faults shelf.old) (S.faults shelf.new))) }
    ensures files { S.files shelf.new ≡ S.files shelf.old }
    ensures later { S.faults shelf.old ≤ S.faults shelf.new }
{
    match read_fitting(alloc, keys, shelf, parities, name) {
        Ok(model) => Ok(model),
        Err(problem) => Err(of_second(problem)),
    }
}

/// Two models that are compared.
#[derive(Drop)]
pub(crate) struct Pair {
    pub(crate) model: RankedModel,
    pub(crate) other: RankedModel,
}

/// Reads the first text, and then the second one.
pub(crate) fn read_pair<S: Shelf>(
    alloc: Global,
    keys: NameKeys,
    shelf: &mut S,
    parities: Parities,
    first: &str,
    second: &str,
) -> Result<Pair, Problem>
    ensures read { IfOk result (λ pair. IfSome (S.files shelf.old) (AreRead (wires_by parities) first.now second.now pair.model pair.other)) }
    ensures usable { IfOk result (λ pair. IsUsable pair.model) }
    ensures second_usable { IfOk result (λ pair. IsUsable pair.other) }
    ensures few { IfOk result (λ pair. wires_by parities pair.model ≤ most_pins) }
    ensures second_few { IfOk result (λ pair. wires_by parities pair.other ≤ most_pins) }
    ensures cause { IfErr result (Caused (PairFinds (wires_by parities) first.now second.now (S.files shelf.old)) (S.faults shelf.old) (S.faults shelf.new)) }
    ensures files { S.files shelf.new ≡ S.files shelf.old }
    ensures later { S.faults shelf.old ≤ S.faults shelf.new }
{
    reads_once();
    let model = read_fitting(alloc, keys, shelf, parities, first)?;
    let other = read_second(alloc, keys, shelf, parities, second)?;
    Ok(Pair { model, other })
}
