// The covers, drawn in order.
ghost use Rattle.std.specs.Prelude.{◌≡◌, ◌+◌, ◌<◌, ℕ, IfOk, OnOk, map, true, ◌++◌, ◌∷◌, []};
ghost use Rattle.demo_generator.specs.Draws.{after, drawn};
ghost use Rattle.demo_generator.specs.Generator.{cover_at, covers_from, literal as literal_of, row_at, signal};

use crate::draws::Draws;
use crate::names::signal_name;
use rm_base::NoMemory;
use rm_model::{Cover, Listed, Literal, Name, Row};
use std::alloc::Global;

fn draw_inputs(alloc: Global, draws: &mut Draws, below: u64) -> Result<Listed<Name>, NoMemory>
    requires { 0 < below }
    ensures inputs { IfOk result (λ names. names ≡ map signal (drawn 3 below draws.old.state)) }
    ensures state { OnOk result (draws.new.state ≡ after 3 draws.old.state) }
{
    let mut inputs = Listed::new(alloc);
    for _pin in 0..3u32 {
        inputs.push(signal_name(alloc, draws.draw(below))?)?;
    }
    Ok(inputs)
}

fn literal(number: u64) -> Literal
    ensures { result ≡ literal_of number }
{
    match number {
        0 => Literal::Zero,
        1 => Literal::One,
        _ => Literal::Any,
    }
}

fn draw_row(alloc: Global, draws: &mut Draws) -> Result<Row, NoMemory>
    ensures row { IfOk result (λ row. row ≡ row_at draws.old.state) }
    ensures state { OnOk result (draws.new.state ≡ after 3 draws.old.state) }
{
    let mut row = Listed::new(alloc);
    for _pin in 0..3u32 {
        row.push(literal(draws.draw(3)))?;
    }
    Ok(row)
}

fn draw_rows(alloc: Global, draws: &mut Draws) -> Result<Listed<Row>, NoMemory>
    ensures rows { IfOk result (λ rows. rows ≡ row_at draws.old.state ∷ row_at (after 3 draws.old.state) ∷ []) }
    ensures state { OnOk result (draws.new.state ≡ after 6 draws.old.state) }
{
    let mut rows = Listed::new(alloc);
    rows.push(draw_row(alloc, draws)?)?;
    rows.push(draw_row(alloc, draws)?)?;
    Ok(rows)
}

fn draw_cover(alloc: Global, draws: &mut Draws, number: u64) -> Result<Cover, NoMemory>
    requires { number < 60 }
    ensures cover { IfOk result (λ c. c ≡ cover_at number draws.old.state) }
    ensures state { OnOk result (draws.new.state ≡ after 9 draws.old.state) }
{
    let inputs = draw_inputs(alloc, draws, 16 + number)?;
    let rows = draw_rows(alloc, draws)?;
    let output = signal_name(alloc, 16 + number)?;
    Ok(Cover {
        inputs,
        output,
        on: true,
        rows,
    })
}

pub(crate) fn draw_covers(alloc: Global, seed: u64) -> Result<Listed<Cover>, NoMemory>
    ensures { IfOk result (λ covers. covers ≡ covers_from 60 0 seed) }
{
    let mut draws = Draws { state: seed };
    let mut covers = Listed::new(alloc);
    for number in 0..60u64 {
        covers.push(draw_cover(alloc, &mut draws, number)?)?;
    }
    Ok(covers)
}
