// How many wires the gates of a cover have.
ghost use Rattle.std.specs.Prelude.{◌≡◌, sum_by};
ghost use Rattle.cover_decompose.specs.Count.{cover_wires as wires_of_cover, is_read as is_read_literal, joining, literal_count as count_of_literals};
ghost use Rattle.window_cut.specs.Inner.Weights.{capped};

use cover_decompose::parity_ending;
use rm_model::{Cover, Literal, Row};

fn is_read(literal: Literal) -> bool
    ensures { result ≡ is_read_literal literal }
{
    match literal {
        Literal::Any => false,
        Literal::Zero | Literal::One => true,
    }
}

fn literal_count(row: &[Literal]) -> usize
    ensures { result ≡ count_of_literals row.now }
{
    let mut count = 0;
    for literal in row {
        if is_read(*literal) {
            count += 1;
        }
    }
    count
}

fn wires_to_join(count: usize) -> u64
    ensures { result ≡ joining count }
{
    if count < 2 { 0 } else { count as u64 }
}

fn rows_wires(rows: &[Row]) -> u64
    ensures { result ≡ capped (sum_by (λ row. joining (count_of_literals row)) rows.now) }
{
    let mut wires = 0u64;
    for row in rows {
        wires = wires.saturating_add(wires_to_join(literal_count(row.items())));
    }
    wires
}

/// The wires of the gates of a cover, or the greatest word where they are more.
pub fn cover_wires(cover: &Cover) -> u64
    ensures { result ≡ capped (wires_of_cover cover.now) }
{
    if let Some(ends) = parity_ending(cover) {
        return if ends { 2 } else { 3 };
    }
    let rows = cover.rows.items();
    let wires = rows_wires(rows).saturating_add(wires_to_join(rows.len()));
    if cover.on {
        wires
    } else {
        wires.saturating_add(1)
    }
}
