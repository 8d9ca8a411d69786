// The value of a cover.
ghost use Rattle.std.specs.Prelude.{◌≡◌, IfOk, map, length, All, ℕ};
ghost use Rattle.std.specs.List.{list_any};
ghost use Rattle.rm_model.specs.Value.{literal_holds, row_matches as matches_row, value_of};

use crate::parts::{Cover, Literal, Row};

fn meets(literal: Literal, value: bool) -> bool
    ensures { result ≡ literal_holds literal value }
{
    match literal {
        Literal::Zero => !value,
        Literal::One => value,
        Literal::Any => true,
    }
}

fn row_matches(row: &[Literal], values: &[bool]) -> bool
    ensures { result ≡ matches_row row.now values.now }
{
    row.iter()
        .zip(values)
        .all(|(literal, value)| meets(*literal, *value))
}

fn any_row_matches(rows: &[Row], values: &[bool]) -> bool
    ensures { result ≡ list_any (λ row. matches_row row values.now) rows.now }
{
    rows.iter().any(|row| row_matches(row.items(), values))
}

/// The value of a cover's output where its inputs have these values, in order: with rows that end
/// in `1`, whether some row matches; with rows that end in `0`, whether none does; without rows,
/// false. It takes no memory.
pub fn cover_value(cover: &Cover, values: &[bool]) -> bool
    requires places { length values.now ≡ length cover.now.inputs }
    requires rows { All (λ r. length r ≡ length cover.now.inputs) cover.now.rows }
    ensures { result ≡ value_of cover.now values.now }
{
    let rows = cover.rows.items();
    if rows.is_empty() {
        return false;
    }
    if any_row_matches(rows, values) {
        cover.on
    } else {
        !cover.on
    }
}
