// Parity covers, which are decomposed as an Xor of their inputs.
ghost use Rattle.std.specs.Prelude.{◌≡◌};
ghost use Rattle.cover_decompose.specs.Parity.{are_two as are_two_names, differ_in as differ_in_pair, differ_in_rows as differ_in_all, is_opposed as is_opposed_literal, parity_ending as ending_of};

use rm_model::{Cover, Literal, Name, Row};

fn is_opposed(one: Literal, other: Literal) -> bool
    ensures { result ≡ is_opposed_literal one other }
{
    match one {
        Literal::Zero => matches!(other, Literal::One),
        Literal::One => matches!(other, Literal::Zero),
        Literal::Any => false,
    }
}

// For opposed rows of two literals, whether the literals of each are opposed too.
fn differ_in(first: &[Literal], second: &[Literal]) -> Option<bool>
    ensures { result ≡ differ_in_pair first.now second.now }
{
    let [a, b] = first else {
        return None;
    };
    let [c, d] = second else {
        return None;
    };
    if is_opposed(*a, *c) && is_opposed(*b, *d) {
        return Some(is_opposed(*a, *b));
    }
    None
}

fn differ_in_rows(rows: &[Row]) -> Option<bool>
    ensures { result ≡ differ_in_all rows.now }
{
    let [first, second] = rows else {
        return None;
    };
    differ_in(first.items(), second.items())
}

fn are_two(names: &[Name]) -> bool
    ensures { result ≡ are_two_names names.now }
{
    match names {
        [one, other] => one.items() != other.items(),
        _ => false,
    }
}

/// For a parity cover, the ending of the Xor of its inputs: 1 where it is the cover's value. Names are compared only where
/// the rows are those of a parity cover.
pub fn parity_ending(cover: &Cover) -> Option<bool>
    ensures { result ≡ ending_of cover.now }
{
    let differ = differ_in_rows(cover.rows.items())?;
    if !are_two(cover.inputs.items()) {
        return None;
    }
    Some(if differ { cover.on } else { !cover.on })
}
