// The number of wires of a decomposition, counted before it is made.
ghost use Rattle.std.specs.Prelude.{◌≡◌, ◌<◌, ◌≤◌, ◌+◌, ◌^◌, [], length, map, All, IfOk, replicate, false, slice_get};
ghost use Rattle.cover_decompose.specs.Count.{is_read as is_read_literal, joining as joining_wires, literal_count as count_of_literals};
ghost use Rattle.cover_decompose.specs.Inner.Tally.{AreEven, cover_tally, covers_tally, literal_tally, one_tally, row_tally, rows_tally, zeros_tally};

use crate::parity::parity_ending;
use rm_base::NoMemory;
use rm_model::{Cover, Literal, Row};
use std::alloc::Global;

fn is_read(literal: Literal) -> bool
    ensures { result ≡ is_read_literal literal }
{
    match literal {
        Literal::Any => false,
        Literal::Zero | Literal::One => true,
    }
}

fn literal_count(row: &[Literal]) -> usize
    ensures { result ≡ count_of_literals row.now }
{
    let mut count = 0;
    for literal in row {
        if is_read(*literal) {
            count += 1;
        }
    }
    count
}

fn wires_to_join(count: usize) -> u64
    ensures { result ≡ joining_wires count }
{
    if count < 2 { 0 } else { count as u64 }
}

// One for a signal that is read as 0 for the first time.
fn literal_wires(seen: &mut [bool], signal: usize, literal: Literal) -> u64
    requires { signal < length seen.old }
    ensures { (result, seen.new) ≡ literal_tally seen.old signal literal }
{
    match literal {
        Literal::Zero => {
            if seen[signal] {
                return 0;
            }
            seen[signal] = true;
            1
        }
        Literal::One | Literal::Any => 0,
    }
}

fn zero_wires(seen: &mut [bool], inputs: &[u32], row: &[Literal]) -> u64
    requires even { length row.now ≡ length inputs.now }
    requires within { All (λ k. k < length seen.old) inputs.now }
    requires fits { (zeros_tally seen.old inputs.now row.now).0 < 2 ^ 64 }
    ensures { (result, seen.new) ≡ zeros_tally seen.old inputs.now row.now }
{
    let mut wires = 0;
    for (at, literal) in row.iter().enumerate() {
        wires += literal_wires(seen, inputs[at] as usize, *literal);
    }
    wires
}

fn row_wires(seen: &mut [bool], inputs: &[u32], row: &[Literal]) -> u64
    requires even { length row.now ≡ length inputs.now }
    requires within { All (λ k. k < length seen.old) inputs.now }
    requires fits { (row_tally seen.old inputs.now row.now).0 < 2 ^ 64 }
    ensures { (result, seen.new) ≡ row_tally seen.old inputs.now row.now }
{
    let joined = wires_to_join(literal_count(row));
    joined + zero_wires(seen, inputs, row)
}

fn rows_wires(seen: &mut [bool], inputs: &[u32], rows: &[Row]) -> u64
    requires even { All (λ r. length r ≡ length inputs.now) rows.now }
    requires within { All (λ k. k < length seen.old) inputs.now }
    requires fits { (rows_tally seen.old inputs.now rows.now).0 < 2 ^ 64 }
    ensures { (result, seen.new) ≡ rows_tally seen.old inputs.now rows.now }
{
    let mut wires = 0;
    for row in rows {
        wires += row_wires(seen, inputs, row.items());
    }
    wires
}

fn cover_wires(seen: &mut [bool], inputs: &[u32], cover: &Cover) -> u64
    requires even { All (λ r. length r ≡ length inputs.now) cover.now.rows }
    requires within { All (λ k. k < length seen.old) inputs.now }
    requires fits { (cover_tally seen.old inputs.now cover.now).0 < 2 ^ 64 }
    ensures { (result, seen.new) ≡ cover_tally seen.old inputs.now cover.now }
{
    if let Some(ends) = parity_ending(cover) {
        return if ends { 2 } else { 3 };
    }
    let rows = rows_wires(seen, inputs, cover.rows.items());
    let sum = wires_to_join(cover.rows.len());
    let closing = if cover.on { 0 } else { 1 };
    rows + sum + closing
}

// The wires of the cover at a place.
fn wires_at(seen: &mut [bool], inputs: &[Vec<u32>], covers: &[Cover], place: usize) -> u64
    requires place { place < length covers.now }
    requires even { AreEven covers.now (map (λ ks. ks.items) inputs.now) }
    requires within { All (λ ks. All (λ k. k < length seen.old) ks.items) inputs.now }
    requires fits { (one_tally seen.old (slice_get (map (λ ks. ks.items) inputs.now) place) (slice_get covers.now place)).0 < 2 ^ 64 }
    ensures { (result, seen.new)
        ≡ one_tally seen.old (slice_get (map (λ ks. ks.items) inputs.now) place) (slice_get covers.now place) }
{
    cover_wires(seen, inputs[place].as_slice(), &covers[place])
}

fn sum_of_wires(seen: &mut [bool], inputs: &[Vec<u32>], covers: &[Cover], taken: &[usize]) -> u64
    requires places { All (λ i. i < length covers.now) taken.now }
    requires even { AreEven covers.now (map (λ ks. ks.items) inputs.now) }
    requires within { All (λ ks. All (λ k. k < length seen.old) ks.items) inputs.now }
    requires fits { (covers_tally seen.old (map (λ ks. ks.items) inputs.now) covers.now taken.now).0 < 2 ^ 64 }
    ensures { result ≡ (covers_tally seen.old (map (λ ks. ks.items) inputs.now) covers.now taken.now).0 }
{
    let mut wires = 0;
    for place in taken {
        wires += wires_at(seen, inputs, covers, *place);
    }
    wires
}

/// The wires of the covers at these places, over so many signals.
pub fn wires(
    alloc: Global,
    signals: usize,
    inputs: &[Vec<u32>],
    covers: &[Cover],
    taken: &[usize],
) -> Result<u64, NoMemory>
    requires places { All (λ i. i < length covers.now) taken.now }
    requires even { AreEven covers.now (map (λ ks. ks.items) inputs.now) }
    requires within { All (λ ks. All (λ k. k < signals) ks.items) inputs.now }
    requires fits { (covers_tally (replicate signals false) (map (λ ks. ks.items) inputs.now) covers.now taken.now).0 < 2 ^ 64 }
    ensures { IfOk result (λ n. n
        ≡ (covers_tally (replicate signals false) (map (λ ks. ks.items) inputs.now) covers.now taken.now).0) }
{
    let mut seen = Vec::new(alloc);
    seen.resize(signals, false)?;
    Ok(sum_of_wires(seen.as_mut_slice(), inputs, covers, taken))
}
