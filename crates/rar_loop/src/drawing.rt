//! Vectors that are drawn; where the sources are few, all assignments.
ghost use Rattle.std.specs.Prelude.{◌≡◌, IfOk, length};

use rm_base::{NoMemory, Vector};
use std::alloc::Global;

// The next number (splitmix64: Steele, Lea and Flood 2014).
fn draw(state: &mut u64) -> u64 {
    *state = state.wrapping_add(0x9e37_79b9_7f4a_7c15);
    let first = (*state ^ (*state >> 30)).wrapping_mul(0xbf58_476d_1ce4_e5b9);
    let second = (first ^ (first >> 27)).wrapping_mul(0x94d0_49bb_1331_11eb);
    second ^ (second >> 31)
}

// Lanes in which a source is 0 or 1 as often; lanes in which an eighth or a thirty-second of the sources is 0, and the
// lane in which none is; lanes in which as many are 1. In the last lane all are 0.
const EVEN: u64 = 0x0000_ffff_ffff_ffff;

const FEW_ZEROS: u64 = 0x000f_0000_0000_0000;

const FEWER_ZEROS: u64 = 0x0070_0000_0000_0000;

const ALL_ONES: u64 = 0x0080_0000_0000_0000;

const FEW_ONES: u64 = 0x0f00_0000_0000_0000;

const FEWER_ONES: u64 = 0x7000_0000_0000_0000;

// The next word of a source. A wide gate is tested by vectors that give nearly all its pins one value, which even draws
// seldom do.
fn draw_word(state: &mut u64) -> u64 {
    let even = draw(state);
    let few = draw(state) & draw(state) & draw(state);
    let fewer = few & draw(state) & draw(state);
    let mostly_ones = ((few ^ u64::MAX) & FEW_ZEROS)
        | ((fewer ^ u64::MAX) & FEWER_ZEROS)
        | ALL_ONES;
    let mostly_zeros = (few & FEW_ONES) | (fewer & FEWER_ONES);
    (even & EVEN) | mostly_ones | mostly_zeros
}

// The word of a source in a block where the blocks go through all assignments: a source below 6 has a pattern of lanes, and
// the others have the bits of the block's number.
fn counted_word(source: usize, block: usize) -> u64 {
    match source {
        0 => 0xaaaa_aaaa_aaaa_aaaa,
        1 => 0xcccc_cccc_cccc_cccc,
        2 => 0xf0f0_f0f0_f0f0_f0f0,
        3 => 0xff00_ff00_ff00_ff00,
        4 => 0xffff_0000_ffff_0000,
        5 => 0xffff_ffff_0000_0000,
        6 => bit_word(block, 1),
        7 => bit_word(block, 2),
        8 => bit_word(block, 4),
        _ => bit_word(block, 8),
    }
}

// All lanes, where the bit is set.
fn bit_word(block: usize, bit: usize) -> u64 {
    if block & bit == 0 { 0 } else { u64::MAX }
}

/// How many blocks of 64 vectors there are for so many sources: a drawn one, and all assignments of up to ten, or else
/// further drawn ones.
pub(crate) fn block_count(sources: usize) -> usize {
    match sources {
        0..=6 => 2,
        7 => 3,
        8 => 5,
        9 => 9,
        _ => 17,
    }
}

fn counted_words(alloc: Global, count: usize, block: usize) -> Result<Vec<u64>, NoMemory>
    ensures { IfOk result (λ v. length v.items ≡ count) }
{
    let mut words = vec![in alloc; 0u64; count]?;
    for source in 0..count {
        words[source] = counted_word(source, block);
    }
    Ok(words)
}

/// The words of a block for so many sources, the same each time. The first one is drawn in any case, as it serves alone
/// before a wire is tried.
pub(crate) fn drawn_words(alloc: Global, count: usize, block: usize) -> Result<Vec<u64>, NoMemory>
    ensures { IfOk result (λ v. length v.items ≡ count) }
{
    if block > 0 {
        if count <= 10 {
            return counted_words(alloc, count, block - 1);
        }
    }
    let mut words = vec![in alloc; 0u64; count]?;
    let mut state = (block as u64)
        .wrapping_mul(0xd134_2543_de82_ef95)
        .wrapping_add(1);
    for word in words.iter_mut() {
        *word = draw_word(&mut state);
    }
    Ok(words)
}

// The word of a source whose value in the vector is this: most lanes have it, and the first one does.
fn word_like(value: bool, state: &mut u64) -> u64 {
    let others = draw(state) & draw(state) & draw(state);
    let word = if value { u64::MAX } else { 0 };
    word ^ (others & (u64::MAX - 1))
}

/// The words of a block that has the vector in its first lane, and vectors that are like it in the others.
pub(crate) fn words_like(
    alloc: Global,
    vector: &Vector,
    number: usize,
) -> Result<Vec<u64>, NoMemory> {
    let mut words = Vec::with_capacity(alloc, vector.len())?;
    let mut state = (number as u64)
        .wrapping_mul(0xd134_2543_de82_ef95)
        .wrapping_add(1);
    for value in vector.values() {
        words.push(word_like(*value, &mut state))?;
    }
    Ok(words)
}
