//! Vectors that are drawn, the same each time.
ghost use Rattle.std.specs.Prelude.{◌≡◌, IfOk, length};

use rm_base::{NoMemory, Vector};
use std::alloc::Global;

// The next number (splitmix64: Steele, Lea and Flood 2014).
fn draw(state: &mut u64) -> u64 {
    *state = state.wrapping_add(0x9e37_79b9_7f4a_7c15);
    let first = (*state ^ (*state >> 30)).wrapping_mul(0xbf58_476d_1ce4_e5b9);
    let second = (first ^ (first >> 27)).wrapping_mul(0x94d0_49bb_1331_11eb);
    second ^ (second >> 31)
}

// The next word of a source in a block: in every fourth block an eighth of the values is 1, and in every fourth an eighth is 0,
// since a wide gate is told apart by vectors that give nearly all its pins one value.
fn draw_word(state: &mut u64, block: usize) -> u64 {
    let even = draw(state);
    match block % 4 {
        2 => even | draw(state) | draw(state),
        3 => even & draw(state) & draw(state),
        _ => even,
    }
}

// The word of a source where the blocks go through all assignments: a source below 6 has a pattern of lanes, and the others have
// the bits of the block's number.
fn counted_word(source: usize, block: usize) -> u64 {
    match source {
        0 => 0xaaaa_aaaa_aaaa_aaaa,
        1 => 0xcccc_cccc_cccc_cccc,
        2 => 0xf0f0_f0f0_f0f0_f0f0,
        3 => 0xff00_ff00_ff00_ff00,
        4 => 0xffff_0000_ffff_0000,
        5 => 0xffff_ffff_0000_0000,
        6 => bit_word(block, 1),
        7 => bit_word(block, 2),
        8 => bit_word(block, 4),
        _ => bit_word(block, 8),
    }
}

// All lanes, where the bit is set.
fn bit_word(block: usize, bit: usize) -> u64 {
    if block & bit == 0 { 0 } else { u64::MAX }
}

/// How many blocks of 64 vectors there are for so many sources: all assignments of up to ten, or else drawn ones.
pub fn block_count(sources: usize) -> usize {
    match sources {
        0..=6 => 1,
        7 => 2,
        8 => 4,
        9 => 8,
        _ => 16,
    }
}

fn counted_words(alloc: Global, count: usize, block: usize) -> Result<Vec<u64>, NoMemory>
    ensures { IfOk result (λ v. length v.items ≡ count) }
{
    let mut words = vec![in alloc; 0u64; count]?;
    for source in 0..count {
        words[source] = counted_word(source, block);
    }
    Ok(words)
}

/// The words of a block for so many sources, the same each time: lane i of a source's word is its value in vector i.
pub fn drawn_words(alloc: Global, count: usize, block: usize) -> Result<Vec<u64>, NoMemory>
    ensures { IfOk result (λ v. length v.items ≡ count) }
{
    if count <= 10 {
        return counted_words(alloc, count, block);
    }
    let mut words = vec![in alloc; 0u64; count]?;
    let mut state = (block as u64).wrapping_mul(0xd134_2543_de82_ef95);
    for word in words.iter_mut() {
        *word = draw_word(&mut state, block);
    }
    Ok(words)
}

// The values that vectors give a source, one lane for each.
fn word_at(vectors: &[Vector], source: usize) -> u64 {
    let mut word = 0u64;
    for vector in vectors {
        word = word << 1;
        if let Some(value) = vector.values().get(source) {
            word |= u64::from(*value);
        }
    }
    word
}

/// The words of a block of up to 64 vectors. Where there are fewer, the other lanes have zeros.
pub(crate) fn found_words(
    alloc: Global,
    count: usize,
    vectors: &[Vector],
) -> Result<Vec<u64>, NoMemory> {
    let mut words = Vec::new(alloc);
    for source in 0..count {
        words.push(word_at(vectors, source))?;
    }
    Ok(words)
}
