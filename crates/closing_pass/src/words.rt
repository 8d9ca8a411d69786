// Vectors as words: a word for each source, with a bit for each vector.
ghost use Rattle.std.specs.Prelude.{◌≡◌, ◌≤◌, ◌<◌, ◌^◌, ℕ, Bool, List, IfOk, Some, bit_or, false, if◌then◌else◌, length, map, slice_get, slice_index_or};
ghost use Rattle.fault_sim.specs.Words.{lane};
ghost use Rattle.closing_pass.specs.Inner.Blocks.{AreBlocksOf};
ghost use Rattle.closing_pass.specs.Inner.Findings.{AreLong, ArePacked};

use rm_base::{NoMemory, SourceNo, Vector};
use std::alloc::Global;

// The word with the bit at a place that is 0, or with a 1 there.
fn with_bit(word: u64, place: usize, value: bool) -> u64
    requires { place < 64 }
    ensures { result ≡ (if value then bit_or word (2 ^ place) else word) }
{
    if value { word | 1u64 << place } else { word }
}

// The word of one source: bit i is its value in vector i, and all further bits are 0.
fn word_of(vectors: &[Vector], source: SourceNo, sources: u32) -> u64
    requires few { length vectors.now ≤ 64 }
    requires long { AreLong vectors.now sources }
    requires source { source.0 < sources }
    ensures { (i : ℕ) (v : List Bool) → slice_get vectors.now i ≡ Some v → lane i result ≡ slice_index_or v source.0 false }
{
    let mut word = 0u64;
    for place in 0..vectors.len() {
        let value = vectors[place].get(source);
        word = with_bit(word, place, value);
    }
    word
}

/// A word for each source, in order: bit i is its value in vector i.
pub(crate) fn words_of(
    alloc: Global,
    vectors: &[Vector],
    sources: u32,
) -> Result<Vec<u64>, NoMemory>
    requires few { length vectors.now ≤ 64 }
    requires long { AreLong vectors.now sources }
    ensures size { IfOk result (λ w. length w.items ≡ sources) }
    ensures packed { IfOk result (λ w. ArePacked vectors.now w.items) }
{
    let mut words = Vec::with_capacity(alloc, sources as usize)?;
    for source in 0..sources {
        words.push(word_of(vectors, SourceNo(source), sources))?;
    }
    Ok(words)
}

/// Blocks of words for all vectors, in order.
pub(crate) fn blocks_of(
    alloc: Global,
    vectors: &[Vector],
    sources: u32,
) -> Result<Vec<Vec<u64>>, NoMemory>
    requires long { AreLong vectors.now sources }
    ensures { IfOk result (λ b. AreBlocksOf vectors.now (map (λ w. w.items) b.items)) }
{
    let mut blocks = Vec::new(alloc);
    let mut rest = vectors;
    while rest.len() > 0 {
        let (block, others) = rest.split_at(rest.len().min(64));
        blocks.push(words_of(alloc, block, sources)?)?;
        rest = others;
    }
    Ok(blocks)
}
