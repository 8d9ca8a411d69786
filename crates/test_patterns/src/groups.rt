// Vectors as words: a word for each source, with a bit for each vector of a group.
ghost use Rattle.std.specs.Prelude.{◌≡◌, ◌<◌, IfOk, IsTrue, length, map};
ghost use Rattle.test_patterns.specs.Inner.Groups.{IsLaneOf, bit_word};

use rm_base::{NoMemory, Vector};
use std::alloc::Global;

// Puts the vector into the first lane.
fn fill(words: &mut Vec<u64>, vector: &[bool])
    requires { length words.old.items ≡ length vector.now }
    ensures { words.new.items ≡ map bit_word vector.now }
{
    for at in 0..words.len() {
        words[at] = u64::from(vector[at]);
    }
}

/// The words of one vector, which stands in the first lane.
pub(crate) fn words_alone(alloc: Global, vector: &[bool]) -> Result<Vec<u64>, NoMemory>
    ensures { IfOk result (λ w. w.items ≡ map bit_word vector.now) }
{
    let mut words = vec![in alloc; 0u64; vector.len()]?;
    fill(&mut words, vector);
    Ok(words)
}

/// Whether the vector stands in that lane of the words.
pub(crate) fn is_in_lane(words: &[u64], lane: u32, vector: &[bool]) -> bool
    requires { lane < 64 }
    ensures { IsTrue result → IsLaneOf words.now lane vector.now }
{
    if words.len() != vector.len() {
        return false;
    }
    for at in 0..words.len() {
        if ((words[at] >> lane) & 1 == 1) != vector[at] {
            return false;
        }
    }
    true
}

// Puts a vector into a lane of the words.
fn add_lane(words: &mut Vec<u64>, lane: u32, vector: &[bool])
    requires { lane < 64 }
    ensures { length words.new.items ≡ length words.old.items }
{
    for at in 0..words.len() {
        if let Some(true) = vector.get(at).copied() {
            words[at] |= 1u64 << lane;
        }
    }
}

/// The words of the vectors of these numbers, of which the first 64 stand in the lanes.
pub(crate) fn words_of(
    alloc: Global,
    vectors: &[Vector],
    group: &[usize],
    sources: u32,
) -> Result<Vec<u64>, NoMemory>
    ensures { IfOk result (λ w. length w.items ≡ sources) }
{
    let mut words = vec![in alloc; 0u64; sources as usize]?;
    for lane in 0..64u32 {
        if let Some(number) = group.get(lane as usize).copied() {
            if let Some(vector) = vectors.get(number) {
                add_lane(&mut words, lane, vector.values());
            }
        }
    }
    Ok(words)
}
