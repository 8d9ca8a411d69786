// Vectors that are drawn, the same each time.
ghost use Rattle.std.specs.Prelude.{◌≡◌, IfOk, length};
ghost use Rattle.gate_graph.specs.Circuit.{net_of};
ghost use Rattle.candidate_vectors.specs.Vectors.{HaveValues};

use gate_graph::Graph;
use rm_base::{NoMemory, Vector};
use std::alloc::Global;

/// Where drawing begins.
pub(crate) const SEED: u64 = 0x9e37_79b9_7f4a_7c15;

/// The next number (xorshift: Marsaglia 2003).
pub(crate) fn draw(state: &mut u64) -> u64 {
    *state ^= *state << 13;
    *state ^= *state >> 7;
    *state ^= *state << 17;
    *state
}

// The next value in the vector of a number: every fourth vector has an eighth of zeros, and every fourth an eighth of ones,
// since a wide gate is tested by vectors that give nearly all its pins one value; the others have as many of each.
fn draw_value(state: &mut u64, number: u32) -> bool {
    let drawn = draw(state) >> 32;
    match number % 4 {
        0 => drawn & 7 == 0,
        1 => drawn & 7 != 0,
        _ => drawn & 1 == 0,
    }
}

fn drawn_vector(
    alloc: Global,
    sources: u32,
    number: u32,
    state: &mut u64,
) -> Result<Vector, NoMemory>
    ensures { IfOk result (λ v. length v ≡ sources) }
{
    let mut values = vec![in alloc; false; sources as usize]?;
    for value in values.iter_mut() {
        *value = draw_value(state, number);
    }
    Ok(Vector::of(values))
}

// Where a netlist has fewer wires, its searches cost little, and none is spared them.
const FEW_WIRES: u32 = 256;

const COUNT: u32 = 256;

/// Vectors that detect most of the faults of a larger netlist, so that few are left to the searches; none for a small one.
pub fn drawn_vectors(alloc: Global, graph: &Graph) -> Result<Vec<Vector>, NoMemory>
    ensures { IfOk result (λ v. HaveValues (net_of graph.now) v.items) }
{
    let mut vectors = Vec::new(alloc);
    if graph.wire_count() < FEW_WIRES {
        return Ok(vectors);
    }
    let mut state = SEED;
    for number in 0..COUNT {
        let vector = drawn_vector(alloc, graph.source_count(), number, &mut state)?;
        vectors.push(vector)?;
    }
    Ok(vectors)
}
