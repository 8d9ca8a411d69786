// Vectors that complete what has to hold where a fault is detected.
ghost use Rattle.std.specs.Prelude.{◌≡◌, ◌<◌, ℕ, IfOk, IfSome, length, map};
ghost use Rattle.fault_sim.specs.LaneStates.{Fits};
ghost use Rattle.fault_sim.specs.Words.{lane as lane_of};
ghost use Rattle.gate_graph.specs.Circuit.{net_of};
ghost use Rattle.gate_net.specs.Faults.{IsTest};
ghost use Rattle.gate_net.specs.Net.{Net, source_count};

use crate::drawing::{SEED, draw};
use fault_sim::Lanes;
use gate_graph::{Graph, Question};
use refutation::{Fact, FactSet};
use rm_base::{FIRST_SOURCE, NoMemory, NodeId, Vector};
use std::alloc::Global;

// In the last lane a source is 1, in the one before it 0, and in the others as it is drawn.
const ONES: u64 = 0x8000_0000_0000_0000;

const ZEROS: u64 = 0x4000_0000_0000_0000;

// The word of a source: the good value that is held, if one is, and else what is drawn.
fn completed_word(facts: &FactSet, source: NodeId, drawn: u64) -> u64 {
    if source.0 as usize >= facts.len() {
        return drawn;
    }
    if facts.holds(source, Fact::Good(true)) {
        return u64::MAX;
    }
    if facts.holds(source, Fact::Good(false)) {
        return 0;
    }
    (drawn | ONES) & (ZEROS ^ u64::MAX)
}

/// A word for each source, with 64 vectors: it has the good value that the facts have of the source, if they have one, and
/// else drawn values, the same each time.
pub fn completed_words(alloc: Global, graph: &Graph, facts: &FactSet) -> Result<Vec<u64>, NoMemory>
    ensures { IfOk result (λ w. length w.items ≡ source_count (net_of graph.now)) }
{
    graph.well_formed();
    let count = graph.source_count();
    let mut words = vec![in alloc; 0u64; count as usize]?;
    let mut state = SEED;
    for k in 0..count {
        let drawn = draw(&mut state);
        words[k as usize] = completed_word(facts, NodeId(FIRST_SOURCE + k), drawn);
    }
    Ok(words)
}

// Whether the lane of the word is set.
fn has_lane(word: u64, lane: u32) -> bool
    requires { lane < 64 }
    ensures { result ≡ lane_of lane word }
{
    (word >> lane) & 1 == 1
}

// The vector in a lane of the words.
fn vector_in(alloc: Global, words: &[u64], lane: u32) -> Result<Vector, NoMemory>
    requires { lane < 64 }
    ensures { IfOk result (λ v. v ≡ map (lane_of lane) words.now) }
{
    let mut values = Vec::with_capacity(alloc, words.len())?;
    for word in words {
        values.push(has_lane(*word, lane))?;
    }
    Ok(Vector::of(values))
}

/// A vector that detects the fault, among 64 that give each source the good value that the facts have of it. Where lines
/// or learning lead to the facts, every vector that detects the fault has these values, so a wide gate needs no search.
pub fn complete(
    alloc: Global,
    question: &Question<'_>,
    facts: &FactSet,
    lanes: &mut Lanes,
) -> Result<Option<Vector>, NoMemory>
    requires fits { Fits lanes.old (net_of question.now.graph.now) }
    ensures test { IfOk result (λ found. IfSome found (IsTest (net_of question.now.graph.now) question.now.fault)) }
    ensures fits { (net : Net) → Fits lanes.old net → Fits lanes.new net }
{
    let words = completed_words(alloc, question.graph, facts)?;
    lanes.simulate64(question.graph, words.as_slice());
    let Some(lane) = lanes.first_detecting(question) else {
        return Ok(None);
    };
    let vector = vector_in(alloc, words.as_slice(), lane)?;
    Ok(Some(vector))
}
