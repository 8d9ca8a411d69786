// Vectors that were found to detect faults of a net. A fault that one of them detects is never refuted, so it isn't learned about.
ghost use Rattle.std.specs.Prelude.{◌≡◌, ◌<◌, ℕ, Bool, IfOk, IfSome, OnOk, IsTrue, length, map};
ghost use Rattle.gate_graph.specs.Circuit.{net_of};
ghost use Rattle.gate_net.specs.Faults.{IsTest};
ghost use Rattle.gate_net.specs.Net.{Net, source_count};
ghost use Rattle.gate_net.specs.Values.{Detects};
ghost use Rattle.fault_sim.specs.BlockStates.{AreSimulated};
ghost use Rattle.fault_sim.specs.LaneStates.{Fits};
ghost use Rattle.fault_sim.specs.Words.{lane as lane_of};
ghost use Rattle.care_opt.specs.Inner.Kept.{AreKept};

use candidate_vectors::completed_words;
use fault_sim::{Blocks, Lanes};
use gate_graph::{Graph, Question};
use refutation::FactSet;
use rm_base::{NoMemory, Vector};
use std::alloc::Global;

// At most so many blocks of 64 vectors are kept.
const MOST_BLOCKS: usize = 64;

/// Blocks of 64 vectors that are simulated for one net.
#[derive(Drop)]
pub(crate) struct Vectors {
    blocks: Blocks,
    // A word of each block for each source, of which the blocks are made for the next net.
    words: Vec<Vec<u64>>,
}

// Keeps a block, where it has a word for each source.
fn keep_block(
    alloc: Global,
    graph: &Graph,
    words: &[u64],
    blocks: &mut Blocks,
) -> Result<(), NoMemory>
    requires simulated { AreSimulated blocks.old (net_of graph.now) }
    ensures simulated { AreSimulated blocks.new (net_of graph.now) }
{
    graph.well_formed();
    if words.len() != graph.source_count() as usize {
        return Ok(());
    }
    if blocks.count() >= MOST_BLOCKS {
        return Ok(());
    }
    blocks.keep64(alloc, graph, words)
}

// Keeps blocks of words.
fn keep_all(
    alloc: Global,
    graph: &Graph,
    found: &[Vec<u64>],
    blocks: &mut Blocks,
) -> Result<(), NoMemory>
    requires simulated { AreSimulated blocks.old (net_of graph.now) }
    ensures simulated { AreSimulated blocks.new (net_of graph.now) }
{
    for words in found {
        keep_block(alloc, graph, words.as_slice(), blocks)?;
    }
    Ok(())
}

// Blocks of words for a net.
fn blocks_for(alloc: Global, graph: &Graph, words: &[Vec<u64>]) -> Result<Blocks, NoMemory>
    ensures { IfOk result (λ b. AreSimulated b (net_of graph.now)) }
{
    let mut blocks = Blocks::new(alloc, graph)?;
    keep_all(alloc, graph, words, &mut blocks)?;
    Ok(blocks)
}

// Whether the lane of the word is set.
fn has_lane(word: u64, lane: u32) -> bool
    requires { lane < 64 }
    ensures { result ≡ lane_of lane word }
{
    (word >> lane) & 1 == 1
}

// The vector in a lane of the words.
fn vector_in(alloc: Global, words: &[u64], lane: u32) -> Result<Vector, NoMemory>
    requires { lane < 64 }
    ensures { IfOk result (λ v. v ≡ map (lane_of lane) words.now) }
{
    let mut values = Vec::with_capacity(alloc, words.len())?;
    for word in words {
        values.push(has_lane(*word, lane))?;
    }
    Ok(Vector::of(values))
}

// A vector among the 64 of these words that detects the fault.
fn test_among(
    alloc: Global,
    question: &Question<'_>,
    words: &[u64],
    lanes: &mut Lanes,
) -> Result<Option<Vector>, NoMemory>
    requires size { length words.now ≡ source_count (net_of question.now.graph.now) }
    requires fits { Fits lanes.old (net_of question.now.graph.now) }
    ensures test { IfOk result (λ found. IfSome found (IsTest (net_of question.now.graph.now) question.now.fault)) }
    ensures fits { (net : Net) → Fits lanes.old net → Fits lanes.new net }
{
    lanes.simulate64(question.graph, words);
    let Some(lane) = lanes.first_detecting(question) else {
        return Ok(None);
    };
    let vector = vector_in(alloc, words, lane)?;
    Ok(Some(vector))
}

impl Vectors {
    /// None is kept yet.
    pub(crate) fn none(alloc: Global, graph: &Graph) -> Result<Vectors, NoMemory>
        ensures { IfOk result (λ v. AreKept v (net_of graph.now)) }
    {
        Ok(Vectors {
            blocks: Blocks::new(alloc, graph)?,
            words: Vec::new(alloc),
        })
    }

    /// Simulates them for a net.
    pub(crate) fn fit(&mut self, alloc: Global, graph: &Graph) -> Result<(), NoMemory>
        ensures { OnOk result (AreKept self.new (net_of graph.now)) }
    {
        let blocks = blocks_for(alloc, graph, self.words.as_slice())?;
        self.blocks = blocks;
        Ok(())
    }

    /// Whether one of them detects the fault.
    pub(crate) fn detect(&mut self, question: &Question<'_>) -> bool
        requires kept { AreKept self.old (net_of question.now.graph.now) }
        ensures detected { IsTrue result → (a : ℕ → Bool) × Detects (net_of question.now.graph.now) question.now.fault a }
        ensures kept { AreKept self.new (net_of question.now.graph.now) }
    {
        match self.blocks.detects_any(question) {
            Some(_vector) => true,
            None => false,
        }
    }

    // Keeps a block of words, as long as there is room.
    fn keep(&mut self, alloc: Global, graph: &Graph, words: Vec<u64>) -> Result<(), NoMemory>
        requires kept { AreKept self.old (net_of graph.now) }
        ensures kept { AreKept self.new (net_of graph.now) }
    {
        if self.words.len() >= MOST_BLOCKS {
            return Ok(());
        }
        keep_block(alloc, graph, words.as_slice(), &mut self.blocks)?;
        self.words.push(words)?;
        Ok(())
    }

    /// Whether one of 64 vectors that complete the facts detects the fault. They are kept then.
    pub(crate) fn complete(
        &mut self,
        alloc: Global,
        question: &Question<'_>,
        facts: &FactSet,
    ) -> Result<bool, NoMemory>
        requires kept { AreKept self.old (net_of question.now.graph.now) }
        ensures detected { IfOk result (λ found. IsTrue found → (a : ℕ → Bool) × Detects (net_of question.now.graph.now) question.now.fault a) }
        ensures kept { AreKept self.new (net_of question.now.graph.now) }
    {
        let words = completed_words(alloc, question.graph, facts)?;
        let mut lanes = Lanes::new(alloc, question.graph)?;
        lanes.simulate64(question.graph, words.as_slice());
        let Some(_lane) = lanes.first_detecting(question) else {
            return Ok(false);
        };
        self.keep(alloc, question.graph, words)?;
        Ok(true)
    }

    /// One of them that detects the fault.
    pub(crate) fn test_of(
        &mut self,
        alloc: Global,
        question: &Question<'_>,
        lanes: &mut Lanes,
    ) -> Result<Option<Vector>, NoMemory>
        requires kept { AreKept self.old (net_of question.now.graph.now) }
        requires fits { Fits lanes.old (net_of question.now.graph.now) }
        ensures test { IfOk result (λ found. IfSome found (IsTest (net_of question.now.graph.now) question.now.fault)) }
        ensures kept { AreKept self.new (net_of question.now.graph.now) }
        ensures fits { (net : Net) → Fits lanes.old net → Fits lanes.new net }
    {
        question.graph.well_formed();
        let Some(at) = self.blocks.detects_any(question) else {
            return Ok(None);
        };
        let Some(words) = self.words.as_slice().get(at / 64) else {
            return Ok(None);
        };
        if words.len() != question.graph.source_count() as usize {
            return Ok(None);
        }
        test_among(alloc, question, words.as_slice(), lanes)
    }
}
