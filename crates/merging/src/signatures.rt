//! Signatures: the values of the nodes under the vectors of some blocks, 64 to a word.

use crate::drawing::{block_count, drawn_words};
use gate_graph::Graph;
use gate_net::Family;
use rm_base::{FIRST_SOURCE, NoMemory, NodeId};
use std::alloc::Global;

/// For each block the words of all nodes, by number. A merge of nodes that agree leaves them as they are, for all other nodes.
#[derive(Drop)]
pub(crate) struct Signatures {
    blocks: Vec<Vec<u64>>,
}

// The word of a number; 0 where there is none.
fn word_of(words: &[u64], number: u32) -> u64 {
    match words.get(number as usize) {
        Some(word) => *word,
        None => 0,
    }
}

// All lanes with this value.
fn spread(value: bool) -> u64 {
    if value { u64::MAX } else { 0 }
}

// The word of an And or an Or, by those of its drivers.
fn junction_word(graph: &Graph, gate: NodeId, words: &[u64], controlling: bool) -> u64 {
    let Some(_kind) = graph.kind(gate) else {
        return 0;
    };
    // An And is the opposite of the Or of opposites.
    let mask = spread(!controlling);
    let mut sum = 0u64;
    for driver in graph.inputs_of(gate) {
        sum |= word_of(words, driver.0) ^ mask;
    }
    sum ^ mask
}

// The word of a Not or an Xor, by those of its drivers.
fn parity_word(graph: &Graph, gate: NodeId, words: &[u64], inverts: bool) -> u64 {
    let Some(_kind) = graph.kind(gate) else {
        return 0;
    };
    let mut sum = spread(inverts);
    for driver in graph.inputs_of(gate) {
        sum ^= word_of(words, driver.0);
    }
    sum
}

// The word of a node by what it is and reads.
fn node_word(graph: &Graph, node: NodeId, words: &[u64], sources: &[u64]) -> u64 {
    let Some(kind) = graph.kind(node) else {
        return 0;
    };
    match kind.family() {
        Family::Input => word_of(sources, node.0.wrapping_sub(FIRST_SOURCE)),
        Family::Constant { value } => spread(value),
        Family::Junction { controlling } => junction_word(graph, node, words, controlling),
        Family::Parity { inverts } => parity_word(graph, node, words, inverts),
    }
}

// The words of all nodes by those of the sources; the order has the drivers before their readers.
fn simulate(
    alloc: Global,
    graph: &Graph,
    order: &[NodeId],
    sources: &[u64],
) -> Result<Vec<u64>, NoMemory> {
    let mut words = vec![in alloc; 0u64; graph.node_bound() as usize]?;
    for node in order {
        let word = node_word(graph, *node, words.as_slice(), sources);
        let number = node.0 as usize;
        if number < words.len() {
            words[number] = word;
        }
    }
    Ok(words)
}

// A hash of words with one word more (by a multiplication and a shift, as splitmix64 mixes).
fn mixed(sum: u64, word: u64) -> u64 {
    let one = (sum ^ word).wrapping_mul(0xbf58_476d_1ce4_e5b9);
    one ^ (one >> 31)
}

impl Signatures {
    /// Under drawn vectors.
    pub(crate) fn draw(
        alloc: Global,
        graph: &Graph,
        order: &[NodeId],
    ) -> Result<Signatures, NoMemory> {
        let mut blocks = Vec::new(alloc);
        let sources = graph.source_count() as usize;
        for number in 0..block_count(sources) {
            let words = drawn_words(alloc, sources, number)?;
            blocks.push(simulate(alloc, graph, order, words.as_slice())?)?;
        }
        Ok(Signatures { blocks })
    }

    /// Adds a block with these words of the sources.
    pub(crate) fn add(
        &mut self,
        alloc: Global,
        graph: &Graph,
        order: &[NodeId],
        sources: &[u64],
    ) -> Result<(), NoMemory> {
        self.blocks.push(simulate(alloc, graph, order, sources)?)?;
        Ok(())
    }

    // With what the words of a node are taken: as they are, or all opposite where its value in the first lane is 1.
    fn mask(&self, node: NodeId) -> u64 {
        match self.blocks.first() {
            Some(words) => (word_of(words.as_slice(), node.0) & 1).wrapping_neg(),
            None => 0,
        }
    }

    /// A number that nodes share which agree or are opposite under all vectors.
    pub(crate) fn hash(&self, node: NodeId) -> u64 {
        let mask = self.mask(node);
        let mut sum = 0u64;
        for words in self.blocks.iter() {
            sum = mixed(sum, word_of(words.as_slice(), node.0) ^ mask);
        }
        sum
    }

    /// Whether two nodes differ under each vector, where they do so or agree under each.
    pub(crate) fn are_opposite(&self, one: NodeId, other: NodeId) -> Option<bool> {
        let mask = self.mask(one) ^ self.mask(other);
        for words in self.blocks.iter() {
            if word_of(words.as_slice(), one.0) ^ word_of(words.as_slice(), other.0) != mask {
                return None;
            }
        }
        Some(mask != 0)
    }
}
