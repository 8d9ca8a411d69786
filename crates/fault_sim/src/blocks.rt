// Blocks of 64 vectors, which are kept for a net.
ghost use Rattle.std.specs.Prelude.{◌≡◌, ◌<◌, ◌≤◌, ◌++◌, ◌∷◌, [], ℕ, IfOk, IsTrue, None, OnErr, OnOk, Some, length, map, slice_get};
ghost use Rattle.gate_net.specs.Net.{source_count};
ghost use Rattle.gate_graph.specs.Circuit.{net_of};
ghost use Rattle.fault_sim.specs.Ordered.{IsOrdered};
ghost use Rattle.fault_sim.specs.Inner.Simulating.{IsWithin};
ghost use Rattle.fault_sim.specs.Following.{CanAllFollow, IsGrown, WasGoodBlock};
ghost use Rattle.fault_sim.specs.Inner.Following.{AreFollowed, AreGrown};
ghost use Rattle.fault_sim.specs.BlockStates.{AreSimulated, DetectsInBlock, IsFirstVector, IsSimulatedBlock};
ghost use Rattle.fault_sim.specs.Inner.BlockStates.{ArePlaced, IsFirstLane, words_of};

use crate::detecting::found_by;
use crate::following::catch_up;
use crate::listing::{Listing, list_in_order};
use crate::making::{grow_words, zero_words};
use crate::pending::first_bit;
use crate::placing::any_misplaced;
use crate::simulating::read_all;
use crate::spread::Spread;
use gate_graph::{Graph, Question};
use rm_base::{NoMemory, NodeId};
use std::alloc::Global;
use std::marker::Model;

/// The words of 64 vectors, and the good words of the nodes under them.
#[derive(Debug, Drop)]
pub struct Block {
    pub(crate) words: Vec<u64>,
    pub(crate) good: Vec<u64>,
}

// A block of these vectors, simulated.
fn simulate_block(
    alloc: Global,
    graph: &Graph,
    words: &[u64],
    order: &[NodeId],
    places: &[usize],
) -> Result<Block, NoMemory>
    requires sources { length words.now ≡ source_count (net_of graph.now) }
    requires order { IsOrdered (net_of graph.now) (map (λ n. n.0) order.now) }
    requires within { IsWithin (map (λ n. n.0) order.now) (length places.now) }
    ensures words { IfOk result (λ b. b.words.items ≡ words.now) }
    ensures simulated { IfOk result (λ b. IsSimulatedBlock (net_of graph.now) (map (λ n. n.0) order.now) (length places.now) b) }
{
    let mut kept = zero_words(alloc, words.len())?;
    kept.as_mut_slice().copy_from_slice(words);
    let mut good = zero_words(alloc, places.len())?;
    read_all(graph, words, order, &mut good);
    Ok(Block { words: kept, good })
}

// The first lane of a block whose vector detects the fault.
fn first_in(
    question: &Question<'_>,
    order: &[NodeId],
    places: &[usize],
    block: &Block,
    spread: &mut Spread,
) -> Option<usize>
    requires order { IsOrdered (net_of question.now.graph.now) (map (λ n. n.0) order.now) }
    requires placed { ArePlaced (map (λ n. n.0) order.now) places.now spread.old }
    requires block { IsSimulatedBlock (net_of question.now.graph.now) (map (λ n. n.0) order.now) (length places.now) block.now }
    ensures first { IsFirstLane (net_of question.now.graph.now) question.now.fault block.now.words.items result }
    ensures placed { ArePlaced (map (λ n. n.0) order.now) places.now spread.new }
{
    let found = found_by(
        question,
        block.words.as_slice(),
        order,
        places,
        block.good.as_slice(),
        spread,
    );
    first_bit(found, 0)
}

// Whether a vector of that block detects the fault; no for a number without a block.
fn detects_among(
    question: &Question<'_>,
    order: &[NodeId],
    places: &[usize],
    blocks: &[Block],
    spread: &mut Spread,
    number: usize,
) -> bool
    requires order { IsOrdered (net_of question.now.graph.now) (map (λ n. n.0) order.now) }
    requires placed { ArePlaced (map (λ n. n.0) order.now) places.now spread.old }
    requires blocks { (b : ℕ) (block : Block) → slice_get blocks.now b ≡ Some block → IsSimulatedBlock (net_of question.now.graph.now) (map (λ n. n.0) order.now) (length places.now) block }
    ensures detects { IsTrue result → DetectsInBlock (net_of question.now.graph.now) question.now.fault (words_of blocks.now) number }
    ensures placed { ArePlaced (map (λ n. n.0) order.now) places.now spread.new }
{
    if number >= blocks.len() {
        return false;
    }
    let Some(_lane) = first_in(question, order, places, &blocks[number], spread) else {
        return false;
    };
    true
}

// The first vector of the blocks that detects the fault.
fn first_of(
    question: &Question<'_>,
    order: &[NodeId],
    places: &[usize],
    blocks: &[Block],
    spread: &mut Spread,
) -> Option<usize>
    requires order { IsOrdered (net_of question.now.graph.now) (map (λ n. n.0) order.now) }
    requires placed { ArePlaced (map (λ n. n.0) order.now) places.now spread.old }
    requires blocks { (b : ℕ) (block : Block) → slice_get blocks.now b ≡ Some block → IsSimulatedBlock (net_of question.now.graph.now) (map (λ n. n.0) order.now) (length places.now) block }
    requires few { length blocks.now ≤ 67108864 }
    ensures first { IsFirstVector (net_of question.now.graph.now) question.now.fault (words_of blocks.now) result }
    ensures placed { ArePlaced (map (λ n. n.0) order.now) places.now spread.new }
{
    for number in 0..blocks.len() {
        if let Some(lane) = first_in(question, order, places, &blocks[number], spread) {
            return Some(64 * number + lane);
        }
    }
    None
}

// Makes a block good for a net that differs among these nodes.
fn follow_block(
    graph: &Graph,
    block: &mut Block,
    order: &[NodeId],
    places: &[usize],
    spread: &mut Spread,
    changed: &[NodeId],
)
    requires order { IsOrdered (net_of graph.now) (map (λ n. n.0) order.now) }
    requires placed { ArePlaced (map (λ n. n.0) order.now) places.now spread.old }
    requires block { WasGoodBlock (net_of graph.now) (length places.now) (map (λ n. n.0) changed.now) block.old }
    ensures words { block.new.words ≡ block.old.words }
    ensures block { IsSimulatedBlock (net_of graph.now) (map (λ n. n.0) order.now) (length places.now) block.new }
    ensures placed { ArePlaced (map (λ n. n.0) order.now) places.now spread.new }
{
    catch_up(
        graph,
        block.words.as_slice(),
        order,
        places,
        &mut block.good,
        spread,
        changed,
    );
}

// Makes all blocks good for a net that differs among these nodes.
fn follow_all(
    graph: &Graph,
    blocks: &mut [Block],
    order: &[NodeId],
    places: &[usize],
    spread: &mut Spread,
    changed: &[NodeId],
)
    requires order { IsOrdered (net_of graph.now) (map (λ n. n.0) order.now) }
    requires placed { ArePlaced (map (λ n. n.0) order.now) places.now spread.old }
    requires blocks { (b : ℕ) (block : Block) → slice_get blocks.old b ≡ Some block → WasGoodBlock (net_of graph.now) (length places.now) (map (λ n. n.0) changed.now) block }
    ensures followed { AreFollowed (net_of graph.now) (map (λ n. n.0) order.now) (length places.now) blocks.old blocks.new (length blocks.old) }
    ensures count { length blocks.new ≡ length blocks.old }
    ensures placed { ArePlaced (map (λ n. n.0) order.now) places.now spread.new }
{
    for block in blocks.iter_mut() {
        follow_block(graph, block, order, places, spread, changed);
    }
}

// A block of the same words, with zeros after the good ones.
fn grow_block(alloc: Global, block: &Block, numbers: usize) -> Result<Block, NoMemory>
    requires { length block.now.good.items ≤ numbers }
    ensures { IfOk result (λ b. IsGrown numbers block.now b) }
{
    let mut words = zero_words(alloc, block.words.len())?;
    words.as_mut_slice().copy_from_slice(block.words.as_slice());
    let mut good = zero_words(alloc, block.good.len())?;
    good.as_mut_slice().copy_from_slice(block.good.as_slice());
    grow_words(&mut good, numbers)?;
    Ok(Block { words, good })
}

// Blocks of the same words, with zeros after the good ones.
fn all_grown(alloc: Global, blocks: &[Block], numbers: usize) -> Result<Vec<Block>, NoMemory>
    requires { (b : ℕ) (block : Block) → slice_get blocks.now b ≡ Some block → length block.good.items ≤ numbers }
    ensures { IfOk result (λ v. AreGrown numbers blocks.now v.items (length blocks.now)) }
{
    let mut longer = Vec::new(alloc);
    for block in blocks {
        let again = grow_block(alloc, block, numbers)?;
        longer.push(again)?;
    }
    Ok(longer)
}

// Blocks of the same words for more numbers, where there are more.
fn lengthen(
    alloc: Global,
    blocks: &mut Vec<Block>,
    before: usize,
    numbers: usize,
) -> Result<(), NoMemory>
    requires more { before ≤ numbers }
    requires blocks { (b : ℕ) (block : Block) → slice_get blocks.old.items b ≡ Some block → length block.good.items ≡ before }
    ensures grown { OnOk result (AreGrown numbers blocks.old.items blocks.new.items (length blocks.old.items)) }
    ensures failed { OnErr result (blocks.new.items ≡ blocks.old.items) }
{
    if numbers == before {
        return Ok(());
    }
    let longer = all_grown(alloc, blocks.as_slice(), numbers)?;
    *blocks = longer;
    Ok(())
}

/// Vectors that are kept for a graph, 64 to a block: vector n is lane n % 64 of block n / 64. Where a caller has fewer,
/// one of them may stand in the other lanes too. `new` and `keep64` take memory, and `follow` where it makes a new order.
#[derive(Debug, Drop)]
pub struct Blocks {
    order: Vec<NodeId>,
    places: Vec<usize>,
    blocks: Vec<Block>,
    spread: Spread,
}

impl Model for Blocks {
    ghost use Rattle.fault_sim.specs.BlockStates.{BlockState};

    ghost Value = { BlockState };

    ghost use Rattle.std.specs.Prelude.{◌≤◌, length, map};
    ghost use Rattle.fault_sim.specs.Inner.BlockStates.{AreBlocks, ArePlaced, good_of, words_of};

    ghost view = { λ s. record { words = words_of s.blocks.items; order = map (λ n. n.0) s.order.items; good = good_of s.blocks.items } };

    ghost invariant = { λ s. ArePlaced (map (λ n. n.0) s.order.items) s.places.items s.spread × (AreBlocks (map (λ n. n.0) s.order.items) (length s.places.items) s.blocks.items × (length s.blocks.items ≤ 67108864)) };
}

impl Blocks {
    /// No vector is kept yet.
    pub fn new(alloc: Global, graph: &Graph) -> Result<Blocks, NoMemory>
        ensures none { IfOk result (λ s. s.words ≡ []) }
        ensures simulated { IfOk result (λ s. AreSimulated s (net_of graph.now)) }
    {
        let listing = list_in_order(alloc, graph, 0)?;
        let blocks = Vec::new(alloc);
        let Listing {
            order,
            places,
            spread,
        } = listing;
        Ok(Blocks {
            order,
            places,
            blocks,
            spread,
        })
    }

    /// How many blocks are kept.
    pub fn count(&self) -> usize
        ensures { result ≡ length self.now.words }
    {
        self.blocks.len()
    }

    /// Keeps 64 vectors more: bit i of each source's word is vector i of the new block. It takes the time of the net.
    pub fn keep64(&mut self, alloc: Global, graph: &Graph, words: &[u64]) -> Result<(), NoMemory>
        requires simulated { AreSimulated self.old (net_of graph.now) }
        requires sources { length words.now ≡ source_count (net_of graph.now) }
        requires room { length self.old.words < 67108864 }
        ensures words { OnOk result (self.new.words ≡ self.old.words ++ words.now ∷ []) }
        ensures order { self.new.order ≡ self.old.order }
        ensures failed { OnErr result (self.new ≡ self.old) }
        ensures simulated { AreSimulated self.new (net_of graph.now) }
    {
        let block = simulate_block(
            alloc,
            graph,
            words,
            self.order.as_slice(),
            self.places.as_slice(),
        )?;
        self.blocks.push(block)?;
        Ok(())
    }

    /// Follows a graph that has changed since the vectors were kept, in these nodes alone, as `Lanes::follow` does: in each
    /// block only what reaches from them is read again. The words of all blocks are copied where the graph has got more
    /// node numbers than the blocks have room for. Where memory is wanting nothing is changed, and the call may be made
    /// again.
    pub fn follow(
        &mut self,
        alloc: Global,
        graph: &Graph,
        changed: &[NodeId],
    ) -> Result<(), NoMemory>
        requires follows { CanAllFollow self.old (net_of graph.now) (map (λ n. n.0) changed.now) }
        ensures words { self.new.words ≡ self.old.words }
        ensures simulated { OnOk result (AreSimulated self.new (net_of graph.now)) }
        ensures failed { OnErr result (self.new ≡ self.old) }
    {
        if any_misplaced(
            graph,
            self.order.as_slice(),
            self.places.as_slice(),
            changed,
        ) {
            return self.follow_anew(alloc, graph, changed);
        }
        follow_all(
            graph,
            self.blocks.as_mut_slice(),
            self.order.as_slice(),
            self.places.as_slice(),
            &mut self.spread,
            changed,
        );
        Ok(())
    }

    // Follows the graph with a new order.
    fn follow_anew(
        &mut self,
        alloc: Global,
        graph: &Graph,
        changed: &[NodeId],
    ) -> Result<(), NoMemory>
        requires follows { CanAllFollow self.old (net_of graph.now) (map (λ n. n.0) changed.now) }
        ensures words { self.new.words ≡ self.old.words }
        ensures simulated { OnOk result (AreSimulated self.new (net_of graph.now)) }
        ensures failed { OnErr result (self.new ≡ self.old) }
    {
        let listing = list_in_order(alloc, graph, self.places.len())?;
        lengthen(
            alloc,
            &mut self.blocks,
            self.places.len(),
            listing.places.len(),
        )?;
        let Listing {
            order,
            places,
            spread,
        } = listing;
        self.order = order;
        self.places = places;
        self.spread = spread;
        follow_all(
            graph,
            self.blocks.as_mut_slice(),
            self.order.as_slice(),
            self.places.as_slice(),
            &mut self.spread,
            changed,
        );
        Ok(())
    }

    /// Whether a vector of that block detects the fault; no for a number without a block.
    pub fn block_detects(&mut self, question: &Question<'_>, number: usize) -> bool
        requires simulated { AreSimulated self.old (net_of question.now.graph.now) }
        ensures detects { IsTrue result → DetectsInBlock (net_of question.now.graph.now) question.now.fault self.old.words number }
        ensures same { self.new ≡ self.old }
    {
        detects_among(
            question,
            self.order.as_slice(),
            self.places.as_slice(),
            self.blocks.as_slice(),
            &mut self.spread,
            number,
        )
    }

    /// The first of all kept vectors that detects the fault: it looks no further than the block that has it.
    pub fn detects_any(&mut self, question: &Question<'_>) -> Option<usize>
        requires simulated { AreSimulated self.old (net_of question.now.graph.now) }
        ensures first { IsFirstVector (net_of question.now.graph.now) question.now.fault self.old.words result }
        ensures same { self.new ≡ self.old }
    {
        first_of(
            question,
            self.order.as_slice(),
            self.places.as_slice(),
            self.blocks.as_slice(),
            &mut self.spread,
        )
    }
}
