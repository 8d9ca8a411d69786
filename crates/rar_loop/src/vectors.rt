//! Vectors that are kept for a net: a fault that one of them detects is never refuted, so it isn't asked.
ghost use Rattle.std.specs.Prelude.{◌≡◌, ◌<◌, ℕ, Bool, IfOk, OnOk, IsTrue, None, Some, replicate, slice_get};
ghost use Rattle.gate_net.specs.Net.{Net};
ghost use Rattle.gate_net.specs.Values.{Detects};
ghost use Rattle.gate_graph.specs.Circuit.{net_of};
ghost use Rattle.fault_sim.specs.Observing.{AreObservabilities};
ghost use Rattle.fault_sim.specs.Words.{assignment, lane};
ghost use Rattle.fault_sim.specs.BlockStates.{AreSimulated};
ghost use Rattle.fault_sim.specs.LaneStates.{Fits, IsSimulated};
ghost use Rattle.fault_sim.specs.Following.{DiffersAmong};
ghost use Rattle.rm_base.specs.Numbers.{numbers_of};
ghost use Rattle.rar_loop.specs.Inner.Kept.{AreAsked, AreFor, HasKept, IsSought, IsTurned, lanes_with, wanted};
ghost use Rattle.rar_loop.specs.Inner.Trying.{IsNewPinOpen, MayAdd};

use crate::drawing::{block_count, drawn_words, words_like};
use crate::seeking::{Seeker, Sought, detect_by, search_by};
use candidate_vectors::completed_words;
use candidate_wires::{Candidate, control_of};
use fault_sim::{Blocks, Lanes, Observabilities};
use gate_graph::{Graph, Question};
use gate_net::outside_is_equal;
use podem::Verdict;
use refutation::FactSet;
use refutation::detected::detected_faults_stay_open;
use rm_base::{Fault, NoMemory, NodeId};
use std::alloc::Global;
use wire_edit::steps_keep;

/// Vectors that are simulated for one net. For each gate that was asked the first 64 keep under which of them its first
/// pin is detected at the controlling value: there the gate turns to its controlled value, and an observed node with it.
#[derive(Drop)]
pub(crate) struct Vectors {
    lanes: Lanes,
    // What the faults of a gate share under the vectors of the lanes.
    notes: Observabilities,
    // Further drawn vectors, and those that were found by searches.
    found: Blocks,
    // By a number made of a fault: 0, or 1 more than the block of those that detected it last.
    hints: Vec<usize>,
    turned: Vec<Option<u64>>,
    // The gates of which a word is kept.
    asked: Vec<NodeId>,
    // Whether vectors are looked for that detect single faults: no search has found any yet.
    seeking: bool,
    seeker: Option<Seeker>,
}

// Whether the word has a lane.
fn any(word: u64) -> bool
    ensures { IsTrue result → (i : ℕ) × ((i < 64) × IsTrue (lane i word)) }
{
    if word == 0 {
        return false;
    }
    true
}

// The lanes in which a word has the value.
fn lanes_having(word: u64, value: bool) -> u64
    ensures { result ≡ lanes_with value word }
{
    if value { word } else { word ^ u64::MAX }
}

// The value of the candidate's node with which its wire has the controlling value.
fn value_for(candidate: &Candidate, control: bool) -> bool
    ensures { result ≡ wanted candidate.now.fresh control }
{
    if candidate.fresh { !control } else { control }
}

// Nothing is kept of so many gates.
fn none_kept(alloc: Global, count: usize) -> Result<Vec<Option<u64>>, NoMemory>
    ensures { IfOk result (λ v. v.items ≡ replicate count None) }
{
    let mut turned = Vec::new(alloc);
    turned.resize(count, None)?;
    Ok(turned)
}

// At most so many blocks of 64 vectors are kept.
const MOST_BLOCKS: usize = 64;

// Keeps a block, where it has a word for each source.
fn keep_block(
    alloc: Global,
    graph: &Graph,
    words: &[u64],
    blocks: &mut Blocks,
) -> Result<(), NoMemory>
    requires simulated { AreSimulated blocks.old (net_of graph.now) }
    ensures simulated { AreSimulated blocks.new (net_of graph.now) }
{
    if words.len() != graph.source_count() as usize {
        return Ok(());
    }
    if blocks.count() >= MOST_BLOCKS {
        return Ok(());
    }
    blocks.keep64(alloc, graph, words)
}

// Keeps blocks of found vectors.
fn keep_all(
    alloc: Global,
    graph: &Graph,
    found: &[Vec<u64>],
    blocks: &mut Blocks,
) -> Result<(), NoMemory>
    requires simulated { AreSimulated blocks.old (net_of graph.now) }
    ensures simulated { AreSimulated blocks.new (net_of graph.now) }
{
    for words in found {
        keep_block(alloc, graph, words.as_slice(), blocks)?;
    }
    Ok(())
}

// Keeps the drawn blocks after the first.
fn keep_drawn(alloc: Global, graph: &Graph, blocks: &mut Blocks) -> Result<(), NoMemory>
    requires simulated { AreSimulated blocks.old (net_of graph.now) }
    ensures simulated { AreSimulated blocks.new (net_of graph.now) }
{
    let sources = graph.source_count() as usize;
    for number in 1..block_count(sources) {
        let words = drawn_words(alloc, sources, number)?;
        keep_block(alloc, graph, words.as_slice(), blocks)?;
    }
    Ok(())
}

// Where the block that detected a fault last is kept, among so many places. Faults may share one.
fn hint_place(fault: &Fault, count: usize) -> usize {
    if count == 0 {
        return 0;
    }
    let pin = fault
        .position
        .wrapping_mul(2)
        .wrapping_add(u32::from(fault.value));
    let mixed = fault.gate.0.wrapping_mul(0x9e37_79b1).wrapping_add(pin);
    mixed as usize % count
}

fn hint_at(hints: &[usize], place: usize) -> usize {
    match hints.get(place) {
        Some(hint) => *hint,
        None => 0,
    }
}

// Whether a vector of the block that the hint tells detects the fault.
fn detects_by(blocks: &mut Blocks, question: &Question<'_>, hint: usize) -> bool
    requires simulated { AreSimulated blocks.old (net_of question.now.graph.now) }
    ensures detected { IsTrue result → (a : ℕ → Bool) × Detects (net_of question.now.graph.now) question.now.fault a }
    ensures same { blocks.new ≡ blocks.old }
{
    if hint == 0 {
        return false;
    }
    blocks.block_detects(question, hint - 1)
}

fn keep_hint(hints: &mut Vec<usize>, place: usize, hint: usize) {
    if place < hints.len() {
        hints[place] = hint;
    }
}

// What is kept of a gate.
fn kept_of(turned: &[Option<u64>], gate: NodeId) -> Option<u64>
    ensures { (word : ℕ) → result ≡ Some word → slice_get turned.now gate.0 ≡ Some (Some word) }
{
    match turned.get(gate.0 as usize) {
        Some(kept) => *kept,
        None => None,
    }
}

// Keeps a gate's word, where there is room for it and its number.
fn keep(turned: &mut Vec<Option<u64>>, asked: &mut Vec<NodeId>, gate: NodeId, word: u64)
    ensures kept { HasKept turned.old.items turned.new.items gate.0 word }
    ensures listed { AreAsked turned.old.items asked.old.items → AreAsked turned.new.items asked.new.items }
{
    let number = gate.0 as usize;
    if number >= turned.len() {
        return;
    }
    match asked.push(gate) {
        Ok(()) => turned[number] = Some(word),
        Err(_) => {}
    }
}

// Forgets the words that are kept.
fn forget(turned: &mut Vec<Option<u64>>, asked: &mut Vec<NodeId>)
    requires listed { AreAsked turned.old.items asked.old.items }
    ensures none { (gate word : ℕ) → slice_get turned.new.items gate ≡ Some (Some word) → ⊥ }
{
    while let Some(gate) = asked.pop() {
        let number = gate.0 as usize;
        if number < turned.len() {
            turned[number] = None;
        }
    }
}

// Makes room for words of so many gates, of which nothing is kept.
fn lengthen(turned: &mut Vec<Option<u64>>, count: usize) -> Result<(), NoMemory>
    ensures { (gate word : ℕ) → slice_get turned.new.items gate ≡ Some (Some word) → slice_get turned.old.items gate ≡ Some (Some word) }
{
    if turned.len() < count {
        turned.resize(count, None)?;
    }
    Ok(())
}

// Under which vectors the gate's first pin is detected at the controlling value.
fn turned_by(lanes: &mut Lanes, notes: &mut Observabilities, graph: &Graph, gate: NodeId) -> u64
    requires fits { Fits lanes.old (net_of graph.now) }
    requires simulated { IsSimulated lanes.old (net_of graph.now) }
    requires right { AreObservabilities notes.old (net_of graph.now) lanes.old.words }
    ensures turned { (i : ℕ) → i < 64 → IsTrue (lane i result) → IsTurned (net_of graph.now) gate.0 (assignment lanes.old.words i) }
    ensures same { lanes.new ≡ lanes.old }
    ensures right { AreObservabilities notes.new (net_of graph.now) lanes.old.words }
{
    let Some(control) = control_of(graph, gate) else {
        return 0;
    };
    let Some(_driver) = graph.driver(gate, 0) else {
        return 0;
    };
    let fault = Fault {
        gate,
        position: 0,
        value: control,
    };
    lanes.detect_sharing(&Question { graph, fault }, notes)
}

impl Vectors {
    /// Draws vectors, and simulates them and those that were found, a word for each source.
    pub(crate) fn draw_for(
        alloc: Global,
        graph: &Graph,
        found: &[Vec<u64>],
    ) -> Result<Vectors, NoMemory>
        ensures { IfOk result (λ v. AreFor v (net_of graph.now)) }
    {
        let mut lanes = Lanes::new(alloc, graph)?;
        let words = drawn_words(alloc, graph.source_count() as usize, 0)?;
        lanes.simulate64(graph, words.as_slice());
        let mut blocks = Blocks::new(alloc, graph)?;
        keep_drawn(alloc, graph, &mut blocks)?;
        keep_all(alloc, graph, found, &mut blocks)?;
        let hints = vec![in alloc; 0usize; 4 * graph.wire_count() as usize + 1]?;
        let bound = graph.node_bound() as usize;
        let turned = none_kept(alloc, bound)?;
        let notes = Observabilities::new(alloc, bound + graph.wire_count() as usize)?;
        Ok(Vectors {
            lanes,
            notes,
            found: blocks,
            hints,
            turned,
            asked: Vec::new(alloc),
            seeking: found.is_empty(),
            seeker: None,
        })
    }

    /// Follows a net that differs from the one that they are for among these nodes alone.
    pub(crate) fn follow(
        &mut self,
        alloc: Global,
        graph: &Graph,
        changed: &[NodeId],
    ) -> Result<(), NoMemory>
        requires follows { (net : Net) × (AreFor self.old net × DiffersAmong net (net_of graph.now) (numbers_of changed.now)) }
        ensures { OnOk result (AreFor self.new (net_of graph.now)) }
    {
        self.seeker = None;
        self.notes.forget();
        forget(&mut self.turned, &mut self.asked);
        lengthen(&mut self.turned, graph.node_bound() as usize)?;
        self.lanes.follow(alloc, graph, changed)?;
        self.found.follow(alloc, graph, changed)
    }

    /// Whether one of them detects the fault. Those that did so last are tried first.
    pub(crate) fn detect(&mut self, question: &Question<'_>) -> bool
        requires vectors { AreFor self.old (net_of question.now.graph.now) }
        ensures detected { IsTrue result → (a : ℕ → Bool) × Detects (net_of question.now.graph.now) question.now.fault a }
        ensures vectors { AreFor self.new (net_of question.now.graph.now) }
    {
        let place = hint_place(&question.fault, self.hints.len());
        let hint = hint_at(self.hints.as_slice(), place);
        if detects_by(&mut self.found, question, hint) {
            return true;
        }
        if any(self.lanes.detect_sharing(question, &mut self.notes)) {
            keep_hint(&mut self.hints, place, 0);
            return true;
        }
        match self.found.detects_any(question) {
            Some(vector) => {
                keep_hint(&mut self.hints, place, vector / 64 + 1);
                true
            }
            None => false,
        }
    }

    /// Whether no search has found vectors yet, so that some are looked for.
    pub(crate) fn is_seeking(&self) -> bool {
        self.seeking
    }

    /// Whether one of 64 vectors that complete the facts detects the fault. They are kept then.
    pub(crate) fn complete(
        &mut self,
        alloc: Global,
        question: &Question<'_>,
        facts: &FactSet,
    ) -> Result<bool, NoMemory>
        requires vectors { AreFor self.old (net_of question.now.graph.now) }
        ensures detected { IfOk result (λ found. IsTrue found → (a : ℕ → Bool) × Detects (net_of question.now.graph.now) question.now.fault a) }
        ensures vectors { AreFor self.new (net_of question.now.graph.now) }
    {
        let words = completed_words(alloc, question.graph, facts)?;
        let found = detect_by(alloc, question, words.as_slice(), &mut self.seeker)?;
        if !any(found) {
            return Ok(false);
        }
        keep_block(alloc, question.graph, words.as_slice(), &mut self.found)?;
        Ok(true)
    }

    /// What a search of some edges finds of the fault. A vector is kept, with others that are like it.
    pub(crate) fn seek(
        &mut self,
        alloc: Global,
        question: &Question<'_>,
    ) -> Result<Sought, NoMemory>
        requires vectors { AreFor self.old (net_of question.now.graph.now) }
        ensures sought { IfOk result (IsSought (net_of question.now.graph.now) question.now.fault) }
        ensures vectors { AreFor self.new (net_of question.now.graph.now) }
    {
        let found = search_by(alloc, question, &mut self.seeker)?;
        let Some(verdict) = found else {
            return Ok(Sought::Open);
        };
        match verdict {
            Verdict::Detected(vector) => {
                let words = words_like(alloc, &vector, self.found.count())?;
                keep_block(alloc, question.graph, words.as_slice(), &mut self.found)?;
                Ok(Sought::Detected)
            }
            Verdict::Refuted(tree) => Ok(Sought::Refuted(tree)),
            Verdict::Spent(_tree) => Ok(Sought::Open),
        }
    }

    // Under which of them the gate turns, found once for each gate.
    fn turned_at(&mut self, graph: &Graph, gate: NodeId) -> u64
        requires vectors { AreFor self.old (net_of graph.now) }
        ensures turned { (i : ℕ) → i < 64 → IsTrue (lane i result) → IsTurned (net_of graph.now) gate.0 (assignment self.new.lanes.words i) }
        ensures vectors { AreFor self.new (net_of graph.now) }
    {
        if let Some(word) = kept_of(self.turned.as_slice(), gate) {
            return word;
        }
        let word = turned_by(&mut self.lanes, &mut self.notes, graph, gate);
        keep(&mut self.turned, &mut self.asked, gate, word);
        word
    }

    /// Whether one of them detects the fault at the noncontrolling value of the candidate's pin, with its wire in the net:
    /// the wire has the controlling value, and the gate turns.
    pub(crate) fn detect_wire(&mut self, graph: &Graph, candidate: &Candidate) -> bool
        requires vectors { AreFor self.old (net_of graph.now) }
        ensures stays { IsTrue result → MayAdd (net_of graph.now) candidate.now → (depth : ℕ) → IsNewPinOpen (net_of graph.now) candidate.now depth }
        ensures vectors { AreFor self.new (net_of graph.now) }
    {
        graph.well_formed();
        outside_is_equal();
        steps_keep();
        detected_faults_stay_open();
        let Some(control) = control_of(graph, candidate.gate) else {
            return false;
        };
        let turned = self.turned_at(graph, candidate.gate);
        let word = self.lanes.value(candidate.node);
        any(turned & lanes_having(word, value_for(candidate, control)))
    }
}
