// Vectors that were simulated, 64 at a time.
ghost use Rattle.std.specs.Prelude.{◌≡◌, ◌<◌, ◌↔◌, IsTrue, IfOk, IfSome, List, Some, length, slice_get, ℕ};
ghost use Rattle.std.specs.List.{AllByRecursion};
ghost use Rattle.gate_graph.specs.Circuit.{net_of};
ghost use Rattle.gate_net.specs.Net.{Net, source_count};
ghost use Rattle.gate_net.specs.Faults.{IsTest};
ghost use Rattle.gate_net.specs.Values.{Detects};
ghost use Rattle.fault_sim.specs.Words.{assignment};
ghost use Rattle.journal_check.specs.Inner.Batches.{IsBatch, IsLaneOf};
ghost use Rattle.journal_check.specs.Inner.Tracing.{AreShown};
ghost use Rattle.journal_check.specs.declared.batches.Batch.{Batch as BatchValue};

use crate::showing::{detects_in, none_shown};
use fault_sim::Lanes;
use gate_graph::{Graph, Question};
use rm_base::{NoMemory, Vector};
use std::alloc::Global;
use std::collections::BTreeMap;

/// At most 64 vectors that were simulated together: bit i of each source's word is vector i.
#[derive(Drop)]
pub(crate) struct Batch {
    pub(crate) lanes: Lanes,
    pub(crate) words: Vec<u64>,
    // of each node, the lanes in which its change is known to be seen
    pub(crate) shown: Vec<u64>,
}

/// Where a vector stands: its batch, and its bit in the words.
#[derive(Clone, Copy)]
pub(crate) struct LanePlace {
    pub(crate) batch: usize,
    pub(crate) lane: u32,
}

/// Batches of vectors over a frozen net, and where a vector with a signature was put last.
#[derive(Drop)]
pub(crate) struct Batches {
    alloc: Global,
    pub(crate) kept: Vec<Batch>,
    // the batch that is made next, in place of the oldest where there are enough
    next: usize,
    // the batch that was made last, and how many of its lanes are taken
    last: usize,
    taken: u32,
    places: BTreeMap<u64, LanePlace>,
}

// At most so many batches are kept.
const MOST_BATCHES: usize = 64;

// Tells most vectors apart.
fn signature(vector: &[bool]) -> u64 {
    let mut sum = 0xcbf2_9ce4_8422_2325_u64;
    for value in vector {
        let bit = u64::from(*value);
        sum = (sum ^ (bit + 1)).wrapping_mul(0x0000_0100_0000_01b3);
    }
    sum
}

// Whether the vector stands in that lane of the words.
fn is_in_lane(words: &[u64], lane: u32, vector: &[bool]) -> bool
    requires lane { lane < 64 }
    ensures { IsTrue result → IsLaneOf words.now lane vector.now }
{
    if words.len() != vector.len() {
        return false;
    }
    for at in 0..words.len() {
        if ((words[at] >> lane) & 1 == 1) != vector[at] {
            return false;
        }
    }
    true
}

// Puts a vector into a lane of the words.
fn add_lane(words: &mut Vec<u64>, lane: u32, vector: &[bool])
    requires { lane < 64 }
    ensures { length words.new.items ≡ length words.old.items }
{
    for at in 0..words.len() {
        if let Some(true) = vector.get(at).copied() {
            words[at] |= 1u64 << lane;
        }
    }
}

// Whether the fault is detected in a lane of the batch.
fn detects_by(batch: &mut Batch, question: &Question<'_>, lane: u32) -> bool
    requires lane { lane < 64 }
    requires batch { IsBatch (net_of question.now.graph.now) batch.old }
    ensures found { IsTrue result ↔ Detects (net_of question.now.graph.now) question.now.fault (assignment batch.old.words.items lane) }
    ensures batch { IsBatch (net_of question.now.graph.now) batch.new }
{
    detects_in(&mut batch.lanes, &mut batch.shown, question, lane)
}

// Simulates other words in the lanes of a batch.
fn renew(batch: &mut Batch, graph: &Graph, words: Vec<u64>, shown: Vec<u64>)
    requires batch { IsBatch (net_of graph.now) batch.old }
    requires size { length words.items ≡ length batch.old.words.items }
    requires shown { (net : Net) (ws : List ℕ) → AreShown net ws shown.items }
    ensures { IsBatch (net_of graph.now) batch.new }
{
    batch.lanes.simulate64(graph, words.as_slice());
    batch.words = words;
    batch.shown = shown;
}

impl Batches {
    /// No vectors yet.
    pub(crate) fn new(alloc: Global) -> Batches
        ensures { (net : Net) → AllByRecursion (IsBatch net) result.kept.items }
    {
        Batches {
            alloc,
            kept: Vec::new(alloc),
            next: 0,
            last: 0,
            taken: 0,
            places: BTreeMap::new(alloc),
        }
    }

    /// Where the vector stands, if it was simulated.
    pub(crate) fn place_of(&self, vector: &[bool]) -> Option<LanePlace>
        ensures lane { IfSome result (λ p. p.lane < 64) }
        ensures batch { IfSome result (λ p. p.batch < length self.now.kept.items) }
        ensures stands { IfSome result (λ p. (b : BatchValue) → slice_get self.now.kept.items p.batch ≡ Some b → IsLaneOf b.words.items p.lane vector.now) }
    {
        let place = self.places.get(&signature(vector)).copied()?;
        if place.lane >= 64 || place.batch >= self.kept.len() {
            return None;
        }
        if !is_in_lane(self.kept[place.batch].words.as_slice(), place.lane, vector) {
            return None;
        }
        Some(place)
    }

    // Whether a vector with that signature was put into a lane, be it of the batch that is being made.
    fn stands(&self, key: u64, batch: usize, vector: &[bool]) -> bool {
        let Some(place) = self.places.get(&key).copied() else {
            return false;
        };
        if place.batch == batch {
            return place.lane < self.taken;
        }
        if place.lane >= 64 || place.batch >= self.kept.len() {
            return false;
        }
        is_in_lane(self.kept[place.batch].words.as_slice(), place.lane, vector)
    }

    // Puts a vector into the next lane of a batch's words, if there is one.
    fn take_lane(
        &mut self,
        words: &mut Vec<u64>,
        batch: usize,
        key: u64,
        vector: &[bool],
    ) -> Result<(), NoMemory>
        ensures kept { self.new.kept ≡ self.old.kept }
        ensures words { length words.new.items ≡ length words.old.items }
    {
        let lane = self.taken;
        if lane < 64 {
            add_lane(words, lane, vector);
            self.places.insert(key, LanePlace { batch, lane })?;
            self.taken = lane + 1;
        }
        Ok(())
    }

    // The words of a batch with that vector and others that were not simulated yet, and where they stand from now on.
    fn gather(
        &mut self,
        words: &[u64],
        batch: usize,
        vector: &[bool],
        ahead: &[Vector],
    ) -> Result<Vec<u64>, NoMemory>
        ensures kept { self.new.kept ≡ self.old.kept }
        ensures words { IfOk result (λ w. length w.items ≡ length words.now) }
    {
        let mut words = Vec::from_slice(self.alloc, words)?;
        self.take_lane(&mut words, batch, signature(vector), vector)?;
        for other in ahead {
            if self.taken < 64 && other.len() == words.len() {
                let key = signature(other.values());
                if !self.stands(key, batch, other.values()) {
                    self.take_lane(&mut words, batch, key, other.values())?;
                }
            }
        }
        Ok(words)
    }

    // Keeps a batch, in place of the oldest where there are enough.
    fn keep(&mut self, batch: Batch) -> Result<(), NoMemory>
        ensures { (net : Net) → AllByRecursion (IsBatch net) self.old.kept.items → IsBatch net batch → AllByRecursion (IsBatch net) self.new.kept.items }
    {
        if self.next < self.kept.len() {
            self.kept[self.next] = batch;
        } else {
            self.kept.push(batch)?;
        }
        self.next = if self.next < MOST_BATCHES - 1 {
            self.next + 1
        } else {
            0
        };
        Ok(())
    }

    // A batch of that vector and others.
    fn add(&mut self, graph: &Graph, vector: &[bool], ahead: &[Vector]) -> Result<(), NoMemory>
        requires batches { AllByRecursion (IsBatch (net_of graph.now)) self.old.kept.items }
        requires size { length vector.now ≡ source_count (net_of graph.now) }
        ensures batches { AllByRecursion (IsBatch (net_of graph.now)) self.new.kept.items }
    {
        let none = vec![in self.alloc; 0u64; vector.len()]?;
        self.last = self.next;
        self.taken = 0;
        let words = self.gather(none.as_slice(), self.next, vector, ahead)?;
        let mut lanes = Lanes::new(self.alloc, graph)?;
        lanes.simulate64(graph, words.as_slice());
        let shown = none_shown(self.alloc, graph)?;
        self.keep(Batch {
            lanes,
            words,
            shown,
        })
    }

    // More vectors in the batch that was made last.
    fn extend(&mut self, graph: &Graph, vector: &[bool], ahead: &[Vector]) -> Result<(), NoMemory>
        requires last { self.old.last < length self.old.kept.items }
        requires batches { AllByRecursion (IsBatch (net_of graph.now)) self.old.kept.items }
        ensures batches { AllByRecursion (IsBatch (net_of graph.now)) self.new.kept.items }
    {
        let last = self.last;
        let shown = none_shown(self.alloc, graph)?;
        let before = Vec::from_slice(self.alloc, self.kept[last].words.as_slice())?;
        let words = self.gather(before.as_slice(), last, vector, ahead)?;
        renew(&mut self.kept[last], graph, words, shown);
        Ok(())
    }

    /// Simulates the vector, and with it others that are likely to follow.
    pub(crate) fn simulate(
        &mut self,
        graph: &Graph,
        vector: &[bool],
        ahead: &[Vector],
    ) -> Result<(), NoMemory>
        requires batches { AllByRecursion (IsBatch (net_of graph.now)) self.old.kept.items }
        requires size { length vector.now ≡ source_count (net_of graph.now) }
        ensures batches { AllByRecursion (IsBatch (net_of graph.now)) self.new.kept.items }
    {
        if self.taken < 64 && self.last < self.kept.len() {
            return self.extend(graph, vector, ahead);
        }
        self.add(graph, vector, ahead)
    }

    /// Whether the vector detects the fault, if it was simulated.
    pub(crate) fn detects(&mut self, question: &Question<'_>, vector: &[bool]) -> Option<bool>
        requires batches { AllByRecursion (IsBatch (net_of question.now.graph.now)) self.old.kept.items }
        requires size { length vector.now ≡ source_count (net_of question.now.graph.now) }
        ensures batches { AllByRecursion (IsBatch (net_of question.now.graph.now)) self.new.kept.items }
        ensures found { IfSome result (λ found. IsTrue found ↔ IsTest (net_of question.now.graph.now) question.now.fault vector.now) }
    {
        let place = self.place_of(vector)?;
        let batch = &mut self.kept[place.batch];
        Some(detects_by(batch, question, place.lane))
    }
}
