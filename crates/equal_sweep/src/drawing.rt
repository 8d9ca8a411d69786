// Drawn vectors under which two models differ.
ghost use Rattle.std.specs.Prelude.{◌≡◌, ◌<◌, IfErr, IfOk, IfSome, OnOk, length, map, ℕ};
ghost use Rattle.equal_miter.specs.Equal.{AreComparable, DifferBy, SameFunction};
ghost use Rattle.equal_miter.specs.Refusals.{IsMiterRefused, IsReady};
ghost use Rattle.fault_sim.specs.LaneStates.{Fits};
ghost use Rattle.fault_sim.specs.Words.{lane as lane_of};
ghost use Rattle.gate_graph.specs.Circuit.{net_of};
ghost use Rattle.gate_net.specs.Faults.{IsTest};
ghost use Rattle.gate_net.specs.Net.{Net, source_count};
ghost use Rattle.gate_net.specs.Values.{HasPin};

use equal_miter::laws::miters_tell_models;
use equal_miter::{MiterRefusal, miter};
use fault_sim::Lanes;
use gate_graph::{Graph, Question};
use merging::{block_count, drawn_words};
use rm_base::{Fault, NoMemory, Vector};
use rm_model::{NameKeys, RankedModel};
use std::alloc::Global;

// Whether the lane of the word is set.
fn has_lane(word: u64, lane: u32) -> bool
    requires { lane < 64 }
    ensures { result ≡ lane_of lane word }
{
    (word >> lane) & 1 == 1
}

// The vector in a lane of the words.
fn vector_in(alloc: Global, words: &[u64], lane: u32) -> Result<Vector, NoMemory>
    requires { lane < 64 }
    ensures { IfOk result (λ v. v ≡ map (lane_of lane) words.now) }
{
    let mut values = Vec::with_capacity(alloc, words.len())?;
    for word in words {
        values.push(has_lane(*word, lane))?;
    }
    Ok(Vector::of(values))
}

// The first of 64 vectors that detects the fault.
fn test_among(
    alloc: Global,
    question: &Question<'_>,
    words: &[u64],
    lanes: &mut Lanes,
) -> Result<Option<Vector>, NoMemory>
    requires fits { Fits lanes.old (net_of question.now.graph.now) }
    requires sources { length words.now ≡ source_count (net_of question.now.graph.now) }
    ensures test { IfOk result (λ found. IfSome found (IsTest (net_of question.now.graph.now) question.now.fault)) }
    ensures fits { (net : Net) → Fits lanes.old net → Fits lanes.new net }
{
    lanes.simulate64(question.graph, words);
    let Some(lane) = lanes.first_detecting(question) else {
        return Ok(None);
    };
    let vector = vector_in(alloc, words, lane)?;
    Ok(Some(vector))
}

// The first of the drawn vectors that detects the fault.
fn drawn_test(alloc: Global, question: &Question<'_>) -> Result<Option<Vector>, NoMemory>
    ensures { IfOk result (λ found. IfSome found (IsTest (net_of question.now.graph.now) question.now.fault)) }
{
    let count = question.graph.source_count() as usize;
    let mut lanes = Lanes::new(alloc, question.graph)?;
    for block in 0..block_count(count) {
        let words = drawn_words(alloc, count, block)?;
        let found = test_among(alloc, question, words.as_slice(), &mut lanes)?;
        if found.is_some() {
            return Ok(found);
        }
    }
    Ok(None)
}

// The same for a fault of a graph.
fn drawn_test_of(alloc: Global, graph: &Graph, fault: Fault) -> Result<Option<Vector>, NoMemory>
    requires pin { HasPin (net_of graph.now) fault }
    ensures { IfOk result (λ found. IfSome found (IsTest (net_of graph.now) fault)) }
{
    drawn_test(alloc, &Question { graph, fault })
}

/// Values of the sources under which two models differ, where drawn ones tell them apart.
pub(crate) fn draw_difference(
    alloc: Global,
    keys: NameKeys,
    a: &RankedModel,
    b: &RankedModel,
) -> Result<Option<Vector>, MiterRefusal>
    requires first { IsReady a.now }
    requires second { IsReady b.now }
    ensures comparable { OnOk result (AreComparable a.now b.now) }
    ensures apart { IfOk result (λ found. IfSome found (λ bits. DifferBy a.now b.now bits × (SameFunction a.now b.now → ⊥))) }
    ensures refused { IfErr result (λ refusal. IsMiterRefused a.now b.now refusal) }
{
    miters_tell_models();
    let (graph, fault) = miter(alloc, keys, a, b)?;
    graph.well_formed();
    let found = drawn_test_of(alloc, &graph, fault)?;
    Ok(found)
}
