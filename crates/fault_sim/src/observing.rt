// In which lanes the other value of a node is seen at an observed node.
ghost use Rattle.std.specs.Prelude.{◌≡◌, ◌≢◌, ◌<◌, ◌↔◌, ℕ, IfSome, IsTrue, None, bit_xor, length, map, slice_index};
ghost use Rattle.gate_net.specs.Net.{IsObserved, node_at, source_count};
ghost use Rattle.gate_net.specs.Paths.{IsOnlyReader};
ghost use Rattle.gate_net.specs.Values.{AreGoodValues, Detects};
ghost use Rattle.gate_graph.specs.Circuit.{net_of};
ghost use Rattle.fault_sim.specs.Observing.{AreObservabilities, IsObservability};
ghost use Rattle.fault_sim.specs.Ordered.{IsOrdered};
ghost use Rattle.fault_sim.specs.Words.{assignment, lane, lane_values};
ghost use Rattle.fault_sim.specs.Inner.Chaining.{passed_word};
ghost use Rattle.fault_sim.specs.Inner.Spreading.{AreLanes, IsRested};

use crate::detecting::read_stuck;
use crate::observabilities::Observabilities;
use crate::reading::read_word;
use crate::spread::{Spread, rest, write_word};
use crate::spreading::seen_from;
use gate_graph::{Graph, Question};
use refutation::chains::next_in_chain;
use rm_base::NodeId;

// The observability of a node: the opposite of its good word is spread.
fn spread_opposite(
    graph: &Graph,
    words: &[u64],
    order: &[NodeId],
    places: &[usize],
    good: &[u64],
    spread: &mut Spread,
    node: NodeId,
) -> u64
    requires sources { length words.now ≡ source_count (net_of graph.now) }
    requires order { IsOrdered (net_of graph.now) (map (λ n. n.0) order.now) }
    requires lanes { AreLanes (map (λ n. n.0) order.now) places.now good.now spread.old }
    requires values { (i : ℕ) → i < 64 → AreGoodValues (net_of graph.now) (assignment words.now i) (lane_values good.now i) }
    requires rested { IsRested spread.old }
    requires live { node_at (net_of graph.now) node.0 ≢ None }
    ensures observability { IsObservability (net_of graph.now) words.now node.0 result }
    ensures lanes { AreLanes (map (λ n. n.0) order.now) places.now good.now spread.new }
    ensures rested { IsRested spread.new }
{
    graph.well_formed();
    let word = good[node.0 as usize] ^ u64::MAX;
    seen_from(graph, words, order, places, good, spread, node, word)
}

// The lanes in which a reader changes where the node has its other value.
fn changed_in(
    graph: &Graph,
    words: &[u64],
    order: &[NodeId],
    places: &[usize],
    good: &[u64],
    spread: &mut Spread,
    node: NodeId,
    reader: NodeId,
) -> u64
    requires sources { length words.now ≡ source_count (net_of graph.now) }
    requires order { IsOrdered (net_of graph.now) (map (λ n. n.0) order.now) }
    requires lanes { AreLanes (map (λ n. n.0) order.now) places.now good.now spread.old }
    requires rested { IsRested spread.old }
    requires node { node_at (net_of graph.now) node.0 ≢ None }
    requires reader { node_at (net_of graph.now) reader.0 ≢ None }
    ensures changed { result ≡ bit_xor (passed_word (net_of graph.now) words.now good.now node.0 reader.0) (slice_index good.now reader.0) }
    ensures lanes { AreLanes (map (λ n. n.0) order.now) places.now good.now spread.new }
    ensures rested { IsRested spread.new }
{
    graph.well_formed();
    let number = node.0 as usize;
    write_word(spread, places[number], number, good[number] ^ u64::MAX);
    let word = read_word(graph, words, good, spread, None, reader);
    rest(spread);
    word ^ good[reader.0 as usize]
}

// The observability of a node that isn't observed, from that of its only reader.
fn observability_before(
    graph: &Graph,
    words: &[u64],
    order: &[NodeId],
    places: &[usize],
    good: &[u64],
    spread: &mut Spread,
    node: NodeId,
    reader: NodeId,
    seen: u64,
) -> u64
    requires sources { length words.now ≡ source_count (net_of graph.now) }
    requires order { IsOrdered (net_of graph.now) (map (λ n. n.0) order.now) }
    requires lanes { AreLanes (map (λ n. n.0) order.now) places.now good.now spread.old }
    requires values { (i : ℕ) → i < 64 → AreGoodValues (net_of graph.now) (assignment words.now i) (lane_values good.now i) }
    requires rested { IsRested spread.old }
    requires unobserved { IsObserved (net_of graph.now) node.0 → ⊥ }
    requires only { IsOnlyReader (net_of graph.now) node.0 reader.0 }
    requires seen { IsObservability (net_of graph.now) words.now reader.0 seen }
    ensures observability { IsObservability (net_of graph.now) words.now node.0 result }
    ensures lanes { AreLanes (map (λ n. n.0) order.now) places.now good.now spread.new }
    ensures rested { IsRested spread.new }
{
    graph.well_formed();
    if seen == 0 {
        return 0;
    }
    changed_in(graph, words, order, places, good, spread, node, reader) & seen
}

// The only reader of a node that isn't observed, where so many calls may follow.
fn reader_within(graph: &Graph, node: NodeId, depth: u32) -> Option<NodeId>
    requires live { node_at (net_of graph.now) node.0 ≢ None }
    ensures deep { IfSome result (λ y. 0 < depth) }
    ensures unobserved { IfSome result (λ y. IsObserved (net_of graph.now) node.0 → ⊥) }
    ensures only { IfSome result (λ y. IsOnlyReader (net_of graph.now) node.0 y.0) }
{
    if depth == 0 {
        return None;
    }
    next_in_chain(graph, node)
}

// The observability of a node, found where it isn't noted. A node that isn't observed and has one reader has it by that
// of the reader, so that a chain shares one spread; one of more nodes than the depth has a spread for each such part.
fn observability_of(
    graph: &Graph,
    words: &[u64],
    order: &[NodeId],
    places: &[usize],
    good: &[u64],
    spread: &mut Spread,
    notes: &mut Observabilities,
    node: NodeId,
    depth: u32,
) -> u64
    requires sources { length words.now ≡ source_count (net_of graph.now) }
    requires order { IsOrdered (net_of graph.now) (map (λ n. n.0) order.now) }
    requires lanes { AreLanes (map (λ n. n.0) order.now) places.now good.now spread.old }
    requires values { (i : ℕ) → i < 64 → AreGoodValues (net_of graph.now) (assignment words.now i) (lane_values good.now i) }
    requires rested { IsRested spread.old }
    requires live { node_at (net_of graph.now) node.0 ≢ None }
    requires right { AreObservabilities notes.old (net_of graph.now) words.now }
    ensures observability { IsObservability (net_of graph.now) words.now node.0 result }
    ensures lanes { AreLanes (map (λ n. n.0) order.now) places.now good.now spread.new }
    ensures rested { IsRested spread.new }
    ensures right { AreObservabilities notes.new (net_of graph.now) words.now }
{
    if let Some(word) = notes.noted(node) {
        return word;
    }
    let Some(reader) = reader_within(graph, node, depth) else {
        let word = spread_opposite(graph, words, order, places, good, spread, node);
        notes.note(node, word);
        return word;
    };
    let seen = observability_of(
        graph,
        words,
        order,
        places,
        good,
        spread,
        notes,
        reader,
        depth - 1,
    );
    let word = observability_before(
        graph, words, order, places, good, spread, node, reader, seen,
    );
    notes.note(node, word);
    word
}

// At most so many nodes of a chain share a spread: the calls that follow a chain go as deep.
const LONGEST_CHAIN: u32 = 256;

// The lanes in which the vector detects the fault: those in which its gate has another word with the stuck pin, and is
// observable.
pub(crate) fn found_sharing(
    question: &Question<'_>,
    words: &[u64],
    order: &[NodeId],
    places: &[usize],
    good: &[u64],
    spread: &mut Spread,
    notes: &mut Observabilities,
) -> u64
    requires sources { length words.now ≡ source_count (net_of question.now.graph.now) }
    requires order { IsOrdered (net_of question.now.graph.now) (map (λ n. n.0) order.now) }
    requires lanes { AreLanes (map (λ n. n.0) order.now) places.now good.now spread.old }
    requires values { (i : ℕ) → i < 64 → AreGoodValues (net_of question.now.graph.now) (assignment words.now i) (lane_values good.now i) }
    requires rested { IsRested spread.old }
    requires right { AreObservabilities notes.old (net_of question.now.graph.now) words.now }
    ensures detects { (i : ℕ) → i < 64 → IsTrue (lane i result) ↔ Detects (net_of question.now.graph.now) question.now.fault (assignment words.now i) }
    ensures lanes { AreLanes (map (λ n. n.0) order.now) places.now good.now spread.new }
    ensures rested { IsRested spread.new }
    ensures right { AreObservabilities notes.new (net_of question.now.graph.now) words.now }
{
    question.graph.well_formed();
    let gate = question.fault.gate;
    let own = good[gate.0 as usize];
    let word = read_stuck(question, words, good, spread);
    if word == own {
        return 0;
    }
    let seen = observability_of(
        question.graph,
        words,
        order,
        places,
        good,
        spread,
        notes,
        gate,
        LONGEST_CHAIN,
    );
    (word ^ own) & seen
}
