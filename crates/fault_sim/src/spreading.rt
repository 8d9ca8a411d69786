// Spreading another word of a node through the nodes that it changes.
ghost use Rattle.std.specs.Prelude.{◌≡◌, ◌≢◌, ◌<◌, ◌+◌, ◌/◌, ◌↔◌, ℕ, IsTrue, None, length, map, slice_index};
ghost use Rattle.gate_net.specs.Net.{IsLive, Reads, node_at, source_count};
ghost use Rattle.gate_net.specs.Values.{AreGoodValues};
ghost use Rattle.gate_graph.specs.Circuit.{net_of};
ghost use Rattle.fault_sim.specs.Ordered.{IsOrdered};
ghost use Rattle.fault_sim.specs.Observing.{IsSeenForced};
ghost use Rattle.fault_sim.specs.Words.{assignment, lane, lane_values};
ghost use Rattle.fault_sim.specs.Inner.Spreading.{AreLanes, IsRested, IsSeenAt, IsSpread, MarksReaders};

use crate::pending::{mark, next_pending};
use crate::reading::read_word;
use crate::spread::{Spread, rest, write_word};
use gate_graph::Graph;
use gate_net::values_exist;
use rm_base::NodeId;

// Makes the places of a live node's readers pending.
fn mark_readers(graph: &Graph, node: NodeId, places: &[usize], pending: &mut Vec<u64>)
    requires live { IsLive (net_of graph.now) node.0 }
    requires within { (z p : ℕ) → Reads (net_of graph.now) z p node.0 → z < length places.now }
    requires room { (z p : ℕ) → Reads (net_of graph.now) z p node.0 → slice_index places.now z / 64 < length pending.old.items }
    ensures { MarksReaders (net_of graph.now) node.0 places.now pending.old.items pending.new.items }
{
    graph.readers_listed();
    for reader in graph.readers_of(node) {
        mark(pending, places[reader.0 as usize]);
    }
}

// Makes the places of a node's readers pending; a dead one has none.
pub(crate) fn mark_after(graph: &Graph, node: NodeId, places: &[usize], pending: &mut Vec<u64>)
    requires within { (z p : ℕ) → Reads (net_of graph.now) z p node.0 → z < length places.now }
    requires room { (z p : ℕ) → Reads (net_of graph.now) z p node.0 → slice_index places.now z / 64 < length pending.old.items }
    ensures { MarksReaders (net_of graph.now) node.0 places.now pending.old.items pending.new.items }
{
    graph.well_formed();
    if graph.kind(node).is_some() {
        mark_readers(graph, node, places, pending);
    }
}

// The lanes in which the node differs, where it is observed.
fn seen_at(graph: &Graph, node: NodeId, good: u64, faulty: u64) -> u64
    ensures { IsSeenAt (net_of graph.now) node.0 good faulty result }
{
    if graph.is_observed(node) {
        return good ^ faulty;
    }
    0
}

// Gives the root its word and makes its readers pending. The lanes in which it is seen to differ.
fn begin_at(
    graph: &Graph,
    words: &[u64],
    order: &[NodeId],
    places: &[usize],
    good: &[u64],
    spread: &mut Spread,
    root: NodeId,
    word: u64,
) -> u64
    requires order { IsOrdered (net_of graph.now) (map (λ n. n.0) order.now) }
    requires lanes { AreLanes (map (λ n. n.0) order.now) places.now good.now spread.old }
    requires values { (i : ℕ) → i < 64 → AreGoodValues (net_of graph.now) (assignment words.now i) (lane_values good.now i) }
    requires rested { IsRested spread.old }
    requires live { node_at (net_of graph.now) root.0 ≢ None }
    ensures spread { IsSpread (net_of graph.now) root.0 word words.now (map (λ n. n.0) order.now) good.now spread.new (slice_index places.now root.0 + 1) result }
    ensures lanes { AreLanes (map (λ n. n.0) order.now) places.now good.now spread.new }
{
    graph.well_formed();
    let number = root.0 as usize;
    write_word(spread, places[number], number, word);
    mark_after(graph, root, places, &mut spread.pending);
    seen_at(graph, root, good[number], word)
}

// Reads the node of a place again and makes its readers pending where it changes. The lanes in which a node up to it is
// seen to differ.
fn spread_at(
    graph: &Graph,
    words: &[u64],
    order: &[NodeId],
    places: &[usize],
    good: &[u64],
    spread: &mut Spread,
    place: usize,
    found: u64,
) -> u64
    requires sources { length words.now ≡ source_count (net_of graph.now) }
    requires order { IsOrdered (net_of graph.now) (map (λ n. n.0) order.now) }
    requires lanes { AreLanes (map (λ n. n.0) order.now) places.now good.now spread.old }
    requires place { place < length order.now }
    ensures spread { (root word : ℕ) → IsSpread (net_of graph.now) root word words.now (map (λ n. n.0) order.now) good.now spread.old place found → IsSpread (net_of graph.now) root word words.now (map (λ n. n.0) order.now) good.now spread.new (place + 1) result }
    ensures lanes { AreLanes (map (λ n. n.0) order.now) places.now good.now spread.new }
{
    graph.well_formed();
    let node = order[place];
    let number = node.0 as usize;
    let word = read_word(graph, words, good, spread, None, node);
    write_word(spread, place, number, word);
    if word == good[number] {
        return found;
    }
    mark_after(graph, node, places, &mut spread.pending);
    found | seen_at(graph, node, good[number], word)
}

// Spreads another word of the root. The lanes in which an observed node differs.
fn spread_root(
    graph: &Graph,
    words: &[u64],
    order: &[NodeId],
    places: &[usize],
    good: &[u64],
    spread: &mut Spread,
    root: NodeId,
    word: u64,
) -> u64
    requires sources { length words.now ≡ source_count (net_of graph.now) }
    requires order { IsOrdered (net_of graph.now) (map (λ n. n.0) order.now) }
    requires lanes { AreLanes (map (λ n. n.0) order.now) places.now good.now spread.old }
    requires values { (i : ℕ) → i < 64 → AreGoodValues (net_of graph.now) (assignment words.now i) (lane_values good.now i) }
    requires rested { IsRested spread.old }
    requires live { node_at (net_of graph.now) root.0 ≢ None }
    ensures spread { IsSpread (net_of graph.now) root.0 word words.now (map (λ n. n.0) order.now) good.now spread.new (length order.now) result }
    ensures lanes { AreLanes (map (λ n. n.0) order.now) places.now good.now spread.new }
{
    graph.well_formed();
    let mut found = begin_at(graph, words, order, places, good, spread, root, word);
    let mut at = places[root.0 as usize] + 1;
    while let Some(place) = next_pending(spread.pending.as_slice(), at) {
        found = spread_at(graph, words, order, places, good, spread, place, found);
        at = place + 1;
    }
    found
}

// The lanes in which an observed node differs where the root has another word.
pub(crate) fn seen_from(
    graph: &Graph,
    words: &[u64],
    order: &[NodeId],
    places: &[usize],
    good: &[u64],
    spread: &mut Spread,
    root: NodeId,
    word: u64,
) -> u64
    requires sources { length words.now ≡ source_count (net_of graph.now) }
    requires order { IsOrdered (net_of graph.now) (map (λ n. n.0) order.now) }
    requires lanes { AreLanes (map (λ n. n.0) order.now) places.now good.now spread.old }
    requires values { (i : ℕ) → i < 64 → AreGoodValues (net_of graph.now) (assignment words.now i) (lane_values good.now i) }
    requires rested { IsRested spread.old }
    requires live { node_at (net_of graph.now) root.0 ≢ None }
    ensures seen { (i : ℕ) → i < 64 → IsTrue (lane i result) ↔ IsSeenForced (net_of graph.now) root.0 (lane i word) (assignment words.now i) }
    ensures lanes { AreLanes (map (λ n. n.0) order.now) places.now good.now spread.new }
    ensures rested { IsRested spread.new }
{
    graph.well_formed();
    values_exist();
    let found = spread_root(graph, words, order, places, good, spread, root, word);
    rest(spread);
    found
}
