// Words that follow a net that changes: what reaches from the changed nodes is read again, as long as words change.
ghost use Rattle.std.specs.Prelude.{◌≡◌, ◌≢◌, ◌<◌, ◌+◌, ◌/◌, ℕ, None, Some, length, map, slice_get, slice_index, slice_set};
ghost use Rattle.gate_net.specs.Net.{kind_of, source_count};
ghost use Rattle.gate_graph.specs.Circuit.{net_of};
ghost use Rattle.fault_sim.specs.BlockStates.{AreGoodWords, IsBlock};
ghost use Rattle.fault_sim.specs.Inner.BlockStates.{ArePlaced};
ghost use Rattle.fault_sim.specs.Following.{AreTouched, IsRereading, WereGood};
ghost use Rattle.fault_sim.specs.Ordered.{IsOrdered};
ghost use Rattle.fault_sim.specs.Pending.{IsIdle};
ghost use Rattle.fault_sim.specs.Inner.Pending.{HasRoom, IsMarked};
ghost use Rattle.fault_sim.specs.Inner.Simulating.{IsWithin};
ghost use Rattle.fault_sim.specs.Inner.Spreading.{AreLanes, IsUnstamped};

use crate::good_reading::good_word;
use crate::pending::{mark, next_pending, unmark};
use crate::spread::Spread;
use crate::spreading::mark_after;
use gate_graph::Graph;
use rm_base::NodeId;

// Clears the word of a number, where there is one.
fn clear_word(good: &mut Vec<u64>, number: usize)
    ensures cleared { good.new.items ≡ slice_set good.old.items number 0 }
    ensures size { length good.new.items ≡ length good.old.items }
{
    if number < good.len() {
        good[number] = 0;
    }
}

// Makes a live node's place pending, and clears the word of a dead one.
fn touch(graph: &Graph, node: NodeId, places: &[usize], good: &mut Vec<u64>, pending: &mut Vec<u64>)
    requires within { kind_of (net_of graph.now) node.0 ≢ None → node.0 < length places.now }
    requires room { kind_of (net_of graph.now) node.0 ≢ None → slice_index places.now node.0 / 64 < length pending.old.items }
    ensures live { kind_of (net_of graph.now) node.0 ≢ None → IsMarked pending.old.items pending.new.items (slice_index places.now node.0) }
    ensures dead { kind_of (net_of graph.now) node.0 ≡ None → good.new.items ≡ slice_set good.old.items node.0 0 }
    ensures idle { kind_of (net_of graph.now) node.0 ≡ None → pending.new.items ≡ pending.old.items }
    ensures kept { kind_of (net_of graph.now) node.0 ≢ None → good.new.items ≡ good.old.items }
    ensures words { length good.new.items ≡ length good.old.items }
    ensures size { length pending.new.items ≡ length pending.old.items }
{
    let number = node.0 as usize;
    match graph.kind(node) {
        Some(_) => mark(pending, places[number]),
        None => clear_word(good, number),
    }
}

// Touches all of these nodes.
fn touch_all(
    graph: &Graph,
    changed: &[NodeId],
    order: &[NodeId],
    places: &[usize],
    good: &mut Vec<u64>,
    pending: &mut Vec<u64>,
)
    requires order { IsOrdered (net_of graph.now) (map (λ n. n.0) order.now) }
    requires within { IsWithin (map (λ n. n.0) order.now) (length places.now) }
    requires places { (k x : ℕ) → slice_get (map (λ n. n.0) order.now) k ≡ Some x → slice_index places.now x ≡ k }
    requires room { HasRoom pending.old.items (length (map (λ n. n.0) order.now)) }
    requires idle { (k : ℕ) → IsIdle pending.old.items k }
    ensures touched { AreTouched (net_of graph.now) (map (λ n. n.0) order.now) places.now (map (λ n. n.0) changed.now) good.old.items good.new.items pending.new.items (length changed.now) }
    ensures good { length good.new.items ≡ length good.old.items }
    ensures pending { length pending.new.items ≡ length pending.old.items }
{
    for node in changed {
        touch(graph, *node, places, good, pending);
    }
}

// Reads the node of a place again, and makes its readers pending where its word changes.
fn reread_at(
    graph: &Graph,
    words: &[u64],
    order: &[NodeId],
    places: &[usize],
    good: &mut Vec<u64>,
    spread: &mut Spread,
    place: usize,
)
    requires sources { length words.now ≡ source_count (net_of graph.now) }
    requires order { IsOrdered (net_of graph.now) (map (λ n. n.0) order.now) }
    requires lanes { AreLanes (map (λ n. n.0) order.now) places.now good.old.items spread.old }
    requires unstamped { IsUnstamped spread.old }
    requires place { place < length order.now }
    requires rereading { IsRereading (net_of graph.now) words.now (map (λ n. n.0) order.now) good.old.items spread.old.pending.items place }
    ensures rereading { IsRereading (net_of graph.now) words.now (map (λ n. n.0) order.now) good.new.items spread.new.pending.items (place + 1) }
    ensures lanes { AreLanes (map (λ n. n.0) order.now) places.now good.new.items spread.new }
    ensures unstamped { IsUnstamped spread.new }
    ensures size { length good.new.items ≡ length good.old.items }
{
    graph.well_formed();
    let node = order[place];
    let number = node.0 as usize;
    let word = good_word(graph, words, good.as_slice(), node);
    unmark(&mut spread.pending, place);
    if word == good[number] {
        return;
    }
    good[number] = word;
    mark_after(graph, node, places, &mut spread.pending);
}

// Reads the nodes of pending places again, in order.
fn reread(
    graph: &Graph,
    words: &[u64],
    order: &[NodeId],
    places: &[usize],
    good: &mut Vec<u64>,
    spread: &mut Spread,
)
    requires sources { length words.now ≡ source_count (net_of graph.now) }
    requires order { IsOrdered (net_of graph.now) (map (λ n. n.0) order.now) }
    requires lanes { AreLanes (map (λ n. n.0) order.now) places.now good.old.items spread.old }
    requires unstamped { IsUnstamped spread.old }
    requires rereading { IsRereading (net_of graph.now) words.now (map (λ n. n.0) order.now) good.old.items spread.old.pending.items 0 }
    ensures rereading { IsRereading (net_of graph.now) words.now (map (λ n. n.0) order.now) good.new.items spread.new.pending.items (length order.now) }
    ensures lanes { AreLanes (map (λ n. n.0) order.now) places.now good.new.items spread.new }
    ensures unstamped { IsUnstamped spread.new }
    ensures size { length good.new.items ≡ length good.old.items }
{
    let mut at = 0usize;
    while let Some(place) = next_pending(spread.pending.as_slice(), at) {
        reread_at(graph, words, order, places, good, spread, place);
        at = place + 1;
    }
}

// Makes words good for a net that differs among these nodes from the one that they were good for.
pub(crate) fn catch_up(
    graph: &Graph,
    words: &[u64],
    order: &[NodeId],
    places: &[usize],
    good: &mut Vec<u64>,
    spread: &mut Spread,
    changed: &[NodeId],
)
    requires sources { length words.now ≡ source_count (net_of graph.now) }
    requires order { IsOrdered (net_of graph.now) (map (λ n. n.0) order.now) }
    requires placed { ArePlaced (map (λ n. n.0) order.now) places.now spread.old }
    requires size { length good.old.items ≡ length places.now }
    requires were { WereGood (net_of graph.now) words.now good.old.items (map (λ n. n.0) changed.now) }
    ensures good { AreGoodWords (net_of graph.now) words.now good.new.items }
    ensures block { IsBlock (map (λ n. n.0) order.now) (length places.now) good.new.items }
    ensures placed { ArePlaced (map (λ n. n.0) order.now) places.now spread.new }
{
    graph.well_formed();
    touch_all(graph, changed, order, places, good, &mut spread.pending);
    reread(graph, words, order, places, good, spread);
}
