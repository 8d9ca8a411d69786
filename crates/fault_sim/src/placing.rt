// Whether an order of a net still holds where some nodes changed.
ghost use Rattle.std.specs.Prelude.{◌≡◌, ◌≢◌, ◌<◌, ℕ, None, Some, false, length, map, slice_get, slice_index};
ghost use Rattle.gate_net.specs.Net.{Reads, kind_of};
ghost use Rattle.gate_graph.specs.Circuit.{net_of};
ghost use Rattle.fault_sim.specs.Following.{Stands};

use gate_graph::Graph;
use refutation::following::gate_pins;
use rm_base::NodeId;

// Whether the order has something else, or nothing, at the node's place.
fn is_elsewhere(order: &[NodeId], places: &[usize], node: NodeId) -> bool
    ensures place { result ≡ false → slice_get (map (λ n. n.0) order.now) (slice_index places.now node.0) ≡ Some node.0 }
    ensures within { result ≡ false → node.0 < length places.now }
{
    let Some(place) = places.get(node.0 as usize) else {
        return true;
    };
    let Some(there) = order.get(*place) else {
        return true;
    };
    there.0 != node.0
}

// Whether the node has no earlier place.
fn is_late(places: &[usize], node: NodeId, place: usize) -> bool
    ensures { result ≡ false → slice_index places.now node.0 < place }
{
    match places.get(node.0 as usize) {
        Some(earlier) => *earlier >= place,
        None => true,
    }
}

// Whether some driver of a node has no earlier place.
fn any_driver_late(graph: &Graph, places: &[usize], node: NodeId, place: usize) -> bool
    requires { kind_of (net_of graph.now) node.0 ≢ None }
    ensures { result ≡ false → (p d : ℕ) → Reads (net_of graph.now) node.0 p d → slice_index places.now d < place }
{
    for driver in gate_pins(graph, node) {
        if is_late(places, driver, place) {
            return true;
        }
    }
    false
}

// Whether the node is live and doesn't stand after its drivers.
fn is_misplaced(graph: &Graph, order: &[NodeId], places: &[usize], node: NodeId) -> bool
    ensures { result ≡ false → kind_of (net_of graph.now) node.0 ≢ None → Stands (net_of graph.now) (map (λ n. n.0) order.now) places.now node.0 }
{
    let Some(_) = graph.kind(node) else {
        return false;
    };
    if is_elsewhere(order, places, node) {
        return true;
    }
    any_driver_late(graph, places, node, places[node.0 as usize])
}

// Whether some of these nodes is live and doesn't stand after its drivers.
pub(crate) fn any_misplaced(
    graph: &Graph,
    order: &[NodeId],
    places: &[usize],
    changed: &[NodeId],
) -> bool
    ensures { result ≡ false → (k y : ℕ) → slice_get (map (λ n. n.0) changed.now) k ≡ Some y → kind_of (net_of graph.now) y ≢ None → Stands (net_of graph.now) (map (λ n. n.0) order.now) places.now y }
{
    for node in changed {
        if is_misplaced(graph, order, places, *node) {
            return true;
        }
    }
    false
}
