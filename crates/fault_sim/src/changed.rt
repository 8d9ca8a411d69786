//! Which nodes an edit changes.
ghost use Rattle.std.specs.Prelude.{◌≡◌, ◌∷◌, [], ℕ, IfOk, Some, map, slice_get};
ghost use Rattle.gate_graph.specs.Changes.{CanEdit, Edits};
ghost use Rattle.gate_graph.specs.Circuit.{Circuit, net_of};
ghost use Rattle.gate_net.specs.Edits.{IsLeastFree};
ghost use Rattle.gate_net.specs.Net.{IsLive, Reads};
ghost use Rattle.gate_net.specs.Edits.{IsSameBut};

use gate_graph::{Edit, Graph};
use rm_base::{NoMemory, NodeId};
use std::alloc::Global;

fn one_node(alloc: Global, node: NodeId) -> Result<Vec<NodeId>, NoMemory>
    ensures { IfOk result (λ ns. map (λ n. n.0) ns.items ≡ node.0 ∷ []) }
{
    let mut nodes = Vec::new(alloc);
    nodes.push(node)?;
    Ok(nodes)
}

// The readers of a node.
fn readers(alloc: Global, graph: &Graph, node: NodeId) -> Result<Vec<NodeId>, NoMemory>
    requires { IsLive (net_of graph.now) node.0 }
    ensures { IfOk result (λ ns. (z p : ℕ) → Reads (net_of graph.now) z p node.0 → (k : ℕ) × (slice_get (map (λ n. n.0) ns.items) k ≡ Some z)) }
{
    graph.readers_listed();
    let mut nodes = Vec::new(alloc);
    for reader in graph.readers_of(node) {
        nodes.push(reader)?;
    }
    Ok(nodes)
}

// The number that a new gate takes.
fn first_free(graph: &Graph) -> NodeId
    ensures { IsLeastFree (net_of graph.now) result.0 }
{
    graph.well_formed();
    let mut number = 0u32;
    while graph.kind(NodeId(number)).is_some() {
        number += 1;
    }
    NodeId(number)
}

/// The nodes that an edit is to change: those that get other drivers, come or go. The readers of a node whose readers
/// move are found before they move, and a new gate's number before it is taken.
pub fn changed_by(alloc: Global, graph: &Graph, edit: &Edit) -> Result<Vec<NodeId>, NoMemory>
    requires { CanEdit graph.now edit.now }
    ensures { IfOk result (λ ns. (after : Circuit) → Edits graph.now edit.now after → IsSameBut (net_of graph.now) (net_of after) (map (λ n. n.0) ns.items)) }
{
    match *edit {
        Edit::Append { gate, driver: _ } => one_node(alloc, gate),
        Edit::Remove { gate, position: _ } => one_node(alloc, gate),
        Edit::Redrive {
            gate,
            position: _,
            driver: _,
        } => one_node(alloc, gate),
        Edit::Readers { from, to: _ } => readers(alloc, graph, from),
        Edit::NewNot { driver: _ } => one_node(alloc, first_free(graph)),
        Edit::Retire { gate } => one_node(alloc, gate),
        Edit::ToNot { gate, position: _ } => one_node(alloc, gate),
    }
}
