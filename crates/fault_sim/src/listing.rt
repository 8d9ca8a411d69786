// An order of a net, with the place of each node and room for the spread of a fault.
ghost use Rattle.std.specs.Prelude.{◌≡◌, ◌≤◌, IfOk, length, map};
ghost use Rattle.gate_graph.specs.Circuit.{net_of};
ghost use Rattle.gate_graph.specs.Order.{IsOrder};
ghost use Rattle.fault_sim.specs.Inner.BlockStates.{ArePlaced};

use crate::making::places_of;
use crate::spread::{Spread, new_spread};
use gate_graph::Graph;
use rm_base::{NoMemory, NodeId};
use std::alloc::Global;

/// The order, and the place of each node in it.
#[derive(Debug, Drop)]
pub struct Listing {
    pub(crate) order: Vec<NodeId>,
    pub(crate) places: Vec<usize>,
    pub(crate) spread: Spread,
}

// Room for so many numbers: what there was, or where that is too little more than is needed now.
fn room_for(numbers: u32, least: usize) -> usize
    ensures numbers { numbers ≤ result }
    ensures least { least ≤ result }
{
    if numbers as usize <= least {
        return least;
    }
    numbers as usize + numbers as usize / 8 + 64
}

// The order of a graph, for so many numbers at least.
pub(crate) fn list_in_order(alloc: Global, graph: &Graph, least: usize) -> Result<Listing, NoMemory>
    ensures order { IfOk result (λ l. IsOrder (net_of graph.now) (map (λ n. n.0) l.order.items)) }
    ensures placed { IfOk result (λ l. ArePlaced (map (λ n. n.0) l.order.items) l.places.items l.spread) }
    ensures numbers { IfOk result (λ l. least ≤ length l.places.items) }
{
    let order = graph.order(alloc)?;
    let numbers = room_for(graph.node_bound(), least);
    let places = places_of(alloc, order.as_slice(), numbers)?;
    let spread = new_spread(alloc, numbers, order.len())?;
    Ok(Listing {
        order,
        places,
        spread,
    })
}
