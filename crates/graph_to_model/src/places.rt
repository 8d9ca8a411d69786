// The first places of the observed nodes.
ghost use Rattle.std.specs.Prelude.{◌≡◌, ◌<◌, ◌≤◌, [], All, IfOk, length};
ghost use Rattle.gate_graph.specs.Circuit.{net_of};
ghost use Rattle.graph_to_model.specs.Inner.Making.{AreFirstPlaces};

use gate_graph::Graph;
use rm_base::NoMemory;
use std::alloc::Global;

/// The observed nodes, in order.
pub fn observed_nodes(alloc: Global, graph: &Graph) -> Result<Vec<usize>, NoMemory>
    ensures { IfOk result (λ nodes. nodes.items ≡ (net_of graph.now).observed) }
{
    let mut nodes = Vec::new(alloc);
    for node in graph.observed_points() {
        nodes.push(node.0 as usize)?;
    }
    Ok(nodes)
}

// Writes the places from the last to the first, so that the first stays.
fn write_places(places: &mut [Option<usize>], nodes: &[usize])
    requires within { All (λ n. n < length places.old) nodes.now }
    requires none { AreFirstPlaces [] places.old }
    ensures { AreFirstPlaces nodes.now places.new }
{
    let mut left = nodes.len();
    while left > 0 {
        left -= 1;
        places[nodes[left]] = Some(left);
    }
}

/// The first place of each number below the bound.
pub fn first_places(
    alloc: Global,
    bound: usize,
    nodes: &[usize],
) -> Result<Vec<Option<usize>>, NoMemory>
    requires { All (λ n. n < bound) nodes.now }
    ensures places { IfOk result (λ places. AreFirstPlaces nodes.now places.items) }
    ensures count { IfOk result (λ places. length places.items ≡ bound) }
{
    let mut places = Vec::new(alloc);
    places.resize(bound, None)?;
    write_places(places.as_mut_slice(), nodes);
    Ok(places)
}
