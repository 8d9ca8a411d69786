//! The chain of a gate.
ghost use Rattle.std.specs.Prelude.{◌≡◌, ◌≤◌, ◌↔◌, IsTrue, length};
ghost use Rattle.gate_net.specs.Net.{IsLive};
ghost use Rattle.gate_net.specs.Paths.{IsInChain};
ghost use Rattle.gate_graph.specs.Circuit.{net_of};
ghost use Rattle.local_evaluation.specs.Chains.{IsNextInChain};
ghost use Rattle.local_evaluation.specs.Inner.Chains.{IsOnlyReaderFound};
ghost use Rattle.local_evaluation.specs.Sites.{MarksChain};

use crate::worklist::Worklist;
use gate_graph::Graph;
use rm_base::NodeId;

// The gate that all pins of the node's readers belong to.
fn only_reader(graph: &Graph, node: NodeId) -> Option<NodeId>
    requires { IsLive (net_of graph.now) node.0 }
    ensures { IsOnlyReaderFound (net_of graph.now) node.0 result }
{
    graph.readers_listed();
    let mut readers = graph.readers_of(node);
    let Some(gate) = readers.next() else {
        return None;
    };
    for other in readers {
        if other.0 != gate.0 {
            return None;
        }
    }
    Some(gate)
}

/// The node to which a chain goes on from this one: the only gate that reads it, where it isn't observed.
pub fn next_in_chain(graph: &Graph, node: NodeId) -> Option<NodeId>
    requires { IsLive (net_of graph.now) node.0 }
    ensures { IsNextInChain (net_of graph.now) node.0 result }
{
    if graph.is_observed(node) {
        return None;
    }
    only_reader(graph, node)
}

/// Whether the node is in the chain that begins with the gate.
pub fn is_in_chain(graph: &Graph, gate: NodeId, node: NodeId) -> bool
    requires { IsLive (net_of graph.now) gate.0 }
    ensures { IsTrue result ↔ IsInChain (net_of graph.now) gate.0 node.0 }
{
    graph.well_formed();
    let bound = graph.node_bound();
    let mut at = gate;
    for _step in 0..bound {
        if at.0 == node.0 {
            return true;
        }
        let Some(next) = next_in_chain(graph, at) else {
            return false;
        };
        at = next;
    }
    unreachable!()
}

// Marks the nodes of the chain that begins with the gate, and no others.
pub(crate) fn mark_chain(graph: &Graph, gate: NodeId, marks: &mut Worklist)
    requires gate { IsLive (net_of graph.now) gate.0 }
    requires room { length (net_of graph.now).nodes ≤ length marks.old }
    ensures marked { MarksChain (net_of graph.now) gate.0 marks.new }
    ensures size { length marks.new ≡ length marks.old }
{
    graph.well_formed();
    let bound = marks.len();
    marks.clear();
    let mut at = gate;
    for _step in 0..bound {
        marks.add(at);
        let Some(next) = next_in_chain(graph, at) else {
            return;
        };
        at = next;
    }
    unreachable!()
}
