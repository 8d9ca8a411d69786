// Nodes whose good values are held.
ghost use Rattle.std.specs.Prelude.{◌≡◌, ◌≤◌, OnOk, length};
ghost use Rattle.gate_graph.specs.Circuit.{net_of};
ghost use Rattle.refutation.specs.FactSets.{held_by};
ghost use Rattle.recursive_learning.specs.Inner.Holding.{ListsNodes, NamesAdded, NamesGood, NamesKnown, StillNames};

use gate_graph::Graph;
use refutation::pins::{Aspect, known_of};
use refutation::worklist::Worklist;
use refutation::{Fact, FactSet};
use rm_base::{NoMemory, NodeId};

// Appends the node of a good value.
fn push_good(entry: (NodeId, Fact), nodes: &mut Vec<NodeId>) -> Result<(), NoMemory>
    ensures kept { OnOk result (StillNames nodes.old.items nodes.new.items) }
    ensures there { OnOk result (NamesGood entry nodes.new.items) }
{
    let (node, Fact::Good(_)) = entry else {
        return Ok(());
    };
    nodes.push(node)?;
    Ok(())
}

/// Appends the nodes of the good values among added facts.
pub fn push_added(added: &[(NodeId, Fact)], nodes: &mut Vec<NodeId>) -> Result<(), NoMemory>
    ensures kept { OnOk result (StillNames nodes.old.items nodes.new.items) }
    ensures added { OnOk result (NamesAdded added.now nodes.new.items) }
{
    for entry in added {
        push_good(*entry, nodes)?;
    }
    Ok(())
}

/// Appends the nodes whose good value is known. It goes over the whole net.
pub fn push_known(graph: &Graph, facts: &FactSet, nodes: &mut Vec<NodeId>) -> Result<(), NoMemory>
    requires { length (net_of graph.now).nodes ≤ length facts.now }
    ensures { OnOk result (NamesKnown (net_of graph.now) (held_by facts.now) nodes.new.items) }
{
    for number in 0..graph.node_bound() {
        if known_of(facts, Aspect::OfGood, NodeId(number)).is_some() {
            nodes.push(NodeId(number))?;
        }
    }
    Ok(())
}

/// Lists the nodes.
pub fn list_nodes(nodes: &[NodeId], listed: &mut Worklist)
    ensures listed { ListsNodes nodes.now listed.new }
    ensures size { length listed.new ≡ length listed.old }
{
    for node in nodes {
        if (node.0 as usize) < listed.len() {
            listed.add(*node);
        }
    }
}
