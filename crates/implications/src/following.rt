// A basis that follows a net that changes.
ghost use Rattle.std.specs.Prelude.{◌≡◌, ◌≤◌, ◌<◌, ℕ, OnOk, Some, length, map, slice_get};
ghost use Rattle.gate_graph.specs.Circuit.{net_of};
ghost use Rattle.gate_net.specs.Edits.{IsSameBut};
ghost use Rattle.gate_net.specs.Net.{Net};
ghost use Rattle.refutation.specs.FactSets.{held_by};
ghost use Rattle.implications.specs.Bases.{HasRoom, IsFitted, IsListed, IsRest};
ghost use Rattle.implications.specs.Inner.Bases.{IsRefitted};
ghost use Rattle.implications.specs.Outside.{IsPinless};

use crate::basis::Basis;
use crate::beginning::is_pinless;
use gate_graph::Graph;
use refutation::{Fact, FactSet};
use rm_base::{NoMemory, NodeId};
use std::alloc::Global;

// Holds that the node is equal exactly where it is live.
fn refit_node(graph: &Graph, facts: &mut FactSet, node: NodeId)
    requires { length (net_of graph.now).nodes ≤ length facts.old }
    ensures refitted { IsRefitted (net_of graph.now) node.0 facts.old facts.new }
    ensures size { length facts.new ≡ length facts.old }
{
    graph.well_formed();
    if node.0 as usize >= facts.len() {
        return;
    }
    if graph.kind(node).is_some() {
        facts.insert(node, Fact::Equal);
    } else {
        facts.remove(node, Fact::Equal);
    }
}

// From rest for a net that differs at these nodes alone.
fn refit_nodes(graph: &Graph, facts: &mut FactSet, nodes: &[NodeId])
    requires room { length (net_of graph.now).nodes ≤ length facts.old }
    ensures rest { (before : Net) → IsRest before (held_by facts.old) → IsSameBut before (net_of graph.now) (map (λ n. n.0) nodes.now) → IsRest (net_of graph.now) (held_by facts.new) }
    ensures size { length facts.new ≡ length facts.old }
{
    for node in nodes {
        refit_node(graph, facts, *node);
    }
}

// Lists those of the nodes that are gates without pins.
fn list_pinless(graph: &Graph, nodes: &[NodeId], pinless: &mut Vec<NodeId>) -> Result<(), NoMemory>
    requires { (k : ℕ) (n : NodeId) → slice_get pinless.old.items k ≡ Some n → n.0 < length (net_of graph.now).nodes }
    ensures all { OnOk result ((y : ℕ) → IsListed nodes.now y → IsPinless (net_of graph.now) y → IsListed pinless.new.items y) }
    ensures kept { OnOk result ((y : ℕ) → IsListed pinless.old.items y → IsListed pinless.new.items y) }
    ensures below { OnOk result ((k : ℕ) (n : NodeId) → slice_get pinless.new.items k ≡ Some n → n.0 < length (net_of graph.now).nodes) }
{
    for node in nodes {
        if is_pinless(graph, *node) {
            pinless.push(*node)?;
        }
    }
    Ok(())
}

impl Basis {
    /// At rest for the net of the graph, from rest for one that differs from it at these nodes alone. It takes the time of
    /// these nodes, and of the gates without pins.
    pub fn follow(&mut self, alloc: Global, graph: &Graph, nodes: &[NodeId]) -> Result<(), NoMemory>
        requires room { HasRoom (net_of graph.now) self.old }
        requires before { (before : Net) × (IsFitted before self.old × IsSameBut before (net_of graph.now) (map (λ n. n.0) nodes.now)) }
        ensures fitted { OnOk result (IsFitted (net_of graph.now) self.new) }
        ensures room { OnOk result (HasRoom (net_of graph.now) self.new) }
    {
        refit_nodes(graph, &mut self.facts, nodes);
        let mut pinless = Vec::new(alloc);
        list_pinless(graph, &self.pinless, &mut pinless)?;
        list_pinless(graph, nodes, &mut pinless)?;
        self.pinless = pinless;
        Ok(())
    }
}
