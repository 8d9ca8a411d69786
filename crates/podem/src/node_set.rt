// The nodes that a walk has come to.
use gate_graph::Graph;
use rm_base::{NoMemory, NodeId};
use std::alloc::Global;

/// A list of nodes, each at most once. What it lists shapes the search, and no contract rests on it.
#[derive(Drop)]
pub(crate) struct NodeSet {
    seen: Vec<bool>,
    list: Vec<NodeId>,
}

// Takes the marks off the numbers of a list.
fn unmark(seen: &mut Vec<bool>, list: &[NodeId]) {
    for node in list {
        let place = node.0 as usize;
        if place < seen.len() {
            seen[place] = false;
        }
    }
}

impl NodeSet {
    /// An empty list, for node numbers below `numbers`.
    pub(crate) fn new(alloc: Global, numbers: u32) -> Result<NodeSet, NoMemory> {
        let seen = vec![in alloc; false; numbers as usize]?;
        Ok(NodeSet {
            seen,
            list: Vec::new(alloc),
        })
    }

    // Marks a number; whether it wasn't marked.
    fn mark(&mut self, node: NodeId) -> bool {
        let place = node.0 as usize;
        if place >= self.seen.len() {
            return false;
        }
        let new = !self.seen[place];
        self.seen[place] = true;
        new
    }

    /// Lists the readers of the node that aren't listed yet.
    pub(crate) fn visit_readers(&mut self, graph: &Graph, node: NodeId) -> Result<(), NoMemory> {
        let Some(_) = graph.kind(node) else {
            return Ok(());
        };
        for reader in graph.readers_of(node) {
            if self.mark(reader) {
                self.list.push(reader)?;
            }
        }
        Ok(())
    }

    /// The node at that place of the list.
    pub(crate) fn at(&self, place: u32) -> Option<NodeId> {
        let place = place as usize;
        if place < self.list.len() {
            Some(self.list[place])
        } else {
            None
        }
    }

    /// Empties the list, in the time of its nodes.
    pub(crate) fn clear(&mut self) {
        unmark(&mut self.seen, &self.list);
        self.list.clear();
    }
}
