//! What the addition loop works on, and what it works with.
ghost use Rattle.std.specs.Prelude.{◌≡◌, ◌≤◌, [], IfOk, OnOk};
ghost use Rattle.gate_graph.specs.Circuit.{net_of};
ghost use Rattle.wire_edit.specs.Order.{IsTidy};
ghost use Rattle.recursive_learning.specs.Serving.{IsServing};
ghost use Rattle.rar_loop.specs.Inner.Kept.{AreFor};
ghost use Rattle.rar_loop.specs.Sizes.{IsSame};
ghost use Rattle.rar_loop.specs.Inner.Spaces.{CanFollow, CanReturn, HasToolsFor, TouchesNoted};

use crate::vectors::Vectors;
use changed_nodes::Changed;
use gate_graph::Graph;
use recursive_learning::refuter::Refuter;
use rm_base::{NoMemory, NodeId};
use std::alloc::Global;
use wire_edit::Trial;

/// A trial, and what refutes and detects its faults. All of it goes on from try to try and from net to net.
#[derive(Drop)]
pub(crate) struct Workspace {
    pub(crate) trial: Trial,
    pub(crate) refuter: Refuter,
    pub(crate) vectors: Vectors,
    // Nodes that vectors and refuter followed since the list was cleared.
    pub(crate) touched: Vec<NodeId>,
}

// What detects and refutes the faults of a graph.
fn tools_for(
    alloc: Global,
    graph: &Graph,
    found: &[Vec<u64>],
) -> Result<(Vectors, Refuter), NoMemory>
    ensures vectors { IfOk result (λ r. AreFor r.0 (net_of graph.now)) }
    ensures refuter { IfOk result (λ r. IsServing (net_of graph.now) r.1) }
{
    let vectors = Vectors::draw_for(alloc, graph, found)?;
    let refuter = Refuter::for_graph(alloc, graph)?;
    Ok((vectors, refuter))
}

impl Workspace {
    /// A workspace over the trial, with vectors that were found, a word for each source.
    pub(crate) fn over(
        alloc: Global,
        trial: Trial,
        found: &[Vec<u64>],
    ) -> Result<Workspace, NoMemory>
        ensures trial { IfOk result (λ s. s.trial ≡ trial) }
        ensures tools { IfOk result (HasToolsFor (net_of trial.graph)) }
    {
        let (vectors, refuter) = tools_for(alloc, trial.graph(), found)?;
        Ok(Workspace {
            trial,
            refuter,
            vectors,
            touched: Vec::new(alloc),
        })
    }

    /// Lets the vectors follow what is noted of the way to a tidy net, and the refuter that and the added nodes.
    pub(crate) fn follow(
        &mut self,
        alloc: Global,
        changed: &Changed,
        added: &[NodeId],
    ) -> Result<(), NoMemory>
        requires tidy { IsTidy (net_of self.old.trial.graph) }
        requires follows { CanFollow self.old changed.now added.now }
        ensures trial { self.new.trial ≡ self.old.trial }
        ensures tools { OnOk result (HasToolsFor (net_of self.new.trial.graph) self.new) }
        ensures touched { OnOk result (TouchesNoted (net_of self.old.trial.graph) changed.now self.old.touched.items self.new.touched.items) }
    {
        let graph = self.trial.graph();
        graph.well_formed();
        let mut nodes = changed.nodes(alloc, graph)?;
        self.vectors.follow(alloc, graph, nodes.as_slice())?;
        self.touched.extend_from_slice(nodes.as_slice())?;
        nodes.extend_from_slice(added)?;
        self.refuter.follow(graph, nodes.as_slice())?;
        Ok(())
    }

    /// Lets both follow the trial back to where the list of touched nodes was cleared.
    pub(crate) fn follow_back(&mut self, alloc: Global) -> Result<(), NoMemory>
        requires { CanReturn self.old }
        ensures trial { self.new.trial ≡ self.old.trial }
        ensures tools { OnOk result (HasToolsFor (net_of self.new.trial.graph) self.new) }
    {
        let graph = self.trial.graph();
        self.vectors.follow(alloc, graph, self.touched.as_slice())?;
        self.refuter.follow(graph, self.touched.as_slice())?;
        Ok(())
    }
}

/// The graph of a workspace whose trial is at its start.
pub(crate) fn into_graph(space: Workspace) -> Graph
    requires { space.trial.trail.entries ≡ [] }
    ensures { IsSame space.trial.graph result }
{
    let Workspace {
        trial,
        refuter: _refuter,
        vectors: _vectors,
        touched: _touched,
    } = space;
    trial.graph().well_formed();
    let graph = trial.commit();
    graph.well_formed();
    graph
}
