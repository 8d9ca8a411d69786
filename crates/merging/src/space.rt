//! What merging works on, and what it works with.
ghost use Rattle.std.specs.Prelude.{◌≡◌, ◌++◌, ◌∷◌, [], IfOk, OnOk};
ghost use Rattle.gate_graph.specs.Circuit.{net_of};
ghost use Rattle.gate_net.specs.Edits.{IsSameBut};
ghost use Rattle.gate_net.specs.Net.{Net};
ghost use Rattle.recursive_learning.specs.Serving.{IsServing};
ghost use Rattle.merging.specs.Inner.Merging.{IsSame};
ghost use Rattle.rm_base.specs.Numbers.{numbers_of};
ghost use Rattle.wire_edit.specs.Order.{IsTidy};

use gate_graph::Graph;
use recursive_learning::refuter::Refuter;
use rm_base::{NoMemory, NodeId};
use std::alloc::Global;
use wire_edit::Trial;

/// A trial, and what refutes its faults. Both go on from merge to merge.
#[derive(Drop)]
pub(crate) struct Space {
    pub(crate) trial: Trial,
    pub(crate) refuter: Refuter,
    // Nodes that changed since the list was cleared.
    pub(crate) touched: Vec<NodeId>,
}

impl Space {
    /// A space over the trial.
    pub(crate) fn over(alloc: Global, trial: Trial) -> Result<Space, NoMemory>
        ensures trial { IfOk result (λ s. s.trial ≡ trial) }
        ensures serves { IfOk result (λ s. IsServing (net_of trial.graph) s.refuter) }
    {
        let refuter = Refuter::for_graph(alloc, trial.graph())?;
        Ok(Space {
            trial,
            refuter,
            touched: Vec::new(alloc),
        })
    }

    /// Lets the refuter follow what changed at these nodes.
    pub(crate) fn follow(&mut self, nodes: &[NodeId]) -> Result<(), NoMemory>
        requires follows { (before : Net) × (IsServing before self.old.refuter × IsSameBut before (net_of self.old.trial.graph) (numbers_of nodes.now)) }
        ensures trial { self.new.trial ≡ self.old.trial }
        ensures serves { OnOk result (IsServing (net_of self.new.trial.graph) self.new.refuter) }
        ensures touched { OnOk result (self.new.touched.items ≡ self.old.touched.items ++ nodes.now) }
    {
        self.touched.extend_from_slice(nodes)?;
        self.refuter.follow(self.trial.graph(), nodes)?;
        Ok(())
    }

    /// Lets the refuter follow the trial back to where the list of touched nodes was cleared.
    pub(crate) fn follow_back(&mut self) -> Result<(), NoMemory>
        requires back { (after : Net) × (IsServing after self.old.refuter × IsSameBut (net_of self.old.trial.graph) after (numbers_of self.old.touched.items)) }
        ensures trial { self.new.trial ≡ self.old.trial }
        ensures serves { OnOk result (IsServing (net_of self.new.trial.graph) self.new.refuter) }
    {
        self.refuter
            .follow(self.trial.graph(), self.touched.as_slice())?;
        Ok(())
    }
}

/// The graph of a space whose trial is at its start.
pub(crate) fn into_graph(space: Space) -> Graph
    requires { space.trial.trail.entries ≡ [] }
    ensures same { IsSame space.trial.graph result }
    ensures tidy { IsTidy (net_of space.trial.graph) → IsTidy (net_of result) }
{
    let Space {
        trial,
        refuter: _refuter,
        touched: _touched,
    } = space;
    trial.commit()
}
