//! Copies of graphs.
ghost use Rattle.std.specs.Prelude.{◌≡◌, ◌+◌, IfOk};
ghost use Rattle.gate_graph.specs.Circuit.{free_nodes, free_pins, live_nodes, net_of, pins_taken};
ghost use Rattle.gate_graph.specs.Holds.{pins_held};
ghost use Rattle.gate_graph.specs.Readers.{SameReaders};

use crate::state::Graph;
use rm_base::NoMemory;
use std::alloc::Global;

impl Graph {
    /// A graph with the same net and the same readers in order, whose pins no undos hold. It takes the time of
    /// the numbers and the pins.
    pub fn copy(&self, alloc: Global) -> Result<Graph, NoMemory>
        ensures net { IfOk result (λ g. net_of g ≡ net_of self.now) }
        ensures fanouts { IfOk result (λ g. SameReaders self.now g) }
        ensures epoch { IfOk result (λ g. g.epoch ≡ self.now.epoch) }
        ensures held { IfOk result (λ g. pins_held g ≡ 0) }
        ensures taken { IfOk result (λ g. pins_taken g + pins_held self.now ≡ pins_taken self.now) }
        ensures pins { IfOk result (λ g. free_pins g ≡ free_pins self.now + pins_held self.now) }
        ensures nodes { IfOk result (λ g. free_nodes g ≡ free_nodes self.now) }
        ensures numbers { IfOk result (λ g. live_nodes g ≡ live_nodes self.now) }
    {
        self.tell();
        let pool = self.pool.copy(alloc)?;
        let kinds = Vec::from_slice(alloc, &self.kinds)?;
        Ok(Graph {
            pool,
            kinds,
            free: self.free,
            least: self.least,
            bound: self.bound,
            sources: self.sources,
            epoch: self.epoch,
        })
    }
}
