// The engine, and what it tells.
ghost use Rattle.std.specs.Prelude.{◌≡◌, ◌≤◌, ℕ, List, [], IfOk, length, drop};
ghost use Rattle.gate_graph.specs.Circuit.{net_of};
ghost use Rattle.refutation.specs.declared.held.NodeFacts.{NodeFacts};
ghost use Rattle.implications.specs.Trail.{LeadsBack};

use crate::log::Log;
use crate::tallies::Tallies;
use gate_graph::Graph;
use refutation::site::Site;
use refutation::worklist::Worklist;
use refutation::{Fact, Line};
use rm_base::{NoMemory, NodeId};
use std::alloc::Global;
use std::marker::Model;

/// Closes sets of facts. Its buffers are made once, for the node numbers below a bound, and serve every call.
#[derive(Drop)]
pub struct Engine {
    pub(crate) alloc: Global,
    pub(crate) log: Log,
    pub(crate) worklist: Worklist,
    pub(crate) tallies: Tallies,
    pub(crate) site: Site,
}

impl Model for Engine {
    ghost use Rattle.std.specs.Prelude.{◌≡◌, length, replicate, false};
    ghost use Rattle.implications.specs.State.{EngineState};

    ghost Value = { EngineState };

    ghost view = { λ e. record { numbers = length e.worklist; lines = e.log.lines.items; trail = e.log.trail.items } };

    ghost invariant = { λ e. (e.worklist ≡ replicate (length e.worklist) false) × (e.tallies.counted ≡ replicate (length e.worklist) false) × (length e.site.reached ≡ length e.worklist) };
}

impl Engine {
    /// An engine for the graph, and for any other with no more node numbers.
    pub fn new(alloc: Global, graph: &Graph) -> Result<Engine, NoMemory>
        ensures numbers { IfOk result (λ e. length (net_of graph.now).nodes ≤ e.numbers) }
        ensures lines { IfOk result (λ e. e.lines ≡ []) }
        ensures trail { IfOk result (λ e. e.trail ≡ []) }
    {
        Engine::for_numbers(alloc, graph.node_bound())
    }

    /// An engine for graphs with node numbers below `numbers`.
    pub fn for_numbers(alloc: Global, numbers: u32) -> Result<Engine, NoMemory>
        ensures numbers { IfOk result (λ e. e.numbers ≡ numbers) }
        ensures lines { IfOk result (λ e. e.lines ≡ []) }
        ensures trail { IfOk result (λ e. e.trail ≡ []) }
    {
        let worklist = Worklist::new(alloc, numbers)?;
        let tallies = Tallies::new(alloc, numbers)?;
        let site = Site::new(alloc, numbers)?;
        let log = Log {
            lines: Vec::with_capacity(alloc, numbers as usize)?,
            trail: Vec::with_capacity(alloc, numbers as usize)?,
            work_done: 0,
        };
        Ok(Engine {
            alloc,
            log,
            worklist,
            tallies,
            site,
        })
    }

    /// The lines of the last `close`, `grow` or `extend`, in order and without the clash; none before the first such
    /// call, and none after one that answered want of memory.
    pub fn lines(&self) -> &[Line]
        ensures { result.now ≡ self.now.lines }
    {
        self.log.lines.as_slice()
    }

    /// The work of its calls together, which a limit of work bounds: a unit for each fact that they held, and for each node that
    /// a faulty gate reaches.
    pub fn work_done(&self) -> u64 {
        self.log.work_done
    }

    /// Counts this work as its own too, as that of an engine in whose place it comes.
    pub fn count_work(&mut self, before: u64)
        ensures { self.new ≡ self.old }
    {
        self.log.work_done = self.log.work_done.saturating_add(before);
    }

    /// Where the trail ends now, to come back to by `take_back`.
    pub fn mark(&self) -> usize
        ensures mark { result ≡ length self.now.trail }
        ensures back { (now : List NodeFacts) → LeadsBack self.now.trail result now now }
    {
        self.log.trail.len()
    }

    /// The facts that were added after the mark, in order.
    pub fn added_facts(&self, mark: usize) -> &[(NodeId, Fact)]
        requires { mark ≤ length self.now.trail }
        ensures { result.now ≡ drop mark self.now.trail }
    {
        &self.log.trail[mark..]
    }
}
