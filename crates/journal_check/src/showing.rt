// Detecting a fault by the lanes of a batch, where a change of each node is simulated once.
ghost use Rattle.std.specs.Prelude.{◌≡◌, ◌<◌, ◌↔◌, ℕ, IsTrue, IfOk, List};
ghost use Rattle.gate_graph.specs.Circuit.{net_of};
ghost use Rattle.gate_net.specs.Net.{Net};
ghost use Rattle.gate_net.specs.Values.{Detects};
ghost use Rattle.fault_sim.specs.LaneStates.{Fits, IsSimulated};
ghost use Rattle.fault_sim.specs.Words.{assignment};
ghost use Rattle.journal_check.specs.Inner.Tracing.{AddsShown, AreShown};

use crate::tracing::{Followed, trace};
use fault_sim::Lanes;
use gate_graph::{Graph, Question};
use rm_base::{NoMemory, NodeId};
use std::alloc::Global;

/// Of no node it is known yet that its change is seen.
pub(crate) fn none_shown(alloc: Global, graph: &Graph) -> Result<Vec<u64>, NoMemory>
    ensures { IfOk result (λ shown. (net : Net) (words : List ℕ) → AreShown net words shown.items) }
{
    Ok(vec![in alloc; 0u64; graph.node_bound() as usize]?)
}

// Notes that a change of the node is seen in these lanes too.
fn add_shown(shown: &mut Vec<u64>, node: NodeId, lanes: u64)
    ensures { AddsShown shown.old.items node.0 lanes shown.new.items }
{
    let number = node.0 as usize;
    if number < shown.len() {
        shown[number] = shown[number] | lanes;
    }
}

// Whether the fault is detected in the lane, by simulating it in all of them.
fn detects_here(lanes: &mut Lanes, shown: &mut Vec<u64>, question: &Question<'_>, lane: u32) -> bool
    requires lane { lane < 64 }
    requires fits { Fits lanes.old (net_of question.now.graph.now) }
    requires simulated { IsSimulated lanes.old (net_of question.now.graph.now) }
    requires shown { AreShown (net_of question.now.graph.now) lanes.old.words shown.old.items }
    ensures found { IsTrue result ↔ Detects (net_of question.now.graph.now) question.now.fault (assignment lanes.old.words lane) }
    ensures shown { AreShown (net_of question.now.graph.now) lanes.old.words shown.new.items }
    ensures same { lanes.new ≡ lanes.old }
{
    question.graph.well_formed();
    let found = lanes.detect(question);
    add_shown(shown, question.fault.gate, found);
    (found >> lane) & 1 == 1
}

/// Whether the fault is detected in the lane. What is found of changes of nodes is noted.
pub(crate) fn detects_in(
    lanes: &mut Lanes,
    shown: &mut Vec<u64>,
    question: &Question<'_>,
    lane: u32,
) -> bool
    requires lane { lane < 64 }
    requires fits { Fits lanes.old (net_of question.now.graph.now) }
    requires simulated { IsSimulated lanes.old (net_of question.now.graph.now) }
    requires shown { AreShown (net_of question.now.graph.now) lanes.old.words shown.old.items }
    ensures found { IsTrue result ↔ Detects (net_of question.now.graph.now) question.now.fault (assignment lanes.old.words lane) }
    ensures shown { AreShown (net_of question.now.graph.now) lanes.old.words shown.new.items }
    ensures same { lanes.new ≡ lanes.old }
{
    match trace(
        question.graph,
        lanes,
        shown.as_slice(),
        question.fault,
        lane,
    ) {
        Followed::Known(found) => found,
        Followed::Left(fault) => {
            let graph = question.graph;
            detects_here(lanes, shown, &Question { graph, fault }, lane)
        }
    }
}
