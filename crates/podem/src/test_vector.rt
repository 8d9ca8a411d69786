// The vector of a search that came to a test.
ghost use Rattle.std.specs.Prelude.{◌≡◌, ◌<◌, ◌+◌, ℕ, IfOk, Some, length, slice_get, true};
ghost use Rattle.gate_graph.specs.Circuit.{net_of};
ghost use Rattle.gate_net.specs.Forward.{is_known};
ghost use Rattle.gate_net.specs.Net.{source_count};
ghost use Rattle.ternary_sim.specs.Marks.{good_at};
ghost use Rattle.gate_net.specs.Forward.{MarksDetected};
ghost use Rattle.ternary_sim.specs.Marks.{marking};
ghost use Rattle.ternary_sim.specs.Regions.{IsCurrent};
ghost use Rattle.gate_net.specs.Faults.{IsTest};
ghost use Rattle.podem.specs.Verdicts.{IsVectorOf};

use gate_graph::{Graph, Question};
use rm_base::{FIRST_SOURCE, NoMemory, NodeId, SourceNo, Vector};
use std::alloc::Global;
use ternary_sim::Tracker;

// The sources that are known to be 1 are 1, and all others are 0.
fn vector_of(alloc: Global, graph: &Graph, tracker: &Tracker) -> Result<Vector, NoMemory>
    ensures { IfOk result (λ v. IsVectorOf (net_of graph.now) tracker.now.now v) }
{
    graph.well_formed();
    let count = graph.source_count();
    let mut vector = Vector::zeros(alloc, count as usize)?;
    for k in 0..count {
        let one = tracker.good(NodeId(FIRST_SOURCE + k)) == Some(true);
        vector.set(SourceNo(k), one);
    }
    Ok(vector)
}

/// The vector of known sources with which some observed node has known and different values; the others are 0.
pub(crate) fn test_of(
    alloc: Global,
    question: &Question<'_>,
    tracker: &Tracker,
) -> Result<Vector, NoMemory>
    requires current { IsCurrent (net_of question.now.graph.now) question.now.fault tracker.now.now }
    requires detected { MarksDetected (net_of question.now.graph.now) (marking tracker.now.now) }
    ensures { IfOk result (λ v. IsTest (net_of question.now.graph.now) question.now.fault v) }
{
    question.graph.well_formed();
    gate_net::values_exist();
    gate_net::faulty_values_exist();
    gate_net::readings_hold();
    ternary_sim::laws::regions_decide();
    let vector = vector_of(alloc, question.graph, tracker)?;
    Ok(vector)
}
