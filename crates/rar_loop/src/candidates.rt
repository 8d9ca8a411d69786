//! The candidates of a target.
ghost use Rattle.std.specs.Prelude.{◌≡◌, ◌≤◌, IfOk, OnOk, length};
ghost use Rattle.gate_graph.specs.Circuit.{net_of};
ghost use Rattle.candidate_wires.specs.Candidates.{AreCandidatesOf};
ghost use Rattle.recursive_learning.specs.Serving.{IsServing};

use candidate_wires::{Candidate, Finder};
use gate_graph::Question;
use recursive_learning::refuter::Refuter;
use rm_base::NoMemory;
use std::alloc::Global;

/// Closes a target, and finds its candidates; none where its fault clashes.
pub(crate) fn candidates_of(
    alloc: Global,
    refuter: &mut Refuter,
    finder: &mut Finder,
    target: &Question<'_>,
) -> Result<Vec<Candidate>, NoMemory>
    requires serves { IsServing (net_of target.now.graph.now) refuter.old }
    requires numbers { length (net_of target.now.graph.now).nodes ≤ finder.old }
    ensures candidates { IfOk result (λ found. AreCandidatesOf (net_of target.now.graph.now) target.now.fault found.items) }
    ensures serves { OnOk result (IsServing (net_of target.now.graph.now) refuter.new) }
    ensures numbers { finder.new ≡ finder.old }
{
    let clashes = refuter.close(target)?;
    if clashes {
        return Ok(Vec::new(alloc));
    }
    let facts = refuter.facts();
    let added = refuter.added_facts();
    let found = finder.candidates_among(alloc, target, facts, added)?;
    Ok(found)
}
