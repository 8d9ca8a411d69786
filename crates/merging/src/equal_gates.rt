//! Merging the equal gates of a net.
ghost use Rattle.std.specs.Prelude.{◌<◌, ◌≤◌, ◌+◌, ◌^◌, IfOk, length};
ghost use Rattle.gate_graph.specs.Circuit.{live_nodes, net_of, pins_taken};
ghost use Rattle.gate_net.specs.Net.{wire_count};
ghost use Rattle.journal_text.specs.Accepted.{Keeps};
ghost use Rattle.journal_text.specs.Runs.{AcceptedTo};
ghost use Rattle.merging.specs.Merged.{IsWithin};
ghost use Rattle.wire_edit.specs.Order.{IsTidy};

use crate::beginning::open_space;
use crate::effort::Effort;
use crate::space::into_graph;
use crate::walking::merge_all;
use gate_graph::Graph;
use journal_text::{Record, accepted_runs_keep};
use rm_base::NoMemory;
use std::alloc::Global;

/// Tidies the net, and merges its gates that have the same value under each assignment, or opposite ones, and those that are
/// constant (Brand, Verification of large synthesized designs, ICCAD 1993; Kuehlmann, Paruthi, Krohm and Ganai, Robust Boolean
/// reasoning for equivalence checking and functional property verification, IEEE Transactions on CAD, 2002; Mishchenko,
/// Chatterjee, Jiang and Brayton, FRAIGs, 2005). Gates that agree under drawn vectors are merged where each fault that this
/// needs is refuted by learning to the depth, 0 to 2, or by a search that enters at most `budget` edges: the gate gets a pin
/// that reads the earlier one, and its other pins are fixed. Which gates agree but aren't merged isn't told. The records are of
/// all steps, each with its tree. The units of work that the refutations were come to `work`.
pub fn merge_equal(
    alloc: Global,
    graph: Graph,
    depth: u8,
    budget: u32,
    work: &mut u64,
) -> Result<(Graph, Vec<Record>), NoMemory>
    requires few { pins_taken graph + live_nodes graph ≤ 1048576 }
    requires depth { depth ≤ 2 }
    requires budget { 0 < budget }
    ensures accepted { IfOk result (λ r. AcceptedTo (net_of graph) r.1.items (net_of r.0)) }
    ensures keeps { IfOk result (λ r. Keeps (net_of graph) (net_of r.0)) }
    ensures tidy { IfOk result (λ r. IsTidy (net_of r.0)) }
    ensures fewer { IfOk result (λ r. wire_count (net_of r.0) ≤ wire_count (net_of graph)) }
    ensures within { IfOk result (λ r. IsWithin graph r.0) }
    ensures grown { work.old ≤ work.new }
    ensures records { IfOk result (λ r. length r.1.items ≤ 2 ^ 45) }
{
    accepted_runs_keep();
    graph.well_formed();
    let (mut space, mut log) = open_space(alloc, graph)?;
    merge_all(alloc, &mut space, &mut log, Effort { depth, budget })?;
    let done = work.saturating_add(space.refuter.work_done());
    *work = (*work).max(done);
    space.trial.graph().well_formed();
    let merged = into_graph(space);
    merged.well_formed();
    Ok((merged, log))
}
