//! What is redundant without any addition.
ghost use Rattle.std.specs.Prelude.{◌≡◌, ◌≤◌, ◌+◌, Err, IfOk, IfErr};
ghost use Rattle.rm_base.specs.Causes.{Rose};
ghost use Rattle.gate_graph.specs.Circuit.{net_of, pins_taken, live_nodes};
ghost use Rattle.wire_edit.specs.Order.{IsTidy};
ghost use Rattle.journal_text.specs.Appends.{IsThere};
ghost use Rattle.journal_text.specs.Runs.{IsStopped};
ghost use Rattle.rar_loop.specs.Sizes.{IsWithin};
ghost use Rattle.rar_loop.specs.Removed.{HasRemoved};

use crate::beginning::swept_graph;
use gate_graph::Graph;
use journal_ranges::records_fit;
use journal_text::{
    Stop, accepted_runs_are_writable, append_records, count_records, runs_join, texts_append,
};
use rm_base::{Made, Shelf};
use std::alloc::Global;

/// Tidies the net and fixes refuted pins until none is left. Each step is recorded with its tree. The units of work that this
/// was come to `work`. After a `Stop` the graph is dropped.
pub fn remove_redundant<S: Shelf>(
    alloc: Global,
    graph: Graph,
    depth: u8,
    shelf: &mut S,
    journal: &str,
    work: &mut u64,
) -> Result<(Graph, Made), Stop>
    requires few { pins_taken graph + live_nodes graph ≤ 1048576 }
    requires depth { depth ≤ 2 }
    requires there { IsThere (S.files shelf.old) journal.now }
    ensures removed { IfOk result (λ r. HasRemoved (net_of graph) (net_of r.0) depth r.1 (S.files shelf.old) (S.files shelf.new) journal.now) }
    ensures tidy { IfOk result (λ r. IsTidy (net_of r.0)) }
    ensures within { IfOk result (λ r. IsWithin graph r.0) }
    ensures grown { work.old ≤ work.new }
    ensures stopped { IfErr result (λ _. IsStopped (net_of graph) (S.files shelf.old) (S.files shelf.new) journal.now) }
    ensures there { IsThere (S.files shelf.new) journal.now }
    ensures failed { result ≡ Err Stop.Failed → Rose (S.faults shelf.old) (S.faults shelf.new) }
    ensures later { S.faults shelf.old ≤ S.faults shelf.new }
{
    accepted_runs_are_writable();
    runs_join();
    texts_append();
    let mut made = Made {
        adds: 0,
        fixes: 0,
        local: 0,
    };
    let (swept, records) = swept_graph(alloc, graph, depth, &[], work)?;
    append_records(alloc, shelf, journal, &records)?;
    count_records(&records, &mut made);
    records_fit(&records);
    Ok((swept, made))
}
