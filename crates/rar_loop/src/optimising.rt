//! The addition loop, each run of steps that is kept recorded at once.
ghost use Rattle.std.specs.Prelude.{◌≡◌, ◌≤◌, ◌+◌, Err, IfOk, IfErr, OnOk};
ghost use Rattle.rm_base.specs.Causes.{Rose};
ghost use Rattle.gate_net.specs.Net.{wire_count};
ghost use Rattle.gate_graph.specs.Circuit.{Circuit, net_of, pins_taken, live_nodes};
ghost use Rattle.wire_edit.specs.Order.{IsTidy};
ghost use Rattle.journal_text.specs.Accepted.{Keeps};
ghost use Rattle.journal_text.specs.Appends.{IsThere};
ghost use Rattle.journal_text.specs.Runs.{IsStopped};
ghost use Rattle.rar_loop.specs.Sizes.{IsWithin};
ghost use Rattle.rar_loop.specs.Inner.Spaces.{IsReady};
ghost use Rattle.rar_loop.specs.Swept.{IsSwept};
ghost use Rattle.rar_loop.specs.Ended.{AreFew, IsCutShort, IsOptimised, allowed_to};
ghost use Rattle.rar_loop.specs.Rounds.{tries_of};
ghost use Rattle.rar_loop.specs.Inner.Improving.{ComesThrough, HasBegun, IsHere, StopsFrom, SweepComesThrough};

use crate::beginning::open_workspace;
use crate::limits::{Limits, raise};
use crate::walking::{WalkOutcome, walk_pairs};
use crate::workspace::{Workspace, into_graph};
use candidate_wires::Outcome;
use gate_graph::Graph;
use journal_ranges::records_fit;
use journal_text::{
    Record, Stop, accepted_runs_are_writable, accepted_runs_keep, append_records, count_records,
    runs_join, texts_append,
};
use rm_base::{Fault, Made, Settings, Shelf};
use std::alloc::Global;

// Tries pairs from a swept net on, in turns from a target on, and records each run of steps that is kept; how much work the
// run is then.
fn improve<S: Shelf>(
    alloc: Global,
    space: &mut Workspace,
    limits: &Limits,
    shelf: &mut S,
    journal: &str,
    made: &mut Made,
    start: &mut Option<Fault>,
) -> Result<(Outcome, u64), Stop>
    requires ready { IsReady space.old }
    requires depth { limits.now.settings.depth ≤ 2 }
    requires there { IsThere (S.files shelf.old) journal.now }
    requires under_way { IsHere start.old limits.now.settings.depth limits.now.settings.tries space.old.trial.graph made.old (S.files shelf.old) journal.now }
    ensures through { IfOk result (λ r. ComesThrough start.old start.new limits.now.settings.depth limits.now.settings.tries space.old.trial.graph made.old (S.files shelf.old) space.new.trial.graph r.0 made.new (S.files shelf.new) journal.now) }
    ensures tries { IfOk result (λ r. tries_of r.0 ≤ limits.now.settings.tries) }
    ensures cut_short { IfOk result (λ r. IsCutShort limits.now.settings r.1 r.0) }
    ensures ready { OnOk result (IsReady space.new) }
    ensures made { OnOk result (AreFew made.new) }
    ensures stopped { IfErr result (λ _. StopsFrom start.old limits.now.settings.depth limits.now.settings.tries space.old.trial.graph made.old (S.files shelf.old) (S.files shelf.new) journal.now) }
    ensures there { IsThere (S.files shelf.new) journal.now }
    ensures failed { result ≡ Err Stop.Failed → Rose (S.faults shelf.old) (S.faults shelf.new) }
    ensures later { S.faults shelf.old ≤ S.faults shelf.new }
{
    accepted_runs_are_writable();
    texts_append();
    runs_join();
    let mut left = limits.settings.tries;
    loop {
        match walk_pairs(alloc, space, *start, limits, &mut left)? {
            WalkOutcome::Done => {
                let tries = limits.settings.tries - left;
                let work = limits.work_done(&space.refuter, left);
                return Ok((Outcome::Settled { tries }, work));
            }
            WalkOutcome::Spent { at, work } => {
                let tries = limits.settings.tries - left;
                return Ok((Outcome::TriesSpent { tries, at }, work));
            }
            WalkOutcome::Gained { pair, records } => {
                append_records(alloc, shelf, journal, &records)?;
                count_records(&records, made);
                records_fit(&records);
                *start = Some(pair.fault);
            }
        }
    }
}

// Records what the sweep did, and goes on by `improve`.
fn improve_swept<S: Shelf>(
    alloc: Global,
    space: &mut Workspace,
    records: &[Record],
    limits: &Limits,
    shelf: &mut S,
    journal: &str,
    start: &mut Option<Fault>,
) -> Result<(Outcome, Made, u64), Stop>
    requires ready { IsReady space.old }
    requires depth { limits.now.settings.depth ≤ 2 }
    requires there { IsThere (S.files shelf.old) journal.now }
    requires begun { (before : Circuit) × ((wire_count (net_of before) ≤ 1048576) × HasBegun before limits.now.settings.depth space.old.trial.graph records.now) }
    ensures through { IfOk result (λ r. SweepComesThrough start.old start.new limits.now.settings.depth limits.now.settings.tries space.old.trial.graph records.now (S.files shelf.old) space.new.trial.graph r.0 r.1 (S.files shelf.new) journal.now) }
    ensures ready { OnOk result (IsReady space.new) }
    ensures made { IfOk result (λ r. AreFew r.1) }
    ensures tries { IfOk result (λ r. tries_of r.0 ≤ limits.now.settings.tries) }
    ensures cut_short { IfOk result (λ r. IsCutShort limits.now.settings r.2 r.0) }
    ensures stopped { IfErr result (λ _. (before : Circuit) → HasBegun before limits.now.settings.depth space.old.trial.graph records.now → IsStopped (net_of before) (S.files shelf.old) (S.files shelf.new) journal.now) }
    ensures there { IsThere (S.files shelf.new) journal.now }
    ensures failed { result ≡ Err Stop.Failed → Rose (S.faults shelf.old) (S.faults shelf.new) }
    ensures later { S.faults shelf.old ≤ S.faults shelf.new }
{
    accepted_runs_are_writable();
    let mut made = Made {
        adds: 0,
        fixes: 0,
        local: 0,
    };
    append_records(alloc, shelf, journal, records)?;
    count_records(records, &mut made);
    records_fit(records);
    let (outcome, work) = improve(alloc, space, limits, shelf, journal, &mut made, start)?;
    Ok((outcome, made, work))
}

/// Removes wires, by sweeping and by adding others, until no pair gains or the tries of the settings are used up
/// (redundancy addition and removal: Entrena and Cheng 1995). Each run of steps that is kept is recorded with its trees
/// before the next is looked for. The pairs of a net are tried in a turn through its targets, which begins at `start`, and
/// after a gain at the target of that gain. Blocks of 64 vectors that were found before, each with a word for each source,
/// save refutations; the results are the same with any. `work` is how many units of work the run was before, and counts on:
/// once it reaches the limit of the settings no further pair is tried. After a `Stop` the graph is dropped.
pub fn optimise<S: Shelf>(
    alloc: Global,
    graph: Graph,
    settings: &Settings,
    shelf: &mut S,
    journal: &str,
    found: &[Vec<u64>],
    start: &mut Option<Fault>,
    work: &mut u64,
) -> Result<(Graph, Outcome, Made), Stop>
    requires few { pins_taken graph + live_nodes graph ≤ 1048576 }
    requires depth { settings.now.depth ≤ 2 }
    requires there { IsThere (S.files shelf.old) journal.now }
    ensures optimised { IfOk result (λ r. IsOptimised (net_of graph) (net_of r.0) start.old start.new settings.now.depth (allowed_to settings.now.tries r.1) r.1 r.2 (S.files shelf.old) (S.files shelf.new) journal.now) }
    ensures tries { IfOk result (λ r. tries_of r.1 ≤ settings.now.tries) }
    ensures cut_short { IfOk result (λ r. IsCutShort settings.now work.new r.1) }
    ensures grown { work.old ≤ work.new }
    ensures keeps { IfOk result (λ r. Keeps (net_of graph) (net_of r.0)) }
    ensures tidy { IfOk result (λ r. IsTidy (net_of r.0)) }
    ensures swept { IfOk result (λ r. IsSwept (net_of r.0) settings.now.depth) }
    ensures fewer { IfOk result (λ r. wire_count (net_of r.0) ≤ wire_count (net_of graph)) }
    ensures within { IfOk result (λ r. IsWithin graph r.0) }
    ensures made { IfOk result (λ r. AreFew r.2) }
    ensures stopped { IfErr result (λ _. IsStopped (net_of graph) (S.files shelf.old) (S.files shelf.new) journal.now) }
    ensures there { IsThere (S.files shelf.new) journal.now }
    ensures failed { result ≡ Err Stop.Failed → Rose (S.faults shelf.old) (S.faults shelf.new) }
    ensures later { S.faults shelf.old ≤ S.faults shelf.new }
{
    graph.well_formed();
    accepted_runs_keep();
    texts_append();
    let (mut space, records) = open_workspace(alloc, graph, settings.depth, found, work)?;
    let limits = Limits {
        settings: *settings,
        work_before: *work,
    };
    let (outcome, made, done) = improve_swept(
        alloc, &mut space, &records, &limits, shelf, journal, start,
    )?;
    raise(work, done);
    Ok((into_graph(space), outcome, made))
}
