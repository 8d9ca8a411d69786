// The closing pass.
ghost use Rattle.std.specs.Prelude.{◌≡◌, ◌≤◌, ◌<◌, ◌+◌, ◌^◌, Err, IfOk, OnErr, OnOk, map};
ghost use Rattle.gate_graph.specs.Circuit.{live_nodes, net_of, pins_taken};
ghost use Rattle.gate_net.specs.Net.{source_count, wire_count};
ghost use Rattle.gate_net.specs.Values.{HasPin};
ghost use Rattle.journal_text.specs.Accepted.{Keeps};
ghost use Rattle.journal_text.specs.Appends.{IsThere};
ghost use Rattle.journal_text.specs.Runs.{IsStopped};
ghost use Rattle.journal_text.specs.declared.append.Stop.TheVariants as stop;
ghost use Rattle.refutation.specs.Branches.{AreAccepted};
ghost use Rattle.rm_base.specs.Causes.{Rose};
ghost use Rattle.wire_edit.specs.Order.{IsTidy};
ghost use Rattle.wire_edit.specs.Work.{work};
ghost use Rattle.closing_pass.specs.Blocks.{HaveVectors};
ghost use Rattle.closing_pass.specs.Inner.Closing.{HasRecordedFix, Went};
ghost use Rattle.closing_pass.specs.Inner.Findings.{AreLong};
ghost use Rattle.closing_pass.specs.Reports.{AreClosed, HasClosed, IsNoFuller};

use crate::effort::Effort;
use crate::passing::{Passed, pass_twice};
use crate::report::Report;
use crate::words::blocks_of;
use candidate_vectors::drawn_vectors;
use changed_nodes::Changed;
use gate_graph::Graph;
use journal_ranges::records_fit;
use journal_text::{
    Stop, accepted_runs_are_writable, accepted_runs_keep, append_records, count_records, runs_join,
    texts_append,
};
use recorded_removals::fix_and_tidy;
use refutation::Tree;
use rm_base::{Fault, Gate, Made, NoMemory, Settings, Shelf, Vector};
use std::alloc::Global;
use std::thread::Threads;
use wire_edit::{BeginRefusal, Room, Trial, tidying_ends};

// Fixes a refuted pin and tidies, records the steps and counts them.
fn record_fix<S: Shelf>(
    alloc: Global,
    trial: &mut Trial,
    shelf: &mut S,
    journal: &str,
    fault: Fault,
    tree: Tree,
    made: &mut Made,
) -> Result<(), Stop>
    requires tidy { IsTidy (net_of trial.old.graph) }
    requires pin { HasPin (net_of trial.old.graph) fault }
    requires tree { AreAccepted (net_of trial.old.graph) fault tree }
    requires room { work (net_of trial.old.graph) ≤ trial.old.room.steps }
    requires there { IsThere (S.files shelf.old) journal.now }
    requires few { made.old.adds + made.old.fixes + made.old.local + work (net_of trial.old.graph) ≤ 2 ^ 45 }
    ensures recorded { OnOk result (HasRecordedFix (net_of trial.old.graph) (net_of trial.new.graph) made.old made.new (S.files shelf.old) (S.files shelf.new) journal.now) }
    ensures went { OnOk result (Went trial.old trial.new) }
    ensures tidy { OnOk result (IsTidy (net_of trial.new.graph)) }
    ensures fewer { OnOk result (wire_count (net_of trial.new.graph) < wire_count (net_of trial.old.graph)) }
    ensures there { IsThere (S.files shelf.new) journal.now }
    ensures stopped { OnErr result (IsStopped (net_of trial.old.graph) (S.files shelf.old) (S.files shelf.new) journal.now) }
    ensures later { S.faults shelf.old ≤ S.faults shelf.new }
    ensures failed { result ≡ Err stop.Failed → Rose (S.faults shelf.old) (S.faults shelf.new) }
{
    texts_append();
    runs_join();
    accepted_runs_are_writable();
    trial.graph().well_formed();
    let mut log = Vec::new(alloc);
    let mut changed = Changed::new(alloc);
    fix_and_tidy(alloc, trial, &mut log, &mut changed, fault, tree)?;
    append_records(alloc, shelf, journal, log.as_slice())?;
    count_records(log.as_slice(), made);
    records_fit(log.as_slice());
    Ok(())
}

// The vectors with which the first pass begins.
fn first_vectors(alloc: Global, trial: &Trial) -> Result<Vec<Vector>, NoMemory>
    ensures { IfOk result (λ v. AreLong v.items (source_count (net_of trial.now.graph))) }
{
    drawn_vectors(alloc, trial.graph())
}

// Passes through the faults, from the first again after each that is fixed, until none is refuted.
fn close_all<R: Threads + Sync, G: Gate, S: Shelf>(
    rt: &R,
    alloc: Global,
    trial: &mut Trial,
    settings: &Settings,
    gate: &G,
    effort: Effort,
    shelf: &mut S,
    journal: &str,
    done: &mut u64,
) -> Result<Report, Stop>
    requires tidy { IsTidy (net_of trial.old.graph) }
    requires room { work (net_of trial.old.graph) ≤ trial.old.room.steps }
    requires few { work (net_of trial.old.graph) ≤ 4194304 }
    requires depth { settings.now.depth ≤ 2 }
    requires budget { 0 < settings.now.budget }
    requires workers { (0 < settings.now.workers) × (settings.now.workers ≤ 64) }
    requires there { IsThere (S.files shelf.old) journal.now }
    ensures closed { IfOk result (λ r. HasClosed (net_of trial.old.graph) (net_of trial.new.graph) r (S.files shelf.old) (S.files shelf.new) journal.now) }
    ensures verdicts { IfOk result (λ r. AreClosed (net_of trial.new.graph) settings.now.budget r.verdicts.items) }
    ensures found { IfOk result (λ r. HaveVectors (map (λ b. b.items) r.found.items) r.verdicts.items) }
    ensures went { OnOk result (Went trial.old trial.new) }
    ensures tidy { OnOk result (IsTidy (net_of trial.new.graph)) }
    ensures local { IfOk result (λ r. r.local ≤ 2 ^ 45) }
    ensures there { IsThere (S.files shelf.new) journal.now }
    ensures stopped { OnErr result (IsStopped (net_of trial.old.graph) (S.files shelf.old) (S.files shelf.new) journal.now) }
    ensures later { S.faults shelf.old ≤ S.faults shelf.new }
    ensures failed { result ≡ Err stop.Failed → Rose (S.faults shelf.old) (S.faults shelf.new) }
{
    texts_append();
    runs_join();
    let mut kept = first_vectors(alloc, trial)?;
    let mut made = Made {
        adds: 0,
        fixes: 0,
        local: 0,
    };
    loop {
        match pass_twice(
            rt,
            alloc,
            trial.graph(),
            settings,
            gate,
            effort,
            &mut kept,
            done,
        )? {
            Passed::Closed(verdicts) => {
                let sources = trial.graph().source_count();
                let found = blocks_of(alloc, kept.as_slice(), sources)?;
                return Ok(Report {
                    fixed: made.fixes as u32,
                    local: made.local,
                    verdicts,
                    found,
                });
            }
            Passed::Refuted { fault, tree } => {
                record_fix(alloc, trial, shelf, journal, fault, tree, &mut made)?;
            }
        }
    }
}

// Closes each fault of a tidy net, with that effort where a search is cut short.
fn close_with<R: Threads + Sync, G: Gate, S: Shelf>(
    rt: &R,
    alloc: Global,
    graph: Graph,
    settings: &Settings,
    gate: &G,
    effort: Effort,
    shelf: &mut S,
    journal: &str,
    work: &mut u64,
) -> Result<(Graph, Report), Stop>
    requires tidy { IsTidy (net_of graph) }
    requires few { pins_taken graph + live_nodes graph ≤ 1048576 }
    requires depth { settings.now.depth ≤ 2 }
    requires budget { 0 < settings.now.budget }
    requires workers { (0 < settings.now.workers) × (settings.now.workers ≤ 64) }
    requires there { IsThere (S.files shelf.old) journal.now }
    ensures closed { IfOk result (λ r. HasClosed (net_of graph) (net_of r.0) r.1 (S.files shelf.old) (S.files shelf.new) journal.now) }
    ensures verdicts { IfOk result (λ r. AreClosed (net_of r.0) settings.now.budget r.1.verdicts.items) }
    ensures found { IfOk result (λ r. HaveVectors (map (λ b. b.items) r.1.found.items) r.1.verdicts.items) }
    ensures tidy { IfOk result (λ r. IsTidy (net_of r.0)) }
    ensures keeps { IfOk result (λ r. Keeps (net_of graph) (net_of r.0)) }
    ensures no_fuller { IfOk result (λ r. IsNoFuller graph r.0) }
    ensures local { IfOk result (λ r. r.1.local ≤ 2 ^ 45) }
    ensures grown { work.old ≤ work.new }
    ensures there { IsThere (S.files shelf.new) journal.now }
    ensures stopped { OnErr result (IsStopped (net_of graph) (S.files shelf.old) (S.files shelf.new) journal.now) }
    ensures later { S.faults shelf.old ≤ S.faults shelf.new }
    ensures failed { result ≡ Err stop.Failed → Rose (S.faults shelf.old) (S.faults shelf.new) }
{
    texts_append();
    accepted_runs_keep();
    tidying_ends();
    graph.well_formed();
    let room = Room::enough(&graph);
    let mut trial = match Trial::begin_tidy(alloc, graph, room) {
        Ok(trial) => trial,
        Err(BeginRefusal::NoMemory { graph: _ }) => return Err(Stop::NoMemory),
    };
    let mut done = *work;
    let report = close_all(
        rt, alloc, &mut trial, settings, gate, effort, shelf, journal, &mut done,
    )?;
    *work = (*work).max(done);
    let last = trial.commit();
    last.well_formed();
    Ok((last, report))
}

/// Closes each fault of a tidy net: with a vector that detects it, or, where a search spends its budget, with the tree of
/// that search. A pin whose fault no assignment detects is fixed, the net tidied, and the pass begins again; the vectors
/// that were found are kept for that. Each step is recorded with its tree. `work` is how many units of work the run was before,
/// and counts on: once it reaches the limit of the settings, faults whose search is cut short aren't searched again. After a
/// `Stop` the graph is dropped.
pub fn close_faults<R: Threads + Sync, G: Gate, S: Shelf>(
    rt: &R,
    alloc: Global,
    graph: Graph,
    settings: &Settings,
    gate: &G,
    shelf: &mut S,
    journal: &str,
    work: &mut u64,
) -> Result<(Graph, Report), Stop>
    requires tidy { IsTidy (net_of graph) }
    requires few { pins_taken graph + live_nodes graph ≤ 1048576 }
    requires depth { settings.now.depth ≤ 2 }
    requires budget { 0 < settings.now.budget }
    requires workers { (0 < settings.now.workers) × (settings.now.workers ≤ 64) }
    requires there { IsThere (S.files shelf.old) journal.now }
    ensures closed { IfOk result (λ r. HasClosed (net_of graph) (net_of r.0) r.1 (S.files shelf.old) (S.files shelf.new) journal.now) }
    ensures verdicts { IfOk result (λ r. AreClosed (net_of r.0) settings.now.budget r.1.verdicts.items) }
    ensures found { IfOk result (λ r. HaveVectors (map (λ b. b.items) r.1.found.items) r.1.verdicts.items) }
    ensures tidy { IfOk result (λ r. IsTidy (net_of r.0)) }
    ensures keeps { IfOk result (λ r. Keeps (net_of graph) (net_of r.0)) }
    ensures no_fuller { IfOk result (λ r. IsNoFuller graph r.0) }
    ensures local { IfOk result (λ r. r.1.local ≤ 2 ^ 45) }
    ensures grown { work.old ≤ work.new }
    ensures there { IsThere (S.files shelf.new) journal.now }
    ensures stopped { OnErr result (IsStopped (net_of graph) (S.files shelf.old) (S.files shelf.new) journal.now) }
    ensures later { S.faults shelf.old ≤ S.faults shelf.new }
    ensures failed { result ≡ Err stop.Failed → Rose (S.faults shelf.old) (S.faults shelf.new) }
{
    close_with(
        rt,
        alloc,
        graph,
        settings,
        gate,
        Effort::All,
        shelf,
        journal,
        work,
    )
}

/// The same before the first addition, where the vectors serve tries and the verdicts aren't written: for a fault whose search is cut
/// short less is done.
pub fn close_before_tries<R: Threads + Sync, G: Gate, S: Shelf>(
    rt: &R,
    alloc: Global,
    graph: Graph,
    settings: &Settings,
    gate: &G,
    shelf: &mut S,
    journal: &str,
    work: &mut u64,
) -> Result<(Graph, Report), Stop>
    requires tidy { IsTidy (net_of graph) }
    requires few { pins_taken graph + live_nodes graph ≤ 1048576 }
    requires depth { settings.now.depth ≤ 2 }
    requires budget { 0 < settings.now.budget }
    requires workers { (0 < settings.now.workers) × (settings.now.workers ≤ 64) }
    requires there { IsThere (S.files shelf.old) journal.now }
    ensures closed { IfOk result (λ r. HasClosed (net_of graph) (net_of r.0) r.1 (S.files shelf.old) (S.files shelf.new) journal.now) }
    ensures verdicts { IfOk result (λ r. AreClosed (net_of r.0) settings.now.budget r.1.verdicts.items) }
    ensures found { IfOk result (λ r. HaveVectors (map (λ b. b.items) r.1.found.items) r.1.verdicts.items) }
    ensures tidy { IfOk result (λ r. IsTidy (net_of r.0)) }
    ensures keeps { IfOk result (λ r. Keeps (net_of graph) (net_of r.0)) }
    ensures no_fuller { IfOk result (λ r. IsNoFuller graph r.0) }
    ensures local { IfOk result (λ r. r.1.local ≤ 2 ^ 45) }
    ensures grown { work.old ≤ work.new }
    ensures there { IsThere (S.files shelf.new) journal.now }
    ensures stopped { OnErr result (IsStopped (net_of graph) (S.files shelf.old) (S.files shelf.new) journal.now) }
    ensures later { S.faults shelf.old ≤ S.faults shelf.new }
    ensures failed { result ≡ Err stop.Failed → Rose (S.faults shelf.old) (S.faults shelf.new) }
{
    close_with(
        rt,
        alloc,
        graph,
        settings,
        gate,
        Effort::Few,
        shelf,
        journal,
        work,
    )
}
