//! Trying one pair.
ghost use Rattle.std.specs.Prelude.{◌≡◌, ◌<◌, ◌≤◌, ◌+◌, [], IfOk, OnOk, Bool, IsTrue, not, Some, if◌then◌else◌};
ghost use Rattle.gate_net.specs.Edits.{IsSameBut, last_pin};
ghost use Rattle.wire_edit.specs.Tests.{control_of};
ghost use Rattle.gate_graph.specs.Circuit.{net_of, live_nodes};
ghost use Rattle.gate_net.specs.Net.{wire_count, source_count, gate_count};
ghost use Rattle.wire_edit.specs.Order.{IsTidy};
ghost use Rattle.wire_edit.specs.Tried.{Tried, start_of};
ghost use Rattle.candidate_wires.specs.Gains.{net_for, wire_for, with_candidate};
ghost use Rattle.recursive_learning.specs.Serving.{IsServing};
ghost use Rattle.recorded_removals.specs.Going.{IsLeft, Tallies};
ghost use Rattle.rar_loop.specs.Inner.Kept.{AreFor};
ghost use Rattle.changed_nodes.specs.Changing.{NotesOn};
ghost use Rattle.rm_base.specs.Numbers.{numbers_of};
ghost use Rattle.rar_loop.specs.Inner.Spaces.{HasToolsFor, IsReady, TouchesOn};
ghost use Rattle.rar_loop.specs.Trying.{IsLent, IsReadyToAdd};
ghost use Rattle.rar_loop.specs.Inner.Trying.{MayAdd, MayTry, HasAdded, HasReplaced, IsTryOutcome, IsBack, not_records};

use crate::refuting::find_tree;
use crate::sweeping::sweep;
use crate::workspace::Workspace;
use candidate_wires::{Candidate, Pair, added_pin, control_of, least_free};
use changed_nodes::Changed;
use gate_graph::{Graph, Question};
use journal_text::{Record, accepted_steps_keep};
use recorded_removals::{fix_and_tidy, push_local};
use recursive_learning::refuter::Refuter;
use refutation::laws::closed_has_all;
use rm_base::{Fault, NoMemory, NodeId};
use std::alloc::Global;
use wire_edit::{Step, Trial, room_suffices, tidying_ends};

/// What came of a try.
#[derive(Drop)]
pub(crate) enum TryOutcome {
    /// There are fewer wires, by these records.
    Gained { records: Vec<Record> },
    /// The graph is as it was.
    Failed,
}

// Makes the Not that a fresh candidate reads, and gives the node that is to be read.
fn wire_of(
    alloc: Global,
    trial: &mut Trial,
    log: &mut Vec<Record>,
    changed: &mut Changed,
    candidate: &Candidate,
) -> Result<NodeId, NoMemory>
    requires candidate { MayAdd (net_of trial.old.graph) candidate.now }
    requires ready { IsReadyToAdd trial.old 16 }
    requires room { 0 < trial.old.room.nodes }
    requires pins { 2 ≤ trial.old.room.pins }
    requires none { log.old.items ≡ [] }
    ensures node { IfOk result (λ node. node.0 ≡ wire_for (net_of trial.old.graph) candidate.now) }
    ensures net { OnOk result (net_of trial.new.graph ≡ net_for (net_of trial.old.graph) candidate.now) }
    ensures log { OnOk result (log.new.items ≡ not_records candidate.now) }
    ensures ready { OnOk result (IsReadyToAdd trial.new 11) }
    ensures pins { OnOk result (1 ≤ trial.new.room.pins) }
    ensures left { OnOk result (IsLeft trial.old trial.new 1 1) }
    ensures noted { OnOk result (NotesOn (net_of trial.old.graph) (net_of trial.new.graph) changed.old changed.new) }
    ensures tallies { OnOk result (Tallies trial.old trial.new log.old.items log.new.items) }
    ensures start { start_of trial.new ≡ start_of trial.old }
    ensures first { trial.new.first ≡ trial.old.first }
    ensures epoch { trial.new.graph.epoch ≡ trial.old.graph.epoch }
{
    if !candidate.fresh {
        return Ok(candidate.node);
    }
    trial.graph().well_formed();
    room_suffices();
    let made = least_free(trial.graph());
    let step = Step::NewNot {
        node: candidate.node,
    };
    match trial.apply(step) {
        Ok(()) => {}
        Err(_refusal) => unreachable!(),
    }
    push_local(alloc, log, step)?;
    changed.note_made(made)?;
    Ok(made)
}

// The fault at the noncontrolling value of the pin that an addition makes.
fn new_pin(graph: &Graph, gate: NodeId) -> Fault
    ensures { (control : Bool) → control_of (net_of graph.now) gate.0 ≡ Some control → result ≡ last_pin (net_of graph.now) gate.0 (not control) }
{
    match control_of(graph, gate) {
        Some(control) => added_pin(graph, gate, !control),
        None => added_pin(graph, gate, false),
    }
}

// The nodes that the candidate's wire may change: the gate, and the number that a fresh Not takes.
pub(crate) fn changed_nodes(
    alloc: Global,
    graph: &Graph,
    candidate: &Candidate,
) -> Result<Vec<NodeId>, NoMemory>
    ensures { IfOk result (λ nodes. IsSameBut (net_of graph.now) (with_candidate (net_of graph.now) candidate.now) (numbers_of nodes.items)) }
{
    let mut nodes = Vec::new(alloc);
    nodes.push(candidate.gate)?;
    nodes.push(least_free(graph))?;
    Ok(nodes)
}

// Adds the candidate's wire, which the refuter follows, where its fault is then refuted; whether it is.
fn add_wire(
    alloc: Global,
    refuter: &mut Refuter,
    trial: &mut Trial,
    log: &mut Vec<Record>,
    changed: &mut Changed,
    candidate: &Candidate,
    added: &[NodeId],
    depth: u8,
) -> Result<bool, NoMemory>
    requires candidate { MayAdd (net_of trial.old.graph) candidate.now }
    requires ready { IsReadyToAdd trial.old 16 }
    requires room { 0 < trial.old.room.nodes }
    requires pins { 2 ≤ trial.old.room.pins }
    requires none { log.old.items ≡ [] }
    requires serves { IsServing (net_of trial.old.graph) refuter.old }
    requires changes { IsSameBut (net_of trial.old.graph) (with_candidate (net_of trial.old.graph) candidate.now) (numbers_of added.now) }
    requires depth { depth ≤ 2 }
    ensures net { OnOk result (net_of trial.new.graph ≡ with_candidate (net_of trial.old.graph) candidate.now) }
    ensures added { IfOk result (HasAdded (net_of trial.old.graph) candidate.now depth log.new.items) }
    ensures ready { OnOk result (IsReadyToAdd trial.new 7) }
    ensures tallies { IfOk result (λ added. IsTrue added → Tallies trial.old trial.new log.old.items log.new.items) }
    ensures left { OnOk result (IsLeft trial.old trial.new 2 1) }
    ensures noted { OnOk result (NotesOn (net_of trial.old.graph) (net_of trial.new.graph) changed.old changed.new) }
    ensures serves { OnOk result (IsServing (net_of trial.new.graph) refuter.new) }
    ensures start { start_of trial.new ≡ start_of trial.old }
    ensures first { trial.new.first ≡ trial.old.first }
    ensures epoch { trial.new.graph.epoch ≡ trial.old.graph.epoch }
{
    trial.graph().well_formed();
    room_suffices();
    let node = wire_of(alloc, trial, log, changed, candidate)?;
    let wired = trial.graph();
    wired.well_formed();
    let fault = new_pin(wired, candidate.gate);
    let step = Step::Add {
        gate: candidate.gate,
        node,
    };
    match trial.apply(step) {
        Ok(()) => {}
        Err(_refusal) => unreachable!(),
    }
    changed.note(trial.graph(), step)?;
    refuter.follow(trial.graph(), added)?;
    let question = Question {
        graph: trial.graph(),
        fault,
    };
    match find_tree(refuter, &question, depth)? {
        None => Ok(false),
        Some(tree) => {
            log.push(Record::Step { step, tree })?;
            Ok(true)
        }
    }
}

// Adds the wire, fixes the target and tidies, as far as both faults are refuted, and sweeps where that leaves no more
// wires than before; whether it came to that.
pub(crate) fn replace(
    alloc: Global,
    space: &mut Workspace,
    log: &mut Vec<Record>,
    wires: u32,
    pair: &Pair,
    added: &[NodeId],
    depth: u8,
) -> Result<bool, NoMemory>
    requires tidy { IsTidy (net_of space.old.trial.graph) }
    requires pair { MayTry (net_of space.old.trial.graph) pair.now }
    requires wires { wires ≡ wire_count (net_of space.old.trial.graph) }
    requires ready { IsReadyToAdd space.old.trial 16 }
    requires room { 0 < space.old.trial.room.nodes }
    requires pins { 2 ≤ space.old.trial.room.pins }
    requires none { log.old.items ≡ [] }
    requires tools { HasToolsFor (net_of space.old.trial.graph) space.old }
    requires changes { IsSameBut (net_of space.old.trial.graph) (with_candidate (net_of space.old.trial.graph) pair.now.candidate) (numbers_of added.now) }
    requires depth { depth ≤ 2 }
    ensures tallies { IfOk result (λ replaced. IsTrue replaced → Tallies space.old.trial space.new.trial log.old.items log.new.items) }
    ensures left { IfOk result (λ replaced. IsTrue replaced → IsLeft space.old.trial space.new.trial 2 1) }
    ensures replaced { IfOk result (HasReplaced (net_of space.old.trial.graph) pair.now depth log.new.items (net_of space.new.trial.graph)) }
    ensures vectors { IfOk result (λ replaced. AreFor space.new.vectors (if replaced then net_of space.new.trial.graph else net_of space.old.trial.graph)) }
    ensures serves { IfOk result (λ replaced. IsServing (if replaced then net_of space.new.trial.graph else with_candidate (net_of space.old.trial.graph) pair.now.candidate) space.new.refuter) }
    ensures touched { IfOk result (λ replaced. IsTrue replaced → TouchesOn (net_of space.old.trial.graph) (net_of space.new.trial.graph) space.old.touched.items space.new.touched.items) }
    ensures start { OnOk result (start_of space.new.trial ≡ start_of space.old.trial) }
    ensures first { OnOk result (space.new.trial.first ≡ space.old.trial.first) }
    ensures epoch { OnOk result (space.new.trial.graph.epoch ≡ space.old.trial.graph.epoch) }
{
    accepted_steps_keep();
    let trial = &mut space.trial;
    trial.graph().well_formed();
    let mut changed = Changed::new(alloc);
    let has_added = add_wire(
        alloc,
        &mut space.refuter,
        trial,
        log,
        &mut changed,
        &pair.candidate,
        added,
        depth,
    )?;
    if !has_added {
        return Ok(false);
    }
    let question = Question {
        graph: trial.graph(),
        fault: pair.fault,
    };
    match find_tree(&mut space.refuter, &question, depth)? {
        None => Ok(false),
        Some(tree) => {
            fix_and_tidy(alloc, trial, log, &mut changed, pair.fault, tree)?;
            if trial.graph().wire_count() > wires {
                return Ok(false);
            }
            space.follow(alloc, &changed, added)?;
            sweep(alloc, space, log, depth)?;
            Ok(true)
        }
    }
}

// Takes the trial back to where it was lent.
pub(crate) fn give_back(trial: &mut Trial)
    ensures { (lent : Tried) → IsLent lent → start_of trial.old ≡ start_of lent → trial.old.first ≡ lent.first → live_nodes lent.graph ≡ 2 + source_count (net_of lent.graph) + gate_count (net_of lent.graph) → IsBack lent trial.new }
{
    trial.take_back();
    trial.graph().well_formed();
}

/// Tries a pair of a swept net, whose wires were counted. The trial is where it was, or its graph has fewer wires.
pub(crate) fn try_pair(
    alloc: Global,
    space: &mut Workspace,
    wires: u32,
    pair: &Pair,
    depth: u8,
) -> Result<TryOutcome, NoMemory>
    requires ready { IsReady space.old }
    requires pair { MayTry (net_of space.old.trial.graph) pair.now }
    requires wires { wires ≡ wire_count (net_of space.old.trial.graph) }
    requires depth { depth ≤ 2 }
    ensures try_outcome { IfOk result (IsTryOutcome space.old.trial pair.now depth space.new.trial) }
    ensures tools { OnOk result (HasToolsFor (net_of space.new.trial.graph) space.new) }
{
    space.trial.graph().well_formed();
    tidying_ends();
    closed_has_all();
    accepted_steps_keep();
    let mut log = Vec::new(alloc);
    space.touched.clear();
    let added = changed_nodes(alloc, space.trial.graph(), &pair.candidate)?;
    let refuted = replace(alloc, space, &mut log, wires, pair, added.as_slice(), depth)?;
    if !refuted {
        give_back(&mut space.trial);
        space.refuter.follow(space.trial.graph(), added.as_slice())?;
        return Ok(TryOutcome::Failed);
    }
    if space.trial.graph().wire_count() < wires {
        space.trial.keep();
        space.trial.graph().well_formed();
        return Ok(TryOutcome::Gained { records: log });
    }
    give_back(&mut space.trial);
    space.follow_back(alloc)?;
    Ok(TryOutcome::Failed)
}
