//! A turn of perturbation: each target once may be exchanged for a wire, so that the net has no more than before.
ghost use Rattle.std.specs.Prelude.{◌≡◌, ◌≤◌, ◌+◌, ◌-◌, ℕ, Err, IfErr, IfOk, OnOk, length};
ghost use Rattle.rm_base.specs.Causes.{Rose};
ghost use Rattle.gate_graph.specs.Circuit.{Circuit, live_nodes, net_of, pins_taken};
ghost use Rattle.journal_text.specs.Appends.{IsThere};
ghost use Rattle.journal_text.specs.Runs.{IsStopped};
ghost use Rattle.rar_loop.specs.Ended.{AreFew};
ghost use Rattle.rar_loop.specs.Inner.Exchanging.{HasNumbers, IsPlaceTry};
ghost use Rattle.rar_loop.specs.Inner.Improving.{HasBegun};
ghost use Rattle.rar_loop.specs.Inner.Perturbing.{IsOnItsWay, IsPerturbing, IsTargetAt, PerturbsOn, StopsOn};
ghost use Rattle.rar_loop.specs.Inner.Spaces.{HasToolsFor, IsReady};
ghost use Rattle.rar_loop.specs.Perturbed.{HasPerturbed};
ghost use Rattle.rar_loop.specs.Sizes.{IsWithin};

use crate::beginning::open_workspace;
use crate::exchanging::exchange_target;
use crate::limits::{Limits, raise};
use crate::workspace::{Workspace, into_graph};
use candidate_wires::{Finder, control_of};
use gate_graph::{Graph, pin_count};
use journal_ranges::records_fit;
use journal_text::{
    Record, Stop, accepted_runs_are_writable, append_records, count_records, runs_join,
    texts_append,
};
use rm_base::{Fault, Made, NoMemory, NodeId, Settings, Shelf};
use std::alloc::Global;

/// A graph after a turn of perturbation, its steps by kind, and how many tries it took.
#[derive(Drop)]
pub struct Perturbed {
    pub graph: Graph,
    pub made: Made,
    pub tries: u32,
}

// The target at a place, if there is one.
fn target_at(graph: &Graph, gate: NodeId, position: u32) -> Option<Fault>
    ensures { IsTargetAt (net_of graph.now) gate.0 position result }
{
    let control = control_of(graph, gate)?;
    if position >= pin_count(graph, gate) {
        return None;
    }
    Some(Fault {
        gate,
        position,
        value: !control,
    })
}

// Exchanges the target at a place, if there is one and some pair of it serves, and gives the steps of that. Nothing is tried
// once the work has reached its limit.
fn exchange_at(
    alloc: Global,
    space: &mut Workspace,
    finder: &mut Finder,
    gate: NodeId,
    position: u32,
    limits: &Limits,
    left: &mut u32,
) -> Result<Option<Vec<Record>>, NoMemory>
    requires ready { IsReady space.old }
    requires numbers { HasNumbers (net_of space.old.trial.graph) finder.old }
    requires depth { limits.now.settings.depth ≤ 2 }
    ensures tried { IfOk result (IsPlaceTry space.old.trial gate.0 position limits.now.settings.depth left.old left.new space.new.trial) }
    ensures numbers { finder.new ≡ finder.old }
    ensures tools { OnOk result (HasToolsFor (net_of space.new.trial.graph) space.new) }
{
    match target_at(space.trial.graph(), gate, position) {
        None => Ok(None),
        Some(target) => {
            if limits.is_worked_off(&space.refuter, *left) {
                return Ok(None);
            }
            exchange_target(alloc, space, finder, target, limits.settings.depth, left)
        }
    }
}

// Exchanges the target at a place, and records the steps.
fn perturb_at<S: Shelf>(
    alloc: Global,
    space: &mut Workspace,
    finder: &mut Finder,
    gate: NodeId,
    position: u32,
    limits: &Limits,
    left: &mut u32,
    shelf: &mut S,
    journal: &str,
    made: &mut Made,
) -> Result<(), Stop>
    requires ready { IsReady space.old }
    requires numbers { HasNumbers (net_of space.old.trial.graph) finder.old }
    requires depth { limits.now.settings.depth ≤ 2 }
    requires limit { limits.now.settings.tries ≤ 1000000 }
    requires there { IsThere (S.files shelf.old) journal.now }
    requires way { IsOnItsWay limits.now.settings.depth limits.now.settings.tries left.old gate.0 position space.old.trial.graph made.old (S.files shelf.old) journal.now }
    ensures on { OnOk result (PerturbsOn limits.now.settings.depth limits.now.settings.tries (record { left = left.old; gate = gate.0; position = position }) space.old.trial.graph made.old (S.files shelf.old) (record { left = left.new; gate = gate.0; position = position + 1 }) space.new.trial.graph made.new (S.files shelf.new) journal.now) }
    ensures numbers { OnOk result (HasNumbers (net_of space.new.trial.graph) finder.new) }
    ensures ready { OnOk result (IsReady space.new) }
    ensures stopped { IfErr result (λ _. StopsOn limits.now.settings.depth limits.now.settings.tries (record { left = left.old; gate = gate.0; position = position }) space.old.trial.graph made.old (S.files shelf.old) (S.files shelf.new) journal.now) }
    ensures there { IsThere (S.files shelf.new) journal.now }
    ensures failed { result ≡ Err Stop.Failed → Rose (S.faults shelf.old) (S.faults shelf.new) }
    ensures later { S.faults shelf.old ≤ S.faults shelf.new }
{
    accepted_runs_are_writable();
    texts_append();
    runs_join();
    match exchange_at(alloc, space, finder, gate, position, limits, left)? {
        None => Ok(()),
        Some(records) => {
            append_records(alloc, shelf, journal, &records)?;
            count_records(&records, made);
            records_fit(&records);
            Ok(())
        }
    }
}

// Goes through the places of a gate.
fn perturb_gate<S: Shelf>(
    alloc: Global,
    space: &mut Workspace,
    finder: &mut Finder,
    gate: NodeId,
    limits: &Limits,
    left: &mut u32,
    shelf: &mut S,
    journal: &str,
    made: &mut Made,
) -> Result<(), Stop>
    requires ready { IsReady space.old }
    requires numbers { HasNumbers (net_of space.old.trial.graph) finder.old }
    requires depth { limits.now.settings.depth ≤ 2 }
    requires limit { limits.now.settings.tries ≤ 1000000 }
    requires there { IsThere (S.files shelf.old) journal.now }
    requires way { IsOnItsWay limits.now.settings.depth limits.now.settings.tries left.old gate.0 0 space.old.trial.graph made.old (S.files shelf.old) journal.now }
    ensures on { OnOk result (PerturbsOn limits.now.settings.depth limits.now.settings.tries (record { left = left.old; gate = gate.0; position = 0 }) space.old.trial.graph made.old (S.files shelf.old) (record { left = left.new; gate = gate.0 + 1; position = 0 }) space.new.trial.graph made.new (S.files shelf.new) journal.now) }
    ensures numbers { OnOk result (HasNumbers (net_of space.new.trial.graph) finder.new) }
    ensures ready { OnOk result (IsReady space.new) }
    ensures stopped { IfErr result (λ _. StopsOn limits.now.settings.depth limits.now.settings.tries (record { left = left.old; gate = gate.0; position = 0 }) space.old.trial.graph made.old (S.files shelf.old) (S.files shelf.new) journal.now) }
    ensures there { IsThere (S.files shelf.new) journal.now }
    ensures failed { result ≡ Err Stop.Failed → Rose (S.faults shelf.old) (S.faults shelf.new) }
    ensures later { S.faults shelf.old ≤ S.faults shelf.new }
{
    for position in 0..pin_count(space.trial.graph(), gate) {
        perturb_at(
            alloc, space, finder, gate, position, limits, left, shelf, journal, made,
        )?;
    }
    Ok(())
}

// Goes through the gates.
fn perturb_gates<S: Shelf>(
    alloc: Global,
    space: &mut Workspace,
    finder: &mut Finder,
    limits: &Limits,
    left: &mut u32,
    shelf: &mut S,
    journal: &str,
    made: &mut Made,
) -> Result<(), Stop>
    requires ready { IsReady space.old }
    requires numbers { HasNumbers (net_of space.old.trial.graph) finder.old }
    requires depth { limits.now.settings.depth ≤ 2 }
    requires limit { limits.now.settings.tries ≤ 1000000 }
    requires there { IsThere (S.files shelf.old) journal.now }
    requires way { IsOnItsWay limits.now.settings.depth limits.now.settings.tries left.old 0 0 space.old.trial.graph made.old (S.files shelf.old) journal.now }
    ensures on { OnOk result (PerturbsOn limits.now.settings.depth limits.now.settings.tries (record { left = left.old; gate = 0; position = 0 }) space.old.trial.graph made.old (S.files shelf.old) (record { left = left.new; gate = length (net_of space.old.trial.graph).nodes; position = 0 }) space.new.trial.graph made.new (S.files shelf.new) journal.now) }
    ensures ready { OnOk result (IsReady space.new) }
    ensures stopped { IfErr result (λ _. StopsOn limits.now.settings.depth limits.now.settings.tries (record { left = left.old; gate = 0; position = 0 }) space.old.trial.graph made.old (S.files shelf.old) (S.files shelf.new) journal.now) }
    ensures there { IsThere (S.files shelf.new) journal.now }
    ensures failed { result ≡ Err Stop.Failed → Rose (S.faults shelf.old) (S.faults shelf.new) }
    ensures later { S.faults shelf.old ≤ S.faults shelf.new }
{
    for number in 0..space.trial.graph().node_bound() {
        let gate = NodeId(number);
        perturb_gate(
            alloc, space, finder, gate, limits, left, shelf, journal, made,
        )?;
    }
    Ok(())
}

// A finder for a graph and for what exchanges make of it.
fn finder_for(alloc: Global, graph: &Graph) -> Result<Finder, NoMemory>
    requires { live_nodes graph.now ≤ 1048576 }
    ensures { IfOk result (λ f. HasNumbers (net_of graph.now) f) }
{
    graph.well_formed();
    let live = 3 + graph.source_count() + graph.gate_count();
    Finder::new(alloc, graph.node_bound().max(live))
}

// Goes through the targets of a swept net, and counts the tries.
fn perturb_swept<S: Shelf>(
    alloc: Global,
    space: &mut Workspace,
    limits: &Limits,
    shelf: &mut S,
    journal: &str,
    made: &mut Made,
) -> Result<u32, Stop>
    requires ready { IsReady space.old }
    requires depth { limits.now.settings.depth ≤ 2 }
    requires tries { limits.now.settings.tries ≤ 1000000 }
    requires there { IsThere (S.files shelf.old) journal.now }
    requires way { IsOnItsWay limits.now.settings.depth limits.now.settings.tries limits.now.settings.tries 0 0 space.old.trial.graph made.old (S.files shelf.old) journal.now }
    ensures on { IfOk result (λ used. (gate : ℕ) × PerturbsOn limits.now.settings.depth limits.now.settings.tries (record { left = limits.now.settings.tries; gate = 0; position = 0 }) space.old.trial.graph made.old (S.files shelf.old) (record { left = limits.now.settings.tries - used; gate = gate; position = 0 }) space.new.trial.graph made.new (S.files shelf.new) journal.now) }
    ensures within { IfOk result (λ used. used ≤ limits.now.settings.tries) }
    ensures ready { OnOk result (IsReady space.new) }
    ensures stopped { IfErr result (λ _. StopsOn limits.now.settings.depth limits.now.settings.tries (record { left = limits.now.settings.tries; gate = 0; position = 0 }) space.old.trial.graph made.old (S.files shelf.old) (S.files shelf.new) journal.now) }
    ensures there { IsThere (S.files shelf.new) journal.now }
    ensures failed { result ≡ Err Stop.Failed → Rose (S.faults shelf.old) (S.faults shelf.new) }
    ensures later { S.faults shelf.old ≤ S.faults shelf.new }
{
    texts_append();
    let mut left = limits.settings.tries;
    let mut finder = finder_for(alloc, space.trial.graph())?;
    perturb_gates(
        alloc,
        space,
        &mut finder,
        limits,
        &mut left,
        shelf,
        journal,
        made,
    )?;
    Ok(limits.settings.tries - left)
}

// Records what the sweep did, and goes on by `perturb_swept`.
fn perturb_opened<S: Shelf>(
    alloc: Global,
    space: &mut Workspace,
    records: &[Record],
    limits: &Limits,
    shelf: &mut S,
    journal: &str,
) -> Result<(Made, u32), Stop>
    requires ready { IsReady space.old }
    requires depth { limits.now.settings.depth ≤ 2 }
    requires tries { limits.now.settings.tries ≤ 1000000 }
    requires there { IsThere (S.files shelf.old) journal.now }
    requires begun { (before : Circuit) × HasBegun before limits.now.settings.depth space.old.trial.graph records.now }
    ensures through { IfOk result (λ r. (before : Circuit) → HasBegun before limits.now.settings.depth space.old.trial.graph records.now → (gate : ℕ) × IsPerturbing before limits.now.settings.depth limits.now.settings.tries (limits.now.settings.tries - r.1) gate 0 space.new.trial.graph r.0 (S.files shelf.old) (S.files shelf.new) journal.now) }
    ensures within { IfOk result (λ r. r.1 ≤ limits.now.settings.tries) }
    ensures ready { OnOk result (IsReady space.new) }
    ensures stopped { IfErr result (λ _. (before : Circuit) → HasBegun before limits.now.settings.depth space.old.trial.graph records.now → IsStopped (net_of before) (S.files shelf.old) (S.files shelf.new) journal.now) }
    ensures there { IsThere (S.files shelf.new) journal.now }
    ensures failed { result ≡ Err Stop.Failed → Rose (S.faults shelf.old) (S.faults shelf.new) }
    ensures later { S.faults shelf.old ≤ S.faults shelf.new }
{
    accepted_runs_are_writable();
    let mut made = Made {
        adds: 0,
        fixes: 0,
        local: 0,
    };
    append_records(alloc, shelf, journal, records)?;
    count_records(records, &mut made);
    records_fit(records);
    let used = perturb_swept(alloc, space, limits, shelf, journal, &mut made)?;
    Ok((made, used))
}

/// Goes once through the targets of a net, and exchanges each for the first wire that leaves no more wires and no more gates,
/// with the tries of the settings (Perturb and Simplify: Chang, Marek-Sadowska and Cheng 1996). The net is tidied and swept
/// before. Each run of steps is recorded with its trees before the next is looked for. Vectors that were found before save
/// refutations. `work` is how many units of work the run was before, and counts on: once it reaches the limit of the settings
/// nothing more is tried. After a `Stop` the graph is dropped.
pub fn perturb<S: Shelf>(
    alloc: Global,
    graph: Graph,
    settings: &Settings,
    shelf: &mut S,
    journal: &str,
    found: &[Vec<u64>],
    work: &mut u64,
) -> Result<Perturbed, Stop>
    requires few { pins_taken graph + live_nodes graph ≤ 1048576 }
    requires depth { settings.now.depth ≤ 2 }
    requires tries { settings.now.tries ≤ 1000000 }
    requires there { IsThere (S.files shelf.old) journal.now }
    ensures perturbed { IfOk result (λ p. HasPerturbed (net_of graph) (net_of p.graph) settings.now.depth settings.now.tries p.tries p.made (S.files shelf.old) (S.files shelf.new) journal.now) }
    ensures within { IfOk result (λ p. IsWithin graph p.graph) }
    ensures grown { work.old ≤ work.new }
    ensures made { IfOk result (λ p. AreFew p.made) }
    ensures stopped { IfErr result (λ _. IsStopped (net_of graph) (S.files shelf.old) (S.files shelf.new) journal.now) }
    ensures there { IsThere (S.files shelf.new) journal.now }
    ensures failed { result ≡ Err Stop.Failed → Rose (S.faults shelf.old) (S.faults shelf.new) }
    ensures later { S.faults shelf.old ≤ S.faults shelf.new }
{
    texts_append();
    runs_join();
    let (mut space, records) = open_workspace(alloc, graph, settings.depth, found, work)?;
    let limits = Limits {
        settings: *settings,
        work_before: *work,
    };
    let (made, used) = perturb_opened(alloc, &mut space, &records, &limits, shelf, journal)?;
    let left = settings.tries - used;
    raise(work, limits.work_done(&space.refuter, left));
    Ok(Perturbed {
        graph: into_graph(space),
        made,
        tries: used,
    })
}
