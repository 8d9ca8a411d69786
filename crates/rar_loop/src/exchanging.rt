//! Trying the pairs of one target for an exchange: the target goes, a wire comes, and the net has no more than before.
ghost use Rattle.std.specs.Prelude.{◌≡◌, ◌≤◌, ◌<◌, ◌+◌, ◌||◌, [], IfOk, OnOk, length, nat_lt};
ghost use Rattle.gate_graph.specs.Circuit.{live_nodes, net_of, pins_taken};
ghost use Rattle.gate_net.specs.Net.{gate_count, wire_count};
ghost use Rattle.gate_net.specs.Values.{HasPin};
ghost use Rattle.rar_loop.specs.Inner.Exchanging.{HasNumbers, IsExchangeTry, IsTargetTry};
ghost use Rattle.rar_loop.specs.Inner.Spaces.{HasToolsFor, IsReady};
ghost use Rattle.rar_loop.specs.Inner.Trying.{MayTry};
ghost use Rattle.rar_loop.specs.Trying.{IsLent};
ghost use Rattle.wire_edit.specs.Tried.{StaysAt};

use crate::beginning::whole_room;
use crate::candidates::candidates_of;
use crate::trying::{changed_nodes, give_back, replace};
use crate::workspace::Workspace;
use candidate_wires::{Finder, Pair};
use gate_graph::{Graph, Question};
use journal_text::{Record, accepted_steps_keep};
use rm_base::{Fault, NoMemory};
use std::alloc::Global;
use wire_edit::{Trial, tidying_ends};

// Whether the graph has more wires or more gates than these.
fn is_larger(graph: &Graph, wires: u32, gates: u32) -> bool
    ensures { result ≡ (nat_lt wires (wire_count (net_of graph.now)) || nat_lt gates (gate_count (net_of graph.now))) }
{
    graph.wire_count() > wires || graph.gate_count() > gates
}

// Gives a trial without steps room for tries on its net as it is now.
fn lend_again(alloc: Global, trial: &mut Trial) -> Result<(), NoMemory>
    requires none { trial.old.steps ≡ [] }
    requires few { pins_taken trial.old.graph + live_nodes trial.old.graph ≤ 1048576 }
    ensures stays { StaysAt trial.old trial.new }
    ensures lent { OnOk result (IsLent trial.new) }
{
    trial.graph().well_formed();
    let room = whole_room(trial.graph());
    trial.make_room(alloc, room)?;
    trial.graph().well_formed();
    Ok(())
}

// Tries a pair of a swept net: where there are no more wires and no more gates then, its steps are kept and given.
fn try_exchange(
    alloc: Global,
    space: &mut Workspace,
    pair: &Pair,
    depth: u8,
) -> Result<Option<Vec<Record>>, NoMemory>
    requires ready { IsReady space.old }
    requires pair { MayTry (net_of space.old.trial.graph) pair.now }
    requires depth { depth ≤ 2 }
    ensures tried { IfOk result (IsExchangeTry space.old.trial pair.now.fault depth space.new.trial) }
    ensures tools { OnOk result (HasToolsFor (net_of space.new.trial.graph) space.new) }
{
    space.trial.graph().well_formed();
    tidying_ends();
    accepted_steps_keep();
    let wires = space.trial.graph().wire_count();
    let gates = space.trial.graph().gate_count();
    let mut log = Vec::new(alloc);
    space.touched.clear();
    let added = changed_nodes(alloc, space.trial.graph(), &pair.candidate)?;
    let refuted = replace(alloc, space, &mut log, wires, pair, added.as_slice(), depth)?;
    if !refuted {
        give_back(&mut space.trial);
        space.refuter.follow(space.trial.graph(), added.as_slice())?;
        return Ok(None);
    }
    if is_larger(space.trial.graph(), wires, gates) {
        give_back(&mut space.trial);
        space.follow_back(alloc)?;
        return Ok(None);
    }
    space.trial.keep();
    space.trial.graph().well_formed();
    lend_again(alloc, &mut space.trial)?;
    space.trial.graph().well_formed();
    Ok(Some(log))
}

// Tries a pair, unless one of the vectors detects the fault of the wire's pin.
fn exchange_unless_detected(
    alloc: Global,
    space: &mut Workspace,
    pair: &Pair,
    depth: u8,
) -> Result<Option<Vec<Record>>, NoMemory>
    requires ready { IsReady space.old }
    requires pair { MayTry (net_of space.old.trial.graph) pair.now }
    requires depth { depth ≤ 2 }
    ensures tried { IfOk result (IsExchangeTry space.old.trial pair.now.fault depth space.new.trial) }
    ensures tools { OnOk result (HasToolsFor (net_of space.new.trial.graph) space.new) }
{
    let graph = space.trial.graph();
    if space.vectors.detect_wire(graph, &pair.candidate) {
        return Ok(None);
    }
    try_exchange(alloc, space, pair, depth)
}

/// Tries the pairs of one target, with so many tries left, until the target is exchanged, and gives the steps of that.
pub(crate) fn exchange_target(
    alloc: Global,
    space: &mut Workspace,
    finder: &mut Finder,
    target: Fault,
    depth: u8,
    left: &mut u32,
) -> Result<Option<Vec<Record>>, NoMemory>
    requires ready { IsReady space.old }
    requires numbers { HasNumbers (net_of space.old.trial.graph) finder.old }
    requires pin { HasPin (net_of space.old.trial.graph) target }
    requires depth { depth ≤ 2 }
    ensures tried { IfOk result (IsTargetTry space.old.trial target depth left.old left.new space.new.trial) }
    ensures numbers { finder.new ≡ finder.old }
    ensures tools { OnOk result (HasToolsFor (net_of space.new.trial.graph) space.new) }
{
    let question = Question {
        graph: space.trial.graph(),
        fault: target,
    };
    let found = candidates_of(alloc, &mut space.refuter, finder, &question)?;
    for place in 0..found.len() {
        if *left == 0 {
            return Ok(None);
        }
        *left -= 1;
        let pair = Pair {
            fault: target,
            candidate: found[place],
        };
        if let Some(records) = exchange_unless_detected(alloc, space, &pair, depth)? {
            return Ok(Some(records));
        }
    }
    Ok(None)
}
