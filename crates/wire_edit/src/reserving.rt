//! What a trial reserves.
ghost use Rattle.std.specs.Prelude.{◌≡◌, ◌≤◌, ◌+◌, [], true, length, IfOk, IfSome};
ghost use Rattle.gate_graph.specs.Circuit.{wiring, net_of, pins_taken, live_nodes};
ghost use Rattle.gate_graph.specs.Holds.{pins_held};
ghost use Rattle.gate_graph.specs.Readers.{SameReaders};
ghost use Rattle.wire_edit.specs.Order.{IsTidy};
ghost use Rattle.wire_edit.specs.Inner.Known.{IsFresh};
ghost use Rattle.wire_edit.specs.Inner.Trials.{IsTrial, IsReserved, HasEnough};
ghost use Rattle.rm_base.specs.Numbers.{number_bound};

use crate::kept::Kept;
use crate::made::Made;
use crate::room::Room;
use crate::seen::Seen;
use crate::worklist::Worklist;
use gate_graph::{Graph, Marks, Undos};
use rm_base::NoMemory;
use std::alloc::Global;

// How many entries the undos of a room's steps take at most, or None for more than any memory holds.
fn entries_needed(room: Room, wires: usize) -> Option<usize>
    ensures { IfSome result (λ n. room.steps + wires + room.pins ≤ n) }
{
    let Some(sum) = room.steps.checked_add(wires) else {
        return None;
    };
    sum.checked_add(room.pins)
}

fn new_undos(alloc: Global, entries: usize) -> Result<Undos, NoMemory>
    ensures { IfOk result (λ u. (u.entries ≡ []) × (entries ≤ u.spare)) }
{
    let mut undos = Undos::new(alloc);
    match undos.reserve(entries) {
        Ok(()) => Ok(undos),
        Err(NoMemory) => Err(NoMemory),
    }
}

// Whether the room is there already.
pub(crate) fn is_enough(graph: &Graph, undos: &Undos, marks: &Marks, room: Room) -> bool
    ensures { result ≡ true → HasEnough graph.now undos.now.spare marks.now room }
{
    let Some(entries) = entries_needed(room, graph.wire_count() as usize) else {
        return false;
    };
    if undos.spare() < entries {
        return false;
    }
    if graph.free_pins() < room.pins {
        return false;
    }
    if graph.free_nodes() < room.nodes {
        return false;
    }
    (graph.node_bound() as usize).saturating_add(room.nodes) <= marks.numbers()
}

// Reserves all that a trial takes. In a tidy net no gate is to be looked at.
pub(crate) fn prepare(
    alloc: Global,
    graph: &mut Graph,
    room: Room,
    tidy: bool,
) -> Result<(Undos, Made, Marks, Worklist, Seen, Kept), NoMemory>
    requires pins { pins_taken graph.old + room.pins ≤ number_bound }
    requires nodes { live_nodes graph.old + room.nodes ≤ number_bound }
    requires tidy { tidy ≡ true → IsTidy (net_of graph.old) }
    ensures wiring { wiring graph.new ≡ wiring graph.old }
    ensures net { net_of graph.new ≡ net_of graph.old }
    ensures epoch { graph.new.epoch ≡ graph.old.epoch }
    ensures held { pins_held graph.new ≡ pins_held graph.old }
    ensures readers { SameReaders graph.old graph.new }
    ensures reserved { IsReserved graph.old graph.new }
    ensures parts { IfOk result (λ p. IsTrial graph.new p.0 room p.2 p.3 × ((p.1 ≡ record { steps = []; spare = room.steps }) × ((p.0.entries ≡ []) × ((p.2 ≤ p.4) × ((p.2 ≤ length p.5.marks.items) × IsFresh p.5))))) }
{
    let Some(entries) = entries_needed(room, graph.wire_count() as usize) else {
        return Err(NoMemory);
    };
    graph.well_formed();
    let numbers = graph.node_bound().saturating_add(room.nodes as u32);
    graph.reserve(room.pins, room.nodes)?;
    graph.leads_back();
    let undos = new_undos(alloc, entries)?;
    let made = Made::new(alloc, room.steps)?;
    let marks = Marks::new(alloc, numbers)?;
    let worklist = Worklist::new(alloc, numbers, !tidy)?;
    let seen = Seen::new(alloc, numbers)?;
    let kept = Kept::new(alloc, numbers)?;
    Ok((undos, made, marks, worklist, seen, kept))
}
