//! Marks the gates that a step touches.
ghost use Rattle.std.specs.Prelude.{◌≡◌, ◌<◌, ◌≤◌, ◌≢◌, ℕ, true, false, length};
ghost use Rattle.gate_graph.specs.Circuit.{net_of};
ghost use Rattle.gate_net.specs.Net.{Reads};
ghost use Rattle.wire_edit.specs.Changes.{Change, readers, new_not, to_not};
ghost use Rattle.wire_edit.specs.Tests.{is_not};
ghost use Rattle.wire_edit.specs.Edited.{edit_of, IsNewNot};
ghost use Rattle.wire_edit.specs.Inner.Changes.{least_free};
ghost use Rattle.wire_edit.specs.Inner.Marked.{is_marked, KeepsMarks, MarksTouched};
ghost use Rattle.wire_edit.specs.Inner.Touched.{IsReadBy, IsNotOf};

use crate::edits::other_position;
use crate::looks::{is_live, is_not};
use crate::worklist::Worklist;
use gate_graph::{Edit, Graph};
use rm_base::{NodeId, ZERO};

// Marks the readers of a node, and tells whether a Not is among them.
fn mark_readers(worklist: &mut Worklist, graph: &Graph, node: NodeId) -> bool
    ensures kept { KeepsMarks worklist.old worklist.new }
    ensures readers { (y : ℕ) → IsReadBy (net_of graph.now) node.0 y → y < length worklist.new → is_marked worklist.new y ≡ true }
    ensures nots { result ≡ false → (y : ℕ) → IsNotOf (net_of graph.now) node.0 y → ⊥ }
{
    graph.well_formed();
    graph.readers_listed();
    if !is_live(graph, node) {
        return false;
    }
    let mut found = false;
    for reader in graph.readers_of(node) {
        worklist.mark(reader.0);
        found = found || is_not(graph, reader);
    }
    found
}

// Marks the Nots of a node.
fn mark_nots(worklist: &mut Worklist, graph: &Graph, node: NodeId)
    ensures kept { KeepsMarks worklist.old worklist.new }
    ensures nots { (y : ℕ) → IsNotOf (net_of graph.now) node.0 y → y < length worklist.new → is_marked worklist.new y ≡ true }
{
    graph.well_formed();
    graph.readers_listed();
    if !is_live(graph, node) {
        return;
    }
    for reader in graph.readers_of(node) {
        mark_not(worklist, graph, reader);
    }
}

// Marks a node, if it is a Not.
fn mark_not(worklist: &mut Worklist, graph: &Graph, node: NodeId)
    ensures kept { KeepsMarks worklist.old worklist.new }
    ensures marked { is_not (net_of graph.now) node.0 ≡ true → node.0 < length worklist.new → is_marked worklist.new node.0 ≡ true }
{
    if is_not(graph, node) {
        worklist.mark(node.0);
    }
}

// Marks the drivers of a node.
fn mark_drivers(worklist: &mut Worklist, graph: &Graph, gate: NodeId)
    ensures kept { KeepsMarks worklist.old worklist.new }
    ensures drivers { (x : ℕ) → IsReadBy (net_of graph.now) x gate.0 → x < length worklist.new → is_marked worklist.new x ≡ true }
{
    if !is_live(graph, gate) {
        return;
    }
    for driver in graph.inputs_of(gate) {
        worklist.mark(driver.0);
    }
}

// Marks a gate and the driver of one of its pins.
fn mark_pin(worklist: &mut Worklist, graph: &Graph, gate: NodeId, position: u32)
    ensures kept { KeepsMarks worklist.old worklist.new }
    ensures gate { gate.0 < length worklist.new → is_marked worklist.new gate.0 ≡ true }
    ensures driver { (x : ℕ) → Reads (net_of graph.now) gate.0 position x → x < length worklist.new → is_marked worklist.new x ≡ true }
{
    worklist.mark(gate.0);
    if let Some(driver) = graph.driver(gate, position) {
        worklist.mark(driver.0);
    }
}

// Marks what a move of readers touches.
fn mark_move(worklist: &mut Worklist, graph: &Graph, from: NodeId, to: NodeId)
    ensures kept { KeepsMarks worklist.old worklist.new }
    ensures touched { MarksTouched (net_of graph.now) (readers from.0 to.0) worklist.new }
{
    worklist.mark(from.0);
    let found = mark_readers(worklist, graph, from);
    if found {
        if to.0 > 1 {
            mark_nots(worklist, graph, to);
        }
    }
}

// Marks the Nots of the driver of a pin, if that is no constant.
fn mark_nots_at(worklist: &mut Worklist, graph: &Graph, gate: NodeId, position: u32)
    ensures kept { KeepsMarks worklist.old worklist.new }
    ensures nots { (d y : ℕ) → 1 < d → Reads (net_of graph.now) gate.0 position d → IsNotOf (net_of graph.now) d y → y < length worklist.new → is_marked worklist.new y ≡ true }
{
    if let Some(driver) = graph.driver(gate, position) {
        if driver.0 > 1 {
            mark_nots(worklist, graph, driver);
        }
    }
}

// Marks what turning an Xor into a Not touches.
fn mark_turn(worklist: &mut Worklist, graph: &Graph, gate: NodeId, position: u32)
    ensures kept { KeepsMarks worklist.old worklist.new }
    ensures touched { MarksTouched (net_of graph.now) (to_not gate.0 position) worklist.new }
{
    mark_pin(worklist, graph, gate, position);
    mark_nots(worklist, graph, gate);
    mark_nots_at(worklist, graph, gate, other_position(position));
}

// Marks, before an edit, what it touches.
pub(crate) fn mark_before(worklist: &mut Worklist, graph: &Graph, edit: &Edit)
    ensures kept { KeepsMarks worklist.old worklist.new }
    ensures touched { (change : Change) → edit.now ≡ edit_of change → (IsNewNot change → ⊥) → MarksTouched (net_of graph.now) change worklist.new }
{
    match *edit {
        Edit::Append { gate, driver: _ } => worklist.mark(gate.0),
        Edit::Remove { gate, position } => mark_pin(worklist, graph, gate, position),
        Edit::Redrive {
            gate,
            position,
            driver: _,
        } => mark_pin(worklist, graph, gate, position),
        Edit::Readers { from, to } => mark_move(worklist, graph, from, to),
        Edit::NewNot { driver: _ } => {}
        Edit::Retire { gate } => mark_drivers(worklist, graph, gate),
        Edit::ToNot { gate, position } => mark_turn(worklist, graph, gate, position),
    }
}

// The number that a new Not takes.
pub(crate) fn number_for(graph: &Graph, edit: &Edit) -> NodeId
    ensures { (driver : ℕ) → edit.now ≡ edit_of (new_not driver) → result.0 ≡ least_free (net_of graph.now).nodes }
{
    match *edit {
        Edit::NewNot { driver: _ } => graph.least_free(),
        _ => ZERO,
    }
}

// Marks, after an edit, a new Not and those Nots of its driver that have higher numbers: where it has the highest of
// all numbers, that is itself alone.
pub(crate) fn mark_after(worklist: &mut Worklist, graph: &Graph, edit: &Edit, made: NodeId)
    ensures kept { KeepsMarks worklist.old worklist.new }
    ensures nots { (driver y : ℕ) → edit.now ≡ edit_of (new_not driver) → made.0 ≤ y → IsNotOf (net_of graph.now) driver y → y < length worklist.new → is_marked worklist.new y ≡ true }
{
    if let Edit::NewNot { driver } = *edit {
        if graph.node_bound().saturating_sub(1) == made.0 {
            worklist.mark(made.0);
            return;
        }
        mark_nots(worklist, graph, driver);
    }
}
