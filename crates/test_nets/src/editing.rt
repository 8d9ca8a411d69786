//! Edits that are made where they may be made.
ghost use Rattle.std.specs.Prelude.{◌≡◌, ◌≢◌, ◌≤◌, ◌<◌, ◌+◌, ◌*◌, true, Bool, IfOk, OnOk, length};
ghost use Rattle.gate_graph.specs.Changes.{CanEdit, entries_for};
ghost use Rattle.gate_graph.specs.Circuit.{free_nodes, free_pins, live_nodes, net_of, pins_taken, wiring};
ghost use Rattle.gate_graph.specs.Undoing.{AreWithin, CanGoBack};
ghost use Rattle.gate_graph.specs.declared.editing.Edit.{Edit};
ghost use Rattle.gate_net.specs.Edits.{IsUnread};
ghost use Rattle.gate_net.specs.Net.{IsGate, IsKind, IsLive, drivers_of};
ghost use Rattle.gate_net.specs.Paths.{Reaches};
ghost use Rattle.gate_net.specs.declared.Kind.TheVariants.{Xor};
ghost use Rattle.gate_net.specs.Values.{IsJunction};
ghost use Rattle.rm_base.specs.Numbers.{number_bound};

use gate_graph::{Edit, Graph, Marks, Undos};
use gate_net::Kind;
use rm_base::{NoMemory, NodeId};
use std::alloc::Global;
use std::test::Fail;

/// Whether a node is live.
pub fn is_live(graph: &Graph, node: NodeId) -> bool
    ensures { result ≡ true → IsLive (net_of graph.now) node.0 }
{
    match graph.kind(node) {
        Some(_) => true,
        None => false,
    }
}

/// Whether there are few nodes.
pub fn few_nodes(graph: &Graph) -> bool
    ensures { result ≡ true → live_nodes graph.now ≤ 20002 }
{
    graph.well_formed();
    if graph.source_count() > 10000 {
        return false;
    }
    graph.gate_count() <= 10000
}

fn is_junction(graph: &Graph, node: NodeId) -> bool
    ensures { result ≡ true → (c : Bool) × IsJunction (net_of graph.now) node.0 c }
{
    match graph.kind(node) {
        Some(kind) => kind.takes_pins(),
        None => false,
    }
}

fn is_gate(graph: &Graph, node: NodeId) -> bool
    ensures { result ≡ true → IsGate (net_of graph.now) node.0 }
{
    match graph.kind(node) {
        Some(kind) => kind.is_gate(),
        None => false,
    }
}

fn is_xor(graph: &Graph, node: NodeId) -> bool
    ensures { result ≡ true → IsKind (net_of graph.now) node.0 Xor }
{
    match graph.kind(node) {
        Some(Kind::Xor) => true,
        _ => false,
    }
}

fn has_pin(graph: &Graph, gate: NodeId, position: u32) -> bool
    ensures { result ≡ true → position < length (drivers_of (net_of graph.now) gate.0) }
{
    graph.driver(gate, position).is_some()
}

// Whether the gate, where it is live, may read the driver.
fn may_read(alloc: Global, graph: &Graph, gate: NodeId, driver: NodeId) -> Result<bool, NoMemory>
    ensures { IfOk result (λ b. b ≡ true → IsLive (net_of graph.now) driver.0 × ((driver.0 ≢ gate.0) × (Reaches (net_of graph.now) gate.0 driver.0 → ⊥))) }
{
    if driver == gate {
        return Ok(false);
    }
    if !is_live(graph, gate) {
        return Ok(false);
    }
    if !is_live(graph, driver) {
        return Ok(false);
    }
    let mut marks = Marks::new(alloc, graph.node_bound())?;
    Ok(!graph.reaches(gate, driver, &mut marks))
}

fn is_unread(graph: &Graph, node: NodeId) -> bool
    ensures { result ≡ true → IsUnread (net_of graph.now) node.0 }
{
    if !is_live(graph, node) {
        return false;
    }
    if graph.is_observed(node) {
        return false;
    }
    graph.readers_listed();
    for _ in graph.fanouts_of(node) {
        return false;
    }
    true
}

fn may_append(alloc: Global, graph: &Graph, gate: NodeId, driver: NodeId) -> Result<bool, NoMemory>
    requires { 0 < free_pins graph.now }
    ensures { IfOk result (λ b. b ≡ true → CanEdit graph.now (Edit.Append gate driver)) }
{
    if !is_junction(graph, gate) {
        return Ok(false);
    }
    may_read(alloc, graph, gate, driver)
}

fn may_remove(graph: &Graph, gate: NodeId, position: u32) -> bool
    ensures { result ≡ true → CanEdit graph.now (Edit.Remove gate position) }
{
    if !is_junction(graph, gate) {
        return false;
    }
    has_pin(graph, gate, position)
}

fn may_redrive(
    alloc: Global,
    graph: &Graph,
    gate: NodeId,
    position: u32,
    driver: NodeId,
) -> Result<bool, NoMemory>
    ensures { IfOk result (λ b. b ≡ true → CanEdit graph.now (Edit.Redrive gate position driver)) }
{
    if !has_pin(graph, gate, position) {
        return Ok(false);
    }
    may_read(alloc, graph, gate, driver)
}

fn may_reread(alloc: Global, graph: &Graph, from: NodeId, to: NodeId) -> Result<bool, NoMemory>
    ensures { IfOk result (λ b. b ≡ true → CanEdit graph.now (Edit.Readers from to)) }
{
    if !is_gate(graph, from) {
        return Ok(false);
    }
    may_read(alloc, graph, from, to)
}

fn may_retire(graph: &Graph, gate: NodeId) -> bool
    ensures { result ≡ true → CanEdit graph.now (Edit.Retire gate) }
{
    if !is_gate(graph, gate) {
        return false;
    }
    is_unread(graph, gate)
}

fn may_turn(graph: &Graph, gate: NodeId, position: u32) -> bool
    ensures { result ≡ true → CanEdit graph.now (Edit.ToNot gate position) }
{
    if !is_xor(graph, gate) {
        return false;
    }
    has_pin(graph, gate, position)
}

/// Whether the edit may be made.
pub fn may_edit(alloc: Global, graph: &Graph, edit: &Edit) -> Result<bool, NoMemory>
    requires pins { 0 < free_pins graph.now }
    requires nodes { 0 < free_nodes graph.now }
    ensures { IfOk result (λ b. b ≡ true → CanEdit graph.now edit.now) }
{
    match *edit {
        Edit::Append { gate, driver } => may_append(alloc, graph, gate, driver),
        Edit::Remove { gate, position } => Ok(may_remove(graph, gate, position)),
        Edit::Redrive {
            gate,
            position,
            driver,
        } => may_redrive(alloc, graph, gate, position, driver),
        Edit::Readers { from, to } => may_reread(alloc, graph, from, to),
        Edit::NewNot { driver } => Ok(is_live(graph, driver)),
        Edit::ToNot { gate, position } => Ok(may_turn(graph, gate, position)),
        Edit::Retire { gate } => Ok(may_retire(graph, gate)),
    }
}

fn count_pins(graph: &Graph, node: NodeId) -> usize
    requires { IsLive (net_of graph.now) node.0 }
    ensures count { result ≡ length (drivers_of (net_of graph.now) node.0) }
    ensures few { result ≤ number_bound }
{
    let mut count = 0usize;
    for _ in graph.inputs_of(node) {
        count += 1;
    }
    count
}

/// Reserves as many undos as the edit takes.
pub fn reserve_undos(graph: &Graph, undos: &mut Undos, edit: &Edit) -> Result<(), NoMemory>
    requires { CanEdit graph.now edit.now }
    ensures entries { undos.new.entries ≡ undos.old.entries }
    ensures spare { OnOk result (entries_for graph.now edit.now ≤ undos.new.spare) }
{
    match *edit {
        Edit::Retire { gate } => undos.reserve(1 + count_pins(graph, gate)),
        _ => undos.reserve(1),
    }
}

/// Makes the edit where it may be made, and tells whether it was.
pub fn try_edit(
    alloc: Global,
    graph: &mut Graph,
    undos: &mut Undos,
    edit: &Edit,
) -> Result<bool, Fail>
    requires back { CanGoBack (wiring graph.old) undos.old.entries }
    requires within { AreWithin (length graph.old.kinds) undos.old.entries }
    requires pins { pins_taken graph.old ≤ 1000000 }
    ensures back { CanGoBack (wiring graph.new) undos.new.entries }
    ensures within { AreWithin (length graph.new.kinds) undos.new.entries }
    ensures pins { pins_taken graph.new ≤ pins_taken graph.old + 1 }
{
    if !few_nodes(graph) {
        return Err("too many nodes".into());
    }
    graph.reserve(1, 1)?;
    if !may_edit(alloc, graph, edit)? {
        return Ok(false);
    }
    reserve_undos(graph, undos, edit)?;
    graph.edit(edit, undos);
    Ok(true)
}
