//! The nodes that steps change, so that vectors can follow them.
ghost use Rattle.std.specs.Prelude.{◌≡◌, ◌<◌, ℕ, IfOk, OnOk, None, Some, option_map, length, slice_get};
ghost use Rattle.gate_graph.specs.Circuit.{net_of};
ghost use Rattle.gate_net.specs.Edits.{DiffersAt};
ghost use Rattle.gate_net.specs.Net.{IsLive, Net, Reads};
ghost use Rattle.wire_edit.specs.Tests.{is_xor, other_position, second_driver};
ghost use Rattle.wire_edit.specs.declared.steps.Step.TheVariants.{Const};
ghost use Rattle.changed_nodes.specs.Changing.{AreNoted, HasListed, HasNoted, IsUnlisted, ListsNoted, NotesOn, passed_driver};
ghost use Rattle.rm_base.specs.Numbers.{numbers_of};

use gate_graph::Graph;
use gate_net::Kind;
use rm_base::{NoMemory, NodeId};
use std::alloc::Global;
use wire_edit::Step;

/// What a run of steps changed: gates, and new drivers, to which the readers of another node moved. Readers that came to read a
/// constant aren't noted, since a tidy net has none. It takes a number for each step or two, and not the readers themselves, which
/// `nodes` gives of the graph as it is then.
#[derive(Drop)]
pub struct Changed {
    gates: Vec<NodeId>,
    new_drivers: Vec<NodeId>,
}

// Lists a node.
fn list(nodes: &mut Vec<NodeId>, node: NodeId) -> Result<(), NoMemory>
    ensures { OnOk result (HasListed nodes.old.items nodes.new.items node.0) }
{
    nodes.push(node)?;
    Ok(())
}

// The driver of the driver.
fn second_driver(graph: &Graph, gate: NodeId) -> Option<NodeId>
    ensures { option_map (λ n. n.0) result ≡ second_driver (net_of graph.now) gate.0 }
{
    match graph.driver(gate, 0) {
        Some(inner) => graph.driver(inner, 0),
        None => None,
    }
}

// Whether the node is an Xor.
fn is_xor(graph: &Graph, node: NodeId) -> bool
    ensures { result ≡ is_xor (net_of graph.now) node.0 }
{
    graph.kind(node) == Some(Kind::Xor)
}

// The position of the other of two pins.
fn other_position(position: u32) -> u32
    ensures { result ≡ other_position position }
{
    if position == 0 { 1 } else { 0 }
}

// The driver of an Xor's other pin, which its readers have instead where the one reads a 0.
fn passed_driver(graph: &Graph, gate: NodeId, position: u32) -> Option<NodeId>
    ensures { option_map (λ n. n.0) result ≡ passed_driver (net_of graph.now) gate.0 position }
{
    if is_xor(graph, gate) {
        return graph.driver(gate, other_position(position));
    }
    None
}

// Adds the readers of a node.
fn add_readers(graph: &Graph, node: NodeId, nodes: &mut Vec<NodeId>) -> Result<(), NoMemory>
    requires { IsLive (net_of graph.now) node.0 }
    ensures { OnOk result ((y : ℕ) → IsUnlisted (numbers_of nodes.new.items) y → IsUnlisted (numbers_of nodes.old.items) y × ((position : ℕ) → Reads (net_of graph.now) y position node.0 → ⊥)) }
{
    graph.readers_listed();
    for reader in graph.readers_of(node) {
        nodes.push(reader)?;
    }
    Ok(())
}

// The same for a node that may be dead.
fn add_after(graph: &Graph, node: NodeId, nodes: &mut Vec<NodeId>) -> Result<(), NoMemory>
    ensures { OnOk result ((y : ℕ) → IsUnlisted (numbers_of nodes.new.items) y → IsUnlisted (numbers_of nodes.old.items) y × ((position : ℕ) → Reads (net_of graph.now) y position node.0 → ⊥)) }
{
    graph.well_formed();
    if graph.kind(node).is_some() {
        return add_readers(graph, node, nodes);
    }
    Ok(())
}

impl Changed {
    /// Nothing is noted.
    pub fn new(alloc: Global) -> Changed
        ensures { (net : Net) → AreNoted net net result }
    {
        Changed {
            gates: Vec::new(alloc),
            new_drivers: Vec::new(alloc),
        }
    }

    // Notes a gate.
    fn note_gate(&mut self, gate: NodeId) -> Result<(), NoMemory>
        ensures gates { OnOk result (HasListed self.old.gates.items self.new.gates.items gate.0) }
        ensures new_drivers { self.new.new_drivers.items ≡ self.old.new_drivers.items }
    {
        list(&mut self.gates, gate)
    }

    // Notes the node that readers moved to.
    fn note_new_driver(&mut self, new_driver: Option<NodeId>) -> Result<(), NoMemory>
        ensures gates { self.new.gates.items ≡ self.old.gates.items }
        ensures new_driver { OnOk result ((node : NodeId) → new_driver ≡ Some node → HasListed self.old.new_drivers.items self.new.new_drivers.items node.0) }
        ensures none { new_driver ≡ None → self.new.new_drivers.items ≡ self.old.new_drivers.items }
    {
        match new_driver {
            Some(node) => list(&mut self.new_drivers, node),
            None => Ok(()),
        }
    }

    // Notes a gate whose pin read a constant, and where its readers may have moved.
    fn note_constant(&mut self, graph: &Graph, gate: NodeId, position: u32) -> Result<(), NoMemory>
        ensures { OnOk result (HasNoted (Const gate position) graph.now self.old self.new) }
    {
        self.note_gate(gate)?;
        self.note_new_driver(passed_driver(graph, gate, position))
    }

    /// Notes what a step changed, by the graph after it. A new Not is noted by its number.
    pub fn note(&mut self, graph: &Graph, step: Step) -> Result<(), NoMemory>
        ensures { OnOk result (HasNoted step graph.now self.old self.new) }
    {
        match step {
            Step::Add { gate, node: _ } => self.note_gate(gate),
            Step::Fix {
                gate,
                position: _,
                value: _,
            } => self.note_gate(gate),
            Step::NewNot { node: _ } => Ok(()),
            Step::Const { gate, position } => self.note_constant(graph, gate, position),
            Step::Same { gate, position: _ } => self.note_gate(gate),
            Step::NoPins { gate: _ } => Ok(()),
            Step::OnePin { gate } => self.note_new_driver(graph.driver(gate, 0)),
            Step::Twice { gate } => self.note_new_driver(second_driver(graph, gate)),
            Step::Twin { gate: _, other } => self.note_new_driver(Some(other)),
            Step::Dead { gate } => self.note_gate(gate),
        }
    }

    /// Notes a gate that was made.
    pub fn note_made(&mut self, gate: NodeId) -> Result<(), NoMemory>
        ensures { OnOk result ((net after : Net) → DiffersAt net after gate.0 → NotesOn net after self.old self.new) }
    {
        self.note_gate(gate)
    }

    /// The nodes that are noted, and what reads those to which readers moved.
    pub fn nodes(&self, alloc: Global, graph: &Graph) -> Result<Vec<NodeId>, NoMemory>
        ensures { IfOk result (λ ns. ListsNoted (net_of graph.now) self.now ns.items) }
    {
        let mut nodes = Vec::from_slice(alloc, self.gates.as_slice())?;
        for place in 0..self.new_drivers.len() {
            add_after(graph, self.new_drivers[place], &mut nodes)?;
        }
        Ok(nodes)
    }
}
