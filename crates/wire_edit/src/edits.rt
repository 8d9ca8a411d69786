//! Steps as edits of a graph.
ghost use Rattle.std.specs.Prelude.{◌≡◌, ℕ, Bool, Option, Some, if◌then◌else◌};
ghost use Rattle.std.specs.Option.{option_map};
ghost use Rattle.gate_graph.specs.Circuit.{net_of};
ghost use Rattle.gate_net.specs.Edits.{constant_node};
ghost use Rattle.gate_net.specs.declared.Family.TheVariants.{Parity};
ghost use Rattle.gate_net.specs.Values.{same_bool};
ghost use Rattle.wire_edit.specs.Tests.{family_of, other_position, constant_at};
ghost use Rattle.wire_edit.specs.Changes.{readers, remove};
ghost use Rattle.wire_edit.specs.Steps.{change_of, constant_change, same_change, empty_node, or_zero, other_driver};
ghost use Rattle.wire_edit.specs.Edited.{edit_of};

use crate::looks::{constant_of, control_of, family_of, is_xor, second_driver};
use crate::steps::Step;
use gate_graph::{Edit, Graph};
use gate_net::Family;
use rm_base::{NodeId, ONE, ZERO};

fn constant_node(value: bool) -> NodeId
    ensures { result.0 ≡ constant_node value }
{
    if value { ONE } else { ZERO }
}

fn empty_node(control: Option<bool>) -> NodeId
    ensures { result.0 ≡ empty_node control }
{
    match control {
        Some(value) => constant_node(!value),
        None => NodeId(0),
    }
}

fn or_zero(node: Option<NodeId>) -> NodeId
    ensures { result.0 ≡ or_zero (option_map (λ n. n.0) node) }
{
    match node {
        Some(node) => node,
        None => NodeId(0),
    }
}

// The constant that a pin reads.
fn constant_at(graph: &Graph, gate: NodeId, position: u32) -> Option<bool>
    ensures { result ≡ constant_at (net_of graph.now) gate.0 position }
{
    match graph.driver(gate, position) {
        Some(driver) => constant_of(graph, driver),
        None => None,
    }
}

// The position of the other of two pins.
pub(crate) fn other_position(position: u32) -> u32
    ensures { result ≡ other_position position }
{
    if position == 0 { 1 } else { 0 }
}

// The driver of the other of two pins.
fn other_driver(graph: &Graph, gate: NodeId, position: u32) -> NodeId
    ensures { result.0 ≡ other_driver (net_of graph.now) gate.0 position }
{
    or_zero(graph.driver(gate, other_position(position)))
}

// The edit for a pin of an And or an Or that reads a constant.
fn junction_edit(gate: NodeId, position: u32, control: bool, value: bool) -> Edit
    ensures { result ≡ edit_of (if same_bool value control then readers gate.0 (constant_node control) else remove gate.0 position) }
{
    if value == control {
        return Edit::Readers {
            from: gate,
            to: constant_node(control),
        };
    }
    Edit::Remove { gate, position }
}

// The edit for a pin of a Not, or of an Xor whose other pin has that driver, that reads a constant.
fn parity_edit(gate: NodeId, position: u32, other: NodeId, inverts: bool, value: bool) -> Edit
    ensures { result ≡ edit_of (constant_change gate.0 position other.0 (Parity inverts) (Some value)) }
{
    if inverts {
        return Edit::Readers {
            from: gate,
            to: constant_node(!value),
        };
    }
    if value {
        return Edit::ToNot { gate, position };
    }
    Edit::Readers {
        from: gate,
        to: other,
    }
}

// The edit for a pin that reads a constant.
fn constant_edit(
    gate: NodeId,
    position: u32,
    other: NodeId,
    family: Family,
    constant: Option<bool>,
) -> Edit
    ensures { result ≡ edit_of (constant_change gate.0 position other.0 family constant) }
{
    let Some(value) = constant else {
        return Edit::Remove { gate, position };
    };
    match family {
        Family::Junction { controlling } => junction_edit(gate, position, controlling, value),
        Family::Parity { inverts } => parity_edit(gate, position, other, inverts, value),
        Family::Input | Family::Constant { value: _ } => Edit::Remove { gate, position },
    }
}

// The edit for a pin whose driver an earlier pin has.
fn same_edit(gate: NodeId, position: u32, at_xor: bool) -> Edit
    ensures { result ≡ edit_of (same_change gate.0 position at_xor) }
{
    if at_xor {
        return Edit::Readers {
            from: gate,
            to: ZERO,
        };
    }
    Edit::Remove { gate, position }
}

// The edit that makes a step.
pub(crate) fn edit_for(graph: &Graph, step: Step) -> Edit
    ensures { result ≡ edit_of (change_of (net_of graph.now) step) }
{
    match step {
        Step::Add { gate, node } => Edit::Append { gate, driver: node },
        Step::Fix {
            gate,
            position,
            value,
        } => Edit::Redrive {
            gate,
            position,
            driver: constant_node(value),
        },
        Step::NewNot { node } => Edit::NewNot { driver: node },
        Step::Const { gate, position } => constant_edit(
            gate,
            position,
            other_driver(graph, gate, position),
            family_of(graph, gate),
            constant_at(graph, gate, position),
        ),
        Step::Same { gate, position } => same_edit(gate, position, is_xor(graph, gate)),
        Step::NoPins { gate } => Edit::Readers {
            from: gate,
            to: empty_node(control_of(graph, gate)),
        },
        Step::OnePin { gate } => Edit::Readers {
            from: gate,
            to: or_zero(graph.driver(gate, 0)),
        },
        Step::Twice { gate } => Edit::Readers {
            from: gate,
            to: or_zero(second_driver(graph, gate)),
        },
        Step::Twin { gate, other } => Edit::Readers {
            from: gate,
            to: other,
        },
        Step::Dead { gate } => Edit::Retire { gate },
    }
}
