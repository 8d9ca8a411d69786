//! Why a step can't be made in a net.
ghost use Rattle.std.specs.Prelude.{◌≡◌, ◌↔◌, ◌≤◌, ◌∷◌, [], ◌||◌, IsTrue, length, Some, None, true, false, Bool};
ghost use Rattle.gate_graph.specs.Circuit.{net_of};
ghost use Rattle.wire_edit.specs.declared.steps.Step.TheVariants.{Add, Const, Same, NoPins, OnePin, Twice, Twin, Dead};
ghost use Rattle.wire_edit.specs.Tests.{is_gate, driver_at};
ghost use Rattle.wire_edit.specs.Steps.{rule_applies, same_some};
ghost use Rattle.gate_net.specs.Net.{IsLive};
ghost use Rattle.wire_edit.specs.declared.refusal.EditRefusal.TheVariants.{RuleNotMet};
ghost use Rattle.wire_edit.specs.Refusals.{first_of, live, gate_kind, pin, unless, fault_of, ClosesCycle};
ghost use Rattle.wire_edit.specs.Inner.Refusals.{IsFault};

use crate::looks::{
    control_of, drives, is_constant, is_gate, is_in_use, is_junction, is_live, is_not,
    reads_several,
};
use crate::refusal::EditRefusal;
use crate::rules::reads_before;
use crate::steps::{Rule, Step};
use gate_graph::{Graph, Marks};
use rm_base::NodeId;

// Whether a gate in use reads a constant at the pin.
fn const_met(graph: &Graph, gate: NodeId, position: u32) -> bool
    requires { is_gate (net_of graph.now) gate.0 ≡ true }
    ensures { result ≡ rule_applies (net_of graph.now) (Const gate position) }
{
    if !is_in_use(graph, gate) {
        return false;
    }
    match graph.driver(gate, position) {
        Some(driver) => is_constant(graph, driver),
        None => false,
    }
}

// Whether an And, an Or or an Xor in use has an earlier pin of the same driver.
fn same_met(graph: &Graph, gate: NodeId, position: u32) -> bool
    requires { is_gate (net_of graph.now) gate.0 ≡ true }
    ensures { result ≡ rule_applies (net_of graph.now) (Same gate position) }
{
    if !reads_several(graph, gate) {
        return false;
    }
    if !is_in_use(graph, gate) {
        return false;
    }
    match graph.driver(gate, position) {
        Some(driver) => reads_before(graph, gate, driver, position),
        None => false,
    }
}

// Whether a junction in use has no pins.
fn no_pins_met(graph: &Graph, gate: NodeId) -> bool
    requires { is_gate (net_of graph.now) gate.0 ≡ true }
    ensures { result ≡ rule_applies (net_of graph.now) (NoPins gate) }
{
    if !is_junction(graph, gate) {
        return false;
    }
    if !is_in_use(graph, gate) {
        return false;
    }
    match graph.driver(gate, 0) {
        Some(_) => false,
        None => true,
    }
}

// Whether a junction in use has one pin.
fn one_pin_met(graph: &Graph, gate: NodeId) -> bool
    requires { is_gate (net_of graph.now) gate.0 ≡ true }
    ensures { result ≡ rule_applies (net_of graph.now) (OnePin gate) }
{
    if !is_junction(graph, gate) {
        return false;
    }
    if !is_in_use(graph, gate) {
        return false;
    }
    let Some(_) = graph.driver(gate, 0) else {
        return false;
    };
    match graph.driver(gate, 1) {
        Some(_) => false,
        None => true,
    }
}

// Whether a Not in use reads a Not.
fn twice_met(graph: &Graph, gate: NodeId) -> bool
    requires { is_gate (net_of graph.now) gate.0 ≡ true }
    ensures { result ≡ rule_applies (net_of graph.now) (Twice gate) }
{
    if !is_not(graph, gate) {
        return false;
    }
    if !is_in_use(graph, gate) {
        return false;
    }
    match graph.driver(gate, 0) {
        Some(driver) => is_not(graph, driver),
        None => false,
    }
}

// Whether two nodes have one first driver.
fn same_driver(graph: &Graph, gate: NodeId, other: NodeId) -> bool
    ensures { result ≡ same_some (driver_at (net_of graph.now) gate.0 0) (driver_at (net_of graph.now) other.0 0) }
{
    let Some(first) = graph.driver(gate, 0) else {
        return false;
    };
    match graph.driver(other, 0) {
        Some(second) => first == second,
        None => false,
    }
}

// Whether a lower Not has the driver of a Not in use.
fn twin_met(graph: &Graph, gate: NodeId, other: NodeId) -> bool
    requires { is_gate (net_of graph.now) gate.0 ≡ true }
    ensures { result ≡ rule_applies (net_of graph.now) (Twin gate other) }
{
    if !is_not(graph, gate) {
        return false;
    }
    if !is_in_use(graph, gate) {
        return false;
    }
    if !is_not(graph, other) {
        return false;
    }
    if other.0 >= gate.0 {
        return false;
    }
    same_driver(graph, gate, other)
}

// The first fault of a gate: dead, or no gate.
fn gate_fault(graph: &Graph, gate: NodeId) -> Option<EditRefusal>
    ensures first { result ≡ first_of (live (net_of graph.now) gate ∷ gate_kind (net_of graph.now) gate ∷ []) }
    ensures gate { result ≡ None → is_gate (net_of graph.now) gate.0 ≡ true }
{
    if !is_live(graph, gate) {
        return Some(EditRefusal::NoNode { node: gate });
    }
    if !is_gate(graph, gate) {
        return Some(EditRefusal::WrongKind { node: gate });
    }
    None
}

// The first fault of a pin of a gate.
fn pin_fault(graph: &Graph, gate: NodeId, position: u32) -> Option<EditRefusal>
    ensures first { result ≡ first_of (live (net_of graph.now) gate ∷ gate_kind (net_of graph.now) gate ∷ pin (net_of graph.now) gate position ∷ []) }
    ensures gate { result ≡ None → is_gate (net_of graph.now) gate.0 ≡ true }
{
    if let Some(refusal) = gate_fault(graph, gate) {
        return Some(refusal);
    }
    match graph.driver(gate, position) {
        Some(_) => None,
        None => Some(EditRefusal::NoPin { gate, position }),
    }
}

// No fault where the rule is met.
fn unless_met(holds: bool, rule: Rule, gate: NodeId) -> Option<EditRefusal>
    ensures { result ≡ unless holds (RuleNotMet rule gate) }
{
    if holds {
        return None;
    }
    Some(EditRefusal::RuleNotMet { rule, node: gate })
}

fn const_fault(graph: &Graph, gate: NodeId, position: u32) -> Option<EditRefusal>
    ensures { result ≡ fault_of (net_of graph.now) (Const gate position) false }
{
    if let Some(refusal) = pin_fault(graph, gate, position) {
        return Some(refusal);
    }
    unless_met(const_met(graph, gate, position), Rule::Const, gate)
}

fn same_fault(graph: &Graph, gate: NodeId, position: u32) -> Option<EditRefusal>
    ensures { result ≡ fault_of (net_of graph.now) (Same gate position) false }
{
    if let Some(refusal) = pin_fault(graph, gate, position) {
        return Some(refusal);
    }
    unless_met(same_met(graph, gate, position), Rule::Same, gate)
}

fn no_pins_fault(graph: &Graph, gate: NodeId) -> Option<EditRefusal>
    ensures { result ≡ fault_of (net_of graph.now) (NoPins gate) false }
{
    if let Some(refusal) = gate_fault(graph, gate) {
        return Some(refusal);
    }
    unless_met(no_pins_met(graph, gate), Rule::NoPins, gate)
}

fn one_pin_fault(graph: &Graph, gate: NodeId) -> Option<EditRefusal>
    ensures { result ≡ fault_of (net_of graph.now) (OnePin gate) false }
{
    if let Some(refusal) = gate_fault(graph, gate) {
        return Some(refusal);
    }
    unless_met(one_pin_met(graph, gate), Rule::OnePin, gate)
}

fn twice_fault(graph: &Graph, gate: NodeId) -> Option<EditRefusal>
    ensures { result ≡ fault_of (net_of graph.now) (Twice gate) false }
{
    if let Some(refusal) = gate_fault(graph, gate) {
        return Some(refusal);
    }
    unless_met(twice_met(graph, gate), Rule::Twice, gate)
}

fn twin_fault(graph: &Graph, gate: NodeId, other: NodeId) -> Option<EditRefusal>
    ensures { result ≡ fault_of (net_of graph.now) (Twin gate other) false }
{
    if !is_live(graph, gate) {
        return Some(EditRefusal::NoNode { node: gate });
    }
    if !is_live(graph, other) {
        return Some(EditRefusal::NoNode { node: other });
    }
    if !is_gate(graph, gate) {
        return Some(EditRefusal::WrongKind { node: gate });
    }
    unless_met(twin_met(graph, gate, other), Rule::Twin, gate)
}

fn dead_fault(graph: &Graph, gate: NodeId) -> Option<EditRefusal>
    ensures { result ≡ fault_of (net_of graph.now) (Dead gate) false }
{
    if let Some(refusal) = gate_fault(graph, gate) {
        return Some(refusal);
    }
    unless_met(!is_in_use(graph, gate), Rule::Dead, gate)
}

fn live_fault(graph: &Graph, node: NodeId) -> Option<EditRefusal>
    ensures { result ≡ live (net_of graph.now) node }
{
    if is_live(graph, node) {
        return None;
    }
    Some(EditRefusal::NoNode { node })
}

// Whether a pin of the gate that reads the node would close a cycle.
fn closes_cycle(graph: &Graph, gate: NodeId, node: NodeId, marks: &mut Marks) -> bool
    requires gate { IsLive (net_of graph.now) gate.0 }
    requires node { IsLive (net_of graph.now) node.0 }
    requires marks { length (net_of graph.now).nodes ≤ marks.old }
    ensures tells { (result ≡ true) ↔ ClosesCycle (net_of graph.now) (Add gate node) }
    ensures marks { marks.new ≡ marks.old }
{
    if gate == node {
        return true;
    }
    graph.reaches(gate, node, marks)
}

fn add_fault(graph: &Graph, gate: NodeId, node: NodeId, marks: &mut Marks) -> Option<EditRefusal>
    requires { length (net_of graph.now).nodes ≤ marks.old }
    ensures fault { IsFault (net_of graph.now) (Add gate node) result }
    ensures marks { marks.new ≡ marks.old }
{
    graph.well_formed();
    if !is_live(graph, gate) {
        return Some(EditRefusal::NoNode { node: gate });
    }
    if !is_live(graph, node) {
        return Some(EditRefusal::NoNode { node });
    }
    if !is_junction(graph, gate) {
        return Some(EditRefusal::WrongKind { node: gate });
    }
    if closes_cycle(graph, gate, node, marks) {
        return Some(EditRefusal::Cycle {
            from: gate,
            to: node,
        });
    }
    if drives(graph, gate, node) {
        return Some(EditRefusal::AlreadyPin { gate, node });
    }
    None
}

// The first reason in the net against a step.
pub(crate) fn fault(graph: &Graph, step: Step, marks: &mut Marks) -> Option<EditRefusal>
    requires { length (net_of graph.now).nodes ≤ marks.old }
    ensures fault { IsFault (net_of graph.now) step result }
    ensures marks { marks.new ≡ marks.old }
{
    match step {
        Step::Add { gate, node } => add_fault(graph, gate, node, marks),
        Step::Fix {
            gate,
            position,
            value: _,
        } => pin_fault(graph, gate, position),
        Step::NewNot { node } => live_fault(graph, node),
        Step::Const { gate, position } => const_fault(graph, gate, position),
        Step::Same { gate, position } => same_fault(graph, gate, position),
        Step::NoPins { gate } => no_pins_fault(graph, gate),
        Step::OnePin { gate } => one_pin_fault(graph, gate),
        Step::Twice { gate } => twice_fault(graph, gate),
        Step::Twin { gate, other } => twin_fault(graph, gate, other),
        Step::Dead { gate } => dead_fault(graph, gate),
    }
}
