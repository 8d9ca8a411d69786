//! Which rule comes first at a gate, and which in a net.
ghost use Rattle.std.specs.Prelude.{◌≡◌, ◌<◌, ◌≤◌, length, take, Some, None, true, false, ℕ, IfSome};
ghost use Rattle.gate_graph.specs.Circuit.{net_of};
ghost use Rattle.gate_net.specs.Net.{drivers_of, IsLive};
ghost use Rattle.wire_edit.specs.Tests.{is_gate, is_not, reads_several, is_in_use, is_repeated, is_among, driver_at};
ghost use Rattle.wire_edit.specs.Inner.Firsts.{IsFirst, reads_constant, is_twin};
ghost use Rattle.wire_edit.specs.Order.{rule_at, next_step};
ghost use Rattle.wire_edit.specs.Inner.Known.{IsKept};
ghost use Rattle.wire_edit.specs.Inner.Marked.{IsQuietBelow};

use crate::kept::Kept;
use crate::looks::{is_constant, is_gate, is_in_use, is_live, is_not};
use crate::seen::{Seen, first_repeated};
use crate::steps::Step;
use gate_graph::Graph;
use gate_net::Kind;
use rm_base::NodeId;

// The first pin that reads a constant, where none before a position does.
pub(crate) fn constant_from(graph: &Graph, gate: NodeId, from: u32) -> Option<u32>
    requires live { IsLive (net_of graph.now) gate.0 }
    requires before { (k : ℕ) → k < from → reads_constant (net_of graph.now) gate.0 k ≡ false }
    ensures { IsFirst (reads_constant (net_of graph.now) gate.0) (length (drivers_of (net_of graph.now) gate.0)) result }
{
    graph.well_formed();
    let mut position = from;
    for driver in graph.inputs_from(gate, from) {
        if is_constant(graph, driver) {
            return Some(position);
        }
        position += 1;
    }
    None
}

// Whether one of the first pins of a gate reads the node.
pub(crate) fn reads_before(graph: &Graph, gate: NodeId, node: NodeId, before: u32) -> bool
    ensures { result ≡ is_among node.0 (take before (drivers_of (net_of graph.now) gate.0)) }
{
    if !is_live(graph, gate) {
        return false;
    }
    let mut left = before;
    for driver in graph.inputs_of(gate) {
        if left == 0 {
            return false;
        }
        if driver == node {
            return true;
        }
        left -= 1;
    }
    false
}

// The first pin whose driver drives an earlier pin, without marks: in the time of the square of the pins.
fn search_repeated(graph: &Graph, gate: NodeId) -> Option<u32>
    requires { IsLive (net_of graph.now) gate.0 }
    ensures { IsFirst (is_repeated (drivers_of (net_of graph.now) gate.0)) (length (drivers_of (net_of graph.now) gate.0)) result }
{
    let mut position = 0u32;
    for driver in graph.inputs_of(gate) {
        if reads_before(graph, gate, driver, position) {
            return Some(position);
        }
        position += 1;
    }
    None
}

// Whether the node is a Not below the gate.
fn is_lower_not(graph: &Graph, node: NodeId, gate: NodeId) -> bool
    ensures lower { result ≡ true → (node.0 < gate.0) × (is_not (net_of graph.now) node.0 ≡ true) }
    ensures other { result ≡ false → node.0 < gate.0 → is_not (net_of graph.now) node.0 ≡ false }
{
    if node.0 >= gate.0 {
        return false;
    }
    is_not(graph, node)
}

// The least Not below the gate that has its driver: any of them, as no rule applies below the gate.
fn least_twin(graph: &Graph, gate: NodeId, driver: NodeId) -> Option<u32>
    requires driver { Some driver.0 ≡ driver_at (net_of graph.now) gate.0 0 }
    requires quiet { IsQuietBelow (net_of graph.now) gate.0 }
    ensures { IsFirst (is_twin (net_of graph.now) gate.0) gate.0 result }
{
    graph.well_formed();
    graph.readers_listed();
    for reader in graph.readers_of(driver) {
        if is_lower_not(graph, reader, gate) {
            return Some(reader.0);
        }
    }
    None
}

// The rule at a Not in use that reads no constant.
fn rule_of_not(graph: &Graph, gate: NodeId) -> Option<Step>
    requires kind { is_not (net_of graph.now) gate.0 ≡ true }
    requires used { is_in_use (net_of graph.now) gate.0 ≡ true }
    requires none { IsFirst (reads_constant (net_of graph.now) gate.0) (length (drivers_of (net_of graph.now) gate.0)) None }
    requires quiet { IsQuietBelow (net_of graph.now) gate.0 }
    ensures { result ≡ rule_at (net_of graph.now) gate.0 }
{
    graph.well_formed();
    let Some(driver) = graph.driver(gate, 0) else {
        return None;
    };
    if is_not(graph, driver) {
        return Some(Step::Twice { gate });
    }
    match least_twin(graph, gate, driver) {
        Some(other) => Some(Step::Twin {
            gate,
            other: NodeId(other),
        }),
        None => None,
    }
}

// The rule at an And, an Or or an Xor in use that reads no constant and no driver twice. An Xor has two pins.
fn rule_of_several(graph: &Graph, gate: NodeId) -> Option<Step>
    requires kind { reads_several (net_of graph.now) gate.0 ≡ true }
    requires used { is_in_use (net_of graph.now) gate.0 ≡ true }
    requires none { IsFirst (reads_constant (net_of graph.now) gate.0) (length (drivers_of (net_of graph.now) gate.0)) None }
    requires apart { IsFirst (is_repeated (drivers_of (net_of graph.now) gate.0)) (length (drivers_of (net_of graph.now) gate.0)) None }
    ensures { result ≡ rule_at (net_of graph.now) gate.0 }
{
    graph.well_formed();
    let Some(_) = graph.driver(gate, 0) else {
        return Some(Step::NoPins { gate });
    };
    match graph.driver(gate, 1) {
        Some(_) => None,
        None => Some(Step::OnePin { gate }),
    }
}

// The rule that comes first at a gate that isn't in use, or whose first pin that reads a constant is this.
fn early_rule(graph: &Graph, gate: NodeId, constant: Option<u32>) -> Option<Step>
    requires kind { is_gate (net_of graph.now) gate.0 ≡ true }
    requires constant { IsFirst (reads_constant (net_of graph.now) gate.0) (length (drivers_of (net_of graph.now) gate.0)) constant }
    ensures some { IfSome result (λ step. Some step ≡ rule_at (net_of graph.now) gate.0) }
    ensures none { result ≡ None → (is_in_use (net_of graph.now) gate.0 ≡ true) × (constant ≡ None) }
{
    if !is_in_use(graph, gate) {
        return Some(Step::Dead { gate });
    }
    match constant {
        Some(position) => Some(Step::Const { gate, position }),
        None => None,
    }
}

// The rule that comes first at a gate in use that reads no constant, if the first repeated pin is this.
fn late_rule(graph: &Graph, gate: NodeId, repeated: Option<u32>) -> Option<Step>
    requires kind { is_gate (net_of graph.now) gate.0 ≡ true }
    requires used { is_in_use (net_of graph.now) gate.0 ≡ true }
    requires none { IsFirst (reads_constant (net_of graph.now) gate.0) (length (drivers_of (net_of graph.now) gate.0)) None }
    requires repeated { IsFirst (is_repeated (drivers_of (net_of graph.now) gate.0)) (length (drivers_of (net_of graph.now) gate.0)) repeated }
    requires quiet { IsQuietBelow (net_of graph.now) gate.0 }
    ensures { result ≡ rule_at (net_of graph.now) gate.0 }
{
    if is_not(graph, gate) {
        return rule_of_not(graph, gate);
    }
    match repeated {
        Some(position) => Some(Step::Same { gate, position }),
        None => rule_of_several(graph, gate),
    }
}

// The rule that comes first at a number below which no rule applies, by marks for drivers.
pub(crate) fn rule_at(graph: &Graph, gate: NodeId, seen: &mut Seen) -> Option<Step>
    requires seen { length (net_of graph.now).nodes ≤ seen.old }
    requires quiet { IsQuietBelow (net_of graph.now) gate.0 }
    ensures rule { result ≡ rule_at (net_of graph.now) gate.0 }
    ensures seen { seen.new ≡ seen.old }
{
    if !is_gate(graph, gate) {
        return None;
    }
    let constant = constant_from(graph, gate, 0);
    if let Some(step) = early_rule(graph, gate, constant) {
        return Some(step);
    }
    let repeated = first_repeated(graph, gate, seen);
    late_rule(graph, gate, repeated)
}

// The same at the gate of which pins are known, in the time of the others.
pub(crate) fn rule_again(graph: &Graph, kept: &mut Kept) -> Option<Step>
    requires marks { length (net_of graph.now).nodes ≤ length kept.old.marks.items }
    requires kept { IsKept (net_of graph.now) kept.old }
    requires quiet { IsQuietBelow (net_of graph.now) kept.old.gate.0 }
    ensures rule { result ≡ rule_at (net_of graph.now) kept.old.gate.0 }
    ensures kept { IsKept (net_of graph.now) kept.new }
    ensures same { length kept.new.marks.items ≡ length kept.old.marks.items }
{
    let gate = kept.gate;
    if !is_gate(graph, gate) {
        return None;
    }
    let constant = kept.first_constant(graph);
    if let Some(step) = early_rule(graph, gate, constant) {
        return Some(step);
    }
    let repeated = kept.first_repeated(graph);
    late_rule(graph, gate, repeated)
}

// The rule that comes first at a number below which no rule applies, without marks.
fn search_rule(graph: &Graph, gate: NodeId) -> Option<Step>
    requires quiet { IsQuietBelow (net_of graph.now) gate.0 }
    ensures { result ≡ rule_at (net_of graph.now) gate.0 }
{
    if !is_gate(graph, gate) {
        return None;
    }
    let constant = constant_from(graph, gate, 0);
    if let Some(step) = early_rule(graph, gate, constant) {
        return Some(step);
    }
    let repeated = search_repeated(graph, gate);
    late_rule(graph, gate, repeated)
}

/// The next step of the tidying order, or None where the net is tidy.
///
/// It looks from gate 0 on, and at a gate in the time of the square of its pins. `first_rule_by` looks at a
/// gate in the time of its pins, and a trial's `tidy_one` at few gates.
pub fn first_rule(graph: &Graph) -> Option<Step>
    ensures { result ≡ next_step (net_of graph.now) }
{
    for number in 0..graph.node_bound() {
        if let Some(step) = search_rule(graph, NodeId(number)) {
            return Some(step);
        }
    }
    None
}

/// The next step of the tidying order, or None where the net is tidy, by marks for drivers.
pub fn first_rule_by(graph: &Graph, seen: &mut Seen) -> Option<Step>
    requires { length (net_of graph.now).nodes ≤ seen.old }
    ensures first { result ≡ next_step (net_of graph.now) }
    ensures seen { seen.new ≡ seen.old }
{
    for number in 0..graph.node_bound() {
        if let Some(step) = rule_at(graph, NodeId(number), seen) {
            return Some(step);
        }
    }
    None
}
