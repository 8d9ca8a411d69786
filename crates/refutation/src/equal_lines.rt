//! Lines on nodes that are equal or differ.
ghost use Rattle.std.specs.Prelude.{◌≡◌, ◌<◌, ◌≤◌, IfSome, length, slice_get};
ghost use Rattle.std.specs.Option.{option_map};
ghost use Rattle.gate_graph.specs.Circuit.{net_of};
ghost use Rattle.gate_net.specs.Net.{drivers_of};
ghost use Rattle.refutation.specs.FactSets.{held_by};
ghost use Rattle.refutation.specs.Answers.{IsAnswer};

use crate::following::{gate_pins, pin_driver};
use crate::held::FactSet;
use crate::pin_scans::{all_equal, one_differs, others_equal};
use crate::pins::{Aspect, inversion, is_stuck, known_of};
use crate::reasoning::{Fact, Line};
use gate_graph::Question;
use gate_net::Kind;
use rm_base::NodeId;

/// A gate other than the faulty one is equal where all its drivers are.
pub fn line_equal_forward(
    question: &Question<'_>,
    facts: &FactSet,
    node: NodeId,
) -> Option<(NodeId, Fact)>
    requires { length (net_of question.now.graph.now).nodes ≤ length facts.now }
    ensures { IsAnswer (net_of question.now.graph.now) question.now.fault (held_by facts.now) (Line.EqualForward node) result }
{
    let kind = question.graph.kind(node)?;
    if !kind.is_gate() {
        return None;
    }
    let is_faulty = node.0 == question.fault.gate.0;
    if is_faulty {
        return None;
    }
    if !all_equal(gate_pins(question.graph, node), facts) {
        return None;
    }
    Some((node, Fact::Equal))
}

/// A Not or an Xor other than the faulty gate differs where one driver does and all others are equal.
pub fn line_not_differs(
    question: &Question<'_>,
    facts: &FactSet,
    node: NodeId,
) -> Option<(NodeId, Fact)>
    requires { length (net_of question.now.graph.now).nodes ≤ length facts.now }
    ensures { IsAnswer (net_of question.now.graph.now) question.now.fault (held_by facts.now) (Line.NotDiffers node) result }
{
    let kind = question.graph.kind(node)?;
    let _inverts = inversion(kind)?;
    if node.0 == question.fault.gate.0 {
        return None;
    }
    if !one_differs(gate_pins(question.graph, node), facts) {
        return None;
    }
    Some((node, Fact::Differs))
}

/// The driver of a Not other than the faulty gate is equal where the Not is.
pub fn line_not_equal(
    question: &Question<'_>,
    facts: &FactSet,
    node: NodeId,
) -> Option<(NodeId, Fact)>
    requires { length (net_of question.now.graph.now).nodes ≤ length facts.now }
    ensures { IsAnswer (net_of question.now.graph.now) question.now.fault (held_by facts.now) (Line.NotEqual node) result }
{
    let kind = question.graph.kind(node)?;
    if kind != Kind::Not {
        return None;
    }
    if node.0 == question.fault.gate.0 {
        return None;
    }
    let equal = known_of(facts, Aspect::OfEqual, node)?;
    if !equal {
        return None;
    }
    question.graph.well_formed();
    let driver = pin_driver(question.graph, node, 0)?;
    Some((driver, Fact::Equal))
}

/// A pin's driver differs where the gate does and the drivers of all other pins are equal.
pub fn line_differs_back(
    question: &Question<'_>,
    facts: &FactSet,
    node: NodeId,
    position: u32,
) -> Option<(NodeId, Fact)>
    requires { length (net_of question.now.graph.now).nodes ≤ length facts.now }
    ensures { IsAnswer (net_of question.now.graph.now) question.now.fault (held_by facts.now) (Line.DiffersBack node position) result }
{
    let driver = pin_driver(question.graph, node, position);
    line_differs_back_from(question, facts, node, position, driver)
}

/// The same of a pin whose driver is known.
pub(crate) fn line_differs_back_from(
    question: &Question<'_>,
    facts: &FactSet,
    node: NodeId,
    position: u32,
    driver: Option<NodeId>,
) -> Option<(NodeId, Fact)>
    requires facts { length (net_of question.now.graph.now).nodes ≤ length facts.now }
    requires driver { option_map (λ n. n.0) driver ≡ slice_get (drivers_of (net_of question.now.graph.now) node.0) position }
    ensures { IsAnswer (net_of question.now.graph.now) question.now.fault (held_by facts.now) (Line.DiffersBack node position) result }
{
    let kind = question.graph.kind(node)?;
    if !kind.is_gate() {
        return None;
    }
    if node.0 == question.fault.gate.0 {
        return None;
    }
    let equal = known_of(facts, Aspect::OfEqual, node)?;
    if equal {
        return None;
    }
    let driver = driver?;
    if !others_equal(gate_pins(question.graph, node), facts, position as usize) {
        return None;
    }
    Some((driver, Fact::Differs))
}

/// An equal driver of an And or Or that differs has the noncontrolling value.
pub fn line_side(
    question: &Question<'_>,
    facts: &FactSet,
    node: NodeId,
    position: u32,
) -> Option<(NodeId, Fact)>
    requires { length (net_of question.now.graph.now).nodes ≤ length facts.now }
    ensures { IsAnswer (net_of question.now.graph.now) question.now.fault (held_by facts.now) (Line.Side node position) result }
{
    let driver = pin_driver(question.graph, node, position);
    line_side_from(question, facts, node, position, driver)
}

/// The same of a pin whose driver is known.
pub(crate) fn line_side_from(
    question: &Question<'_>,
    facts: &FactSet,
    node: NodeId,
    position: u32,
    driver: Option<NodeId>,
) -> Option<(NodeId, Fact)>
    requires facts { length (net_of question.now.graph.now).nodes ≤ length facts.now }
    requires driver { option_map (λ n. n.0) driver ≡ slice_get (drivers_of (net_of question.now.graph.now) node.0) position }
    requires within { IfSome driver (λ d. d.0 < length (net_of question.now.graph.now).nodes) }
    ensures { IsAnswer (net_of question.now.graph.now) question.now.fault (held_by facts.now) (Line.Side node position) result }
{
    let kind = question.graph.kind(node)?;
    let value = kind.controlling_value()?;
    let equal = known_of(facts, Aspect::OfEqual, node)?;
    if equal {
        return None;
    }
    if is_stuck(&question.fault, node, position) {
        return None;
    }
    let driver = driver?;
    let same = known_of(facts, Aspect::OfEqual, driver)?;
    if !same {
        return None;
    }
    Some((driver, Fact::Good(!value)))
}
