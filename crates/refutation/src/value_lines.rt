//! Lines on good and faulty values.
ghost use Rattle.std.specs.Prelude.{◌≡◌, ◌≤◌, length, slice_get};
ghost use Rattle.std.specs.Option.{option_map};
ghost use Rattle.gate_graph.specs.Circuit.{net_of};
ghost use Rattle.gate_net.specs.Net.{drivers_of};
ghost use Rattle.refutation.specs.FactSets.{held_by};
ghost use Rattle.refutation.specs.Answers.{IsAnswer};

use crate::following::{backward_from, backward_line, both_known, forward_line};
use crate::held::FactSet;
use crate::pins::{Aspect, is_stuck, stuck_at};
use crate::reasoning::{Fact, Line};
use gate_graph::Question;
use rm_base::NodeId;

/// The good value of a gate that follows from those of its drivers.
pub fn line_good_forward(
    question: &Question<'_>,
    facts: &FactSet,
    node: NodeId,
) -> Option<(NodeId, Fact)>
    requires { length (net_of question.now.graph.now).nodes ≤ length facts.now }
    ensures { IsAnswer (net_of question.now.graph.now) question.now.fault (held_by facts.now) (Line.GoodForward node) result }
{
    let value = forward_line(question.graph, None, facts, Aspect::OfGood, node)?;
    Some((node, Fact::Good(value)))
}

/// The faulty value of a gate that follows from those of its drivers, its stuck pin reading what it is stuck at.
pub fn line_faulty_forward(
    question: &Question<'_>,
    facts: &FactSet,
    node: NodeId,
) -> Option<(NodeId, Fact)>
    requires { length (net_of question.now.graph.now).nodes ≤ length facts.now }
    ensures { IsAnswer (net_of question.now.graph.now) question.now.fault (held_by facts.now) (Line.FaultyForward node) result }
{
    let value = forward_line(
        question.graph,
        stuck_at(&question.fault, node),
        facts,
        Aspect::OfFaulty,
        node,
    )?;
    Some((node, Fact::Faulty(value)))
}

/// The good value of a pin's driver that follows from those of the gate and its other pins.
pub fn line_good_back(
    question: &Question<'_>,
    facts: &FactSet,
    node: NodeId,
    position: u32,
) -> Option<(NodeId, Fact)>
    requires { length (net_of question.now.graph.now).nodes ≤ length facts.now }
    ensures { IsAnswer (net_of question.now.graph.now) question.now.fault (held_by facts.now) (Line.GoodBack node position) result }
{
    let (driver, value) = backward_line(
        question.graph,
        None,
        facts,
        Aspect::OfGood,
        node,
        position,
    )?;
    Some((driver, Fact::Good(value)))
}

/// The faulty value of a pin's driver that follows from those of the gate and its other pins; the stuck pin's driver has none.
pub fn line_faulty_back(
    question: &Question<'_>,
    facts: &FactSet,
    node: NodeId,
    position: u32,
) -> Option<(NodeId, Fact)>
    requires { length (net_of question.now.graph.now).nodes ≤ length facts.now }
    ensures { IsAnswer (net_of question.now.graph.now) question.now.fault (held_by facts.now) (Line.FaultyBack node position) result }
{
    if is_stuck(&question.fault, node, position) {
        return None;
    }
    let stuck = stuck_at(&question.fault, node);
    let (driver, value) = backward_line(
        question.graph,
        stuck,
        facts,
        Aspect::OfFaulty,
        node,
        position,
    )?;
    Some((driver, Fact::Faulty(value)))
}

/// The same as `line_good_back`, of a pin whose driver is known.
pub(crate) fn line_good_back_from(
    question: &Question<'_>,
    facts: &FactSet,
    node: NodeId,
    position: u32,
    driver: Option<NodeId>,
) -> Option<(NodeId, Fact)>
    requires facts { length (net_of question.now.graph.now).nodes ≤ length facts.now }
    requires driver { option_map (λ n. n.0) driver ≡ slice_get (drivers_of (net_of question.now.graph.now) node.0) position }
    ensures { IsAnswer (net_of question.now.graph.now) question.now.fault (held_by facts.now) (Line.GoodBack node position) result }
{
    let (driver, value) = backward_from(
        question.graph,
        None,
        facts,
        Aspect::OfGood,
        node,
        position,
        driver,
    )?;
    Some((driver, Fact::Good(value)))
}

/// The same as `line_faulty_back`, of a pin whose driver is known.
pub(crate) fn line_faulty_back_from(
    question: &Question<'_>,
    facts: &FactSet,
    node: NodeId,
    position: u32,
    driver: Option<NodeId>,
) -> Option<(NodeId, Fact)>
    requires facts { length (net_of question.now.graph.now).nodes ≤ length facts.now }
    requires driver { option_map (λ n. n.0) driver ≡ slice_get (drivers_of (net_of question.now.graph.now) node.0) position }
    ensures { IsAnswer (net_of question.now.graph.now) question.now.fault (held_by facts.now) (Line.FaultyBack node position) result }
{
    if is_stuck(&question.fault, node, position) {
        return None;
    }
    let stuck = stuck_at(&question.fault, node);
    let (driver, value) = backward_from(
        question.graph,
        stuck,
        facts,
        Aspect::OfFaulty,
        node,
        position,
        driver,
    )?;
    Some((driver, Fact::Faulty(value)))
}

/// Whether a node whose two values are known is equal or differs.
pub fn line_compare(
    question: &Question<'_>,
    facts: &FactSet,
    node: NodeId,
) -> Option<(NodeId, Fact)>
    requires { length (net_of question.now.graph.now).nodes ≤ length facts.now }
    ensures { IsAnswer (net_of question.now.graph.now) question.now.fault (held_by facts.now) (Line.Compare node) result }
{
    let (good, faulty) = both_known(
        question.graph,
        facts,
        Aspect::OfGood,
        Aspect::OfFaulty,
        node,
    )?;
    if good == faulty {
        Some((node, Fact::Equal))
    } else {
        Some((node, Fact::Differs))
    }
}

/// The faulty value of a node from its good one.
pub fn line_to_faulty(
    question: &Question<'_>,
    facts: &FactSet,
    node: NodeId,
) -> Option<(NodeId, Fact)>
    requires { length (net_of question.now.graph.now).nodes ≤ length facts.now }
    ensures { IsAnswer (net_of question.now.graph.now) question.now.fault (held_by facts.now) (Line.ToFaulty node) result }
{
    let (value, equal) = both_known(question.graph, facts, Aspect::OfGood, Aspect::OfEqual, node)?;
    Some((node, Fact::Faulty(equal == value)))
}

/// The good value of a node from its faulty one.
pub fn line_to_good(
    question: &Question<'_>,
    facts: &FactSet,
    node: NodeId,
) -> Option<(NodeId, Fact)>
    requires { length (net_of question.now.graph.now).nodes ≤ length facts.now }
    ensures { IsAnswer (net_of question.now.graph.now) question.now.fault (held_by facts.now) (Line.ToGood node) result }
{
    let (value, equal) = both_known(
        question.graph,
        facts,
        Aspect::OfFaulty,
        Aspect::OfEqual,
        node,
    )?;
    Some((node, Fact::Good(equal == value)))
}
