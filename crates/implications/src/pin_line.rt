// What follows at one pin of an And or an Or, whatever its other pins hold.
ghost use Rattle.std.specs.Prelude.{◌≡◌, ◌<◌, ◌↔◌, IfSome, IsTrue, None, Some, length};
ghost use Rattle.gate_graph.specs.Circuit.{net_of};
ghost use Rattle.gate_net.specs.Net.{Reads, drivers_of};
ghost use Rattle.gate_net.specs.Values.{IsJunction};
ghost use Rattle.refutation.specs.Closing.{IsClashFree};
ghost use Rattle.refutation.specs.FactSets.{held_by};
ghost use Rattle.refutation.specs.Pins.{known_on};
ghost use Rattle.implications.specs.Inner.Settled.{IsFresh, IsReady};
ghost use Rattle.implications.specs.Inner.Tallies.{IsTally};

use crate::counts::count_for;
use crate::done_lines::{faulty_count, sides_are_done};
use crate::found::Found;
use crate::side_line::is_open_side;
use crate::tallies::Tally;
use gate_graph::Question;
use refutation::pins::{Aspect, is_stuck, is_value, known_of};
use refutation::{Fact, FactSet, Line};
use rm_base::NodeId;

// Whether the gate is known to have the value, and nothing is known of the driver.
fn is_awaited(facts: &FactSet, aspect: Aspect, node: NodeId, driver: NodeId, value: bool) -> bool
    requires node { node.0 < length facts.now }
    requires driver { driver.0 < length facts.now }
    ensures { IsTrue result ↔ ((known_on aspect (held_by facts.now) node.0 ≡ Some value) × (known_on aspect (held_by facts.now) driver.0 ≡ None)) }
{
    if !is_value(known_of(facts, aspect, node), value) {
        return false;
    }
    known_of(facts, aspect, driver).is_none()
}

/// What follows at the pin from what is known of the gate alone, where it isn't held: the opposite of the controlling
/// value where the gate has it, or where the gate differs and the driver is equal.
pub(crate) fn pin_line(
    question: &Question<'_>,
    facts: &FactSet,
    node: NodeId,
    position: u32,
    driver: NodeId,
    c: bool,
) -> Option<Found>
    requires ready { IsReady (net_of question.now.graph.now) question.now.fault facts.now }
    requires free { IsClashFree (held_by facts.now) }
    requires kind { IsJunction (net_of question.now.graph.now) node.0 c }
    requires reads { Reads (net_of question.now.graph.now) node.0 position driver.0 }
    ensures { IfSome result (IsFresh (net_of question.now.graph.now) question.now.fault facts.now) }
{
    let value = !c;
    if is_awaited(facts, Aspect::OfGood, node, driver, value) {
        return Some(Found {
            line: Line::GoodBack { node, position },
            node: driver,
            fact: Fact::Good(value),
        });
    }
    if is_stuck(&question.fault, node, position) {
        return None;
    }
    if is_awaited(facts, Aspect::OfFaulty, node, driver, value) {
        return Some(Found {
            line: Line::FaultyBack { node, position },
            node: driver,
            fact: Fact::Faulty(value),
        });
    }
    if !is_value(known_of(facts, Aspect::OfEqual, node), false) {
        return None;
    }
    if !is_open_side(facts, driver, value) {
        return None;
    }
    Some(Found {
        line: Line::Side { node, position },
        node: driver,
        fact: Fact::Good(value),
    })
}

/// Whether so much is known of the gate that a look at each pin alone may give something, whatever is known of the pins: it
/// has the opposite of the controlling value, or differs.
pub(crate) fn may_sweep(facts: &FactSet, node: NodeId, c: bool) -> bool
    requires { node.0 < length facts.now }
{
    if is_value(known_of(facts, Aspect::OfGood, node), !c) {
        return true;
    }
    if is_value(known_of(facts, Aspect::OfFaulty, node), !c) {
        return true;
    }
    is_value(known_of(facts, Aspect::OfEqual, node), false)
}

/// Whether a look at each pin alone may give something: the gate is known to have the opposite of the controlling value
/// and not all pins are, or it differs and its equal drivers aren't all known to have that opposite.
pub(crate) fn has_sweep(
    question: &Question<'_>,
    facts: &FactSet,
    tally: &Tally,
    node: NodeId,
    c: bool,
) -> bool
    requires ready { IsReady (net_of question.now.graph.now) question.now.fault facts.now }
    requires free { IsClashFree (held_by facts.now) }
    requires kind { IsJunction (net_of question.now.graph.now) node.0 c }
    requires tally { IsTally (held_by facts.now) question.now.fault.position (drivers_of (net_of question.now.graph.now) node.0) tally.now }
{
    if is_value(known_of(facts, Aspect::OfGood, node), !c) {
        let count = count_for(c, tally.good_0, tally.good_1, tally.pins);
        if count.passing < count.pins {
            return true;
        }
    }
    if is_value(known_of(facts, Aspect::OfFaulty, node), !c) {
        let count = faulty_count(question, facts, tally, node, c);
        if count.passing < count.pins {
            return true;
        }
    }
    !sides_are_done(question, facts, tally, node, c)
}
