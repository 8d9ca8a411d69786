// The line on drivers of an And or an Or that differs.
ghost use Rattle.std.specs.Prelude.{◌≡◌, ◌<◌, ◌≤◌, ◌↔◌, Bool, IsTrue, false, length};
ghost use Rattle.gate_graph.specs.Circuit.{net_of};
ghost use Rattle.gate_net.specs.Net.{drivers_of};
ghost use Rattle.gate_net.specs.Values.{IsJunction};
ghost use Rattle.refutation.specs.Closing.{IsClashFree};
ghost use Rattle.refutation.specs.FactSets.{held_by};
ghost use Rattle.refutation.specs.Pins.{AreBelow};
ghost use Rattle.implications.specs.Inner.Pulls.{AreDoneSide, Finds};
ghost use Rattle.implications.specs.Inner.Sides.{IsOpenPin, IsOpenSide, IsSide};
ghost use Rattle.implications.specs.Inner.Settled.{IsReady};
ghost use Rattle.rm_base.specs.Numbers.{number_bound};

use crate::found::Found;
use gate_graph::{Inputs, Question};
use refutation::following::gate_pins;
use refutation::pins::{Aspect, is_stuck, is_value, known_of};
use refutation::{Fact, FactSet, Line};
use rm_base::{Fault, NodeId};

// Whether the driver is equal and isn't known to have the value.
pub(crate) fn is_open_side(facts: &FactSet, driver: NodeId, value: bool) -> bool
    requires { driver.0 < length facts.now }
    ensures { IsTrue result ↔ IsOpenSide (held_by facts.now) driver.0 value }
{
    if !is_value(known_of(facts, Aspect::OfEqual, driver), true) {
        return false;
    }
    !is_value(known_of(facts, Aspect::OfGood, driver), value)
}

// Whether the pin isn't the stuck one, and its driver is equal and isn't known to have the value.
fn is_open(
    fault: &Fault,
    facts: &FactSet,
    node: NodeId,
    position: u32,
    driver: NodeId,
    value: bool,
) -> bool
    requires { driver.0 < length facts.now }
    ensures { IsTrue result ↔ IsOpenPin fault.now (held_by facts.now) node.0 position driver.0 value }
{
    if is_stuck(fault, node, position) {
        return false;
    }
    is_open_side(facts, driver, value)
}

// The first pin but the stuck one whose driver is equal and isn't known to have the value.
fn open_side(
    drivers: Inputs<'_>,
    fault: &Fault,
    facts: &FactSet,
    node: NodeId,
    value: bool,
) -> Option<(u32, NodeId)>
    requires within { AreBelow drivers (length facts.now) }
    requires few { length drivers ≤ number_bound }
    ensures { IsSide drivers.entry fault.now (held_by facts.now) node.0 value result }
{
    let mut position = 0u32;
    for driver in drivers {
        if is_open(fault, facts, node, position, driver, value) {
            return Some((position, driver));
        }
        position += 1;
    }
    None
}

// The line on the equal drivers of an And or an Or that differs.
pub(crate) fn side_line(
    question: &Question<'_>,
    facts: &FactSet,
    node: NodeId,
    c: bool,
) -> Option<Found>
    requires ready { IsReady (net_of question.now.graph.now) question.now.fault facts.now }
    requires free { IsClashFree (held_by facts.now) }
    requires kind { IsJunction (net_of question.now.graph.now) node.0 c }
    ensures { Finds (net_of question.now.graph.now) question.now.fault facts.now (AreDoneSide (net_of question.now.graph.now) question.now.fault facts.now node) result }
{
    if !is_value(known_of(facts, Aspect::OfEqual, node), false) {
        return None;
    }
    let (position, driver) = open_side(
        gate_pins(question.graph, node),
        &question.fault,
        facts,
        node,
        !c,
    )?;
    Some(Found {
        line: Line::Side { node, position },
        node: driver,
        fact: Fact::Good(!c),
    })
}
