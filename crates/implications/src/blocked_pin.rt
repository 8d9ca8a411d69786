// A pin that keeps a difference back at an And or an Or: taken first, it shows at once that the fault clashes.
ghost use Rattle.std.specs.Prelude.{◌≡◌, ◌<◌, ◌≤◌, IfSome, Some, length, slice_get};
ghost use Rattle.gate_graph.specs.Circuit.{net_of};
ghost use Rattle.gate_net.specs.Net.{Reads};
ghost use Rattle.gate_net.specs.Values.{IsJunction};
ghost use Rattle.implications.specs.Inner.Settled.{IsReady};
ghost use Rattle.refutation.specs.Pins.{AreBelow};
ghost use Rattle.rm_base.specs.Numbers.{number_bound};

use crate::tallies::Tally;
use gate_graph::{Inputs, Question};
use refutation::FactSet;
use refutation::following::gate_pins;
use refutation::pins::{Aspect, is_stuck, is_value, known_of};
use rm_base::{Fault, NodeId};

// Whether the driver is equal and has the value.
fn is_blocking(facts: &FactSet, driver: NodeId, value: bool) -> bool
    requires { driver.0 < length facts.now }
{
    if !is_value(known_of(facts, Aspect::OfEqual, driver), true) {
        return false;
    }
    is_value(known_of(facts, Aspect::OfGood, driver), value)
}

// The first pin but the stuck one whose driver is equal and has the value.
fn first_blocking(
    drivers: Inputs<'_>,
    fault: &Fault,
    facts: &FactSet,
    node: NodeId,
    value: bool,
) -> Option<(u32, NodeId)>
    requires within { AreBelow drivers (length facts.now) }
    requires few { length drivers ≤ number_bound }
    ensures { IfSome result (λ p. slice_get drivers.entry p.0 ≡ Some p.1.0) }
{
    let mut position = 0u32;
    for driver in drivers {
        if !is_stuck(fault, node, position) && is_blocking(facts, driver, value) {
            return Some((position, driver));
        }
        position += 1;
    }
    None
}

/// The first pin but the stuck one whose driver is equal and has the controlling value, where the gate differs: at such
/// a pin a line gives the opposite value.
pub(crate) fn blocked_pin(
    question: &Question<'_>,
    facts: &FactSet,
    tally: &Tally,
    node: NodeId,
    c: bool,
) -> Option<(u32, NodeId)>
    requires ready { IsReady (net_of question.now.graph.now) question.now.fault facts.now }
    requires kind { IsJunction (net_of question.now.graph.now) node.0 c }
    ensures { IfSome result (λ p. Reads (net_of question.now.graph.now) node.0 p.0 p.1.0) }
{
    if !is_value(known_of(facts, Aspect::OfEqual, node), false) {
        return None;
    }
    let passing = if c { tally.passing_1 } else { tally.passing_0 };
    if passing == 0 {
        return None;
    }
    first_blocking(
        gate_pins(question.graph, node),
        &question.fault,
        facts,
        node,
        c,
    )
}
