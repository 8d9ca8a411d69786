// Lines at a gate, by scans of its pins.
ghost use Rattle.std.specs.Prelude.{◌≡◌, ◌<◌, ◌≤◌, Option, None, length, false, true};
ghost use Rattle.gate_graph.specs.Circuit.{net_of};
ghost use Rattle.gate_net.specs.Net.{IsGate, IsLive, drivers_of};
ghost use Rattle.gate_net.specs.Values.{IsJunction};
ghost use Rattle.refutation.specs.Closing.{IsClashFree};
ghost use Rattle.refutation.specs.FactSets.{held_by};
ghost use Rattle.refutation.specs.Pins.{known_on, pins_of};
ghost use Rattle.refutation.specs.declared.pins.Aspect.TheVariants.{OfEqual};
ghost use Rattle.implications.specs.Inner.Pulls.{AreDoneEqual, AreDoneFaulty, AreDoneGood, Finds, IsEqualPull, IsPlaced, IsPull, IsPulled, SomePin};
ghost use Rattle.implications.specs.Inner.Settled.{IsReady};

use crate::found::Found;
use crate::pulls::{Pull, equal_pull, junction_pull};
use gate_graph::{Graph, Question};
use refutation::following::gate_pins;
use refutation::pin_scans::look_at_facts;
use refutation::pins::{Aspect, Stuck, known_of, stuck_at};
use refutation::{Fact, FactSet, Line};
use rm_base::NodeId;

/// What follows at a gate: something of the gate itself, or of the driver of the pin at a position.
#[derive(Clone, Copy, Debug)]
pub enum Pulled {
    Gate(bool),
    Pin(u32, NodeId, bool),
}

// Finds the driver of the pin.
fn find_driver(graph: &Graph, node: NodeId, pull: Pull) -> Pulled
    requires { SomePin (drivers_of (net_of graph.now) node.0) pull }
    ensures { IsPlaced (net_of graph.now) node.0 pull result }
{
    match pull {
        Pull::Gate(value) => Pulled::Gate(value),
        Pull::Pin(at, value) => {
            let position = at as u32;
            match graph.driver(node, position) {
                Some(driver) => Pulled::Pin(position, driver, value),
                None => unreachable!(),
            }
        }
    }
}

// A value that follows at an And or an Or from its own and those of its pins, and that isn't known.
fn pull_value(
    graph: &Graph,
    stuck: Option<Stuck>,
    facts: &FactSet,
    aspect: Aspect,
    node: NodeId,
    c: bool,
) -> Option<Pulled>
    requires node { IsLive (net_of graph.now) node.0 }
    requires size { length (net_of graph.now).nodes ≤ length facts.now }
    ensures { IsPulled (net_of graph.now) node.0 (IsPull c (pins_of stuck aspect (held_by facts.now) (drivers_of (net_of graph.now) node.0)) (known_on aspect (held_by facts.now) node.0)) result }
{
    let scan = look_at_facts(gate_pins(graph, node), stuck, facts, aspect, c);
    let pull = junction_pull(scan, c, known_of(facts, aspect, node))?;
    Some(find_driver(graph, node, pull))
}

// That a gate is equal, or that a driver of it differs, which isn't known.
fn pull_equal(graph: &Graph, facts: &FactSet, node: NodeId) -> Option<Pulled>
    requires node { IsLive (net_of graph.now) node.0 }
    requires size { length (net_of graph.now).nodes ≤ length facts.now }
    ensures { IsPulled (net_of graph.now) node.0 (IsEqualPull (pins_of None OfEqual (held_by facts.now) (drivers_of (net_of graph.now) node.0)) (known_on OfEqual (held_by facts.now) node.0)) result }
{
    let scan = look_at_facts(gate_pins(graph, node), None, facts, Aspect::OfEqual, false);
    let pull = equal_pull(scan, known_of(facts, Aspect::OfEqual, node))?;
    Some(find_driver(graph, node, pull))
}

// The lines on good values at an And or an Or with that controlling value.
pub(crate) fn good_line(
    question: &Question<'_>,
    facts: &FactSet,
    node: NodeId,
    c: bool,
) -> Option<Found>
    requires ready { IsReady (net_of question.now.graph.now) question.now.fault facts.now }
    requires free { IsClashFree (held_by facts.now) }
    requires kind { IsJunction (net_of question.now.graph.now) node.0 c }
    ensures { Finds (net_of question.now.graph.now) question.now.fault facts.now (AreDoneGood (net_of question.now.graph.now) question.now.fault facts.now node) result }
{
    match pull_value(question.graph, None, facts, Aspect::OfGood, node, c)? {
        Pulled::Gate(value) => Some(Found {
            line: Line::GoodForward { node },
            node,
            fact: Fact::Good(value),
        }),
        Pulled::Pin(position, driver, value) => Some(Found {
            line: Line::GoodBack { node, position },
            node: driver,
            fact: Fact::Good(value),
        }),
    }
}

// The lines on faulty values at an And or an Or with that controlling value.
pub(crate) fn faulty_line(
    question: &Question<'_>,
    facts: &FactSet,
    node: NodeId,
    c: bool,
) -> Option<Found>
    requires ready { IsReady (net_of question.now.graph.now) question.now.fault facts.now }
    requires free { IsClashFree (held_by facts.now) }
    requires kind { IsJunction (net_of question.now.graph.now) node.0 c }
    ensures { Finds (net_of question.now.graph.now) question.now.fault facts.now (AreDoneFaulty (net_of question.now.graph.now) question.now.fault facts.now node) result }
{
    match pull_value(
        question.graph,
        stuck_at(&question.fault, node),
        facts,
        Aspect::OfFaulty,
        node,
        c,
    )? {
        Pulled::Gate(value) => Some(Found {
            line: Line::FaultyForward { node },
            node,
            fact: Fact::Faulty(value),
        }),
        Pulled::Pin(position, driver, value) => Some(Found {
            line: Line::FaultyBack { node, position },
            node: driver,
            fact: Fact::Faulty(value),
        }),
    }
}

// The lines by which a gate is equal, or a driver of it differs.
pub(crate) fn equal_line(question: &Question<'_>, facts: &FactSet, node: NodeId) -> Option<Found>
    requires ready { IsReady (net_of question.now.graph.now) question.now.fault facts.now }
    requires free { IsClashFree (held_by facts.now) }
    requires kind { IsGate (net_of question.now.graph.now) node.0 }
    ensures { Finds (net_of question.now.graph.now) question.now.fault facts.now (AreDoneEqual (net_of question.now.graph.now) question.now.fault facts.now node) result }
{
    if node.0 == question.fault.gate.0 {
        return None;
    }
    match pull_equal(question.graph, facts, node)? {
        Pulled::Gate(_) => Some(Found {
            line: Line::EqualForward { node },
            node,
            fact: Fact::Equal,
        }),
        Pulled::Pin(position, driver, _) => Some(Found {
            line: Line::DiffersBack { node, position },
            node: driver,
            fact: Fact::Differs,
        }),
    }
}
