// Following a fault in one vector to a gate with several readers.
ghost use Rattle.std.specs.Prelude.{◌≡◌, ◌<◌, ◌≤◌, IsTrue, IfSome, if◌then◌else◌, length, map, nat_eq, slice_index, slice_set};
ghost use Rattle.rm_base.specs.Numbers.{number_bound};
ghost use Rattle.gate_graph.specs.Circuit.{net_of};
ghost use Rattle.gate_net.specs.Meaning.{junction, parity};
ghost use Rattle.gate_net.specs.Net.{IsLive};
ghost use Rattle.gate_net.specs.Values.{HasPin};
ghost use Rattle.fault_sim.specs.LaneStates.{IsSimulated};
ghost use Rattle.fault_sim.specs.Words.{assignment, lane as lane_in, lane_values};
ghost use Rattle.journal_check.specs.Inner.Tracing.{AreShown, IsOnlyPin, PassageSays, FollowedSays, stuck_value};

use fault_sim::Lanes;
use gate_graph::{Graph, Inputs};
use gate_net::Family;
use rm_base::{Fault, NodeId};

/// What becomes of a fault at its gate: whether it is detected, or it goes no further alone, or it is that of a later pin.
#[derive(Clone, Copy)]
pub(crate) enum Passage {
    Told(bool),
    Stem,
    Passed(Fault),
}

/// Where a fault was followed to: it is known whether it is detected, or it is left to find out of this one.
#[derive(Clone, Copy)]
pub(crate) enum Followed {
    Known(bool),
    Left(Fault),
}

// The value that a node has in a lane.
fn value_in(lanes: &Lanes, node: NodeId, lane: u32) -> bool
    requires { lane < 64 }
    ensures { result ≡ lane_values lanes.now.good lane node.0 }
{
    (lanes.value(node) >> lane) & 1 == 1
}

// What is read at a pin of the fault's gate, which may be the stuck one.
fn read_at(lanes: &Lanes, fault: Fault, place: usize, driver: NodeId, lane: u32) -> bool
    requires { lane < 64 }
    ensures { result ≡ (if nat_eq place fault.position then fault.value else lane_values lanes.now.good lane driver.0) }
{
    if place == fault.position as usize {
        return fault.value;
    }
    value_in(lanes, driver, lane)
}

// The value of an And or an Or with the stuck pin, by the value that controls it.
fn stuck_junction(
    drivers: Inputs<'_>,
    lanes: &Lanes,
    fault: Fault,
    lane: u32,
    controlling: bool,
) -> bool
    requires lane { lane < 64 }
    requires few { length drivers ≤ number_bound }
    ensures { result ≡ junction controlling (slice_set (map (lane_values lanes.now.good lane) drivers.entry) fault.position fault.value) }
{
    let mut place: usize = 0;
    for driver in drivers {
        if read_at(lanes, fault, place, driver, lane) == controlling {
            return controlling;
        }
        place += 1;
    }
    !controlling
}

// The value of a Not or an Xor with the stuck pin.
fn stuck_parity(drivers: Inputs<'_>, lanes: &Lanes, fault: Fault, lane: u32, inverts: bool) -> bool
    requires lane { lane < 64 }
    requires few { length drivers ≤ number_bound }
    ensures { result ≡ parity inverts (slice_set (map (lane_values lanes.now.good lane) drivers.entry) fault.position fault.value) }
{
    let mut place: usize = 0;
    let mut value = inverts;
    for driver in drivers {
        value = value != read_at(lanes, fault, place, driver, lane);
        place += 1;
    }
    value
}

// The value of the fault's gate with the stuck pin.
fn stuck_value(graph: &Graph, lanes: &Lanes, fault: Fault, lane: u32) -> bool
    requires lane { lane < 64 }
    requires simulated { IsSimulated lanes.now (net_of graph.now) }
    requires pin { HasPin (net_of graph.now) fault }
    ensures { result ≡ stuck_value (net_of graph.now) fault (assignment lanes.now.words lane) (lane_values lanes.now.good lane) }
{
    graph.well_formed();
    let Some(kind) = graph.kind(fault.gate) else {
        return value_in(lanes, fault.gate, lane);
    };
    match kind.family() {
        Family::Junction { controlling } => {
            stuck_junction(
                graph.gate_inputs(fault.gate),
                lanes,
                fault,
                lane,
                controlling,
            )
        }
        Family::Parity { inverts } => {
            stuck_parity(graph.gate_inputs(fault.gate), lanes, fault, lane, inverts)
        }
        Family::Input | Family::Constant { .. } => value_in(lanes, fault.gate, lane),
    }
}

// Whether a change of the node is known to be seen in the lane.
fn is_shown(shown: &[u64], node: NodeId, lane: u32) -> bool
    requires { lane < 64 }
    ensures { IsTrue result → IsTrue (lane_in lane (slice_index shown.now node.0)) }
{
    match shown.get(node.0 as usize) {
        Some(word) => (*word >> lane) & 1 == 1,
        None => false,
    }
}

// The one pin that reads a node, where it isn't observed.
fn only_pin(graph: &Graph, node: NodeId) -> Option<(NodeId, u32)>
    requires { IsLive (net_of graph.now) node.0 }
    ensures { IfSome result (λ pin. IsOnlyPin (net_of graph.now) node.0 pin.0.0 pin.1) }
{
    graph.readers_listed();
    let mut pins = graph.fanouts_of(node);
    let Some(pin) = pins.next() else {
        return None;
    };
    if let Some(_other) = pins.next() {
        return None;
    }
    if graph.is_observed(node) {
        return None;
    }
    Some(pin)
}

// What becomes of the fault at its gate in a lane.
fn pass(graph: &Graph, lanes: &Lanes, shown: &[u64], fault: Fault, lane: u32) -> Passage
    requires lane { lane < 64 }
    requires simulated { IsSimulated lanes.now (net_of graph.now) }
    requires shown { AreShown (net_of graph.now) lanes.now.words shown.now }
    requires pin { HasPin (net_of graph.now) fault }
    ensures { PassageSays (net_of graph.now) (assignment lanes.now.words lane) fault result }
{
    graph.well_formed();
    let good = value_in(lanes, fault.gate, lane);
    if stuck_value(graph, lanes, fault, lane) == good {
        return Passage::Told(false);
    }
    if is_shown(shown, fault.gate, lane) {
        return Passage::Told(true);
    }
    match only_pin(graph, fault.gate) {
        Some((gate, position)) => Passage::Passed(Fault {
            gate,
            position,
            value: !good,
        }),
        None => Passage::Stem,
    }
}

/// Follows a fault in a lane as far as its change goes through one pin alone, or to a node whose change is known to be seen.
pub(crate) fn trace(
    graph: &Graph,
    lanes: &Lanes,
    shown: &[u64],
    given: Fault,
    lane: u32,
) -> Followed
    requires lane { lane < 64 }
    requires simulated { IsSimulated lanes.now (net_of graph.now) }
    requires shown { AreShown (net_of graph.now) lanes.now.words shown.now }
    requires pin { HasPin (net_of graph.now) given }
    ensures { FollowedSays (net_of graph.now) (assignment lanes.now.words lane) given result }
{
    let mut fault = given;
    for _ in 0..graph.node_bound() {
        match pass(graph, lanes, shown, fault, lane) {
            Passage::Told(found) => return Followed::Known(found),
            Passage::Stem => return Followed::Left(fault),
            Passage::Passed(next) => fault = next,
        }
    }
    Followed::Left(fault)
}
