//! What is known of a node.
ghost use Rattle.std.specs.Prelude.{◌≡◌, ◌<◌, ◌↔◌, length, IsTrue};
ghost use Rattle.gate_net.specs.Net.{IsGateKind};
ghost use Rattle.gate_net.specs.Values.{controlling, inversion};
ghost use Rattle.refutation.specs.Facts.{one_of};
ghost use Rattle.refutation.specs.FactSets.{held_by};
ghost use Rattle.refutation.specs.Lines.{IsStuckPin};
ghost use Rattle.refutation.specs.Pins.{known_on};

use crate::held::FactSet;
use crate::reasoning::Fact;
use gate_net::{Family, Kind};
pub use local_evaluation::pins::{
    PinScan, Stuck, at_pin, is_value, junction_back, junction_forward, others_pass, stuck_at,
};
use rm_base::{Fault, NodeId};

/// What may be known of a node: its good value, its faulty value, or whether they are equal.
#[derive(Clone, Copy, Debug, PartialEq, Eq)]
pub enum Aspect {
    OfGood,
    OfFaulty,
    OfEqual,
}

fn one_of(no: bool, yes: bool) -> Option<bool>
    ensures { result ≡ one_of no yes }
{
    match (no, yes) {
        (true, false) => Some(false),
        (false, true) => Some(true),
        _ => None,
    }
}

/// What is known of a node; of `OfEqual`, true where it is known to be equal.
pub fn known_of(facts: &FactSet, aspect: Aspect, node: NodeId) -> Option<bool>
    requires { node.0 < length facts.now }
    ensures { result ≡ known_on aspect (held_by facts.now) node.0 }
{
    match aspect {
        Aspect::OfGood => one_of(
            facts.holds(node, Fact::Good(false)),
            facts.holds(node, Fact::Good(true)),
        ),
        Aspect::OfFaulty => one_of(
            facts.holds(node, Fact::Faulty(false)),
            facts.holds(node, Fact::Faulty(true)),
        ),
        Aspect::OfEqual => one_of(
            facts.holds(node, Fact::Differs),
            facts.holds(node, Fact::Equal),
        ),
    }
}

/// The controlling value of an And or an Or.
pub fn controlling(kind: Kind) -> Option<bool>
    ensures { result ≡ controlling kind }
{
    kind.controlling_value()
}

/// Whether a Not or an Xor inverts the parity of its pins.
pub fn inversion(kind: Kind) -> Option<bool>
    ensures { result ≡ inversion kind }
{
    match kind.family() {
        Family::Parity { inverts } => Some(inverts),
        _ => None,
    }
}

/// Whether the node is a gate.
pub fn is_gate(kind: Kind) -> bool
    ensures { IsTrue result ↔ IsGateKind kind }
{
    kind.is_gate()
}

/// Whether the pin is the stuck one.
pub fn is_stuck(fault: &Fault, node: NodeId, position: u32) -> bool
    ensures { IsTrue result ↔ IsStuckPin fault.now node.0 position }
{
    node.0 == fault.gate.0 && position == fault.position
}
