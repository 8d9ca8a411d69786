//! Looks at a gate's pins.
ghost use Rattle.std.specs.Prelude.{◌≡◌, ◌<◌, ◌≤◌, Bool, Option, length, map, ℕ};
ghost use Rattle.gate_net.specs.Meaning.{kind_forward, parity_back, parity_follows, value_back, value_forward};
ghost use Rattle.local_evaluation.specs.Pins.{with_stuck, IsScan, AreBelow};
ghost use Rattle.rm_base.specs.Numbers.{number_bound};

use crate::pins::{PinScan, Stuck, at_pin, is_value, junction_back, junction_forward, turn};
use gate_graph::Inputs;
use gate_net::{Family, Kind};
use rm_base::NodeId;

/// What is known of the values of nodes.
pub trait Known {
    /// What is known of each node by its number.
    ghost knows: { Self → ℕ → Option Bool };

    /// Below which bound the numbers are.
    ghost bound: { Self → ℕ };

    /// What is known of a node.
    fn known_of(&self, node: NodeId) -> Option<bool>
        requires { node.0 < bound self.now }
        ensures { result ≡ knows self.now node.0 };
}

/// One look at a gate's pins.
pub fn look<K: Known>(drivers: Inputs<'_>, stuck: Option<Stuck>, known: &K, value: bool) -> PinScan
    requires within { AreBelow drivers (K.bound known.now) }
    requires few { length drivers ≤ number_bound }
    ensures { IsScan result value (with_stuck stuck (map (K.knows known.now) drivers.entry)) }
{
    let mut any = false;
    let mut rest: usize = 0;
    let mut at: usize = 0;
    let mut q: usize = 0;
    for driver in drivers {
        let here = at_pin(stuck, q, known.known_of(driver));
        if is_value(here, value) {
            any = true;
        }
        if !is_value(here, !value) {
            rest += 1;
            at = q;
        }
        q += 1;
    }
    PinScan { any, rest, at }
}

/// The parity of a gate's pins, where all are known.
pub fn parity_forward<K: Known>(
    drivers: Inputs<'_>,
    stuck: Option<Stuck>,
    known: &K,
    inverts: bool,
) -> Option<bool>
    requires within { AreBelow drivers (K.bound known.now) }
    requires few { length drivers ≤ number_bound }
    ensures { result ≡ parity_follows inverts (with_stuck stuck (map (K.knows known.now) drivers.entry)) }
{
    let mut parity = Some(inverts);
    let mut q: usize = 0;
    for driver in drivers {
        parity = turn(parity, at_pin(stuck, q, known.known_of(driver)));
        q += 1;
    }
    parity
}

/// The parity of all pins but one, where they are known and there is that one.
pub fn parity_back<K: Known>(
    drivers: Inputs<'_>,
    stuck: Option<Stuck>,
    known: &K,
    inverts: bool,
    at: usize,
) -> Option<bool>
    requires within { AreBelow drivers (K.bound known.now) }
    requires few { length drivers ≤ number_bound }
    ensures { result ≡ parity_back inverts (with_stuck stuck (map (K.knows known.now) drivers.entry)) at }
{
    let mut parity = Some(inverts);
    let mut there = false;
    let mut q: usize = 0;
    for driver in drivers {
        if q == at {
            there = true;
        } else {
            parity = turn(parity, at_pin(stuck, q, known.known_of(driver)));
        }
        q += 1;
    }
    if there { parity } else { None }
}

/// The value of a gate that follows from its pins.
pub fn forward<K: Known>(
    kind: Kind,
    drivers: Inputs<'_>,
    stuck: Option<Stuck>,
    known: &K,
) -> Option<bool>
    requires within { AreBelow drivers (K.bound known.now) }
    requires few { length drivers ≤ number_bound }
    ensures { result ≡ value_forward kind (with_stuck stuck (map (K.knows known.now) drivers.entry)) }
{
    match kind.family() {
        Family::Junction { controlling: c } => {
            junction_forward(look(drivers, stuck, known, c), c)
        }
        Family::Parity { inverts } => parity_forward(drivers, stuck, known, inverts),
        Family::Input | Family::Constant { .. } => None,
    }
}

/// The value of a node that follows from its pins, or from what is known of it where it is a source.
pub fn node_forward<K: Known>(
    kind: Kind,
    own: Option<bool>,
    drivers: Inputs<'_>,
    stuck: Option<Stuck>,
    known: &K,
) -> Option<bool>
    requires within { AreBelow drivers (K.bound known.now) }
    requires few { length drivers ≤ number_bound }
    ensures { result ≡ kind_forward kind own (with_stuck stuck (map (K.knows known.now) drivers.entry)) }
{
    match kind.family() {
        Family::Input => own,
        Family::Constant { value } => Some(value),
        _ => forward(kind, drivers, stuck, known),
    }
}

/// The value at pin `q` that follows from those of the gate and the other pins.
pub fn back<K: Known>(
    kind: Kind,
    value: bool,
    drivers: Inputs<'_>,
    stuck: Option<Stuck>,
    known: &K,
    q: usize,
) -> Option<bool>
    requires within { AreBelow drivers (K.bound known.now) }
    requires few { length drivers ≤ number_bound }
    ensures { result ≡ value_back kind value (with_stuck stuck (map (K.knows known.now) drivers.entry)) q }
{
    match kind.family() {
        Family::Junction { controlling: c } => {
            junction_back(look(drivers, stuck, known, c), c, value, q)
        }
        Family::Parity { inverts } => parity_back(drivers, stuck, known, inverts != value, q),
        Family::Input | Family::Constant { .. } => None,
    }
}
