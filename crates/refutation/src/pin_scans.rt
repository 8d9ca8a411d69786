//! Looks at a gate's pins by the facts that are held.
ghost use Rattle.std.specs.Prelude.{◌≡◌, ◌≤◌, ◌↔◌, IsTrue, length, map, true};
ghost use Rattle.std.specs.List.{list_all};
ghost use Rattle.gate_net.specs.Forward.{value_forward, value_back, is_known, all_but};
ghost use Rattle.refutation.specs.Facts.{known_equal};
ghost use Rattle.refutation.specs.FactSets.{held_by};
ghost use Rattle.refutation.specs.Lines.{OneDiffers};
ghost use Rattle.refutation.specs.Pins.{pins_of, IsScan, AreBelow, known_on};
ghost use Rattle.rm_base.specs.Numbers.{number_bound};

use crate::held::FactSet;
use crate::pins::{Aspect, PinScan, Stuck, known_of, others_pass};
use gate_graph::Inputs;
use gate_net::Kind;
use local_evaluation::pin_scans::Known;
use rm_base::NodeId;

// What the facts tell of one aspect of each node.
#[derive(Clone, Copy)]
struct Told<'a> {
    facts: &'a FactSet,
    aspect: Aspect,
}

impl<'a> Known for Told<'a> {
    ghost knows = { λ t. known_on t.aspect (held_by t.facts.now) };

    ghost bound = { λ t. length t.facts.now };

    fn known_of(&self, node: NodeId) -> Option<bool> {
        known_of(self.facts, self.aspect, node)
    }
}

/// One look at a gate's pins.
pub fn look_at_facts(
    drivers: Inputs<'_>,
    stuck: Option<Stuck>,
    facts: &FactSet,
    aspect: Aspect,
    value: bool,
) -> PinScan
    requires within { AreBelow drivers (length facts.now) }
    requires few { length drivers ≤ number_bound }
    ensures { IsScan result value (pins_of stuck aspect (held_by facts.now) drivers.entry) }
{
    let told = Told { facts, aspect };
    local_evaluation::pin_scans::look(drivers, stuck, &told, value)
}

/// The value of a gate that follows from its pins.
pub fn forward(
    kind: Kind,
    drivers: Inputs<'_>,
    stuck: Option<Stuck>,
    facts: &FactSet,
    aspect: Aspect,
) -> Option<bool>
    requires within { AreBelow drivers (length facts.now) }
    requires few { length drivers ≤ number_bound }
    ensures { result ≡ value_forward kind (pins_of stuck aspect (held_by facts.now) drivers.entry) }
{
    let told = Told { facts, aspect };
    local_evaluation::pin_scans::forward(kind, drivers, stuck, &told)
}

/// The value at pin `q` that follows from those of the gate and the other pins.
pub fn back(
    kind: Kind,
    value: bool,
    drivers: Inputs<'_>,
    stuck: Option<Stuck>,
    facts: &FactSet,
    aspect: Aspect,
    q: usize,
) -> Option<bool>
    requires within { AreBelow drivers (length facts.now) }
    requires few { length drivers ≤ number_bound }
    ensures { result ≡ value_back kind value (pins_of stuck aspect (held_by facts.now) drivers.entry) q }
{
    let told = Told { facts, aspect };
    local_evaluation::pin_scans::back(kind, value, drivers, stuck, &told, q)
}

/// Whether all drivers are known to be equal.
pub fn all_equal(drivers: Inputs<'_>, facts: &FactSet) -> bool
    requires within { AreBelow drivers (length facts.now) }
    requires few { length drivers ≤ number_bound }
    ensures { result ≡ list_all (is_known true) (map (known_equal (held_by facts.now)) drivers.entry) }
{
    look_at_facts(drivers, None, facts, Aspect::OfEqual, false).rest == 0
}

/// Whether the driver of one pin is known to differ and those of all other pins to be equal.
pub fn one_differs(drivers: Inputs<'_>, facts: &FactSet) -> bool
    requires within { AreBelow drivers (length facts.now) }
    requires few { length drivers ≤ number_bound }
    ensures { IsTrue result ↔ OneDiffers (held_by facts.now) drivers.entry }
{
    let scan = look_at_facts(drivers, None, facts, Aspect::OfEqual, false);
    if scan.rest != 1 {
        return false;
    }
    scan.any
}

/// Whether the drivers of all pins but `q` are known to be equal.
pub fn others_equal(drivers: Inputs<'_>, facts: &FactSet, q: usize) -> bool
    requires within { AreBelow drivers (length facts.now) }
    requires few { length drivers ≤ number_bound }
    ensures { result ≡ all_but (is_known true) q (map (known_equal (held_by facts.now)) drivers.entry) }
{
    others_pass(
        look_at_facts(drivers, None, facts, Aspect::OfEqual, false),
        q,
    )
}
