//! What each kind of node means. What other crates ask of a kind they ask here, so that a new kind is met in one place.
ghost use Rattle.std.specs.Prelude.{◌≡◌, ◌↔◌, IsTrue, [], false};
ghost use Rattle.gate_net.specs.Meaning.{is_gate_kind, IsGateKind, constant_value, controlling, family, gate_value, junction, parity};
ghost use Rattle.gate_net.specs.Inner.Meaning.{noncontrolling, TakesPins};

use crate::{Family, Kind};

fn junction(c: bool, reads: &[bool]) -> bool
    ensures { result ≡ junction c reads.now }
{
    for read in reads {
        if *read == c {
            return c;
        }
    }
    !c
}

fn parity(inverts: bool, reads: &[bool]) -> bool
    ensures { result ≡ parity inverts reads.now }
{
    let mut value = inverts;
    for read in reads {
        value = value != *read;
    }
    value
}

impl Kind {
    /// What the kind means.
    pub fn family(self) -> Family
        ensures { result ≡ family self }
    {
        match self {
            Kind::Source => Family::Input,
            Kind::Zero => Family::Constant { value: false },
            Kind::One => Family::Constant { value: true },
            Kind::And => Family::Junction { controlling: false },
            Kind::Or => Family::Junction { controlling: true },
            Kind::Not => Family::Parity { inverts: true },
            Kind::Xor => Family::Parity { inverts: false },
        }
    }

    /// Whether a node of the kind is a gate.
    pub fn is_gate(self) -> bool
        ensures value { result ≡ is_gate_kind self }
        ensures gate { IsTrue result ↔ IsGateKind self }
    {
        match self.family() {
            Family::Junction { .. } | Family::Parity { .. } => true,
            Family::Input | Family::Constant { .. } => false,
        }
    }

    /// The value of a constant.
    pub fn constant_value(self) -> Option<bool>
        ensures { result ≡ constant_value self }
    {
        match self.family() {
            Family::Constant { value } => Some(value),
            _ => None,
        }
    }

    /// The value that decides a gate of the kind wherever a pin has it.
    pub fn controlling_value(self) -> Option<bool>
        ensures { result ≡ controlling self }
    {
        match self.family() {
            Family::Junction { controlling } => Some(controlling),
            _ => None,
        }
    }

    /// The other value of a gate that has a controlling one.
    pub fn noncontrolling_value(self) -> Option<bool>
        ensures { result ≡ noncontrolling self }
    {
        match self.controlling_value() {
            Some(c) => Some(!c),
            None => None,
        }
    }

    /// Whether pins may be added to a gate of the kind.
    pub fn takes_pins(self) -> bool
        ensures { IsTrue result ↔ TakesPins self }
    {
        self.controlling_value().is_some()
    }

    /// The value of a node that reads these, and of a source that is assigned this.
    pub fn value(self, assigned: bool, reads: &[bool]) -> bool
        ensures { result ≡ gate_value self assigned reads.now }
    {
        match self.family() {
            Family::Input => assigned,
            Family::Constant { value } => value,
            Family::Junction { controlling } => junction(controlling, reads),
            Family::Parity { inverts } => parity(inverts, reads),
        }
    }

    /// The value of a gate without pins.
    pub fn empty_value(self) -> bool
        ensures { result ≡ gate_value self false [] }
    {
        self.value(false, &[])
    }
}
