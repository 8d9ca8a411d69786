//! What is known at a gate's pins, of which one may be stuck, and what one look at them tells.
ghost use Rattle.std.specs.Prelude.{◌≡◌, List, Option, Bool, not};
ghost use Rattle.gate_net.specs.Meaning.{junction_follows, junction_back, is_known, all_but};
ghost use Rattle.local_evaluation.specs.Pins.{pin_value, stuck_of, turned_known, IsScan};

use rm_base::{Fault, NodeId};

/// A pin that reads a constant.
#[derive(Clone, Copy, Debug, PartialEq, Eq)]
pub struct Stuck {
    pub position: u32,
    pub value: bool,
}

/// What one look at a gate's pins tells, for a value: whether some pin is known to have it, how many aren't known to
/// have its opposite, and the last position of those.
#[derive(Clone, Copy, Debug, PartialEq, Eq)]
pub struct PinScan {
    pub any: bool,
    pub rest: usize,
    pub at: usize,
}

/// What is known at a pin, which may be the stuck one.
pub fn at_pin(stuck: Option<Stuck>, q: usize, known: Option<bool>) -> Option<bool>
    ensures { result ≡ pin_value stuck q known }
{
    match stuck {
        Some(s) => {
            if q == s.position as usize {
                Some(s.value)
            } else {
                known
            }
        }
        None => known,
    }
}

/// The stuck pin, where the gate has it.
pub fn stuck_at(fault: &Fault, gate: NodeId) -> Option<Stuck>
    ensures { result ≡ stuck_of fault.now gate.0 }
{
    if gate.0 == fault.gate.0 {
        Some(Stuck {
            position: fault.position,
            value: fault.value,
        })
    } else {
        None
    }
}

/// Whether the value is known and is this.
pub fn is_value(known: Option<bool>, value: bool) -> bool
    ensures { result ≡ is_known value known }
{
    match known {
        Some(b) => b == value,
        None => false,
    }
}

/// The value of an And or an Or that a scan for its controlling value gives.
pub fn junction_forward(scan: PinScan, value: bool) -> Option<bool>
    ensures { (os : List (Option Bool)) → IsScan scan value os → result ≡ junction_follows value os }
{
    if scan.any {
        return Some(value);
    }
    if scan.rest == 0 {
        return Some(!value);
    }
    None
}

/// Whether all pins but `q` are known to have the opposite of the scan's value.
pub fn others_pass(scan: PinScan, q: usize) -> bool
    ensures { (c : Bool) (os : List (Option Bool)) → IsScan scan c os → result ≡ all_but (is_known (not c)) q os }
{
    scan.rest == 0 || (scan.rest == 1 && scan.at == q)
}

/// The value at pin `q` of an And or an Or with controlling value `c` that a scan for `c` gives.
pub fn junction_back(scan: PinScan, c: bool, value: bool, q: usize) -> Option<bool>
    ensures { (os : List (Option Bool)) → IsScan scan c os → result ≡ junction_back c value os q }
{
    if value != c {
        return Some(!c);
    }
    if others_pass(scan, q) {
        return Some(c);
    }
    None
}

/// The parity turned by one pin more, where both are known.
pub fn turn(parity: Option<bool>, here: Option<bool>) -> Option<bool>
    ensures { result ≡ turned_known parity here }
{
    match (parity, here) {
        (Some(before), Some(pin)) => Some(before != pin),
        _ => None,
    }
}
