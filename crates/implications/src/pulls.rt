// What scans of a gate's pins tell that isn't known yet.
ghost use Rattle.std.specs.Prelude.{◌≡◌, List, Option, Bool, false};
ghost use Rattle.refutation.specs.Pins.{IsScan};
ghost use Rattle.implications.specs.Inner.Pulls.{IsPull, IsEqualPull};

use refutation::pins::{PinScan, is_value, junction_forward};

/// What follows at a gate: something of the gate itself, or of the pin at a position.
#[derive(Clone, Copy, Debug)]
pub enum Pull {
    Gate(bool),
    Pin(usize, bool),
}

// The value of an And or an Or, or of one of its pins, that a scan for its controlling value gives and that isn't
// known.
pub(crate) fn junction_pull(scan: PinScan, c: bool, known: Option<bool>) -> Option<Pull>
    ensures { (os : List (Option Bool)) → IsScan scan c os → IsPull c os known result }
{
    if let Some(value) = junction_forward(scan, c) {
        if is_value(known, value) {
            return None;
        }
        return Some(Pull::Gate(value));
    }
    let value = known?;
    if value != c {
        return Some(Pull::Pin(scan.at, value));
    }
    if scan.rest == 1 {
        return Some(Pull::Pin(scan.at, value));
    }
    None
}

// That a gate is equal, or that the driver of one of its pins differs, by a scan for drivers that differ.
pub(crate) fn equal_pull(scan: PinScan, known: Option<bool>) -> Option<Pull>
    ensures { (os : List (Option Bool)) → IsScan scan false os → IsEqualPull os known result }
{
    if scan.rest == 0 {
        if is_value(known, true) {
            return None;
        }
        return Some(Pull::Gate(true));
    }
    if !is_value(known, false) {
        return None;
    }
    if scan.any {
        return None;
    }
    if scan.rest == 1 {
        return Some(Pull::Pin(scan.at, false));
    }
    None
}
