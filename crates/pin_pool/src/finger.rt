//! A place in the ring of a gate that is kept, so that a walk may start there.
ghost use Rattle.std.specs.Prelude.{◌≡◌, drop};

use crate::names::PinNo;
use crate::pin_iter::PinIter;

/// The pin at a position among the inputs of a gate.
#[derive(Clone, Copy)]
pub(crate) struct Finger {
    pub gate: u32,
    pub position: u32,
    pub pin: PinNo,
}

// The pins without the first so many.
pub(crate) fn skip(pins: PinIter<'_>, count: u32) -> PinIter<'_>
    ensures { result ≡ drop count pins.entry }
{
    let mut pins = pins;
    let mut left = count;
    while left > 0 {
        let Some(_) = pins.next() else {
            return pins;
        };
        left -= 1;
    }
    pins
}
