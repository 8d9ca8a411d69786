//! Names of pins, of places in the lists and of moves.

/// A pin, by its number. A pool hands the numbers out, and uses them again.
#[derive(Clone, Copy, Debug, PartialEq, Eq)]
pub struct PinNo(pub u32);

/// No pin is spare: `Pool::reserve` makes more.
#[derive(Clone, Copy, Debug, PartialEq, Eq)]
pub struct Full;

/// A pin's gate and driver, and the pin just before it in each of their lists, which is None for the first.
#[derive(Clone, Copy, Debug, PartialEq, Eq)]
pub struct Slot {
    pub gate: u32,
    pub driver: u32,
    pub in_gate: Option<PinNo>,
    pub in_driver: Option<PinNo>,
}

/// A move of `count` fanouts of the node `from` to the node `to`.
#[derive(Clone, Copy, Debug, PartialEq, Eq)]
pub struct Splice {
    pub from: u32,
    pub to: u32,
    pub count: u32,
}
