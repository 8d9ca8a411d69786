// By what names are looked up.
use std::hash::RandomState;

/// By what tables of names look them up. Only their time depends on it.
#[derive(Clone, Copy)]
pub enum NameKeys {
    /// A hash under keys that were drawn, so that no text can be made of names that share it.
    Drawn(RandomState),
    /// Their order, where no keys could be drawn.
    Ordered,
}
