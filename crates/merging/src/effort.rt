//! How much is done to refute a fault.

/// The depth of learning, and how many edges a search may enter.
#[derive(Clone, Copy)]
pub(crate) struct Effort {
    pub(crate) depth: u8,
    pub(crate) budget: u32,
}
