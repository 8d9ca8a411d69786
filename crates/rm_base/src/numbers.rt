// Numbers of nodes and sources, places in a text, want of memory, and stuck-at faults.
use std::alloc::{AllocError, AllocFailed};
use std::error::Error;
use std::fmt;

/// The number of a node of a net: 0 is the constant Zero, 1 the constant One, then come the sources
/// in their order, and then the gates.
#[derive(Clone, Copy, Debug, PartialEq, Eq, PartialOrd, Ord)]
pub struct NodeId(pub u32);

/// The constant Zero.
pub const ZERO: NodeId = NodeId(0);

/// The constant One.
pub const ONE: NodeId = NodeId(1);

/// The number of the first source: source k is node `FIRST_SOURCE + k`.
pub const FIRST_SOURCE: u32 = 2;

/// No node and no pin has this number, and there are at most so many of either.
pub const NUMBER_BOUND: u32 = u32::MAX;

/// The number of a source among the sources of a model, or of a point in a list, from 0.
#[derive(Clone, Copy, Debug, PartialEq, Eq, PartialOrd, Ord)]
pub struct SourceNo(pub u32);

/// A place in a text. Lines and columns count from 1, and a column counts bytes.
#[derive(Clone, Copy, Debug, PartialEq, Eq)]
pub struct Place {
    pub line: u32,
    pub column: u32,
}

/// Memory that was asked for wasn't given.
#[derive(Clone, Copy, Debug, PartialEq, Eq)]
pub struct NoMemory;

impl fmt::Display for NoMemory {
    fn fmt<W: fmt::Write>(&self, f: &mut fmt::Formatter<W>) -> fmt::Result {
        f.write_str("out of memory")
    }
}

impl Error for NoMemory {}

impl From<AllocError> for NoMemory {
    fn from(_: AllocError) -> Self {
        NoMemory
    }
}

impl<T: Drop> From<AllocFailed<T>> for NoMemory {
    fn from(_: AllocFailed<T>) -> Self {
        NoMemory
    }
}

/// The stuck-at fault of one pin, which is named by its gate and its position there, from 0: the
/// gate reads `value` at that pin, whatever its driver says.
#[derive(Clone, Copy, Debug, PartialEq, Eq)]
pub struct Fault {
    pub gate: NodeId,
    pub position: u32,
    pub value: bool,
}

impl fmt::Display for Fault {
    fn fmt<W: fmt::Write>(&self, f: &mut fmt::Formatter<W>) -> fmt::Result {
        let value = if self.value { 1 } else { 0 };
        write!(
            f,
            "pin {} of gate {} stuck at {value}",
            self.position, self.gate.0
        )
    }
}
