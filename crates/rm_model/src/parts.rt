// The parts of a model, as the text format has them.
use crate::list::Listed;

/// What a row asks of one input of its cover.
#[derive(Clone, Copy, Debug, PartialEq, Eq)]
pub enum Literal {
    /// `0`: the input is false.
    Zero,
    /// `1`: the input is true.
    One,
    /// `-`: the input may have either value.
    Any,
}

/// The bytes of a name. Names need not be UTF-8.
pub type Name = Listed<u8>;

/// One literal for each input of the cover, in the order of the inputs.
pub type Row = Listed<Literal>;

/// A single-output cover, as a `.names` line with its rows has it (Berkeley Logic Interchange
/// Format, logic gates).
#[derive(Drop)]
pub struct Cover {
    /// The names that the cover reads; one name may stand twice.
    pub inputs: Listed<Name>,
    /// The name that the cover drives.
    pub output: Name,
    /// Whether the rows end in `1`, so that they say where the output is true. Without rows it is
    /// true, and the output is always false.
    pub on: bool,
    pub rows: Listed<Row>,
}

/// The type word of a latch.
#[derive(Clone, Copy, Debug, PartialEq, Eq)]
pub enum LatchKind {
    /// Falling edge.
    Fe,
    /// Rising edge.
    Re,
    /// Active high.
    Ah,
    /// Active low.
    Al,
    /// Asynchronous.
    As,
}

/// The type of a latch and its control.
#[derive(Drop)]
pub struct Timing {
    pub kind: LatchKind,
    /// The name of the clock or enable; none where the text has `NIL`.
    pub control: Option<Name>,
}

/// A generic latch, as a `.latch` line has it. Its output is a source of the model, and its input
/// an observed point.
#[derive(Drop)]
pub struct Latch {
    pub input: Name,
    pub output: Name,
    pub timing: Option<Timing>,
    /// The value at the start, where the line has one: 0, 1, 2 for any or 3 for unknown.
    pub init: Option<u8>,
}

/// A flat model: covers and latches over named signals, each list in the order of the text.
#[derive(Drop)]
pub struct Model {
    pub name: Name,
    pub inputs: Listed<Name>,
    pub clocks: Listed<Name>,
    pub outputs: Listed<Name>,
    pub latches: Listed<Latch>,
    pub covers: Listed<Cover>,
}
