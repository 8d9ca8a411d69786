//! What may be wrong with a text.
use rm_base::Place;
use std::error::Error;
use std::fmt;

/// What is wrong at a place of a text.
#[derive(Clone, Copy, Debug, PartialEq, Eq)]
pub enum FaultKind {
    /// A control byte outside comments, or a backslash that ends a token and joins no lines.
    BadByte,
    /// A backslash that joins, with no line behind it.
    OpenJoin,
    /// The text doesn't begin with `.model`.
    NoModel,
    /// A command of the format that this reader leaves out, or a second `.model`.
    Unsupported,
    /// A word that begins with a dot and is no command.
    UnknownCommand,
    /// A line with too few words.
    MissingWord,
    /// A line with too many words.
    ExtraWord,
    /// A row without a `.names` line before it.
    RowOutsideCover,
    /// A row with more or fewer characters than its cover has inputs.
    RowLength,
    /// A character of a row that may not stand there.
    RowCharacter,
    /// Rows of one cover that end in 0 and in 1.
    MixedCover,
    /// A word of a `.latch` line that is no type or no init value.
    BadLatchWord,
    /// A name with a second driver.
    DoubleDriven,
    /// An output that is listed a second time.
    DoubleOutput,
    /// A word behind the `.end` line.
    AfterEnd,
    /// A name that is used and that nothing drives.
    Undriven,
    /// A cover on a cycle, or behind one.
    NoRank,
    /// A word of a `.subckt` line that is no pair of names, or whose formal isn't one of the called model or stands twice.
    BadPin,
    /// A `.subckt` line that leaves out an input of the called model.
    MissingPin,
    /// A `.subckt` line that calls a model which the text hasn't.
    UnknownModel,
    /// A model with the name of an earlier one.
    DoubleModel,
    /// A `.subckt` line whose model calls, directly or through others, the model that holds the line.
    Recursive,
}

impl fmt::Display for FaultKind {
    fn fmt<W: fmt::Write>(&self, f: &mut fmt::Formatter<W>) -> fmt::Result {
        match self {
            FaultKind::BadByte => f.write_str("a byte that may not stand there"),
            FaultKind::OpenJoin => f.write_str("nothing follows the backslash that joins lines"),
            FaultKind::NoModel => f.write_str("the text doesn't begin with .model"),
            FaultKind::Unsupported => f.write_str("a command that isn't read"),
            FaultKind::UnknownCommand => f.write_str("no command"),
            FaultKind::MissingWord => f.write_str("too few words"),
            FaultKind::ExtraWord => f.write_str("too many words"),
            FaultKind::RowOutsideCover => f.write_str("a row without a cover"),
            FaultKind::RowLength => f.write_str(
                "the row is longer or shorter than its cover has inputs",
            ),
            FaultKind::RowCharacter => f.write_str("a character that may not stand in a row"),
            FaultKind::MixedCover => f.write_str("the rows of a cover end in 0 and in 1"),
            FaultKind::BadLatchWord => f.write_str("no type or init value of a latch"),
            FaultKind::DoubleDriven => f.write_str("a name with two drivers"),
            FaultKind::DoubleOutput => f.write_str("an output that is listed twice"),
            FaultKind::AfterEnd => f.write_str("a word after the end"),
            FaultKind::Undriven => f.write_str("a name without a driver"),
            FaultKind::NoRank => f.write_str("a cover on a cycle, or behind one"),
            FaultKind::BadPin => f.write_str("no pin of the called model"),
            FaultKind::MissingPin => f.write_str("an input of the called model is left out"),
            FaultKind::UnknownModel => f.write_str("no model of the text"),
            FaultKind::DoubleModel => f.write_str("a second model of that name"),
            FaultKind::Recursive => f.write_str("a model that calls itself"),
        }
    }
}

/// What may be more than the reader takes.
#[derive(Clone, Copy, Debug, PartialEq, Eq)]
pub enum Quantity {
    Text,
    Name,
    Inputs,
    Sources,
    Observed,
    Signals,
    Pins,
    Journal,
    Flat,
    Windows,
}

impl fmt::Display for Quantity {
    fn fmt<W: fmt::Write>(&self, f: &mut fmt::Formatter<W>) -> fmt::Result {
        match self {
            Quantity::Text => f.write_str("the bytes of the text"),
            Quantity::Name => f.write_str("the bytes of a name"),
            Quantity::Inputs => f.write_str("the inputs of a cover"),
            Quantity::Sources => f.write_str("the sources"),
            Quantity::Observed => f.write_str("the observed points"),
            Quantity::Signals => f.write_str("the names"),
            Quantity::Pins => f.write_str("the wires of the decomposition"),
            Quantity::Journal => f.write_str("the bytes of the journal"),
            Quantity::Flat => f.write_str("the tokens of all instances"),
            Quantity::Windows => f.write_str("the windows"),
        }
    }
}

/// Why a text isn't read.
#[derive(Clone, Copy, Debug, PartialEq, Eq)]
pub enum ReadRefusal {
    Fault {
        kind: FaultKind,
        place: Place,
    },
    Limit {
        quantity: Quantity,
        count: u64,
        place: Place,
    },
    NoMemory,
}

impl fmt::Display for ReadRefusal {
    fn fmt<W: fmt::Write>(&self, f: &mut fmt::Formatter<W>) -> fmt::Result {
        match self {
            ReadRefusal::Fault { kind, place } => write!(
                f,
                "line {}, column {}: {kind}",
                place.line, place.column
            ),
            ReadRefusal::Limit {
                quantity,
                count,
                place,
            } => write!(
                f,
                "line {}, column {}: {quantity} are too many ({count})",
                place.line, place.column
            ),
            ReadRefusal::NoMemory => f.write_str("out of memory"),
        }
    }
}

impl Error for ReadRefusal {}
