//! The commands of a text, and what each word behind a command has to be: the types of both the definitions and the reader.

/// What the first word of a line says that the line is, where it isn't a row (Berkeley Logic Interchange Format).
#[derive(Clone, Copy, Debug, PartialEq, Eq)]
pub enum Command {
    Model,
    Inputs,
    Outputs,
    Clock,
    Names,
    Latch,
    End,
}

/// As what a name stands in a text.
#[derive(Clone, Copy, Debug, PartialEq, Eq)]
pub enum Role {
    Input,
    ClockInput,
    Output,
    CoverInput,
    CoverOutput,
    LatchInput,
    LatchOutput,
    Control,
}

/// What a word behind a command has to be.
#[derive(Clone, Copy, Debug, PartialEq, Eq)]
pub enum Part {
    /// The name of the model.
    Title,
    Name(Role),
    LatchType,
    Init,
    /// A word too many.
    Extra,
}
