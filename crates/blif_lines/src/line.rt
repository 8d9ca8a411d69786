// Tokens, logical lines and their faults.
ghost use Rattle.std.specs.Prelude.{◌≡◌, [], ◌∷◌, ◌++◌, OnOk, OnErr};

use rm_base::{NoMemory, Place};
use smallvec::SmallVec;
use std::alloc::Global;
use std::error::Error;
use std::fmt;
use std::marker::Model;

/// A token: the text from `start` up to `end`, and the place of its first byte.
#[derive(Clone, Copy, Debug, PartialEq, Eq)]
pub struct Token {
    pub start: usize,
    pub end: usize,
    pub place: Place,
}

// A vector that keeps a few tokens in place fills the rest of it with these.
impl Default for Token {
    fn default() -> Self {
        Token {
            start: 0,
            end: 0,
            place: Place { line: 0, column: 0 },
        }
    }
}

/// Why a text has no further line. Lines and columns count from 1.
#[derive(Clone, Copy, Debug, PartialEq, Eq)]
pub enum LineFault {
    /// A control byte, or a backslash that ends a token and joins nothing.
    BadByte(Place),
    /// A joining backslash in the last physical line.
    OpenJoin(Place),
    NoMemory,
}

impl fmt::Display for LineFault {
    fn fmt<W: fmt::Write>(&self, f: &mut fmt::Formatter<W>) -> fmt::Result {
        match self {
            LineFault::BadByte(place) => write!(
                f,
                "line {}, column {}: a byte that may not stand there",
                place.line, place.column
            ),
            LineFault::OpenJoin(place) => write!(
                f,
                "line {}, column {}: nothing follows the backslash that joins lines",
                place.line, place.column
            ),
            LineFault::NoMemory => f.write_str("out of memory"),
        }
    }
}

impl Error for LineFault {}

impl From<NoMemory> for LineFault {
    ghost use Rattle.std.specs.Prelude.{◌≡◌};
    ghost use Rattle.blif_lines.specs.declared.line.LineFault.{LineFault as Fault};
    ghost use Rattle.blif_lines.specs.declared.line.LineFault.TheVariants.{NoMemory as want};

    ghost from_gives = { λ _ fault. fault ≡ want };

    fn from(_: NoMemory) -> Self {
        LineFault::NoMemory
    }
}

/// The tokens of a logical line in order. A few of them take no memory.
#[derive(Drop)]
pub struct LogicalLine {
    kept: SmallVec<Token, 8>,
}

impl Model for LogicalLine {
    ghost use Rattle.std.specs.Prelude.{List};
    ghost use Rattle.blif_lines.specs.declared.line.Token.{Token};

    ghost Value = { List Token };

    ghost view = { λ a. a.kept.items };
}

impl LogicalLine {
    pub fn new(alloc: Global) -> LogicalLine
        ensures { result ≡ [] }
    {
        LogicalLine {
            kept: SmallVec::new(alloc),
        }
    }

    /// The tokens from left to right, those of joined physical lines behind each other.
    pub fn tokens(&self) -> &[Token]
        ensures { result.now ≡ self.now }
    {
        self.kept.as_slice()
    }

    pub fn push(&mut self, token: Token) -> Result<(), NoMemory>
        ensures ok { OnOk result (self.new ≡ self.old ++ token ∷ []) }
        ensures err { OnErr result (self.new ≡ self.old) }
    {
        match self.kept.push(token) {
            Ok(()) => Ok(()),
            Err(_) => Err(NoMemory),
        }
    }
}
