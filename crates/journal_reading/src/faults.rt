// What is wrong with the text of a journal.
ghost use Rattle.std.specs.Prelude.{◌≡◌};
ghost use Rattle.journal_reading.specs.declared.faults.JournalFault.TheVariants as fault;
ghost use Rattle.journal_reading.specs.Inner.Faults.{of_bytes as fault_of_bytes, of_lines as fault_of_lines};

use journal_binary::BinaryFault;
use journal_text::JournalFault as LineFault;
use rm_base::NoMemory as WantOfMemory;
use std::error::Error;
use std::fmt;

/// The form of a journal: lines, or binary records with their count in the header.
#[derive(Clone, Copy, Debug, PartialEq, Eq)]
pub enum Version {
    One,
    Two,
}

/// What is wrong with the text of a journal: at a line, counted from 1, in version 1; at a record in version 2, where 0 is
/// the header.
#[derive(Clone, Copy, Debug, PartialEq, Eq)]
pub enum JournalFault {
    /// There is no header.
    BadHeader { version: Version, number: u64 },
    /// There is neither a record nor, in version 1, the end.
    BadRecord { version: Version, number: u64 },
    /// The text ends before the line or the record is whole.
    Truncated { version: Version, number: u64 },
    /// A byte follows the end.
    AfterEnd { version: Version, number: u64 },
    NoMemory,
}

impl fmt::Display for Version {
    fn fmt<W: fmt::Write>(&self, f: &mut fmt::Formatter<W>) -> fmt::Result {
        match self {
            Version::One => f.write_str("line"),
            Version::Two => f.write_str("entry"),
        }
    }
}

impl fmt::Display for JournalFault {
    fn fmt<W: fmt::Write>(&self, f: &mut fmt::Formatter<W>) -> fmt::Result {
        match self {
            JournalFault::BadHeader { version, number } => {
                write!(f, "{version} {number}: no header")
            }
            JournalFault::BadRecord { version, number } => write!(
                f,
                "{version} {number}: neither a record nor the end"
            ),
            JournalFault::Truncated { version, number } => {
                write!(f, "{version} {number}: the text ends early")
            }
            JournalFault::AfterEnd { version, number } => {
                write!(f, "{version} {number}: something follows the end")
            }
            JournalFault::NoMemory => f.write_str("out of memory"),
        }
    }
}

impl Error for JournalFault {}

impl From<WantOfMemory> for JournalFault {
    ghost from_gives = { λ _ f. f ≡ fault.NoMemory };

    fn from(_: WantOfMemory) -> Self {
        JournalFault::NoMemory
    }
}

impl From<LineFault> for JournalFault {
    ghost from_gives = { λ g f. f ≡ fault_of_lines g };

    fn from(fault: LineFault) -> Self {
        let version = Version::One;
        match fault {
            LineFault::BadHeader { line } => JournalFault::BadHeader {
                version,
                number: line,
            },
            LineFault::BadRecord { line } => JournalFault::BadRecord {
                version,
                number: line,
            },
            LineFault::Truncated { line } => JournalFault::Truncated {
                version,
                number: line,
            },
            LineFault::AfterEnd { line } => JournalFault::AfterEnd {
                version,
                number: line,
            },
            LineFault::NoMemory => JournalFault::NoMemory,
        }
    }
}

impl From<BinaryFault> for JournalFault {
    ghost from_gives = { λ g f. f ≡ fault_of_bytes g };

    fn from(fault: BinaryFault) -> Self {
        let version = Version::Two;
        match fault {
            BinaryFault::BadHeader => JournalFault::BadHeader { version, number: 0 },
            BinaryFault::BadRecord { number } => JournalFault::BadRecord { version, number },
            BinaryFault::Truncated { number } => JournalFault::Truncated { version, number },
            BinaryFault::AfterEnd { number } => JournalFault::AfterEnd { version, number },
            BinaryFault::NoMemory => JournalFault::NoMemory,
        }
    }
}
