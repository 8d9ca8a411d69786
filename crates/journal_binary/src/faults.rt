// What is wrong with bytes of version 2.
ghost use Rattle.std.specs.Prelude.{◌≡◌};
ghost use Rattle.journal_binary.specs.declared.faults.BinaryFault.TheVariants as fault;

use rm_base::NoMemory as WantOfMemory;
use std::error::Error;
use std::fmt;

/// What is wrong with a journal of version 2, at a record, counted from 1.
#[derive(Clone, Copy, Debug, PartialEq, Eq)]
pub enum BinaryFault {
    /// The budget of the header isn't from 1 to 1,048,576.
    BadHeader,
    /// A byte of the record is outside its range, or it has no item or no bit.
    BadRecord { number: u64 },
    /// The bytes end before the record is whole, or before the header is (0).
    Truncated { number: u64 },
    /// A byte follows the last record: one more than their count.
    AfterEnd { number: u64 },
    NoMemory,
}

impl fmt::Display for BinaryFault {
    fn fmt<W: fmt::Write>(&self, f: &mut fmt::Formatter<W>) -> fmt::Result {
        match self {
            BinaryFault::BadHeader => f.write_str("record 0: no header"),
            BinaryFault::BadRecord { number } => write!(f, "record {number}: no record"),
            BinaryFault::Truncated { number } => write!(f, "record {number}: the bytes end early"),
            BinaryFault::AfterEnd { number } => {
                write!(f, "record {number}: something follows the last record")
            }
            BinaryFault::NoMemory => f.write_str("out of memory"),
        }
    }
}

impl Error for BinaryFault {}

impl From<WantOfMemory> for BinaryFault {
    ghost from_gives = { λ _ f. f ≡ fault.NoMemory };

    fn from(_: WantOfMemory) -> Self {
        BinaryFault::NoMemory
    }
}
