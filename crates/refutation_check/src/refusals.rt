// Why a tree isn't accepted.
ghost use Rattle.std.specs.Prelude.{◌≡◌};
ghost use Rattle.refutation_check.specs.declared.refusals.CheckRefusal.TheVariants as refusal;

use rm_base::NoMemory as WantOfMemory;
use std::error::Error;
use std::fmt;

/// Why a tree isn't accepted, with the number of the first item that is wrong, from 1.
#[derive(Clone, Copy, Debug, PartialEq, Eq)]
pub enum CheckRefusal {
    /// The line's condition isn't met.
    BadLine { item: u64 },
    /// The node doesn't hold two opposed facts.
    NotClash { item: u64 },
    /// Some observed node isn't marked equal.
    NotQuiet { item: u64 },
    /// The tree may not split on the node there.
    BadSplit { item: u64 },
    /// The tree ends too early, goes on after its end, or has a `Here` or an `Untried` where its form has none.
    Shape { item: u64 },
    NoMemory,
}

impl fmt::Display for CheckRefusal {
    fn fmt<W: fmt::Write>(&self, f: &mut fmt::Formatter<W>) -> fmt::Result {
        match self {
            CheckRefusal::BadLine { item } => write!(
                f,
                "item {item}: the condition of the line isn't met"
            ),
            CheckRefusal::NotClash { item } => write!(
                f,
                "item {item}: no two facts of the node are opposed"
            ),
            CheckRefusal::NotQuiet { item } => write!(
                f,
                "item {item}: an observed node isn't equal yet"
            ),
            CheckRefusal::BadSplit { item } => write!(
                f,
                "item {item}: the tree may not split there"
            ),
            CheckRefusal::Shape { item } => write!(
                f,
                "item {item}: the tree ends or goes on where it may not"
            ),
            CheckRefusal::NoMemory => f.write_str("out of memory"),
        }
    }
}

impl Error for CheckRefusal {}

impl From<WantOfMemory> for CheckRefusal {
    ghost from_gives = { λ _ r. r ≡ refusal.NoMemory };

    fn from(_: WantOfMemory) -> Self {
        CheckRefusal::NoMemory
    }
}
