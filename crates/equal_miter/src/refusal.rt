// Why two models aren't compared.
use rm_base::NoMemory as WantOfMemory;
use std::error::Error;
use std::fmt;

/// Why two models aren't compared. The first that stands in this order is told, and out of memory may come at any models.
#[derive(Clone, Copy, Debug, PartialEq, Eq)]
pub enum MiterRefusal {
    /// The lists of sources differ, at this place from 1 first.
    UnlikeSources { at: u32 },
    /// The lists of observed names differ, at this place from 1 first.
    UnlikeObserved { at: u32 },
    /// The decomposition of the first or the second model has more than 65,536 wires: this many.
    Limit { second: bool, pins: u64 },
    /// Memory that was asked for wasn't given.
    NoMemory,
}

impl fmt::Display for MiterRefusal {
    fn fmt<W: fmt::Write>(&self, f: &mut fmt::Formatter<W>) -> fmt::Result {
        match self {
            MiterRefusal::UnlikeSources { at } => write!(f, "unlike sources {at}"),
            MiterRefusal::UnlikeObserved { at } => write!(f, "unlike observed {at}"),
            MiterRefusal::Limit { second: _, pins } => write!(f, "{pins} wires are too many"),
            MiterRefusal::NoMemory => f.write_str("out of memory"),
        }
    }
}

impl Error for MiterRefusal {}

impl From<WantOfMemory> for MiterRefusal {
    ghost use Rattle.std.specs.Prelude.{◌≡◌};
    ghost use Rattle.equal_miter.specs.declared.refusal.MiterRefusal.TheVariants as refusal;

    ghost from_gives = { λ e p. p ≡ refusal.NoMemory };

    fn from(_error: WantOfMemory) -> Self {
        MiterRefusal::NoMemory
    }
}
