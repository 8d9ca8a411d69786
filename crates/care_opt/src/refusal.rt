// Why a model isn't optimised under a care model.
use rm_base::NoMemory as WantOfMemory;
use std::error::Error;
use std::fmt;

/// Why a model isn't optimised under a care model. The first that stands in this order is told, and out of memory may come at
/// any models.
#[derive(Clone, Copy, Debug, PartialEq, Eq)]
pub enum CareRefusal {
    /// The care model has clocks or latches, or not exactly one output.
    Shape,
    /// The lists of sources differ, at this place from 1 first.
    UnlikeSources { at: u32 },
    /// The decomposition of the first or the second model has more than 65,536 wires: this many.
    Limit { second: bool, pins: u64 },
    /// Memory that was asked for wasn't given.
    NoMemory,
}

impl fmt::Display for CareRefusal {
    fn fmt<W: fmt::Write>(&self, f: &mut fmt::Formatter<W>) -> fmt::Result {
        match self {
            CareRefusal::Shape => f.write_str("care shape"),
            CareRefusal::UnlikeSources { at } => write!(f, "unlike sources {at}"),
            CareRefusal::Limit { second: _, pins } => write!(f, "{pins} wires are too many"),
            CareRefusal::NoMemory => f.write_str("out of memory"),
        }
    }
}

impl Error for CareRefusal {}

impl From<WantOfMemory> for CareRefusal {
    ghost use Rattle.std.specs.Prelude.{◌≡◌};
    ghost use Rattle.care_opt.specs.declared.refusal.CareRefusal.TheVariants as refusal;

    ghost from_gives = { λ e p. p ≡ refusal.NoMemory };

    fn from(_error: WantOfMemory) -> Self {
        CareRefusal::NoMemory
    }
}
