// Why a window gets no part.
use accepted_steps::Stop;
use rm_base::NoMemory;
use std::error::Error;
use std::fmt;

/// Why there is nothing to stand for a window.
#[derive(Clone, Copy, Debug, PartialEq, Eq)]
pub enum PartRefusal {
    /// The steps of the journal end before a verdict and before its end: it isn't a journal of this window, or was cut off.
    Journal { stop: Stop },
    /// The journal has more than 2^62 bytes.
    TooLong,
    /// A call of the store has failed.
    Fault,
    NoMemory,
}

impl fmt::Display for PartRefusal {
    fn fmt<W: fmt::Write>(&self, f: &mut fmt::Formatter<W>) -> fmt::Result {
        match self {
            PartRefusal::Journal { stop } => write!(f, "{stop}"),
            PartRefusal::TooLong => f.write_str("the journal is too long"),
            PartRefusal::Fault => f.write_str("the journal couldn't be read"),
            PartRefusal::NoMemory => f.write_str("out of memory"),
        }
    }
}

impl Error for PartRefusal {}

impl From<NoMemory> for PartRefusal {
    ghost use Rattle.std.specs.Prelude.{◌≡◌};
    ghost use Rattle.window_parts.specs.declared.refusal.PartRefusal.TheVariants as refusal;

    ghost from_gives = { λ e p. p ≡ refusal.NoMemory };

    fn from(_error: NoMemory) -> Self {
        PartRefusal::NoMemory
    }
}
