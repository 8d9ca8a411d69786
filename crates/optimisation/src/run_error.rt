// Why a run over a model ends early.
use cover_decompose::DecomposeRefusal;
use journal_text::Stop;
use rm_base::{NoMemory, OutsideFault};
use std::error::Error;
use std::fmt;

/// Why a run over a model ended early.
#[derive(Clone, Copy, Debug, PartialEq, Eq)]
pub enum RunError {
    /// The decomposition has more than 65,536 wires: this many.
    Limit { pins: u64 },
    /// The shelf failed, and its count of faults rose.
    Failed,
    NoMemory,
}

impl fmt::Display for RunError {
    fn fmt<W: fmt::Write>(&self, f: &mut fmt::Formatter<W>) -> fmt::Result {
        match self {
            RunError::Limit { pins } => write!(
                f,
                "the decomposition has {pins} wires, which are too many"
            ),
            RunError::Failed => f.write_str("the journal couldn't be written"),
            RunError::NoMemory => f.write_str("out of memory"),
        }
    }
}

impl Error for RunError {}

impl From<DecomposeRefusal> for RunError {
    ghost use Rattle.std.specs.Prelude.{◌≡◌};
    ghost use Rattle.optimisation.specs.RunErrors.{run_error_of_refusal};

    ghost from_gives = { λ refusal h. h ≡ run_error_of_refusal refusal };

    fn from(refusal: DecomposeRefusal) -> Self {
        match refusal {
            DecomposeRefusal::Limit { pins } => RunError::Limit { pins },
            DecomposeRefusal::NoMemory => RunError::NoMemory,
        }
    }
}

impl From<Stop> for RunError {
    ghost use Rattle.std.specs.Prelude.{◌≡◌};
    ghost use Rattle.optimisation.specs.RunErrors.{run_error_of_stop};

    ghost from_gives = { λ stop h. h ≡ run_error_of_stop stop };

    fn from(stop: Stop) -> Self {
        match stop {
            Stop::Failed => RunError::Failed,
            Stop::NoMemory => RunError::NoMemory,
        }
    }
}

impl From<OutsideFault> for RunError {
    ghost use Rattle.std.specs.Prelude.{◌≡◌};
    ghost use Rattle.optimisation.specs.RunErrors.{run_error_of_fault};

    ghost from_gives = { λ fault h. h ≡ run_error_of_fault fault };

    fn from(fault: OutsideFault) -> Self {
        match fault {
            OutsideFault::Failed => RunError::Failed,
            OutsideFault::NoMemory => RunError::NoMemory,
        }
    }
}

impl From<NoMemory> for RunError {
    ghost use Rattle.std.specs.Prelude.{◌≡◌};
    ghost use Rattle.optimisation.specs.declared.run_error.RunError.TheVariants as run_error;

    ghost from_gives = { λ _ h. h ≡ run_error.NoMemory };

    fn from(_: NoMemory) -> Self {
        RunError::NoMemory
    }
}
