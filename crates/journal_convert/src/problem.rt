// Why a journal isn't converted.
ghost use Rattle.std.specs.Prelude.{◌≡◌};
ghost use Rattle.journal_convert.specs.Problems.{of_fault, of_piece};
ghost use Rattle.journal_convert.specs.declared.problem.ConvertProblem.TheVariants.{NoMemory as Wanting};

use file_pieces::PieceProblem;
use journal_text::JournalFault;
use rm_base::NoMemory;
use std::error::Error;
use std::fmt;

/// Why a journal isn't converted. `Text` doesn't carry want of memory.
#[derive(Clone, Copy, Debug, PartialEq, Eq)]
pub enum ConvertProblem {
    /// A call of the store has failed.
    Failed,
    /// The file isn't there.
    Missing,
    /// The file has more than 2^62 bytes.
    TooLong,
    /// The text isn't a journal of version 1.
    Text { fault: JournalFault },
    NoMemory,
}

impl fmt::Display for ConvertProblem {
    fn fmt<W: fmt::Write>(&self, f: &mut fmt::Formatter<W>) -> fmt::Result {
        match self {
            ConvertProblem::Failed => f.write_str("a file couldn't be read"),
            ConvertProblem::Missing => f.write_str("there is no such file"),
            ConvertProblem::TooLong => f.write_str("the journal is too long"),
            ConvertProblem::Text { fault } => write!(f, "journal, {fault}"),
            ConvertProblem::NoMemory => f.write_str("out of memory"),
        }
    }
}

impl Error for ConvertProblem {}

impl From<PieceProblem> for ConvertProblem {
    ghost from_gives = { λ e p. p ≡ of_piece e };

    fn from(problem: PieceProblem) -> Self {
        match problem {
            PieceProblem::Failed => ConvertProblem::Failed,
            PieceProblem::Missing => ConvertProblem::Missing,
            PieceProblem::TooLong => ConvertProblem::TooLong,
            PieceProblem::NoMemory => ConvertProblem::NoMemory,
        }
    }
}

impl From<JournalFault> for ConvertProblem {
    ghost from_gives = { λ e p. p ≡ of_fault e };

    fn from(fault: JournalFault) -> Self {
        match fault {
            JournalFault::BadHeader { .. }
            | JournalFault::BadRecord { .. }
            | JournalFault::Truncated { .. }
            | JournalFault::AfterEnd { .. } => ConvertProblem::Text { fault },
            JournalFault::NoMemory => ConvertProblem::NoMemory,
        }
    }
}

impl From<NoMemory> for ConvertProblem {
    ghost from_gives = { λ _ p. p ≡ Wanting };

    fn from(_: NoMemory) -> Self {
        ConvertProblem::NoMemory
    }
}
