// Why an audit isn't passed.
ghost use Rattle.std.specs.Prelude.{◌≡◌};
ghost use Rattle.journal_audit.specs.Problems.{outside_problem};
ghost use Rattle.journal_audit.specs.declared.problem.AuditProblem.TheVariants.{NoMemory as Wanting};

use journal_check::JournalRefusal;
use journal_reading::JournalFault;
use rm_base::{NoMemory, OutsideFault};
use std::error::Error;
use std::fmt;

/// Why an audit isn't passed. Neither `Text` nor `Refused` carries want of memory.
#[derive(Clone, Copy, Debug, PartialEq, Eq)]
pub enum AuditProblem {
    /// A call of the shelf has failed.
    Fault,
    /// The journal isn't there.
    NoJournal,
    /// The output isn't there.
    NoOutput,
    /// More than 2^62 bytes of the journal have neither a fault nor a refusal.
    TooLong,
    /// The text of the journal has a fault.
    Text { fault: JournalFault },
    /// A record of the journal isn't accepted, or its end isn't.
    Refused { refusal: JournalRefusal },
    /// The output isn't the text of the last net's model: the first byte, from 1, at which they differ or one has ended.
    Netlist { byte: u64 },
    NoMemory,
}

impl fmt::Display for AuditProblem {
    fn fmt<W: fmt::Write>(&self, f: &mut fmt::Formatter<W>) -> fmt::Result {
        match self {
            AuditProblem::Fault => f.write_str("a file couldn't be read"),
            AuditProblem::NoJournal => f.write_str("there is no journal"),
            AuditProblem::NoOutput => f.write_str("there is no output"),
            AuditProblem::TooLong => f.write_str("the journal is too long"),
            AuditProblem::Text { fault } => write!(f, "journal, {fault}"),
            AuditProblem::Refused { refusal } => write!(f, "journal, {refusal}"),
            AuditProblem::Netlist { byte } => write!(f, "the output differs at byte {byte}"),
            AuditProblem::NoMemory => f.write_str("out of memory"),
        }
    }
}

impl Error for AuditProblem {}

impl From<OutsideFault> for AuditProblem {
    ghost from_gives = { λ e p. p ≡ outside_problem e };

    fn from(fault: OutsideFault) -> Self {
        match fault {
            OutsideFault::Failed => AuditProblem::Fault,
            OutsideFault::NoMemory => AuditProblem::NoMemory,
        }
    }
}

impl From<NoMemory> for AuditProblem {
    ghost from_gives = { λ _ p. p ≡ Wanting };

    fn from(_: NoMemory) -> Self {
        AuditProblem::NoMemory
    }
}
