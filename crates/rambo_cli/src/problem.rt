//! What keeps a run from ending with 0.
ghost use Rattle.std.specs.Prelude.{◌≡◌};
ghost use Rattle.rambo_cli.specs.Convert.{convert_problem, of_lines as fault_of_lines};
ghost use Rattle.rambo_cli.specs.Judge.{judge_problem, only_record};
ghost use Rattle.rambo_cli.specs.Problems.{audit_problem, piece_problem, status_of};
ghost use Rattle.rambo_cli.specs.Inner.Equal.{miter_problem};
ghost use Rattle.rambo_cli.specs.Inner.Optcare.{care_problem};
ghost use Rattle.rambo_cli.specs.Inner.Problems.{run_error_problem, outside_problem, read_problem, stop_problem, word_problem};
ghost use Rattle.rambo_cli.specs.declared.problem.Problem.TheVariants as problem;

use accepted_steps::Stop as StepsStop;
use blif_format::{FaultKind, Quantity, ReadRefusal};
use care_opt::CareRefusal;
use equal_miter::MiterRefusal;
use file_pieces::PieceProblem;
use journal_audit::AuditProblem;
use journal_check::{JournalRefusal, Why};
use journal_convert::ConvertProblem;
use journal_reading::{JournalFault, Version};
use journal_text::{JournalFault as LineFault, Stop};
use optimisation::RunError;
use proof_check::JudgeRefusal;
use rm_base::outside::OutsideFault;
use rm_base::{NoMemory, Place};
use word_reading::UsageError;

/// What is found of a text.
#[derive(Clone, Copy, Debug, PartialEq, Eq)]
pub enum TextProblem {
    /// The text has a fault.
    Fault { kind: FaultKind, place: Place },
    /// Something is over its limit.
    Limit { quantity: Quantity, count: u64 },
}

impl TextProblem {
    fn status(&self) -> u8
        ensures { result ≡ status_of (problem.Second self.now) }
    {
        match *self {
            TextProblem::Fault { kind: _, place: _ } => 1,
            TextProblem::Limit {
                quantity: _,
                count: _,
            } => 5,
        }
    }
}

/// A list of names that two models have to share.
#[derive(Clone, Copy, Debug, PartialEq, Eq)]
pub enum NameList {
    /// Inputs, clocks and latch outputs.
    Sources,
    /// Outputs, latch inputs and controls.
    Observed,
}

/// The first flaw of a proof that is judged.
#[derive(Clone, Copy, Debug, PartialEq, Eq)]
pub enum ProofProblem {
    /// The text is no proof, at a line of it.
    Text { fault: LineFault },
    /// A line of its evidence isn't accepted.
    Record { refusal: JournalRefusal },
    /// This line of its evidence, counted from 1, is no step.
    NoStep { number: u64 },
    /// All steps are accepted, and the last net doesn't observe the constant One alone.
    NotOne,
}

#[derive(Clone, Copy, Debug, PartialEq, Eq)]
pub enum Problem {
    /// The words ask for no command.
    Words,
    /// The text has a fault.
    Text { kind: FaultKind, place: Place },
    /// Something is over its limit.
    Limit { quantity: Quantity, count: u64 },
    /// A file that is to be read isn't there.
    Missing,
    /// A call of the shelf has failed.
    Fault,
    /// The text of the journal has a fault.
    Journal { fault: JournalFault },
    /// A record of the journal isn't accepted.
    Record { refusal: JournalRefusal },
    /// The output differs at this byte from the text of the last net.
    Netlist { byte: u64 },
    /// This is found of the second text.
    Second { found: TextProblem },
    /// The lists of names of two models differ first at this place, counted from 1.
    Unlike { list: NameList, at: u32 },
    /// The second model, which is to say what is cared for, has more or fewer outputs than one, or latches.
    CareShape,
    /// The journal of the window of this number, from 1 on, isn't accepted to its end: this ends its accepted steps.
    Window { number: u64, stop: StepsStop },
    /// The proof isn't accepted.
    Proof { found: ProofProblem },
    Memory,
}

impl Problem {
    /// The status of the run.
    pub fn status(&self) -> u8
        ensures { result ≡ status_of self.now }
    {
        match *self {
            Problem::Words => 2,
            Problem::Text { kind: _, place: _ } => 1,
            Problem::Limit {
                quantity: _,
                count: _,
            } => 5,
            Problem::Missing => 3,
            Problem::Fault => 3,
            Problem::Journal { fault: _ } => 6,
            Problem::Record { refusal: _ } => 6,
            Problem::Netlist { byte: _ } => 6,
            Problem::Second { found } => found.status(),
            Problem::Unlike { list: _, at: _ } => 9,
            Problem::CareShape => 9,
            Problem::Window { number: _, stop: _ } => 6,
            Problem::Proof { found: _ } => 6,
            Problem::Memory => 4,
        }
    }
}

impl From<OutsideFault> for Problem {
    ghost from_gives = { λ e p. p ≡ outside_problem e };

    fn from(fault: OutsideFault) -> Self {
        match fault {
            OutsideFault::Failed => Problem::Fault,
            OutsideFault::NoMemory => Problem::Memory,
        }
    }
}

impl From<ReadRefusal> for Problem {
    ghost from_gives = { λ e p. p ≡ read_problem e };

    fn from(refusal: ReadRefusal) -> Self {
        match refusal {
            ReadRefusal::Fault { kind, place } => Problem::Text { kind, place },
            ReadRefusal::Limit {
                quantity,
                count,
                place: _,
            } => Problem::Limit { quantity, count },
            ReadRefusal::NoMemory => Problem::Memory,
        }
    }
}

impl From<RunError> for Problem {
    ghost from_gives = { λ e p. p ≡ run_error_problem e };

    fn from(run_error: RunError) -> Self {
        match run_error {
            RunError::Limit { pins } => Problem::Limit {
                quantity: Quantity::Pins,
                count: pins,
            },
            RunError::Failed => Problem::Fault,
            RunError::NoMemory => Problem::Memory,
        }
    }
}

impl From<AuditProblem> for Problem {
    ghost from_gives = { λ e p. p ≡ audit_problem e };

    fn from(problem: AuditProblem) -> Self {
        match problem {
            AuditProblem::Fault => Problem::Fault,
            AuditProblem::NoJournal => Problem::Missing,
            AuditProblem::NoOutput => Problem::Missing,
            AuditProblem::TooLong => Problem::Limit {
                quantity: Quantity::Journal,
                count: 4_611_686_018_427_387_905,
            },
            AuditProblem::Text { fault } => Problem::Journal { fault },
            AuditProblem::Refused { refusal } => Problem::Record { refusal },
            AuditProblem::Netlist { byte } => Problem::Netlist { byte },
            AuditProblem::NoMemory => Problem::Memory,
        }
    }
}

impl From<PieceProblem> for Problem {
    ghost from_gives = { λ e p. p ≡ piece_problem e };

    fn from(problem: PieceProblem) -> Self {
        match problem {
            PieceProblem::Failed => Problem::Fault,
            PieceProblem::Missing => Problem::Missing,
            PieceProblem::TooLong => Problem::Limit {
                quantity: Quantity::Journal,
                count: 4_611_686_018_427_387_905,
            },
            PieceProblem::NoMemory => Problem::Memory,
        }
    }
}

// A fault of a journal of version 1 among those of either version.
fn of_lines(fault: LineFault) -> JournalFault
    ensures { result ≡ fault_of_lines fault }
{
    let version = Version::One;
    match fault {
        LineFault::BadHeader { line } => JournalFault::BadHeader {
            version,
            number: line,
        },
        LineFault::BadRecord { line } => JournalFault::BadRecord {
            version,
            number: line,
        },
        LineFault::Truncated { line } => JournalFault::Truncated {
            version,
            number: line,
        },
        LineFault::AfterEnd { line } => JournalFault::AfterEnd {
            version,
            number: line,
        },
        LineFault::NoMemory => JournalFault::NoMemory,
    }
}

impl From<ConvertProblem> for Problem {
    ghost from_gives = { λ e p. p ≡ convert_problem e };

    fn from(problem: ConvertProblem) -> Self {
        match problem {
            ConvertProblem::Failed => Problem::Fault,
            ConvertProblem::Missing => Problem::Missing,
            ConvertProblem::TooLong => Problem::Limit {
                quantity: Quantity::Journal,
                count: 4_611_686_018_427_387_905,
            },
            ConvertProblem::Text { fault } => Problem::Journal {
                fault: of_lines(fault),
            },
            ConvertProblem::NoMemory => Problem::Memory,
        }
    }
}

impl From<MiterRefusal> for Problem {
    ghost from_gives = { λ e p. p ≡ miter_problem e };

    fn from(refusal: MiterRefusal) -> Self {
        match refusal {
            MiterRefusal::UnlikeSources { at } => Problem::Unlike {
                list: NameList::Sources,
                at,
            },
            MiterRefusal::UnlikeObserved { at } => Problem::Unlike {
                list: NameList::Observed,
                at,
            },
            MiterRefusal::Limit {
                second: false,
                pins,
            } => Problem::Limit {
                quantity: Quantity::Pins,
                count: pins,
            },
            MiterRefusal::Limit { second: true, pins } => Problem::Second {
                found: TextProblem::Limit {
                    quantity: Quantity::Pins,
                    count: pins,
                },
            },
            MiterRefusal::NoMemory => Problem::Memory,
        }
    }
}

// A tree or a vector that is refused, as the refusal of the first record.
fn only_record(why: Why) -> JournalRefusal
    ensures { result ≡ only_record why }
{
    JournalRefusal { number: 1, why }
}

// The flaw of a proof, or what else keeps it from being accepted.
fn judge_problem(refusal: JudgeRefusal) -> Problem
    ensures { result ≡ judge_problem refusal }
{
    let found = match refusal {
        JudgeRefusal::UnlikeSources { at } => {
            return Problem::Unlike {
                list: NameList::Sources,
                at,
            };
        }
        JudgeRefusal::UnlikeObserved { at } => {
            return Problem::Unlike {
                list: NameList::Observed,
                at,
            };
        }
        JudgeRefusal::Text(fault) => ProofProblem::Text { fault },
        JudgeRefusal::NoStep { number } => ProofProblem::NoStep { number },
        JudgeRefusal::Record(refusal) => ProofProblem::Record { refusal },
        JudgeRefusal::NotOne => ProofProblem::NotOne,
        JudgeRefusal::Tree(refusal) => ProofProblem::Record {
            refusal: only_record(Why::Tree(refusal)),
        },
        JudgeRefusal::VectorMisses => ProofProblem::Record {
            refusal: only_record(Why::VectorMisses),
        },
        JudgeRefusal::SpentShort { edges, budget } => ProofProblem::Record {
            refusal: only_record(Why::SpentShort { edges, budget }),
        },
        JudgeRefusal::NoMemory => return Problem::Memory,
    };
    Problem::Proof { found }
}

impl From<JudgeRefusal> for Problem {
    ghost from_gives = { λ e p. p ≡ judge_problem e };

    fn from(refusal: JudgeRefusal) -> Self {
        judge_problem(refusal)
    }
}

impl From<CareRefusal> for Problem {
    ghost from_gives = { λ e p. p ≡ care_problem e };

    fn from(refusal: CareRefusal) -> Self {
        match refusal {
            CareRefusal::Shape => Problem::CareShape,
            CareRefusal::UnlikeSources { at } => Problem::Unlike {
                list: NameList::Sources,
                at,
            },
            CareRefusal::Limit {
                second: false,
                pins,
            } => Problem::Limit {
                quantity: Quantity::Pins,
                count: pins,
            },
            CareRefusal::Limit { second: true, pins } => Problem::Second {
                found: TextProblem::Limit {
                    quantity: Quantity::Pins,
                    count: pins,
                },
            },
            CareRefusal::NoMemory => Problem::Memory,
        }
    }
}

impl From<Stop> for Problem {
    ghost from_gives = { λ e p. p ≡ stop_problem e };

    fn from(stop: Stop) -> Self {
        match stop {
            Stop::Failed => Problem::Fault,
            Stop::NoMemory => Problem::Memory,
        }
    }
}

impl From<UsageError> for Problem {
    ghost from_gives = { λ e p. p ≡ word_problem e };

    fn from(fault: UsageError) -> Self {
        match fault {
            UsageError::Refused => Problem::Words,
            UsageError::NoMemory => Problem::Memory,
        }
    }
}

impl From<NoMemory> for Problem {
    ghost from_gives = { λ _ p. p ≡ problem.Memory };

    fn from(_: NoMemory) -> Self {
        Problem::Memory
    }
}
