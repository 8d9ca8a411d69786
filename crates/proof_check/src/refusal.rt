// Why a text isn't accepted as a proof.
ghost use Rattle.std.specs.Prelude.{◌≡◌};
ghost use Rattle.proof_check.specs.declared.refusal.JudgeRefusal.TheVariants as refusal;

use journal_check::JournalRefusal;
use journal_text::JournalFault;
use refutation_check::CheckRefusal;
use rm_base::NoMemory as WantOfMemory;
use std::error::Error;
use std::fmt;

/// Why a text isn't accepted as a proof on two models. The first that stands in this order is told, and out of memory may come
/// at any models and any text. None of `Text`, `Record` and `Tree` carries it.
#[derive(Clone, Copy, Debug, PartialEq, Eq)]
pub enum JudgeRefusal {
    /// The lists of sources differ, at this place from 1 first.
    UnlikeSources { at: u32 },
    /// The lists of observed names differ, at this place from 1 first.
    UnlikeObserved { at: u32 },
    /// The text is no proof, at a line of it: the first is no header, a later one is none that may come there, the text ends before
    /// the last line is whole, or a byte follows that line.
    Text(JournalFault),
    /// This record, counted from 1, is no step.
    NoStep { number: u64 },
    /// This record isn't accepted.
    Record(JournalRefusal),
    /// All steps are accepted, and the last net doesn't observe the constant One alone.
    NotOne,
    /// The tree isn't accepted, at an item.
    Tree(CheckRefusal),
    /// The vector hasn't one bit for each source, or the models have the same observed values under it.
    VectorMisses,
    /// The partial tree is accepted, and its edges aren't the budget.
    SpentShort { edges: u64, budget: u32 },
    NoMemory,
}

impl fmt::Display for JudgeRefusal {
    fn fmt<W: fmt::Write>(&self, f: &mut fmt::Formatter<W>) -> fmt::Result {
        match self {
            JudgeRefusal::UnlikeSources { at } => write!(f, "unlike sources {at}"),
            JudgeRefusal::UnlikeObserved { at } => write!(f, "unlike observed {at}"),
            JudgeRefusal::Text(fault) => write!(f, "{fault}"),
            JudgeRefusal::NoStep { number } => write!(f, "record {number}: no step"),
            JudgeRefusal::Record(refusal) => write!(f, "{refusal}"),
            JudgeRefusal::NotOne => f.write_str("the steps don't lead to the constant One"),
            JudgeRefusal::Tree(refusal) => write!(f, "the tree isn't accepted: {refusal}"),
            JudgeRefusal::VectorMisses => f.write_str("the vector doesn't tell the models apart"),
            JudgeRefusal::SpentShort { edges, budget } => write!(
                f,
                "the search has {edges} edges, and the budget is {budget}"
            ),
            JudgeRefusal::NoMemory => f.write_str("out of memory"),
        }
    }
}

impl Error for JudgeRefusal {}

impl From<WantOfMemory> for JudgeRefusal {
    ghost from_gives = { λ _ r. r ≡ refusal.NoMemory };

    fn from(_: WantOfMemory) -> Self {
        JudgeRefusal::NoMemory
    }
}
