// Verdicts, and the work of finding them.
use podem::Verdict;

/// Verdicts of faults, in order, and how many units of work they took.
#[derive(Drop)]
pub(crate) struct Answers {
    pub(crate) verdicts: Vec<Verdict>,
    pub(crate) work: u64,
}
