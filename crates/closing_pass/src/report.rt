// What the closing pass tells.
use podem::Verdict;
use rm_base::Fault;

/// What a closing pass did and found: how many pins it fixed, how many other steps it made, and each fault of the net
/// that it left, by gate, position and value, with a vector that detects it or the tree of a search that spent its budget.
/// `found` has these vectors once more, a vector of several faults once, in the order in which they were found: blocks of
/// up to 64, with a word for each source.
#[derive(Debug, Drop)]
pub struct Report {
    pub fixed: u32,
    pub local: u64,
    pub verdicts: Vec<(Fault, Verdict)>,
    pub found: Vec<Vec<u64>>,
}
