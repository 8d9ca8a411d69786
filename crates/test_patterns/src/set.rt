// What is made of the vectors.

/// The patterns, each the number of a vector, and for each fault in order the number of the pattern under which it stands,
/// which is the first to detect it; None where no vector is known for it. All numbers count from 0.
#[derive(Drop)]
pub(crate) struct Draft {
    pub(crate) patterns: Vec<usize>,
    pub(crate) firsts: Vec<Option<usize>>,
}

/// The patterns, each the number of a vector, and for each fault in order the number of the pattern under which it stands,
/// which is the first to detect it; None where no vector is known for it. All numbers count from 0. And for each fault
/// whether it is the last of its class of equivalent faults.
#[derive(Debug, Drop)]
pub struct TestSet {
    pub patterns: Vec<usize>,
    pub firsts: Vec<Option<usize>>,
    pub lasts: Vec<bool>,
}
