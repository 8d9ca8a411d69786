//! Journals of version 1 in a file store, as journals of version 2.
#![tactic(auto)]

mod converting;
mod problem;

pub use converting::{Converted, convert};
pub use problem::ConvertProblem;
