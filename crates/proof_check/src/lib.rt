//! The checker of the proofs of `equal`, without search: a text is accepted exactly where it is that of evidence on the two models.
#![tactic(auto)]

mod judging;
pub mod laws;
mod refusal;
mod stepping;
mod trees;
mod vectors;
mod weighing;

pub use judging::{Judged, judge};
pub use refusal::JudgeRefusal;
