//! The evidence on whether two models compute the same: a tree, a vector, or steps that make their miter One; and the text of it.
#![tactic(auto)]

mod copying;
mod cutting;
mod evidence;
mod laws;
mod likenesses;
mod lines;
mod reading;
#[cfg(test)]
mod tests;
mod writing;

pub use evidence::{Evidence, StepRun};
pub use laws::{
    evidence_is_shown, likenesses_are_evidence, proofs_are_one, proofs_are_writable,
    swept_models_agree,
};
pub use reading::read_evidence;
pub use writing::write_evidence;
