//! Fixing a refuted pin inside a trial, and tidying: each step is recorded, and what it changes is noted.
#![tactic(auto)]

mod fixing;
mod tidying;

pub use fixing::fix_and_tidy;
pub use tidying::{push_local, tidy};
