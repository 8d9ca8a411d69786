//! Merges gates that always have the same value, or opposite ones, by accepted steps: fewer wires compute the same.
#![tactic(auto)]

mod beginning;
mod classes;
mod drawing;
mod effort;
mod equal_gates;
mod fixing;
mod joining;
mod refuting;
mod signatures;
mod space;
mod trying;
mod walking;

pub use drawing::{block_count, drawn_words};
pub use equal_gates::merge_equal;
