//! Vectors that may detect a stuck-at fault: drawn ones, and ones that complete what has to hold where it is detected.
#![tactic(auto)]

mod completing;
mod drawing;

pub use completing::{complete, completed_words};
pub use drawing::drawn_vectors;
