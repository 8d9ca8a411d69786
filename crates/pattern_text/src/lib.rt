//! The text of test patterns for a model: its sources, the patterns, and for each stuck-at fault of a gate cover's input the
//! first pattern that detects it.
#![tactic(auto)]

mod counts;
mod faults;
mod lines;
mod text;

pub use counts::{Counts, count_tests, tests_line};
pub use text::tests_text;
