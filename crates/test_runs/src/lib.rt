//! Runs for the tests of the commands: files in memory that are named by their texts, the run over them, what it puts and leaves,
//! rows of runs, and the texts of several rows.
#![tactic(auto)]

mod files;
mod rows;
mod running;
pub mod texts;

pub use files::{hold, holds, journal_of, repeat_part, shelf, shelf_of};
pub use rows::{Refused, end_all, refuse_all, refuse_lines};
pub use running::{ends, refuses, run_through, run_to_end};
