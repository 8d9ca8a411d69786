//! The lines of a text: physical lines cut at comments and joined at backslashes, each with its tokens and their places.
#![tactic(auto)]

mod laws;
mod line;
mod reader;
mod scan;

pub use line::{LineFault, LogicalLine, Token};
pub use reader::LineReader;
