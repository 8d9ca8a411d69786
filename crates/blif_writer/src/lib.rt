//! Writes a model as a text, one line for each command and each row.
#![tactic(auto)]

mod laws;
mod lines;
mod parts;
mod write;

pub use laws::{read_texts_are_faultless, written_texts_read};
pub use write::write_model;
