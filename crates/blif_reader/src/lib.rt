//! Reads a text as a model, or refuses it at its first fault.
#![tactic(auto)]

mod check;
mod draft;
mod laws;
mod model;
mod name_uses;
mod names;
mod read;
mod refusals;
mod rows;
mod words;

pub use check::check_word;
pub use draft::{cover_of, latch_of, push_names, row_of};
pub use laws::{faultless_texts_read, texts_keep_limits};
pub use model::read_model;
pub use names::check_length;
pub use refusals::{fault, limit};
pub use rows::{OpenCover, check_row, with_ending};
pub use words::{
    command_of, is_init, is_latch_type, is_text, is_unsupported, least_words, part_at, word_of,
};
