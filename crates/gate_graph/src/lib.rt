//! A graph of gates over a pool of pins, its edits, and their undoing.
#![tactic(auto)]

mod copying;
mod counting;
mod editing;
mod fanout_iter;
mod faults;
mod growing;
mod input_iter;
mod ordering;
mod pins;
mod question;
mod reader_iter;
mod reading;
mod rings;
mod searching;
mod state;
mod undo_list;
mod undoing;

pub use editing::Edit;
pub use fanout_iter::Fanouts;
pub use faults::{faults_of, pin_count};
pub use input_iter::Inputs;
pub use question::Question;
pub use reader_iter::Readers;
pub use searching::Marks;
pub use state::{Graph, same_wiring};
pub use undo_list::{Undo, Undos};
