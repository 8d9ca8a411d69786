//! The text of a journal: entries to lines and back, as a stream.
#![tactic(auto)]

mod append;
mod entries;
mod faults;
mod items;
mod keywords;
mod laws;
mod letters;
mod numbers;
mod operands;
mod pieces;
mod read;
mod reader;
mod reading;
mod record;
mod recording;
mod writing;

pub use append::{Stop, append_entry};
pub use faults::JournalFault;
pub use items::put_items;
pub use laws::{
    accepted_runs_are_writable, accepted_runs_keep, accepted_steps_keep, cuts_agree,
    faults_are_one, items_read, journals_are_one, lines_read, numbers_read, runs_join,
    texts_append, words_read,
};
pub use read::read_journal;
pub use reader::{Awaited, JournalReader};
pub use record::{Entry, Record};
pub use recording::{append_hit, append_records, append_spent, append_step, count_records};
pub use writing::write_entry;
