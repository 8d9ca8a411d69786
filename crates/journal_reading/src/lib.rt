//! Reading journals of either version: their entries as the bytes come, and what is wrong with a text that is none.
#![tactic(auto)]

mod faults;
mod gathering;
mod laws;
mod read;
mod reader;

pub use faults::{JournalFault, Version};
pub use gathering::{Gathered, gather};
pub use laws::{cuts_agree, faults_are_one, journals_are_one, places_tell};
pub use read::read_journal;
pub use reader::JournalReader;
