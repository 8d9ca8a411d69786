//! Journals in version 2: their bytes, and reading them as they come.
#![tactic(auto)]

mod faults;
mod fronts;
mod items;
mod laws;
mod openings;
mod parts;
mod putting;
mod reader;
mod records;

pub use faults::BinaryFault;
pub use laws::{bodies_are_one, bytes_read, cuts_agree, faults_are_one};
pub use reader::BinaryReader;
pub use records::write_binary;
