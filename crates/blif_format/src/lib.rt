//! What the text format is: the grammar, the first fault of a text, and the written text of a model.
#![tactic(auto)]

mod laws;
mod refusal;
mod rows;
mod words;

pub use laws::reads_once;
pub use refusal::{FaultKind, Quantity, ReadRefusal};
pub use rows::worked_rows;
pub use words::{Command, Part, Role};
