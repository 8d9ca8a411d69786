//! What `rambo` writes on standard error, made of plain values: why words are refused, which file failed, where a text or a journal
//! is wrong, and what helps. No byte from outside reaches the terminal unescaped.
#![tactic(auto)]

mod commands;
mod comparisons;
mod drivers;
mod escaping;
mod excerpts;
mod explaining;
mod failures;
mod formats;
mod hints;
mod journals;
mod limits;
mod line_finder;
mod message;
mod notes;
mod outputs;
mod parts;
mod places;
mod printed;
mod progress;
mod proof_lines;
mod reading;
mod refusals;
mod text_faults;
mod usage;
mod windows;

pub use explaining::{Ending, Subject, SubjectPart, explanation, subject_of};
pub use failures::{Failure, Operation, Reason};
pub use line_finder::LineFinder;
pub use message::Message;
pub use notes::{closing_note, undecodable_word, warning};
pub use outputs::{Outputs, outputs_of};
pub use parts::Part;
pub use progress::{Progress, progress_line};
pub use windows::{is_window_journal, journals_prefix};
