//! Whether two models compute the same: their miter, whose one fault is detected exactly where they differ, and what decides it.
#![tactic(auto)]

mod building;
mod deciding;
pub mod laws;
mod likeness;
mod places;
mod proof_text;
mod refusal;

pub use building::miter;
pub use deciding::decide;
pub use likeness::Likeness;
pub use proof_text::{difference_line, write_proof};
pub use refusal::MiterRefusal;
