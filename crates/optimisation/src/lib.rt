//! A whole run over one model: the header of the journal, rounds of additions and of closing passes, the verdicts on the
//! faults that remain, and the end of the journal.
#![tactic(auto)]

mod optimised;
mod rounds;
mod run_error;
mod stages;
mod turns;
mod whole;

pub use optimised::{Figures, Optimised};
pub use run_error::RunError;
pub use whole::optimised_model;
