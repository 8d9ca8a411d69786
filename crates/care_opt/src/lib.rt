//! The passes that remove wires of a model which are redundant wherever another model, that says what values of the sources can come,
//! is 1. No wire is added.
#![tactic(auto)]

mod building;
mod closing;
mod done;
mod extracting;
mod gating;
mod laws;
mod listing;
mod optimising;
mod refusal;
mod refuting;
mod sweeping;
mod telling;
mod vectors;
mod working;

pub use done::CareDone;
pub use laws::extracts_keep_faults;
pub use optimising::optimise_care;
pub use refusal::CareRefusal;
