//! Candidate wires of a fault, the pairs that the addition loop tries, which of them gain, and how tries are counted.
#![tactic(auto)]

mod adding;
mod candidate;
mod choosing;
mod drivers;
mod finder;
mod known;
pub mod laws;
mod listing;
mod node_set;
mod reaching;
mod targeting;

pub use adding::{added_pin, least_free};
pub use candidate::{Candidate, Outcome, Pair};
pub use finder::Finder;
pub use gate_graph::pin_count;
pub use listing::candidates;
pub use targeting::{control_of, targets, turn};
