//! The accepted steps of a journal in a file store, from the first on, and what ends them.
#![tactic(auto)]

mod reading;
mod stop;
mod taking;

pub use reading::{Steps, accepted_steps};
pub use stop::Stop;
