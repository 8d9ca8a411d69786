//! Refutes a fault by learning, to a depth of at most 2, what all justifications of a gate have in common (Kunz and Pradhan,
//! Recursive learning, IEEE Transactions on CAD, 1994).
#![tactic(auto)]

mod adding;
mod bodies;
pub mod detected;
mod gates;
mod good_nodes;
mod justified_values;
pub mod laws;
mod learning;
pub mod refuter;
mod refuting;
mod resting;
mod telling;
mod turning;
mod watch;
mod writing;

pub use refuting::refute;
