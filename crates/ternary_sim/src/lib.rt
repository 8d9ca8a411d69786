//! Three-valued simulation of a net and of a stuck-at fault on it: what follows forward from the sources that are known, each node
//! having a value without the fault and one with it (the D-calculus: Roth 1966).
#![tactic(auto)]

mod beginning;
pub mod laws;
mod marks;
mod reading;
mod region;
mod settling;
mod simulator;
mod table;
mod tracker;
mod trail;

pub use marks::{NodeMarks, Reading};
pub use region::Region;
pub use simulator::Sim;
pub use tracker::Tracker;
