//! Looks at gates: what follows from what is known of their pins, what they reach, the gates through which all of that goes
//! (dominators: Kirkland and Mercer 1987), and the nodes that are to be looked at.
#![tactic(auto)]

pub mod chains;
pub mod drivers;
pub mod laws;
pub mod pin_scans;
pub mod pin_walk;
pub mod pins;
mod reaching;
pub mod site;
pub mod worklist;
