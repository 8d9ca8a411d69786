//! The net to which accepted steps lead, up to where it has the fewest wires, and tidied.
#![tactic(auto)]

mod beginning;
mod choosing;
mod making;
mod rebuilding;
mod tidying;

pub use rebuilding::{Rebuilt, rebuild};
