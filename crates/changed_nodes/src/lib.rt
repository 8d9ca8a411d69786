//! The nodes that steps change: what simulates or refutes follows a net by them, in place of beginning anew.
#![tactic(auto)]

mod changes;

pub use changes::Changed;
