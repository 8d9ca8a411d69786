//! Whether two models compute the same, by the plain question of their miter, or else by merging its equal gates.
#![tactic(auto)]

mod deciding;
mod drawing;
mod sweeping;

pub use deciding::decide_merging;
