//! Decides most faults whose first search was cut short. It closes the facts under every line of reasoning after each split
//! on a value that is still to be justified (Roth 1966; Fujiwara and Shimono 1983). What it answers is checked: a vector is
//! simulated, and a tree is read by the checker.
#![tactic(auto)]

mod decider;
mod deciding;
mod frontier;
mod goals;
mod justifying;
mod looking;
mod reading;
mod telling;
mod waiting;
mod work;

pub use decider::Decider;
