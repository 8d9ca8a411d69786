//! The engine that closes a set of facts under every line of reasoning about a fault, exactly: implications of good and faulty
//! values (Roth 1966), through unique paths too (Fujiwara and Shimono 1983; Kirkland and Mercer 1987).
#![tactic(auto)]

pub mod basis;
mod beginning;
mod blocked_pin;
mod closing;
mod counts;
mod done_lines;
mod extending;
mod first_lines;
mod following;
mod found;
mod gate_lines;
pub mod laws;
mod log;
mod next_line;
mod opening;
mod outcome;
mod pin_line;
mod pulls;
mod settling;
mod side_line;
mod state;
mod sweeping;
mod tallied_lines;
mod tallies;

pub use outcome::Closed;
pub use state::Engine;
