//! Nets for the tests of the crates above the graph: tables and one loop that reads them, the nets that were worked by
//! hand, nets drawn from a seed, and which edits a net allows.
#![tactic(auto)]

mod building;
mod drawing;
mod editing;
mod faults;
#[cfg(test)]
mod tests;
mod wiring;
pub mod worked;

pub use building::NetBuilder;
pub use drawing::{Draws, add_drawn, drawn_net};
pub use editing::{few_nodes, is_live, may_edit, reserve_undos, try_edit};
pub use faults::fault_at;
pub use wiring::{Gate, Wiring, build, build_net};
