//! Facts, lines and trees: what refutes a fault, and why an accepted tree means that no assignment detects it. A fact is of a
//! node's value without the fault, of that with it, or of whether the two differ (Roth 1966).
#![tactic(auto)]

pub mod asking;
mod concluding;
pub mod detected;
pub mod equal_lines;
pub mod following;
mod held;
mod items;
pub mod laws;
pub mod pin_scans;
pub mod pins;
pub mod place_lines;
mod reasoning;
mod trees;
pub mod value_lines;

pub use concluding::{conclude, conclude_along, conclude_asked, conclude_marked};
pub use held::{FactSet, NodeFacts};
pub use items::{Form, Item, Shape};
pub use local_evaluation::{chains, site, worklist};
pub use reasoning::{Fact, Line};
pub use trees::{Tree, TreeBuilder};
