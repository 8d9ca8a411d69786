//! The net of a model: each needed cover as an Xor of its inputs or an Or of Ands of literals.
#![tactic(auto)]

mod bounds;
mod build;
mod count;
mod laws;
mod listing;
mod model_graph;
mod needed;
mod numbering;
mod parity;
mod plan;
mod spelling;
mod whole_count;

pub use bounds::is_small;
pub use laws::{
    decompositions_are_formed, decompositions_stand, needed_covers_are_taken,
    plain_nets_are_formed, plain_nets_stand, spelled_models_stay, wires_are_bounded, worked_rows,
};
pub use model_graph::{DecomposeRefusal, MOST_PINS, decompose};
pub use parity::parity_ending;
pub use spelling::spell;
pub use whole_count::count_wires;
