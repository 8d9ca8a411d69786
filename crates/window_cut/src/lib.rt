//! Windows of a model: its needed covers in a depth-first post-order, cut into runs of about the same weight, each a model of
//! its own.
#![tactic(auto)]

mod copies;
mod cutting;
mod laws;
mod ordered_places;
mod places;
mod walk;
mod weights;
mod window_inputs;
mod window_models;

pub use laws::{windows_are_models, windows_are_ordered, windows_fit_together, worked_rows};
pub use ordered_places::places_in_order;
pub use window_models::cut;
