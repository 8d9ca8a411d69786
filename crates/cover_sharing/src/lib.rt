//! Sharing: covers that compute the same of the same names become one, over a model of any size.
#![tactic(auto)]

mod encoding;
mod kept_covers;
mod laws;
mod origin;
mod shared_model;
mod sharing;
mod standing;

pub use laws::{shared_models_agree, worked_rows};
pub use shared_model::share;
