//! The model of a tidy net, for writing.
#![tactic(auto)]

mod copies;
mod driven_names;
mod gates;
mod laws;
mod naming;
mod net_model;
mod places;
mod prefix;

pub use laws::{tidy_nets_have_models, tidy_nets_have_small_models, worked_rows};
pub use net_model::{ModelRefusal, model_of, model_of_tidy};
