//! The built-in example: a model of sixteen inputs and sixty covers that is drawn from a seed.
#![tactic(auto)]

mod draws;
mod laws;
mod model;
mod names;
mod parts;
#[cfg(test)]
mod tests;

pub use laws::demo_models_are_ready;
pub use model::demo_model;
