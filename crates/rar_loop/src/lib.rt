//! Removes wires by adding others: a sweep that fixes each refuted pin, and the loop that tries pairs of a pin and a wire (Entrena
//! and Cheng 1995).
#![tactic(auto)]

mod beginning;
mod candidates;
mod drawing;
mod exchanging;
mod laws;
mod limits;
mod optimising;
mod perturbing;
mod refuting;
mod removing;
mod seeking;
mod sweeping;
mod trying;
mod vectors;
mod walking;
mod workspace;

pub use laws::{run_begins, run_goes_on, worked_rows};
pub use optimising::optimise;
pub use perturbing::{Perturbed, perturb};
pub use removing::remove_redundant;
