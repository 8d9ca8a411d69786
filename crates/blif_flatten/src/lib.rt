//! Makes one flat model of a text with several models that call each other.
#![tactic(auto)]

mod calls;
mod components;
mod drivers;
mod flattening;
mod interfaces;
mod laws;
mod lead;
mod line_faults;
mod links;
mod models;
mod modules;
mod paths;
mod pieces;
mod ranks;
mod reading;
mod recursion;
mod renaming;
mod rounds;
mod rows;
mod sections;
mod sides;
mod size;
mod uses;
mod walk;

pub use flattening::{Flattened, flatten_modules};
pub use laws::{flat_valuations, names_are_own, no_recursion};
pub use modules::{Link, Module, Pin};
pub use reading::{Flat, FlatRefusal, flatten};
pub use rows::worked_rows;
