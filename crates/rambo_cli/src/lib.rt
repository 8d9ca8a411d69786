//! The commands of the program, in one call: what its words ask for, over the files, the output and the workers' gate that
//! it is handed.
#![tactic(auto)]

mod caring;
mod checking;
mod command;
mod comparing;
mod converting;
mod cutting;
mod flattening;
mod input_model;
mod judging;
mod laws;
mod lines;
mod optimising;
mod pairs;
mod problem;
mod proof_lines;
mod reading;
mod replaying;
mod showing;
mod stitching;
mod summary;
mod testing;
mod verdict;
mod work;

pub use command::run;
pub use laws::{kept_nets_fit, replays_are_written, runs_are_written};
pub use rm_model::NameKeys;
