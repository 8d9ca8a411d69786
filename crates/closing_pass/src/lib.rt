//! The closing pass: a test, or a search that spent its budget, for each stuck-at fault of a net. A pin whose fault no
//! assignment detects is fixed on the way. The searches of a batch of faults run at once on one graph, which they share
//! for reading.
#![tactic(auto)]

mod answering;
mod answers;
mod batching;
mod choosing;
mod closing;
mod effort;
mod finding;
mod laws;
mod passing;
mod pieces;
mod recording;
mod report;
mod searching;
mod trying;
mod used;
mod verdicts;
mod words;

pub use batching::batch;
pub use closing::{close_before_tries, close_faults};
pub use laws::{closed_are_recordable, tidy_nets_have_sources};
pub use recording::write_verdicts;
pub use report::Report;
