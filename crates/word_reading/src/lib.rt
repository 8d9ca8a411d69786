//! The words of the command line: what they ask for, or that they ask for nothing.
#![tactic(auto)]

mod command;
mod option_values;
mod options;
mod positionals;
mod program;
mod reading;
mod requests;
mod window_names;

pub use command::{Command, UsageError};
pub use options::{
    LEAST_BUDGET, LEAST_WIDTH, LEAST_WORKERS, MOST_BUDGET, MOST_DEPTH, MOST_MERGE, MOST_PERTURB,
    MOST_SHIFT, MOST_TRIES, MOST_WIDTH, MOST_WORK, MOST_WORKERS, USUAL_BUDGET, USUAL_DEPTH,
    USUAL_MERGE, USUAL_PERTURB, USUAL_SHIFT, USUAL_TRIES, USUAL_WORK, USUAL_WORKERS,
};
pub use reading::read_words;
