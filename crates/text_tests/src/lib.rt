//! Tests of the calls from text to model and back: devices, lines, models and their decomposition.
#![tactic(auto)]

#[cfg(test)]
mod cover_rows;
#[cfg(test)]
mod covers;
#[cfg(test)]
mod devices;
#[cfg(test)]
mod hierarchies;
#[cfg(test)]
mod lines;
#[cfg(test)]
mod models;
#[cfg(test)]
mod untidy_nets;
#[cfg(test)]
mod ways;
#[cfg(test)]
mod writing;
