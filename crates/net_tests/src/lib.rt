//! Tests of the calls on nets: the pool of pins, trials and their steps, and simulation.
#![tactic(auto)]

#[cfg(test)]
mod lanes;
#[cfg(test)]
mod lent_trials;
#[cfg(test)]
mod parities;
#[cfg(test)]
mod plain_lists;
#[cfg(test)]
mod pools;
#[cfg(test)]
mod three_values;
#[cfg(test)]
mod trial_scripts;
#[cfg(test)]
mod trials;
#[cfg(test)]
mod wide_gates;
