//! Tests of the calls that reason on faults: trees and their checker, the engine, learning, and the search for vectors.
#![tactic(auto)]

#[cfg(test)]
mod assignments;
#[cfg(test)]
mod engine;
#[cfg(test)]
mod facts;
#[cfg(test)]
mod learning;
#[cfg(test)]
mod searches;
#[cfg(test)]
mod tree_checks;
#[cfg(test)]
mod trees;
