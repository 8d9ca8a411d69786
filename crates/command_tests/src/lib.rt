//! Tests of the commands beside `opt`: `equal`, `judge`, `optcare`, `cut`, `sew`, `flat` and `demo`; and of what all commands share,
//! which is words and texts that are refused, limits, and calls that fail. Rows of words, files and what comes of them.
#![tactic(auto)]

#[cfg(test)]
mod care_rows;
#[cfg(test)]
mod cut_rows;
#[cfg(test)]
mod demo_rows;
#[cfg(test)]
mod equal_rows;
#[cfg(test)]
mod failing_calls;
#[cfg(test)]
mod flat_rows;
#[cfg(test)]
mod judge_rows;
#[cfg(test)]
mod limits;
#[cfg(test)]
mod refused_rows;
#[cfg(test)]
mod sew_rows;
