//! Tests of `opt`, and of the commands that read its journals: `check`, `replay`, `convert` and `tests`. Rows of words, files and what
//! comes of them.
#![tactic(auto)]

#[cfg(test)]
mod check_rows;
#[cfg(test)]
mod hostile_texts;
#[cfg(test)]
mod leaving;
#[cfg(test)]
mod merge_rows;
#[cfg(test)]
mod opt_rows;
#[cfg(test)]
mod parity_rows;
#[cfg(test)]
mod perturb_rows;
#[cfg(test)]
mod replay_rows;
#[cfg(test)]
mod step_rows;
#[cfg(test)]
mod tests_rows;
#[cfg(test)]
mod version_rows;
#[cfg(test)]
mod work_rows;
#[cfg(test)]
mod workers;
#[cfg(test)]
mod written_rows;
