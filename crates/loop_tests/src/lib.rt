//! Tests of the calls that change nets and tell of it: candidates, the addition loop, the closing pass, and journals.
#![tactic(auto)]

#[cfg(test)]
mod additions;
#[cfg(test)]
mod audits;
#[cfg(test)]
mod closings;
#[cfg(test)]
mod journals;
#[cfg(test)]
mod replays;
#[cfg(test)]
mod wires;
#[cfg(test)]
mod worked;
