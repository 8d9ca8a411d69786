//! Few test patterns for the stuck-at faults of a net, out of many vectors that are known to detect them, and the text that
//! hands them on.
#![tactic(auto)]

mod assigning;
mod choosing;
mod classes;
mod compacting;
mod gathering;
mod grouping;
mod groups;
mod marking;
mod set;

pub use compacting::compact;
pub use set::TestSet;
