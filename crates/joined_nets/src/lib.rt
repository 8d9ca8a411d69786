//! Two nets side by side over the same sources, in one graph: the first keeps its numbers, and the gates of the second have the
//! next ones. Whoever compares two models, or puts one behind another, begins here.
#![tactic(auto)]

mod appending;
mod copying;
mod decomposing;
mod names;

pub use appending::add_last;
pub use copying::{copy_both, moved, moved_all};
pub use decomposing::{ordered_decomposition, plain_decomposition};
pub use names::first_difference;
