//! What stands for a window when a model is sewn again: the model to which the accepted steps of the window's journal lead,
//! or the window itself.
#![tactic(auto)]

mod copying;
mod laws;
mod limits;
mod part;
mod presence;
mod refusal;
mod replaying;

pub use part::{Part, part_of};
pub use refusal::PartRefusal;
