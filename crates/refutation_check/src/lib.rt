//! The checker of refutation trees: a tree is accepted exactly where it is one, and else its first wrong item is named.
#![tactic(auto)]

mod account;
mod branches;
mod check;
mod checker;
mod forward;
mod kept;
pub mod laws;
mod premises;
mod reading;
mod refusals;
mod shape;
mod shorten;
mod shortening;
mod trail;

pub use check::check_tree;
pub use checker::TreeChecker;
pub use refusals::CheckRefusal;
pub use shorten::shorten_tree;
pub use shortening::Shortener;
