//! Sewing: a model whose windows are replaced by models of the same function.
#![tactic(auto)]

mod laws;
mod lead;
mod renaming;
mod sewn_model;

pub use laws::{
    leads_are_least, parts_follow, windows_compose, windows_may_stay, wires_add_up, worked_rows,
};
pub use sewn_model::sew;
