//! The windows that are cut of a model can be sewn, also where its equal covers are merged before the cut.
#![tactic(auto)]

mod laws;

pub use laws::{
    cuts_can_be_sewn, cuts_compose, shared_windows_compose, shared_windows_stand_alone,
};
