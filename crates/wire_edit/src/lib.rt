//! Steps of a net: additions, fixes and local rules, their refusals, and the tidying order.
#![tactic(auto)]

mod again;
mod budget;
mod counts;
mod edits;
mod faults;
mod kept;
mod laws;
mod looks;
mod made;
mod refusal;
mod reserving;
mod room;
mod rules;
mod seen;
mod step_laws;
mod steps;
mod tidying;
mod touch;
mod trial;
mod worklist;

pub use laws::{
    answers_apply, order_tells, rollback_restores, room_suffices, steps_keep, tidying_ends,
    worked_rows,
};
pub use refusal::EditRefusal;
pub use room::Room;
pub use rules::{first_rule, first_rule_by};
pub use seen::Seen;
pub use step_laws::{answers_agree, fixes_lower, live_counted, steps_grow, tidying_leads};
pub use steps::{Rule, Step};
pub use trial::{BeginRefusal, Trial};
