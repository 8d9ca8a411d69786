//! Checking a journal and a written netlist against a model, over files.
#![tactic(auto)]

mod auditing;
mod compare;
mod expecting;
mod judge;
mod laws;
mod lines;
mod problem;
mod reading;
mod stage;
mod tally;
mod verdicts;

pub use auditing::{Audited, audit, audit_verdicts};
pub use laws::{long_journals_tell, problems_exclude};
pub use lines::{fault_line, netlist_line, refusal_line};
pub use problem::AuditProblem;
pub use verdicts::Verdicts;
