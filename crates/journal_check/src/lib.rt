//! Replaying a journal: each step is made where its tree justifies it, and each fault of the last net is settled.
#![tactic(auto)]

mod batches;
mod editing;
mod freezing;
mod laws;
mod refusal;
mod replaying;
mod settling;
mod showing;
mod state;
mod tracing;
mod trying;
mod whole;

pub use laws::{accepted_journals_tell, accepted_stand, records_replay, replays_accept};
pub use refusal::{JournalRefusal, Why};
pub use replaying::Replay;
pub use whole::replay;
