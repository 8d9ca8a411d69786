//! The devices of the host as the program uses them: the real files, standard output, and standard error with its messages and the
//! line that shows how far a run has come. No contract says what they hold.
#![tactic(auto)]

mod ahead;
mod failing;
mod files;
mod output;
mod reporting;
mod watch;

pub use ahead::warn_ahead;
pub use failing::Failed;
pub use files::FileShelf;
pub use output::StdoutSink;
pub use reporting::{report, report_undecodable};
pub use watch::{CountingGate, Watch};
