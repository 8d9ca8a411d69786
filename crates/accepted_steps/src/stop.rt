// What ends the steps of a journal.
ghost use Rattle.std.specs.Prelude.{◌≡◌};
ghost use Rattle.accepted_steps.specs.Inner.Stops.{stop_of};

use journal_check::JournalRefusal;
use journal_reading::JournalFault;
use std::fmt;

/// Why the accepted steps of a journal end before a verdict and before its end: what `check` finds there. Neither carries
/// want of memory.
#[derive(Clone, Copy, Debug, PartialEq, Eq)]
pub enum Stop {
    /// The text has a fault.
    Text { fault: JournalFault },
    /// A record isn't accepted.
    Refused { refusal: JournalRefusal },
}

impl fmt::Display for Stop {
    fn fmt<W: fmt::Write>(&self, f: &mut fmt::Formatter<W>) -> fmt::Result {
        match self {
            Stop::Text { fault } => write!(f, "journal, {fault}"),
            Stop::Refused { refusal } => write!(f, "journal, {refusal}"),
        }
    }
}

// What the steps end at: a verdict or the end of the journal, a record that is refused, or a fault of the text.
#[derive(Clone, Copy, Debug)]
pub(crate) enum Ended {
    AtVerdict,
    AtRefusal { refusal: JournalRefusal },
    AtFault { fault: JournalFault },
}

impl Ended {
    /// As it is told.
    pub(crate) fn stop(self) -> Option<Stop>
        ensures { result ≡ stop_of self }
    {
        match self {
            Ended::AtVerdict => None,
            Ended::AtRefusal { refusal } => Some(Stop::Refused { refusal }),
            Ended::AtFault { fault } => Some(Stop::Text { fault }),
        }
    }
}
