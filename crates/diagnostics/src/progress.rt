// How far a run has come.
ghost use Rattle.std.specs.Prelude.{IfOk};
ghost use Rattle.diagnostics.specs.Terminal.{IsTerminalText};

use crate::message::Message;
use crate::parts::Part;
use rm_base::NoMemory;
use std::alloc::Global;

/// What has been written to a journal, or searched, so far.
#[derive(Clone, Copy, Debug, PartialEq, Eq, Default)]
pub struct Progress {
    pub added: u64,
    pub fixed: u64,
    pub decided: u64,
    pub journal_bytes: u64,
    /// Batches of faults that workers have begun to search, of up to 64 each.
    pub batches: u64,
}

impl Progress {
    /// Counts a line that is added to the journal.
    pub fn count_line(&mut self, line: &[u8]) {
        self.journal_bytes = self.journal_bytes.saturating_add(line.len() as u64);
        if line.starts_with(b"add ") {
            self.added = self.added.saturating_add(1);
        } else if line.starts_with(b"fix ") {
            self.fixed = self.fixed.saturating_add(1);
        } else if line.starts_with(b"hit ") || line.starts_with(b"spent ") {
            self.decided = self.decided.saturating_add(1);
        }
    }
}

// What is known of the stage at which the run is.
fn say_stage(message: Message, progress: &Progress) -> Result<Message, NoMemory> {
    if progress.decided > 0 {
        return message.say(&[
            Part::Text("tests written: "),
            Part::Number(progress.decided),
        ]);
    }
    if progress.batches > 0 {
        return message.say(&[
            Part::Text("searching for tests, batch of faults "),
            Part::Number(progress.batches),
        ]);
    }
    if progress.added > 0 || progress.fixed > 0 {
        return message.say(&[
            Part::Text("wires added "),
            Part::Number(progress.added),
            Part::Text(", removed "),
            Part::Number(progress.fixed),
            Part::Text(", journal "),
            Part::Number(progress.journal_bytes / 1000),
            Part::Text(" kB"),
        ]);
    }
    if progress.journal_bytes > 0 {
        return message.say(&[
            Part::Text("written "),
            Part::Number(progress.journal_bytes / 1000),
            Part::Text(" kB"),
        ]);
    }
    message.say(&[Part::Text("reading")])
}

/// The line that a terminal shows while a run goes on. It has no line end, and fewer than 80 characters where no number is
/// above a billion.
pub fn progress_line(alloc: Global, seconds: u64, progress: &Progress) -> Result<Vec<u8>, NoMemory>
    ensures { IfOk result (λ v. IsTerminalText v.items) }
{
    let message = Message::new(alloc, false).say(&[
        Part::Text("rambo: "),
        Part::Number(seconds),
        Part::Text(" s, "),
    ])?;
    Ok(say_stage(message, progress)?.into_bytes())
}
