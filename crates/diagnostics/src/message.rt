// A message as it grows.
ghost use Rattle.std.specs.Prelude.{◌≡◌, ◌++◌, [], IfOk};
ghost use Rattle.diagnostics.specs.Excerpts.{excerpt};
ghost use Rattle.diagnostics.specs.Messages.{parts_text};
ghost use Rattle.diagnostics.specs.Terminal.{IsTerminalText};

use crate::excerpts::push_excerpt;
use crate::parts::{Part, push_parts};
use rm_base::NoMemory;
use std::alloc::Global;
use std::marker::Model;

/// A message, of which contracts see whether it has colours and its text so far. A text that a terminal is sent whole can't
/// move its cursor, change its modes or ask it anything.
#[derive(Drop)]
pub struct Message {
    colours: bool,
    text: Vec<u8>,
}

impl Model for Message {
    ghost use Rattle.diagnostics.specs.Messages.{Written, written_code};
    ghost use Rattle.diagnostics.specs.Terminal.{IsTerminalText};

    ghost Value = { Written };

    ghost coded = { written_code };

    ghost view = { λ m. record { colours = m.colours; text = m.text.items } };

    ghost invariant = { λ m. IsTerminalText m.text.items };
}

impl Message {
    /// The empty message. Colours are for a terminal alone.
    pub fn new(alloc: Global, colours: bool) -> Message
        ensures colours { result.colours ≡ colours }
        ensures text { result.text ≡ [] }
    {
        Message {
            colours,
            text: Vec::new(alloc),
        }
    }

    /// The message with these parts at its end.
    pub fn say(self, parts: &[Part<'_>]) -> Result<Message, NoMemory>
        ensures colours { IfOk result (λ m. m.colours ≡ self.colours) }
        ensures text { IfOk result (λ m. m.text ≡ self.text ++ parts_text self.colours parts.now) }
    {
        let colours = self.colours;
        let mut text = self.text;
        push_parts(&mut text, colours, parts)?;
        Ok(Message { colours, text })
    }

    /// The message with this line of a file at its end, and a mark below the column. Columns count from 1.
    #[tactic(auto, using(crate::proofs::TerminalTexts::of_excerpt))]
    pub fn point_at(self, line: &[u8], column: u32) -> Result<Message, NoMemory>
        ensures colours { IfOk result (λ m. m.colours ≡ self.colours) }
        ensures text { IfOk result (λ m. m.text ≡ self.text ++ excerpt self.colours line.now column) }
    {
        let colours = self.colours;
        let mut text = self.text;
        push_excerpt(&mut text, colours, line, column)?;
        Ok(Message { colours, text })
    }

    /// The bytes to be written.
    pub fn into_bytes(self) -> Vec<u8>
        ensures text { result.items ≡ self.text }
        ensures shown { IsTerminalText result.items }
    {
        self.text
    }
}
