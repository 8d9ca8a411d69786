// Refusals of a proof on two netlists.
use crate::hints::say_hint;
use crate::journals::{JOURNAL_OF_BYTES, JournalPlace, reason_of, say_kind};
use crate::message::Message;
use crate::parts::Part;
use rm_base::NoMemory;

// What a proof can be refused for, where that isn't as for a journal.
const REASONS: [(&str, &str); 7] = [
    (
        "BadHeader",
        "the first line isn't 'rambo-equal 1 BUDGET' or 'rambo-equal 2 BUDGET': another file, another version, or carriage returns",
    ),
    ("BadRecord", "the line is none that a proof may have there"),
    (
        "Truncated",
        "the text ends before its last line is whole: the file was cut short",
    ),
    ("AfterEnd", "something follows the last line"),
    ("NoStep", "the record is no step"),
    (
        "VectorMisses",
        "the netlists have the same values under the vector, or it hasn't one bit for each source",
    ),
    ("NotOne", "the steps don't make the miter the constant One"),
];

fn reason(kind: &str) -> &'static str {
    for (word, reason) in &REASONS {
        if *word == kind {
            return reason;
        }
    }
    reason_of(JournalPlace::Line(1), kind)
}

/// A proof that is refused.
#[derive(Clone, Copy)]
pub(crate) struct RefusedProof<'a> {
    /// The name of the proof.
    pub(crate) name: &'a str,
    /// The number of the line, from 1, or none where the steps together are refused.
    pub(crate) number: Option<u64>,
    /// The line, as far as it is known.
    pub(crate) line: &'a [u8],
    pub(crate) kind: &'a str,
    /// What the run printed behind the kind.
    pub(crate) rest: &'a str,
}

fn say_place(message: Message, number: Option<u64>) -> Result<Message, NoMemory> {
    match number {
        Some(number) => message.say(&[Part::Text(":"), Part::Number(number), Part::Text(": ")]),
        None => message.say(&[Part::Text(": ")]),
    }
}

// The line, where it is one of a text.
fn say_line(message: Message, line: &[u8]) -> Result<Message, NoMemory> {
    if line.is_empty() || line == JOURNAL_OF_BYTES {
        return Ok(message);
    }
    message.say(&[Part::Text("  "), Part::Word(line), Part::Text("\n")])
}

/// Why a proof is refused, at a line of it or as a whole.
pub(crate) fn say_refused_proof(
    message: Message,
    refused: &RefusedProof<'_>,
) -> Result<Message, NoMemory> {
    let message = message.say(&[Part::Word(refused.name.as_bytes())])?;
    let message = say_place(message, refused.number)?.say(&[
        Part::Red("error: "),
        Part::Text(reason(refused.kind)),
    ])?;
    let message = say_kind(message, refused.kind, refused.rest)?;
    let message = say_line(message, refused.line)?;
    say_hint(
        message,
        "the proof is of other netlists, or was changed; rambo equal writes it anew",
    )
}
