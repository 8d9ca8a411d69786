// Refusals of a journal, and an output that differs.
use crate::hints::say_hint;
use crate::message::Message;
use crate::parts::Part;
use crate::places::{line_at, place_of};
use rm_base::NoMemory;

/// The first bytes of a journal of version 2, which has no lines.
pub(crate) const JOURNAL_OF_BYTES: &[u8] = b"rambo 2\n";

const REASONS_OF_BYTES: [(&str, &str); 4] = [
    (
        "BadHeader",
        "the header isn't 'rambo 2', a budget from 1 to 1048576 and a count of records",
    ),
    ("BadRecord", "the bytes are no record"),
    (
        "Truncated",
        "the bytes end before the last record: the file was cut short",
    ),
    ("AfterEnd", "something follows the last record"),
];

const REASONS: [(&str, &str); 21] = [
    (
        "BadHeader",
        "the first line isn't 'rambo 1 BUDGET': another file, another version, or carriage returns",
    ),
    ("BadRecord", "the line is no record"),
    (
        "Truncated",
        "the text ends without 'end': the run didn't come to its end, or the file was cut short",
    ),
    ("AfterEnd", "something follows 'end'"),
    ("NoNode", "no node has that number"),
    ("WrongKind", "the node is of another kind"),
    ("NoPin", "the gate has no pin at that position"),
    ("Cycle", "the wire would close a cycle"),
    ("AlreadyPin", "the gate reads that node already"),
    ("RuleNotMet", "the local rule doesn't apply"),
    ("Full", "the netlist is at its greatest size"),
    (
        "BadLine",
        "an implication doesn't follow from what is known",
    ),
    ("NotClash", "no contradiction is known there"),
    ("NotQuiet", "the fault may still be observed"),
    (
        "BadSplit",
        "the case split is on a constant, or on a value that is known",
    ),
    (
        "Shape",
        "the refutation ends too early, or goes on too long",
    ),
    ("NotTidy", "a local rule still applies at the gate"),
    ("FaultMissing", "the next line should be that of the fault"),
    ("RecordExtra", "every fault has its line already"),
    ("VectorMisses", "the vector doesn't detect the fault"),
    (
        "SpentShort",
        "the search ended before its budget was used up",
    ),
];

fn reason_in(reasons: &[(&'static str, &'static str)], kind: &str) -> &'static str {
    for (word, reason) in reasons {
        if *word == kind {
            return reason;
        }
    }
    "the record is not accepted"
}

/// Why a journal is refused at this place.
pub(crate) fn reason_of(place: JournalPlace, kind: &str) -> &'static str {
    match place {
        JournalPlace::Record(_) if is_of_the_text(kind) => reason_in(&REASONS_OF_BYTES, kind),
        _ => reason_in(&REASONS, kind),
    }
}

fn is_of_the_text(kind: &str) -> bool {
    kind == "BadHeader" || kind == "BadRecord" || kind == "Truncated" || kind == "AfterEnd"
}

/// Where a journal is refused.
#[derive(Clone, Copy)]
pub(crate) enum JournalPlace {
    /// The line of a text, from 1.
    Line(u64),
    /// The record of a journal of bytes, from 1; 0 is its header.
    Record(u64),
}

/// A line or a record of the journal that is refused.
#[derive(Clone, Copy)]
pub(crate) struct RefusedLine<'a> {
    /// The name of the journal.
    pub(crate) name: &'a str,
    pub(crate) place: JournalPlace,
    /// The line, as far as it is known, or the first bytes of a journal of bytes.
    pub(crate) line: &'a [u8],
    pub(crate) kind: &'a str,
    /// What the run printed behind the kind.
    pub(crate) rest: &'a str,
}

fn say_place(message: Message, place: JournalPlace) -> Result<Message, NoMemory> {
    match place {
        JournalPlace::Line(number) => message.say(&[
            Part::Text(":"),
            Part::Number(number),
            Part::Text(": "),
        ]),
        JournalPlace::Record(0) => message.say(&[Part::Text(": header: ")]),
        JournalPlace::Record(number) => message.say(&[
            Part::Text(": record "),
            Part::Number(number),
            Part::Text(": "),
        ]),
    }
}

/// The kind of the refusal, with what the run printed behind it.
pub(crate) fn say_kind(message: Message, kind: &str, rest: &str) -> Result<Message, NoMemory> {
    let mut message = message.say(&[Part::Text(" ["), Part::Word(kind.as_bytes())])?;
    if !rest.is_empty() {
        message = message.say(&[Part::Text(" "), Part::Word(rest.as_bytes())])?;
    }
    message.say(&[Part::Text("]\n")])
}

// What helps where a journal is refused.
fn hint_of(refused: &RefusedLine<'_>) -> &'static str {
    if refused.kind == "Truncated" {
        "rambo replay IN JOURNAL NEW makes the steps that are there"
    } else if refused.kind == "BadHeader" && refused.line == JOURNAL_OF_BYTES {
        "the journal is of version 2 already"
    } else if is_of_the_text(refused.kind) {
        ""
    } else {
        "the journal belongs to another IN, or was changed after the run; run opt again"
    }
}

/// Why a line or a record of the journal is refused.
pub(crate) fn say_refused_line(
    message: Message,
    refused: &RefusedLine<'_>,
) -> Result<Message, NoMemory> {
    say_hint(say_refused(message, refused)?, hint_of(refused))
}

/// Where the journal is refused and why.
pub(crate) fn say_refused(
    message: Message,
    refused: &RefusedLine<'_>,
) -> Result<Message, NoMemory> {
    let message = message.say(&[Part::Word(refused.name.as_bytes())])?;
    let mut message = say_place(message, refused.place)?.say(&[
        Part::Red("error: "),
        Part::Text(reason_of(refused.place, refused.kind)),
    ])?;
    message = say_kind(message, refused.kind, refused.rest)?;
    if !refused.line.is_empty() && refused.line != JOURNAL_OF_BYTES {
        message = message.say(&[Part::Text("  "), Part::Word(refused.line), Part::Text("\n")])?;
    }
    Ok(message)
}

/// The byte at which the output differs, in the text of the output as far as it is known.
pub(crate) fn say_difference(
    message: Message,
    name: &str,
    text: &[u8],
    byte: u64,
) -> Result<Message, NoMemory> {
    let (line, column) = place_of(text, byte);
    let mut message = message.say(&[
        Part::Word(name.as_bytes()),
        Part::Text(":"),
        Part::Number(line),
        Part::Text(":"),
        Part::Number(u64::from(column)),
        Part::Text(": "),
        Part::Red("error: "),
        Part::Text("it differs from the netlist at the end of the journal, first at byte "),
        Part::Number(byte),
        Part::Text("\n"),
    ])?;
    if !text.is_empty() {
        message = message.point_at(line_at(text, line), column)?;
    }
    message.say(&[Part::Text("hint: OUT was edited, formatted, or written by another run\n")])
}
