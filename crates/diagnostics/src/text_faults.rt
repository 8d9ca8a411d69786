// Faults of a netlist's text.
use crate::drivers::{Spelling, first_driver};
use crate::formats::format_of;
use crate::hints::{kind_of, say_hint, word_hint};
use crate::message::Message;
use crate::parts::Part;
use crate::places::{line_at, word_at};
use rm_base::{NoMemory, Place};
use std::alloc::Global;

/// A fault as the run printed it, and the text in which it is.
#[derive(Clone, Copy)]
pub(crate) struct TextFault<'a> {
    pub(crate) name: &'a str,
    pub(crate) text: &'a [u8],
    pub(crate) place: Place,
    pub(crate) kind: &'a str,
}

fn say_place(message: Message, name: &str, place: Place) -> Result<Message, NoMemory> {
    message.say(&[
        Part::Word(name.as_bytes()),
        Part::Text(":"),
        Part::Number(u64::from(place.line)),
        Part::Text(":"),
        Part::Number(u64::from(place.column)),
        Part::Text(": "),
    ])
}

// What is wrong, with the word that stands there where that says more.
fn say_kind(message: Message, word: &[u8], kind: &str) -> Result<Message, NoMemory> {
    let rule = kind_of(kind, word);
    let mut message = message.say(&[Part::Red("error: "), Part::Text(rule.before)])?;
    if rule.quotes {
        message = message.say(&[Part::Text("'"), Part::Word(word), Part::Text("'")])?;
    }
    message.say(&[
        Part::Text(rule.after),
        Part::Text(" ["),
        Part::Word(kind.as_bytes()),
        Part::Text("]\n"),
    ])
}

fn is_before(place: Place, other: Place) -> bool {
    place.line < other.line || (place.line == other.line && place.column < other.column)
}

// Where the name is driven first.
fn say_first_driver(
    alloc: Global,
    message: Message,
    fault: &TextFault<'_>,
    word: &[u8],
) -> Result<Message, NoMemory> {
    match first_driver(alloc, fault.text, word, Spelling::Same, fault.place) {
        Some((place, _)) if is_before(place, fault.place) => say_place(
            message, fault.name, place,
        )?.say(&[Part::Text("note: it is driven here first\n")]),
        _ => Ok(message),
    }
}

// A driver whose name differs in upper and lower case alone.
fn say_other_case(
    alloc: Global,
    message: Message,
    fault: &TextFault<'_>,
    word: &[u8],
) -> Result<Message, NoMemory> {
    match first_driver(alloc, fault.text, word, Spelling::OtherCase, fault.place) {
        Some((place, found)) => say_place(message, fault.name, place)?.say(&[
            Part::Text("note: '"),
            Part::Word(found),
            Part::Text("' is driven here; upper and lower case differ\n"),
        ]),
        None => Ok(message),
    }
}

fn say_note(
    alloc: Global,
    message: Message,
    fault: &TextFault<'_>,
    word: &[u8],
) -> Result<Message, NoMemory> {
    if fault.kind == "DoubleDriven" {
        say_first_driver(alloc, message, fault, word)
    } else if fault.kind == "Undriven" {
        say_other_case(alloc, message, fault, word)
    } else {
        Ok(message)
    }
}

// The fault of a text that is in another format.
fn say_format(
    message: Message,
    fault: &TextFault<'_>,
    line: &[u8],
) -> Result<Option<Message>, NoMemory> {
    let rest = line
        .get((fault.place.column.saturating_sub(1) as usize)..)
        .unwrap_or(&[]);
    let Some(format) = format_of(fault.text).or(format_of(rest)) else {
        return Ok(None);
    };
    let message = say_place(message, fault.name, fault.place)?.say(&[
        Part::Red("error: "),
        Part::Text(format.name),
        Part::Text(" ["),
        Part::Word(fault.kind.as_bytes()),
        Part::Text("]\nhint: "),
        Part::Text(format.hint),
        Part::Text("\n"),
    ])?;
    Ok(Some(message))
}

fn may_be_another_format(kind: &str) -> bool {
    kind == "NoModel" || kind == "BadByte" || kind == "OpenJoin"
}

/// The fault with its line and a mark below its column.
pub(crate) fn say_text_fault(
    alloc: Global,
    colours: bool,
    fault: &TextFault<'_>,
) -> Result<Message, NoMemory> {
    let line = line_at(fault.text, u64::from(fault.place.line));
    if may_be_another_format(fault.kind)
        && let Some(message) = say_format(Message::new(alloc, colours), fault, line)?
    {
        return Ok(message);
    }
    let word = word_at(line, fault.place.column);
    let message = say_place(Message::new(alloc, colours), fault.name, fault.place)?;
    let mut message = say_kind(message, word, fault.kind)?;
    if !fault.text.is_empty() {
        message = message.point_at(line, fault.place.column)?;
    }
    let message = say_note(alloc, message, fault, word)?;
    say_hint(message, word_hint(fault.kind, word))
}
