// What is written beside a run: notes, warnings and words that aren't text.
ghost use Rattle.std.specs.Prelude.{IfOk};
ghost use Rattle.diagnostics.specs.Terminal.{IsTerminalText};

use crate::failures::{host_words, role_of};
use crate::journals::{reason_of, say_kind};
use crate::message::Message;
use crate::parts::Part;
use crate::printed::{Printed, journal_place, number, printed_words};
use crate::reading::read_words;
use rm_base::NoMemory;
use std::alloc::Global;

// How many searches were cut short, by the last of the five lines.
fn cut_short(printed: &str) -> u64 {
    let Some((_, faults)) = printed.split_once("\nfaults ") else {
        return 0;
    };
    match faults.trim_end().split_once(' ') {
        Some((_, count)) => count.parse::<u64>().unwrap_or(0),
        None => 0,
    }
}

fn say_cut_short(message: Message, count: u64) -> Result<Message, NoMemory> {
    if count == 0 {
        return Ok(message);
    }
    message.say(&[
        Part::Text("rambo: note: "),
        Part::Number(count),
        Part::Text(
            " stuck-at faults have neither a test nor a proof; a larger --budget decides more of them\n",
        ),
    ])
}

// The line of which a second line `stopped ..` speaks, behind that word.
fn stop_of(printed: &str) -> Option<Printed<'_>> {
    let (_, line) = printed.split_once("\nstopped ")?;
    Some(printed_words(line))
}

// The place in a journal at which a replay stopped, as the run printed it.
fn say_stopping_place(message: Message, stop: &Printed<'_>) -> Result<Message, NoMemory> {
    let place = number(stop.third);
    if stop.second == "line" {
        message.say(&[Part::Text("line "), Part::Number(place)])
    } else if place == 0 {
        message.say(&[Part::Text("the header")])
    } else {
        message.say(&[Part::Text("record "), Part::Number(place)])
    }
}

// Why a replay stopped, and what can be done with what it wrote.
fn say_stop(message: Message, stop: &Printed<'_>) -> Result<Message, NoMemory> {
    let message = message.say(&[Part::Text("rambo: note: the replay stopped at ")])?;
    let message = say_stopping_place(message, stop)?.say(&[
        Part::Text(" of JOURNAL: "),
        Part::Text(reason_of(journal_place(stop, b""), stop.fourth)),
    ])?;
    say_kind(message, stop.fourth, stop.rest)?.say(&[Part::Text(
        "rambo: note: OUT is the netlist after the steps before that place; rambo opt OUT NEW goes on from there\n",
    )])
}

/// The note on searches that were cut short, or on a replay that stopped; nothing where neither is so.
pub fn closing_note(alloc: Global, printed: &str) -> Result<Vec<u8>, NoMemory>
    ensures { IfOk result (λ v. IsTerminalText v.items) }
{
    let mut message = say_cut_short(Message::new(alloc, false), cut_short(printed))?;
    if let Some(stop) = stop_of(printed) {
        message = say_stop(message, &stop)?;
    }
    Ok(message.into_bytes())
}

/// The warning that a file can't be written once the run comes to it, with what the host says.
pub fn warning<'a>(
    alloc: Global,
    colours: bool,
    words: &[String],
    name: &'a str,
    reason: &'a str,
) -> Result<Vec<u8>, NoMemory>
    ensures { IfOk result (λ v. IsTerminalText v.items) }
{
    let reading = read_words(alloc, words)?;
    let message = Message::new(alloc, colours).say(&[
        Part::Text("rambo: "),
        Part::Red("warning: "),
        Part::Text(role_of(&reading, name)),
        Part::Text(" '"),
        Part::Word(name.as_bytes()),
        Part::Text("': "),
        Part::Word(host_words(reason).as_bytes()),
        Part::Text("; the run will fail when it comes to write it\n"),
    ])?;
    Ok(message.into_bytes())
}

/// A word of the command line, counted from 1, that isn't UTF-8.
pub fn undecodable_word(
    alloc: Global,
    colours: bool,
    number: u64,
    word: &[u8],
) -> Result<Vec<u8>, NoMemory>
    ensures { IfOk result (λ v. IsTerminalText v.items) }
{
    let message = Message::new(alloc, colours).say(&[
        Part::Text("rambo: "),
        Part::Red("error: "),
        Part::Text("word "),
        Part::Number(number),
        Part::Text(" is not UTF-8: "),
        Part::Word(word),
        Part::Text("\n"),
    ])?;
    Ok(message.into_bytes())
}
