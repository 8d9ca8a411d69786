// What a run that didn't end with 0 has to say, from the line that it printed.
ghost use Rattle.std.specs.Prelude.{IfOk};
ghost use Rattle.diagnostics.specs.Terminal.{IsTerminalText};

use crate::comparisons::{UnlikeLists, say_care_shape, say_differ, say_undecided, say_unlike};
use crate::failures::{Failure, say_failure};
use crate::journals::{RefusedLine, say_difference, say_refused, say_refused_line};
use crate::limits::say_limit;
use crate::message::Message;
use crate::parts::Part;
use crate::printed::{
    Printed, journal_line, journal_place, number, printed_words, proof_kind, proof_line,
    window_words,
};
use crate::proof_lines::{RefusedProof, say_refused_proof};
use crate::reading::{Reading, read_words};
use crate::refusals::say_refusal;
use crate::text_faults::{TextFault, say_text_fault};
use rm_base::{NoMemory, Place};
use std::alloc::Global;

/// How a run has ended.
#[derive(Clone, Copy)]
pub struct Ending<'a> {
    /// The words that follow the program's own name.
    pub words: &'a [String],
    /// What the run has put on standard output, or tried to.
    pub printed: &'a str,
    /// The call that failed, if one did.
    pub failure: Option<Failure<'a>>,
    /// Of the file that `subject_of` names: its bytes, or of a line of a journal what `LineFinder` gives; nothing where they aren't
    /// known.
    pub text: &'a [u8],
}

/// The file of which the printed line speaks.
#[derive(Clone, Copy, Debug, PartialEq, Eq)]
pub struct Subject<'a> {
    pub name: &'a str,
    pub part: SubjectPart,
}

/// What of a file a message shows.
#[derive(Clone, Copy, Debug, PartialEq, Eq)]
pub enum SubjectPart {
    /// A text of at most 16,777,216 bytes.
    Whole,
    /// The line of this number, from 1.
    Line(u64),
    /// The bytes up to this one, and some more.
    UpTo(u64),
}

fn place(word: &str) -> Place {
    let (line, column) = word.split_once(':').unwrap_or((word, ""));
    Place {
        line: line.parse::<u32>().unwrap_or(0),
        column: column.parse::<u32>().unwrap_or(0),
    }
}

// Whether the words are of the command with this name.
fn is_of(reading: &Reading<'_>, command: &str) -> bool {
    match reading.command {
        Some(rule) => rule.name == command,
        None => false,
    }
}

const UNNAMED: &str = "the file";

// The name that stands for this in the command line.
fn name_for<'a>(reading: &Reading<'a>, role: &str) -> &'a str {
    let Some(command) = reading.command else {
        return UNNAMED;
    };
    for (found, name) in command.names.iter().zip(reading.names.iter()) {
        if *found == role {
            return name;
        }
    }
    UNNAMED
}

// The name of the journal or of the proof that is read.
fn journal_name<'a>(reading: &Reading<'a>) -> &'a str {
    if is_of(reading, "convert") {
        name_for(reading, "FROM")
    } else if is_of(reading, "judge") {
        name_for(reading, "PROOF")
    } else if is_of(reading, "sew") {
        "the journal of a window"
    } else {
        name_for(reading, "JOURNAL")
    }
}

// The name of the netlist that is read first.
fn first_name<'a>(reading: &Reading<'a>) -> &'a str {
    if is_of(reading, "equal") || is_of(reading, "judge") {
        name_for(reading, "A")
    } else {
        name_for(reading, "IN")
    }
}

// The name of the netlist that is read second.
fn second_name<'a>(reading: &Reading<'a>) -> &'a str {
    if is_of(reading, "optcare") {
        name_for(reading, "CARE")
    } else {
        name_for(reading, "B")
    }
}

// The name of the netlist of which the words speak.
fn netlist_name<'a>(reading: &Reading<'a>, printed: &Printed<'_>) -> &'a str {
    if printed.is_second {
        second_name(reading)
    } else {
        first_name(reading)
    }
}

// The line of the journal of which the words speak; a journal of bytes has none.
fn journal_subject<'a>(reading: &Reading<'a>, printed: &Printed<'_>) -> Option<Subject<'a>> {
    if printed.second == "entry" {
        return None;
    }
    Some(Subject {
        name: journal_name(reading),
        part: SubjectPart::Line(journal_line(printed)),
    })
}

// The line of the proof of which the words speak, if they speak of one.
fn proof_subject<'a>(reading: &Reading<'a>, printed: &Printed<'_>) -> Option<Subject<'a>> {
    let number = proof_line(printed)?;
    Some(Subject {
        name: journal_name(reading),
        part: SubjectPart::Line(number),
    })
}

/// The file that has to be looked at before the ending can be explained.
pub fn subject_of<'a>(
    alloc: Global,
    words: &'a [String],
    printed: &str,
) -> Result<Option<Subject<'a>>, NoMemory> {
    let printed = printed_words(printed);
    let reading = read_words(alloc, words)?;
    let found = match printed.first {
        "text" => Some(Subject {
            name: netlist_name(&reading, &printed),
            part: SubjectPart::Whole,
        }),
        "journal" => journal_subject(&reading, &printed),
        "proof" => proof_subject(&reading, &printed),
        "netlist" => Some(Subject {
            name: name_for(&reading, "OUT"),
            part: SubjectPart::UpTo(number(printed.second)),
        }),
        _ => None,
    };
    Ok(found)
}

fn say_journal(
    message: Message,
    reading: &Reading<'_>,
    printed: &Printed<'_>,
    text: &[u8],
) -> Result<Message, NoMemory> {
    say_refused_line(
        message,
        &RefusedLine {
            name: journal_name(reading),
            place: journal_place(printed, text),
            line: text,
            kind: printed.fourth,
            rest: printed.rest,
        },
    )
}

// What is wrong with the journal of the window with this number.
fn say_window(
    alloc: Global,
    message: Message,
    reading: &Reading<'_>,
    number: &str,
    words: &str,
) -> Result<Message, NoMemory> {
    let printed = printed_words(words);
    let name = format!(in alloc; "{}{}.journal", name_for(reading, "PREFIX"), number)?;
    let message = say_refused(
        message,
        &RefusedLine {
            name: name.as_str(),
            place: journal_place(&printed, &[]),
            line: &[],
            kind: printed.fourth,
            rest: printed.rest,
        },
    )?;
    message.say(&[Part::Text("hint: a window whose journal isn't there stays as it is\n")])
}

fn say_proof(
    message: Message,
    reading: &Reading<'_>,
    printed: &Printed<'_>,
    text: &[u8],
) -> Result<Message, NoMemory> {
    say_refused_proof(
        message,
        &RefusedProof {
            name: journal_name(reading),
            number: proof_line(printed),
            line: text,
            kind: proof_kind(printed),
            rest: printed.rest,
        },
    )
}

fn say_fault(
    message: Message,
    reading: &Reading<'_>,
    failure: &Option<Failure<'_>>,
) -> Result<Message, NoMemory> {
    match failure {
        Some(failure) => say_failure(message, reading, failure),
        None => message.say(&[
            Part::Text("rambo: "),
            Part::Red("error: "),
            Part::Text("a file failed\n"),
        ]),
    }
}

// What there is to say of two netlists that aren't equal, or don't belong together.
fn say_comparison(
    message: Message,
    reading: &Reading<'_>,
    printed: &Printed<'_>,
) -> Result<Message, NoMemory> {
    match printed.first {
        "differ" => say_differ(message, printed.second),
        "undecided" => say_undecided(message, number(printed.second)),
        "care" => say_care_shape(message, second_name(reading)),
        _ => say_unlike(
            message,
            &UnlikeLists {
                first: first_name(reading),
                second: second_name(reading),
                list: printed.second,
                place: number(printed.third),
            },
        ),
    }
}

fn explained(alloc: Global, colours: bool, ending: &Ending<'_>) -> Result<Message, NoMemory> {
    let printed = printed_words(ending.printed);
    let reading = read_words(alloc, ending.words)?;
    let message = Message::new(alloc, colours);
    if let Some((number, words)) = window_words(ending.printed) {
        return say_window(alloc, message, &reading, number, words);
    }
    match printed.first {
        "words" => say_refusal(message, &reading),
        "text" => say_text_fault(
            alloc,
            colours,
            &TextFault {
                name: netlist_name(&reading, &printed),
                text: ending.text,
                place: place(printed.second),
                kind: printed.third,
            },
        ),
        "limit" => say_limit(
            message,
            limited_name(&reading, &printed),
            limited_quantity(&reading, &printed),
            number(printed.third),
        ),
        "journal" => say_journal(message, &reading, &printed, ending.text),
        "proof" => say_proof(message, &reading, &printed, ending.text),
        "netlist" => say_difference(
            message,
            name_for(&reading, "OUT"),
            ending.text,
            number(printed.second),
        ),
        "differ" | "undecided" | "unlike" | "care" => say_comparison(message, &reading, &printed),
        "memory" => message.say(&[
            Part::Text("rambo: "),
            Part::Red("error: "),
            Part::Text("out of memory\n"),
        ]),
        _ => say_fault(message, &reading, &ending.failure),
    }
}

fn limited_name<'a>(reading: &Reading<'a>, printed: &Printed<'_>) -> &'a str {
    if printed.second == "journal" {
        journal_name(reading)
    } else {
        netlist_name(reading, printed)
    }
}

// The quantity that is over its limit: a proof is read as a journal is.
fn limited_quantity<'a>(reading: &Reading<'_>, printed: &Printed<'a>) -> &'a str {
    if printed.second == "journal" && is_of(reading, "judge") {
        "proof"
    } else {
        printed.second
    }
}

/// What to write on standard error where a run hasn't ended with 0.
pub fn explanation(alloc: Global, colours: bool, ending: &Ending<'_>) -> Result<Vec<u8>, NoMemory>
    ensures { IfOk result (λ v. IsTerminalText v.items) }
{
    Ok(explained(alloc, colours, ending)?.into_bytes())
}
