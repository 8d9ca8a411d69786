// A call of a file or of standard output that failed.
use crate::message::Message;
use crate::parts::Part;
use crate::reading::Reading;
use rm_base::NoMemory;

/// What was asked of a file.
#[derive(Clone, Copy, Debug, PartialEq, Eq)]
pub enum Operation {
    Read,
    Create,
    /// Adding to a file that has so many bytes.
    Write { written: u64 },
    /// Writing to standard output.
    Print,
}

/// Why it failed.
#[derive(Clone, Copy)]
pub enum Reason<'a> {
    /// What the host says.
    Host(&'a str),
    /// The file was read or created in this run under another name.
    SameFile,
    /// Standard output goes to the file.
    IsOutput,
    /// Another run holds the file.
    Locked,
}

/// A call that failed.
#[derive(Clone, Copy)]
pub struct Failure<'a> {
    pub operation: Operation,
    /// The name of the file, as the command line has it.
    pub name: &'a str,
    pub reason: Reason<'a>,
}

/// As what the name stands in the command line.
pub(crate) fn role_of(reading: &Reading<'_>, name: &str) -> &'static str {
    let Some(command) = reading.command else {
        return "the file";
    };
    for (role, found) in command.names.iter().zip(reading.names.iter()) {
        if *found == name {
            return role;
        }
    }
    "the file"
}

fn verb(operation: Operation) -> &'static str {
    match operation {
        Operation::Read => "cannot read ",
        Operation::Create => "cannot create ",
        Operation::Write { written: _ } => "cannot write ",
        Operation::Print => "cannot write standard output",
    }
}

/// The host's words without the number of its error.
pub(crate) fn host_words(text: &str) -> &str {
    match text.split_once(" (os error") {
        Some((words, _)) => words,
        None => text,
    }
}

fn say_reason(message: Message, reason: Reason<'_>) -> Result<Message, NoMemory> {
    match reason {
        Reason::Host(text) => message.say(&[Part::Word(host_words(text).as_bytes())]),
        Reason::SameFile => {
            message.say(&[Part::Text("this run reads or writes it under another name")])
        }
        Reason::IsOutput => message.say(&[Part::Text("standard output goes to it")]),
        Reason::Locked => message.say(&[Part::Text("another run is writing it")]),
    }
}

// The file of the call.
fn say_file(
    message: Message,
    reading: &Reading<'_>,
    failure: &Failure<'_>,
) -> Result<Message, NoMemory> {
    let message = message.say(&[
        Part::Text(role_of(reading, failure.name)),
        Part::Text(" '"),
        Part::Word(failure.name.as_bytes()),
        Part::Text("'"),
    ])?;
    match failure.operation {
        Operation::Write { written } if written > 0 => message.say(&[
            Part::Text(" after "),
            Part::Number(written),
            Part::Text(" bytes"),
        ]),
        _ => Ok(message),
    }
}

/// The call that failed, and why.
pub(crate) fn say_failure(
    message: Message,
    reading: &Reading<'_>,
    failure: &Failure<'_>,
) -> Result<Message, NoMemory> {
    let mut message = message.say(&[
        Part::Text("rambo: "),
        Part::Red("error: "),
        Part::Text(verb(failure.operation)),
    ])?;
    if failure.operation != Operation::Print {
        message = say_file(message, reading, failure)?;
    }
    message = say_reason(message.say(&[Part::Text(": ")])?, failure.reason)?;
    message = message.say(&[Part::Text("\n")])?;
    if failure.name == "-" {
        return message.say(&[Part::Text(
            "hint: '-' is a file of that name; for standard input write /dev/stdin\n",
        )]);
    }
    Ok(message)
}
