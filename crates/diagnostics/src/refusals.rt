// Why the words of the command line are refused.
use crate::commands::{COMMANDS, CommandRule};
use crate::message::Message;
use crate::parts::Part;
use crate::reading::{LEAST_WIDTH, MOST_WIDTH, Reading, Refusal};
use crate::usage::{VERSION, say_command, say_help, say_usage};
use rm_base::NoMemory;

const BEGIN: Part<'static> = Part::Text("rambo: ");

fn name_of(command: &Option<CommandRule>) -> &'static str {
    match command {
        Some(rule) => rule.name,
        None => "rambo",
    }
}

fn role(command: &Option<CommandRule>, at: usize) -> &'static str {
    match command {
        Some(rule) if at < rule.names.len() => rule.names[at],
        _ => "a name",
    }
}

// No command has this name: those that there are.
fn say_no_command(message: Message, word: &str) -> Result<Message, NoMemory> {
    let mut message = message.say(&[
        BEGIN,
        Part::Red("error: "),
        Part::Text("no command '"),
        Part::Word(word.as_bytes()),
        Part::Text("'; the commands are"),
    ])?;
    for command in &COMMANDS {
        message = message.say(&[Part::Text(" "), Part::Text(command.name)])?;
    }
    message.say(&[Part::Text("\n")])
}

// The reason alone, of a word that is wrong by itself.
fn say_word(
    message: Message,
    command: &'static str,
    refusal: Refusal<'_>,
) -> Result<Message, NoMemory> {
    match refusal {
        Refusal::NoCommand(word) => say_no_command(message, word),
        Refusal::NoOption(word) => message.say(&[
            BEGIN,
            Part::Red("error: "),
            Part::Text(command),
            Part::Text(" has no option '"),
            Part::Word(word.as_bytes()),
            Part::Text("'\n"),
        ]),
        Refusal::NotASeed(word) => message.say(&[
            BEGIN,
            Part::Red("error: "),
            Part::Text("SEED '"),
            Part::Word(word.as_bytes()),
            Part::Text("' is not a decimal number of 64 bits\n"),
        ]),
        Refusal::TooManyNames(word) => message.say(&[
            BEGIN,
            Part::Red("error: "),
            Part::Text(command),
            Part::Text(" has one name too many: '"),
            Part::Word(word.as_bytes()),
            Part::Text("'\n"),
        ]),
        _ => Ok(message),
    }
}

// The reason alone, of the names of windows.
fn say_windows(message: Message, refusal: Refusal<'_>) -> Result<Message, NoMemory> {
    match refusal {
        Refusal::NotAWidth(word) => message.say(&[
            BEGIN,
            Part::Red("error: "),
            Part::Text("WIDTH '"),
            Part::Word(word.as_bytes()),
            Part::Text("' is not a decimal number from "),
            Part::Number(LEAST_WIDTH),
            Part::Text(" to "),
            Part::Number(MOST_WIDTH),
            Part::Text("\n"),
        ]),
        Refusal::IsOfWindow {
            role,
            name,
            prefix,
            kind,
        } => message.say(&[
            BEGIN,
            Part::Red("error: "),
            Part::Text(role),
            Part::Text(" '"),
            Part::Word(name.as_bytes()),
            Part::Text("' is the name of a window's "),
            Part::Text(kind),
            Part::Text(", of PREFIX '"),
            Part::Word(prefix.as_bytes()),
            Part::Text("'\n"),
        ]),
        _ => Ok(message),
    }
}

// The reason alone, of an option.
fn say_option(message: Message, refusal: Refusal<'_>) -> Result<Message, NoMemory> {
    match refusal {
        Refusal::NoValue(option) => message.say(&[
            BEGIN,
            Part::Red("error: "),
            Part::Text(option),
            Part::Text(" has no value\n"),
        ]),
        Refusal::GivenTwice(option) => message.say(&[
            BEGIN,
            Part::Red("error: "),
            Part::Text(option),
            Part::Text(" is given twice\n"),
        ]),
        Refusal::NotANumber { option, value } => message.say(&[
            BEGIN,
            Part::Red("error: "),
            Part::Text(option),
            Part::Text(" '"),
            Part::Word(value.as_bytes()),
            Part::Text("': not a decimal number\n"),
        ]),
        Refusal::NotInRange { option, value } => message.say(&[
            BEGIN,
            Part::Red("error: "),
            Part::Text(option.name),
            Part::Text(" '"),
            Part::Word(value.as_bytes()),
            Part::Text("': not in the range "),
            Part::Number(option.low),
            Part::Text(" to "),
            Part::Number(option.high),
            Part::Text("\n"),
        ]),
        _ => Ok(message),
    }
}

// The names that the words lack.
fn say_lacking(message: Message, rule: &CommandRule, count: usize) -> Result<Message, NoMemory> {
    let mut message = message.say(&[
        BEGIN,
        Part::Red("error: "),
        Part::Text(rule.name),
        Part::Text(" lacks"),
    ])?;
    for at in count..rule.least.min(rule.names.len()) {
        message = message.say(&[Part::Text(" "), Part::Text(rule.names[at])])?;
    }
    message.say(&[Part::Text("\n")])
}

fn say_equal(
    message: Message,
    reading: &Reading<'_>,
    first: usize,
    second: usize,
) -> Result<Message, NoMemory> {
    let name = if first < reading.names.len() {
        reading.names[first]
    } else {
        ""
    };
    message.say(&[
        BEGIN,
        Part::Red("error: "),
        Part::Text(role(&reading.command, first)),
        Part::Text(" and "),
        Part::Text(role(&reading.command, second)),
        Part::Text(" are both '"),
        Part::Word(name.as_bytes()),
        Part::Text("'; the names must differ\n"),
    ])
}

// The reason, where it is one of the command's words together.
fn say_names(
    message: Message,
    reading: &Reading<'_>,
    refusal: Refusal<'_>,
) -> Result<Message, NoMemory> {
    match (refusal, &reading.command) {
        (Refusal::TooFewNames(count), Some(rule)) => say_lacking(message, rule, count),
        (Refusal::EqualNames { first, second }, _) => say_equal(message, reading, first, second),
        _ => Ok(message),
    }
}

/// Why the words are refused, and how the command is used.
pub(crate) fn say_refusal(message: Message, reading: &Reading<'_>) -> Result<Message, NoMemory> {
    let Some(refusal) = reading.refusal else {
        return say_usage(message);
    };
    match refusal {
        Refusal::Help => return say_help(message),
        Refusal::Version => return message.say(&[Part::Text(VERSION)]),
        Refusal::NoWords => return say_usage(message),
        _ => {}
    }
    let message = say_word(message, name_of(&reading.command), refusal)?;
    let message = say_windows(message, refusal)?;
    let message = say_option(message, refusal)?;
    let message = say_names(message, reading, refusal)?;
    match &reading.command {
        Some(rule) => say_command(message, rule, is_of_options(refusal)),
        None => say_usage(message),
    }
}

// Whether the options are to be listed.
fn is_of_options(refusal: Refusal<'_>) -> bool {
    matches!(
        refusal,
        Refusal::NoOption(_)
            | Refusal::NoValue(_)
            | Refusal::GivenTwice(_)
            | Refusal::NotANumber { .. }
            | Refusal::NotInRange { .. }
    )
}
