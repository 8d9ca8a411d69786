// The usage and the help.
use crate::commands::{COMMANDS, CommandRule, OPTIONS, OptionRule};
use crate::message::Message;
use crate::parts::Part;
use rm_base::NoMemory;

/// What `--version` shows.
pub(crate) const VERSION: &str = "rambo 2.0.0; proved with rattle-kit-13f logic dac8208d650f15bf\n";

const WHAT: &str =
    "rambo optimises flat BLIF netlists by redundancy addition and removal, with a proof for each change\n";

const FURTHER: &str =
    "An option is written --depth 1 or --depth=1, before or after the names. After '--' every word is a name.
IN, CARE, A and B, and all files that check, tests, replay and judge read, may be pipes such as /dev/stdin. None of them is written.

exit status:
  0  done; equal: the netlists have the same function
  1  IN, CARE, A or B has an error
  2  the command line is wrong
  3  a file or standard output failed
  4  out of memory
  5  something is over its limit
  6  check, tests: JOURNAL isn't accepted, or OUT differs; convert: FROM is no journal of version 1;
     judge: PROOF isn't accepted; sew: the journal of a window isn't accepted
  7  equal: the netlists differ
  8  equal: the search used up its budget
  9  equal, judge: the sources or the observed names of A and B aren't the same;
     optcare: CARE hasn't exactly one output, has a latch or a clock, or hasn't the sources of IN as its inputs
";

// An option with its range.
fn say_option(message: Message, option: &OptionRule) -> Result<Message, NoMemory> {
    message.say(&[
        Part::Text("  "),
        Part::Text(option.name),
        Part::Text(" "),
        Part::Number(option.low),
        Part::Text(".."),
        Part::Number(option.high),
        Part::Text("  "),
        Part::Text(option.meaning),
        Part::Text(" (default "),
        Part::Number(option.default),
        Part::Text(")\n"),
    ])
}

// The options of the command with this name.
fn say_options(mut message: Message, command: &'static str) -> Result<Message, NoMemory> {
    for option in &OPTIONS {
        if option.commands.contains(&command) {
            message = say_option(message, option)?;
        }
    }
    Ok(message)
}

fn say_commands(mut message: Message) -> Result<Message, NoMemory> {
    for command in &COMMANDS {
        message = message.say(&[
            Part::Text("  rambo "),
            Part::Text(command.usage),
            Part::Text("\n      "),
            Part::Text(command.meaning),
            Part::Text("\n"),
        ])?;
    }
    Ok(message)
}

/// A line for each command, as it is shown where words are refused.
pub(crate) fn say_usage(mut message: Message) -> Result<Message, NoMemory> {
    message = message.say(&[Part::Text("usage:\n")])?;
    for command in &COMMANDS {
        message = message.say(&[
            Part::Text("  rambo "),
            Part::Text(command.usage),
            Part::Text("\n"),
        ])?;
    }
    message.say(&[Part::Text("rambo --help lists the options; man rambo has more\n")])
}

/// The usage of one command, with its options where these are to be listed.
pub(crate) fn say_command(
    message: Message,
    command: &CommandRule,
    lists_options: bool,
) -> Result<Message, NoMemory> {
    let message = message.say(&[
        Part::Text("usage: rambo "),
        Part::Text(command.usage),
        Part::Text("\n"),
    ])?;
    if lists_options {
        return say_options(message, command.name);
    }
    Ok(message)
}

/// All that `--help` shows.
pub(crate) fn say_help(message: Message) -> Result<Message, NoMemory> {
    let message = say_commands(message.say(&[Part::Text(WHAT), Part::Text("\nusage:\n")])?)?;
    let message = say_options(
        message.say(&[Part::Text(
            "\noptions of opt and demo; equal and optcare have the first two:\n",
        )])?,
        "opt",
    )?;
    let message = say_options(
        message.say(&[Part::Text("\noption of cut and sew:\n")])?,
        "cut",
    )?;
    message.say(&[Part::Text("\n"), Part::Text(FURTHER)])
}
