// The words of the command line, read once more to say why they are refused and which file has which name.
use crate::commands::{CommandRule, OptionRule, command_named, option_named};
use crate::windows::{is_window_file, is_window_journal};
use rm_base::NoMemory;
use std::alloc::Global;

/// Why words are refused.
#[derive(Clone, Copy)]
pub(crate) enum Refusal<'a> {
    NoWords,
    Help,
    Version,
    NoCommand(&'a str),
    NoOption(&'a str),
    NoValue(&'a str),
    GivenTwice(&'a str),
    NotANumber {
        option: &'a str,
        value: &'a str,
    },
    NotInRange {
        option: OptionRule,
        value: &'a str,
    },
    NotASeed(&'a str),
    NotAWidth(&'a str),
    IsOfWindow {
        role: &'static str,
        name: &'a str,
        prefix: &'a str,
        kind: &'static str,
    },
    TooFewNames(usize),
    TooManyNames(&'a str),
    EqualNames {
        first: usize,
        second: usize,
    },
}

/// What was read of the words.
#[derive(Drop)]
pub(crate) struct Reading<'a> {
    pub(crate) command: Option<CommandRule>,
    /// The names in their order.
    pub(crate) names: Vec<&'a str>,
    /// The first reason to refuse the words.
    pub(crate) refusal: Option<Refusal<'a>>,
    given: Vec<&'a str>,
    open: Option<OptionRule>,
    only_names: bool,
}

fn is_help(word: &str) -> bool {
    word == "--help" || word == "-h" || word == "help"
}

fn is_version(word: &str) -> bool {
    word == "--version" || word == "-V" || word == "version"
}

fn is_number(value: &str) -> bool {
    let digits = value.strip_prefix('+').unwrap_or(value).as_bytes();
    !digits.is_empty() && digits.iter().all(|digit| digit.is_ascii_digit())
}

// The least and the greatest width of windows.
pub(crate) const LEAST_WIDTH: u64 = 1;

pub(crate) const MOST_WIDTH: u64 = 65_536;

fn is_width(word: &str) -> bool {
    if !is_number(word) {
        return false;
    }
    match word.parse::<u64>() {
        Ok(number) => LEAST_WIDTH <= number && number <= MOST_WIDTH,
        Err(_) => false,
    }
}

// What of a window has the name, if anything: its file, or its journal where there are journals.
fn kind_of_window(name: &str, prefix: &str, has_journals: bool) -> Option<&'static str> {
    if is_window_file(name, prefix) {
        return Some("file");
    }
    if has_journals && is_window_journal(name, prefix) {
        return Some("journal");
    }
    None
}

// Why the value isn't one of the option.
fn judge_value<'a>(option: OptionRule, value: &'a str) -> Option<Refusal<'a>> {
    if !is_number(value) {
        return Some(Refusal::NotANumber {
            option: option.name,
            value,
        });
    }
    match value.parse::<u64>() {
        Ok(number) if option.low <= number && number <= option.high => None,
        _ => Some(Refusal::NotInRange { option, value }),
    }
}

// Why a first word names no command.
fn judge_command<'a>(word: &'a str) -> Refusal<'a> {
    if is_help(word) {
        Refusal::Help
    } else if is_version(word) {
        Refusal::Version
    } else {
        Refusal::NoCommand(word)
    }
}

impl<'a> Reading<'a> {
    fn new(alloc: Global, command: Option<CommandRule>, refusal: Option<Refusal<'a>>) -> Self {
        Reading {
            command,
            names: Vec::new(alloc),
            refusal,
            given: Vec::new(alloc),
            open: None,
            only_names: false,
        }
    }

    fn refuse(&mut self, refusal: Refusal<'a>) {
        if self.refusal.is_none() {
            self.refusal = Some(refusal);
        }
    }

    fn take_option(&mut self, word: &'a str, command: &CommandRule) -> Result<(), NoMemory> {
        let (name, value) = match word.split_once('=') {
            Some((name, value)) => (name, Some(value)),
            None => (word, None),
        };
        let Some(option) = option_named(name) else {
            self.refuse(Refusal::NoOption(word));
            return Ok(());
        };
        if !option.commands.contains(&command.name) {
            self.refuse(Refusal::NoOption(word));
        }
        if self.given.contains(&name) {
            self.refuse(Refusal::GivenTwice(option.name));
        }
        self.given.push(name)?;
        match value {
            Some(value) => self.take_value(option, value),
            None => self.open = Some(option),
        }
        Ok(())
    }

    fn take_value(&mut self, option: OptionRule, value: &'a str) {
        self.open = None;
        if let Some(refusal) = judge_value(option, value) {
            self.refuse(refusal);
        }
    }

    // Takes a word behind the command's.
    fn take(&mut self, word: &'a str, command: &CommandRule) -> Result<(), NoMemory> {
        if let Some(option) = self.open {
            self.take_value(option, word);
        } else if self.only_names || word == "-" || !word.starts_with('-') {
            self.names.push(word)?;
        } else if word == "--" {
            self.only_names = true;
        } else if is_help(word) {
            self.refuse(Refusal::Help);
        } else if is_version(word) {
            self.refuse(Refusal::Version);
        } else {
            self.take_option(word, command)?;
        }
        Ok(())
    }

    // Looks at what the words lack, once all are taken.
    fn end(&mut self, command: CommandRule) {
        if let Some(option) = self.open {
            self.refuse(Refusal::NoValue(option.name));
        }
        let count = self.names.len();
        if count < command.least {
            self.refuse(Refusal::TooFewNames(count));
        }
        if let Some(word) = nth(self.names.as_slice(), command.names.len()) {
            self.refuse(Refusal::TooManyNames(word));
        }
        if let Some((first, second)) = equal_pair(self.names.as_slice(), command.different) {
            self.refuse(Refusal::EqualNames { first, second });
        }
        if command.name == "demo"
            && let Some(word) = nth(self.names.as_slice(), 0)
        {
            self.take_seed(word);
        }
        if command.name == "cut" {
            self.take_width();
            self.take_beside_windows("IN", 0, false);
        }
        if command.name == "sew" {
            self.take_width();
            self.take_beside_windows("IN", 0, true);
            self.take_beside_windows("OUT", 3, true);
        }
    }

    // Looks at the second name of `cut` or `sew`.
    fn take_width(&mut self) {
        if let Some(word) = nth(self.names.as_slice(), 1)
            && !is_width(word)
        {
            self.refuse(Refusal::NotAWidth(word));
        }
    }

    // Looks whether the name at this place is one of a window, by the third name.
    fn take_beside_windows(&mut self, role: &'static str, at: usize, has_journals: bool) {
        if let Some(name) = nth(self.names.as_slice(), at)
            && let Some(prefix) = nth(self.names.as_slice(), 2)
            && let Some(kind) = kind_of_window(name, prefix, has_journals)
        {
            self.refuse(Refusal::IsOfWindow {
                role,
                name,
                prefix,
                kind,
            });
        }
    }

    fn take_seed(&mut self, word: &'a str) {
        if !is_number(word) || word.parse::<u64>().is_err() {
            self.refuse(Refusal::NotASeed(word));
        }
    }
}

fn nth<'a>(names: &[&'a str], at: usize) -> Option<&'a str> {
    names.get(at).copied()
}

fn is_same(first: Option<&str>, second: Option<&str>) -> bool {
    match (first, second) {
        (Some(first), Some(second)) => first == second,
        _ => false,
    }
}

// The first of the pairs whose names are equal.
fn equal_pair(names: &[&str], pairs: &[(usize, usize)]) -> Option<(usize, usize)> {
    for (first, second) in pairs {
        if is_same(nth(names, *first), nth(names, *second)) {
            return Some((*first, *second));
        }
    }
    None
}

/// Reads the words that follow the program's own name.
pub(crate) fn read_words<'a>(alloc: Global, words: &'a [String]) -> Result<Reading<'a>, NoMemory> {
    let Some((first, rest)) = words.split_first() else {
        return Ok(Reading::new(alloc, None, Some(Refusal::NoWords)));
    };
    let Some(command) = command_named(first.as_str()) else {
        return Ok(Reading::new(alloc, None, Some(judge_command(first.as_str()))));
    };
    let mut reading = Reading::new(alloc, Some(command), None);
    for word in rest {
        reading.take(word.as_str(), &command)?;
    }
    reading.end(command);
    Ok(reading)
}
