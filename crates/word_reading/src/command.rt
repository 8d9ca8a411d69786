//! What the words can ask for.

use rm_base::Settings;
use std::fmt;

/// A command with its names.
#[derive(Clone, Copy)]
pub enum Command<'a> {
    /// Optimises the input, and writes the output, and the journal where it is named.
    Opt {
        input: &'a str,
        output: &'a str,
        journal: Option<&'a str>,
        settings: Settings,
    },
    /// Replays the journal over the input, and compares with the output.
    Check {
        input: &'a str,
        journal: &'a str,
        output: &'a str,
    },
    /// Checks the same, and writes test patterns for the output's faults.
    Tests {
        input: &'a str,
        journal: &'a str,
        output: &'a str,
        patterns: &'a str,
    },
    /// Makes the steps of the journal that are accepted, tidies, and writes the output.
    Replay {
        input: &'a str,
        journal: &'a str,
        output: &'a str,
    },
    /// Writes a journal that is a text as one of bytes.
    Convert {
        from: &'a str,
        to: &'a str,
    },
    /// Decides whether two models compute the same, and writes the proof.
    Equal {
        first: &'a str,
        second: &'a str,
        proof: &'a str,
        settings: Settings,
    },
    /// Replays the proof over the two models.
    Judge {
        first: &'a str,
        second: &'a str,
        proof: &'a str,
    },
    /// Optimises the input where the care model is 1, and writes the output, and tests that are told apart there.
    Optcare {
        input: &'a str,
        care: &'a str,
        output: &'a str,
        tests: &'a str,
        settings: Settings,
    },
    /// Makes one flat model of the input, cuts it into windows of about so many wires, the first of `shift` unless that is 0,
    /// and writes each under the prefix, its number and `.blif`.
    Cut {
        input: &'a str,
        width: u32,
        prefix: &'a str,
        shift: u32,
    },
    /// Cuts the input into the same windows, makes the steps of each one's journal, which is named by the prefix, its number and
    /// `.journal`, and writes the input's model with what the windows become as the output.
    Sew {
        input: &'a str,
        width: u32,
        prefix: &'a str,
        output: &'a str,
        shift: u32,
    },
    /// Makes one flat model of the input, and writes it as the output.
    Flat {
        input: &'a str,
        output: &'a str,
    },
    /// Optimises the generated model of the seed.
    Demo {
        seed: u64,
        settings: Settings,
    },
}

/// Why no command was read.
#[derive(Clone, Copy, PartialEq, Eq)]
pub enum UsageError {
    /// The words ask for nothing.
    Refused,
    /// Want of memory.
    NoMemory,
}

impl fmt::Display for UsageError {
    fn fmt<W: fmt::Write>(&self, f: &mut fmt::Formatter<W>) -> fmt::Result {
        match self {
            UsageError::Refused => f.write_str("the words ask for no command"),
            UsageError::NoMemory => f.write_str("out of memory"),
        }
    }
}
