//! The words, read by `clap`, and what `clap` has no rule for.
ghost use Rattle.std.specs.Prelude.{◌≡◌, ◌≢◌, IfOk, IfErr, None, Some, [], map};
ghost use Rattle.std.specs.String.{string_bytes};
ghost use Rattle.clap.specs.Words.{fault_of, found_of, matches_of, rows_of};
ghost use Rattle.word_reading.specs.Commands.{HasNamesApart, HasSettingsInRange, asked_of};
ghost use Rattle.word_reading.specs.Words.{asked};
ghost use Rattle.word_reading.specs.Inner.Judged.{accepted};
ghost use Rattle.word_reading.specs.Inner.Program.{program as program_app};

use crate::command::{Command, UsageError};
use crate::program::program;
use crate::requests::command;
use clap::ArgMatches;
use clap::error::ErrorKind;
use std::alloc::Global;

// What `clap` makes of the words behind the command's own, and that it refuses no others.
fn parse_words<'a>(alloc: Global, words: &'a [String]) -> Result<ArgMatches<'a>, UsageError>
    ensures ok { IfOk result (λ m. (fault_of program_app (map string_bytes words.entry.now) ≡ [])
        × (rows_of (found_of m) ≡ matches_of program_app (map string_bytes words.entry.now))) }
    ensures refused { IfErr result (λ e. e ≡ UsageError.Refused → fault_of program_app (map string_bytes words.entry.now) ≢ []) }
{
    let program = match program(alloc) {
        Ok(program) => program,
        Err(_) => return Err(UsageError::NoMemory),
    };
    match program.try_get_matches_from(words) {
        Ok(matches) => Ok(matches),
        Err(error) => {
            if error.kind() == ErrorKind::OutOfMemory {
                Err(UsageError::NoMemory)
            } else {
                Err(UsageError::Refused)
            }
        }
    }
}

// The same by the parts of the words.
fn accepted_rows<'a>(alloc: Global, words: &'a [String]) -> Result<ArgMatches<'a>, UsageError>
    ensures ok { IfOk result (λ m. accepted (map string_bytes words.entry.now) ≡ Some (rows_of (found_of m))) }
    ensures refused { IfErr result (λ e. e ≡ UsageError.Refused → accepted (map string_bytes words.entry.now) ≡ None) }
{
    parse_words(alloc, words)
}

/// Reads the words that follow the program's own name. The names of a command are the words themselves, and want of
/// memory is the one answer that the words don't decide.
pub fn read_words<'a>(alloc: Global, words: &'a [String]) -> Result<Command<'a>, UsageError>
    ensures ok { IfOk result (λ c. asked (map string_bytes words.entry.now) ≡ Some (asked_of c)) }
    ensures refused { IfErr result (λ e. e ≡ UsageError.Refused → asked (map string_bytes words.entry.now) ≡ None) }
    ensures apart { IfOk result (λ c. HasNamesApart (asked_of c)) }
    ensures ranges { IfOk result (λ c. HasSettingsInRange (asked_of c)) }
{
    let Some((word, rest)) = words.split_first() else {
        return Err(UsageError::Refused);
    };
    match accepted_rows(alloc, rest) {
        Ok(matches) => command(word.as_str(), &matches).ok_or(UsageError::Refused),
        Err(fault) => Err(fault),
    }
}
