//! What a command asks for, by its names and options.
ghost use Rattle.std.specs.Prelude.{◌≡◌, ◌^◌, ◌-◌, ◌∷◌, [], option_map};
ghost use Rattle.clap.specs.Words.{found_of, rows_of};
ghost use Rattle.word_reading.specs.Commands.{asked_of};
ghost use Rattle.word_reading.specs.Words.{are_outside, check_by, convert_by, cut_by, demo_by, equal_by, flat_by, judge_by, number, opt_by, optcare_by, replay_by, sew_by, tests_by};
ghost use Rattle.word_reading.specs.Inner.Commands.{command_in, texts_of, within};
ghost use Rattle.word_reading.specs.declared.options.TheConstants.{LEAST_WIDTH, MOST_WIDTH};

use crate::command::Command;
use crate::option_values::{
    has_no_option, has_question_options, has_run_options, has_window_options, read_options,
};
use crate::options::{LEAST_WIDTH, MOST_WIDTH, Options};
use crate::positionals::{Positionals, are_apart, differ, is_apart, read_positionals};
use crate::window_names::{is_of_window, is_window_file};
use clap::ArgMatches;

fn opt_without_journal<'a>(input: &'a str, output: &'a str, options: Options) -> Option<Command<'a>>
    ensures { option_map asked_of result ≡ opt_by (input.entry.now ∷ output.entry.now ∷ []) options }
{
    if !differ(input, output) {
        return None;
    }
    Some(Command::Opt {
        input,
        output,
        journal: None,
        settings: options.settings,
    })
}

fn opt_with_journal<'a>(
    input: &'a str,
    output: &'a str,
    journal: &'a str,
    options: Options,
) -> Option<Command<'a>>
    ensures { option_map asked_of result ≡ opt_by (input.entry.now ∷ output.entry.now ∷ journal.entry.now ∷ []) options }
{
    if !differ(input, output) || !differ(input, journal) || !differ(output, journal) {
        return None;
    }
    Some(Command::Opt {
        input,
        output,
        journal: Some(journal),
        settings: options.settings,
    })
}

fn opt<'a>(names: Positionals<'a>, options: Options) -> Option<Command<'a>>
    ensures { option_map asked_of result ≡ opt_by (texts_of names.entry) options }
{
    let Some(input) = names.first else {
        return None;
    };
    let Some(output) = names.second else {
        return None;
    };
    let Some(journal) = names.third else {
        return opt_without_journal(input, output, options);
    };
    if names.fourth.is_some() {
        return None;
    }
    opt_with_journal(input, output, journal, options)
}

fn check<'a>(names: Positionals<'a>, options: Options) -> Option<Command<'a>>
    ensures { option_map asked_of result ≡ check_by (texts_of names.entry) options }
{
    let Some(input) = names.first else {
        return None;
    };
    let Some(journal) = names.second else {
        return None;
    };
    let Some(output) = names.third else {
        return None;
    };
    if names.fourth.is_some() {
        return None;
    }
    Some(Command::Check {
        input,
        journal,
        output,
    })
}

fn flat<'a>(names: Positionals<'a>, options: Options) -> Option<Command<'a>>
    ensures { option_map asked_of result ≡ flat_by (texts_of names.entry) options }
{
    let Some(input) = names.first else {
        return None;
    };
    let Some(output) = names.second else {
        return None;
    };
    if names.third.is_some() {
        return None;
    }
    if !differ(input, output) {
        return None;
    }
    Some(Command::Flat { input, output })
}

fn tests<'a>(names: Positionals<'a>, options: Options) -> Option<Command<'a>>
    ensures { option_map asked_of result ≡ tests_by (texts_of names.entry) options }
{
    let Some(input) = names.first else {
        return None;
    };
    let Some(journal) = names.second else {
        return None;
    };
    let Some(output) = names.third else {
        return None;
    };
    let Some(patterns) = names.fourth else {
        return None;
    };
    if !is_apart(patterns, input, journal, output) {
        return None;
    }
    Some(Command::Tests {
        input,
        journal,
        output,
        patterns,
    })
}

fn replay<'a>(names: Positionals<'a>, options: Options) -> Option<Command<'a>>
    ensures { option_map asked_of result ≡ replay_by (texts_of names.entry) options }
{
    let Some(input) = names.first else {
        return None;
    };
    let Some(journal) = names.second else {
        return None;
    };
    let Some(output) = names.third else {
        return None;
    };
    if names.fourth.is_some() {
        return None;
    }
    if !differ(input, journal) || !differ(input, output) || !differ(journal, output) {
        return None;
    }
    Some(Command::Replay {
        input,
        journal,
        output,
    })
}

fn convert<'a>(names: Positionals<'a>, options: Options) -> Option<Command<'a>>
    ensures { option_map asked_of result ≡ convert_by (texts_of names.entry) options }
{
    let Some(from) = names.first else {
        return None;
    };
    let Some(to) = names.second else {
        return None;
    };
    if names.third.is_some() {
        return None;
    }
    if !differ(from, to) {
        return None;
    }
    Some(Command::Convert { from, to })
}

fn equal<'a>(names: Positionals<'a>, options: Options) -> Option<Command<'a>>
    ensures { option_map asked_of result ≡ equal_by (texts_of names.entry) options }
{
    let Some(first) = names.first else {
        return None;
    };
    let Some(second) = names.second else {
        return None;
    };
    let Some(proof) = names.third else {
        return None;
    };
    if names.fourth.is_some() {
        return None;
    }
    if !differ(first, second) || !differ(first, proof) || !differ(second, proof) {
        return None;
    }
    Some(Command::Equal {
        first,
        second,
        proof,
        settings: options.settings,
    })
}

fn judge<'a>(names: Positionals<'a>, options: Options) -> Option<Command<'a>>
    ensures { option_map asked_of result ≡ judge_by (texts_of names.entry) options }
{
    let Some(first) = names.first else {
        return None;
    };
    let Some(second) = names.second else {
        return None;
    };
    let Some(proof) = names.third else {
        return None;
    };
    if names.fourth.is_some() {
        return None;
    }
    Some(Command::Judge {
        first,
        second,
        proof,
    })
}

fn optcare<'a>(names: Positionals<'a>, options: Options) -> Option<Command<'a>>
    ensures { option_map asked_of result ≡ optcare_by (texts_of names.entry) options }
{
    let Some(input) = names.first else {
        return None;
    };
    let Some(care) = names.second else {
        return None;
    };
    let Some(output) = names.third else {
        return None;
    };
    let Some(tests) = names.fourth else {
        return None;
    };
    if !are_apart(input, care, output, tests) {
        return None;
    }
    Some(Command::Optcare {
        input,
        care,
        output,
        tests,
        settings: options.settings,
    })
}

fn whole_number(text: &str) -> Option<u64>
    ensures { result ≡ number 0 (2 ^ 64 - 1) text.now }
{
    text.parse::<u64>().ok()
}

// The number as a width, if it is one.
fn as_width(number: u64) -> Option<u32>
    ensures { result ≡ within LEAST_WIDTH MOST_WIDTH number }
{
    if number < u64::from(LEAST_WIDTH) {
        return None;
    }
    if number > u64::from(MOST_WIDTH) {
        return None;
    }
    Some(number as u32)
}

fn width(text: &str) -> Option<u32>
    ensures { result ≡ number LEAST_WIDTH MOST_WIDTH text.now }
{
    match whole_number(text) {
        Some(number) => as_width(number),
        None => None,
    }
}

fn cut<'a>(names: Positionals<'a>, options: Options) -> Option<Command<'a>>
    ensures { option_map asked_of result ≡ cut_by (texts_of names.entry) options }
{
    let Some(input) = names.first else {
        return None;
    };
    let Some(second) = names.second else {
        return None;
    };
    let Some(prefix) = names.third else {
        return None;
    };
    if names.fourth.is_some() {
        return None;
    }
    if is_window_file(prefix.as_bytes(), input.as_bytes()) {
        return None;
    }
    match width(second) {
        Some(width) => Some(Command::Cut {
            input,
            width,
            prefix,
            shift: options.shift,
        }),
        None => None,
    }
}

// Whether the input and the output of `sew` differ, and neither is of a window.
fn are_outside(prefix: &str, input: &str, output: &str) -> bool
    ensures { result ≡ are_outside prefix.now input.now output.now }
{
    differ(input, output)
        && !is_of_window(prefix.as_bytes(), input.as_bytes())
        && !is_of_window(prefix.as_bytes(), output.as_bytes())
}

fn sew<'a>(names: Positionals<'a>, options: Options) -> Option<Command<'a>>
    ensures { option_map asked_of result ≡ sew_by (texts_of names.entry) options }
{
    let Some(input) = names.first else {
        return None;
    };
    let Some(second) = names.second else {
        return None;
    };
    let Some(prefix) = names.third else {
        return None;
    };
    let Some(output) = names.fourth else {
        return None;
    };
    if !are_outside(prefix, input, output) {
        return None;
    }
    match width(second) {
        Some(width) => Some(Command::Sew {
            input,
            width,
            prefix,
            output,
            shift: options.shift,
        }),
        None => None,
    }
}

fn demo<'a>(names: Positionals<'a>, options: Options) -> Option<Command<'a>>
    ensures { option_map asked_of result ≡ demo_by (texts_of names.entry) options }
{
    let Some(name) = names.first else {
        return None;
    };
    if names.second.is_some() {
        return None;
    }
    match whole_number(name) {
        Some(seed) => Some(Command::Demo {
            seed,
            settings: options.settings,
        }),
        None => None,
    }
}

/// The command of a word, by the names and options behind it.
pub(crate) fn command<'a>(word: &str, given: &ArgMatches<'a>) -> Option<Command<'a>>
    ensures { option_map asked_of result ≡ command_in word.now (rows_of (found_of given.now)) }
{
    if word == "opt" {
        if !has_run_options(given) {
            return None;
        }
        opt(read_positionals(given), read_options(given))
    } else if word == "check" {
        if !has_no_option(given) {
            return None;
        }
        check(read_positionals(given), read_options(given))
    } else if word == "demo" {
        if !has_run_options(given) {
            return None;
        }
        demo(read_positionals(given), read_options(given))
    } else if word == "flat" {
        if !has_no_option(given) {
            return None;
        }
        flat(read_positionals(given), read_options(given))
    } else if word == "tests" {
        if !has_no_option(given) {
            return None;
        }
        tests(read_positionals(given), read_options(given))
    } else if word == "replay" {
        if !has_no_option(given) {
            return None;
        }
        replay(read_positionals(given), read_options(given))
    } else if word == "convert" {
        if !has_no_option(given) {
            return None;
        }
        convert(read_positionals(given), read_options(given))
    } else if word == "equal" {
        if !has_question_options(given) {
            return None;
        }
        equal(read_positionals(given), read_options(given))
    } else if word == "judge" {
        if !has_no_option(given) {
            return None;
        }
        judge(read_positionals(given), read_options(given))
    } else if word == "optcare" {
        if !has_question_options(given) {
            return None;
        }
        optcare(read_positionals(given), read_options(given))
    } else if word == "cut" {
        if !has_window_options(given) {
            return None;
        }
        cut(read_positionals(given), read_options(given))
    } else if word == "sew" {
        if !has_window_options(given) {
            return None;
        }
        sew(read_positionals(given), read_options(given))
    } else {
        None
    }
}
