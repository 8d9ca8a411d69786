//! The values of the options, as `clap` has read them, and which options are there.
ghost use Rattle.std.specs.Prelude.{◌≡◌, [], is_some, option_map};
ghost use Rattle.clap.specs.Words.{first_of, found_of, rows_of};
ghost use Rattle.word_reading.specs.Words.{question_keys, run_keys, window_keys};
ghost use Rattle.word_reading.specs.Inner.Commands.{has_only, number_at, options_in, settings_in};

use crate::options::{
    Options, USUAL_BUDGET, USUAL_DEPTH, USUAL_MERGE, USUAL_PERTURB, USUAL_SHIFT, USUAL_TRIES,
    USUAL_WORK, USUAL_WORKERS,
};
use clap::ArgMatches;
use rm_base::Settings;

fn byte_option(given: &ArgMatches<'_>, key: &str) -> Option<u8>
    ensures { result ≡ number_at 8 key.now (rows_of (found_of given.now)) }
{
    given.get_one::<u8>(key)
}

fn word_option(given: &ArgMatches<'_>, key: &str) -> Option<u32>
    ensures { result ≡ number_at 32 key.now (rows_of (found_of given.now)) }
{
    given.get_one::<u32>(key)
}

fn settings(given: &ArgMatches<'_>) -> Settings
    ensures { result ≡ settings_in (rows_of (found_of given.now)) }
{
    Settings {
        depth: byte_option(given, "depth").unwrap_or(USUAL_DEPTH),
        budget: word_option(given, "budget").unwrap_or(USUAL_BUDGET),
        tries: word_option(given, "tries").unwrap_or(USUAL_TRIES),
        workers: byte_option(given, "workers").unwrap_or(USUAL_WORKERS),
        merge: byte_option(given, "merge").unwrap_or(USUAL_MERGE),
        perturb: byte_option(given, "perturb").unwrap_or(USUAL_PERTURB),
        work: word_option(given, "work").unwrap_or(USUAL_WORK),
    }
}

/// What the options say.
pub(crate) fn read_options(given: &ArgMatches<'_>) -> Options
    ensures { result ≡ options_in (rows_of (found_of given.now)) }
{
    Options {
        settings: settings(given),
        shift: word_option(given, "shift").unwrap_or(USUAL_SHIFT),
    }
}

/// The first value of an argument.
pub(crate) fn text<'a>(given: &ArgMatches<'a>, id: &str) -> Option<&'a str>
    ensures { option_map (λ s. s.now) result ≡ first_of id.now (rows_of (found_of given.now)) }
{
    given.get_str(id)
}

// Whether an option is there.
fn is_given(given: &ArgMatches<'_>, key: &str) -> bool
    ensures { result ≡ is_some (first_of key.now (rows_of (found_of given.now))) }
{
    text(given, key).is_some()
}

/// Whether no option is there.
pub(crate) fn has_no_option(given: &ArgMatches<'_>) -> bool
    ensures { result ≡ has_only [] (rows_of (found_of given.now)) }
{
    !is_given(given, "depth")
        && !is_given(given, "budget")
        && !is_given(given, "tries")
        && !is_given(given, "workers")
        && !is_given(given, "merge")
        && !is_given(given, "perturb")
        && !is_given(given, "work")
        && !is_given(given, "shift")
}

/// Whether no option is there but those of a question that is refuted, and else searched.
pub(crate) fn has_question_options(given: &ArgMatches<'_>) -> bool
    ensures { result ≡ has_only question_keys (rows_of (found_of given.now)) }
{
    !is_given(given, "tries")
        && !is_given(given, "workers")
        && !is_given(given, "merge")
        && !is_given(given, "perturb")
        && !is_given(given, "work")
        && !is_given(given, "shift")
}

/// Whether no option is there but those of a run.
pub(crate) fn has_run_options(given: &ArgMatches<'_>) -> bool
    ensures { result ≡ has_only run_keys (rows_of (found_of given.now)) }
{
    !is_given(given, "shift")
}

/// Whether no option is there but that of windows.
pub(crate) fn has_window_options(given: &ArgMatches<'_>) -> bool
    ensures { result ≡ has_only window_keys (rows_of (found_of given.now)) }
{
    !is_given(given, "depth")
        && !is_given(given, "budget")
        && !is_given(given, "tries")
        && !is_given(given, "workers")
        && !is_given(given, "merge")
        && !is_given(given, "perturb")
        && !is_given(given, "work")
}
