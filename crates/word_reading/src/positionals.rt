//! The names of a command, and which of them differ.
ghost use Rattle.std.specs.Prelude.{◌≡◌, ◌∷◌, [], not};
ghost use Rattle.std.specs.List.{list_any};
ghost use Rattle.clap.specs.Words.{found_of, rows_of};
ghost use Rattle.word_reading.specs.Words.{are_different, is_word};
ghost use Rattle.word_reading.specs.Inner.Commands.{names_in, texts_of};

use crate::option_values::text;
use clap::ArgMatches;

/// The names of a command, in order; none stands behind one that is missing.
#[derive(Clone, Copy)]
pub(crate) struct Positionals<'a> {
    pub(crate) first: Option<&'a str>,
    pub(crate) second: Option<&'a str>,
    pub(crate) third: Option<&'a str>,
    pub(crate) fourth: Option<&'a str>,
}

/// The names as `clap` has read them.
pub(crate) fn read_positionals<'a>(given: &ArgMatches<'a>) -> Positionals<'a>
    ensures { texts_of result ≡ names_in (rows_of (found_of given.now)) }
{
    Positionals {
        first: text(given, "first"),
        second: text(given, "second"),
        third: text(given, "third"),
        fourth: text(given, "fourth"),
    }
}

/// Whether two names differ.
pub(crate) fn differ(first: &str, second: &str) -> bool
    ensures { result ≡ not (is_word first.now second.now) }
{
    !(first == second)
}

/// Whether the name is none of the others.
pub(crate) fn is_apart(name: &str, first: &str, second: &str, third: &str) -> bool
    ensures { result ≡ not (list_any (is_word name.now) (first.now ∷ second.now ∷ third.now ∷ [])) }
{
    differ(name, first) && differ(name, second) && differ(name, third)
}

/// Whether no two of the four names are alike.
pub(crate) fn are_apart(first: &str, second: &str, third: &str, fourth: &str) -> bool
    ensures { result ≡ are_different (first.now ∷ second.now ∷ third.now ∷ fourth.now ∷ []) }
{
    differ(first, second)
        && differ(first, third)
        && differ(first, fourth)
        && differ(second, third)
        && differ(second, fourth)
        && differ(third, fourth)
}
