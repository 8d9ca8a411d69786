// What a run has printed, cut into words.
use crate::journals::{JOURNAL_OF_BYTES, JournalPlace};

/// A line that was printed, cut at blanks.
#[derive(Clone, Copy)]
pub(crate) struct Printed<'a> {
    /// Whether the line begins with `second`, as it speaks of the second text; the words are those behind that.
    pub(crate) is_second: bool,
    pub(crate) first: &'a str,
    pub(crate) second: &'a str,
    pub(crate) third: &'a str,
    pub(crate) fourth: &'a str,
    pub(crate) rest: &'a str,
}

fn cut(text: &str) -> (&str, &str) {
    match text.split_once(' ') {
        Some(parts) => parts,
        None => (text, ""),
    }
}

fn first_line(printed: &str) -> &str {
    match printed.split_once('\n') {
        Some((line, _)) => line,
        None => printed,
    }
}

/// The words of the first line.
pub(crate) fn printed_words(printed: &str) -> Printed<'_> {
    let line = first_line(printed);
    let (first, rest) = cut(line);
    let is_second = first == "second";
    let (first, rest) = if is_second { cut(rest) } else { (first, rest) };
    let (second, rest) = cut(rest);
    let (third, rest) = cut(rest);
    let (fourth, rest) = cut(rest);
    Printed {
        is_second,
        first,
        second,
        third,
        fourth,
        rest,
    }
}

/// The number of the window of which the line speaks, and what it says of its journal.
pub(crate) fn window_words(printed: &str) -> Option<(&str, &str)> {
    let rest = first_line(printed).strip_prefix("window ")?;
    Some(cut(rest))
}

/// The number that a word is, or 0.
pub(crate) fn number(word: &str) -> u64 {
    word.parse::<u64>().unwrap_or(0)
}

/// The line of a journal of which the words speak: record R of a text stands on line R + 1.
pub(crate) fn journal_line(printed: &Printed<'_>) -> u64 {
    if printed.second == "line" {
        number(printed.third)
    } else {
        number(printed.third).saturating_add(1)
    }
}

/// The kind of the refusal of a proof.
pub(crate) fn proof_kind<'a>(printed: &Printed<'a>) -> &'a str {
    if printed.second == "record" {
        printed.fourth
    } else {
        printed.second
    }
}

/// The line of a proof of which the words speak, if they speak of one: record R stands on line R + 1.
pub(crate) fn proof_line(printed: &Printed<'_>) -> Option<u64> {
    if printed.second == "record" {
        Some(number(printed.third).saturating_add(1))
    } else if printed.third.is_empty() {
        None
    } else {
        Some(number(printed.third))
    }
}

/// The place in a journal of which the words speak, where this is known of the journal's text.
pub(crate) fn journal_place(printed: &Printed<'_>, text: &[u8]) -> JournalPlace {
    let has_records = printed.second == "record" && text == JOURNAL_OF_BYTES;
    if printed.second == "entry" || has_records {
        JournalPlace::Record(number(printed.third))
    } else {
        JournalPlace::Line(journal_line(printed))
    }
}
