// The windows of `cut` and `sew`: the names of their files and of their journals.
use crate::reading::read_words;
use rm_base::NoMemory;
use std::alloc::Global;

// Whether the name is the prefix, a number and the ending.
fn is_numbered(name: &str, prefix: &str, ending: &str) -> bool {
    let Some(rest) = name.strip_prefix(prefix) else {
        return false;
    };
    let Some(digits) = rest.strip_suffix(ending) else {
        return false;
    };
    !digits.is_empty() && digits.as_bytes().iter().all(|digit| digit.is_ascii_digit())
}

/// Whether the name is that of a window's file: the prefix, a number and `.blif`.
pub(crate) fn is_window_file(name: &str, prefix: &str) -> bool {
    is_numbered(name, prefix, ".blif")
}

/// Whether the name is that of a window's journal: the prefix, a number and `.journal`.
pub fn is_window_journal(name: &str, prefix: &str) -> bool {
    is_numbered(name, prefix, ".journal")
}

/// The PREFIX of the words, where they are those of `sew`, which takes a window without a journal as it is.
pub fn journals_prefix<'a>(
    alloc: Global,
    words: &'a [String],
) -> Result<Option<&'a str>, NoMemory> {
    let reading = read_words(alloc, words)?;
    let Some(command) = reading.command else {
        return Ok(None);
    };
    if command.name != "sew" {
        return Ok(None);
    }
    Ok(reading.names.get(2).copied())
}
