//! The names of the files of windows, and of their journals.
ghost use Rattle.std.specs.Prelude.{◌≡◌, option_map};
ghost use Rattle.word_reading.specs.Words.{behind, has_number_then, is_of_window, is_window_file, is_window_journal};

// What follows a prefix of the name, if it has that.
fn behind<'a>(prefix: &[u8], name: &'a [u8]) -> Option<&'a [u8]>
    ensures { option_map (λ r. r.now) result ≡ behind prefix.now name.entry.now }
{
    let mut left = prefix;
    let mut rest = name;
    while let Some((wanted, more)) = left.split_first() {
        let Some((first, after)) = rest.split_first() else {
            return None;
        };
        if *first != *wanted {
            return None;
        }
        left = more;
        rest = after;
    }
    Some(rest)
}

// Whether the name has decimal digits, at least one, and then the ending.
fn has_number_then(ending: &[u8], name: &[u8]) -> bool
    ensures { result ≡ has_number_then ending.now name.now }
{
    let mut rest = name;
    while let Some((first, more)) = rest.split_first() {
        if !first.is_ascii_digit() {
            return false;
        }
        if more == ending {
            return true;
        }
        rest = more;
    }
    false
}

/// Whether the name is the prefix, a number and `.blif`.
pub(crate) fn is_window_file(prefix: &[u8], name: &[u8]) -> bool
    ensures { result ≡ is_window_file prefix.now name.now }
{
    match behind(prefix, name) {
        Some(rest) => has_number_then(b".blif", rest),
        None => false,
    }
}

// Whether the name is the prefix, a number and `.journal`.
fn is_window_journal(prefix: &[u8], name: &[u8]) -> bool
    ensures { result ≡ is_window_journal prefix.now name.now }
{
    match behind(prefix, name) {
        Some(rest) => has_number_then(b".journal", rest),
        None => false,
    }
}

/// Whether the name is that of a window's file, or of a window's journal.
pub(crate) fn is_of_window(prefix: &[u8], name: &[u8]) -> bool
    ensures { result ≡ is_of_window prefix.now name.now }
{
    is_window_file(prefix, name) || is_window_journal(prefix, name)
}
