// Lines and words of a text by their places. Lines and columns count from 1.
ghost use Rattle.std.specs.Prelude.{◌≤◌, length};

// Where the line begins, or the end of a text that has fewer lines.
fn line_start(text: &[u8], line: u64) -> usize
    ensures { result ≤ length text.now }
{
    let mut left = line.saturating_sub(1);
    for at in 0..text.len() {
        if left == 0 {
            return at;
        }
        if text[at] == b'\n' {
            left -= 1;
        }
    }
    text.len()
}

// The bytes up to the line's end.
fn to_line_end(text: &[u8]) -> &[u8] {
    for at in 0..text.len() {
        if text[at] == b'\n' {
            return &text[..at];
        }
    }
    text
}

fn is_word_byte(byte: u8) -> bool {
    byte > 32 && byte != b'#'
}

// The bytes up to the next blank or comment.
fn to_word_end(text: &[u8]) -> &[u8] {
    for at in 0..text.len() {
        if !is_word_byte(text[at]) {
            return &text[..at];
        }
    }
    text
}

/// The line of this number, without its end.
pub(crate) fn line_at(text: &[u8], line: u64) -> &[u8] {
    to_line_end(&text[line_start(text, line)..])
}

/// The rest of a word from the column on.
pub(crate) fn word_at(line: &[u8], column: u32) -> &[u8] {
    let start = (column.saturating_sub(1) as usize).min(line.len());
    to_word_end(&line[start..])
}

/// The line and the column of a byte of the text, which count from 1 as the byte does.
pub(crate) fn place_of(text: &[u8], byte: u64) -> (u64, u32) {
    let mut line = 1u64;
    let mut column = 1u32;
    for at in 0..text.len() {
        if at as u64 + 1 >= byte {
            break;
        }
        if text[at] == b'\n' {
            line = line.saturating_add(1);
            column = 1;
        } else {
            column = column.saturating_add(1);
        }
    }
    (line, column)
}
