// Pieces of a line, from the front: blanks, tokens, bad bytes, joins and the end of the line.
ghost use Rattle.std.specs.Prelude.{◌≡◌, ◌+◌, ◌≤◌, ◌<◌, length, drop, slice_index, true};
ghost use Rattle.blif_lines.specs.Inner.Cuts.{front, begins, is_closed, is_blank_byte, is_control_byte, is_inner, line_end_of, Tells};
ghost use Rattle.rm_base.specs.Words.{is_word_byte};

/// What stands next in a line.
#[derive(Clone, Copy, PartialEq, Eq)]
pub enum Piece {
    /// A token from `start` up to `end`.
    Word {
        start: usize,
        end: usize,
    },
    /// A byte that may not stand there.
    Bad {
        bad: usize,
    },
    /// The end of what the line says.
    Close {
        end: usize,
    },
    /// A joining backslash at `end`, behind a token from `start` that may be empty.
    Join {
        start: usize,
        end: usize,
        after: usize,
    },
}

fn is_blank(b: u8) -> bool
    ensures { result ≡ is_blank_byte b }
{
    b == 32 || b == 9 || b == 13
}

fn is_word(b: u8) -> bool
    ensures { result ≡ is_word_byte b }
{
    b > 32 && b != 35 && b != 127
}

fn skip_blanks(text: &[u8], at: usize) -> usize
    requires { at ≤ length text.now }
    ensures counted { result ≡ at + front is_blank_byte (drop at text.now) }
    ensures within { result ≤ length text.now }
{
    let mut i = at;
    while i < text.len() {
        if !is_blank(text[i]) {
            return i;
        }
        i += 1;
    }
    i
}

fn word_end(text: &[u8], at: usize) -> usize
    requires { at ≤ length text.now }
    ensures counted { result ≡ at + front is_word_byte (drop at text.now) }
    ensures within { result ≤ length text.now }
{
    let mut i = at;
    while i < text.len() {
        if !is_word(text[i]) {
            return i;
        }
        i += 1;
    }
    i
}

/// The place of the next LF, or the end of the text.
pub fn line_end(text: &[u8], at: usize) -> usize
    requires { at ≤ length text.now }
    ensures counted { result ≡ line_end_of text.now at }
    ensures within { result ≤ length text.now }
{
    let mut i = at;
    while i < text.len() {
        if text[i] == 10 {
            return i;
        }
        i += 1;
    }
    i
}

fn is_control_at(text: &[u8], at: usize) -> bool
    requires { at ≤ length text.now }
    ensures { result ≡ begins is_control_byte (drop at text.now) }
{
    if at == text.len() {
        return false;
    }
    let b = text[at];
    !is_blank(b) && b != 10 && (b < 32 || b == 127)
}

fn is_closed_at(text: &[u8], at: usize) -> bool
    requires { at ≤ length text.now }
    ensures { result ≡ is_closed (drop at text.now) }
{
    if at == text.len() {
        return true;
    }
    text[at] == 10 || text[at] == 35
}

/// The next piece of the line.
pub fn next_piece(text: &[u8], at: usize) -> Piece
    requires { at ≤ length text.now }
    ensures { Tells text.now at result }
{
    let start = skip_blanks(text, at);
    let end = word_end(text, start);
    if is_control_at(text, end) {
        return Piece::Bad { bad: end };
    }
    if start == end {
        return Piece::Close { end };
    }
    if text[end - 1] != 92 {
        return Piece::Word { start, end };
    }
    let slash = end - 1;
    let after = skip_blanks(text, end);
    if !is_closed_at(text, after) {
        return Piece::Bad { bad: slash };
    }
    if start < slash && text[slash - 1] == 92 {
        return Piece::Bad { bad: slash - 1 };
    }
    Piece::Join {
        start,
        end: slash,
        after,
    }
}
