// The reader of logical lines.
ghost use Rattle.std.specs.Prelude.{◌≡◌, ◌≢◌, ◌≤◌, ◌<◌, ◌+◌, ◌^◌, [], ◌∷◌, ◌++◌, IfOk, IfErr, OnErr, OnOk, length, drop, map, min, All, None, Some, IfSome};
ghost use Rattle.blif_lines.specs.Layout.{Logical, layout, layout_from};
ghost use Rattle.blif_lines.specs.Inner.Cuts.{place_at, line_start, line_end_of, spots_between};
ghost use Rattle.blif_lines.specs.Reading.{spot_of, IsWithin, Gives, GivesLine, IsFault, pending};

use crate::line::{LineFault, LogicalLine, Token};
use crate::scan::{Piece, line_end, next_piece};
use rm_base::{NoMemory, Place};
use std::alloc::Global;
use std::marker::Model;

/// A place in the text, the number of its physical line and the start of that. Behind the longest text of LFs alone the
/// number is one that no place has.
#[derive(Clone, Copy, PartialEq, Eq)]
struct Cursor {
    at: usize,
    line: u64,
    start: usize,
}

fn place_of(cursor: Cursor, at: usize) -> Place
    requires within { at < 4294967295 }
    requires behind { cursor.start ≤ at }
    requires line { cursor.line ≤ cursor.start + 1 }
    ensures { result ≡ place_at cursor.line cursor.start at }
{
    Place {
        line: cursor.line as u32,
        column: (at - cursor.start) as u32 + 1,
    }
}

/// The start of the next physical line, or the end of the text.
fn behind_line(text: &[u8], cursor: Cursor, at: usize) -> Cursor
    requires within { at ≤ length text.now }
    requires line { cursor.line ≤ 2 ^ 33 }
    ensures at { result.at ≡ min (line_end_of text.now at + 1) (length text.now) }
    ensures start { result.start ≡ result.at }
    ensures line { result.line ≡ cursor.line + 1 }
    ensures later { at < length text.now → at < result.at }
{
    let end = line_end(text, at);
    let next = if end < text.len() { end + 1 } else { end };
    Cursor {
        at: next,
        line: cursor.line + 1,
        start: next,
    }
}

/// Adds the token from `start` up to `end`, unless it is empty.
fn push_token(
    line: &mut LogicalLine,
    text: &[u8],
    start: usize,
    end: usize,
    place: Place,
) -> Result<(), NoMemory>
    requires end { end ≤ length text.now }
    requires column { place.column ≤ start + 1 }
    requires known { All (IsWithin text.now) line.old }
    ensures spots { OnOk result (map (spot_of text.now) line.new ≡ map (spot_of text.now) line.old ++ spots_between text.now start end place) }
    ensures within { OnOk result (All (IsWithin text.now) line.new) }
{
    if start < end {
        line.push(Token { start, end, place })?;
    }
    Ok(())
}

/// A logical line and where the next physical line starts.
#[derive(Drop)]
struct Taken {
    line: LogicalLine,
    next: Cursor,
}

/// The logical line that starts at the cursor.
fn take_line(alloc: Global, text: &[u8], from: Cursor) -> Result<Taken, LineFault>
    requires some { from.at < length text.now }
    requires small { length text.now < 2 ^ 32 }
    requires start { from.start ≡ from.at }
    requires line { from.line ≤ from.at + 1 }
    ensures ok { IfOk result (λ t. layout_from from.at (line_start from.line) (drop from.at text.now) ≡ record { tokens = map (spot_of text.now) t.line; flaw = None } ∷ layout_from t.next.at (line_start t.next.line) (drop t.next.at text.now)) }
    ensures later { IfOk result (λ t. from.at < t.next.at) }
    ensures within { IfOk result (λ t. t.next.at ≤ length text.now) }
    ensures number { IfOk result (λ t. t.next.line ≤ t.next.at + 1) }
    ensures start { IfOk result (λ t. t.next.start ≡ t.next.at) }
    ensures tokens { IfOk result (λ t. All (IsWithin text.now) t.line) }
    ensures fault { IfErr result (λ e. IsFault (layout_from from.at (line_start from.line) (drop from.at text.now)) e) }
{
    let mut line = LogicalLine::new(alloc);
    let mut cursor = from;
    'pieces: loop {
        match next_piece(text, cursor.at) {
            Piece::Word { start, end } => {
                push_token(&mut line, text, start, end, place_of(cursor, start))?;
                cursor.at = end;
            }
            Piece::Bad { bad } => return Err(LineFault::BadByte(place_of(cursor, bad))),
            Piece::Close { end } => {
                let next = behind_line(text, cursor, end);
                return Ok(Taken { line, next });
            }
            Piece::Join { start, end, after } => {
                push_token(&mut line, text, start, end, place_of(cursor, start))?;
                let next = behind_line(text, cursor, after);
                if next.at == text.len() {
                    return Err(LineFault::OpenJoin(place_of(cursor, end)));
                }
                cursor = next;
            }
        }
    }
}

/// A logical line with tokens, if there is one, and where the next physical line starts.
#[derive(Drop)]
struct Found {
    line: Option<LogicalLine>,
    next: Cursor,
}

/// The first logical line with tokens from the cursor on.
fn find_line(alloc: Global, text: &[u8], from: Cursor) -> Result<Found, LineFault>
    requires within { from.at ≤ length text.now }
    requires small { length text.now < 2 ^ 32 }
    requires start { from.start ≡ from.at }
    requires line { from.line ≤ from.at + 1 }
    ensures ok { IfOk result (λ f. GivesLine text.now (layout_from from.at (line_start from.line) (drop from.at text.now)) (layout_from f.next.at (line_start f.next.line) (drop f.next.at text.now)) f.line) }
    ensures end { IfOk result (λ f. f.next.at ≤ length text.now) }
    ensures number { IfOk result (λ f. f.next.line ≤ f.next.at + 1) }
    ensures tokens { IfOk result (λ f. IfSome f.line (λ line. line ≢ [])) }
    ensures within { IfOk result (λ f. IfSome f.line (λ line. All (IsWithin text.now) line)) }
    ensures fault { IfErr result (λ e. IsFault (pending (layout_from from.at (line_start from.line) (drop from.at text.now))) e) }
{
    let mut cursor = from;
    'lines: while cursor.at < text.len() {
        let taken = take_line(alloc, text, cursor)?;
        cursor = taken.next;
        if !taken.line.tokens().is_empty() {
            return Ok(Found {
                line: Some(taken.line),
                next: cursor,
            });
        }
    }
    Ok(Found {
        line: None,
        next: cursor,
    })
}

/// Reads a text line by line. Contracts see the text and the logical lines still to come.
#[derive(Drop)]
pub struct LineReader<'a> {
    text: &'a [u8],
    at: usize,
    line: u64,
    alloc: Global,
}

impl<'a> Model for LineReader<'a> {
    ghost use Rattle.blif_lines.specs.Layout.{Reading};

    ghost Value = { Reading };

    ghost use Rattle.blif_lines.specs.Inner.Views.{reading, IsReading};

    ghost view = { reading };

    ghost invariant = { IsReading };
}

impl<'a> LineReader<'a> {
    /// A reader of a text of less than 2^32 bytes, so that the numbers of its lines and columns fit into places.
    pub fn new(alloc: Global, text: &'a [u8]) -> LineReader<'a>
        requires { length text.now < 2 ^ 32 }
        ensures text { result.text ≡ text.now }
        ensures rest { result.rest ≡ layout text.now }
    {
        LineReader {
            text,
            at: 0,
            line: 1,
            alloc,
        }
    }

    /// The next logical line with tokens, or None at the end of the text. A line of blanks and comments is passed over,
    /// but for its fault. After a fault the answer is the same again.
    pub fn next(&mut self) -> Result<Option<LogicalLine>, LineFault>
        ensures text { self.new.text ≡ self.old.text }
        ensures ok { IfOk result (λ found. Gives self.old self.new found) }
        ensures tokens { IfOk result (λ found. IfSome found (λ line. line ≢ [])) }
        ensures within { IfOk result (λ found. IfSome found (λ line. All (IsWithin self.old.text) line)) }
        ensures fault { IfErr result (λ e. IsFault (pending self.old.rest) e) }
        ensures same { OnErr result (self.new ≡ self.old) }
    {
        let from = Cursor {
            at: self.at,
            line: self.line,
            start: self.at,
        };
        let found = find_line(self.alloc, self.text, from)?;
        self.at = found.next.at;
        self.line = found.next.line;
        Ok(found.line)
    }
}
