// The first fault of a row.
ghost use Rattle.std.specs.Prelude.{◌≡◌, ◌≤◌, ◌<◌, ◌+◌, ◌^◌, ◌∷◌, [], length, map, IfOk, All, Some};
ghost use Rattle.blif_lines.specs.Reading.{spot_of, IsWithin};
ghost use Rattle.blif_format.specs.Text.{on_word};
ghost use Rattle.blif_format.specs.FirstFault.{ending_fault, character_fault, row_fault, or_else, extra_fault, last_word, is_literal as literal_byte};
ghost use Rattle.blif_reader.specs.Meant.{refusal_of};
ghost use Rattle.blif_reader.specs.Rows.{said_ending, said_cover};
ghost use Rattle.blif_reader.specs.Rows.{columns_on, inputs_fault, with_last};

use crate::refusals::fault;
use crate::words::{is_text, word_of};
use blif_format::{FaultKind, ReadRefusal};
use blif_lines::Token;
use rm_base::Place;

/// The cover to which a row may belong.
#[derive(Clone, Copy, PartialEq, Eq)]
pub struct OpenCover {
    pub inputs: usize,
    pub ending: Option<bool>,
}

fn check_ending(text: &[u8], ending: Option<bool>, last: &Token) -> Result<bool, ReadRefusal>
    requires { IsWithin text.now last.now }
    ensures fault { refusal_of result ≡ ending_fault (said_ending ending) (spot_of text.now last.now) }
    ensures ok { IfOk result (λ on. (spot_of text.now last.now).word ≡ on_word on) }
{
    let word = word_of(text, last);
    let is_on = is_text(word, "1");
    if !is_on && !is_text(word, "0") {
        return Err(ReadRefusal::Fault {
            kind: FaultKind::RowCharacter,
            place: last.place,
        });
    }
    if let Some(first) = ending {
        if first != is_on {
            return Err(ReadRefusal::Fault {
                kind: FaultKind::MixedCover,
                place: last.place,
            });
        }
    }
    Ok(is_on)
}

fn is_literal(b: u8) -> bool
    ensures { result ≡ literal_byte b }
{
    b == 48 || b == 49 || b == 45
}

// The place of the byte `i` behind a place.
fn behind(place: Place, i: usize) -> Place
    requires { place.column + i < 2 ^ 32 }
    ensures { result ≡ columns_on place i }
{
    Place {
        line: place.line,
        column: place.column + i as u32,
    }
}

fn check_characters(word: &[u8], place: Place) -> Result<(), ReadRefusal>
    requires { place.column + length word.now ≤ 2 ^ 32 }
    ensures { refusal_of result ≡ character_fault place word.now }
{
    for (i, b) in word.iter().enumerate() {
        if !is_literal(*b) {
            return fault(FaultKind::RowCharacter, behind(place, i));
        }
    }
    Ok(())
}

// The last word of a row, and the words behind it.
fn check_last(
    text: &[u8],
    ending: Option<bool>,
    last: &Token,
    after: &[Token],
) -> Result<bool, ReadRefusal>
    requires { IsWithin text.now last.now }
    ensures fault { refusal_of result ≡ or_else (ending_fault (said_ending ending) (spot_of text.now last.now)) (extra_fault (map (spot_of text.now) after.now)) }
    ensures word { IfOk result (λ on. (spot_of text.now last.now).word ≡ on_word on) }
    ensures alone { IfOk result (λ on. after.now ≡ []) }
{
    let is_on = check_ending(text, ending, last)?;
    match after.first() {
        Some(extra) => Err(ReadRefusal::Fault {
            kind: FaultKind::ExtraWord,
            place: extra.place,
        }),
        None => Ok(is_on),
    }
}

fn check_inputs(text: &[u8], inputs: usize, first: &Token) -> Result<(), ReadRefusal>
    requires word { IsWithin text.now first.now }
    requires small { length text.now < 2 ^ 32 }
    ensures { refusal_of result ≡ inputs_fault inputs (spot_of text.now first.now) }
{
    let word = word_of(text, first);
    if word.len() != inputs {
        return fault(FaultKind::RowLength, first.place);
    }
    check_characters(word, first.place)
}

/// Whether a row of a cover ends in 1, or its first fault.
pub fn check_row(
    text: &[u8],
    cover: OpenCover,
    first: &Token,
    rest: &[Token],
) -> Result<bool, ReadRefusal>
    requires word { IsWithin text.now first.now }
    requires words { All (IsWithin text.now) rest.now }
    requires small { length text.now < 2 ^ 32 }
    ensures fault { refusal_of result ≡ row_fault (said_cover cover) (spot_of text.now first.now) (map (spot_of text.now) rest.now) }
    ensures ok { IfOk result (λ on. last_word (spot_of text.now first.now ∷ map (spot_of text.now) rest.now) ≡ Some (on_word on)) }
{
    if cover.inputs == 0 {
        return check_last(text, cover.ending, first, rest);
    }
    check_inputs(text, cover.inputs, first)?;
    match rest.split_first() {
        None => Err(ReadRefusal::Fault {
            kind: FaultKind::MissingWord,
            place: first.place,
        }),
        Some((last, after)) => check_last(text, cover.ending, last, after),
    }
}

/// The cover with the ending of one more row; the first row's counts.
pub fn with_ending(cover: OpenCover, is_on: bool) -> OpenCover
    ensures { said_cover result ≡ with_last (Some (on_word is_on)) (said_cover cover) }
{
    match cover.ending {
        Some(_) => cover,
        None => OpenCover {
            inputs: cover.inputs,
            ending: Some(is_on),
        },
    }
}
