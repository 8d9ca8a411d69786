// Where a text drives a name.
ghost use Rattle.std.specs.Prelude.{◌≤◌, length};

use blif_lines::{LineReader, Token};
use rm_base::Place;
use std::alloc::Global;

const MOST_BYTES: usize = 16_777_216;

fn token_text<'a>(text: &'a [u8], token: &Token) -> &'a [u8] {
    text.get(token.start..token.end).unwrap_or(&[])
}

// How a driver of a name is sought.
#[derive(Clone, Copy, PartialEq, Eq)]
pub(crate) enum Spelling {
    Same,
    /// Another spelling, which differs in upper and lower case alone.
    OtherCase,
}

fn fits(found: &[u8], name: &[u8], spelling: Spelling) -> bool {
    match spelling {
        Spelling::Same => found == name,
        Spelling::OtherCase => found != name && found.eq_ignore_ascii_case(name),
    }
}

// The tokens of a line that are names that it drives.
fn driven<'a>(text: &[u8], tokens: &'a [Token]) -> &'a [Token] {
    let Some((first, rest)) = tokens.split_first() else {
        return tokens;
    };
    match token_text(text, first) {
        b".inputs" | b".clock" => rest,
        b".names" => rest.get(rest.len().saturating_sub(1)..).unwrap_or(&[]),
        b".latch" => rest.get(1..2).unwrap_or(&[]),
        _ => &[],
    }
}

fn driver_in(text: &[u8], tokens: &[Token], name: &[u8], spelling: Spelling) -> Option<Token> {
    for token in driven(text, tokens) {
        if fits(token_text(text, token), name, spelling) {
            return Some(*token);
        }
    }
    None
}

fn begins_model(text: &[u8], tokens: &[Token]) -> bool {
    match tokens.first() {
        Some(token) => token_text(text, token) == b".model".as_slice(),
        None => false,
    }
}

// Whether the line stands behind a place.
fn is_behind(tokens: &[Token], near: Place) -> bool {
    match tokens.first() {
        Some(token) => token.place.line > near.line,
        None => false,
    }
}

/// The first place at which the model around a place drives the name, in this spelling, with the spelling.
pub(crate) fn first_driver<'a>(
    alloc: Global,
    text: &'a [u8],
    name: &[u8],
    spelling: Spelling,
    near: Place,
) -> Option<(Place, &'a [u8])> {
    if text.len() > MOST_BYTES {
        return None;
    }
    let mut reader = LineReader::new(alloc, text);
    let mut found = None;
    for _line in 0..text.len() {
        let Ok(Some(line)) = reader.next() else {
            break;
        };
        if begins_model(text, line.tokens()) {
            if is_behind(line.tokens(), near) {
                break;
            }
            found = None;
        }
        if found.is_none() {
            found = driver_in(text, line.tokens(), name, spelling);
        }
    }
    let token = found?;
    Some((token.place, token_text(text, &token)))
}
