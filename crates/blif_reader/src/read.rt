// The reader of a text's lines.
ghost use Rattle.std.specs.Prelude.{◌≡◌, ◌≢◌, ◌≤◌, ◌^◌, ◌∷◌, [], length, not, List, OnOk, IfOk, IfErr, All, None, Some, IfSome};
ghost use Rattle.blif_lines.specs.Layout.{Logical, layout, lines_of};
ghost use Rattle.blif_lines.specs.Reading.{IsWithin, pending, Gives, GivesLine};
ghost use Rattle.blif_format.specs.FirstFault.{Said, nothing_said, said_by, lines_fault, fault_if};
ghost use Rattle.blif_format.specs.declared.refusal.FaultKind.TheVariants.{NoModel};
ghost use Rattle.blif_reader.specs.Meant.{IsRefusal};
ghost use Rattle.blif_reader.specs.Inner.Progress.{AreReadTo, IsRead, places_with};

use crate::check::{Checker, take_line};
use crate::draft::{Draft, add_line, new_draft};
use crate::words::{is_text, word_of};
use blif_format::{FaultKind, ReadRefusal};
use blif_lines::{LineFault, LineReader, LogicalLine, Token};
use rm_base::Place;
use rm_model::NameKeys;
use std::alloc::Global;

/// What the lines so far have said, and the place of each `.names`.
#[derive(Drop)]
pub struct Lines<'a> {
    pub checker: Checker<'a>,
    pub draft: Draft,
    pub places: Vec<Place>,
}

fn push_place(places: &mut Vec<Place>, text: &[u8], first: &Token) -> Result<(), ReadRefusal>
    requires { IsWithin text.now first.now }
    ensures ok { OnOk result (places.new.items ≡ places_with text.now first.now places.old.items) }
    ensures err { IfErr result (λ e. e ≡ ReadRefusal.NoMemory) }
{
    if is_text(word_of(text, first), ".names") {
        match places.push(first.place) {
            Ok(()) => return Ok(()),
            Err(_) => return Err(ReadRefusal::NoMemory),
        }
    }
    Ok(())
}

// Takes the tokens of the next line.
fn take_tokens<'a>(
    alloc: Global,
    lines: &mut Lines<'a>,
    text: &'a [u8],
    first: &Token,
    rest: &[Token],
) -> Result<(), ReadRefusal>
    requires word { IsWithin text.now first.now }
    requires words { All (IsWithin text.now) rest.now }
    requires many { length rest.now ≤ 2 ^ 32 }
    requires small { length text.now ≤ 2 ^ 24 }
    ensures ok { (ls ms : List Logical) → AreReadTo text.now ls lines.old → GivesLine text.now ls ms (Some (first.now ∷ rest.now)) → OnOk result (AreReadTo text.now ms lines.new) }
    ensures err { (ls ms : List Logical) → AreReadTo text.now ls lines.old → GivesLine text.now ls ms (Some (first.now ∷ rest.now)) → IfErr result (λ e. IsRefusal e (lines_fault nothing_said (layout text.now))) }
{
    match take_line(&mut lines.checker, text, first, rest) {
        Ok(()) => {}
        Err(refusal) => return Err(refusal),
    }
    match add_line(alloc, &mut lines.draft, text, first, rest) {
        Ok(()) => {}
        Err(_) => return Err(ReadRefusal::NoMemory),
    }
    push_place(&mut lines.places, text, first)
}

// Takes the tokens of the next line, of which there are some.
fn take_all<'a>(
    alloc: Global,
    lines: &mut Lines<'a>,
    text: &'a [u8],
    tokens: &[Token],
) -> Result<(), ReadRefusal>
    requires words { All (IsWithin text.now) tokens.now }
    requires some { tokens.now ≢ [] }
    requires many { length tokens.now ≤ 2 ^ 32 }
    requires small { length text.now ≤ 2 ^ 24 }
    ensures ok { (ls ms : List Logical) → AreReadTo text.now ls lines.old → GivesLine text.now ls ms (Some tokens.now) → OnOk result (AreReadTo text.now ms lines.new) }
    ensures err { (ls ms : List Logical) → AreReadTo text.now ls lines.old → GivesLine text.now ls ms (Some tokens.now) → IfErr result (λ e. IsRefusal e (lines_fault nothing_said (layout text.now))) }
{
    match tokens.split_first() {
        Some((first, rest)) => take_tokens(alloc, lines, text, first, rest),
        None => unreachable!(),
    }
}

fn next_line(reader: &mut LineReader<'_>) -> Result<Option<LogicalLine>, ReadRefusal>
    ensures text { reader.new.text ≡ reader.old.text }
    ensures ok { IfOk result (λ found. Gives reader.old reader.new found) }
    ensures tokens { IfOk result (λ found. IfSome found (λ line. line ≢ [])) }
    ensures within { IfOk result (λ found. IfSome found (λ line. All (IsWithin reader.old.text) line)) }
    ensures fault { (said : Said) → IfErr result (λ e. IsRefusal e (lines_fault said (pending reader.old.rest))) }
{
    match reader.next() {
        Ok(found) => Ok(found),
        Err(LineFault::BadByte(place)) => Err(ReadRefusal::Fault {
            kind: FaultKind::BadByte,
            place,
        }),
        Err(LineFault::OpenJoin(place)) => Err(ReadRefusal::Fault {
            kind: FaultKind::OpenJoin,
            place,
        }),
        Err(LineFault::NoMemory) => Err(ReadRefusal::NoMemory),
    }
}

/// All lines of a text, or the first fault of lines.
pub fn read_lines<'a>(
    alloc: Global,
    keys: NameKeys,
    text: &'a [u8],
) -> Result<Lines<'a>, ReadRefusal>
    requires { length text.now ≤ 16777216 }
    ensures ok { IfOk result (λ r. IsRead text.now (said_by nothing_said (layout text.now)) r.checker r.draft r.places.items) }
    ensures faults { IfOk result (λ r. lines_fault nothing_said (layout text.now) ≡ fault_if (not r.checker.began) NoModel (record { line = 1; column = 1 })) }
    ensures err { IfErr result (λ e. IsRefusal e (lines_fault nothing_said (layout text.now))) }
{
    let mut reader = LineReader::new(alloc, text);
    let mut lines = Lines {
        checker: Checker::new(alloc, keys),
        draft: new_draft(alloc),
        places: Vec::new(alloc),
    };
    'lines: loop {
        match next_line(&mut reader) {
            Err(refusal) => return Err(refusal),
            Ok(None) => return Ok(lines),
            Ok(Some(line)) => match take_all(alloc, &mut lines, text, line.tokens()) {
                Ok(()) => {}
                Err(refusal) => return Err(refusal),
            },
        }
    }
}
