// The first fault of the words of a line, after those before it.
ghost use Rattle.std.specs.Prelude.{◌≡◌, ◌≢◌, ◌≤◌, ◌<◌, ◌-◌, ◌^◌, ◌∷◌, ◌||◌, [], length, take, drop, false, true, List, ℕ, OnOk, IfOk, IfErr, All, None, Some};
ghost use Rattle.rm_model.specs.Words.{is_word};
ghost use Rattle.rm_base.specs.Words.{Word};
ghost use Rattle.blif_lines.specs.Layout.{Spot};
ghost use Rattle.blif_lines.specs.Reading.{spot_of, IsWithin};
ghost use Rattle.blif_format.specs.Text.{on_word};
ghost use Rattle.blif_format.specs.Uses.{Use, parts_of, command_of as command_said};
ghost use Rattle.blif_format.specs.FirstFault.{Said, part_fault, command_fault, ending_fault, character_fault, rest_fault, row_fault, or_else, extra_fault, last_word, nothing_said, dotted_fault, first_line_fault, row_fault_in, is_dotted, words_fault};
ghost use Rattle.blif_reader.specs.Lines.{line_at, spots_at, dotted_line_fault};
ghost use Rattle.blif_reader.specs.Meant.{IsRefusal};
ghost use Rattle.blif_reader.specs.Meant.{refusal_of};
ghost use Rattle.blif_reader.specs.Inner.Tally.{IsTally, TakesParts};
ghost use Rattle.blif_reader.specs.Inner.Said.{IsSaid, Passes};
ghost use Rattle.blif_reader.specs.Rows.{said_ending, said_cover};
ghost use Rattle.blif_format.specs.FirstFault.{is_literal as literal_byte};
ghost use Rattle.blif_reader.specs.Rows.{columns_on, inputs_fault, word_fault, cover_for, ends, with_last};
ghost use Rattle.std.specs.Option.{option_map};

use crate::names::{Names, check_length};
use crate::refusals::fault;
use crate::rows::{OpenCover, check_row, with_ending};
use crate::words::{
    command_of, is_init, is_latch_type, is_text, is_unsupported, least_words, part_at, word_of,
};
use blif_format::{Command, FaultKind, Part, ReadRefusal, Role};
use blif_lines::Token;
use rm_base::Place;
use rm_model::NameKeys;
use std::alloc::Global;

/// What the lines so far have said.
#[derive(Drop)]
pub struct Checker<'a> {
    pub began: bool,
    pub ended: bool,
    pub cover: Option<OpenCover>,
    pub names: Names<'a>,
}

fn take_name<'a>(
    names: &mut Names<'a>,
    text: &'a [u8],
    role: Role,
    earlier: usize,
    token: &Token,
) -> Result<(), ReadRefusal>
    requires word { IsWithin text.now token.now }
    requires small { earlier ≤ 2 ^ 32 }
    ensures ok { (had : List Use) → IsTally had names.old → OnOk result (TakesParts had ((Part.Name role, spot_of text.now token.now) ∷ []) (part_fault had earlier (Part.Name role, spot_of text.now token.now)) names.new) }
    ensures err { (had : List Use) → IsTally had names.old → IfErr result (λ e. IsRefusal e (part_fault had earlier (Part.Name role, spot_of text.now token.now))) }
{
    let word = word_of(text, token);
    if role == Role::Control && is_text(word, "NIL") {
        return Ok(());
    }
    names.take(role, word, earlier, token.place)
}

/// Refuses a word that is no name, by what it has to be.
pub fn check_word(text: &[u8], part: Part, token: &Token) -> Result<(), ReadRefusal>
    requires { IsWithin text.now token.now }
    ensures { refusal_of result ≡ word_fault part (spot_of text.now token.now) }
{
    let word = word_of(text, token);
    match part {
        Part::Title => check_length(word, token.place),
        Part::LatchType => {
            if is_latch_type(word) {
                Ok(())
            } else {
                fault(FaultKind::BadLatchWord, token.place)
            }
        }
        Part::Init => {
            if is_init(word) {
                Ok(())
            } else {
                fault(FaultKind::BadLatchWord, token.place)
            }
        }
        Part::Extra => fault(FaultKind::ExtraWord, token.place),
        Part::Name(_) => Ok(()),
    }
}

fn take_part<'a>(
    names: &mut Names<'a>,
    text: &'a [u8],
    part: Part,
    earlier: usize,
    token: &Token,
) -> Result<(), ReadRefusal>
    requires word { IsWithin text.now token.now }
    requires small { earlier ≤ 2 ^ 32 }
    ensures ok { (had : List Use) → IsTally had names.old → OnOk result (TakesParts had ((part, spot_of text.now token.now) ∷ []) (part_fault had earlier (part, spot_of text.now token.now)) names.new) }
    ensures err { (had : List Use) → IsTally had names.old → IfErr result (λ e. IsRefusal e (part_fault had earlier (part, spot_of text.now token.now))) }
{
    match part {
        Part::Name(role) => take_name(names, text, role, earlier, token),
        Part::Title => check_word(text, Part::Title, token),
        Part::LatchType => check_word(text, Part::LatchType, token),
        Part::Init => check_word(text, Part::Init, token),
        Part::Extra => check_word(text, Part::Extra, token),
    }
}

// The words behind a command, from left to right.
fn take_words<'a>(
    names: &mut Names<'a>,
    text: &'a [u8],
    command: Command,
    first: &Token,
    words: &[Token],
) -> Result<(), ReadRefusal>
    requires words { All (IsWithin text.now) words.now }
    requires small { length words.now ≤ 2 ^ 32 }
    ensures ok { (had : List Use) → IsTally had names.old → OnOk result (TakesParts had (parts_of command (spots_at text.now words.now)) (command_fault had (spot_of text.now first.now) command (spots_at text.now words.now)) names.new) }
    ensures err { (had : List Use) → IsTally had names.old → IfErr result (λ e. IsRefusal e (command_fault had (spot_of text.now first.now) command (spots_at text.now words.now))) }
{
    let count = words.len();
    for (i, token) in words.iter().enumerate() {
        match take_part(names, text, part_at(command, count, i), i, token) {
            Ok(()) => {}
            Err(refusal) => return Err(refusal),
        }
    }
    if count < least_words(command) {
        return fault(FaultKind::MissingWord, first.place);
    }
    Ok(())
}

// The cover to which rows behind a command may belong, with so many words behind the command.
fn cover_behind(command: Command, count: usize) -> Option<OpenCover>
    ensures { option_map said_cover result ≡ cover_for command count }
{
    match command {
        Command::Names => Some(OpenCover {
            inputs: count.saturating_sub(1),
            ending: None,
        }),
        _ => None,
    }
}

fn is_end(command: Command) -> bool
    ensures { result ≡ ends command }
{
    match command {
        Command::End => true,
        _ => false,
    }
}

fn either(one: bool, other: bool) -> bool
    ensures { result ≡ (one || other) }
{
    one || other
}

impl<'a> Checker<'a> {
    pub fn new(alloc: Global, keys: NameKeys) -> Checker<'a>
        ensures { IsSaid nothing_said result }
    {
        Checker {
            began: false,
            ended: false,
            cover: None,
            names: Names::new(alloc, keys),
        }
    }
}

// A command whose word is known.
fn take_command<'a>(
    checker: &mut Checker<'a>,
    text: &'a [u8],
    command: Command,
    first: &Token,
    rest: &[Token],
) -> Result<(), ReadRefusal>
    requires words { All (IsWithin text.now) rest.now }
    requires small { length rest.now ≤ 2 ^ 32 }
    requires command { command_said (spot_of text.now first.now).word ≡ Some command }
    ensures ok { (said : Said) → IsSaid said checker.old → OnOk result (Passes said (line_at text.now first.now rest.now) (command_fault said.uses (spot_of text.now first.now) command (spots_at text.now rest.now)) checker.new) }
    ensures err { (said : Said) → IsSaid said checker.old → IfErr result (λ e. IsRefusal e (command_fault said.uses (spot_of text.now first.now) command (spots_at text.now rest.now))) }
{
    match take_words(&mut checker.names, text, command, first, rest) {
        Ok(()) => {}
        Err(refusal) => return Err(refusal),
    }
    checker.began = true;
    checker.ended = either(checker.ended, is_end(command));
    checker.cover = cover_behind(command, rest.len());
    Ok(())
}

fn take_other<'a>(
    checker: &mut Checker<'a>,
    text: &'a [u8],
    command: Command,
    first: &Token,
    rest: &[Token],
) -> Result<(), ReadRefusal>
    requires words { All (IsWithin text.now) rest.now }
    requires small { length rest.now ≤ 2 ^ 32 }
    requires command { command_said (spot_of text.now first.now).word ≡ Some command }
    ensures ok { (said : Said) → IsSaid said checker.old → OnOk result (Passes said (line_at text.now first.now rest.now) (dotted_fault said.uses (spot_of text.now first.now) (spots_at text.now rest.now) (Some command)) checker.new) }
    ensures err { (said : Said) → IsSaid said checker.old → IfErr result (λ e. IsRefusal e (dotted_fault said.uses (spot_of text.now first.now) (spots_at text.now rest.now) (Some command))) }
{
    match command {
        Command::Model => fault(FaultKind::Unsupported, first.place),
        Command::Inputs => take_command(checker, text, Command::Inputs, first, rest),
        Command::Outputs => take_command(checker, text, Command::Outputs, first, rest),
        Command::Clock => take_command(checker, text, Command::Clock, first, rest),
        Command::Names => take_command(checker, text, Command::Names, first, rest),
        Command::Latch => take_command(checker, text, Command::Latch, first, rest),
        Command::End => take_command(checker, text, Command::End, first, rest),
    }
}

fn take_dotted<'a>(
    checker: &mut Checker<'a>,
    text: &'a [u8],
    first: &Token,
    rest: &[Token],
) -> Result<(), ReadRefusal>
    requires word { IsWithin text.now first.now }
    requires words { All (IsWithin text.now) rest.now }
    requires small { length rest.now ≤ 2 ^ 32 }
    ensures ok { (said : Said) → IsSaid said checker.old → OnOk result (Passes said (line_at text.now first.now rest.now) (dotted_line_fault said.uses text.now first.now rest.now) checker.new) }
    ensures err { (said : Said) → IsSaid said checker.old → IfErr result (λ e. IsRefusal e (dotted_line_fault said.uses text.now first.now rest.now)) }
{
    let word = word_of(text, first);
    match command_of(word) {
        Some(command) => take_other(checker, text, command, first, rest),
        None => {
            if is_unsupported(word) {
                fault(FaultKind::Unsupported, first.place)
            } else {
                fault(FaultKind::UnknownCommand, first.place)
            }
        }
    }
}

fn take_first<'a>(
    checker: &mut Checker<'a>,
    text: &'a [u8],
    first: &Token,
    rest: &[Token],
) -> Result<(), ReadRefusal>
    requires word { IsWithin text.now first.now }
    requires words { All (IsWithin text.now) rest.now }
    requires small { length rest.now ≤ 2 ^ 32 }
    ensures ok { (said : Said) → IsSaid said checker.old → OnOk result (Passes said (line_at text.now first.now rest.now) (first_line_fault (spot_of text.now first.now) (spots_at text.now rest.now)) checker.new) }
    ensures err { (said : Said) → IsSaid said checker.old → IfErr result (λ e. IsRefusal e (first_line_fault (spot_of text.now first.now) (spots_at text.now rest.now))) }
{
    if !is_text(word_of(text, first), ".model") {
        return fault(FaultKind::NoModel, first.place);
    }
    take_command(checker, text, Command::Model, first, rest)
}

fn take_row<'a>(
    checker: &mut Checker<'a>,
    text: &'a [u8],
    first: &Token,
    rest: &[Token],
) -> Result<(), ReadRefusal>
    requires word { IsWithin text.now first.now }
    requires words { All (IsWithin text.now) rest.now }
    requires small { length text.now ≤ 2 ^ 24 }
    requires began { checker.old.began ≡ true }
    requires row { is_dotted (spot_of text.now first.now).word ≡ false }
    ensures ok { (said : Said) → IsSaid said checker.old → OnOk result (Passes said (line_at text.now first.now rest.now) (row_fault_in said.cover (spot_of text.now first.now) (spots_at text.now rest.now)) checker.new) }
    ensures err { (said : Said) → IsSaid said checker.old → IfErr result (λ e. IsRefusal e (row_fault_in said.cover (spot_of text.now first.now) (spots_at text.now rest.now))) }
{
    match checker.cover {
        None => fault(FaultKind::RowOutsideCover, first.place),
        Some(cover) => match check_row(text, cover, first, rest) {
            Ok(is_on) => {
                checker.cover = Some(with_ending(cover, is_on));
                Ok(())
            }
            Err(refusal) => Err(refusal),
        },
    }
}

fn starts_with_dot(text: &[u8], token: &Token) -> bool
    requires { IsWithin text.now token.now }
    ensures { result ≡ is_dotted (spot_of text.now token.now).word }
{
    match word_of(text, token).first() {
        Some(b) => *b == 46,
        None => false,
    }
}

/// Takes a line with tokens, or refuses it at its first fault.
pub fn take_line<'a>(
    checker: &mut Checker<'a>,
    text: &'a [u8],
    first: &Token,
    rest: &[Token],
) -> Result<(), ReadRefusal>
    requires word { IsWithin text.now first.now }
    requires words { All (IsWithin text.now) rest.now }
    requires many { length rest.now ≤ 2 ^ 32 }
    requires small { length text.now ≤ 2 ^ 24 }
    ensures ok { (said : Said) → IsSaid said checker.old → OnOk result (Passes said (line_at text.now first.now rest.now) (words_fault said (line_at text.now first.now rest.now)) checker.new) }
    ensures err { (said : Said) → IsSaid said checker.old → IfErr result (λ e. IsRefusal e (words_fault said (line_at text.now first.now rest.now))) }
{
    if checker.ended {
        return fault(FaultKind::AfterEnd, first.place);
    }
    if !checker.began {
        return take_first(checker, text, first, rest);
    }
    if starts_with_dot(text, first) {
        return take_dotted(checker, text, first, rest);
    }
    take_row(checker, text, first, rest)
}
