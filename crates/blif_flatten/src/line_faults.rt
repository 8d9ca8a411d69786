// The first fault of the lines of a section.
ghost use Rattle.std.specs.Prelude.{◌≡◌, ◌≤◌, ◌<◌, ◌+◌, ◌^◌, ◌&&◌, ◌++◌, ◌∷◌, [], nat_lt, true, false, fold, length, map, OnOk, IfOk, IfErr, All, None, Some};
ghost use Rattle.std.specs.Option.{option_map};
ghost use Rattle.rm_base.specs.Words.{Word};
ghost use Rattle.rm_model.specs.Value.{is_among};
ghost use Rattle.rm_model.specs.WellFormed.{is_distinct};
ghost use Rattle.blif_lines.specs.Reading.{IsWithin, spot_of};
ghost use Rattle.blif_format.specs.Uses.{command_of as command_said, parts_of};
ghost use Rattle.blif_format.specs.FirstFault.{extra_fault, is_cover_input, is_dotted, limit_if};
ghost use Rattle.blif_format.specs.declared.refusal.Quantity.TheVariants.{Inputs};
ghost use Rattle.blif_reader.specs.Lines.{spots_at, line_at};
ghost use Rattle.blif_reader.specs.Meant.{IsRefusal, refusal_of};
ghost use Rattle.blif_reader.specs.Rows.{said_cover};
ghost use Rattle.blif_flatten.specs.Calls.{sides_at};
ghost use Rattle.blif_flatten.specs.LineFaults.{after_line, body_fault, call_fault, command_fault, dotted_fault, line_fault, name_fault, nothing_said, outputs_after, outputs_with, part_fault, pins_fault, section_fault, sections_fault, sides_fault, title_fault, titles_with};
ghost use Rattle.blif_flatten.specs.CallFaults.{module_name, plain_modules};
ghost use Rattle.blif_flatten.specs.Sections.{plain_module};
ghost use Rattle.blif_flatten.specs.Inner.Said.{Takes, cover_by, said_of};
ghost use Rattle.blif_flatten.specs.Inner.Tokens.{AreWithin, IsLineWithin, IsSectionWithin, lines_at, section_at, sections_at};

use crate::sections::Section;
use crate::sides::sides_of;
use blif_format::{Command, FaultKind, Part, Quantity, ReadRefusal, Role};
use blif_lines::Token;
use blif_reader::{
    OpenCover, check_length, check_row, check_word, command_of, fault, is_text, is_unsupported,
    least_words, limit, part_at, with_ending, word_of,
};
use rm_model::{Listed, NameKeys, NameTable};
use std::alloc::Global;

/// What the lines of a section so far have said.
#[derive(Drop)]
pub struct Body<'a> {
    pub ended: bool,
    pub cover: Option<OpenCover>,
    pub outputs: NameTable<'a>,
}

fn check_inputs(role: Role, earlier: usize, token: &Token) -> Result<(), ReadRefusal>
    requires { earlier ≤ 2 ^ 32 }
    ensures { refusal_of result ≡ limit_if (is_cover_input role && nat_lt 65535 earlier) Inputs (earlier + 1) token.now.place }
{
    if role == Role::CoverInput && earlier > 65_535 {
        return limit(Quantity::Inputs, earlier + 1, token.place);
    }
    Ok(())
}

fn check_name<'a>(
    outputs: &NameTable<'a>,
    text: &'a [u8],
    role: Role,
    earlier: usize,
    token: &Token,
) -> Result<(), ReadRefusal>
    requires word { IsWithin text.now token.now }
    requires small { earlier ≤ 2 ^ 32 }
    ensures { refusal_of result ≡ name_fault outputs.now earlier role (spot_of text.now token.now) }
{
    let word = word_of(text, token);
    if role == Role::Output && outputs.has(word) {
        return fault(FaultKind::DoubleOutput, token.place);
    }
    check_length(word, token.place)?;
    check_inputs(role, earlier, token)
}

// Adds a name that is an output to the outputs.
fn push_output<'a>(
    outputs: &mut NameTable<'a>,
    text: &'a [u8],
    role: Role,
    token: &Token,
) -> Result<(), ReadRefusal>
    requires word { IsWithin text.now token.now }
    requires new { role ≡ Role.Output → is_among outputs.old (spot_of text.now token.now).word ≡ false }
    ensures ok { OnOk result (outputs.new ≡ outputs_with outputs.old (Part.Name role, spot_of text.now token.now)) }
    ensures err { IfErr result (λ e. e ≡ ReadRefusal.NoMemory) }
{
    if role == Role::Output {
        match outputs.push(word_of(text, token)) {
            Ok(()) => return Ok(()),
            Err(_) => return Err(ReadRefusal::NoMemory),
        }
    }
    Ok(())
}

fn take_name<'a>(
    outputs: &mut NameTable<'a>,
    text: &'a [u8],
    role: Role,
    earlier: usize,
    token: &Token,
) -> Result<(), ReadRefusal>
    requires word { IsWithin text.now token.now }
    requires small { earlier ≤ 2 ^ 32 }
    ensures ok { OnOk result (Takes outputs.old earlier (Part.Name role, spot_of text.now token.now) outputs.new) }
    ensures err { IfErr result (λ e. IsRefusal e (part_fault outputs.old earlier (Part.Name role, spot_of text.now token.now))) }
{
    match check_name(outputs, text, role, earlier, token) {
        Ok(()) => {}
        Err(refusal) => return Err(refusal),
    }
    push_output(outputs, text, role, token)
}

fn take_part<'a>(
    outputs: &mut NameTable<'a>,
    text: &'a [u8],
    part: Part,
    earlier: usize,
    token: &Token,
) -> Result<(), ReadRefusal>
    requires word { IsWithin text.now token.now }
    requires small { earlier ≤ 2 ^ 32 }
    ensures ok { OnOk result (Takes outputs.old earlier (part, spot_of text.now token.now) outputs.new) }
    ensures err { IfErr result (λ e. IsRefusal e (part_fault outputs.old earlier (part, spot_of text.now token.now))) }
{
    match part {
        Part::Name(role) => take_name(outputs, text, role, earlier, token),
        Part::Title => check_word(text, Part::Title, token),
        Part::LatchType => check_word(text, Part::LatchType, token),
        Part::Init => check_word(text, Part::Init, token),
        Part::Extra => check_word(text, Part::Extra, token),
    }
}

// The words behind a command, from left to right.
fn take_words<'a>(
    outputs: &mut NameTable<'a>,
    text: &'a [u8],
    command: Command,
    first: &Token,
    words: &[Token],
) -> Result<(), ReadRefusal>
    requires words { All (IsWithin text.now) words.now }
    requires small { length words.now ≤ 2 ^ 32 }
    ensures faultless { OnOk result (command_fault outputs.old (spot_of text.now first.now) command (spots_at text.now words.now) ≡ None) }
    ensures outputs { OnOk result (outputs.new ≡ fold outputs_with outputs.old (parts_of command (spots_at text.now words.now))) }
    ensures err { IfErr result (λ e. IsRefusal e (command_fault outputs.old (spot_of text.now first.now) command (spots_at text.now words.now))) }
{
    let count = words.len();
    for (i, token) in words.iter().enumerate() {
        match take_part(outputs, text, part_at(command, count, i), i, token) {
            Ok(()) => {}
            Err(refusal) => return Err(refusal),
        }
    }
    if count < least_words(command) {
        return fault(FaultKind::MissingWord, first.place);
    }
    Ok(())
}

fn check_sides(text: &[u8], token: &Token) -> Result<(), ReadRefusal>
    requires { IsWithin text.now token.now }
    ensures { refusal_of result ≡ sides_fault token.now.place (sides_at 61 (spot_of text.now token.now).word) }
{
    match sides_of(word_of(text, token), b'=') {
        None => fault(FaultKind::BadPin, token.place),
        Some((formal, actual)) => {
            check_length(formal, token.place)?;
            check_length(actual, token.place)?;
            if formal.is_empty() || actual.is_empty() {
                return fault(FaultKind::BadPin, token.place);
            }
            Ok(())
        }
    }
}

fn check_pins(text: &[u8], pins: &[Token]) -> Result<(), ReadRefusal>
    requires { All (IsWithin text.now) pins.now }
    ensures { refusal_of result ≡ pins_fault (spots_at text.now pins.now) }
{
    for pin in pins {
        match check_sides(text, pin) {
            Ok(()) => {}
            Err(refusal) => return Err(refusal),
        }
    }
    Ok(())
}

fn check_call(text: &[u8], first: &Token, rest: &[Token]) -> Result<(), ReadRefusal>
    requires { All (IsWithin text.now) rest.now }
    ensures { refusal_of result ≡ call_fault (spot_of text.now first.now) (spots_at text.now rest.now) }
{
    match rest.split_first() {
        None => fault(FaultKind::MissingWord, first.place),
        Some((name, pins)) => {
            check_length(word_of(text, name), name.place)?;
            check_pins(text, pins)
        }
    }
}

// The cover to which rows behind a line that begins with a dot may belong.
fn cover_behind(word: &[u8], count: usize) -> Option<OpenCover>
    ensures { option_map said_cover result ≡ cover_by word.now count }
{
    if is_text(word, ".names") {
        return Some(OpenCover {
            inputs: count.saturating_sub(1),
            ending: None,
        });
    }
    None
}

// The words of a line that begins with a dot.
fn take_dotted_words<'a>(
    outputs: &mut NameTable<'a>,
    text: &'a [u8],
    first: &Token,
    rest: &[Token],
) -> Result<(), ReadRefusal>
    requires word { IsWithin text.now first.now }
    requires words { All (IsWithin text.now) rest.now }
    requires small { length rest.now ≤ 2 ^ 32 }
    ensures faultless { OnOk result (dotted_fault outputs.old (spot_of text.now first.now) (spots_at text.now rest.now) ≡ None) }
    ensures outputs { OnOk result (outputs.new ≡ outputs_after outputs.old (spots_at text.now rest.now) (command_said (spot_of text.now first.now).word)) }
    ensures err { IfErr result (λ e. IsRefusal e (dotted_fault outputs.old (spot_of text.now first.now) (spots_at text.now rest.now))) }
{
    let word = word_of(text, first);
    if is_text(word, ".subckt") {
        return check_call(text, first, rest);
    }
    match command_of(word) {
        Some(command) => take_words(outputs, text, command, first, rest),
        None => {
            if is_unsupported(word) {
                fault(FaultKind::Unsupported, first.place)
            } else {
                fault(FaultKind::UnknownCommand, first.place)
            }
        }
    }
}

fn take_dotted<'a>(
    body: &mut Body<'a>,
    text: &'a [u8],
    first: &Token,
    rest: &[Token],
) -> Result<(), ReadRefusal>
    requires word { IsWithin text.now first.now }
    requires words { All (IsWithin text.now) rest.now }
    requires small { length rest.now ≤ 2 ^ 32 }
    requires dotted { is_dotted (spot_of text.now first.now).word ≡ true }
    requires going { body.old.ended ≡ false }
    ensures faultless { OnOk result (line_fault (said_of body.old) (line_at text.now first.now rest.now) ≡ None) }
    ensures said { OnOk result (said_of body.new ≡ after_line (said_of body.old) (line_at text.now first.now rest.now)) }
    ensures err { IfErr result (λ e. IsRefusal e (line_fault (said_of body.old) (line_at text.now first.now rest.now))) }
{
    match take_dotted_words(&mut body.outputs, text, first, rest) {
        Ok(()) => {}
        Err(refusal) => return Err(refusal),
    }
    let word = word_of(text, first);
    body.ended = is_text(word, ".end");
    body.cover = cover_behind(word, rest.len());
    Ok(())
}

fn take_row<'a>(
    body: &mut Body<'a>,
    text: &'a [u8],
    first: &Token,
    rest: &[Token],
) -> Result<(), ReadRefusal>
    requires word { IsWithin text.now first.now }
    requires words { All (IsWithin text.now) rest.now }
    requires small { length text.now < 2 ^ 32 }
    requires row { is_dotted (spot_of text.now first.now).word ≡ false }
    requires going { body.old.ended ≡ false }
    ensures faultless { OnOk result (line_fault (said_of body.old) (line_at text.now first.now rest.now) ≡ None) }
    ensures said { OnOk result (said_of body.new ≡ after_line (said_of body.old) (line_at text.now first.now rest.now)) }
    ensures err { IfErr result (λ e. IsRefusal e (line_fault (said_of body.old) (line_at text.now first.now rest.now))) }
{
    match body.cover {
        None => fault(FaultKind::RowOutsideCover, first.place),
        Some(cover) => match check_row(text, cover, first, rest) {
            Ok(is_on) => {
                body.cover = Some(with_ending(cover, is_on));
                Ok(())
            }
            Err(refusal) => Err(refusal),
        },
    }
}

fn starts_with_dot(text: &[u8], token: &Token) -> bool
    requires { IsWithin text.now token.now }
    ensures { result ≡ is_dotted (spot_of text.now token.now).word }
{
    match word_of(text, token).first() {
        Some(b) => *b == 46,
        None => false,
    }
}

// Takes a line, or refuses it at its first fault.
fn take_line<'a>(body: &mut Body<'a>, text: &'a [u8], line: &[Token]) -> Result<(), ReadRefusal>
    requires within { IsLineWithin text.now line.now }
    requires small { length text.now < 2 ^ 32 }
    ensures faultless { OnOk result (line_fault (said_of body.old) (spots_at text.now line.now) ≡ None) }
    ensures said { OnOk result (said_of body.new ≡ after_line (said_of body.old) (spots_at text.now line.now)) }
    ensures err { IfErr result (λ e. IsRefusal e (line_fault (said_of body.old) (spots_at text.now line.now))) }
{
    match line.split_first() {
        None => Ok(()),
        Some((first, rest)) => {
            if body.ended {
                return fault(FaultKind::AfterEnd, first.place);
            }
            if starts_with_dot(text, first) {
                return take_dotted(body, text, first, rest);
            }
            take_row(body, text, first, rest)
        }
    }
}

fn check_body(
    alloc: Global,
    keys: NameKeys,
    text: &[u8],
    lines: &[Listed<Token>],
) -> Result<(), ReadRefusal>
    requires within { All (IsLineWithin text.now) lines.now }
    requires small { length text.now < 2 ^ 32 }
    ensures ok { OnOk result (body_fault nothing_said (lines_at text.now lines.now) ≡ None) }
    ensures err { IfErr result (λ e. IsRefusal e (body_fault nothing_said (lines_at text.now lines.now))) }
{
    let mut body = Body {
        ended: false,
        cover: None,
        outputs: NameTable::new(alloc, keys),
    };
    for line in lines {
        match take_line(&mut body, text, line.items()) {
            Ok(()) => {}
            Err(refusal) => return Err(refusal),
        }
    }
    Ok(())
}

// Looks at the words behind the name of a model.
fn check_extra(extra: &[Token]) -> Result<(), ReadRefusal>
    ensures { (text : Word) → refusal_of result ≡ extra_fault (spots_at text extra.now) }
{
    match extra.first() {
        Some(token) => fault(FaultKind::ExtraWord, token.place),
        None => Ok(()),
    }
}

// Takes the name of a model, which no earlier one has.
fn take_title<'a>(
    models: &mut NameTable<'a>,
    text: &'a [u8],
    first: &Token,
    rest: &[Token],
) -> Result<(), ReadRefusal>
    requires { All (IsWithin text.now) rest.now }
    ensures faultless { OnOk result (title_fault models.old (line_at text.now first.now rest.now) ≡ None) }
    ensures models { OnOk result (models.new ≡ titles_with models.old (line_at text.now first.now rest.now)) }
    ensures once { is_distinct models.old ≡ true → OnOk result (is_distinct models.new ≡ true) }
    ensures err { IfErr result (λ e. IsRefusal e (title_fault models.old (line_at text.now first.now rest.now))) }
{
    match rest.split_first() {
        None => fault(FaultKind::MissingWord, first.place),
        Some((name, extra)) => {
            let word = word_of(text, name);
            check_length(word, name.place)?;
            if models.has(word) {
                return fault(FaultKind::DoubleModel, name.place);
            }
            check_extra(extra)?;
            match models.push(word) {
                Ok(()) => Ok(()),
                Err(_) => Err(ReadRefusal::NoMemory),
            }
        }
    }
}

fn check_section<'a>(
    alloc: Global,
    keys: NameKeys,
    models: &mut NameTable<'a>,
    text: &'a [u8],
    section: &Section,
) -> Result<(), ReadRefusal>
    requires within { IsSectionWithin text.now section.now }
    requires small { length text.now < 2 ^ 32 }
    requires once { is_distinct models.old ≡ true }
    ensures faultless { OnOk result (section_fault models.old (section_at text.now section.now) ≡ None) }
    ensures models { OnOk result (models.new ≡ titles_with models.old (section_at text.now section.now).title) }
    ensures named { OnOk result (models.new ≡ models.old ++ module_name (plain_module (section_at text.now section.now)) ∷ []) }
    ensures once { OnOk result (is_distinct models.new ≡ true) }
    ensures err { IfErr result (λ e. IsRefusal e (section_fault models.old (section_at text.now section.now))) }
{
    match section.title.items().split_first() {
        None => unreachable!(),
        Some((first, rest)) => match take_title(models, text, first, rest) {
            Ok(()) => {}
            Err(refusal) => return Err(refusal),
        },
    }
    check_body(alloc, keys, text, section.body.items())
}

/// The names of the models of sections, or the first fault of their lines.
pub fn check_sections<'a>(
    alloc: Global,
    keys: NameKeys,
    text: &'a [u8],
    sections: &[Section],
) -> Result<NameTable<'a>, ReadRefusal>
    requires within { AreWithin text.now sections.now }
    requires small { length text.now < 2 ^ 32 }
    ensures ok { OnOk result (sections_fault [] (sections_at text.now sections.now) ≡ None) }
    ensures names { IfOk result (λ names. names ≡ map module_name (plain_modules (sections_at text.now sections.now))) }
    ensures once { IfOk result (λ names. is_distinct names ≡ true) }
    ensures err { IfErr result (λ e. IsRefusal e (sections_fault [] (sections_at text.now sections.now))) }
{
    let mut models = NameTable::new(alloc, keys);
    for section in sections {
        match check_section(alloc, keys, &mut models, text, section) {
            Ok(()) => {}
            Err(refusal) => return Err(refusal),
        }
    }
    Ok(models)
}
