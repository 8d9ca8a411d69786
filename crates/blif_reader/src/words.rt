// The words of commands, and what each word behind a command has to be.
ghost use Rattle.std.specs.Prelude.{◌≡◌, ◌<◌, ◌≤◌, ◌^◌, ◌-◌, take, drop};
ghost use Rattle.blif_lines.specs.Reading.{IsWithin};
ghost use Rattle.std.specs.List.{list_any};
ghost use Rattle.rm_model.specs.Words.{is_word};
ghost use Rattle.rm_model.specs.Value.{is_among};
ghost use Rattle.blif_format.specs.Uses.{command_of as command_said, least_words as words_wanted};
ghost use Rattle.blif_format.specs.FirstFault.{latch_types, init_values};
ghost use Rattle.blif_reader.specs.Parts.{latch_part_at, part_in};
ghost use Rattle.blif_format.specs.Unsupported.{unsupported_words};

use blif_format::{Command, Part, Role};
use blif_lines::Token;

/// The bytes of a token.
pub fn word_of<'a>(text: &'a [u8], token: &Token) -> &'a [u8]
    requires { IsWithin text.now token.now }
    ensures { result.now ≡ take (token.now.end - token.now.start) (drop token.now.start text.now) }
{
    &text[token.start..token.end]
}

/// Whether the word is this one.
pub fn is_text(word: &[u8], text: &str) -> bool
    ensures { result ≡ is_word text.now word.now }
{
    text.as_bytes() == word
}

/// The command that a word is.
pub fn command_of(word: &[u8]) -> Option<Command>
    ensures { result ≡ command_said word.now }
{
    if is_text(word, ".model") {
        return Some(Command::Model);
    }
    if is_text(word, ".inputs") {
        return Some(Command::Inputs);
    }
    if is_text(word, ".outputs") {
        return Some(Command::Outputs);
    }
    if is_text(word, ".clock") {
        return Some(Command::Clock);
    }
    if is_text(word, ".names") {
        return Some(Command::Names);
    }
    if is_text(word, ".latch") {
        return Some(Command::Latch);
    }
    if is_text(word, ".end") {
        return Some(Command::End);
    }
    None
}

fn is_one_of(word: &[u8], texts: &[&str]) -> bool
    ensures { result ≡ list_any (λ t. is_word word.now t.now) texts.now }
{
    texts.iter().any(|text| word == text.as_bytes())
}

/// Whether the word is a command that is refused by name.
pub fn is_unsupported(word: &[u8]) -> bool
    ensures { result ≡ is_among unsupported_words word.now }
{
    is_one_of(
        word,
        &[
            ".subckt",
            ".gate",
            ".mlatch",
            ".search",
            ".exdc",
            ".blackbox",
            ".start_kiss",
            ".end_kiss",
            ".latch_order",
            ".code",
            ".i",
            ".o",
            ".p",
            ".s",
            ".r",
            ".cycle",
            ".clock_event",
            ".area",
            ".delay",
            ".wire_load_slope",
            ".wire",
            ".input_arrival",
            ".default_input_arrival",
            ".output_required",
            ".default_output_required",
            ".input_drive",
            ".default_input_drive",
            ".output_load",
            ".default_output_load",
            ".max_input_load",
            ".default_max_input_load",
            ".attr",
            ".cname",
            ".conn",
            ".param",
        ],
    )
}

/// Whether the word is the type of a latch.
pub fn is_latch_type(word: &[u8]) -> bool
    ensures { result ≡ is_among latch_types word.now }
{
    is_one_of(word, &["fe", "re", "ah", "al", "as"])
}

/// Whether the word is the init value of a latch.
pub fn is_init(word: &[u8]) -> bool
    ensures { result ≡ is_among init_values word.now }
{
    is_one_of(word, &["0", "1", "2", "3"])
}

/// How many words a command has at the least.
pub fn least_words(command: Command) -> usize
    ensures { result ≡ words_wanted command }
{
    match command {
        Command::Model | Command::Names => 1,
        Command::Latch => 2,
        _ => 0,
    }
}

fn latch_part(count: usize, index: usize) -> Part
    ensures { result ≡ latch_part_at count index }
{
    match index {
        0 => Part::Name(Role::LatchInput),
        1 => Part::Name(Role::LatchOutput),
        2 => {
            if count == 3 {
                Part::Init
            } else {
                Part::LatchType
            }
        }
        3 => Part::Name(Role::Control),
        4 => Part::Init,
        _ => Part::Extra,
    }
}

/// What the word at this index has to be, of so many behind the command.
pub fn part_at(command: Command, count: usize, index: usize) -> Part
    requires small { count ≤ 2 ^ 32 }
    requires within { index < count }
    ensures { result ≡ part_in command count index }
{
    match command {
        Command::Model => { if index == 0 { Part::Title } else { Part::Extra } }
        Command::Inputs => Part::Name(Role::Input),
        Command::Outputs => Part::Name(Role::Output),
        Command::Clock => Part::Name(Role::ClockInput),
        Command::Names => {
            if index + 1 == count {
                Part::Name(Role::CoverOutput)
            } else {
                Part::Name(Role::CoverInput)
            }
        }
        Command::Latch => latch_part(count, index),
        Command::End => Part::Extra,
    }
}
