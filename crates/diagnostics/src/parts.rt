// The parts of which messages are made.
ghost use Rattle.std.specs.Prelude.{◌≡◌, ◌++◌, OnOk};
ghost use Rattle.std.specs.Fmt.{decimal};
ghost use Rattle.diagnostics.specs.Escaping.{escaped};
ghost use Rattle.diagnostics.specs.Messages.{coloured, part_text, parts_text};

use crate::escaping::{push_escaped, push_text, push_word};
use itoa::Buffer;
use rm_base::NoMemory;

/// A part of a message.
#[derive(Clone, Copy)]
pub enum Part<'a> {
    /// Words of the program's own. Line ends stay.
    Text(&'a str),
    /// Bytes from outside, such as a name, a word of a file or what the host says: escaped, and cut after 60 bytes.
    Word(&'a [u8]),
    Number(u64),
    /// Words of the program's own that are red where there are colours.
    Red(&'a str),
}

/// Adds a text that has a colour, whose digit this is, where there are colours.
pub(crate) fn push_coloured(
    out: &mut Vec<u8>,
    colours: bool,
    digit: u8,
    text: &str,
) -> Result<(), NoMemory>
    ensures { OnOk result (out.new.items ≡ out.old.items ++ coloured colours digit text.now) }
{
    if !colours {
        return push_text(out, text.as_bytes());
    }
    let begin = [27, b'[', b'3', digit, b'm'];
    let end = [27, b'[', b'0', b'm'];
    out.extend_from_slice(&begin)?;
    push_text(out, text.as_bytes())?;
    out.extend_from_slice(&end)?;
    Ok(())
}

/// Adds the digits of a number.
pub(crate) fn push_number(out: &mut Vec<u8>, number: u64) -> Result<(), NoMemory>
    ensures { OnOk result (out.new.items ≡ out.old.items ++ escaped (decimal number)) }
{
    let mut buffer = Buffer::new();
    push_escaped(out, buffer.format(number).as_bytes())
}

fn push_part(out: &mut Vec<u8>, colours: bool, part: &Part<'_>) -> Result<(), NoMemory>
    ensures { OnOk result (out.new.items ≡ out.old.items ++ part_text colours part.now) }
{
    match part {
        Part::Text(text) => push_text(out, text.as_bytes()),
        Part::Word(word) => push_word(out, word),
        Part::Number(number) => push_number(out, *number),
        Part::Red(text) => push_coloured(out, colours, b'1', text),
    }
}

/// Adds the parts.
pub(crate) fn push_parts(
    out: &mut Vec<u8>,
    colours: bool,
    parts: &[Part<'_>],
) -> Result<(), NoMemory>
    ensures { OnOk result (out.new.items ≡ out.old.items ++ parts_text colours parts.now) }
{
    for part in parts {
        push_part(out, colours, part)?;
    }
    Ok(())
}
