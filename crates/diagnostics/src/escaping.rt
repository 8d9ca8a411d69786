// Bytes from outside as they are shown.
ghost use Rattle.std.specs.Prelude.{◌≡◌, ◌<◌, ◌++◌, OnOk, take};
ghost use Rattle.diagnostics.specs.Escaping.{escape as escape_of, escape_in_text, escaped, hex_digit as digit_of, in_lines, shown_word};
ghost use Rattle.diagnostics.specs.Terminal.{is_printable as is_shown};

use rm_base::NoMemory;

const MOST_OF_A_WORD: usize = 60;

/// The first bytes, at most so many.
pub(crate) fn front(bytes: &[u8], most: usize) -> &[u8]
    ensures { result.now ≡ take most bytes.now }
{
    &bytes[..most.min(bytes.len())]
}

fn is_printable(byte: u8) -> bool
    ensures { result ≡ is_shown byte }
{
    31 < byte && byte < 127
}

fn hex_digit(digit: u8) -> u8
    requires { digit < 16 }
    ensures { result ≡ digit_of digit }
{
    if digit < 10 { 48 + digit } else { 87 + digit }
}

// Adds a byte, escaped where it isn't printable.
fn push_byte(out: &mut Vec<u8>, byte: u8) -> Result<(), NoMemory>
    ensures { OnOk result (out.new.items ≡ out.old.items ++ escape_of byte) }
{
    if is_printable(byte) {
        out.push(byte)?;
        return Ok(());
    }
    let code = [b'\\', b'x', hex_digit(byte / 16 % 16), hex_digit(byte % 16)];
    out.extend_from_slice(&code)?;
    Ok(())
}

/// Adds bytes from outside.
pub(crate) fn push_escaped(out: &mut Vec<u8>, bytes: &[u8]) -> Result<(), NoMemory>
    ensures { OnOk result (out.new.items ≡ out.old.items ++ escaped bytes.now) }
{
    for &byte in bytes {
        push_byte(out, byte)?;
    }
    Ok(())
}

fn push_text_byte(out: &mut Vec<u8>, byte: u8) -> Result<(), NoMemory>
    ensures { OnOk result (out.new.items ≡ out.old.items ++ escape_in_text byte) }
{
    if byte == b'\n' {
        out.push(byte)?;
        return Ok(());
    }
    push_byte(out, byte)
}

/// Adds a text of the program's own, whose line ends stay.
pub(crate) fn push_text(out: &mut Vec<u8>, text: &[u8]) -> Result<(), NoMemory>
    ensures { OnOk result (out.new.items ≡ out.old.items ++ in_lines text.now) }
{
    for &byte in text {
        push_text_byte(out, byte)?;
    }
    Ok(())
}

/// Adds the beginning of a word from outside.
pub(crate) fn push_word(out: &mut Vec<u8>, word: &[u8]) -> Result<(), NoMemory>
    ensures { OnOk result (out.new.items ≡ out.old.items ++ shown_word word.now) }
{
    if word.len() > MOST_OF_A_WORD {
        push_escaped(out, front(word, MOST_OF_A_WORD))?;
        out.extend_from_slice(b"..")?;
        return Ok(());
    }
    push_escaped(out, word)
}
