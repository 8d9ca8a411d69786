// Lines of words.
ghost use Rattle.std.specs.Prelude.{◌≡◌, ◌∷◌, ◌++◌, [], OnOk};
ghost use Rattle.blif_writer.specs.Inner.Written.{behind_blanks, line_text};

use rm_base::NoMemory;
use rm_model::Name;

pub fn put(out: &mut Vec<u8>, bytes: &[u8]) -> Result<(), NoMemory>
    ensures { OnOk result (out.new.items ≡ out.old.items ++ bytes.now) }
{
    out.extend_from_slice(bytes)?;
    Ok(())
}

/// A blank and a word.
pub fn put_word(out: &mut Vec<u8>, word: &[u8]) -> Result<(), NoMemory>
    ensures { OnOk result (out.new.items ≡ out.old.items ++ 32 ∷ word.now) }
{
    out.push(b' ')?;
    put(out, word)
}

pub fn put_words(out: &mut Vec<u8>, words: &[Name]) -> Result<(), NoMemory>
    ensures { OnOk result (out.new.items ≡ out.old.items ++ behind_blanks words.now) }
{
    for word in words {
        put_word(out, word.items())?;
    }
    Ok(())
}

/// A line of a first word and others.
pub fn put_line(out: &mut Vec<u8>, first: &[u8], words: &[Name]) -> Result<(), NoMemory>
    ensures { OnOk result (out.new.items ≡ out.old.items ++ line_text (first.now ∷ words.now)) }
{
    put(out, first)?;
    put_words(out, words)?;
    out.push(b'\n')?;
    Ok(())
}

/// A line of a first word, others, and a last one.
pub fn put_line_and(
    out: &mut Vec<u8>,
    first: &[u8],
    words: &[Name],
    last: &[u8],
) -> Result<(), NoMemory>
    ensures { OnOk result
        (out.new.items ≡ out.old.items ++ line_text (first.now ∷ (words.now ++ last.now ∷ []))) }
{
    put(out, first)?;
    put_words(out, words)?;
    put_word(out, last)?;
    out.push(b'\n')?;
    Ok(())
}
