// Words and numbers of a line.
ghost use Rattle.std.specs.Prelude.{◌≡◌, ◌++◌, ◌∷◌, [], OnOk};
ghost use Rattle.pattern_text.specs.Text.{bits_text, names_text, number_after};

use itoa::Buffer;
use rm_base::NoMemory;
use rm_model::Name;

/// Adds a blank and a number.
pub(crate) fn add_number(text: &mut Vec<u8>, number: u64) -> Result<(), NoMemory>
    ensures { OnOk result (text.new.items ≡ text.old.items ++ number_after number) }
{
    let mut buffer = Buffer::new();
    text.push(b' ')?;
    text.extend_from_slice(buffer.format(number).as_bytes())?;
    Ok(())
}

/// Adds a blank and a name.
pub(crate) fn add_name(text: &mut Vec<u8>, name: &Name) -> Result<(), NoMemory>
    ensures { OnOk result (text.new.items ≡ text.old.items ++ 32 ∷ name.now) }
{
    text.push(b' ')?;
    text.extend_from_slice(name.items())?;
    Ok(())
}

/// Adds names, each with a blank before it.
pub(crate) fn add_names(text: &mut Vec<u8>, names: &[Name]) -> Result<(), NoMemory>
    ensures { OnOk result (text.new.items ≡ text.old.items ++ names_text names.now) }
{
    for at in 0..names.len() {
        add_name(text, &names[at])?;
    }
    Ok(())
}

/// Adds a digit for each value.
pub(crate) fn add_bits(text: &mut Vec<u8>, values: &[bool]) -> Result<(), NoMemory>
    ensures { OnOk result (text.new.items ≡ text.old.items ++ bits_text values.now) }
{
    for at in 0..values.len() {
        text.push(if values[at] { b'1' } else { b'0' })?;
    }
    Ok(())
}
