// A cover's inputs, ending and rows as bytes.
ghost use Rattle.std.specs.Prelude.{◌≡◌, [], ◌∷◌, ◌++◌, map, IfOk, OnOk};
ghost use Rattle.std.specs.List.{flat_map};
ghost use Rattle.rm_model.specs.Words.{literal_byte};
ghost use Rattle.cover_sharing.specs.Inner.Encoding.{encoded_byte, encoded_ending, encoded_name, encoded_names, encoded_row, encoded_rows, encoding_of};

use rm_base::NoMemory;
use rm_model::{Cover, Literal, Name, Row};
use std::alloc::Global;

fn push_byte(out: &mut Vec<u8>, byte: u8) -> Result<(), NoMemory>
    ensures { OnOk result (out.new.items ≡ out.old.items ++ encoded_byte byte) }
{
    if byte < 2 {
        out.push(1)?;
    }
    out.push(byte)?;
    Ok(())
}

fn push_bytes(out: &mut Vec<u8>, bytes: &[u8]) -> Result<(), NoMemory>
    ensures { OnOk result (out.new.items ≡ out.old.items ++ flat_map encoded_byte bytes.now) }
{
    for byte in bytes {
        push_byte(out, *byte)?;
    }
    Ok(())
}

fn push_name(out: &mut Vec<u8>, name: &Name) -> Result<(), NoMemory>
    ensures { OnOk result (out.new.items ≡ out.old.items ++ encoded_name name.now) }
{
    out.push(1)?;
    push_bytes(out, name.items())?;
    out.push(0)?;
    Ok(())
}

fn push_names(out: &mut Vec<u8>, names: &[Name]) -> Result<(), NoMemory>
    ensures { OnOk result (out.new.items ≡ out.old.items ++ encoded_names names.now) }
{
    for name in names {
        push_name(out, name)?;
    }
    Ok(())
}

fn byte_of(literal: Literal) -> u8
    ensures { result ≡ literal_byte literal }
{
    match literal {
        Literal::Zero => b'0',
        Literal::One => b'1',
        Literal::Any => b'-',
    }
}

fn push_literals(out: &mut Vec<u8>, row: &[Literal]) -> Result<(), NoMemory>
    ensures { OnOk result (out.new.items ≡ out.old.items ++ map literal_byte row.now) }
{
    for literal in row {
        out.push(byte_of(*literal))?;
    }
    Ok(())
}

fn push_row(out: &mut Vec<u8>, row: &Row) -> Result<(), NoMemory>
    ensures { OnOk result (out.new.items ≡ out.old.items ++ encoded_row row.now) }
{
    push_literals(out, row.items())?;
    out.push(b'\n')?;
    Ok(())
}

fn push_rows(out: &mut Vec<u8>, rows: &[Row]) -> Result<(), NoMemory>
    ensures { OnOk result (out.new.items ≡ out.old.items ++ encoded_rows rows.now) }
{
    for row in rows {
        push_row(out, row)?;
    }
    Ok(())
}

fn push_ending(out: &mut Vec<u8>, on: bool) -> Result<(), NoMemory>
    ensures { OnOk result (out.new.items ≡ out.old.items ++ 0 ∷ encoded_ending on ∷ []) }
{
    out.push(0)?;
    out.push(if on { b'1' } else { b'0' })?;
    Ok(())
}

/// The bytes of all that a cover computes: two covers have the same bytes where only their outputs may differ.
pub fn encode(alloc: Global, cover: &Cover) -> Result<Vec<u8>, NoMemory>
    ensures { IfOk result (λ bytes. bytes.items ≡ encoding_of cover.now) }
{
    let mut out = Vec::new(alloc);
    push_names(&mut out, cover.inputs.items())?;
    push_ending(&mut out, cover.on)?;
    push_rows(&mut out, cover.rows.items())?;
    Ok(out)
}
