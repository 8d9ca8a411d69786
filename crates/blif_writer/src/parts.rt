// Latches and covers.
ghost use Rattle.std.specs.Prelude.{◌≡◌, ◌∷◌, ◌++◌, ◌≤◌, [], All, IfSome, OnOk, codes, map};
ghost use Rattle.std.specs.List.{flat_map};
ghost use Rattle.std.specs.Option.{ForSome};
ghost use Rattle.blif_format.specs.Text.{init_words, latch_words, on_word, timing_words};
ghost use Rattle.blif_writer.specs.Inner.Written.{behind_blanks, cover_text, latch_text, row_text};
ghost use Rattle.rm_model.specs.Words.{kind_word, literal_byte};

use crate::lines::{put, put_line_and, put_word};
use rm_base::NoMemory;
use rm_model::{Cover, Latch, LatchKind, Literal, Row, Timing};

fn kind_text(kind: LatchKind) -> &'static [u8; 2]
    ensures { result.now ≡ kind_word kind }
{
    match kind {
        LatchKind::Fe => b"fe",
        LatchKind::Re => b"re",
        LatchKind::Ah => b"ah",
        LatchKind::Al => b"al",
        LatchKind::As => b"as",
    }
}

/// A type and a control; a missing control is `NIL`.
fn put_timing(out: &mut Vec<u8>, timing: &Timing) -> Result<(), NoMemory>
    ensures { OnOk result (out.new.items ≡ out.old.items ++ behind_blanks (timing_words (Some timing.now))) }
{
    put_word(out, kind_text(timing.kind))?;
    match &timing.control {
        None => put_word(out, b"NIL"),
        Some(control) => put_word(out, control.items()),
    }
}

fn put_timing_if(out: &mut Vec<u8>, timing: &Option<Timing>) -> Result<(), NoMemory>
    ensures { OnOk result (out.new.items ≡ out.old.items ++ behind_blanks (timing_words timing.now)) }
{
    match timing {
        None => Ok(()),
        Some(timing) => put_timing(out, timing),
    }
}

fn put_init(out: &mut Vec<u8>, init: Option<u8>) -> Result<(), NoMemory>
    requires { ForSome init (λ n. n ≤ 3) }
    ensures { OnOk result (out.new.items ≡ out.old.items ++ behind_blanks (init_words init)) }
{
    match init {
        None => Ok(()),
        Some(value) => put_word(out, &[48 + value]),
    }
}

fn put_latch(out: &mut Vec<u8>, latch: &Latch) -> Result<(), NoMemory>
    requires { ForSome latch.now.init (λ n. n ≤ 3) }
    ensures { OnOk result (out.new.items ≡ out.old.items ++ latch_text latch.now) }
{
    put(out, b".latch")?;
    put_word(out, latch.input.items())?;
    put_word(out, latch.output.items())?;
    put_timing_if(out, &latch.timing)?;
    put_init(out, latch.init)?;
    put(out, b"\n")
}

pub fn put_latches(out: &mut Vec<u8>, latches: &[Latch]) -> Result<(), NoMemory>
    requires { All (λ l. IfSome l.init (λ n. n ≤ 3)) latches.now }
    ensures { OnOk result (out.new.items ≡ out.old.items ++ flat_map latch_text latches.now) }
{
    for latch in latches {
        put_latch(out, latch)?;
    }
    Ok(())
}

fn literal_text(literal: Literal) -> u8
    ensures { result ≡ literal_byte literal }
{
    match literal {
        Literal::Zero => b'0',
        Literal::One => b'1',
        Literal::Any => b'-',
    }
}

fn put_literals(out: &mut Vec<u8>, row: &[Literal]) -> Result<(), NoMemory>
    ensures { OnOk result (out.new.items ≡ out.old.items ++ map literal_byte row.now) }
{
    for literal in row {
        out.push(literal_text(*literal))?;
    }
    Ok(())
}

/// A row; that of a cover without inputs is its ending alone.
fn put_row(out: &mut Vec<u8>, on: bool, row: &[Literal]) -> Result<(), NoMemory>
    ensures { OnOk result (out.new.items ≡ out.old.items ++ row_text on row.now) }
{
    put_literals(out, row)?;
    if !row.is_empty() {
        out.push(b' ')?;
    }
    out.push(if on { b'1' } else { b'0' })?;
    out.push(b'\n')?;
    Ok(())
}

fn put_rows(out: &mut Vec<u8>, on: bool, rows: &[Row]) -> Result<(), NoMemory>
    ensures { OnOk result (out.new.items ≡ out.old.items ++ flat_map (row_text on) rows.now) }
{
    for row in rows {
        put_row(out, on, row.items())?;
    }
    Ok(())
}

fn put_cover(out: &mut Vec<u8>, cover: &Cover) -> Result<(), NoMemory>
    ensures { OnOk result (out.new.items ≡ out.old.items ++ cover_text cover.now) }
{
    put_line_and(out, b".names", cover.inputs.items(), cover.output.items())?;
    put_rows(out, cover.on, cover.rows.items())
}

pub fn put_covers(out: &mut Vec<u8>, covers: &[Cover]) -> Result<(), NoMemory>
    ensures { OnOk result (out.new.items ≡ out.old.items ++ flat_map cover_text covers.now) }
{
    for cover in covers {
        put_cover(out, cover)?;
    }
    Ok(())
}
