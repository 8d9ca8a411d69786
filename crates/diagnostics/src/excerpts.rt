// A line of a file with a mark below one of its columns.
ghost use Rattle.std.specs.Prelude.{◌≡◌, ◌++◌, IfOk, OnOk, length, replicate};
ghost use Rattle.diagnostics.specs.Escaping.{escaped};
ghost use Rattle.diagnostics.specs.Excerpts.{before_column, bytes_before, excerpt, from_column, lower_line, upper_line};

use crate::escaping::{front, push_escaped, push_text};
use crate::parts::push_coloured;
use rm_base::NoMemory;

const MOST_ON_A_SIDE: usize = 40;

#[tactic(auto, using(crate::proofs::Blanks::one_more))]
fn push_blanks(out: &mut Vec<u8>, count: usize) -> Result<(), NoMemory>
    ensures { OnOk result (out.new.items ≡ out.old.items ++ replicate count 32) }
{
    for _place in 0..count {
        out.push(b' ')?;
    }
    Ok(())
}

// How many bytes of the line stand before the column.
fn place_in(line: &[u8], column: u32) -> usize
    ensures { result ≡ bytes_before line.now column }
{
    (column.saturating_sub(1) as usize).min(line.len())
}

fn before(line: &[u8], column: u32) -> &[u8]
    ensures { result.now ≡ before_column line.now column }
{
    let place = place_in(line, column);
    let start = place.saturating_sub(MOST_ON_A_SIDE);
    &line[start..place]
}

fn behind(line: &[u8], column: u32) -> &[u8]
    ensures { result.now ≡ from_column line.now column }
{
    front(&line[place_in(line, column)..], MOST_ON_A_SIDE)
}

// Adds what is shown of the line, and tells how many characters of that stand before the column.
fn push_upper_line(out: &mut Vec<u8>, line: &[u8], column: u32) -> Result<usize, NoMemory>
    ensures line { OnOk result (out.new.items ≡ out.old.items ++ upper_line line.now column) }
    ensures width { IfOk result (λ width. width ≡ length (escaped (before_column line.now column))) }
{
    push_text(out, b"  ")?;
    let start = out.len();
    push_escaped(out, before(line, column))?;
    let width = out.len() - start;
    push_escaped(out, behind(line, column))?;
    push_text(out, b"\n")?;
    Ok(width)
}

fn push_lower_line(out: &mut Vec<u8>, colours: bool, width: usize) -> Result<(), NoMemory>
    ensures { OnOk result (out.new.items ≡ out.old.items ++ lower_line colours width) }
{
    push_text(out, b"  ")?;
    push_blanks(out, width)?;
    push_coloured(out, colours, b'2', "^")?;
    push_text(out, b"\n")
}

/// Adds a line and the mark below its column.
pub(crate) fn push_excerpt(
    out: &mut Vec<u8>,
    colours: bool,
    line: &[u8],
    column: u32,
) -> Result<(), NoMemory>
    ensures { OnOk result (out.new.items ≡ out.old.items ++ excerpt colours line.now column) }
{
    let width = push_upper_line(out, line, column)?;
    push_lower_line(out, colours, width)
}
