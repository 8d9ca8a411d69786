// The whole text of a model.
ghost use Rattle.std.specs.Prelude.{◌≡◌, ◌≤◌, ◌++◌, All, IfOk, IfSome, OnOk};
ghost use Rattle.blif_format.specs.Text.{clock_lines, text_of, text_of_lines};
ghost use Rattle.blif_format.specs.FirstFault.{first_fault};
ghost use Rattle.blif_format.specs.Grammar.{Reads};
ghost use Rattle.blif_format.specs.Laws.{AreFlawless, IsAtMostLimit};
ghost use Rattle.blif_lines.specs.Layout.{layout, lines_of};
ghost use Rattle.rm_model.specs.Value.{IsRanked};
ghost use Rattle.rm_model.specs.WellFormed.{IsWellFormed};
ghost use Rattle.blif_writer.specs.Inner.Written.{head_text};

use crate::laws::read_texts_are_faultless;
use crate::lines::{put, put_line, put_line_and};
use crate::parts::{put_covers, put_latches};
use rm_base::NoMemory;
use rm_model::{Model, Name};
use std::alloc::Global;

fn put_clocks(out: &mut Vec<u8>, clocks: &[Name]) -> Result<(), NoMemory>
    ensures { OnOk result (out.new.items ≡ out.old.items ++ text_of_lines (clock_lines clocks.now)) }
{
    if clocks.is_empty() {
        return Ok(());
    }
    put_line(out, b".clock", clocks)
}

/// The lines before the latches.
fn put_head(out: &mut Vec<u8>, model: &Model) -> Result<(), NoMemory>
    ensures { OnOk result (out.new.items ≡ out.old.items ++ head_text model.now) }
{
    put_line_and(out, b".model", &[], model.name.items())?;
    put_line(out, b".inputs", model.inputs.items())?;
    put_line(out, b".outputs", model.outputs.items())?;
    put_clocks(out, model.clocks.items())
}

/// The text of a model: `.model`, `.inputs`, `.outputs`, then `.clock` if there are clocks, the
/// latches with the fields that they have, the covers with their rows, and `.end`. No line is
/// joined to the next, and there are no comments.
pub fn write_model(alloc: Global, model: &Model) -> Result<Vec<u8>, NoMemory>
    requires { All (λ l. IfSome l.init (λ n. n ≤ 3)) model.now.latches }
    ensures text { IfOk result (λ text. text.items ≡ text_of model.now) }
    ensures flawless { IsWellFormed model.now → IfOk result (λ text. AreFlawless (layout text.items)) }
    ensures faultless { IsWellFormed model.now → IsRanked model.now →
        IfOk result (λ text. IsAtMostLimit (first_fault text.items)) }
    ensures reads { IsWellFormed model.now → IsRanked model.now →
        IfOk result (λ text. Reads (lines_of text.items) model.now) }
{
    read_texts_are_faultless();
    let mut out = Vec::new(alloc);
    put_head(&mut out, model)?;
    put_latches(&mut out, model.latches.items())?;
    put_covers(&mut out, model.covers.items())?;
    put(&mut out, b".end\n")?;
    Ok(out)
}
