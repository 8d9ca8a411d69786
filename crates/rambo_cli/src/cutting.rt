//! The command `cut`.
ghost use Rattle.std.specs.Prelude.{◌≡◌, ◌≤◌, ◌⊎◌, All, IfErr, IfOk, OnOk};
ghost use Rattle.std.specs.Option.{option_map};
ghost use Rattle.std.specs.String.{string_bytes};
ghost use Rattle.rm_base.specs.Files.{put_file};
ghost use Rattle.blif_format.specs.Text.{text_of};
ghost use Rattle.rambo_cli.specs.Contract.{Caused};
ghost use Rattle.window_cut.specs.Laws.{IsStandalone};
ghost use Rattle.rambo_cli.specs.Cut.{BeginsCut, CutFinds, HasCut, signals_of};
ghost use Rattle.rambo_cli.specs.Files.{IfTold};
ghost use Rattle.rambo_cli.specs.Inner.Cut.{BeginsWindows, all_put};
ghost use Rattle.rambo_cli.specs.Inner.Files.{BeginsFile};
ghost use Rattle.rambo_cli.specs.Inner.Problems.{StoreCause};
ghost use Rattle.rambo_cli.specs.Problems.{KeepsFiles};
ghost use Rattle.rambo_cli.specs.Windows.{window_file};

use crate::input_model::{wide_model, windows_of};
use crate::optimising::replace;
use crate::problem::Problem;
use blif_writer::{write_model, written_texts_read};
use rm_base::{NoMemory, Shelf};
use rm_model::{Model, NameKeys};
use std::alloc::Global;

// The name of a window's file.
fn window_name(alloc: Global, prefix: &str, number: usize) -> Result<String, NoMemory>
    ensures { IfOk result (λ name. string_bytes name ≡ window_file prefix.now number) }
{
    Ok(format!(in alloc; "{prefix}{number}.blif")?)
}

// Writes the text of a window to its file.
fn write_window<S: Shelf>(
    alloc: Global,
    shelf: &mut S,
    prefix: &str,
    number: usize,
    window: &Model,
) -> Result<(), Problem>
    requires { IsStandalone window.now }
    ensures done { OnOk result (S.files shelf.new ≡ option_map (put_file (window_file prefix.now number) (text_of window.now)) (S.files shelf.old)) }
    ensures begun { BeginsFile (window_file prefix.now number) (text_of window.now) (S.files shelf.old) (S.files shelf.new) }
    ensures cause { IfErr result (StoreCause (S.faults shelf.old) (S.faults shelf.new)) }
    ensures later { S.faults shelf.old ≤ S.faults shelf.new }
{
    let name = window_name(alloc, prefix, number)?;
    let text = write_model(alloc, window)?;
    replace(shelf, name.as_str(), text.as_slice())?;
    Ok(())
}

// Writes the text of each window to its file, in order.
fn write_windows<S: Shelf>(
    alloc: Global,
    shelf: &mut S,
    prefix: &str,
    windows: &[Model],
) -> Result<(), Problem>
    requires { All IsStandalone windows.now }
    ensures done { OnOk result (S.files shelf.new ≡ all_put prefix.now windows.now (S.files shelf.old)) }
    ensures begun { BeginsWindows prefix.now windows.now (S.files shelf.old) (S.files shelf.new) }
    ensures cause { IfErr result (StoreCause (S.faults shelf.old) (S.faults shelf.new)) }
    ensures later { S.faults shelf.old ≤ S.faults shelf.new }
{
    for place in 0..windows.len() {
        write_window(alloc, shelf, prefix, place + 1, &windows[place])?;
    }
    Ok(())
}

// How many signals the windows hand on.
fn count_signals(windows: &[Model]) -> Result<u64, NoMemory>
    ensures { IfOk result (λ count. count ≡ signals_of windows.now) }
{
    let mut count = 0u64;
    let mut left = windows;
    while let Some((window, rest)) = left.split_first() {
        match count.checked_add(window.outputs.len() as u64) {
            Some(sum) => count = sum,
            // No memory holds so many.
            None => return Err(NoMemory),
        }
        left = rest;
    }
    Ok(count)
}

/// What `cut` has made: so many windows, which hand on so many signals.
#[derive(Clone, Copy, Debug)]
pub(crate) struct CutCounts {
    pub(crate) windows: u64,
    pub(crate) signals: u64,
}

/// Cuts the flat model of the input, in which equal covers are merged first, into windows of about so many wires, the first of
/// `shift` unless that is 0, and writes each under the prefix, its number and `.blif`.
pub(crate) fn cut_input<S: Shelf>(
    alloc: Global,
    keys: NameKeys,
    shelf: &mut S,
    input: &str,
    width: u32,
    prefix: &str,
    shift: u32,
) -> Result<CutCounts, Problem>
    ensures done { IfOk result (λ c. IfTold (S.files shelf.old) (S.files shelf.new) (HasCut input.now width prefix.now shift c.windows c.signals)) }
    ensures cause { IfErr result (Caused (CutFinds input.now width shift (S.files shelf.old)) (S.faults shelf.old) (S.faults shelf.new)) }
    ensures unchanged { IfErr result (λ problem. KeepsFiles problem (S.files shelf.old) (S.files shelf.new)) }
    ensures safe { IfTold (S.files shelf.old) (S.files shelf.new) (λ before after. (after ≡ before) ⊎ BeginsCut input.now width prefix.now shift before after) }
    ensures later { S.faults shelf.old ≤ S.faults shelf.new }
{
    written_texts_read();
    let flat = wide_model(alloc, keys, shelf, input)?;
    let windowed = windows_of(alloc, keys, &flat.model, width, shift)?;
    let windows = windowed.windows.as_slice();
    let signals = count_signals(windows)?;
    write_windows(alloc, shelf, prefix, windows)?;
    Ok(CutCounts {
        windows: windows.len() as u64,
        signals,
    })
}
