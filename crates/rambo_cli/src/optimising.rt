//! The command `opt`.
ghost use Rattle.std.specs.Prelude.{◌≡◌, ◌≤◌, IfOk, IfErr, OnOk};
ghost use Rattle.std.specs.Option.{option_map};
ghost use Rattle.rm_base.specs.Causes.{HasCause};
ghost use Rattle.rm_base.specs.Files.{put_file};
ghost use Rattle.gate_graph.specs.Circuit.{net_of};
ghost use Rattle.cover_decompose.specs.Count.{decomposed};
ghost use Rattle.optimisation.specs.Ranges.{AreSettings};
ghost use Rattle.word_reading.specs.Commands.{HasNamesApart};
ghost use Rattle.word_reading.specs.Words.{opt};
ghost use Rattle.rambo_cli.specs.Files.{IfTold};
ghost use Rattle.rambo_cli.specs.Input.{ReadCause};
ghost use Rattle.rambo_cli.specs.Opt.{BeginsToWrite, BeginsToWriteFor, HasOptimised, HasWritten};
ghost use Rattle.rambo_cli.specs.Problems.{KeepsFiles};
ghost use Rattle.rambo_cli.specs.Written.{most_pins};
ghost use Rattle.rambo_cli.specs.Inner.Files.{BeginsFile};
ghost use Rattle.rambo_cli.specs.Inner.Problems.{ModelCause};
ghost use Rattle.rambo_cli.specs.Inner.Written.{BeginsRecord, IsRecorded, IsUsable};

use crate::laws::{kept_nets_fit, runs_are_written};
use crate::problem::Problem;
use crate::reading::read_input;
use blif_format::reads_once;
use cover_decompose::{decompositions_are_formed, decompositions_stand};
use journal_audit::long_journals_tell;
use net_writer::net_text;
use optimisation::{Figures, Optimised, optimised_model};
use rm_base::outside::{OutsideFault, Shelf};
use rm_base::{Gate, Settings, SureShelf};
use rm_model::{NameKeys, RankedModel};
use std::alloc::Global;
use std::thread::Threads;

/// The names of the files of `opt`.
#[derive(Clone, Copy)]
pub(crate) struct Names<'a> {
    pub(crate) input: &'a str,
    pub(crate) output: &'a str,
    pub(crate) journal: Option<&'a str>,
}

/// Writes the text in place of the output.
pub(crate) fn replace<S: Shelf>(
    shelf: &mut S,
    output: &str,
    text: &[u8],
) -> Result<(), OutsideFault>
    ensures done { OnOk result (S.files shelf.new ≡ option_map (put_file output.now text.now) (S.files shelf.old)) }
    ensures begun { BeginsFile output.now text.now (S.files shelf.old) (S.files shelf.new) }
    ensures cause { HasCause (S.faults shelf.old) (S.faults shelf.new) result }
{
    shelf.create(output)?;
    shelf.append(output, text)
}

// Optimises the model. Its journal is written to the named file; without a name it stands in memory, and is dropped.
fn whole_run<R: Threads + Sync, G: Gate, S: Shelf>(
    rt: &R,
    alloc: Global,
    shelf: &mut S,
    gate: &G,
    model: &RankedModel,
    journal: Option<&str>,
    settings: &Settings,
) -> Result<Optimised, Problem>
    requires usable { IsUsable model.now }
    requires settings { AreSettings settings.now }
    ensures recorded { IfOk result (λ o. IsRecorded model.now settings.now (net_of o.graph) o.figures (S.files shelf.old) (S.files shelf.new) (option_map (λ j. j.now) journal.entry)) }
    ensures within { OnOk result (decomposed model.now ≤ most_pins) }
    ensures begun { IfErr result (λ _. BeginsRecord model.now settings.now.budget (option_map (λ j. j.now) journal.entry) (S.files shelf.old) (S.files shelf.new)) }
    ensures cause { IfErr result (ModelCause model.now (S.faults shelf.old) (S.faults shelf.new)) }
    ensures unchanged { IfErr result (λ problem. KeepsFiles problem (S.files shelf.old) (S.files shelf.new)) }
    ensures later { S.faults shelf.old ≤ S.faults shelf.new }
{
    match journal {
        Some(journal) => Ok(optimised_model(rt, alloc, model, settings, gate, shelf, journal)?),
        None => {
            let mut memory = SureShelf::new(alloc);
            Ok(optimised_model(rt, alloc, model, settings, gate, &mut memory, "journal")?)
        }
    }
}

// Optimises the model, and writes the journal and then the output.
fn optimise_model<R: Threads + Sync, G: Gate, S: Shelf>(
    rt: &R,
    alloc: Global,
    keys: NameKeys,
    shelf: &mut S,
    gate: &G,
    model: &RankedModel,
    output: &str,
    journal: Option<&str>,
    settings: &Settings,
) -> Result<Figures, Problem>
    requires usable { IsUsable model.now }
    requires settings { AreSettings settings.now }
    ensures done { IfOk result (λ figures. IfTold (S.files shelf.old) (S.files shelf.new) (HasWritten model.now output.now (option_map (λ j. j.now) journal.entry) settings.now figures)) }
    ensures cause { IfErr result (ModelCause model.now (S.faults shelf.old) (S.faults shelf.new)) }
    ensures unchanged { IfErr result (λ problem. KeepsFiles problem (S.files shelf.old) (S.files shelf.new)) }
    ensures safe { IfTold (S.files shelf.old) (S.files shelf.new) (BeginsToWriteFor model.now output.now (option_map (λ j. j.now) journal.entry) settings.now) }
    ensures later { S.faults shelf.old ≤ S.faults shelf.new }
{
    decompositions_stand();
    decompositions_are_formed();
    kept_nets_fit();
    runs_are_written();
    let run = whole_run(rt, alloc, shelf, gate, model, journal, settings)?;
    let text = net_text(alloc, keys, &run.graph, model)?;
    replace(shelf, output, text.as_slice())?;
    Ok(run.figures)
}

/// Reads the input as a model, optimises it, and writes the journal, where it is named, and then the output.
pub(crate) fn optimise_input<R: Threads + Sync, G: Gate, S: Shelf>(
    rt: &R,
    alloc: Global,
    keys: NameKeys,
    shelf: &mut S,
    gate: &G,
    names: &Names<'_>,
    settings: &Settings,
) -> Result<Figures, Problem>
    requires apart { HasNamesApart (opt names.now.input.now names.now.output.now (option_map (λ j. j.now) names.now.journal) settings.now) }
    requires settings { AreSettings settings.now }
    ensures done { IfOk result (λ figures. IfTold (S.files shelf.old) (S.files shelf.new) (HasOptimised names.now.input.now names.now.output.now (option_map (λ j. j.now) names.now.journal) settings.now figures)) }
    ensures cause { IfErr result (ReadCause names.now.input.now (S.files shelf.old) (S.faults shelf.old) (S.faults shelf.new)) }
    ensures unchanged { IfErr result (λ problem. KeepsFiles problem (S.files shelf.old) (S.files shelf.new)) }
    ensures safe { IfTold (S.files shelf.old) (S.files shelf.new) (BeginsToWrite names.now.input.now names.now.output.now (option_map (λ j. j.now) names.now.journal) settings.now) }
    ensures later { S.faults shelf.old ≤ S.faults shelf.new }
{
    reads_once();
    long_journals_tell();
    let model = read_input(alloc, keys, shelf, names.input)?;
    optimise_model(
        rt,
        alloc,
        keys,
        shelf,
        gate,
        &model,
        names.output,
        names.journal,
        settings,
    )
}
