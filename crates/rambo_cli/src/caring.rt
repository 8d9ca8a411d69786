//! The command `optcare`.
ghost use Rattle.std.specs.Prelude.{◌≡◌, ◌≤◌, ◌++◌, Err, IfErr, IfOk, OnErr, OnOk};
ghost use Rattle.std.specs.Option.{option_map};
ghost use Rattle.rm_base.specs.Causes.{Rose};
ghost use Rattle.rm_base.specs.Files.{put_file};
ghost use Rattle.gate_net.specs.Net.{gate_count};
ghost use Rattle.cover_decompose.specs.Count.{decomposed};
ghost use Rattle.cover_decompose.specs.Decomposition.{net_of_model};
ghost use Rattle.cover_decompose.specs.Limits.{most_pins};
ghost use Rattle.journal_text.specs.Appends.{IsThere};
ghost use Rattle.journal_text.specs.Runs.{AreWritable, HasAppended, HasAppendedPart, records_text};
ghost use Rattle.journal_text.specs.Text.{entry_text, journal_text};
ghost use Rattle.journal_text.specs.declared.append.Stop.TheVariants as stop;
ghost use Rattle.journal_text.specs.declared.record.Entry.TheVariants as entry;
ghost use Rattle.optimisation.specs.Ranges.{AreSettings};
ghost use Rattle.optimisation.specs.Tests.{hits_among, spents_among};
ghost use Rattle.rambo_cli.specs.Contract.{Caused};
ghost use Rattle.rambo_cli.specs.Files.{IfTold};
ghost use Rattle.rambo_cli.specs.Inner.Files.{AreBothPut, BeginsBoth, BeginsFile};
ghost use Rattle.rambo_cli.specs.Inner.Optcare.{AreFiguresOf, IsCareDone, IsCared, IsCutShort, IsMisfit, made_of};
ghost use Rattle.rambo_cli.specs.Inner.Written.{IsUsable};
ghost use Rattle.rambo_cli.specs.Optcare.{BeginsToCare, HasCaredFor, OptcareFinds};
ghost use Rattle.rambo_cli.specs.Problems.{KeepsFiles};

use crate::laws::cared_nets_are_written;
use crate::optimising::replace;
use crate::pairs::{Pair, Parities, read_pair};
use crate::problem::Problem;
use crate::summary::CareFigures;
use care_opt::{CareDone, optimise_care};
use cover_decompose::{DecomposeRefusal, decompose, decompositions_stand};
use journal_text::{Entry, Record, Stop, append_entry, append_records, texts_append};
use net_writer::net_text;
use rm_base::{Made, NoMemory, Settings, Shelf};
use rm_model::{NameKeys, RankedModel};
use std::alloc::Global;

/// The names of the files of `optcare`.
#[derive(Clone, Copy)]
pub(crate) struct CareNames<'a> {
    pub(crate) input: &'a str,
    pub(crate) care: &'a str,
    pub(crate) output: &'a str,
    pub(crate) tests: &'a str,
}

/// The records of the faults, the text of what remains, and the figures.
#[derive(Drop)]
pub(crate) struct Cared {
    records: Vec<Record>,
    text: Vec<u8>,
    figures: CareFigures,
}

// How many wires and gates the decomposition of a model has.
fn sizes_of(alloc: Global, model: &RankedModel) -> Result<(u32, u32), NoMemory>
    requires usable { IsUsable model.now }
    requires few { decomposed model.now ≤ most_pins }
    ensures wires { IfOk result (λ r. r.0 ≡ decomposed model.now) }
    ensures gates { IfOk result (λ r. r.1 ≡ gate_count (net_of_model model.now)) }
{
    decompositions_stand();
    match decompose(alloc, model) {
        Ok(graph) => Ok((graph.wire_count(), graph.gate_count())),
        Err(DecomposeRefusal::Limit { pins: _ }) => unreachable!(),
        Err(DecomposeRefusal::NoMemory) => Err(NoMemory),
    }
}

// How many records have a vector, and how many a search that spent its budget.
fn count_records(records: &[Record]) -> (u64, u64)
    ensures tested { result.0 ≡ hits_among records.now }
    ensures spent { result.1 ≡ spents_among records.now }
{
    let mut tested = 0u64;
    let mut spent = 0u64;
    for record in records {
        match record {
            Record::Step { step: _, tree: _ } => {}
            Record::Hit {
                fault: _,
                vector: _,
            } => tested += 1,
            Record::Spent { fault: _, tree: _ } => spent += 1,
        }
    }
    (tested, spent)
}

// Removes the wires of the first model that are redundant wherever the second one is 1.
#[tactic(auto, using(crate::proofs::Cares::ready))]
fn optimise_pair(
    alloc: Global,
    keys: NameKeys,
    pair: &Pair,
    settings: &Settings,
) -> Result<CareDone, Problem>
    requires usable { IsUsable pair.now.model }
    requires second_usable { IsUsable pair.now.other }
    requires few { decomposed pair.now.model ≤ most_pins }
    requires second_few { decomposed pair.now.other ≤ most_pins }
    requires settings { AreSettings settings.now }
    ensures done { IfOk result (λ d. IsCareDone pair.now.model pair.now.other settings.now d.graph (made_of d) d.records.items) }
    ensures misfit { IfErr result (IsMisfit pair.now.model pair.now.other) }
{
    match optimise_care(
        alloc,
        keys,
        &pair.model,
        &pair.other,
        settings.depth,
        settings.budget,
    ) {
        Ok(done) => Ok(done),
        Err(refusal) => Err(Problem::from(refusal)),
    }
}

// The figures of what was done.
fn figures_of(alloc: Global, model: &RankedModel, done: &CareDone) -> Result<CareFigures, NoMemory>
    requires usable { IsUsable model.now }
    requires few { decomposed model.now ≤ most_pins }
    ensures { IfOk result (AreFiguresOf model.now done.now.graph (made_of done.now) done.now.records.items) }
{
    let (wires_before, gates_before) = sizes_of(alloc, model)?;
    let (tested, spent) = count_records(done.records.as_slice());
    Ok(CareFigures {
        wires_before,
        wires: done.graph.wire_count(),
        gates_before,
        gates: done.graph.gate_count(),
        made: Made {
            adds: 0,
            fixes: u64::from(done.fixes),
            local: done.local,
        },
        tested,
        spent,
    })
}

// What is to be written for two models that were read.
fn cared_of(
    alloc: Global,
    keys: NameKeys,
    pair: &Pair,
    settings: &Settings,
) -> Result<Cared, Problem>
    requires usable { IsUsable pair.now.model }
    requires second_usable { IsUsable pair.now.other }
    requires few { decomposed pair.now.model ≤ most_pins }
    requires second_few { decomposed pair.now.other ≤ most_pins }
    requires settings { AreSettings settings.now }
    ensures cared { IfOk result (IsCared pair.now.model pair.now.other settings.now) }
    ensures misfit { IfErr result (IsMisfit pair.now.model pair.now.other) }
{
    cared_nets_are_written();
    let done = optimise_pair(alloc, keys, pair, settings)?;
    done.graph.well_formed();
    let figures = figures_of(alloc, &pair.model, &done)?;
    let text = net_text(alloc, keys, &done.graph, &pair.model)?;
    Ok(Cared {
        records: done.records,
        text,
        figures,
    })
}

// Adds the records and the end to a file that has the header.
fn add_records<S: Shelf>(
    alloc: Global,
    shelf: &mut S,
    name: &str,
    records: &[Record],
) -> Result<(), Stop>
    requires writable { AreWritable records.now }
    requires there { IsThere (S.files shelf.old) name.now }
    ensures written { OnOk result (HasAppended (S.files shelf.old) (S.files shelf.new) name.now (records_text records.now ++ entry_text entry.End)) }
    ensures stopped { OnErr result (HasAppendedPart (S.files shelf.old) (S.files shelf.new) name.now (records_text records.now ++ entry_text entry.End)) }
    ensures later { S.faults shelf.old ≤ S.faults shelf.new }
    ensures failed { result ≡ Err stop.Failed → Rose (S.faults shelf.old) (S.faults shelf.new) }
{
    texts_append();
    append_records(alloc, shelf, name, records)?;
    append_entry(alloc, shelf, name, &Entry::End)?;
    Ok(())
}

// Writes the text of a budget and records in place of a file.
fn write_records<S: Shelf>(
    alloc: Global,
    shelf: &mut S,
    name: &str,
    budget: u32,
    records: &[Record],
) -> Result<(), Problem>
    requires writable { AreWritable records.now }
    requires budget { (1 ≤ budget) × (budget ≤ 1048576) }
    ensures done { OnOk result (S.files shelf.new ≡ option_map (put_file name.now (journal_text budget records.now)) (S.files shelf.old)) }
    ensures begun { BeginsFile name.now (journal_text budget records.now) (S.files shelf.old) (S.files shelf.new) }
    ensures cause { IfErr result (IsCutShort (S.faults shelf.old) (S.faults shelf.new)) }
    ensures later { S.faults shelf.old ≤ S.faults shelf.new }
{
    texts_append();
    shelf.create(name)?;
    append_entry(alloc, shelf, name, &Entry::Header { budget })?;
    add_records(alloc, shelf, name, records)?;
    Ok(())
}

// Writes the records in place of TESTS, and then the text in place of the output.
fn write_cared<S: Shelf>(
    alloc: Global,
    shelf: &mut S,
    output: &str,
    tests: &str,
    budget: u32,
    cared: &Cared,
) -> Result<(), Problem>
    requires writable { AreWritable cared.now.records.items }
    requires budget { (1 ≤ budget) × (budget ≤ 1048576) }
    ensures done { OnOk result (IfTold (S.files shelf.old) (S.files shelf.new) (AreBothPut output.now tests.now (journal_text budget cared.now.records.items) cared.now.text.items)) }
    ensures begun { IfTold (S.files shelf.old) (S.files shelf.new) (BeginsBoth output.now tests.now (journal_text budget cared.now.records.items) cared.now.text.items) }
    ensures cause { IfErr result (IsCutShort (S.faults shelf.old) (S.faults shelf.new)) }
    ensures later { S.faults shelf.old ≤ S.faults shelf.new }
{
    write_records(alloc, shelf, tests, budget, cared.records.as_slice())?;
    replace(shelf, output, cared.text.as_slice())?;
    Ok(())
}

/// Reads the input and the care model, removes the wires that are redundant wherever the care model is 1, and writes TESTS and
/// then the output.
pub(crate) fn optimise_cared<S: Shelf>(
    alloc: Global,
    keys: NameKeys,
    shelf: &mut S,
    names: &CareNames<'_>,
    settings: &Settings,
) -> Result<CareFigures, Problem>
    requires settings { AreSettings settings.now }
    ensures done { IfOk result (λ figures. IfTold (S.files shelf.old) (S.files shelf.new) (HasCaredFor names.now.input.now names.now.care.now names.now.output.now names.now.tests.now settings.now figures)) }
    ensures cause { IfErr result (Caused (OptcareFinds names.now.input.now names.now.care.now (S.files shelf.old)) (S.faults shelf.old) (S.faults shelf.new)) }
    ensures unchanged { IfErr result (λ problem. KeepsFiles problem (S.files shelf.old) (S.files shelf.new)) }
    ensures safe { IfTold (S.files shelf.old) (S.files shelf.new) (BeginsToCare names.now.input.now names.now.care.now names.now.output.now names.now.tests.now settings.now) }
    ensures later { S.faults shelf.old ≤ S.faults shelf.new }
{
    let pair = read_pair(
        alloc,
        keys,
        shelf,
        Parities::AsGates,
        names.input,
        names.care,
    )?;
    let cared = cared_of(alloc, keys, &pair, settings)?;
    write_cared(
        alloc,
        shelf,
        names.output,
        names.tests,
        settings.budget,
        &cared,
    )?;
    Ok(cared.figures)
}
