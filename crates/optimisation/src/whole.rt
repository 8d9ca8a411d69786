// A run from its first entry to its last.
ghost use Rattle.std.specs.Prelude.{◌≡◌, ◌<◌, ◌≤◌, ◌+◌, ◌^◌, ℕ, Err, IfErr, IfOk, None, OnErr, OnOk, length};
ghost use Rattle.std.specs.Option.{option_map};
ghost use Rattle.rm_base.specs.Causes.{Rose};
ghost use Rattle.rm_base.specs.Files.{put_file};
ghost use Rattle.rm_model.specs.Ranks.{first_without_rank};
ghost use Rattle.rm_model.specs.Value.{observed_names, source_names};
ghost use Rattle.rm_model.specs.WellFormed.{IsWellFormed};
ghost use Rattle.gate_net.specs.Net.{wire_count};
ghost use Rattle.gate_graph.specs.Circuit.{live_nodes, net_of, pins_taken};
ghost use Rattle.cover_decompose.specs.Count.{decomposed};
ghost use Rattle.journal_text.specs.Appends.{IsThere};
ghost use Rattle.journal_text.specs.declared.append.Stop.TheVariants as stop;
ghost use Rattle.journal_text.specs.Text.{entry_text};
ghost use Rattle.journal_text.specs.declared.record.Entry.TheVariants.{Header as HeaderEntry};
ghost use Rattle.optimisation.specs.Begun.{HasBegun};
ghost use Rattle.optimisation.specs.Inner.Begun.{BeginsHeader};
ghost use Rattle.optimisation.specs.Inner.RunErrors.{IsRunError};
ghost use Rattle.optimisation.specs.Inner.Filled.{IsFilled, IsLeft};
ghost use Rattle.optimisation.specs.Allowed.{IsAllowed};
ghost use Rattle.optimisation.specs.Ranges.{AreSettings};
ghost use Rattle.optimisation.specs.Tests.{hits_among, spents_among};
ghost use Rattle.optimisation.specs.Whole.{IsWhole};
ghost use Rattle.optimisation.specs.declared.run_error.RunError.TheVariants as run_error;
ghost use Rattle.closing_pass.specs.Recording.{verdict_records};
ghost use Rattle.cover_decompose.specs.Limits.{most_pins};

use crate::optimised::{Figures, Optimised};
use crate::rounds::Rounds;
use crate::run_error::RunError;
use crate::turns::go_turns;
use closing_pass::{Report, closed_are_recordable, write_verdicts};
use cover_decompose::{decompose, decompositions_stand};
use gate_graph::Graph;
use journal_ranges::fitting_are_entries;
use journal_text::{
    Entry, Stop, accepted_runs_are_writable, accepted_runs_keep, append_entry, runs_join,
    texts_append,
};
use podem::Verdict;
use rm_base::{Gate, OutsideFault, Settings, Shelf};
use rm_model::RankedModel;
use std::alloc::Global;
use std::thread::Threads;

// Makes the journal, which holds the header then.
fn open_journal<S: Shelf>(
    alloc: Global,
    shelf: &mut S,
    journal: &str,
    budget: u32,
) -> Result<(), RunError>
    requires budget { (1 ≤ budget) × (budget ≤ 1048576) }
    ensures opened { OnOk result (S.files shelf.new ≡ option_map (put_file journal.now (entry_text (HeaderEntry budget))) (S.files shelf.old)) }
    ensures there { OnOk result (IsThere (S.files shelf.new) journal.now) }
    ensures begun { OnErr result (BeginsHeader budget journal.now (S.files shelf.old) (S.files shelf.new)) }
    ensures halted { IfErr result IsRunError }
    ensures failed { result ≡ Err run_error.Failed → Rose (S.faults shelf.old) (S.faults shelf.new) }
    ensures later { S.faults shelf.old ≤ S.faults shelf.new }
{
    shelf.create(journal)?;
    append_entry(alloc, shelf, journal, &Entry::Header { budget })?;
    Ok(())
}

// How many faults have a vector, and how many a spent search.
fn count_verdicts(report: &Report) -> (u64, u64)
    ensures tested { result.0 ≡ hits_among (verdict_records report.now.verdicts.items) }
    ensures spent { result.1 ≡ spents_among (verdict_records report.now.verdicts.items) }
{
    let mut tested = 0u64;
    let mut spent = 0u64;
    for entry in report.verdicts.iter() {
        match &entry.1 {
            Verdict::Detected(_vector) => tested += 1,
            Verdict::Refuted(_tree) => {}
            Verdict::Spent(_tree) => spent += 1,
        }
    }
    (tested, spent)
}

// Goes stage by stage, and records the verdicts and the end.
fn fill_journal<R: Threads + Sync, G: Gate, S: Shelf>(
    rt: &R,
    alloc: Global,
    graph: Graph,
    settings: &Settings,
    gate: &G,
    shelf: &mut S,
    journal: &str,
    work: &mut u64,
) -> Result<Rounds, Stop>
    requires few { pins_taken graph + live_nodes graph ≤ 1048576 }
    requires wires { wire_count (net_of graph) ≤ most_pins }
    requires settings { AreSettings settings.now }
    requires there { IsThere (S.files shelf.old) journal.now }
    ensures allowed { IfOk result (λ r. IsAllowed settings.now r.last.limit work.new) }
    ensures filled { IfOk result (λ r. IsFilled (net_of graph) settings.now r (S.files shelf.old) (S.files shelf.new) journal.now) }
    ensures stopped { OnErr result (IsLeft (net_of graph) settings.now.budget (S.files shelf.old) (S.files shelf.new) journal.now) }
    ensures failed { result ≡ Err stop.Failed → Rose (S.faults shelf.old) (S.faults shelf.new) }
    ensures later { S.faults shelf.old ≤ S.faults shelf.new }
{
    graph.well_formed();
    accepted_runs_keep();
    closed_are_recordable();
    texts_append();
    runs_join();
    accepted_runs_are_writable();
    fitting_are_entries();
    let rounds = go_turns(rt, alloc, graph, settings, gate, shelf, journal, work)?;
    write_verdicts(alloc, &rounds.report, shelf, journal)?;
    append_entry(alloc, shelf, journal, &Entry::End)?;
    Ok(rounds)
}

/// Optimises the decomposition of a model, and writes the journal of it: the header, every step with its tree, a verdict for
/// each fault that remains, and the end. Equal gates are merged once the addition loop has ended, or, without tries, after a
/// first sweep (`merge` is 1), or both (2 and more), or never (0). Behind that targets are exchanged for wires that cost no
/// more, for at most `perturb` turns, with further additions behind each. Once the limit of work is reached no more additions
/// are tried, no further turn begins, and faults whose search was cut short aren't searched again: all else goes on to its end.
pub fn optimised_model<R: Threads + Sync, G: Gate, S: Shelf>(
    rt: &R,
    alloc: Global,
    model: &RankedModel,
    settings: &Settings,
    gate: &G,
    shelf: &mut S,
    journal: &str,
) -> Result<Optimised, RunError>
    requires formed { IsWellFormed model.now }
    requires ranked { first_without_rank model.now ≡ None }
    requires covers { length model.now.covers < 2 ^ 32 }
    requires sources { length (source_names model.now) ≤ 1024 }
    requires observed { length (observed_names model.now) ≤ 4096 }
    requires fits { decomposed model.now < 2 ^ 64 }
    requires settings { AreSettings settings.now }
    ensures whole { IfOk result (λ o. IsWhole model.now settings.now (net_of o.graph) o.figures (S.files shelf.old) (S.files shelf.new) journal.now) }
    ensures within { OnOk result (decomposed model.now ≤ most_pins) }
    ensures over { (pins : ℕ) → result ≡ Err (run_error.Limit pins) → (pins ≡ decomposed model.now) × ((most_pins < decomposed model.now) × (S.files shelf.new ≡ S.files shelf.old)) }
    ensures begun { IfErr result (λ _. HasBegun model.now settings.now.budget journal.now (S.files shelf.old) (S.files shelf.new)) }
    ensures failed { result ≡ Err run_error.Failed → Rose (S.faults shelf.old) (S.faults shelf.new) }
    ensures later { S.faults shelf.old ≤ S.faults shelf.new }
{
    decompositions_stand();
    accepted_runs_keep();
    let graph = decompose(alloc, model)?;
    graph.well_formed();
    let wires_before = graph.wire_count();
    let gates_before = graph.gate_count();
    open_journal(alloc, shelf, journal, settings.budget)?;
    let mut work = 0u64;
    let rounds = fill_journal(rt, alloc, graph, settings, gate, shelf, journal, &mut work)?;
    let (tested, spent) = count_verdicts(&rounds.report);
    let figures = Figures {
        wires_before,
        gates_before,
        wires: rounds.last.graph.wire_count(),
        gates: rounds.last.graph.gate_count(),
        made: rounds.last.made,
        tries: rounds.last.tries,
        settled: rounds.last.settled,
        tested,
        spent,
        work,
    };
    Ok(Optimised {
        graph: rounds.last.graph,
        figures,
    })
}
