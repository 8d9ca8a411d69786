// The audit of a journal and an output.
ghost use Rattle.std.specs.Prelude.{◌≡◌, ◌<◌, ◌≤◌, ◌^◌, ℕ, Err, IfErr, IfOk, IfSome, IsSome, None, OnOk, Option, length};
ghost use Rattle.rm_base.specs.Causes.{Rose};
ghost use Rattle.rm_base.specs.Files.{file_of};
ghost use Rattle.rm_model.specs.Ranks.{first_without_rank};
ghost use Rattle.rm_model.specs.Value.{observed_names, source_names};
ghost use Rattle.rm_model.specs.WellFormed.{IsWellFormed};
ghost use Rattle.blif_format.specs.Text.{text_of as model_text};
ghost use Rattle.cover_decompose.specs.Count.{decomposed};
ghost use Rattle.gate_graph.specs.Circuit.{net_of};
ghost use Rattle.graph_to_model.specs.Fits.{Fits};
ghost use Rattle.graph_to_model.specs.Laws.{AreFew};
ghost use Rattle.graph_to_model.specs.NetModel.{model_of_net};
ghost use Rattle.journal_audit.specs.Audited.{IsLast, IsPassed, IsPlain, IsProblem, PassedWith};
ghost use Rattle.journal_audit.specs.Inner.Audited.{ComparedSays, IsOfOutput};
ghost use Rattle.cover_decompose.specs.Limits.{most_pins};

use crate::compare::difference;
use crate::problem::AuditProblem;
use crate::reading::journal_net;
use crate::verdicts::Verdicts;
use gate_graph::Graph;
use journal_check::accepted_stand;
use net_writer::net_text;
use rm_base::Shelf;
use rm_model::{NameKeys, RankedModel};
use std::alloc::Global;

// Whether the output is the text.
fn compare_output<S: Shelf>(shelf: &mut S, output: &str, text: &[u8]) -> Result<(), AuditProblem>
    ensures says { IfSome (S.files shelf.old) (λ told. ComparedSays told output.now text.now result) }
    ensures told { result ≡ Err AuditProblem.NoOutput → IsSome (S.files shelf.old) }
    ensures fault { result ≡ Err AuditProblem.Fault → Rose (S.faults shelf.old) (S.faults shelf.new) }
    ensures plain { IfErr result IsOfOutput }
    ensures later { S.faults shelf.old ≤ S.faults shelf.new }
    ensures files { S.files shelf.new ≡ S.files shelf.old }
{
    let Some(found) = shelf.read(output, 0, text.len() + 1)? else {
        return Err(AuditProblem::NoOutput);
    };
    difference(text, found.as_slice())
}

/// The last net of a journal that is accepted, how many records it has, and its verdicts.
#[derive(Drop)]
pub struct Audited {
    pub graph: Graph,
    pub count: u64,
    pub verdicts: Verdicts,
}

/// Replays the journal over the decomposition of the model and compares the output with the text of the last net's model:
/// that net, and what was read of the journal, or the first reason against it. No file changes.
pub fn audit_verdicts<S: Shelf>(
    alloc: Global,
    keys: NameKeys,
    shelf: &mut S,
    model: &RankedModel,
    journal: &str,
    output: &str,
) -> Result<Audited, AuditProblem>
    requires formed { IsWellFormed model.now }
    requires ranked { first_without_rank model.now ≡ None }
    requires covers { length model.now.covers < 2 ^ 32 }
    requires sources { length (source_names model.now) ≤ 1024 }
    requires observed { length (observed_names model.now) ≤ 4096 }
    requires few { decomposed model.now ≤ most_pins }
    ensures passed { IfOk result (λ a. IfSome (S.files shelf.old) (λ told. PassedWith model.now told journal.now output.now a)) }
    ensures last { IfOk result (λ a. IsLast model.now (net_of a.graph) a.verdicts) }
    ensures fits { IfOk result (λ a. Fits (net_of a.graph) model.now) }
    ensures few { IfOk result (λ a. AreFew (net_of a.graph) model.now) }
    ensures problem { IfErr result (λ problem. IfSome (S.files shelf.old) (λ told. IsProblem model.now told journal.now output.now problem)) }
    ensures no_journal { result ≡ Err AuditProblem.NoJournal → IsSome (S.files shelf.old) }
    ensures no_output { result ≡ Err AuditProblem.NoOutput → IsSome (S.files shelf.old) }
    ensures fault { result ≡ Err AuditProblem.Fault → Rose (S.faults shelf.old) (S.faults shelf.new) }
    ensures plain { IfErr result IsPlain }
    ensures later { S.faults shelf.old ≤ S.faults shelf.new }
    ensures files { S.files shelf.new ≡ S.files shelf.old }
{
    accepted_stand();
    let (graph, tally) = journal_net(alloc, shelf, model, journal)?;
    let text = net_text(alloc, keys, &graph, model)?;
    compare_output(shelf, output, text.as_slice())?;
    Ok(Audited {
        graph,
        count: tally.count,
        verdicts: tally.verdicts,
    })
}

/// Replays the journal over the decomposition of the model and compares the output with the text of the last net's model:
/// how many records the journal has, or the first reason against it. No file changes.
pub fn audit<S: Shelf>(
    alloc: Global,
    keys: NameKeys,
    shelf: &mut S,
    model: &RankedModel,
    journal: &str,
    output: &str,
) -> Result<u64, AuditProblem>
    requires formed { IsWellFormed model.now }
    requires ranked { first_without_rank model.now ≡ None }
    requires covers { length model.now.covers < 2 ^ 32 }
    requires sources { length (source_names model.now) ≤ 1024 }
    requires observed { length (observed_names model.now) ≤ 4096 }
    requires few { decomposed model.now ≤ most_pins }
    ensures passed { IfOk result (λ count. IfSome (S.files shelf.old) (λ told. IsPassed model.now told journal.now output.now count)) }
    ensures problem { IfErr result (λ problem. IfSome (S.files shelf.old) (λ told. IsProblem model.now told journal.now output.now problem)) }
    ensures no_journal { result ≡ Err AuditProblem.NoJournal → IsSome (S.files shelf.old) }
    ensures no_output { result ≡ Err AuditProblem.NoOutput → IsSome (S.files shelf.old) }
    ensures fault { result ≡ Err AuditProblem.Fault → Rose (S.faults shelf.old) (S.faults shelf.new) }
    ensures plain { IfErr result IsPlain }
    ensures later { S.faults shelf.old ≤ S.faults shelf.new }
    ensures files { S.files shelf.new ≡ S.files shelf.old }
{
    match audit_verdicts(alloc, keys, shelf, model, journal, output) {
        Ok(audited) => Ok(audited.count),
        Err(problem) => Err(problem),
    }
}
