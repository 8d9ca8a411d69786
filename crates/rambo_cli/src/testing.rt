//! The command `tests`.
ghost use Rattle.std.specs.Prelude.{◌≡◌, ◌≤◌, IfErr, IfOk, IfSome};
ghost use Rattle.gate_graph.specs.Circuit.{net_of};
ghost use Rattle.graph_to_model.specs.Fits.{Fits};
ghost use Rattle.graph_to_model.specs.Laws.{AreFew};
ghost use Rattle.journal_audit.specs.Audited.{IsLast};
ghost use Rattle.rambo_cli.specs.Check.{CheckFinds};
ghost use Rattle.rambo_cli.specs.Contract.{Caused};
ghost use Rattle.rambo_cli.specs.Files.{IfTold};
ghost use Rattle.rambo_cli.specs.Problems.{KeepsFiles};
ghost use Rattle.rambo_cli.specs.Tests.{BeginsTests, HasWrittenTests};
ghost use Rattle.rambo_cli.specs.Inner.Tests.{IsWritten};
ghost use Rattle.rambo_cli.specs.Inner.Written.{IsUsable};

use crate::checking::fits;
use crate::laws::passed_audits_tell;
use crate::optimising::replace;
use crate::problem::Problem;
use crate::reading::read_input;
use graph_to_model::{model_of_tidy, tidy_nets_have_models};
use journal_audit::{Audited, audit_verdicts};
use journal_check::accepted_journals_tell;
use model_faults::laws::tidy_nets_have_model_faults;
use pattern_text::{Counts, count_tests, tests_text};
use rm_base::{NoMemory, Shelf};
use rm_model::{NameKeys, RankedModel};
use std::alloc::Global;
use test_patterns::compact;

/// The names of the files of `tests`.
#[derive(Clone, Copy)]
pub(crate) struct TestNames<'a> {
    pub(crate) input: &'a str,
    pub(crate) journal: &'a str,
    pub(crate) output: &'a str,
    pub(crate) patterns: &'a str,
}

// The text of patterns, and how many there are.
#[derive(Drop)]
struct Written {
    text: Vec<u8>,
    counts: Counts,
}

// Few patterns for the faults of the last net's model.
fn patterns_of(
    alloc: Global,
    keys: NameKeys,
    model: &RankedModel,
    audited: &Audited,
) -> Result<Written, NoMemory>
    requires usable { IsUsable model.now }
    requires last { IsLast model.now (net_of audited.now.graph) audited.now.verdicts }
    requires fits { Fits (net_of audited.now.graph) model.now }
    requires few { AreFew (net_of audited.now.graph) model.now }
    ensures { IfOk result (λ w. IsWritten model.now audited.now w) }
{
    accepted_journals_tell();
    tidy_nets_have_models();
    tidy_nets_have_model_faults();
    let vectors = audited.verdicts.vectors();
    let numbers = audited.verdicts.numbers();
    let set = compact(alloc, &audited.graph, vectors, numbers)?;
    let out = model_of_tidy(alloc, keys, &audited.graph, model.model())?;
    let patterns = set.patterns.as_slice();
    let firsts = set.firsts.as_slice();
    let lasts = set.lasts.as_slice();
    let text = tests_text(alloc, keys, &out, vectors, patterns, firsts, lasts)?;
    let counts = count_tests(patterns, firsts, lasts);
    Ok(Written { text, counts })
}

/// Replays the journal over the input, compares the output with the text of the last net, and writes few patterns for the
/// output's faults: how many, or the first reason against the journal or the output.
pub(crate) fn write_tests<S: Shelf>(
    alloc: Global,
    keys: NameKeys,
    shelf: &mut S,
    names: &TestNames<'_>,
) -> Result<Counts, Problem>
    ensures done { IfOk result (λ counts. IfTold (S.files shelf.old) (S.files shelf.new) (HasWrittenTests names.now.input.now names.now.journal.now names.now.output.now names.now.patterns.now counts)) }
    ensures cause { IfErr result (Caused (CheckFinds names.now.input.now names.now.journal.now names.now.output.now (S.files shelf.old)) (S.faults shelf.old) (S.faults shelf.new)) }
    ensures unchanged { IfErr result (λ problem. KeepsFiles problem (S.files shelf.old) (S.files shelf.new)) }
    ensures safe { IfTold (S.files shelf.old) (S.files shelf.new) (BeginsTests names.now.input.now names.now.journal.now names.now.output.now names.now.patterns.now) }
    ensures later { S.faults shelf.old ≤ S.faults shelf.new }
{
    passed_audits_tell();
    let model = read_input(alloc, keys, shelf, names.input)?;
    fits(alloc, &model)?;
    let audited = audit_verdicts(alloc, keys, shelf, &model, names.journal, names.output)?;
    let written = patterns_of(alloc, keys, &model, &audited)?;
    replace(shelf, names.patterns, written.text.as_slice())?;
    Ok(written.counts)
}
