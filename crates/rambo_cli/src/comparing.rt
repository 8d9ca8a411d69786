//! The command `equal`.
ghost use Rattle.std.specs.Prelude.{◌≡◌, ◌≤◌, ◌+◌, ◌^◌, IfErr, IfOk, OnOk, length};
ghost use Rattle.cover_decompose.specs.Limits.{most_pins};
ghost use Rattle.cover_decompose.specs.Spelled.{plain_decomposed};
ghost use Rattle.equal_evidence.specs.Evidence.{IsWritable, IsWritten};
ghost use Rattle.equal_evidence.specs.Shown.{IsEvidenceFor};
ghost use Rattle.equal_miter.specs.Equal.{AreComparable};
ghost use Rattle.equal_sweep.specs.Decided.{IsDecided};
ghost use Rattle.rm_model.specs.Value.{source_names};
ghost use Rattle.optimisation.specs.Ranges.{AreSettings};
ghost use Rattle.word_reading.specs.Commands.{HasNamesApart};
ghost use Rattle.word_reading.specs.Words.{equal};
ghost use Rattle.rambo_cli.specs.Contract.{Caused};
ghost use Rattle.rambo_cli.specs.Equal.{BeginsToCompare, EqualDoes, EqualFinds};
ghost use Rattle.rambo_cli.specs.Files.{IfTold};
ghost use Rattle.rambo_cli.specs.Inner.Equal.{IsUnlikeFor};
ghost use Rattle.rambo_cli.specs.Inner.Written.{IsUsable};
ghost use Rattle.rambo_cli.specs.Problems.{KeepsFiles};

use crate::optimising::replace;
use crate::pairs::{Pair, Parities, read_pair};
use crate::problem::Problem;
use crate::verdict::verdict_of;
use crate::work::Done;
use equal_evidence::{Evidence, write_evidence};
use equal_sweep::decide_merging;
use rm_base::{Settings, Shelf};
use rm_model::NameKeys;
use std::alloc::Global;

/// The names of the files of `equal`, and of `judge`.
#[derive(Clone, Copy)]
pub(crate) struct EqualNames<'a> {
    pub(crate) first: &'a str,
    pub(crate) second: &'a str,
    pub(crate) proof: &'a str,
}

// Decides whether the models compute the same.
#[tactic(auto, using(crate::proofs::Compared::ready))]
fn decide_pair(
    alloc: Global,
    keys: NameKeys,
    pair: &Pair,
    settings: &Settings,
) -> Result<Evidence, Problem>
    requires usable { IsUsable pair.now.model }
    requires second_usable { IsUsable pair.now.other }
    requires few { plain_decomposed pair.now.model ≤ most_pins }
    requires second_few { plain_decomposed pair.now.other ≤ most_pins }
    requires settings { AreSettings settings.now }
    ensures comparable { OnOk result (AreComparable pair.now.model pair.now.other) }
    ensures evidence { IfOk result (IsEvidenceFor pair.now.model pair.now.other settings.now.budget) }
    ensures decided { 2 ^ (length (source_names pair.now.model) + 1) ≤ settings.now.budget → IfOk result IsDecided }
    ensures written { IfOk result IsWritten }
    ensures writable { IfOk result IsWritable }
    ensures unlike { IfErr result (IsUnlikeFor pair.now.model pair.now.other) }
{
    match decide_merging(
        alloc,
        keys,
        &pair.model,
        &pair.other,
        settings.depth,
        settings.budget,
    ) {
        Ok(evidence) => Ok(evidence),
        Err(refusal) => Err(Problem::from(refusal)),
    }
}

/// Decides whether the models of two texts compute the same, and writes the proof.
pub(crate) fn compare<S: Shelf>(
    alloc: Global,
    keys: NameKeys,
    shelf: &mut S,
    names: &EqualNames<'_>,
    settings: &Settings,
) -> Result<Done, Problem>
    requires apart { HasNamesApart (equal names.now.first.now names.now.second.now names.now.proof.now settings.now) }
    requires settings { AreSettings settings.now }
    ensures done { IfOk result (EqualDoes names.now.first.now names.now.second.now names.now.proof.now settings.now (S.files shelf.old) (S.files shelf.new)) }
    ensures cause { IfErr result (Caused (EqualFinds names.now.first.now names.now.second.now (S.files shelf.old)) (S.faults shelf.old) (S.faults shelf.new)) }
    ensures unchanged { IfErr result (λ problem. KeepsFiles problem (S.files shelf.old) (S.files shelf.new)) }
    ensures safe { IfTold (S.files shelf.old) (S.files shelf.new) (BeginsToCompare names.now.first.now names.now.second.now names.now.proof.now settings.now) }
    ensures later { S.faults shelf.old ≤ S.faults shelf.new }
{
    let pair = read_pair(
        alloc,
        keys,
        shelf,
        Parities::ByRows,
        names.first,
        names.second,
    )?;
    let evidence = decide_pair(alloc, keys, &pair, settings)?;
    let text = write_evidence(alloc, settings.budget, &evidence)?;
    replace(shelf, names.proof, text.as_slice())?;
    Ok(Done::Compared(verdict_of(settings.budget, evidence)))
}
