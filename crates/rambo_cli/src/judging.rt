//! The command `judge`.
ghost use Rattle.std.specs.Prelude.{◌≡◌, ◌≤◌, ◌^◌, IfErr, IfOk, IfSome, OnOk, length};
ghost use Rattle.cover_decompose.specs.Limits.{most_pins};
ghost use Rattle.cover_decompose.specs.Spelled.{plain_decomposed};
ghost use Rattle.equal_evidence.specs.Evidence.{IsProof};
ghost use Rattle.equal_evidence.specs.Shown.{IsEvidenceFor};
ghost use Rattle.equal_miter.specs.Equal.{AreComparable};
ghost use Rattle.rambo_cli.specs.Contract.{Caused};
ghost use Rattle.rambo_cli.specs.Files.{Holds};
ghost use Rattle.rambo_cli.specs.Inner.Judge.{IsRefusedFor, ProofFinds};
ghost use Rattle.rambo_cli.specs.Inner.Written.{IsUsable};
ghost use Rattle.rambo_cli.specs.Judge.{JudgeDoes, JudgeFinds};

use crate::comparing::EqualNames;
use crate::pairs::{Pair, Parities, read_pair};
use crate::problem::Problem;
use crate::reading::bytes_of;
use crate::verdict::{records_in, verdict_of};
use crate::work::Done;
use blif_format::{Quantity, reads_once};
use proof_check::{Judged, judge};
use rm_base::Shelf;
use rm_model::NameKeys;
use std::alloc::Global;

/// How many bytes of a proof are read.
const MOST_BYTES: usize = 4_611_686_018_427_387_904;

// The text of PROOF.
fn read_proof<S: Shelf>(shelf: &mut S, proof: &str) -> Result<Vec<u8>, Problem>
    ensures read { IfOk result (λ text. IfSome (S.files shelf.old) (λ told. Holds told proof.now (λ bytes. (length bytes ≤ 2 ^ 62) × (text.items ≡ bytes)))) }
    ensures cause { IfErr result (Caused (ProofFinds proof.now (S.files shelf.old)) (S.faults shelf.old) (S.faults shelf.new)) }
    ensures files { S.files shelf.new ≡ S.files shelf.old }
    ensures later { S.faults shelf.old ≤ S.faults shelf.new }
{
    let text = bytes_of(shelf, proof, MOST_BYTES + 1)?;
    if text.len() > MOST_BYTES {
        return Err(Problem::Limit {
            quantity: Quantity::Journal,
            count: 4_611_686_018_427_387_905,
        });
    }
    Ok(text)
}

// What the text of PROOF says of two models, where it is that of evidence on them.
#[tactic(auto, using(crate::proofs::Compared::ready))]
fn weigh_proof(alloc: Global, keys: NameKeys, pair: &Pair, text: &[u8]) -> Result<Judged, Problem>
    requires usable { IsUsable pair.now.model }
    requires second_usable { IsUsable pair.now.other }
    requires few { plain_decomposed pair.now.model ≤ most_pins }
    requires second_few { plain_decomposed pair.now.other ≤ most_pins }
    ensures comparable { OnOk result (AreComparable pair.now.model pair.now.other) }
    ensures says { IfOk result (λ j. IsProof text.now j.budget j.evidence) }
    ensures shown { IfOk result (λ j. IsEvidenceFor pair.now.model pair.now.other j.budget j.evidence) }
    ensures refused { IfErr result (IsRefusedFor pair.now.model pair.now.other text.now) }
{
    match judge(alloc, keys, &pair.model, &pair.other, text) {
        Ok(judged) => Ok(judged),
        Err(refusal) => Err(Problem::from(refusal)),
    }
}

/// Judges the proof on the models of two texts.
pub(crate) fn judge_proof<S: Shelf>(
    alloc: Global,
    keys: NameKeys,
    shelf: &mut S,
    names: &EqualNames<'_>,
) -> Result<Done, Problem>
    ensures done { IfOk result (JudgeDoes names.now.first.now names.now.second.now names.now.proof.now (S.files shelf.old) (S.files shelf.new)) }
    ensures cause { IfErr result (Caused (JudgeFinds names.now.first.now names.now.second.now names.now.proof.now (S.files shelf.old)) (S.faults shelf.old) (S.faults shelf.new)) }
    ensures files { S.files shelf.new ≡ S.files shelf.old }
    ensures later { S.faults shelf.old ≤ S.faults shelf.new }
{
    reads_once();
    let pair = read_pair(
        alloc,
        keys,
        shelf,
        Parities::ByRows,
        names.first,
        names.second,
    )?;
    let text = read_proof(shelf, names.proof)?;
    let judged = weigh_proof(alloc, keys, &pair, text.as_slice())?;
    let count = records_in(&judged.evidence);
    Ok(Done::Judged {
        count,
        verdict: verdict_of(judged.budget, judged.evidence),
    })
}
