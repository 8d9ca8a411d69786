// Judging the proof on two models.
ghost use Rattle.std.specs.Prelude.{◌≡◌, ◌≤◌, IfErr, IfOk, OnOk, length, ℕ};
ghost use Rattle.cover_decompose.specs.Spelled.{plain_decomposed};
ghost use Rattle.cover_decompose.specs.Limits.{most_pins};
ghost use Rattle.equal_evidence.specs.Evidence.{IsProof};
ghost use Rattle.equal_evidence.specs.Shown.{IsEvidenceFor};
ghost use Rattle.equal_evidence.specs.declared.evidence.Evidence.{Evidence as EvidenceValue};
ghost use Rattle.equal_miter.specs.Equal.{AreComparable, models_fault, models_miter};
ghost use Rattle.equal_miter.specs.Refusals.{HaveSameNames, IsReady};
ghost use Rattle.gate_graph.specs.Circuit.{net_of};
ghost use Rattle.gate_graph.specs.Holds.{pins_held};
ghost use Rattle.gate_net.specs.Net.{wire_count};
ghost use Rattle.proof_check.specs.Inner.Judging.{IsUnlikeNames, IsUnread, refusal_of_text};
ghost use Rattle.proof_check.specs.Refusals.{IsJudgeRefused, IsOfText};
ghost use Rattle.proof_check.specs.declared.refusal.JudgeRefusal.TheVariants as refusal;

use crate::laws::flaws_hide;
use crate::refusal::JudgeRefusal;
use crate::weighing::weigh;
use equal_evidence::{Evidence, evidence_is_shown, read_evidence};
use equal_miter::{MiterRefusal, miter};
use gate_graph::Graph;
use journal_text::JournalFault;
use rm_base::Fault;
use rm_model::{NameKeys, RankedModel};
use std::alloc::Global;

/// The budget and the evidence of a proof that is accepted.
#[derive(Debug, Drop)]
pub struct Judged {
    pub budget: u32,
    pub evidence: Evidence,
}

// The miter of two models that aren't too large, and its fault.
fn miter_of_pair(
    alloc: Global,
    keys: NameKeys,
    a: &RankedModel,
    b: &RankedModel,
) -> Result<(Graph, Fault), JudgeRefusal>
    requires first { IsReady a.now }
    requires second { IsReady b.now }
    requires few { plain_decomposed a.now ≤ most_pins }
    requires second_few { plain_decomposed b.now ≤ most_pins }
    ensures net { IfOk result (λ r. net_of r.0 ≡ models_miter a.now b.now) }
    ensures fault { IfOk result (λ r. r.1 ≡ models_fault a.now b.now) }
    ensures comparable { OnOk result (AreComparable a.now b.now) }
    ensures wires { IfOk result (λ r. wire_count (net_of r.0) ≤ 1000000) }
    ensures nodes { IfOk result (λ r. length (net_of r.0).nodes ≤ 1000000) }
    ensures observed { IfOk result (λ r. length (net_of r.0).observed ≤ 131072) }
    ensures held { IfOk result (λ r. pins_held r.0 ≡ 0) }
    ensures refused { IfErr result (λ r. IsUnlikeNames a.now b.now r) }
{
    match miter(alloc, keys, a, b) {
        Ok(made) => Ok(made),
        Err(MiterRefusal::UnlikeSources { at }) => Err(JudgeRefusal::UnlikeSources { at }),
        Err(MiterRefusal::UnlikeObserved { at }) => Err(JudgeRefusal::UnlikeObserved { at }),
        Err(MiterRefusal::Limit { second: _, pins: _ }) => unreachable!(),
        Err(MiterRefusal::NoMemory) => Err(JudgeRefusal::NoMemory),
    }
}

// The fault of a text, as a refusal.
fn refusal_of_text(found: JournalFault) -> JudgeRefusal
    ensures { result ≡ refusal_of_text found }
{
    match found {
        JournalFault::NoMemory => JudgeRefusal::NoMemory,
        JournalFault::BadHeader { .. }
        | JournalFault::BadRecord { .. }
        | JournalFault::Truncated { .. }
        | JournalFault::AfterEnd { .. } => JudgeRefusal::Text(found),
    }
}

// What a text says.
fn read_proof(alloc: Global, text: &[u8]) -> Result<Judged, JudgeRefusal>
    ensures read { IfOk result (λ j. IsProof text.now j.budget j.evidence) }
    ensures refused { IfErr result (λ r. IsUnread text.now r) }
    ensures one { (budget : ℕ) (e : EvidenceValue) → IsProof text.now budget e → IfOk result (λ j. (j.budget ≡ budget) × (j.evidence ≡ e)) }
{
    match read_evidence(alloc, text) {
        Ok((budget, evidence)) => Ok(Judged { budget, evidence }),
        Err(found) => Err(refusal_of_text(found)),
    }
}

/// Judges the text of a proof on two models, without search. A yes means that they compute the same, that they don't, or that a
/// search for a vector that tells them apart spent exactly its budget, as the evidence says; and a text is refused only where it
/// isn't that of such evidence. It takes the time of the miter, of its steps, and of the items of the trees.
pub fn judge(
    alloc: Global,
    keys: NameKeys,
    a: &RankedModel,
    b: &RankedModel,
    text: &[u8],
) -> Result<Judged, JudgeRefusal>
    requires first { IsReady a.now }
    requires second { IsReady b.now }
    requires few { plain_decomposed a.now ≤ most_pins }
    requires second_few { plain_decomposed b.now ≤ most_pins }
    ensures judged { IfOk result (λ j. IsProof text.now j.budget j.evidence) }
    ensures shown { IfOk result (λ j. IsEvidenceFor a.now b.now j.budget j.evidence) }
    ensures comparable { OnOk result (AreComparable a.now b.now) }
    ensures why { IfErr result (λ r. IsJudgeRefused a.now b.now text.now r) }
    ensures refused { IfErr result (λ r. IsOfText r → (budget : ℕ) (e : EvidenceValue) → IsProof text.now budget e → IsEvidenceFor a.now b.now budget e → ⊥) }
    ensures accepted { (budget : ℕ) (e : EvidenceValue) → HaveSameNames a.now b.now → IsProof text.now budget e → IsEvidenceFor a.now b.now budget e → IfOk result (λ j. (j.budget ≡ budget) × (j.evidence ≡ e)) × IfErr result (λ r. r ≡ refusal.NoMemory) }
{
    evidence_is_shown();
    flaws_hide();
    let (graph, fault) = miter_of_pair(alloc, keys, a, b)?;
    graph.well_formed();
    let read = read_proof(alloc, text)?;
    weigh(alloc, graph, fault, read.budget, &read.evidence)?;
    Ok(read)
}
