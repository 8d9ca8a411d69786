// Reading the text of evidence.
ghost use Rattle.std.specs.Prelude.{◌≡◌, ◌≢◌, ◌++◌, ℕ, List, IfErr, IfOk, codes};
ghost use Rattle.equal_evidence.specs.Evidence.{IsProof};
ghost use Rattle.equal_evidence.specs.declared.evidence.Evidence.{Evidence as EvidenceValue};
ghost use Rattle.equal_evidence.specs.declared.evidence.Evidence.TheVariants.{Merged, Plain};
ghost use Rattle.equal_miter.specs.declared.likeness.Likeness.{Likeness as LikenessValue};
ghost use Rattle.journal_text.specs.declared.faults.JournalFault.TheVariants as fault;
ghost use Rattle.journal_text.specs.declared.record.Record.{Record as RecordValue};

use crate::cutting::first_line;
use crate::evidence::{Evidence, StepRun};
use crate::laws::proofs_are_one;
use crate::likenesses::read_likeness;
use crate::lines::{read_budget, read_steps, unended};
use journal_text::{JournalFault, lines_read};
use std::alloc::Global;

// What a text of the first form says, behind its version.
fn read_plain(alloc: Global, rest: &[u8]) -> Result<(u32, Evidence), JournalFault>
    ensures read { IfOk result (λ p. IsProof (codes "rambo-equal 1 " ++ rest.now) p.0 p.1) }
    ensures refused { IfErr result (λ f. f ≢ fault.NoMemory → (b : ℕ) (l : LikenessValue) → IsProof (codes "rambo-equal 1 " ++ rest.now) b (Plain l) → ⊥) }
{
    lines_read();
    let Some((word, second)) = first_line(rest) else {
        return Err(JournalFault::Truncated { line: 1 });
    };
    let budget = read_budget(alloc, word)?;
    let Some((line, more)) = first_line(second) else {
        return Err(JournalFault::Truncated { line: 2 });
    };
    let likeness = read_likeness(alloc, line)?;
    if !more.is_empty() {
        return Err(JournalFault::AfterEnd { line: 3 });
    }
    Ok((budget, Evidence::Plain(likeness)))
}

// What a text of the second form says, behind its version.
fn read_merged(alloc: Global, rest: &[u8]) -> Result<(u32, Evidence), JournalFault>
    ensures read { IfOk result (λ p. IsProof (codes "rambo-equal 2 " ++ rest.now) p.0 p.1) }
    ensures refused { IfErr result (λ f. f ≢ fault.NoMemory → (b : ℕ) (rs : List RecordValue) → IsProof (codes "rambo-equal 2 " ++ rest.now) b (Merged rs) → ⊥) }
{
    let Some(lines) = rest.strip_suffix(b"equal\n".as_slice()) else {
        return Err(unended(alloc, rest));
    };
    let (budget, records) = read_steps(alloc, lines)?;
    Ok((budget, Evidence::Merged(StepRun::of(records))))
}

/// The budget and the evidence of a text, or a fault of one that is none, at its line: the first is no header, a later one is none
/// that may come there, the text ends before its last line is whole, or a byte follows the second line of the first form. The steps
/// are read as those of a journal, and a tree or a vector as that of a record.
pub fn read_evidence(alloc: Global, text: &[u8]) -> Result<(u32, Evidence), JournalFault>
    ensures read { IfOk result (λ p. IsProof text.now p.0 p.1) }
    ensures refused { IfErr result (λ f. f ≢ fault.NoMemory → (budget : ℕ) (e : EvidenceValue) → IsProof text.now budget e → ⊥) }
    ensures one { (budget : ℕ) (e : EvidenceValue) → IsProof text.now budget e → IfOk result (λ p. (p.0 ≡ budget) × (p.1 ≡ e)) }
{
    proofs_are_one();
    if let Some(rest) = text.strip_prefix(b"rambo-equal 1 ".as_slice()) {
        return read_plain(alloc, rest);
    }
    if let Some(rest) = text.strip_prefix(b"rambo-equal 2 ".as_slice()) {
        return read_merged(alloc, rest);
    }
    Err(JournalFault::BadHeader { line: 1 })
}
