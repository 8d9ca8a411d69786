//! Deciding whether two models compute the same, by merging too.
ghost use Rattle.std.specs.Prelude.{◌≡◌, ◌<◌, ◌≤◌, ◌+◌, ◌^◌, IfErr, IfOk, IfSome, OnOk, false, length, true, ℕ};
ghost use Rattle.equal_evidence.specs.Evidence.{IsWritable, IsWritten};
ghost use Rattle.equal_evidence.specs.Shown.{IsEvidenceFor};
ghost use Rattle.equal_evidence.specs.declared.evidence.Evidence.TheVariants as evidence;
ghost use Rattle.equal_miter.specs.Equal.{AreComparable, DifferBy, SameFunction};
ghost use Rattle.equal_miter.specs.Likeness.{IsDecided as IsSettled, IsLikeness};
ghost use Rattle.equal_miter.specs.Refusals.{IsMiterRefused, IsReady};
ghost use Rattle.equal_sweep.specs.Decided.{IsDecided};
ghost use Rattle.rm_model.specs.Value.{source_names};
ghost use Rattle.rm_model.specs.declared.parts.Model.{Model};

use crate::drawing::draw_difference;
use crate::sweeping::sweep;
use equal_evidence::{Evidence, likenesses_are_evidence};
use equal_miter::{Likeness, MiterRefusal, decide};
use journal_ranges::tree_fits;
use rm_base::Vector;
use rm_model::{NameKeys, RankedModel};
use std::alloc::Global;

// Whether a search came to an end.
fn is_decided(likeness: &Likeness) -> bool
    ensures yes { result ≡ true → IsSettled likeness.now }
    ensures no { result ≡ false → IsSettled likeness.now → ⊥ }
{
    match likeness {
        Likeness::Same(_tree) => true,
        Likeness::Differ(_vector) => true,
        Likeness::Undecided(_tree) => false,
    }
}

// The numbers of an answer are those of the program, and its trees have items.
fn likeness_fits(likeness: &Likeness)
    ensures { (m n : Model) (budget : ℕ) → IsLikeness m n budget likeness.now → IsWritten (evidence.Plain likeness.now) }
{
    match likeness {
        Likeness::Same(tree) => tree_fits(tree),
        Likeness::Differ(_vector) => {}
        Likeness::Undecided(tree) => tree_fits(tree),
    }
}

// Vectors are drawn only beside a search of more edges than this: a budget of fewer asks for that search alone.
const FEW_EDGES: u32 = 16;

// Values of the sources under which the models differ, where drawn ones tell them apart.
fn drawn_apart(
    alloc: Global,
    keys: NameKeys,
    model: &RankedModel,
    other: &RankedModel,
    budget: u32,
) -> Result<Option<Vector>, MiterRefusal>
    requires first { IsReady model.now }
    requires second { IsReady other.now }
    ensures apart { IfOk result (λ found. IfSome found (λ bits. DifferBy model.now other.now bits × (SameFunction model.now other.now → ⊥))) }
    ensures refused { IfErr result (λ refusal. IsMiterRefused model.now other.now refusal) }
{
    if budget <= FEW_EDGES {
        return Ok(None);
    }
    draw_difference(alloc, keys, model, other)
}

// What is found where a search was left open: that drawn vectors tell the models apart, or that merging makes their miter One.
fn look_further(
    alloc: Global,
    keys: NameKeys,
    model: &RankedModel,
    other: &RankedModel,
    depth: u8,
    budget: u32,
) -> Result<Option<Evidence>, MiterRefusal>
    requires first { IsReady model.now }
    requires second { IsReady other.now }
    requires depth { depth ≤ 2 }
    requires budget { 0 < budget }
    ensures evidence { IfOk result (λ found. IfSome found (IsEvidenceFor model.now other.now budget)) }
    ensures decided { IfOk result (λ found. IfSome found (λ e. IsDecided e)) }
    ensures written { IfOk result (λ found. IfSome found (λ e. IsWritten e)) }
    ensures writable { IfOk result (λ found. IfSome found (λ e. IsWritable e)) }
    ensures refused { IfErr result (λ refusal. IsMiterRefused model.now other.now refusal) }
{
    if let Some(vector) = drawn_apart(alloc, keys, model, other, budget)? {
        return Ok(Some(Evidence::Plain(Likeness::Differ(vector))));
    }
    match sweep(alloc, keys, model, other, depth, budget)? {
        Some(run) => Ok(Some(Evidence::Merged(run))),
        None => Ok(None),
    }
}

/// Decides whether two models compute the same, as `equal_miter::decide` does; and where its search spends the budget, by drawn
/// vectors that tell them apart, or by merging the equal gates of their miter, each by a fault that is refuted at the same depth
/// and budget (Brand, Verification of large synthesized designs, ICCAD 1993; Kuehlmann, Paruthi, Krohm and Ganai, Robust Boolean
/// reasoning for equivalence checking and functional property verification, IEEE Transactions on CAD, 2002). Where that leaves the
/// constant One alone, the models compute the same, and the steps are the evidence; else the answer is that of the search. A budget
/// of at least 2^(n+1) for n sources always decides. The refusals are those of `equal_miter::miter`.
pub fn decide_merging(
    alloc: Global,
    keys: NameKeys,
    model: &RankedModel,
    other: &RankedModel,
    depth: u8,
    budget: u32,
) -> Result<Evidence, MiterRefusal>
    requires first { IsReady model.now }
    requires second { IsReady other.now }
    requires depth { depth ≤ 2 }
    requires budget { 0 < budget }
    ensures comparable { OnOk result (AreComparable model.now other.now) }
    ensures evidence { IfOk result (λ e. IsEvidenceFor model.now other.now budget e) }
    ensures decided { 2 ^ (length (source_names model.now) + 1) ≤ budget → IfOk result (λ e. IsDecided e) }
    ensures written { IfOk result (λ e. IsWritten e) }
    ensures writable { IfOk result (λ e. IsWritable e) }
    ensures refused { IfErr result (λ refusal. IsMiterRefused model.now other.now refusal) }
{
    likenesses_are_evidence();
    let likeness = decide(alloc, keys, model, other, depth, budget)?;
    likeness_fits(&likeness);
    if is_decided(&likeness) {
        return Ok(Evidence::Plain(likeness));
    }
    let found = look_further(alloc, keys, model, other, depth, budget)?;
    match found {
        Some(evidence) => Ok(evidence),
        None => Ok(Evidence::Plain(likeness)),
    }
}
