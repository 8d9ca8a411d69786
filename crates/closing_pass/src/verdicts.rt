// The verdicts of all faults, once each has a finding.
ghost use Rattle.std.specs.Prelude.{◌≡◌, ◌≢◌, ◌<◌, ℕ, IfOk, Some, length, slice_get};
ghost use Rattle.closing_pass.specs.Inner.Findings.{AreVerdictsOf, IsNumbered, IsVerdictOf};
ghost use Rattle.closing_pass.specs.declared.finding.Finding.{Finding as FindingValue};

use crate::finding::Finding;
use podem::Verdict;
use rm_base::{Fault, NoMemory, Vector};
use std::alloc::Global;

/// A copy of the vector.
pub(crate) fn copy_of(alloc: Global, vector: &Vector) -> Result<Vector, NoMemory>
    ensures { IfOk result (λ v. v ≡ vector.now) }
{
    let values = vector.values().to_vec(alloc)?;
    Ok(Vector::of(values))
}

// The verdict of a finding, with a copy of its vector.
fn verdict_of(alloc: Global, finding: Finding, kept: &[Vector]) -> Result<Verdict, NoMemory>
    requires { IsNumbered (length kept.now) finding }
    ensures { IfOk result (IsVerdictOf kept.now finding) }
{
    match finding {
        Finding::Open => unreachable!(),
        Finding::Detected(number) => Ok(Verdict::Detected(copy_of(alloc, &kept[number])?)),
        Finding::Spent(tree) => Ok(Verdict::Spent(tree)),
    }
}

/// Each fault with its verdict, in order.
pub(crate) fn verdicts_of(
    alloc: Global,
    faults: &[Fault],
    found: Vec<Finding>,
    kept: &[Vector],
) -> Result<Vec<(Fault, Verdict)>, NoMemory>
    requires size { length found.items ≡ length faults.now }
    requires numbered { (j : ℕ) (finding : FindingValue) → slice_get found.items j ≡ Some finding → IsNumbered (length kept.now) finding }
    ensures { IfOk result (λ v. AreVerdictsOf kept.now faults.now found.items v.items) }
{
    let mut verdicts = Vec::with_capacity(alloc, faults.len())?;
    for finding in found {
        let fault = faults[verdicts.len()];
        let verdict = verdict_of(alloc, finding, kept)?;
        verdicts.push((fault, verdict))?;
    }
    Ok(verdicts)
}
