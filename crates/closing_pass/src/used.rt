// The kept vectors that findings have.
ghost use Rattle.std.specs.Prelude.{◌≡◌, ◌++◌, ◌∷◌, [], ℕ, IfOk, OnOk, Some, length, slice_get};
ghost use Rattle.closing_pass.specs.Inner.Findings.{IsNumbered};
ghost use Rattle.closing_pass.specs.Inner.Used.{AreMarks, AreUsed, HasMarked, marked_of};
ghost use Rattle.closing_pass.specs.declared.finding.Finding.{Finding as FindingValue};

use crate::finding::Finding;
use crate::verdicts::copy_of;
use rm_base::{NoMemory, Vector};
use std::alloc::Global;

// Marks the number of a finding's vector.
fn mark(finding: &Finding, marks: &mut Vec<bool>)
    requires { IsNumbered (length marks.old.items) finding.now }
    ensures { HasMarked finding.now marks.old.items marks.new.items }
{
    if let Finding::Detected(number) = finding {
        marks[*number] = true;
    }
}

// A mark for each of so many vectors: whether a finding has it.
fn marks_of(alloc: Global, found: &[Finding], count: usize) -> Result<Vec<bool>, NoMemory>
    requires numbered { (j : ℕ) (finding : FindingValue) → slice_get found.now j ≡ Some finding → IsNumbered count finding }
    ensures size { IfOk result (λ m. length m.items ≡ count) }
    ensures marks { IfOk result (λ m. AreMarks found.now m.items) }
{
    let mut marks = vec![in alloc; false; count]?;
    for finding in found {
        mark(finding, &mut marks);
    }
    Ok(marks)
}

// Adds a copy of the vector, where it is marked.
fn add_marked(
    alloc: Global,
    is_marked: bool,
    vector: &Vector,
    vectors: &mut Vec<Vector>,
) -> Result<(), NoMemory>
    ensures { OnOk result (vectors.new.items ≡ vectors.old.items ++ marked_of (is_marked ∷ []) (vector.now ∷ [])) }
{
    if is_marked {
        vectors.push(copy_of(alloc, vector)?)?;
    }
    Ok(())
}

// Copies of the marked vectors, in order.
fn marked_vectors(alloc: Global, kept: &[Vector], marks: &[bool]) -> Result<Vec<Vector>, NoMemory>
    requires { length marks.now ≡ length kept.now }
    ensures { IfOk result (λ v. v.items ≡ marked_of marks.now kept.now) }
{
    let mut vectors = Vec::new(alloc);
    for number in 0..kept.len() {
        add_marked(alloc, marks[number], &kept[number], &mut vectors)?;
    }
    Ok(vectors)
}

/// Copies of the kept vectors that findings have, each once, in order.
pub(crate) fn used_vectors(
    alloc: Global,
    found: &[Finding],
    kept: &[Vector],
) -> Result<Vec<Vector>, NoMemory>
    requires numbered { (j : ℕ) (finding : FindingValue) → slice_get found.now j ≡ Some finding → IsNumbered (length kept.now) finding }
    ensures { IfOk result (λ v. AreUsed kept.now found.now v.items) }
{
    let marks = marks_of(alloc, found, kept.len())?;
    marked_vectors(alloc, kept, marks.as_slice())
}
