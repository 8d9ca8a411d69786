// Comparing the output with a text.
ghost use Rattle.std.specs.Prelude.{◌≡◌, ◌≤◌, IfErr, IfSome, None, OnOk, length};
ghost use Rattle.journal_audit.specs.Differences.{DifferAfter};
ghost use Rattle.journal_audit.specs.Inner.Audited.{IsDifference};

use crate::problem::AuditProblem;

/// The first place at which the texts differ or one of them has ended, or None where they are the same.
pub(crate) fn first_difference(text: &[u8], other: &[u8]) -> Option<usize>
    ensures same { result ≡ None → text.now ≡ other.now }
    ensures within { IfSome result (λ place. place ≤ length text.now) }
    ensures differ { IfSome result (λ place. DifferAfter text.now other.now place) }
{
    let mut at = 0usize;
    while at < text.len() && at < other.len() {
        if text[at] != other[at] {
            return Some(at);
        }
        at += 1;
    }
    if text.len() == other.len() {
        return None;
    }
    Some(at)
}

/// The byte, counted from 1, at which what was found isn't the text.
pub(crate) fn difference(text: &[u8], found: &[u8]) -> Result<(), AuditProblem>
    ensures same { OnOk result (text.now ≡ found.now) }
    ensures differ { IfErr result (IsDifference text.now found.now) }
{
    match first_difference(text, found) {
        Some(place) => Err(AuditProblem::Netlist {
            byte: place as u64 + 1,
        }),
        None => Ok(()),
    }
}
