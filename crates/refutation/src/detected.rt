//! What a vector that detects a fault says of refuting the fault.
ghost use Rattle.refutation.specs.Detected.{DetectedHaveOpenSets, DetectedNeverClash, TrueFactsAreClosed};

use crate::laws::{closed_has_all, lines_hold};

/// The facts that are true under an assignment that detects a fault are closed at every depth, without a clash.
pub fn true_facts_are_closed()
    ensures { TrueFactsAreClosed }
{
    lines_hold();
}

/// So a fault that some assignment detects has a set of facts that is closed at the depth without a clash, and neither
/// lines nor learning lead to a clash of it.
pub fn detected_faults_stay_open()
    ensures sets { DetectedHaveOpenSets }
    ensures clash { DetectedNeverClash }
{
    lines_hold();
    closed_has_all();
}
