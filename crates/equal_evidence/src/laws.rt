// What follows of evidence, each the contract of a function that does nothing.
ghost use Rattle.equal_evidence.specs.Laws.{EvidenceIsShown, LikenessesAreEvidence, ProofsAreOne, ProofsAreWritable, SweptMeansSame};

use cover_decompose::{plain_nets_are_formed, plain_nets_stand};
use equal_miter::laws::{miters_tell, miters_tell_models};
use gate_net::values_exist;
use journal_text::{accepted_runs_keep, journals_are_one, lines_read, numbers_read};
use refutation::laws::trees_refute;

/// Models compute the same where accepted steps, one after another, lead from their miter to a net that observes the constant One alone.
pub fn swept_models_agree()
    ensures { SweptMeansSame }
{
    values_exist();
    accepted_runs_keep();
    miters_tell_models();
}

/// What is shown on the miter of two models is evidence of them, and no other is.
pub fn evidence_is_shown()
    ensures { EvidenceIsShown }
{
    swept_models_agree();
    trees_refute();
    miters_tell();
    miters_tell_models();
    values_exist();
    plain_nets_stand();
    plain_nets_are_formed();
}

/// What deciding whether two models compute the same answers is evidence.
pub fn likenesses_are_evidence()
    ensures { LikenessesAreEvidence }
{}

/// A text is that of one budget and one evidence at most.
pub fn proofs_are_one()
    ensures { ProofsAreOne }
{
    lines_read();
    numbers_read();
    journals_are_one();
}

/// The evidence of a text can be written.
pub fn proofs_are_writable()
    ensures { ProofsAreWritable }
{}
