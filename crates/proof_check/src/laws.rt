//! What holds of every refusal.
ghost use Rattle.proof_check.specs.Laws.{FlawsHide};

use refutation::laws::edges_are_few;
use refutation_check::laws::refusals_agree;
use wire_edit::answers_agree;

/// Evidence with a flaw shows nothing.
pub fn flaws_hide()
    ensures { FlawsHide }
{
    refusals_agree();
    edges_are_few();
    answers_agree();
}
