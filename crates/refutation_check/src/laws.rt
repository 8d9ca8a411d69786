//! What holds of every tree: it is accepted or has one first refusal, never both.
ghost use Rattle.refutation_check.specs.Laws.{AcceptedAreNotRefused, RefusalsAgree};

use refutation::laws::{lines_give_one, readings_accept};

/// A tree has one first refusal at most, and none where it is accepted.
pub fn refusals_agree()
    ensures one { RefusalsAgree }
    ensures none { AcceptedAreNotRefused }
{
    lines_give_one();
    readings_accept();
}
