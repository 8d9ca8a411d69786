// Laws of journals.
ghost use Rattle.journal_check.specs.Laws.{AcceptedJournalsTell, AcceptedStand, RecordsReplay, ReplaysAccept};

use cover_decompose::{decompositions_are_formed, decompositions_stand};
use gate_net::values_exist;
use journal_text::accepted_runs_keep;
use refutation_check::laws::refusals_agree;

/// The last net of an accepted journal stands for the model.
pub fn accepted_stand()
    ensures { AcceptedStand }
{
    decompositions_stand();
    decompositions_are_formed();
    accepted_runs_keep();
    values_exist();
}

/// Records are replayed to a last net exactly where they are accepted.
pub fn replays_accept()
    ensures { ReplaysAccept }
{}

/// Records are replayed one after another, and each is accepted or refused, never both.
pub fn records_replay()
    ensures { RecordsReplay }
{
    refusals_agree();
}

/// The last net of an accepted journal keeps what the decomposition observes, and each of its faults has its verdict.
pub fn accepted_journals_tell()
    ensures { AcceptedJournalsTell }
{
    decompositions_are_formed();
    accepted_runs_keep();
}
