// What follows of the definitions, the contract of a function that does nothing.
ghost use Rattle.journal_audit.specs.Audited.{LongJournalsTell, ProblemsExclude};

use journal_check::{records_replay, replays_accept};
use journal_reading::journals_are_one;

/// Files that have a problem don't pass: a journal is accepted or has one first fault or refusal, never both.
pub fn problems_exclude()
    ensures { ProblemsExclude }
{
    journals_are_one();
    records_replay();
    replays_accept();
}

/// Of an accepted journal that is longer than the audit reads nothing is found but its length.
pub fn long_journals_tell()
    ensures { LongJournalsTell }
{
    journals_are_one();
    records_replay();
    replays_accept();
}
