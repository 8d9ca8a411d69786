// What follows of the definitions, each the contract of a function that does nothing.
ghost use Rattle.journal_text.specs.Accepted.{AcceptedStepsKeep};
ghost use Rattle.journal_text.specs.Cutting.{CutsAgree, FaultsAreOne, JournalsAreOne};
ghost use Rattle.journal_text.specs.Joining.{RunsJoin, TextsAppend};
ghost use Rattle.journal_text.specs.Laws.{ItemsRead, LinesRead, NumbersRead, WordsRead};
ghost use Rattle.journal_text.specs.Runs.{AcceptedRunsAreWritable, AcceptedRunsKeep};

use gate_net::values_exist;
use refutation::laws::trees_refute;
use wire_edit::steps_keep;

/// A word is read as a number exactly where it is its decimal text.
pub fn numbers_read()
    ensures { NumbersRead }
{}

/// Joined words are parted again.
pub fn words_read()
    ensures { WordsRead }
{}

/// A word is read as an item exactly where it is its word.
pub fn items_read()
    ensures { ItemsRead }
{}

/// A line is read as an entry exactly where it is its line.
pub fn lines_read()
    ensures { LinesRead }
{}

/// An accepted step keeps the net well formed, its sources, what stands together at observed places, and every observed
/// value under every assignment.
pub fn accepted_steps_keep()
    ensures { AcceptedStepsKeep }
{
    trees_refute();
    steps_keep();
}

/// Accepted steps one after another keep all that an accepted step keeps.
pub fn accepted_runs_keep()
    ensures { AcceptedRunsKeep }
{
    values_exist();
    accepted_steps_keep();
}

/// Each record of an accepted run can be written.
pub fn accepted_runs_are_writable()
    ensures { AcceptedRunsAreWritable }
{}

/// What appending to a file does, one text after another.
pub fn texts_append()
    ensures { TextsAppend }
{}

/// What runs of records that are put together say.
pub fn runs_join()
    ensures { RunsJoin }
{}

/// However a text is cut into pieces, a reader gives the entries and the fault of the whole.
pub fn cuts_agree()
    ensures { CutsAgree }
{
    lines_read();
}

/// A text is the journal of one budget and one list of records at most, and a journal has no fault.
pub fn journals_are_one()
    ensures { JournalsAreOne }
{
    lines_read();
}

/// A text has one fault at most, and where it has none it is a journal.
pub fn faults_are_one()
    ensures { FaultsAreOne }
{
    lines_read();
}
