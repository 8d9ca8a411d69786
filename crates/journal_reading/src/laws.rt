// What follows of the definitions, each the contract of a function that does nothing.
ghost use Rattle.journal_reading.specs.Laws.{CutsAgree, FaultsAreOne, JournalsAreOne, PlacesTell};

use journal_binary::{
    bodies_are_one, cuts_agree as body_cuts_agree, faults_are_one as body_faults_are_one,
};
use journal_text::{
    cuts_agree as line_cuts_agree, faults_are_one as line_faults_are_one,
    journals_are_one as line_journals_are_one, lines_read,
};

/// However a text is cut into pieces, a reader gives the entries and the fault of the whole.
pub fn cuts_agree()
    ensures { CutsAgree }
{
    line_cuts_agree();
    body_cuts_agree();
}

/// What a text that is read so far begins with, and the numbers of what is wrong there.
pub fn places_tell()
    ensures { PlacesTell }
{
    body_cuts_agree();
}

/// A text is the journal of one budget and one list of records at most, begins with no others, and has no fault then.
pub fn journals_are_one()
    ensures { JournalsAreOne }
{
    lines_read();
    line_journals_are_one();
    bodies_are_one();
}

/// A text has one fault at most, and where it has none it is a journal.
pub fn faults_are_one()
    ensures { FaultsAreOne }
{
    line_faults_are_one();
    body_faults_are_one();
}
