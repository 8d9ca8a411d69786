// What follows of the definitions, each the contract of a function that does nothing.
ghost use Rattle.journal_binary.specs.Laws.{BodiesAreOne, BytesRead, CutsAgree, FaultsAreOne};

/// Bytes are read as a record or a journal exactly where they are its text.
pub fn bytes_read()
    ensures { BytesRead }
{}

/// However bytes are cut into pieces, a reader gives the entries and the fault of the whole.
pub fn cuts_agree()
    ensures { CutsAgree }
{}

/// Bytes are the journal of one budget and one list of records at most, begin with no others, and have no fault then.
pub fn bodies_are_one()
    ensures { BodiesAreOne }
{}

/// Bytes have one fault at most, and where they have none they are a journal.
pub fn faults_are_one()
    ensures { FaultsAreOne }
{}
