//! What follows of a text that has no first fault.
ghost use Rattle.blif_reader.specs.Laws.{FaultlessTextsAreWithin, FaultlessTextsRead, LimitsAreKept};

use rm_model::{ranks_exist, ranks_follow};

/// A text says a model wherever it has no first fault; it says one at most, and where it says one, it exceeds a limit at
/// most.
pub fn faultless_texts_read()
    ensures { FaultlessTextsRead }
{
    ranks_exist();
    ranks_follow();
}

/// A text that says a model exceeds no limit where the model is within the limits, and its model is within them where the
/// text has no first fault.
pub fn texts_keep_limits()
    ensures within { FaultlessTextsAreWithin }
    ensures kept { LimitsAreKept }
{}
