//! What follows of the definitions.
ghost use Rattle.blif_format.specs.Laws.{ReadsOnce};

/// Lines say one model at most.
pub fn reads_once()
    ensures { ReadsOnce }
{}
