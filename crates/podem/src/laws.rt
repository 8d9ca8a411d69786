//! What holds of every search.
ghost use Rattle.podem.specs.Laws.{KnownSourcesDecide};

/// Where each source that matters is known, a forward reading has found a test, or is quiet.
pub fn known_sources_decide()
    ensures { KnownSourcesDecide }
{}
