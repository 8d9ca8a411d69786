//! The faults of an extract.
ghost use Rattle.care_opt.specs.Laws.{ExtractsKeepFaults};

/// The faults of an extract are those of the main gates, in the same order, with their gates numbered anew.
pub fn extracts_keep_faults()
    ensures { ExtractsKeepFaults }
{}
