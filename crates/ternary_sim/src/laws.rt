//! Laws of readings.
ghost use Rattle.ternary_sim.specs.Regions.{ReadingsExist, RegionsDecide};

/// There is a forward reading of the whole net, whatever is known of the sources.
pub fn readings_exist()
    ensures { ReadingsExist }
{}

/// A reading of what a fault concerns tells whether one of the whole net finds a test, and whether all is quiet there.
pub fn regions_decide()
    ensures { RegionsDecide }
{}
