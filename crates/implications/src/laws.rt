//! What holds of lines and of trails.
ghost use Rattle.implications.specs.Laws.{LinesForce, ClashesForce, LinesAreLocal, FirstLinesAskNothing, TrailTells};
ghost use Rattle.implications.specs.Outside.{OutsideIsSettled};

/// A closed set without a clash that contains some facts contains all to which lines lead from them.
pub fn lines_force()
    ensures lead { LinesForce }
    ensures clash { ClashesForce }
{}

/// What leads back is what was added.
pub fn trails_tell()
    ensures { TrailTells }
{}

/// A line asks for facts at its place and at the drivers of that alone, and one without a place for none.
pub fn lines_are_local()
    ensures local { LinesAreLocal }
    ensures first { FirstLinesAskNothing }
{}

/// By what the faulty gate doesn't reach alone, each node is settled but the constants, that gate and gates without pins.
pub fn outside_is_settled()
    ensures { OutsideIsSettled }
{}
