//! Laws of closing passes.
ghost use Rattle.closing_pass.specs.Recording.{ClosedAreRecordable, TidyNetsHaveSources};

use wire_edit::{fixes_lower, order_tells};

/// What closes the faults of a tidy net can be recorded: each vector has a value, since a net with a pin has a source.
pub fn closed_are_recordable()
    ensures { ClosedAreRecordable }
{
    order_tells();
    fixes_lower();
}

/// A tidy net with a fault has a source: without one its gates would read constants, or gates of ever lower ranks.
pub fn tidy_nets_have_sources()
    ensures { TidyNetsHaveSources }
{
    order_tells();
    fixes_lower();
}
