//! What follows of the definitions.
ghost use Rattle.blif_flatten.specs.Laws.{EveryValuationIsRead, FlatValuations, NamesAreOwn, NumbersAreLeast, RankedModulesHaveNoRecursion};

/// A valuation of the flat model is consistent exactly where, read by the names of the instances, it is a consistent
/// valuation of the hierarchy.
pub fn flat_valuations()
    ensures { FlatValuations }
{}

/// The names of instances are different, and so every valuation of a hierarchy is one of the flat model.
pub fn names_are_own()
    ensures own { NamesAreOwn }
    ensures least { NumbersAreLeast }
    ensures read { EveryValuationIsRead }
{}

/// Where each call goes to a module of lower rank no call is recursive.
pub fn no_recursion()
    ensures { RankedModulesHaveNoRecursion }
{}
