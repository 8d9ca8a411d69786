//! What holds of every chain.
ghost use Rattle.local_evaluation.specs.Laws.{WalksBegin, WalksGoOn, WalksEnd, WalksAreShort};

/// A chain is what a walk comes through that goes from a gate to the only reader of where it is, as long as that isn't
/// observed.
pub fn chains_are_walks()
    ensures begin { WalksBegin }
    ensures goes_on { WalksGoOn }
    ensures ends { WalksEnd }
    ensures short { WalksAreShort }
{}
