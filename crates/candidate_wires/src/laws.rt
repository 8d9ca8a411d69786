//! What holds of the pairs of every net.
ghost use Rattle.candidate_wires.specs.Laws.{PairsAreOne, PairsBeforeAreOne, TurnsAreWhole};

/// A turn of a net has one list of pairs, and one list before each of them; and it has every pair of the net.
pub fn pairs_are_one()
    ensures pairs { PairsAreOne }
    ensures before { PairsBeforeAreOne }
    ensures whole { TurnsAreWhole }
{}
