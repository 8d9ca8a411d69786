//! What the justifications of a gate teach, and what stays under more facts.
ghost use Rattle.recursive_learning.specs.Gates.{ClashesAreLearned, ClashesDeepen, ClashesStay, OppositesClash, ValuesAreLearned};

/// What all justifications of a gate come to is forced.
pub fn gates_teach()
    ensures clashes { ClashesAreLearned }
    ensures values { ValuesAreLearned }
{}

/// What leads to a clash does so under more facts and at larger depths; and under the opposite of a learned value each
/// justification does.
pub fn clashes_stay()
    ensures stay { ClashesStay }
    ensures deepen { ClashesDeepen }
    ensures opposites { OppositesClash }
{}
