// What looks at gates come to.
ghost use Rattle.std.specs.Prelude.{◌≡◌, ◌≢◌, false, true};
ghost use Rattle.recursive_learning.specs.declared.justified_values.Round.TheVariants.{Clash, Gained, Quiet};

use crate::justified_values::Round;

/// Whether that is a clash.
pub fn is_clash(round: Round) -> bool
    ensures clash { result ≡ true → round ≡ Clash }
    ensures other { result ≡ false → round ≢ Clash }
{
    match round {
        Round::Clash => true,
        Round::Gained | Round::Quiet => false,
    }
}

/// What looks came to together with one more, where none led to a clash.
pub fn together(before: Round, round: Round) -> Round
    ensures quiet { before ≡ Quiet → result ≡ round }
    ensures gained { before ≡ Gained → result ≡ Gained }
{
    match before {
        Round::Quiet => round,
        Round::Gained | Round::Clash => before,
    }
}
