//! Rows that are worked out by hand, and how the calls of a run make its rounds.
ghost use Rattle.std.specs.Prelude.{◌≡◌};
ghost use Rattle.wire_edit.specs.Rows.{four_gates};
ghost use Rattle.candidate_wires.specs.Additions.{additions, net_after};
ghost use Rattle.candidate_wires.specs.Pairs.{targets_of};
ghost use Rattle.rar_loop.specs.Rounds.{RunBegins, RunGoesOn};
ghost use Rattle.rar_loop.specs.Rows.{nine_steps, two_gates, eight_targets, one_addition};

use candidate_wires::laws::pairs_are_one;

/// Of the net of four gates: its targets in order, and by the nine steps with which an addition takes two pins away, the
/// net at the end and that addition, with its target and the net before it.
pub fn worked_rows()
    ensures targets { targets_of four_gates ≡ eight_targets }
    ensures after { net_after four_gates nine_steps ≡ two_gates }
    ensures additions { additions four_gates nine_steps ≡ one_addition }
{}

/// Removals and the first call of a run make its first round.
pub fn run_begins()
    ensures { RunBegins }
{
    pairs_are_one();
}

/// Removals with a fix among them, and then a further call, make a further round.
pub fn run_goes_on()
    ensures { RunGoesOn }
{
    pairs_are_one();
}
