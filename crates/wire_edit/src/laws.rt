//! Laws of the steps.
ghost use Rattle.std.specs.Prelude.{◌≡◌, Some, None, true, false};
ghost use Rattle.wire_edit.specs.Laws.{StepsKeepForm, StepsKeepObserved, StepsKeepSources, StepsKeepValues, AnswersApply, NextApplies, TidyMeans};
ghost use Rattle.wire_edit.specs.Work.{TidyingEnds, FixesEnd, AddsRaise, WorkIsBounded, WiresGrow, RoomForTidying, RoomForFixes, RoomForAdding};
ghost use Rattle.wire_edit.specs.Calls.{RollbackRestores, TidyingHasRoom};
ghost use Rattle.wire_edit.specs.Steps.{stepped};
ghost use Rattle.wire_edit.specs.Refusals.{refusal_of};
ghost use Rattle.wire_edit.specs.Order.{next_step};
ghost use Rattle.wire_edit.specs.declared.refusal.EditRefusal.TheVariants.{Full};
ghost use Rattle.wire_edit.specs.Rows.{four_gates, much, no_pins, add, zero_row, zero_row_moved, zero_row_tidy, buffer_row, add_9_2, const_6_0, no_node_40, cycle_6_9, already_6_2, wrong_2, no_pin_6_5, not_met_6, fix_6_5, const_2_0, dead_2, same_3_1, one_pin_3, dead_3, buffer_once, buffer_moved, buffer_tidy, turn_row, const_3_1, turn_row_tidy, pass_row, const_3_0, pass_row_moved, even_row, even_row_moved};

use gate_graph::same_wiring;

/// Steps keep the net well formed, its sources, what stands together at observed places, and their values.
pub fn steps_keep()
    ensures form { StepsKeepForm }
    ensures sources { StepsKeepSources }
    ensures observed { StepsKeepObserved }
    ensures values { StepsKeepValues }
{}

/// A step that isn't refused may be made.
pub fn answers_apply()
    ensures { AnswersApply }
{}

/// The next step may be made, and a net is tidy where no local rule but `NewNot` applies.
pub fn order_tells()
    ensures next { NextApplies }
    ensures tidy { TidyMeans }
{}

/// Tidying ends: each of its steps lowers a sum that the wires and the live nodes bound.
pub fn tidying_ends()
    ensures tidying { TidyingEnds }
    ensures fixes { FixesEnd }
    ensures adds { AddsRaise }
    ensures bounded { WorkIsBounded }
    ensures wires { WiresGrow }
{}

/// Room that covers the work left, and what may still be added, never ends before tidying does.
pub fn room_suffices()
    ensures tidying { RoomForTidying }
    ensures fixes { RoomForFixes }
    ensures adding { RoomForAdding }
    ensures calls { TidyingHasRoom }
{}

/// After any list of calls of a trial, refused ones among them, `rollback` gives the graph as it was when the trial began.
pub fn rollback_restores()
    ensures { RollbackRestores }
{
    same_wiring();
}

/// Rows that are worked out by hand.
pub fn worked_rows()
    ensures cycle { refusal_of four_gates much (add 6 9) true ≡ Some cycle_6_9 }
    ensures already { refusal_of four_gates much (add 6 2) false ≡ Some already_6_2 }
    ensures wrong { refusal_of four_gates much (add 2 3) false ≡ Some wrong_2 }
    ensures no_node { refusal_of four_gates much (add 6 40) false ≡ Some no_node_40 }
    ensures no_pin { refusal_of four_gates much fix_6_5 false ≡ Some no_pin_6_5 }
    ensures not_met { refusal_of four_gates much const_6_0 false ≡ Some not_met_6 }
    ensures full { refusal_of four_gates no_pins add_9_2 false ≡ Some Full }
    ensures made { refusal_of four_gates much add_9_2 false ≡ None }
    ensures tidy { next_step four_gates ≡ None }
    ensures zero_first { next_step zero_row ≡ Some const_2_0 }
    ensures zero_moves { stepped zero_row const_2_0 ≡ zero_row_moved }
    ensures zero_second { next_step zero_row_moved ≡ Some dead_2 }
    ensures zero_goes { stepped zero_row_moved dead_2 ≡ zero_row_tidy }
    ensures zero_tidy { next_step zero_row_tidy ≡ None }
    ensures buffer_first { next_step buffer_row ≡ Some same_3_1 }
    ensures buffer_goes { stepped buffer_row same_3_1 ≡ buffer_once }
    ensures buffer_second { next_step buffer_once ≡ Some one_pin_3 }
    ensures buffer_moves { stepped buffer_once one_pin_3 ≡ buffer_moved }
    ensures buffer_third { next_step buffer_moved ≡ Some dead_3 }
    ensures buffer_tidies { stepped buffer_moved dead_3 ≡ buffer_tidy }
    ensures turn_first { next_step turn_row ≡ Some const_3_1 }
    ensures turn_goes { stepped turn_row const_3_1 ≡ turn_row_tidy }
    ensures turn_tidy { next_step turn_row_tidy ≡ None }
    ensures pass_first { next_step pass_row ≡ Some const_3_0 }
    ensures pass_moves { stepped pass_row const_3_0 ≡ pass_row_moved }
    ensures pass_second { next_step pass_row_moved ≡ Some dead_3 }
    ensures even_first { next_step even_row ≡ Some same_3_1 }
    ensures even_moves { stepped even_row same_3_1 ≡ even_row_moved }
    ensures even_second { next_step even_row_moved ≡ Some dead_3 }
{}
