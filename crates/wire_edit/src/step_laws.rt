//! Laws of steps that callers of a trial stand on.
ghost use Rattle.wire_edit.specs.Tidying.{TidyingReaches, TidiesToOne, TidyingKeeps};
ghost use Rattle.wire_edit.specs.Removals.{TidyingRemoves, RemovalsFreeNone, FixesTakeOne, TidyReadsNone, AllAreFree, FreeFixesApply, FixesLowerWires};
ghost use Rattle.wire_edit.specs.Rooms.{RoomsAgree, AnswersAgree, ApplicableIsMade, RoomIsThere};
ghost use Rattle.wire_edit.specs.Sizes.{NumbersGrow, LiveAreCounted, AddedIsLast, OthersStay};
ghost use Rattle.std.specs.Prelude.{◌≡◌};
ghost use Rattle.gate_graph.specs.Circuit.{net_of, live_nodes};
ghost use Rattle.wire_edit.specs.Refusals.{live_count};

use gate_graph::Graph;

/// The tidying order leads from each net to one tidy net, and to no other.
pub fn tidying_leads()
    ensures reaches { TidyingReaches }
    ensures one { TidiesToOne }
    ensures keeps { TidyingKeeps }
{}

/// No step but an addition or a new Not makes more pins that no constant drives, a fix of such a pin makes one less,
/// and a tidy net has no others: so a fix and tidying leave fewer wires.
pub fn fixes_lower()
    ensures tidying { TidyingRemoves }
    ensures removals { RemovalsFreeNone }
    ensures fixes { FixesTakeOne }
    ensures tidy { TidyReadsNone }
    ensures all { AllAreFree }
    ensures applies { FreeFixesApply }
    ensures wires { FixesLowerWires }
{}

/// There is one answer to a step, the same for all rooms that aren't spent, and none refuses a step that applies and
/// has room.
pub fn answers_agree()
    ensures rooms { RoomsAgree }
    ensures one { AnswersAgree }
    ensures made { ApplicableIsMade }
    ensures room { RoomIsThere }
{}

/// A step makes at most one number more, and a new pin stands last.
pub fn steps_grow()
    ensures numbers { NumbersGrow }
    ensures live { LiveAreCounted }
    ensures last { AddedIsLast }
    ensures others { OthersStay }
{}

/// Tells that the graph and its net count the same live nodes.
pub fn live_counted(graph: &Graph)
    ensures { live_nodes graph.now ≡ live_count (net_of graph.now) }
{
    graph.well_formed();
}
