// Whether the lines of one kind at an And or an Or have nothing more to give, by the gate's tally.
ghost use Rattle.std.specs.Prelude.{◌≡◌, true};
ghost use Rattle.gate_graph.specs.Circuit.{net_of};
ghost use Rattle.gate_net.specs.Net.{drivers_of};
ghost use Rattle.gate_net.specs.Values.{IsJunction};
ghost use Rattle.refutation.specs.Closing.{IsClashFree};
ghost use Rattle.refutation.specs.FactSets.{held_by};
ghost use Rattle.refutation.specs.Pins.{pins_of, stuck_of};
ghost use Rattle.refutation.specs.declared.pins.Aspect.TheVariants.{OfFaulty};
ghost use Rattle.implications.specs.Inner.Counts.{IsCount};
ghost use Rattle.implications.specs.Inner.Pulls.{AreDoneEqual, AreDoneFaulty, AreDoneGood, AreDoneSide};
ghost use Rattle.implications.specs.Inner.Settled.{IsReady};
ghost use Rattle.implications.specs.Inner.Tallies.{IsTally};

use crate::counts::{
    Count, count_for, count_not_passing, equal_pulls_nothing, pulls_nothing, with_stuck_pin,
};
use crate::side_line::is_open_side;
use crate::tallies::Tally;
use gate_graph::Question;
use refutation::FactSet;
use refutation::pins::{Aspect, is_value, known_of};
use rm_base::NodeId;

// The count of the pins' faulty values for the controlling value.
pub(crate) fn faulty_count(
    question: &Question<'_>,
    facts: &FactSet,
    tally: &Tally,
    node: NodeId,
    c: bool,
) -> Count
    requires ready { IsReady (net_of question.now.graph.now) question.now.fault facts.now }
    requires free { IsClashFree (held_by facts.now) }
    requires tally { IsTally (held_by facts.now) question.now.fault.position (drivers_of (net_of question.now.graph.now) node.0) tally.now }
    ensures { IsCount result c (pins_of (stuck_of question.now.fault node.0) OfFaulty (held_by facts.now) (drivers_of (net_of question.now.graph.now) node.0)) }
{
    let count = count_for(c, tally.faulty_0, tally.faulty_1, tally.pins);
    if node.0 != question.fault.gate.0 {
        return count;
    }
    let driven = known_of(facts, Aspect::OfFaulty, tally.at);
    with_stuck_pin(count, c, driven, question.fault.value)
}

// Whether the lines on good values have nothing more to give.
pub(crate) fn good_is_done(
    question: &Question<'_>,
    facts: &FactSet,
    tally: &Tally,
    node: NodeId,
    c: bool,
) -> bool
    requires ready { IsReady (net_of question.now.graph.now) question.now.fault facts.now }
    requires free { IsClashFree (held_by facts.now) }
    requires kind { IsJunction (net_of question.now.graph.now) node.0 c }
    requires tally { IsTally (held_by facts.now) question.now.fault.position (drivers_of (net_of question.now.graph.now) node.0) tally.now }
    ensures { result ≡ true → AreDoneGood (net_of question.now.graph.now) question.now.fault facts.now node }
{
    let count = count_for(c, tally.good_0, tally.good_1, tally.pins);
    pulls_nothing(count, c, known_of(facts, Aspect::OfGood, node))
}

// Whether the lines on faulty values have nothing more to give.
pub(crate) fn faulty_is_done(
    question: &Question<'_>,
    facts: &FactSet,
    tally: &Tally,
    node: NodeId,
    c: bool,
) -> bool
    requires ready { IsReady (net_of question.now.graph.now) question.now.fault facts.now }
    requires free { IsClashFree (held_by facts.now) }
    requires kind { IsJunction (net_of question.now.graph.now) node.0 c }
    requires tally { IsTally (held_by facts.now) question.now.fault.position (drivers_of (net_of question.now.graph.now) node.0) tally.now }
    ensures { result ≡ true → AreDoneFaulty (net_of question.now.graph.now) question.now.fault facts.now node }
{
    let count = faulty_count(question, facts, tally, node, c);
    pulls_nothing(count, c, known_of(facts, Aspect::OfFaulty, node))
}

// Whether the lines by which the gate is equal, or a driver of it differs, have nothing more to give.
pub(crate) fn equal_is_done(
    question: &Question<'_>,
    facts: &FactSet,
    tally: &Tally,
    node: NodeId,
    c: bool,
) -> bool
    requires ready { IsReady (net_of question.now.graph.now) question.now.fault facts.now }
    requires free { IsClashFree (held_by facts.now) }
    requires kind { IsJunction (net_of question.now.graph.now) node.0 c }
    requires tally { IsTally (held_by facts.now) question.now.fault.position (drivers_of (net_of question.now.graph.now) node.0) tally.now }
    ensures { result ≡ true → AreDoneEqual (net_of question.now.graph.now) question.now.fault facts.now node }
{
    if node.0 == question.fault.gate.0 {
        return true;
    }
    let count = count_for(false, tally.differs, tally.equal, tally.pins);
    equal_pulls_nothing(count, known_of(facts, Aspect::OfEqual, node))
}

// Whether the line on equal drivers has nothing more to give: each passes, but for the stuck pin's.
pub(crate) fn sides_are_done(
    question: &Question<'_>,
    facts: &FactSet,
    tally: &Tally,
    node: NodeId,
    c: bool,
) -> bool
    requires ready { IsReady (net_of question.now.graph.now) question.now.fault facts.now }
    requires free { IsClashFree (held_by facts.now) }
    requires kind { IsJunction (net_of question.now.graph.now) node.0 c }
    requires tally { IsTally (held_by facts.now) question.now.fault.position (drivers_of (net_of question.now.graph.now) node.0) tally.now }
    ensures { result ≡ true → AreDoneSide (net_of question.now.graph.now) question.now.fault facts.now node }
{
    if !is_value(known_of(facts, Aspect::OfEqual, node), false) {
        return true;
    }
    let open = count_not_passing(tally, c);
    if open == 0 {
        return true;
    }
    if open > 1 {
        return false;
    }
    if node.0 != question.fault.gate.0 {
        return false;
    }
    is_open_side(facts, tally.at, !c)
}
