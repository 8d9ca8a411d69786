// What lines at an And or an Or have to give that isn't held yet, looked for only where the gate's tally leaves some.
ghost use Rattle.std.specs.Prelude.{◌≡◌};
ghost use Rattle.gate_graph.specs.Circuit.{net_of};
ghost use Rattle.gate_net.specs.Net.{drivers_of};
ghost use Rattle.gate_net.specs.Values.{IsJunction};
ghost use Rattle.refutation.specs.Closing.{IsClashFree};
ghost use Rattle.refutation.specs.FactSets.{held_by};
ghost use Rattle.implications.specs.Inner.Pulls.{AreDoneEqual, AreDoneFaulty, AreDoneGood, AreDoneSide, Finds};
ghost use Rattle.implications.specs.Inner.Settled.{IsNext, IsReady};
ghost use Rattle.implications.specs.Inner.Tallies.{IsTally};

use crate::done_lines::{equal_is_done, faulty_is_done, good_is_done, sides_are_done};
use crate::found::Found;
use crate::gate_lines::{equal_line, faulty_line, good_line};
use crate::next_line::value_line;
use crate::side_line::side_line;
use crate::tallies::Tally;
use gate_graph::Question;
use refutation::FactSet;
use rm_base::NodeId;

// The lines on good values.
fn tallied_good_line(
    question: &Question<'_>,
    facts: &FactSet,
    tally: &Tally,
    node: NodeId,
    c: bool,
) -> Option<Found>
    requires ready { IsReady (net_of question.now.graph.now) question.now.fault facts.now }
    requires free { IsClashFree (held_by facts.now) }
    requires kind { IsJunction (net_of question.now.graph.now) node.0 c }
    requires tally { IsTally (held_by facts.now) question.now.fault.position (drivers_of (net_of question.now.graph.now) node.0) tally.now }
    ensures { Finds (net_of question.now.graph.now) question.now.fault facts.now (AreDoneGood (net_of question.now.graph.now) question.now.fault facts.now node) result }
{
    if good_is_done(question, facts, tally, node, c) {
        return None;
    }
    good_line(question, facts, node, c)
}

// The lines on faulty values.
fn tallied_faulty_line(
    question: &Question<'_>,
    facts: &FactSet,
    tally: &Tally,
    node: NodeId,
    c: bool,
) -> Option<Found>
    requires ready { IsReady (net_of question.now.graph.now) question.now.fault facts.now }
    requires free { IsClashFree (held_by facts.now) }
    requires kind { IsJunction (net_of question.now.graph.now) node.0 c }
    requires tally { IsTally (held_by facts.now) question.now.fault.position (drivers_of (net_of question.now.graph.now) node.0) tally.now }
    ensures { Finds (net_of question.now.graph.now) question.now.fault facts.now (AreDoneFaulty (net_of question.now.graph.now) question.now.fault facts.now node) result }
{
    if faulty_is_done(question, facts, tally, node, c) {
        return None;
    }
    faulty_line(question, facts, node, c)
}

// The lines by which the gate is equal, or a driver of it differs.
fn tallied_equal_line(
    question: &Question<'_>,
    facts: &FactSet,
    tally: &Tally,
    node: NodeId,
    c: bool,
) -> Option<Found>
    requires ready { IsReady (net_of question.now.graph.now) question.now.fault facts.now }
    requires free { IsClashFree (held_by facts.now) }
    requires kind { IsJunction (net_of question.now.graph.now) node.0 c }
    requires tally { IsTally (held_by facts.now) question.now.fault.position (drivers_of (net_of question.now.graph.now) node.0) tally.now }
    ensures { Finds (net_of question.now.graph.now) question.now.fault facts.now (AreDoneEqual (net_of question.now.graph.now) question.now.fault facts.now node) result }
{
    if equal_is_done(question, facts, tally, node, c) {
        return None;
    }
    equal_line(question, facts, node)
}

// The line on equal drivers.
fn tallied_side_line(
    question: &Question<'_>,
    facts: &FactSet,
    tally: &Tally,
    node: NodeId,
    c: bool,
) -> Option<Found>
    requires ready { IsReady (net_of question.now.graph.now) question.now.fault facts.now }
    requires free { IsClashFree (held_by facts.now) }
    requires kind { IsJunction (net_of question.now.graph.now) node.0 c }
    requires tally { IsTally (held_by facts.now) question.now.fault.position (drivers_of (net_of question.now.graph.now) node.0) tally.now }
    ensures { Finds (net_of question.now.graph.now) question.now.fault facts.now (AreDoneSide (net_of question.now.graph.now) question.now.fault facts.now node) result }
{
    if sides_are_done(question, facts, tally, node, c) {
        return None;
    }
    side_line(question, facts, node, c)
}

/// What a line at an And or an Or with that controlling value gives that isn't held, or None exactly where the gate is
/// settled. Its pins are looked at only where something follows.
pub(crate) fn tallied_line(
    question: &Question<'_>,
    facts: &FactSet,
    tally: &Tally,
    node: NodeId,
    c: bool,
) -> Option<Found>
    requires ready { IsReady (net_of question.now.graph.now) question.now.fault facts.now }
    requires free { IsClashFree (held_by facts.now) }
    requires kind { IsJunction (net_of question.now.graph.now) node.0 c }
    requires tally { IsTally (held_by facts.now) question.now.fault.position (drivers_of (net_of question.now.graph.now) node.0) tally.now }
    ensures { IsNext (net_of question.now.graph.now) question.now.fault facts.now node.0 result }
{
    if let Some(found) = value_line(question, facts, node) {
        return Some(found);
    }
    if let Some(found) = tallied_good_line(question, facts, tally, node, c) {
        return Some(found);
    }
    if let Some(found) = tallied_faulty_line(question, facts, tally, node, c) {
        return Some(found);
    }
    if let Some(found) = tallied_equal_line(question, facts, tally, node, c) {
        return Some(found);
    }
    tallied_side_line(question, facts, tally, node, c)
}
