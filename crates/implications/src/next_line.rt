// What a line at a node has to give that isn't held yet.
ghost use Rattle.std.specs.Prelude.{◌≡◌, ◌≤◌, length};
ghost use Rattle.gate_graph.specs.Circuit.{net_of};
ghost use Rattle.gate_net.specs.Net.{IsGateKind, IsKind};
ghost use Rattle.gate_net.specs.Values.{IsJunction};
ghost use Rattle.gate_net.specs.declared.Kind.{Kind};
ghost use Rattle.refutation.specs.Answers.{IsAnswer};
ghost use Rattle.refutation.specs.Closing.{IsClashFree};
ghost use Rattle.refutation.specs.FactSets.{held_by};
ghost use Rattle.refutation.specs.Lines.{IsParity};
ghost use Rattle.refutation.specs.declared.reasoning.Line.TheVariants.{FaultyBack, GoodBack};
ghost use Rattle.implications.specs.Inner.Pulls.{AreDoneFaulty, AreDoneGood, AreDoneParity, AreDoneValues, Finds};
ghost use Rattle.implications.specs.Inner.Settled.{IsNext, IsReady, IsTried};
ghost use Rattle.implications.specs.Inner.Tallies.{AreTallied};

use crate::found::Found;
use crate::gate_lines::equal_line;
use crate::tallied_lines::tallied_line;
use crate::tallies::Tallies;
use gate_graph::Question;
use gate_net::Family;
use refutation::equal_lines::{line_not_differs, line_not_equal};
use refutation::place_lines::line_constant;
use refutation::value_lines::{
    line_compare, line_faulty_back, line_faulty_forward, line_good_back, line_good_forward,
    line_to_faulty, line_to_good,
};
use refutation::{Fact, FactSet, Line};
use rm_base::NodeId;

// What a line gives, where it isn't held yet.
fn try_line(
    question: &Question<'_>,
    facts: &FactSet,
    line: Line,
    given: Option<(NodeId, Fact)>,
) -> Option<Found>
    requires ready { IsReady (net_of question.now.graph.now) question.now.fault facts.now }
    requires given { IsAnswer (net_of question.now.graph.now) question.now.fault (held_by facts.now) line given }
    ensures { IsTried (net_of question.now.graph.now) question.now.fault facts.now line result }
{
    let (node, fact) = given?;
    if facts.holds(node, fact) {
        return None;
    }
    Some(Found { line, node, fact })
}

// The lines on one node's own values.
pub(crate) fn value_line(question: &Question<'_>, facts: &FactSet, node: NodeId) -> Option<Found>
    requires ready { IsReady (net_of question.now.graph.now) question.now.fault facts.now }
    ensures { Finds (net_of question.now.graph.now) question.now.fault facts.now (AreDoneValues (net_of question.now.graph.now) question.now.fault facts.now node) result }
{
    let given = line_compare(question, facts, node);
    if let Some(found) = try_line(question, facts, Line::Compare { node }, given) {
        return Some(found);
    }
    let given = line_to_faulty(question, facts, node);
    if let Some(found) = try_line(question, facts, Line::ToFaulty { node }, given) {
        return Some(found);
    }
    let given = line_to_good(question, facts, node);
    try_line(question, facts, Line::ToGood { node }, given)
}

// The lines at an And or an Or with that controlling value.
fn junction_line(
    question: &Question<'_>,
    facts: &FactSet,
    tallies: &mut Tallies,
    node: NodeId,
    c: bool,
) -> Option<Found>
    requires ready { IsReady (net_of question.now.graph.now) question.now.fault facts.now }
    requires free { IsClashFree (held_by facts.now) }
    requires room { length (net_of question.now.graph.now).nodes ≤ length tallies.old.counted }
    requires tallied { AreTallied (net_of question.now.graph.now) (held_by facts.now) question.now.fault.position tallies.old }
    requires kind { IsJunction (net_of question.now.graph.now) node.0 c }
    ensures next { IsNext (net_of question.now.graph.now) question.now.fault facts.now node.0 result }
    ensures tallied { AreTallied (net_of question.now.graph.now) (held_by facts.now) question.now.fault.position tallies.new }
    ensures room { length tallies.new.counted ≡ length tallies.old.counted }
{
    let tally = tallies.of(question, facts, node);
    tallied_line(question, facts, &tally, node, c)
}

// The good value of one pin's driver.
fn good_back_line(
    question: &Question<'_>,
    facts: &FactSet,
    node: NodeId,
    position: u32,
) -> Option<Found>
    requires ready { IsReady (net_of question.now.graph.now) question.now.fault facts.now }
    ensures { IsTried (net_of question.now.graph.now) question.now.fault facts.now (GoodBack node position) result }
{
    let given = line_good_back(question, facts, node, position);
    try_line(question, facts, Line::GoodBack { node, position }, given)
}

// The faulty value of one pin's driver.
fn faulty_back_line(
    question: &Question<'_>,
    facts: &FactSet,
    node: NodeId,
    position: u32,
) -> Option<Found>
    requires ready { IsReady (net_of question.now.graph.now) question.now.fault facts.now }
    ensures { IsTried (net_of question.now.graph.now) question.now.fault facts.now (FaultyBack node position) result }
{
    let given = line_faulty_back(question, facts, node, position);
    try_line(question, facts, Line::FaultyBack { node, position }, given)
}

// The lines on the good value at a Not, which inverts the parity of its pins, or an Xor.
fn parity_good_line(
    question: &Question<'_>,
    facts: &FactSet,
    node: NodeId,
    inverts: bool,
) -> Option<Found>
    requires ready { IsReady (net_of question.now.graph.now) question.now.fault facts.now }
    requires kind { IsParity (net_of question.now.graph.now) node.0 inverts }
    ensures { Finds (net_of question.now.graph.now) question.now.fault facts.now (AreDoneGood (net_of question.now.graph.now) question.now.fault facts.now node) result }
{
    let given = line_good_forward(question, facts, node);
    if let Some(found) = try_line(question, facts, Line::GoodForward { node }, given) {
        return Some(found);
    }
    if let Some(found) = good_back_line(question, facts, node, 0) {
        return Some(found);
    }
    if inverts {
        return None;
    }
    good_back_line(question, facts, node, 1)
}

// The lines on the faulty value at a Not, which inverts the parity of its pins, or an Xor.
fn parity_faulty_line(
    question: &Question<'_>,
    facts: &FactSet,
    node: NodeId,
    inverts: bool,
) -> Option<Found>
    requires ready { IsReady (net_of question.now.graph.now) question.now.fault facts.now }
    requires kind { IsParity (net_of question.now.graph.now) node.0 inverts }
    ensures { Finds (net_of question.now.graph.now) question.now.fault facts.now (AreDoneFaulty (net_of question.now.graph.now) question.now.fault facts.now node) result }
{
    let given = line_faulty_forward(question, facts, node);
    if let Some(found) = try_line(question, facts, Line::FaultyForward { node }, given) {
        return Some(found);
    }
    if let Some(found) = faulty_back_line(question, facts, node, 0) {
        return Some(found);
    }
    if inverts {
        return None;
    }
    faulty_back_line(question, facts, node, 1)
}

// The lines by which a Not or an Xor differs where a driver does, or a driver of a Not is equal where that is.
fn parity_equal_line(question: &Question<'_>, facts: &FactSet, node: NodeId) -> Option<Found>
    requires ready { IsReady (net_of question.now.graph.now) question.now.fault facts.now }
    ensures { Finds (net_of question.now.graph.now) question.now.fault facts.now (AreDoneParity (net_of question.now.graph.now) question.now.fault facts.now node) result }
{
    let given = line_not_differs(question, facts, node);
    if let Some(found) = try_line(question, facts, Line::NotDiffers { node }, given) {
        return Some(found);
    }
    let given = line_not_equal(question, facts, node);
    try_line(question, facts, Line::NotEqual { node }, given)
}

// The lines at a Not, which inverts the parity of its pins, or an Xor.
fn parity_line(
    question: &Question<'_>,
    facts: &FactSet,
    node: NodeId,
    inverts: bool,
) -> Option<Found>
    requires ready { IsReady (net_of question.now.graph.now) question.now.fault facts.now }
    requires free { IsClashFree (held_by facts.now) }
    requires kind { IsParity (net_of question.now.graph.now) node.0 inverts }
    ensures { IsNext (net_of question.now.graph.now) question.now.fault facts.now node.0 result }
{
    if let Some(found) = value_line(question, facts, node) {
        return Some(found);
    }
    if let Some(found) = parity_good_line(question, facts, node, inverts) {
        return Some(found);
    }
    if let Some(found) = parity_faulty_line(question, facts, node, inverts) {
        return Some(found);
    }
    if let Some(found) = equal_line(question, facts, node) {
        return Some(found);
    }
    parity_equal_line(question, facts, node)
}

// The lines at a constant or a source.
fn plain_line(question: &Question<'_>, facts: &FactSet, node: NodeId) -> Option<Found>
    requires ready { IsReady (net_of question.now.graph.now) question.now.fault facts.now }
    requires kind { (kind : Kind) × (IsKind (net_of question.now.graph.now) node.0 kind × (IsGateKind kind → ⊥)) }
    ensures { IsNext (net_of question.now.graph.now) question.now.fault facts.now node.0 result }
{
    if let Some(found) = value_line(question, facts, node) {
        return Some(found);
    }
    let given = line_constant(question, node);
    try_line(question, facts, Line::Constant { node }, given)
}

// What a line at the node gives that isn't held, or None exactly where the node is settled.
pub(crate) fn next_line(
    question: &Question<'_>,
    facts: &FactSet,
    tallies: &mut Tallies,
    node: NodeId,
) -> Option<Found>
    requires ready { IsReady (net_of question.now.graph.now) question.now.fault facts.now }
    requires free { IsClashFree (held_by facts.now) }
    requires room { length (net_of question.now.graph.now).nodes ≤ length tallies.old.counted }
    requires tallied { AreTallied (net_of question.now.graph.now) (held_by facts.now) question.now.fault.position tallies.old }
    ensures next { IsNext (net_of question.now.graph.now) question.now.fault facts.now node.0 result }
    ensures tallied { AreTallied (net_of question.now.graph.now) (held_by facts.now) question.now.fault.position tallies.new }
    ensures room { length tallies.new.counted ≡ length tallies.old.counted }
{
    match question.graph.kind(node)?.family() {
        Family::Junction { controlling } => {
            junction_line(question, facts, tallies, node, controlling)
        }
        Family::Parity { inverts } => parity_line(question, facts, node, inverts),
        Family::Input | Family::Constant { .. } => plain_line(question, facts, node),
    }
}
