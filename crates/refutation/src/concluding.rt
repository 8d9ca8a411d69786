// What a line gives.
ghost use Rattle.std.specs.Prelude.{◌≡◌, ◌<◌, ◌≤◌, IfSome, length};
ghost use Rattle.gate_net.specs.Net.{IsLive};
ghost use Rattle.gate_graph.specs.Circuit.{net_of};
ghost use Rattle.refutation.specs.FactSets.{held_by};
ghost use Rattle.refutation.specs.Answers.{IsAnswer};
ghost use Rattle.refutation.specs.Inner.Answers.{IsNearAnswer};
ghost use Rattle.refutation.specs.Sites.{IsSiteOf, Serves};

use crate::asking::AskedSite;
use crate::equal_lines::{
    line_differs_back, line_differs_back_from, line_equal_forward, line_not_differs,
    line_not_equal, line_side, line_side_from,
};
use crate::following::PinWalk;
use crate::held::FactSet;
use crate::place_lines::{
    line_act, line_chain, line_chain_asked, line_chain_marked, line_constant, line_out,
    line_out_asked, line_out_marked, line_site,
};
use crate::reasoning::{Fact, Line};
use crate::site::Site;
use crate::value_lines::{
    line_compare, line_faulty_back, line_faulty_back_from, line_faulty_forward, line_good_back,
    line_good_back_from, line_good_forward, line_to_faulty, line_to_good,
};
use gate_graph::{Marks, Question};
use rm_base::NodeId;

// What a line gives that looks at no more than one gate.
fn concluded_near(question: &Question<'_>, facts: &FactSet, line: &Line) -> Option<(NodeId, Fact)>
    requires { length (net_of question.now.graph.now).nodes ≤ length facts.now }
    ensures { IsNearAnswer (net_of question.now.graph.now) question.now.fault (held_by facts.now) line.now result }
{
    match *line {
        Line::Act => line_act(question),
        Line::Site => line_site(&question.fault),
        Line::Chain { .. } | Line::Out { .. } => None,
        Line::Constant { node } => line_constant(question, node),
        Line::GoodForward { node } => line_good_forward(question, facts, node),
        Line::FaultyForward { node } => line_faulty_forward(question, facts, node),
        Line::GoodBack { node, position } => line_good_back(question, facts, node, position),
        Line::FaultyBack { node, position } => line_faulty_back(question, facts, node, position),
        Line::Compare { node } => line_compare(question, facts, node),
        Line::ToFaulty { node } => line_to_faulty(question, facts, node),
        Line::ToGood { node } => line_to_good(question, facts, node),
        Line::EqualForward { node } => line_equal_forward(question, facts, node),
        Line::NotDiffers { node } => line_not_differs(question, facts, node),
        Line::NotEqual { node } => line_not_equal(question, facts, node),
        Line::DiffersBack { node, position } => line_differs_back(question, facts, node, position),
        Line::Side { node, position } => line_side(question, facts, node, position),
    }
}

// What a line gives, by a search where it looks at more than one gate.
fn conclude_at(
    question: &Question<'_>,
    facts: &FactSet,
    line: &Line,
    marks: &mut Marks,
) -> Option<(NodeId, Fact)>
    requires gate { IsLive (net_of question.now.graph.now) question.now.fault.gate.0 }
    requires facts { length (net_of question.now.graph.now).nodes ≤ length facts.now }
    requires marks { length (net_of question.now.graph.now).nodes ≤ marks.old }
    ensures answer { IsAnswer (net_of question.now.graph.now) question.now.fault (held_by facts.now) line.now result }
    ensures marks { marks.new ≡ marks.old }
{
    match *line {
        Line::Chain { node } => line_chain(question, node),
        Line::Out { node } => line_out(question, node, marks),
        _ => concluded_near(question, facts, line),
    }
}

// What a line gives, by the marks of the faulty gate where it looks at more than one gate.
fn concluded_marked(
    question: &Question<'_>,
    facts: &FactSet,
    line: &Line,
    site: &Site,
) -> Option<(NodeId, Fact)>
    requires facts { length (net_of question.now.graph.now).nodes ≤ length facts.now }
    requires site { IsSiteOf (net_of question.now.graph.now) question.now.fault.gate.0 site.now }
    ensures { IsAnswer (net_of question.now.graph.now) question.now.fault (held_by facts.now) line.now result }
{
    match *line {
        Line::Chain { node } => line_chain_marked(question, node, site),
        Line::Out { node } => line_out_marked(question, node, site),
        _ => concluded_near(question, facts, line),
    }
}

// The same, and by a walk to the pin that the line names.
fn concluded_along(
    question: &Question<'_>,
    facts: &FactSet,
    line: &Line,
    site: &Site,
    walk: &mut PinWalk<'_>,
) -> Option<(NodeId, Fact)>
    requires facts { length (net_of question.now.graph.now).nodes ≤ length facts.now }
    requires site { IsSiteOf (net_of question.now.graph.now) question.now.fault.gate.0 site.now }
    requires walk { walk.old ≡ net_of question.now.graph.now }
    ensures answer { IsAnswer (net_of question.now.graph.now) question.now.fault (held_by facts.now) line.now result }
    ensures walk { walk.new ≡ walk.old }
{
    match *line {
        Line::GoodBack { node, position } => {
            let driver = walk.driver(node, position);
            line_good_back_from(question, facts, node, position, driver)
        }
        Line::FaultyBack { node, position } => {
            let driver = walk.driver(node, position);
            line_faulty_back_from(question, facts, node, position, driver)
        }
        Line::DiffersBack { node, position } => {
            let driver = walk.driver(node, position);
            line_differs_back_from(question, facts, node, position, driver)
        }
        Line::Side { node, position } => {
            let driver = walk.driver(node, position);
            line_side_from(question, facts, node, position, driver)
        }
        _ => concluded_marked(question, facts, line, site),
    }
}

// What a line gives, by marks of the faulty gate that are made when they are first asked for.
fn concluded_asked(
    question: &Question<'_>,
    facts: &FactSet,
    line: &Line,
    site: &mut AskedSite,
) -> Option<(NodeId, Fact)>
    requires gate { IsLive (net_of question.now.graph.now) question.now.fault.gate.0 }
    requires facts { length (net_of question.now.graph.now).nodes ≤ length facts.now }
    requires serves { Serves (net_of question.now.graph.now) question.now.fault.gate.0 site.old }
    ensures answer { IsAnswer (net_of question.now.graph.now) question.now.fault (held_by facts.now) line.now result }
    ensures serves { Serves (net_of question.now.graph.now) question.now.fault.gate.0 site.new }
    ensures size { length site.new.marks.reached ≡ length site.old.marks.reached }
{
    match *line {
        Line::Chain { node } => line_chain_asked(question, node, site),
        Line::Out { node } => line_out_asked(question, node, site),
        _ => concluded_near(question, facts, line),
    }
}

/// The node and the fact that a line gives with these facts held, or None exactly where its condition isn't met. Only
/// `Chain` and `Out` look at more than one gate.
pub fn conclude(
    question: &Question<'_>,
    facts: &FactSet,
    line: &Line,
    marks: &mut Marks,
) -> Option<(NodeId, Fact)>
    requires facts { length (net_of question.now.graph.now).nodes ≤ length facts.now }
    requires marks { length (net_of question.now.graph.now).nodes ≤ marks.old }
    ensures answer { IsAnswer (net_of question.now.graph.now) question.now.fault (held_by facts.now) line.now result }
    ensures node { IfSome result (λ r. r.0.0 < length (net_of question.now.graph.now).nodes) }
    ensures marks { marks.new ≡ marks.old }
{
    question.graph.well_formed();
    conclude_at(question, facts, line, marks)
}

/// The same as `conclude`, by the marks of the faulty gate: each line takes the time of one gate's pins.
pub fn conclude_marked(
    question: &Question<'_>,
    facts: &FactSet,
    line: &Line,
    site: &Site,
) -> Option<(NodeId, Fact)>
    requires facts { length (net_of question.now.graph.now).nodes ≤ length facts.now }
    requires site { IsSiteOf (net_of question.now.graph.now) question.now.fault.gate.0 site.now }
    ensures answer { IsAnswer (net_of question.now.graph.now) question.now.fault (held_by facts.now) line.now result }
    ensures node { IfSome result (λ r. r.0.0 < length (net_of question.now.graph.now).nodes) }
{
    question.graph.well_formed();
    concluded_marked(question, facts, line, site)
}

/// The same as `conclude_marked`, by a walk to the pins that lines name: `Side` lines on the pins of a gate take the time
/// of one walk along them together, where they come in the order of the pins.
pub fn conclude_along(
    question: &Question<'_>,
    facts: &FactSet,
    line: &Line,
    site: &Site,
    walk: &mut PinWalk<'_>,
) -> Option<(NodeId, Fact)>
    requires facts { length (net_of question.now.graph.now).nodes ≤ length facts.now }
    requires site { IsSiteOf (net_of question.now.graph.now) question.now.fault.gate.0 site.now }
    requires walk { walk.old ≡ net_of question.now.graph.now }
    ensures answer { IsAnswer (net_of question.now.graph.now) question.now.fault (held_by facts.now) line.now result }
    ensures node { IfSome result (λ r. r.0.0 < length (net_of question.now.graph.now).nodes) }
    ensures walk { walk.new ≡ walk.old }
{
    question.graph.well_formed();
    concluded_along(question, facts, line, site, walk)
}

/// The same as `conclude`, by marks of the faulty gate that are made when a line first asks for them: each other line
/// takes the time of one gate's pins.
pub fn conclude_asked(
    question: &Question<'_>,
    facts: &FactSet,
    line: &Line,
    site: &mut AskedSite,
) -> Option<(NodeId, Fact)>
    requires facts { length (net_of question.now.graph.now).nodes ≤ length facts.now }
    requires serves { Serves (net_of question.now.graph.now) question.now.fault.gate.0 site.old }
    ensures answer { IsAnswer (net_of question.now.graph.now) question.now.fault (held_by facts.now) line.now result }
    ensures node { IfSome result (λ r. r.0.0 < length (net_of question.now.graph.now).nodes) }
    ensures serves { Serves (net_of question.now.graph.now) question.now.fault.gate.0 site.new }
    ensures size { length site.new.marks.reached ≡ length site.old.marks.reached }
{
    question.graph.well_formed();
    concluded_asked(question, facts, line, site)
}
