//! Lines that ask for no fact.
ghost use Rattle.std.specs.Prelude.{◌≡◌, ◌≤◌, length};
ghost use Rattle.gate_net.specs.Net.{Net, IsLive};
ghost use Rattle.gate_graph.specs.Circuit.{net_of};
ghost use Rattle.refutation.specs.Facts.{Held};
ghost use Rattle.refutation.specs.Answers.{IsAnswer};
ghost use Rattle.refutation.specs.Sites.{IsSiteOf, Serves};

use crate::asking::AskedSite;
use crate::chains::is_in_chain;
use crate::reasoning::{Fact, Line};
use crate::site::Site;
use gate_graph::{Marks, Question};
use rm_base::{Fault, NodeId};

/// The driver of the stuck pin has the opposite value.
pub fn line_act(question: &Question<'_>) -> Option<(NodeId, Fact)>
    ensures { (held : Held) → IsAnswer (net_of question.now.graph.now) question.now.fault held Line.Act result }
{
    let driver = question
        .graph
        .driver(question.fault.gate, question.fault.position)?;
    Some((driver, Fact::Good(!question.fault.value)))
}

/// The faulty gate differs.
pub fn line_site(fault: &Fault) -> Option<(NodeId, Fact)>
    ensures { (net : Net) (held : Held) → IsAnswer net fault.now held Line.Site result }
{
    Some((fault.gate, Fact::Differs))
}

/// A constant has its value.
pub fn line_constant(question: &Question<'_>, node: NodeId) -> Option<(NodeId, Fact)>
    ensures { (held : Held) → IsAnswer (net_of question.now.graph.now) question.now.fault held (Line.Constant node) result }
{
    let kind = question.graph.kind(node)?;
    let value = kind.constant_value()?;
    Some((node, Fact::Good(value)))
}

/// A node that the faulty gate doesn't reach is equal. It searches back from the node.
pub fn line_out(question: &Question<'_>, node: NodeId, marks: &mut Marks) -> Option<(NodeId, Fact)>
    requires gate { IsLive (net_of question.now.graph.now) question.now.fault.gate.0 }
    requires marks { length (net_of question.now.graph.now).nodes ≤ marks.old }
    ensures answer { (held : Held) → IsAnswer (net_of question.now.graph.now) question.now.fault held (Line.Out node) result }
    ensures marks { marks.new ≡ marks.old }
{
    let _kind = question.graph.kind(node)?;
    if node.0 == question.fault.gate.0 {
        return None;
    }
    if question.graph.reaches(question.fault.gate, node, marks) {
        return None;
    }
    Some((node, Fact::Equal))
}

/// A node of the chain differs. It walks along the chain.
pub fn line_chain(question: &Question<'_>, node: NodeId) -> Option<(NodeId, Fact)>
    requires gate { IsLive (net_of question.now.graph.now) question.now.fault.gate.0 }
    ensures { (held : Held) → IsAnswer (net_of question.now.graph.now) question.now.fault held (Line.Chain node) result }
{
    if is_in_chain(question.graph, question.fault.gate, node) {
        Some((node, Fact::Differs))
    } else {
        None
    }
}

/// The same as `line_out`, by the marks of the faulty gate.
pub fn line_out_marked(question: &Question<'_>, node: NodeId, site: &Site) -> Option<(NodeId, Fact)>
    requires { IsSiteOf (net_of question.now.graph.now) question.now.fault.gate.0 site.now }
    ensures { (held : Held) → IsAnswer (net_of question.now.graph.now) question.now.fault held (Line.Out node) result }
{
    let _kind = question.graph.kind(node)?;
    if node.0 == question.fault.gate.0 {
        return None;
    }
    if site.is_reached(node) {
        return None;
    }
    Some((node, Fact::Equal))
}

/// The same as `line_chain`, by the marks of the faulty gate.
pub fn line_chain_marked(
    question: &Question<'_>,
    node: NodeId,
    site: &Site,
) -> Option<(NodeId, Fact)>
    requires { IsSiteOf (net_of question.now.graph.now) question.now.fault.gate.0 site.now }
    ensures { (held : Held) → IsAnswer (net_of question.now.graph.now) question.now.fault held (Line.Chain node) result }
{
    if site.is_chained(node) {
        Some((node, Fact::Differs))
    } else {
        None
    }
}

/// The same as `line_out`, by the marks of the faulty gate, which are made when they are first asked for.
pub fn line_out_asked(
    question: &Question<'_>,
    node: NodeId,
    site: &mut AskedSite,
) -> Option<(NodeId, Fact)>
    requires gate { IsLive (net_of question.now.graph.now) question.now.fault.gate.0 }
    requires serves { Serves (net_of question.now.graph.now) question.now.fault.gate.0 site.old }
    ensures answer { (held : Held) → IsAnswer (net_of question.now.graph.now) question.now.fault held (Line.Out node) result }
    ensures serves { Serves (net_of question.now.graph.now) question.now.fault.gate.0 site.new }
    ensures size { length site.new.marks.reached ≡ length site.old.marks.reached }
{
    let _kind = question.graph.kind(node)?;
    if node.0 == question.fault.gate.0 {
        return None;
    }
    if site.is_reached(question.graph, question.fault.gate, node) {
        return None;
    }
    Some((node, Fact::Equal))
}

/// The same as `line_chain`, by the marks of the faulty gate, which are made when they are first asked for.
pub fn line_chain_asked(
    question: &Question<'_>,
    node: NodeId,
    site: &mut AskedSite,
) -> Option<(NodeId, Fact)>
    requires gate { IsLive (net_of question.now.graph.now) question.now.fault.gate.0 }
    requires serves { Serves (net_of question.now.graph.now) question.now.fault.gate.0 site.old }
    ensures answer { (held : Held) → IsAnswer (net_of question.now.graph.now) question.now.fault held (Line.Chain node) result }
    ensures serves { Serves (net_of question.now.graph.now) question.now.fault.gate.0 site.new }
    ensures size { length site.new.marks.reached ≡ length site.old.marks.reached }
{
    if site.is_chained(question.graph, question.fault.gate, node) {
        Some((node, Fact::Differs))
    } else {
        None
    }
}
