// What a close begins with: the nodes that the faulty gate doesn't reach are equal.
ghost use Rattle.std.specs.Prelude.{◌≡◌, ◌+◌, ◌<◌, ◌≤◌, ◌↔◌, ℕ, List, IfOk, IsTrue, OnOk, length};
ghost use Rattle.gate_graph.specs.Circuit.{net_of};
ghost use Rattle.gate_graph.specs.Search.{IsSeen};
ghost use Rattle.refutation.specs.FactSets.{held_by};
ghost use Rattle.refutation.specs.Sites.{IsSiteOf};
ghost use Rattle.implications.specs.Outside.{AppendsOutside, AreOutside, BeginsBelow, HoldsOutside, IsPinless, WritesBelow};
ghost use Rattle.refutation.specs.declared.items.Item.{Item};
ghost use Rattle.implications.specs.Inner.Working.{IsPending};

use gate_graph::{Graph, Question};
use refutation::pins::is_gate;
use refutation::place_lines::line_out_marked;
use refutation::site::Site;
use refutation::worklist::Worklist;
use refutation::{FactSet, Item, Line, TreeBuilder};
use rm_base::{NoMemory, NodeId, ONE, ZERO};
use std::alloc::Global;

// Whether the node is a gate without pins.
pub(crate) fn is_pinless(graph: &Graph, node: NodeId) -> bool
    ensures { IsTrue result ↔ IsPinless (net_of graph.now) node.0 }
{
    let Some(kind) = graph.kind(node) else {
        return false;
    };
    if !is_gate(kind) {
        return false;
    }
    graph.driver(node, 0).is_none()
}

// Puts the node on the worklist, where it is a gate without pins.
fn list_pinless(graph: &Graph, worklist: &mut Worklist, node: NodeId)
    requires node { node.0 < length worklist.old }
    ensures listed { IsPinless (net_of graph.now) node.0 → IsSeen worklist.new node.0 }
    ensures kept { (z : ℕ) → IsSeen worklist.old z → IsSeen worklist.new z }
    ensures size { length worklist.new ≡ length worklist.old }
{
    if is_pinless(graph, node) {
        worklist.add(node);
    }
}

// Holds that the node is equal, where the faulty gate doesn't reach it.
fn hold_outside(question: &Question<'_>, site: &Site, facts: &mut FactSet, node: NodeId)
    requires site { IsSiteOf (net_of question.now.graph.now) question.now.fault.gate.0 site.now }
    requires node { node.0 < length facts.old }
    ensures { HoldsOutside (net_of question.now.graph.now) question.now.fault node.0 facts.old facts.new }
{
    let Some((outside, fact)) = line_out_marked(question, node, site) else {
        return;
    };
    facts.insert(outside, fact);
}

// Holds that of all nodes, and puts the gates without pins on the worklist.
fn hold_all_outside(
    alloc: Global,
    question: &Question<'_>,
    site: &Site,
    worklist: &mut Worklist,
) -> Result<FactSet, NoMemory>
    requires site { IsSiteOf (net_of question.now.graph.now) question.now.fault.gate.0 site.now }
    requires worklist { length (net_of question.now.graph.now).nodes ≤ length worklist.old }
    ensures begins { IfOk result (λ facts. BeginsBelow (net_of question.now.graph.now) question.now.fault (length (net_of question.now.graph.now).nodes) facts worklist.new) }
    ensures size { length worklist.new ≡ length worklist.old }
{
    let mut facts = FactSet::new(alloc, question.graph)?;
    for number in 0..question.graph.node_bound() {
        let node = NodeId(number);
        hold_outside(question, site, &mut facts, node);
        list_pinless(question.graph, worklist, node);
    }
    Ok(facts)
}

// The facts with which a close begins, and on the worklist each node that isn't settled by them.
pub(crate) fn begin(
    alloc: Global,
    question: &Question<'_>,
    site: &Site,
    worklist: &mut Worklist,
) -> Result<FactSet, NoMemory>
    requires site { IsSiteOf (net_of question.now.graph.now) question.now.fault.gate.0 site.now }
    requires worklist { length (net_of question.now.graph.now).nodes ≤ length worklist.old }
    ensures outside { IfOk result (λ facts. AreOutside (net_of question.now.graph.now) question.now.fault (held_by facts)) }
    ensures pending { IfOk result (λ facts. IsPending (net_of question.now.graph.now) question.now.fault facts worklist.new) }
    ensures facts { IfOk result (λ facts. length facts ≡ length (net_of question.now.graph.now).nodes) }
    ensures size { length worklist.new ≡ length worklist.old }
{
    question.graph.well_formed();
    let facts = hold_all_outside(alloc, question, site, worklist)?;
    worklist.add(ZERO);
    worklist.add(ONE);
    worklist.add(question.fault.gate);
    Ok(facts)
}

// Appends the line of that node, where the faulty gate doesn't reach it.
fn write_at(
    question: &Question<'_>,
    site: &Site,
    tree: &mut TreeBuilder,
    node: NodeId,
) -> Result<(), NoMemory>
    requires site { IsSiteOf (net_of question.now.graph.now) question.now.fault.gate.0 site.now }
    ensures { OnOk result ((before : List Item) → WritesBelow (net_of question.now.graph.now) question.now.fault node.0 before tree.old → WritesBelow (net_of question.now.graph.now) question.now.fault (node.0 + 1) before tree.new) }
{
    let Some((_outside, _fact)) = line_out_marked(question, node, site) else {
        return Ok(());
    };
    tree.push(Item::Line(Line::Out { node }))
}

// Appends the lines to the facts with which a close begins.
pub(crate) fn write_outside(
    question: &Question<'_>,
    site: &Site,
    tree: &mut TreeBuilder,
) -> Result<(), NoMemory>
    requires site { IsSiteOf (net_of question.now.graph.now) question.now.fault.gate.0 site.now }
    ensures { OnOk result (AppendsOutside (net_of question.now.graph.now) question.now.fault tree.old tree.new) }
{
    for number in 0..question.graph.node_bound() {
        write_at(question, site, tree, NodeId(number))?;
    }
    Ok(())
}
