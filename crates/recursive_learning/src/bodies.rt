// Trees that lead on from what the faulty gate doesn't reach, and the lines that lead there.
ghost use Rattle.std.specs.Prelude.{◌≡◌, ◌≤◌, ◌++◌, List, IfOk, OnOk, length};
ghost use Rattle.gate_graph.specs.Circuit.{net_of};
ghost use Rattle.implications.specs.Bases.{IsClashFound};
ghost use Rattle.implications.specs.Outside.{LeadFromOutside};
ghost use Rattle.refutation.specs.Branches.{AreAccepted};
ghost use Rattle.refutation.specs.FactSets.{held_by};
ghost use Rattle.refutation.specs.Learning.{LeadsToClash};
ghost use Rattle.refutation.specs.declared.held.NodeFacts.{NodeFacts};
ghost use Rattle.recursive_learning.specs.Inner.Bodies.{IsBody};
ghost use Rattle.recursive_learning.specs.Inner.Holding.{HasGoods};
ghost use Rattle.recursive_learning.specs.Watching.{HasRoom, LeavesList};
ghost use Rattle.recursive_learning.specs.Inner.Watching.{IsBlank};
ghost use Rattle.recursive_learning.specs.Inner.Working.{AreSettled, Keeps};

use crate::telling::push_lines;
use crate::watch::Watch;
use crate::writing::write;
use gate_graph::Question;
use implications::Engine;
use refutation::{FactSet, Item, Tree, TreeBuilder};
use rm_base::{NoMemory, NodeId};
use std::alloc::Global;

/// The items of closed facts to which the engine's lines led from what the faulty gate doesn't reach, and which lead to a
/// clash at the depth.
pub(crate) fn learned_body(
    engine: &mut Engine,
    question: &Question<'_>,
    watch: &mut Watch,
    depth: u8,
    facts: &mut FactSet,
) -> Result<Tree, NoMemory>
    requires numbers { length (net_of question.now.graph.now).nodes ≤ engine.old.numbers }
    requires size { length (net_of question.now.graph.now).nodes ≤ length facts.old }
    requires room { HasRoom (net_of question.now.graph.now) watch.old }
    requires goods { HasGoods watch.old engine.old facts.old }
    requires blank { IsBlank watch.old }
    requires settled { AreSettled (net_of question.now.graph.now) question.now.fault (held_by facts.old) }
    requires lines { LeadFromOutside (net_of question.now.graph.now) question.now.fault engine.old.lines (held_by facts.old) }
    requires clash { LeadsToClash (net_of question.now.graph.now) question.now.fault depth (held_by facts.old) }
    ensures body { IfOk result (IsBody (net_of question.now.graph.now) question.now.fault) }
    ensures keeps { OnOk result (Keeps engine.old engine.new facts.old facts.new) }
    ensures leaves { OnOk result (LeavesList watch.old watch.new) }
{
    let mut tree = TreeBuilder::new(watch.alloc());
    push_lines(&mut tree, engine.lines())?;
    write(engine, question, facts, watch, depth, &mut tree)?;
    Ok(tree.finish())
}

/// The items of lines that led to a clash at the node from what the faulty gate doesn't reach.
pub(crate) fn clash_body(
    alloc: Global,
    engine: &Engine,
    question: &Question<'_>,
    node: NodeId,
) -> Result<Tree, NoMemory>
    requires clash { (facts : List NodeFacts) × IsClashFound (net_of question.now.graph.now) question.now.fault engine.now.lines facts node.0 }
    ensures { IfOk result (IsBody (net_of question.now.graph.now) question.now.fault) }
{
    let mut tree = TreeBuilder::new(alloc);
    push_lines(&mut tree, engine.lines())?;
    tree.push(Item::Clash(node))?;
    Ok(tree.finish())
}

// Appends the items.
fn push_items(tree: &mut TreeBuilder, items: &[Item]) -> Result<(), NoMemory>
    ensures { OnOk result (tree.new ≡ tree.old ++ items.now) }
{
    for item in items {
        tree.push(*item)?;
    }
    Ok(())
}

/// The tree of these items with all lines before them that lead to what the faulty gate doesn't reach.
pub(crate) fn whole_tree(
    alloc: Global,
    engine: &mut Engine,
    question: &Question<'_>,
    body: &Tree,
) -> Result<Tree, NoMemory>
    requires numbers { length (net_of question.now.graph.now).nodes ≤ engine.old.numbers }
    requires body { IsBody (net_of question.now.graph.now) question.now.fault body.now }
    ensures accepted { IfOk result (λ t. AreAccepted (net_of question.now.graph.now) question.now.fault t) }
    ensures numbers { engine.new.numbers ≡ engine.old.numbers }
    ensures trail { engine.new.trail ≡ engine.old.trail }
{
    let mut tree = TreeBuilder::new(alloc);
    engine.push_outside(question, &mut tree)?;
    push_items(&mut tree, body.items())?;
    Ok(tree.finish())
}
