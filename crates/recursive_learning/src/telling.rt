// Writing the lines of a branch.
ghost use Rattle.std.specs.Prelude.{◌≡◌, ◌<◌, ◌≤◌, ◌++◌, IfOk, IsTrue, None, OnOk, false, length, map};
ghost use Rattle.gate_net.specs.Net.{IsLive};
ghost use Rattle.gate_graph.specs.Circuit.{net_of};
ghost use Rattle.refutation.specs.Facts.{known_good, with_fact};
ghost use Rattle.refutation.specs.FactSets.{held_by, missing};
ghost use Rattle.recursive_learning.specs.Inner.Telling.{IsTold, line_item};
ghost use Rattle.recursive_learning.specs.Inner.Working.{AreSettled, Keeps};

use gate_graph::Question;
use implications::Engine;
use refutation::{Fact, FactSet, Item, Line, TreeBuilder};
use rm_base::{NoMemory, NodeId};

/// Appends the lines.
pub fn push_lines(tree: &mut TreeBuilder, lines: &[Line]) -> Result<(), NoMemory>
    ensures { OnOk result (tree.new ≡ tree.old ++ map line_item lines.now) }
{
    for line in lines {
        tree.push(Item::Line(*line))?;
    }
    Ok(())
}

/// Adds a good value, and writes the lines that follow; whether they end with a clash.
pub fn tell(
    engine: &mut Engine,
    question: &Question<'_>,
    facts: &mut FactSet,
    node: NodeId,
    value: bool,
    tree: &mut TreeBuilder,
) -> Result<bool, NoMemory>
    requires numbers { length (net_of question.now.graph.now).nodes ≤ engine.old.numbers }
    requires size { length (net_of question.now.graph.now).nodes ≤ length facts.old }
    requires settled { AreSettled (net_of question.now.graph.now) question.now.fault (held_by facts.old) }
    requires node { IsLive (net_of question.now.graph.now) node.0 }
    requires unknown { known_good (held_by facts.old) node.0 ≡ None }
    ensures told { IfOk result (λ ended. IsTold (net_of question.now.graph.now) question.now.fault (with_fact (held_by facts.old) node.0 (Fact.Good value)) tree.old ended (held_by facts.new) tree.new) }
    ensures there { IfOk result (λ ended. ended ≡ false → IsTrue (held_by facts.new node.0 (Fact.Good value))) }
    ensures keeps { IfOk result (λ _. Keeps engine.old engine.new facts.old facts.new) }
    ensures fewer { IfOk result (λ _. missing facts.new < missing facts.old) }
{
    question.graph.well_formed();
    let clash = engine.extend(question, facts, node, value)?;
    push_lines(tree, engine.lines())?;
    let Some(opposed) = clash else {
        return Ok(false);
    };
    tree.push(Item::Clash(opposed))?;
    Ok(true)
}
