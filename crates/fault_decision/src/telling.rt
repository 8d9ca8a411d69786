// Adding a good value, and writing the lines that follow.
ghost use Rattle.std.specs.Prelude.{◌≡◌, ◌≤◌, IfOk, false, length};
ghost use Rattle.gate_graph.specs.Circuit.{net_of};
ghost use Rattle.fault_decision.specs.Inner.Working.{IsReady, Keeps, MaySplitOn};

use gate_graph::Question;
use implications::Engine;
use refutation::{FactSet, Item, Line};
use rm_base::{NoMemory, NodeId};

/// Appends the lines.
pub(crate) fn push_lines(items: &mut Vec<Item>, lines: &[Line]) -> Result<(), NoMemory> {
    for line in lines {
        items.push(Item::Line(*line))?;
    }
    Ok(())
}

/// Adds a good value, and writes the lines that follow; whether they end with a clash.
pub(crate) fn tell(
    engine: &mut Engine,
    question: &Question<'_>,
    facts: &mut FactSet,
    node: NodeId,
    value: bool,
    items: &mut Vec<Item>,
) -> Result<bool, NoMemory>
    requires numbers { length (net_of question.now.graph.now).nodes ≤ engine.old.numbers }
    requires ready { IsReady (net_of question.now.graph.now) question.now.fault facts.old }
    requires node { MaySplitOn (net_of question.now.graph.now) facts.old node.0 }
    ensures ready { IfOk result (λ ended. ended ≡ false → IsReady (net_of question.now.graph.now) question.now.fault facts.new) }
    ensures keeps { IfOk result (λ _. Keeps engine.old engine.new facts.old facts.new) }
{
    let clash = engine.extend(question, facts, node, value)?;
    push_lines(items, engine.lines())?;
    let Some(opposed) = clash else {
        return Ok(false);
    };
    items.push(Item::Clash(opposed))?;
    Ok(true)
}
