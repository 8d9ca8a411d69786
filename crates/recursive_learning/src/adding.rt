// Adding good values to settled facts.
ghost use Rattle.std.specs.Prelude.{◌≡◌, ◌<◌, ◌≤◌, IfOk, None, length};
ghost use Rattle.gate_net.specs.Net.{IsLive};
ghost use Rattle.gate_graph.specs.Circuit.{net_of};
ghost use Rattle.refutation.specs.Facts.{known_good, with_fact};
ghost use Rattle.refutation.specs.FactSets.{held_by, missing};
ghost use Rattle.recursive_learning.specs.Inner.Working.{AreSettled, IsLearned, Keeps};
ghost use Rattle.recursive_learning.specs.Inner.JustifiedValues.{IsGained, AreNew};

use crate::justified_values::GoodValue;
use gate_graph::Question;
use implications::Engine;
use refutation::pins::{Aspect, known_of};
use refutation::{Fact, FactSet};
use rm_base::{NoMemory, NodeId};

/// Adds a good value that isn't known, and what follows; whether that is a clash.
pub fn add(
    engine: &mut Engine,
    question: &Question<'_>,
    facts: &mut FactSet,
    node: NodeId,
    value: bool,
) -> Result<bool, NoMemory>
    requires numbers { length (net_of question.now.graph.now).nodes ≤ engine.old.numbers }
    requires size { length (net_of question.now.graph.now).nodes ≤ length facts.old }
    requires settled { AreSettled (net_of question.now.graph.now) question.now.fault (held_by facts.old) }
    requires node { IsLive (net_of question.now.graph.now) node.0 }
    requires unknown { known_good (held_by facts.old) node.0 ≡ None }
    ensures learned { IfOk result (λ clash. IsLearned (net_of question.now.graph.now) question.now.fault 0 (with_fact (held_by facts.old) node.0 (Fact.Good value)) clash (held_by facts.new)) }
    ensures keeps { IfOk result (λ _. Keeps engine.old engine.new facts.old facts.new) }
    ensures fewer { IfOk result (λ _. missing facts.new < missing facts.old) }
{
    question.graph.well_formed();
    let clash = engine.extend(question, facts, node, value)?;
    Ok(clash.is_some())
}

// Adds a good value where it isn't known yet.
fn gain_one(
    engine: &mut Engine,
    question: &Question<'_>,
    facts: &mut FactSet,
    good: GoodValue,
) -> Result<bool, NoMemory>
    requires numbers { length (net_of question.now.graph.now).nodes ≤ engine.old.numbers }
    requires size { length (net_of question.now.graph.now).nodes ≤ length facts.old }
    requires settled { AreSettled (net_of question.now.graph.now) question.now.fault (held_by facts.old) }
    requires node { IsLive (net_of question.now.graph.now) good.node.0 }
    ensures learned { IfOk result (λ clash. IsLearned (net_of question.now.graph.now) question.now.fault 0 (with_fact (held_by facts.old) good.node.0 (Fact.Good good.value)) clash (held_by facts.new)) }
    ensures keeps { IfOk result (λ _. Keeps engine.old engine.new facts.old facts.new) }
    ensures less { IfOk result (λ _. missing facts.new ≤ missing facts.old) }
    ensures fewer { IfOk result (λ _. known_good (held_by facts.old) good.node.0 ≡ None → missing facts.new < missing facts.old) }
{
    question.graph.well_formed();
    let _mark = engine.mark();
    let known_value = known_of(facts, Aspect::OfGood, good.node);
    if let Some(value) = known_value {
        return Ok(value != good.value);
    }
    add(engine, question, facts, good.node, good.value)
}

/// Adds the good values, and what follows; whether that is a clash.
pub fn gain(
    engine: &mut Engine,
    question: &Question<'_>,
    facts: &mut FactSet,
    goods: &[GoodValue],
) -> Result<bool, NoMemory>
    requires numbers { length (net_of question.now.graph.now).nodes ≤ engine.old.numbers }
    requires size { length (net_of question.now.graph.now).nodes ≤ length facts.old }
    requires settled { AreSettled (net_of question.now.graph.now) question.now.fault (held_by facts.old) }
    requires new { AreNew (net_of question.now.graph.now) (held_by facts.old) goods.now }
    requires some { 0 < length goods.now }
    ensures gained { IfOk result (λ clash. IsGained (net_of question.now.graph.now) question.now.fault goods.now facts.old clash facts.new) }
    ensures keeps { IfOk result (λ _. Keeps engine.old engine.new facts.old facts.new) }
{
    let _mark = engine.mark();
    for good in goods {
        if gain_one(engine, question, facts, *good)? {
            return Ok(true);
        }
    }
    Ok(false)
}
