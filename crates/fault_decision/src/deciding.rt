// The search, branch by branch.
ghost use Rattle.std.specs.Prelude.{◌≡◌, ◌<◌, ◌≤◌, IfOk, OnOk, length};
ghost use Rattle.fault_sim.specs.LaneStates.{Fits};
ghost use Rattle.gate_graph.specs.Circuit.{net_of};
ghost use Rattle.gate_net.specs.Net.{Net};
ghost use Rattle.ternary_sim.specs.Sims.{Fits as Reads};
ghost use Rattle.fault_decision.specs.Inner.Working.{IsEnd, IsReady, Keeps, MaySplitOn};

use crate::goals::Goal;
use crate::looking::{End, Found, look};
use crate::telling::tell;
use crate::work::Work;
use fault_sim::Lanes;
use gate_graph::Question;
use implications::Engine;
use refutation::{FactSet, Item};
use rm_base::NoMemory;

/// Searches from closed facts on, with at most `depth` splits open at once, and writes the items that follow.
#[cycle(deciding)]
pub(crate) fn decide_open(
    engine: &mut Engine,
    question: &Question<'_>,
    facts: &mut FactSet,
    work: &mut Work,
    lanes: &mut Lanes,
    depth: u32,
) -> Result<End, NoMemory>
    requires numbers { length (net_of question.now.graph.now).nodes ≤ engine.old.numbers }
    requires ready { IsReady (net_of question.now.graph.now) question.now.fault facts.old }
    requires fits { Fits lanes.old (net_of question.now.graph.now) }
    requires reads { Reads work.old.sim (net_of question.now.graph.now) }
    ensures end { IfOk result (IsEnd (net_of question.now.graph.now) question.now.fault) }
    ensures keeps { IfOk result (λ _. Keeps engine.old engine.new facts.old facts.new) }
    ensures fits { (net : Net) → Fits lanes.old net → Fits lanes.new net }
    ensures reads { Reads work.new.sim (net_of question.now.graph.now) }
{
    let _mark = engine.mark();
    let goal = match look(question, facts, engine.added_facts(0), work, lanes)? {
        Found::Ends(end) => return Ok(end),
        Found::Splits(goal) => goal,
    };
    if depth == 0 || work.is_spent() {
        return Ok(End::Open);
    }
    split(engine, question, facts, work, lanes, goal, depth - 1)
}

// Searches with one value, and where that is closed with the other.
#[cycle(deciding)]
fn split(
    engine: &mut Engine,
    question: &Question<'_>,
    facts: &mut FactSet,
    work: &mut Work,
    lanes: &mut Lanes,
    goal: Goal,
    depth: u32,
) -> Result<End, NoMemory>
    requires numbers { length (net_of question.now.graph.now).nodes ≤ engine.old.numbers }
    requires ready { IsReady (net_of question.now.graph.now) question.now.fault facts.old }
    requires goal { MaySplitOn (net_of question.now.graph.now) facts.old goal.node.0 }
    requires fits { Fits lanes.old (net_of question.now.graph.now) }
    requires reads { Reads work.old.sim (net_of question.now.graph.now) }
    requires left { 0 < work.old.left }
    ensures end { IfOk result (IsEnd (net_of question.now.graph.now) question.now.fault) }
    ensures keeps { IfOk result (λ _. Keeps engine.old engine.new facts.old facts.new) }
    ensures fits { (net : Net) → Fits lanes.old net → Fits lanes.new net }
    ensures reads { Reads work.new.sim (net_of question.now.graph.now) }
{
    let mark = engine.mark();
    work.left -= 1;
    work.items.push(Item::Split {
        node: goal.node,
        first: goal.value,
    })?;
    let first = decide_with(engine, question, facts, work, lanes, goal, depth)?;
    let End::Closed = first else {
        return Ok(first);
    };
    engine.take_back(facts, mark);
    let other = Goal {
        node: goal.node,
        value: !goal.value,
    };
    decide_with(engine, question, facts, work, lanes, other, depth)
}

// Searches with one more good value.
#[cycle(deciding)]
fn decide_with(
    engine: &mut Engine,
    question: &Question<'_>,
    facts: &mut FactSet,
    work: &mut Work,
    lanes: &mut Lanes,
    goal: Goal,
    depth: u32,
) -> Result<End, NoMemory>
    requires numbers { length (net_of question.now.graph.now).nodes ≤ engine.old.numbers }
    requires ready { IsReady (net_of question.now.graph.now) question.now.fault facts.old }
    requires goal { MaySplitOn (net_of question.now.graph.now) facts.old goal.node.0 }
    requires fits { Fits lanes.old (net_of question.now.graph.now) }
    requires reads { Reads work.old.sim (net_of question.now.graph.now) }
    ensures end { IfOk result (IsEnd (net_of question.now.graph.now) question.now.fault) }
    ensures keeps { IfOk result (λ _. Keeps engine.old engine.new facts.old facts.new) }
    ensures fits { (net : Net) → Fits lanes.old net → Fits lanes.new net }
    ensures reads { Reads work.new.sim (net_of question.now.graph.now) }
{
    if tell(
        engine,
        question,
        facts,
        goal.node,
        goal.value,
        &mut work.items,
    )? {
        return Ok(End::Closed);
    }
    decide_open(engine, question, facts, work, lanes, depth)
}
