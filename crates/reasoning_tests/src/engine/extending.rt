// Facts that grow by a good value, in a copy and in place.
ghost use Rattle.std.specs.Prelude.{◌≡◌, ◌≤◌, length};
ghost use Rattle.gate_graph.specs.Circuit.{net_of};
ghost use Rattle.refutation.specs.Closing.{IsClashFree, IsClosedUnderLines};
ghost use Rattle.refutation.specs.FactSets.{held_by};

use crate::facts::hold_same;
use gate_graph::Question;
use implications::{Closed, Engine};
use refutation::FactSet;
use refutation::pins::{Aspect, known_of};
use rm_base::NodeId;
use std::alloc::Global;
use std::test::Fail;
use test_nets::worked::FOUR_GATES;
use test_nets::{build_net, fault_at};

const THIRD: NodeId = NodeId(4);

// What is known of the third source after growing facts that don't tell its good value by its being 1.
fn grow_net(
    engine: &mut Engine,
    question: &Question<'_>,
    facts: &FactSet,
) -> Result<Option<bool>, Fail>
    requires numbers { length (net_of question.now.graph.now).nodes ≤ engine.old.numbers }
    requires size { length (net_of question.now.graph.now).nodes ≤ length facts.now }
    requires free { IsClashFree (held_by facts.now) }
    ensures { engine.new.numbers ≡ engine.old.numbers }
{
    let Some(_) = question.graph.kind(THIRD) else {
        return Err("no such node".into());
    };
    if known_of(facts, Aspect::OfGood, THIRD).is_some() {
        return Err("known before".into());
    }
    let Closed::Open(more) = engine.grow(question, facts, THIRD, true)? else {
        return Err("a clash".into());
    };
    if more.len() <= 4 {
        return Err("too few nodes".into());
    }
    Ok(known_of(&more, Aspect::OfFaulty, THIRD))
}

// The same by extending them in place, where taking that back gives the facts before.
fn extend_in_place(
    alloc: Global,
    engine: &mut Engine,
    question: &Question<'_>,
    facts: &mut FactSet,
) -> Result<Option<bool>, Fail>
    requires numbers { length (net_of question.now.graph.now).nodes ≤ engine.old.numbers }
    requires size { length (net_of question.now.graph.now).nodes ≤ length facts.old }
    requires closed { IsClosedUnderLines (net_of question.now.graph.now) question.now.fault (held_by facts.old) }
    requires free { IsClashFree (held_by facts.old) }
{
    let Some(_) = question.graph.kind(THIRD) else {
        return Err("no such node".into());
    };
    if known_of(facts, Aspect::OfGood, THIRD).is_some() {
        return Err("known before".into());
    }
    let before = facts.copy(alloc)?;
    let mark = engine.mark();
    let clash = engine.extend(question, facts, THIRD, true)?;
    let now = known_of(facts, Aspect::OfFaulty, THIRD);
    engine.take_back(facts, mark);
    if clash.is_some() {
        return Err("a clash".into());
    }
    if facts.len() != before.len() {
        return Err("another size".into());
    }
    if !hold_same(facts, &before, question.graph.node_bound()) {
        return Err("not taken back".into());
    }
    Ok(now)
}

#[test]
fn grows_and_takes_back(rt: HostRuntime) -> Result<(), Fail> {
    let graph = build_net(rt.alloc(), &FOUR_GATES)?;
    let fault = fault_at(&graph, 6, 0, true)?;
    let question = Question {
        graph: &graph,
        fault,
    };
    let mut engine = Engine::new(rt.alloc(), &graph)?;
    let Closed::Open(mut facts) = engine.close(&question)? else {
        return Err("a clash".into());
    };
    let one = grow_net(&mut engine, &question, &facts)?;
    let other = extend_in_place(rt.alloc(), &mut engine, &question, &mut facts)?;
    assert_eq!(rt; (one, other), (Some(true), Some(true)));
    Ok(())
}
