// What a look at an open branch finds.
ghost use Rattle.std.specs.Prelude.{◌≡◌, IfOk, IfSome};
ghost use Rattle.fault_sim.specs.LaneStates.{Fits};
ghost use Rattle.gate_graph.specs.Circuit.{net_of};
ghost use Rattle.gate_net.specs.Faults.{IsTest};
ghost use Rattle.gate_net.specs.Net.{Net};
ghost use Rattle.ternary_sim.specs.Sims.{Fits as Reads};
ghost use Rattle.fault_decision.specs.Inner.Working.{IsFound, MaySplitOn};

use crate::frontier::frontier_goal;
use crate::goals::{Goal, open_goal};
use crate::justifying::justification;
use crate::reading::is_quiet;
use crate::waiting::waiting_source;
use crate::work::Work;
use candidate_vectors::complete;
use fault_sim::Lanes;
use gate_graph::Question;
use refutation::{Fact, FactSet, Item};
use rm_base::{NoMemory, NodeId, Vector};

/// How a branch ended.
#[derive(Debug, Drop)]
pub(crate) enum End {
    /// The vector detects the fault.
    Detected(Vector),
    /// The branch was written to its ends.
    Closed,
    /// It was left open.
    Open,
}

/// That a branch ends, or on what it has to be split.
#[derive(Debug, Drop)]
pub(crate) enum Found {
    Ends(End),
    Splits(Goal),
}

// A vector that completes the facts and detects the fault. It is looked for where no gate is to be justified, and else now and
// then.
fn try_vectors(
    question: &Question<'_>,
    facts: &FactSet,
    work: &Work,
    lanes: &mut Lanes,
    is_justified: bool,
) -> Result<Option<Vector>, NoMemory>
    requires fits { Fits lanes.old (net_of question.now.graph.now) }
    ensures test { IfOk result (λ found. IfSome found (IsTest (net_of question.now.graph.now) question.now.fault)) }
    ensures fits { (net : Net) → Fits lanes.old net → Fits lanes.new net }
{
    if !is_justified && !work.tries_vectors() {
        return Ok(None);
    }
    complete(work.alloc, question, facts, lanes)
}

// The split of the branch, where there is one that may be made.
fn splits_on(question: &Question<'_>, facts: &FactSet, goal: Option<Goal>) -> Found
    ensures { IsFound (net_of question.now.graph.now) question.now.fault facts.now result }
{
    let Some(wanted) = goal else {
        return Found::Ends(End::Open);
    };
    match open_goal(question.graph, facts, wanted) {
        Some(open) => Found::Splits(open),
        None => Found::Ends(End::Open),
    }
}

// The end or the split of a branch in which the difference can go on nowhere.
fn look_dead(
    question: &Question<'_>,
    facts: &FactSet,
    work: &mut Work,
    goal: Option<Goal>,
) -> Result<Found, NoMemory>
    requires reads { Reads work.old.sim (net_of question.now.graph.now) }
    ensures found { IfOk result (IsFound (net_of question.now.graph.now) question.now.fault facts.now) }
    ensures reads { Reads work.new.sim (net_of question.now.graph.now) }
    ensures left { work.new.left ≡ work.old.left }
{
    if is_quiet(question, facts, &mut work.sim) {
        work.items.push(Item::Quiet)?;
        return Ok(Found::Ends(End::Closed));
    }
    if goal.is_some() {
        return Ok(splits_on(question, facts, goal));
    }
    let source = waiting_source(question.graph, &work.sim);
    Ok(splits_on(question, facts, source))
}

/// Looks at a branch whose facts are closed, and at which these were added. A gate is justified first, then the difference
/// goes on; where it can go on nowhere and the branch isn't quiet, a source that matters is given a value.
pub(crate) fn look(
    question: &Question<'_>,
    facts: &FactSet,
    added: &[(NodeId, Fact)],
    work: &mut Work,
    lanes: &mut Lanes,
) -> Result<Found, NoMemory>
    requires fits { Fits lanes.old (net_of question.now.graph.now) }
    requires reads { Reads work.old.sim (net_of question.now.graph.now) }
    ensures found { IfOk result (IsFound (net_of question.now.graph.now) question.now.fault facts.now) }
    ensures fits { (net : Net) → Fits lanes.old net → Fits lanes.new net }
    ensures reads { Reads work.new.sim (net_of question.now.graph.now) }
    ensures left { work.new.left ≡ work.old.left }
{
    let justify = justification(question.graph, facts, added, work.greatest);
    if let Some(vector) = try_vectors(question, facts, work, lanes, justify.is_none())? {
        return Ok(Found::Ends(End::Detected(vector)));
    }
    let onward = frontier_goal(question.graph, facts, added);
    if onward.is_none() {
        return look_dead(question, facts, work, justify);
    }
    match justify {
        Some(_) => Ok(splits_on(question, facts, justify)),
        None => Ok(splits_on(question, facts, onward)),
    }
}
