// The lines that ask for no facts.
ghost use Rattle.std.specs.Prelude.{◌≡◌, ◌≤◌, ℕ, IfOk, OnOk, None, length};
ghost use Rattle.gate_graph.specs.Circuit.{net_of};
ghost use Rattle.refutation.specs.Answers.{IsAnswer};
ghost use Rattle.refutation.specs.Closing.{IsClashFree};
ghost use Rattle.refutation.specs.FactSets.{held_by};
ghost use Rattle.refutation.specs.Sites.{IsSiteOf};
ghost use Rattle.implications.specs.Inner.Beginning.{Gives, AreDoneAtFault, AreDoneOnChain, AreDoneOutside, StaysPending};
ghost use Rattle.implications.specs.Settled.{place_of};
ghost use Rattle.implications.specs.Inner.Settled.{IsDone, IsReady};
ghost use Rattle.implications.specs.Inner.Tallies.{AreTallied};
ghost use Rattle.implications.specs.Inner.Working.{Works, Keeps};

use crate::found::Found;
use crate::log::Log;
use crate::settling::add_found;
use crate::tallies::Tallies;
use gate_graph::Question;
use refutation::chains::next_in_chain;
use refutation::place_lines::{line_act, line_out_marked, line_site};
use refutation::site::Site;
use refutation::worklist::Worklist;
use refutation::{Fact, FactSet, Line};
use rm_base::{NoMemory, NodeId};

// Adds what a line gives, whatever is held, and answers a clash that it makes.
fn give(
    question: &Question<'_>,
    facts: &mut FactSet,
    log: &mut Log,
    worklist: &mut Worklist,
    tallies: &mut Tallies,
    line: Line,
    given: Option<(NodeId, Fact)>,
) -> Result<Option<NodeId>, NoMemory>
    requires ready { IsReady (net_of question.now.graph.now) question.now.fault facts.old }
    requires free { IsClashFree (held_by facts.old) }
    requires worklist { length (net_of question.now.graph.now).nodes ≤ length worklist.old }
    requires room { length (net_of question.now.graph.now).nodes ≤ length tallies.old.counted }
    requires tallied { AreTallied (net_of question.now.graph.now) (held_by facts.old) question.now.fault.position tallies.old }
    requires first { place_of line ≡ None }
    requires given { IsAnswer (net_of question.now.graph.now) question.now.fault (held_by facts.old) line given }
    ensures works { OnOk result (Works (net_of question.now.graph.now) question.now.fault facts.old log.old.lines.items facts.new log.new.lines.items) }
    ensures keeps { Keeps facts.old log.old.trail.items facts.new log.new.trail.items }
    ensures gives { IfOk result (Gives facts.new (IsDone (net_of question.now.graph.now) question.now.fault facts.new line)) }
    ensures pending { OnOk result (StaysPending (net_of question.now.graph.now) question.now.fault facts.old worklist.old facts.new worklist.new) }
    ensures tallied { OnOk result (AreTallied (net_of question.now.graph.now) (held_by facts.new) question.now.fault.position tallies.new) }
    ensures size { length worklist.new ≡ length worklist.old }
    ensures room { length tallies.new.counted ≡ length tallies.old.counted }
{
    let Some((node, fact)) = given else {
        return Ok(None);
    };
    if facts.holds(node, fact) {
        return Ok(None);
    }
    let found = Found { line, node, fact };
    if add_found(question, facts, log, worklist, tallies, found)? {
        return Ok(Some(node));
    }
    Ok(None)
}

// The lines of the stuck pin and of its gate.
pub(crate) fn give_at_fault(
    question: &Question<'_>,
    facts: &mut FactSet,
    log: &mut Log,
    worklist: &mut Worklist,
    tallies: &mut Tallies,
) -> Result<Option<NodeId>, NoMemory>
    requires ready { IsReady (net_of question.now.graph.now) question.now.fault facts.old }
    requires free { IsClashFree (held_by facts.old) }
    requires worklist { length (net_of question.now.graph.now).nodes ≤ length worklist.old }
    requires room { length (net_of question.now.graph.now).nodes ≤ length tallies.old.counted }
    requires tallied { AreTallied (net_of question.now.graph.now) (held_by facts.old) question.now.fault.position tallies.old }
    ensures works { OnOk result (Works (net_of question.now.graph.now) question.now.fault facts.old log.old.lines.items facts.new log.new.lines.items) }
    ensures keeps { Keeps facts.old log.old.trail.items facts.new log.new.trail.items }
    ensures gives { IfOk result (Gives facts.new (AreDoneAtFault (net_of question.now.graph.now) question.now.fault facts.new)) }
    ensures pending { OnOk result (StaysPending (net_of question.now.graph.now) question.now.fault facts.old worklist.old facts.new worklist.new) }
    ensures tallied { OnOk result (AreTallied (net_of question.now.graph.now) (held_by facts.new) question.now.fault.position tallies.new) }
    ensures size { length worklist.new ≡ length worklist.old }
    ensures room { length tallies.new.counted ≡ length tallies.old.counted }
{
    let given = line_act(question);
    if let Some(clash) = give(question, facts, log, worklist, tallies, Line::Act, given)? {
        return Ok(Some(clash));
    }
    let given = line_site(&question.fault);
    give(question, facts, log, worklist, tallies, Line::Site, given)
}

// The lines of the chain that begins with the faulty gate, in its order.
pub(crate) fn give_on_chain(
    question: &Question<'_>,
    facts: &mut FactSet,
    log: &mut Log,
    worklist: &mut Worklist,
    tallies: &mut Tallies,
) -> Result<Option<NodeId>, NoMemory>
    requires ready { IsReady (net_of question.now.graph.now) question.now.fault facts.old }
    requires free { IsClashFree (held_by facts.old) }
    requires worklist { length (net_of question.now.graph.now).nodes ≤ length worklist.old }
    requires room { length (net_of question.now.graph.now).nodes ≤ length tallies.old.counted }
    requires tallied { AreTallied (net_of question.now.graph.now) (held_by facts.old) question.now.fault.position tallies.old }
    ensures works { OnOk result (Works (net_of question.now.graph.now) question.now.fault facts.old log.old.lines.items facts.new log.new.lines.items) }
    ensures keeps { Keeps facts.old log.old.trail.items facts.new log.new.trail.items }
    ensures gives { IfOk result (Gives facts.new (AreDoneOnChain (net_of question.now.graph.now) question.now.fault facts.new)) }
    ensures pending { OnOk result (StaysPending (net_of question.now.graph.now) question.now.fault facts.old worklist.old facts.new worklist.new) }
    ensures tallied { OnOk result (AreTallied (net_of question.now.graph.now) (held_by facts.new) question.now.fault.position tallies.new) }
    ensures size { length worklist.new ≡ length worklist.old }
    ensures room { length tallies.new.counted ≡ length tallies.old.counted }
{
    let mut at = question.fault.gate;
    for _step in 0..question.graph.node_bound() {
        let line = Line::Chain { node: at };
        let given = Some((at, Fact::Differs));
        if let Some(clash) = give(question, facts, log, worklist, tallies, line, given)? {
            return Ok(Some(clash));
        }
        let Some(next) = next_in_chain(question.graph, at) else {
            return Ok(None);
        };
        at = next;
    }
    unreachable!()
}

// The lines of the nodes that the faulty gate doesn't reach.
pub(crate) fn give_outside(
    question: &Question<'_>,
    site: &Site,
    facts: &mut FactSet,
    log: &mut Log,
    worklist: &mut Worklist,
    tallies: &mut Tallies,
) -> Result<Option<NodeId>, NoMemory>
    requires ready { IsReady (net_of question.now.graph.now) question.now.fault facts.old }
    requires free { IsClashFree (held_by facts.old) }
    requires site { IsSiteOf (net_of question.now.graph.now) question.now.fault.gate.0 site.now }
    requires worklist { length (net_of question.now.graph.now).nodes ≤ length worklist.old }
    requires room { length (net_of question.now.graph.now).nodes ≤ length tallies.old.counted }
    requires tallied { AreTallied (net_of question.now.graph.now) (held_by facts.old) question.now.fault.position tallies.old }
    ensures works { OnOk result (Works (net_of question.now.graph.now) question.now.fault facts.old log.old.lines.items facts.new log.new.lines.items) }
    ensures keeps { Keeps facts.old log.old.trail.items facts.new log.new.trail.items }
    ensures gives { IfOk result (Gives facts.new (AreDoneOutside (net_of question.now.graph.now) question.now.fault facts.new)) }
    ensures tallied { OnOk result (AreTallied (net_of question.now.graph.now) (held_by facts.new) question.now.fault.position tallies.new) }
    ensures size { length worklist.new ≡ length worklist.old }
    ensures room { length tallies.new.counted ≡ length tallies.old.counted }
{
    for number in 0..question.graph.node_bound() {
        let node = NodeId(number);
        let line = Line::Out { node };
        let given = line_out_marked(question, node, site);
        if let Some(clash) = give(question, facts, log, worklist, tallies, line, given)? {
            return Ok(Some(clash));
        }
    }
    Ok(None)
}
