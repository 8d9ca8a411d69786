// Working off the nodes at which a line may have more to give.
ghost use Rattle.std.specs.Prelude.{◌≡◌, ◌≤◌, ◌↔◌, IfOk, IsTrue, OnOk, length};
ghost use Rattle.gate_graph.specs.Circuit.{net_of};
ghost use Rattle.refutation.specs.Closing.{IsClashFree};
ghost use Rattle.refutation.specs.Facts.{AreOpposed};
ghost use Rattle.refutation.specs.FactSets.{held_by};
ghost use Rattle.implications.specs.Inner.Settled.{IsFresh, IsReady};
ghost use Rattle.implications.specs.Inner.Tallies.{AreTallied};
ghost use Rattle.implications.specs.Inner.Working.{IsPending, IsPendingBut, Touches, Holds, Works, Keeps, Outcome, Ending, work};

use crate::found::Found;
use crate::log::{Log, hold};
use crate::next_line::next_line;
use crate::sweeping::sweep;
use crate::tallies::{Tallies, touch};
use gate_graph::Question;
use refutation::FactSet;
use refutation::worklist::Worklist;
use rm_base::{NoMemory, NodeId};

// Adds what was found, and puts its node and its readers on the worklist; whether two facts are now opposed on the node.
pub(crate) fn add_found(
    question: &Question<'_>,
    facts: &mut FactSet,
    log: &mut Log,
    worklist: &mut Worklist,
    tallies: &mut Tallies,
    found: Found,
) -> Result<bool, NoMemory>
    requires size { length (net_of question.now.graph.now).nodes ≤ length facts.old }
    requires worklist { length (net_of question.now.graph.now).nodes ≤ length worklist.old }
    requires room { length (net_of question.now.graph.now).nodes ≤ length tallies.old.counted }
    requires tallied { AreTallied (net_of question.now.graph.now) (held_by facts.old) question.now.fault.position tallies.old }
    requires fresh { IsFresh (net_of question.now.graph.now) question.now.fault facts.old found }
    ensures holds { OnOk result (Holds facts.old log.old.lines.items facts.new log.new.lines.items found) }
    ensures keeps { Keeps facts.old log.old.trail.items facts.new log.new.trail.items }
    ensures touches { Touches (net_of question.now.graph.now) worklist.old worklist.new found.node.0 }
    ensures tallied { OnOk result (AreTallied (net_of question.now.graph.now) (held_by facts.new) question.now.fault.position tallies.new) }
    ensures room { length tallies.new.counted ≡ length tallies.old.counted }
    ensures opposed { IfOk result (λ opposed. IsTrue opposed ↔ AreOpposed (held_by facts.new) found.node.0) }
{
    touch(question, facts, worklist, tallies, found.node, found.fact);
    hold(facts, log, found)?;
    Ok(facts.is_opposed(found.node))
}

// Adds what lines at the node give, until it is settled or two facts are opposed on a node, which is then given.
fn settle(
    question: &Question<'_>,
    facts: &mut FactSet,
    log: &mut Log,
    worklist: &mut Worklist,
    tallies: &mut Tallies,
    node: NodeId,
) -> Result<Option<NodeId>, NoMemory>
    requires ready { IsReady (net_of question.now.graph.now) question.now.fault facts.old }
    requires worklist { length (net_of question.now.graph.now).nodes ≤ length worklist.old }
    requires room { length (net_of question.now.graph.now).nodes ≤ length tallies.old.counted }
    requires tallied { AreTallied (net_of question.now.graph.now) (held_by facts.old) question.now.fault.position tallies.old }
    requires pending { IsPendingBut (net_of question.now.graph.now) question.now.fault facts.old worklist.old node.0 }
    requires free { IsClashFree (held_by facts.old) }
    ensures works { OnOk result (Works (net_of question.now.graph.now) question.now.fault facts.old log.old.lines.items facts.new log.new.lines.items) }
    ensures keeps { Keeps facts.old log.old.trail.items facts.new log.new.trail.items }
    ensures outcome { IfOk result (Outcome (net_of question.now.graph.now) question.now.fault facts.new worklist.new) }
    ensures tallied { OnOk result (AreTallied (net_of question.now.graph.now) (held_by facts.new) question.now.fault.position tallies.new) }
    ensures less { OnOk result (work facts.new worklist.new ≤ work facts.old worklist.old) }
    ensures size { length worklist.new ≡ length worklist.old }
    ensures room { length tallies.new.counted ≡ length tallies.old.counted }
{
    loop {
        if let Some(clash) = sweep(question, facts, log, worklist, tallies, node)? {
            return Ok(Some(clash));
        }
        let Some(found) = next_line(question, facts, tallies, node) else {
            return Ok(None);
        };
        if add_found(question, facts, log, worklist, tallies, found)? {
            return Ok(Some(found.node));
        }
    }
}

// Works off the worklist, until it is empty or two facts are opposed on a node, which is then given.
pub(crate) fn work_off(
    question: &Question<'_>,
    facts: &mut FactSet,
    log: &mut Log,
    worklist: &mut Worklist,
    tallies: &mut Tallies,
) -> Result<Option<NodeId>, NoMemory>
    requires ready { IsReady (net_of question.now.graph.now) question.now.fault facts.old }
    requires worklist { length (net_of question.now.graph.now).nodes ≤ length worklist.old }
    requires room { length (net_of question.now.graph.now).nodes ≤ length tallies.old.counted }
    requires tallied { AreTallied (net_of question.now.graph.now) (held_by facts.old) question.now.fault.position tallies.old }
    requires pending { IsPending (net_of question.now.graph.now) question.now.fault facts.old worklist.old }
    requires free { IsClashFree (held_by facts.old) }
    ensures works { OnOk result (Works (net_of question.now.graph.now) question.now.fault facts.old log.old.lines.items facts.new log.new.lines.items) }
    ensures keeps { Keeps facts.old log.old.trail.items facts.new log.new.trail.items }
    ensures ending { IfOk result (Ending (net_of question.now.graph.now) question.now.fault facts.new) }
    ensures size { length worklist.new ≡ length worklist.old }
    ensures room { length tallies.new.counted ≡ length tallies.old.counted }
{
    while let Some(node) = worklist.take() {
        match settle(question, facts, log, worklist, tallies, node)? {
            Some(clash) => return Ok(Some(clash)),
            None => {}
        }
    }
    Ok(None)
}
