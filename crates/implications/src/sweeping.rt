// Going over the pins of an And or an Or once, and adding what follows at each.
ghost use Rattle.std.specs.Prelude.{◌≡◌, ◌≤◌, IfOk, OnOk, length};
ghost use Rattle.gate_graph.specs.Circuit.{net_of};
ghost use Rattle.gate_net.specs.Net.{Reads};
ghost use Rattle.gate_net.specs.Values.{IsJunction};
ghost use Rattle.refutation.specs.Closing.{IsClashFree};
ghost use Rattle.refutation.specs.FactSets.{held_by};
ghost use Rattle.implications.specs.Inner.Settled.{IsReady};
ghost use Rattle.implications.specs.Inner.Tallies.{AreTallied};
ghost use Rattle.implications.specs.Inner.Working.{IsPendingBut, Works, Keeps, Sweeps, work};

use crate::blocked_pin::blocked_pin;
use crate::log::Log;
use crate::pin_line::{has_sweep, may_sweep, pin_line};
use crate::settling::add_found;
use crate::tallies::Tallies;
use gate_graph::Question;
use refutation::FactSet;
use refutation::following::gate_pins;
use refutation::pins::controlling;
use refutation::worklist::Worklist;
use rm_base::{NoMemory, NodeId};

// Adds what follows at one pin, or up to a clash, whose node is given.
fn sweep_pin(
    question: &Question<'_>,
    facts: &mut FactSet,
    log: &mut Log,
    worklist: &mut Worklist,
    tallies: &mut Tallies,
    node: NodeId,
    position: u32,
    driver: NodeId,
    c: bool,
) -> Result<Option<NodeId>, NoMemory>
    requires ready { IsReady (net_of question.now.graph.now) question.now.fault facts.old }
    requires worklist { length (net_of question.now.graph.now).nodes ≤ length worklist.old }
    requires room { length (net_of question.now.graph.now).nodes ≤ length tallies.old.counted }
    requires tallied { AreTallied (net_of question.now.graph.now) (held_by facts.old) question.now.fault.position tallies.old }
    requires pending { IsPendingBut (net_of question.now.graph.now) question.now.fault facts.old worklist.old node.0 }
    requires free { IsClashFree (held_by facts.old) }
    requires kind { IsJunction (net_of question.now.graph.now) node.0 c }
    requires reads { Reads (net_of question.now.graph.now) node.0 position driver.0 }
    ensures sweeps { IfOk result (Sweeps (net_of question.now.graph.now) question.now.fault facts.old log.old.lines.items log.old.trail.items worklist.old facts.new log.new.lines.items log.new.trail.items worklist.new node.0) }
    ensures keeps { Keeps facts.old log.old.trail.items facts.new log.new.trail.items }
    ensures tallied { OnOk result (AreTallied (net_of question.now.graph.now) (held_by facts.new) question.now.fault.position tallies.new) }
    ensures size { length worklist.new ≡ length worklist.old }
    ensures room { length tallies.new.counted ≡ length tallies.old.counted }
{
    while let Some(found) = pin_line(question, facts, node, position, driver, c) {
        if add_found(question, facts, log, worklist, tallies, found)? {
            return Ok(Some(found.node));
        }
    }
    Ok(None)
}

// Adds what follows at each pin, or up to a clash, whose node is given.
fn sweep_pins(
    question: &Question<'_>,
    facts: &mut FactSet,
    log: &mut Log,
    worklist: &mut Worklist,
    tallies: &mut Tallies,
    node: NodeId,
    c: bool,
) -> Result<Option<NodeId>, NoMemory>
    requires ready { IsReady (net_of question.now.graph.now) question.now.fault facts.old }
    requires worklist { length (net_of question.now.graph.now).nodes ≤ length worklist.old }
    requires room { length (net_of question.now.graph.now).nodes ≤ length tallies.old.counted }
    requires tallied { AreTallied (net_of question.now.graph.now) (held_by facts.old) question.now.fault.position tallies.old }
    requires pending { IsPendingBut (net_of question.now.graph.now) question.now.fault facts.old worklist.old node.0 }
    requires free { IsClashFree (held_by facts.old) }
    requires kind { IsJunction (net_of question.now.graph.now) node.0 c }
    ensures sweeps { IfOk result (Sweeps (net_of question.now.graph.now) question.now.fault facts.old log.old.lines.items log.old.trail.items worklist.old facts.new log.new.lines.items log.new.trail.items worklist.new node.0) }
    ensures keeps { Keeps facts.old log.old.trail.items facts.new log.new.trail.items }
    ensures tallied { OnOk result (AreTallied (net_of question.now.graph.now) (held_by facts.new) question.now.fault.position tallies.new) }
    ensures size { length worklist.new ≡ length worklist.old }
    ensures room { length tallies.new.counted ≡ length tallies.old.counted }
{
    let mut position = 0u32;
    for driver in gate_pins(question.graph, node) {
        if let Some(clash) = sweep_pin(
            question, facts, log, worklist, tallies, node, position, driver, c,
        )? {
            return Ok(Some(clash));
        }
        position += 1;
    }
    Ok(None)
}

/// Adds what follows at single pins where that is many facts, going over the pins of an And or an Or once; up to a
/// clash, whose node is given. A pin that keeps a difference back is taken alone, before all others. What it leaves
/// `next_line` finds.
pub(crate) fn sweep(
    question: &Question<'_>,
    facts: &mut FactSet,
    log: &mut Log,
    worklist: &mut Worklist,
    tallies: &mut Tallies,
    node: NodeId,
) -> Result<Option<NodeId>, NoMemory>
    requires ready { IsReady (net_of question.now.graph.now) question.now.fault facts.old }
    requires worklist { length (net_of question.now.graph.now).nodes ≤ length worklist.old }
    requires room { length (net_of question.now.graph.now).nodes ≤ length tallies.old.counted }
    requires tallied { AreTallied (net_of question.now.graph.now) (held_by facts.old) question.now.fault.position tallies.old }
    requires pending { IsPendingBut (net_of question.now.graph.now) question.now.fault facts.old worklist.old node.0 }
    requires free { IsClashFree (held_by facts.old) }
    ensures sweeps { IfOk result (Sweeps (net_of question.now.graph.now) question.now.fault facts.old log.old.lines.items log.old.trail.items worklist.old facts.new log.new.lines.items log.new.trail.items worklist.new node.0) }
    ensures keeps { Keeps facts.old log.old.trail.items facts.new log.new.trail.items }
    ensures tallied { OnOk result (AreTallied (net_of question.now.graph.now) (held_by facts.new) question.now.fault.position tallies.new) }
    ensures size { length worklist.new ≡ length worklist.old }
    ensures room { length tallies.new.counted ≡ length tallies.old.counted }
{
    let Some(kind) = question.graph.kind(node) else {
        return Ok(None);
    };
    let Some(c) = controlling(kind) else {
        return Ok(None);
    };
    if !may_sweep(facts, node, c) {
        return Ok(None);
    }
    let tally = tallies.of(question, facts, node);
    if !has_sweep(question, facts, &tally, node, c) {
        return Ok(None);
    }
    if let Some((position, driver)) = blocked_pin(question, facts, &tally, node, c) {
        return sweep_pin(
            question, facts, log, worklist, tallies, node, position, driver, c,
        );
    }
    sweep_pins(question, facts, log, worklist, tallies, node, c)
}
