// Refuting a fault.
ghost use Rattle.std.specs.Prelude.{◌≡◌, ◌≤◌, ◌↔◌, IfOk, OnOk, length};
ghost use Rattle.gate_graph.specs.Circuit.{net_of};
ghost use Rattle.implications.specs.Outcomes.{IsClash};
ghost use Rattle.implications.specs.Outside.{LeadFromOutside};
ghost use Rattle.refutation.specs.Branches.{AreAccepted};
ghost use Rattle.refutation.specs.Facts.{none_held};
ghost use Rattle.refutation.specs.FactSets.{held_by};
ghost use Rattle.refutation.specs.Learning.{LeadsToClash};
ghost use Rattle.recursive_learning.specs.Answers.{IsRefuting};
ghost use Rattle.recursive_learning.specs.Inner.Answers.{IsDeepened};
ghost use Rattle.recursive_learning.specs.Inner.Holding.{HasGoods};
ghost use Rattle.recursive_learning.specs.Watching.{HasRoom, LeavesList};
ghost use Rattle.recursive_learning.specs.Inner.Watching.{IsBlank, IsWatching, Lengthens};
ghost use Rattle.recursive_learning.specs.Inner.Working.{AreSettled, Keeps};
ghost use Rattle.recursive_learning.specs.Least.{AreForced};

use crate::learning::learn;
use crate::telling::push_lines;
use crate::watch::Watch;
use crate::writing::write;
use gate_graph::Question;
use implications::{Closed, Engine};
use refutation::{FactSet, Tree, TreeBuilder};
use refutation_check::shorten_tree;
use rm_base::NoMemory;
use std::alloc::Global;

// Writes the tree of closed facts to which these lines led from what the faulty gate doesn't reach, and which lead to a
// clash at the depth.
fn write_closed(
    engine: &mut Engine,
    question: &Question<'_>,
    watch: &mut Watch,
    depth: u8,
    facts: &mut FactSet,
) -> Result<Tree, NoMemory>
    requires numbers { length (net_of question.now.graph.now).nodes ≤ engine.old.numbers }
    requires size { length (net_of question.now.graph.now).nodes ≤ length facts.old }
    requires room { HasRoom (net_of question.now.graph.now) watch.old }
    requires goods { HasGoods watch.old engine.old facts.old }
    requires blank { IsBlank watch.old }
    requires settled { AreSettled (net_of question.now.graph.now) question.now.fault (held_by facts.old) }
    requires lines { LeadFromOutside (net_of question.now.graph.now) question.now.fault engine.old.lines (held_by facts.old) }
    requires clash { LeadsToClash (net_of question.now.graph.now) question.now.fault depth (held_by facts.old) }
    ensures accepted { IfOk result (λ t. AreAccepted (net_of question.now.graph.now) question.now.fault t) }
    ensures keeps { OnOk result (Keeps engine.old engine.new facts.old facts.new) }
    ensures leaves { OnOk result (LeavesList watch.old watch.new) }
{
    let mut tree = TreeBuilder::new(watch.alloc());
    engine.push_outside(question, &mut tree)?;
    push_lines(&mut tree, engine.lines())?;
    write(engine, question, facts, watch, depth, &mut tree)?;
    Ok(tree.finish())
}

// Writes the tree of a fault that leads to a clash at the depth.
fn tree_of(
    engine: &mut Engine,
    question: &Question<'_>,
    watch: &mut Watch,
    depth: u8,
) -> Result<Tree, NoMemory>
    requires numbers { length (net_of question.now.graph.now).nodes ≤ engine.old.numbers }
    requires room { HasRoom (net_of question.now.graph.now) watch.old }
    requires clash { LeadsToClash (net_of question.now.graph.now) question.now.fault depth none_held }
    ensures accepted { IfOk result (λ t. AreAccepted (net_of question.now.graph.now) question.now.fault t) }
    ensures numbers { OnOk result (engine.new.numbers ≡ engine.old.numbers) }
    ensures trail { OnOk result (length engine.new.trail ≡ length engine.old.trail) }
{
    question.graph.well_formed();
    match engine.close(question)? {
        Closed::Clash(tree) => Ok(tree),
        Closed::Open(facts) => {
            watch.begin_with(question.graph, &facts)?;
            let mut held = facts;
            let mark = engine.mark();
            let tree = write_closed(engine, question, watch, depth, &mut held)?;
            engine.take_back(&mut held, mark);
            Ok(tree)
        }
    }
}

/// Learns from closed facts to one depth after another; the first at which they lead to a clash.
pub(crate) fn deepen(
    engine: &mut Engine,
    question: &Question<'_>,
    facts: &mut FactSet,
    watch: &mut Watch,
    depth: u8,
) -> Result<Option<u8>, NoMemory>
    requires numbers { length (net_of question.now.graph.now).nodes ≤ engine.old.numbers }
    requires size { length (net_of question.now.graph.now).nodes ≤ length facts.old }
    requires settled { AreSettled (net_of question.now.graph.now) question.now.fault (held_by facts.old) }
    requires room { HasRoom (net_of question.now.graph.now) watch.old }
    requires goods { HasGoods watch.old engine.old facts.old }
    requires watching { IsWatching (net_of question.now.graph.now) question.now.fault (held_by facts.old) watch.old }
    requires depth { depth ≤ 2 }
    ensures deepened { IfOk result (λ level. IsDeepened (net_of question.now.graph.now) question.now.fault depth (held_by facts.old) level (held_by facts.new)) }
    ensures keeps { IfOk result (λ _. Keeps engine.old engine.new facts.old facts.new) }
    ensures lengthens { OnOk result (Lengthens watch.old watch.new) }
{
    let _mark = engine.mark();
    for level in 0..depth {
        if learn(engine, question, facts, watch, level + 1)? {
            return Ok(Some(level + 1));
        }
    }
    Ok(None)
}

// Learns from closed facts to the depth.
fn refute_open(
    alloc: Global,
    engine: &mut Engine,
    question: &Question<'_>,
    depth: u8,
    facts: FactSet,
) -> Result<Closed, NoMemory>
    requires numbers { length (net_of question.now.graph.now).nodes ≤ engine.old.numbers }
    requires size { length (net_of question.now.graph.now).nodes ≤ length facts }
    requires settled { AreSettled (net_of question.now.graph.now) question.now.fault (held_by facts) }
    requires forced { AreForced (net_of question.now.graph.now) question.now.fault 0 none_held (held_by facts) }
    requires depth { depth ≤ 2 }
    ensures refuting { IfOk result (IsRefuting (net_of question.now.graph.now) question.now.fault depth) }
    ensures numbers { OnOk result (engine.new.numbers ≡ engine.old.numbers) }
    ensures trail { OnOk result (length engine.new.trail ≡ length engine.old.trail) }
{
    if depth == 0 {
        return Ok(Closed::Open(facts));
    }
    let mut held = facts;
    let mut nothing = FactSet::for_numbers(alloc, 0)?;
    let mut watch = Watch::new(alloc, question.graph.node_bound())?;
    watch.begin_with(question.graph, &held)?;
    let mark = engine.mark();
    let clash = deepen(engine, question, &mut held, &mut watch, depth)?;
    // What was learned stays: the trail is cut without it.
    engine.take_back(&mut nothing, mark);
    let Some(level) = clash else {
        return Ok(Closed::Open(held));
    };
    let tree = tree_of(engine, question, &mut watch, level)?;
    Ok(Closed::Clash(tree))
}

// Refutes a stuck pin, with a tree that has all lines that were taken.
fn refute_whole(
    alloc: Global,
    engine: &mut Engine,
    question: &Question<'_>,
    depth: u8,
) -> Result<Closed, NoMemory>
    requires numbers { length (net_of question.now.graph.now).nodes ≤ engine.old.numbers }
    requires depth { depth ≤ 2 }
    ensures refuting { IfOk result (IsRefuting (net_of question.now.graph.now) question.now.fault depth) }
    ensures exact { IfOk result (λ c. IsClash c ↔ LeadsToClash (net_of question.now.graph.now) question.now.fault depth none_held) }
    ensures numbers { OnOk result (engine.new.numbers ≡ engine.old.numbers) }
    ensures trail { OnOk result (length engine.new.trail ≡ length engine.old.trail) }
{
    question.graph.well_formed();
    match engine.close(question)? {
        Closed::Clash(tree) => Ok(Closed::Clash(tree)),
        Closed::Open(facts) => {
            let answer = refute_open(alloc, engine, question, depth, facts)?;
            Ok(answer)
        }
    }
}

/// Refutes a stuck pin by learning to the depth. `Clash` comes exactly where no set of facts without opposed facts is
/// closed at that depth, and its tree is made again from the start, as an `Open` keeps no lines; what its ends don't rest
/// on is left out of it. `Open` has the least such set. It looks for a clash at the smaller depths first. The engine's
/// lines are then those of some call on the way.
pub fn refute(
    alloc: Global,
    engine: &mut Engine,
    question: &Question<'_>,
    depth: u8,
) -> Result<Closed, NoMemory>
    requires numbers { length (net_of question.now.graph.now).nodes ≤ engine.old.numbers }
    requires depth { depth ≤ 2 }
    ensures refuting { IfOk result (IsRefuting (net_of question.now.graph.now) question.now.fault depth) }
    ensures exact { IfOk result (λ c. IsClash c ↔ LeadsToClash (net_of question.now.graph.now) question.now.fault depth none_held) }
    ensures numbers { OnOk result (engine.new.numbers ≡ engine.old.numbers) }
    ensures trail { OnOk result (length engine.new.trail ≡ length engine.old.trail) }
{
    match refute_whole(alloc, engine, question, depth)? {
        Closed::Clash(tree) => {
            let short = shorten_tree(alloc, question, tree)?;
            Ok(Closed::Clash(short))
        }
        Closed::Open(facts) => Ok(Closed::Open(facts)),
    }
}
