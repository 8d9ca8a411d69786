// Extending a closed set of facts in place, and taking that back.
ghost use Rattle.std.specs.Prelude.{◌≡◌, ◌<◌, ◌≤◌, ℕ, List, [], None, IfOk, OnErr, drop, false, length, replicate};
ghost use Rattle.gate_net.specs.Net.{IsLive};
ghost use Rattle.gate_graph.specs.Circuit.{net_of};
ghost use Rattle.refutation.specs.Closing.{IsClashFree, IsClosedUnderLines, IsWithin};
ghost use Rattle.refutation.specs.Facts.{known_good, with_fact, without_fact};
ghost use Rattle.refutation.specs.FactSets.{held_by, missing, Becomes};
ghost use Rattle.refutation.specs.declared.held.NodeFacts.{NodeFacts};
ghost use Rattle.implications.specs.Outcomes.{IsExtended};
ghost use Rattle.implications.specs.Inner.Settled.{IsReady};
ghost use Rattle.implications.specs.Trail.{AreAdded, LeadsBack, TakesBack};
ghost use Rattle.implications.specs.Inner.Working.{Keeps};

use crate::log::{Log, start};
use crate::settling::work_off;
use crate::state::Engine;
use crate::tallies::{Tallies, touch};
use gate_graph::Question;
use refutation::worklist::Worklist;
use refutation::{Fact, FactSet};
use rm_base::{NoMemory, NodeId};

// Holds the fact no longer, where there is such a node number.
fn take_away(facts: &mut FactSet, node: NodeId, fact: Fact)
    ensures { Becomes facts.old facts.new (without_fact (held_by facts.old) node.0 fact) }
{
    if (node.0 as usize) < facts.len() {
        facts.remove(node, fact);
    }
}

// Takes facts off the end of the trail, and out of the facts held, until it is that long.
pub(crate) fn take_off(trail: &mut Vec<(NodeId, Fact)>, facts: &mut FactSet, mark: usize)
    requires { mark ≤ length trail.old.items }
    ensures back { TakesBack trail.old.items facts.old trail.new.items facts.new }
    ensures long { length trail.new.items ≡ mark }
{
    while trail.len() > mark {
        let Some((node, fact)) = trail.pop() else {
            unreachable!()
        };
        take_away(facts, node, fact);
    }
}

// Adds a good value of the node, and what follows from it, over a worklist with nothing on.
fn add_good(
    question: &Question<'_>,
    facts: &mut FactSet,
    log: &mut Log,
    worklist: &mut Worklist,
    tallies: &mut Tallies,
    node: NodeId,
    value: bool,
) -> Result<Option<NodeId>, NoMemory>
    requires ready { IsReady (net_of question.now.graph.now) question.now.fault facts.old }
    requires worklist { length (net_of question.now.graph.now).nodes ≤ length worklist.old }
    requires room { length (net_of question.now.graph.now).nodes ≤ length tallies.old.counted }
    requires uncounted { tallies.old.counted ≡ replicate (length tallies.old.counted) false }
    requires closed { IsClosedUnderLines (net_of question.now.graph.now) question.now.fault (held_by facts.old) }
    requires free { IsClashFree (held_by facts.old) }
    requires node { IsLive (net_of question.now.graph.now) node.0 }
    requires unknown { known_good (held_by facts.old) node.0 ≡ None }
    requires lines { log.old.lines.items ≡ [] }
    ensures extended { IfOk result (IsExtended (net_of question.now.graph.now) question.now.fault (with_fact (held_by facts.old) node.0 (Fact.Good value)) log.new.lines.items facts.new) }
    ensures fewer { IfOk result (λ _. missing facts.new < missing facts.old) }
    ensures keeps { Keeps facts.old log.old.trail.items facts.new log.new.trail.items }
    ensures worklist { length worklist.new ≡ length worklist.old }
    ensures room { length tallies.new.counted ≡ length tallies.old.counted }
{
    let fact = Fact::Good(value);
    log.trail.push((node, fact))?;
    log.work_done = log.work_done.saturating_add(1);
    touch(question, facts, worklist, tallies, node, fact);
    facts.insert(node, fact);
    work_off(question, facts, log, worklist, tallies)
}

impl Engine {
    /// Adds a good value of the node to facts that are closed under every line of reasoning about the fault, and
    /// closes them again. It looks at the node, its readers and what follows from there alone; the node of a clash is
    /// answered. What it adds, also where it answers a clash or want of memory, stands on the trail, and `take_back`
    /// takes it away.
    pub fn extend(
        &mut self,
        question: &Question<'_>,
        facts: &mut FactSet,
        node: NodeId,
        value: bool,
    ) -> Result<Option<NodeId>, NoMemory>
        requires numbers { length (net_of question.now.graph.now).nodes ≤ self.old.numbers }
        requires size { length (net_of question.now.graph.now).nodes ≤ length facts.old }
        requires closed { IsClosedUnderLines (net_of question.now.graph.now) question.now.fault (held_by facts.old) }
        requires free { IsClashFree (held_by facts.old) }
        requires node { IsLive (net_of question.now.graph.now) node.0 }
        requires unknown { known_good (held_by facts.old) node.0 ≡ None }
        ensures extended { IfOk result (IsExtended (net_of question.now.graph.now) question.now.fault (with_fact (held_by facts.old) node.0 (Fact.Good value)) self.new.lines facts.new) }
        ensures fewer { IfOk result (λ _. missing facts.new < missing facts.old) }
        ensures more { IsWithin (held_by facts.old) (held_by facts.new) }
        ensures size { length facts.new ≡ length facts.old }
        ensures trail { length self.old.trail ≤ length self.new.trail }
        ensures added { AreAdded (drop (length self.old.trail) self.new.trail) facts.old facts.new }
        ensures back { (mark : ℕ) (start : List NodeFacts) → LeadsBack self.old.trail mark facts.old start → LeadsBack self.new.trail mark facts.new start }
        ensures refused { OnErr result (self.new.lines ≡ []) }
        ensures numbers { self.new.numbers ≡ self.old.numbers }
    {
        question.graph.well_formed();
        let _mark = start(&mut self.log);
        let answer = add_good(
            question,
            facts,
            &mut self.log,
            &mut self.worklist,
            &mut self.tallies,
            node,
            value,
        );
        self.worklist.clear();
        self.tallies.clear();
        match answer {
            Ok(found) => Ok(found),
            Err(NoMemory) => {
                self.log.lines.clear();
                Err(NoMemory)
            }
        }
    }

    /// Takes the facts back that were added after the mark, in the time of as many steps.
    pub fn take_back(&mut self, facts: &mut FactSet, mark: usize)
        requires { mark ≤ length self.old.trail }
        ensures back { (start : List NodeFacts) → LeadsBack self.old.trail mark facts.old start → facts.new ≡ start }
        ensures earlier { (earlier : ℕ) (start : List NodeFacts) → earlier ≤ mark → LeadsBack self.old.trail earlier facts.old start → LeadsBack self.new.trail earlier facts.new start }
        ensures size { length facts.new ≡ length facts.old }
        ensures trail { length self.new.trail ≡ mark }
        ensures numbers { self.new.numbers ≡ self.old.numbers }
        ensures lines { self.new.lines ≡ self.old.lines }
    {
        take_off(&mut self.log.trail, facts, mark);
    }
}
