// Closing in place, and coming to rest again.
ghost use Rattle.std.specs.Prelude.{◌≡◌, ◌≤◌, List, [], IfOk, IsTrue, OnErr, false, length, replicate};
ghost use Rattle.gate_graph.specs.Circuit.{net_of};
ghost use Rattle.gate_net.specs.Net.{Net};
ghost use Rattle.refutation.specs.FactSets.{held_by};
ghost use Rattle.refutation.specs.declared.held.NodeFacts.{NodeFacts};
ghost use Rattle.refutation.specs.Reaching.{MarksReached};
ghost use Rattle.implications.specs.Bases.{ArePinless, ComesToRest, HasRoom, IsFitted, IsFor, IsOfSize, IsOpened, IsRest};
ghost use Rattle.implications.specs.Inner.Bases.{IsBegun};
ghost use Rattle.implications.specs.Outside.{AreOutside};
ghost use Rattle.implications.specs.Inner.Working.{IsPending};

use crate::basis::{Basis, list_all, put_back, take_equal, take_equals};
use crate::closing::add_all_lines;
use crate::extending::take_off;
use crate::log::{Log, start};
use crate::state::Engine;
use crate::tallies::Tallies;
use gate_graph::{Graph, Question};
use refutation::site::Site;
use refutation::worklist::Worklist;
use refutation::{Fact, FactSet};
use rm_base::{NoMemory, NodeId, ONE, ZERO};

// Takes back what was added, and holds again that the taken nodes are equal: that takes the time of both lists, and no
// memory.
fn come_to_rest(trail: &mut Vec<(NodeId, Fact)>, facts: &mut FactSet, taken: &mut Worklist)
    requires { length taken.old ≤ length facts.old }
    ensures rest { (net : Net) → ComesToRest net trail.old.items taken.old facts.old → IsRest net (held_by facts.new) }
    ensures size { length facts.new ≡ length facts.old }
    ensures trail { trail.new.items ≡ [] }
    ensures taken { taken.new ≡ replicate (length taken.old) false }
{
    take_off(trail, facts, 0);
    put_back(facts, taken);
}

// From rest to what the faulty gate doesn't reach.
fn take_reached(question: &Question<'_>, site: &Site, facts: &mut FactSet, taken: &mut Worklist)
    requires site { MarksReached (net_of question.now.graph.now) question.now.fault.gate.0 site.now.reached }
    requires facts { length (net_of question.now.graph.now).nodes ≤ length facts.old }
    requires taken { length (net_of question.now.graph.now).nodes ≤ length taken.old }
    requires rest { IsRest (net_of question.now.graph.now) (held_by facts.old) }
    requires none { taken.old ≡ replicate (length taken.old) false }
    ensures begun { IsBegun (net_of question.now.graph.now) question.now.fault facts.new taken.new }
    ensures size { length facts.new ≡ length facts.old }
    ensures room { length taken.new ≡ length taken.old }
{
    question.graph.well_formed();
    take_equal(facts, taken, question.fault.gate);
    take_equals(site.reached_numbers(), facts, taken);
}

// Puts each node on the worklist that isn't settled by what the faulty gate doesn't reach.
fn list_unsettled(question: &Question<'_>, pinless: &[NodeId], worklist: &mut Worklist)
    requires pinless { ArePinless (net_of question.now.graph.now) pinless.now }
    requires worklist { length (net_of question.now.graph.now).nodes ≤ length worklist.old }
    ensures pending { (facts : List NodeFacts) → AreOutside (net_of question.now.graph.now) question.now.fault (held_by facts) → IsPending (net_of question.now.graph.now) question.now.fault facts worklist.new }
    ensures size { length worklist.new ≡ length worklist.old }
{
    question.graph.well_formed();
    list_all(pinless, worklist);
    worklist.add(ZERO);
    worklist.add(ONE);
    worklist.add(question.fault.gate);
}

// Closes what the faulty gate doesn't reach, in place.
fn open_begun(
    question: &Question<'_>,
    basis: &mut Basis,
    log: &mut Log,
    worklist: &mut Worklist,
    tallies: &mut Tallies,
) -> Result<Option<NodeId>, NoMemory>
    requires room { HasRoom (net_of question.now.graph.now) basis.old }
    requires begun { IsBegun (net_of question.now.graph.now) question.now.fault basis.old.facts basis.old.taken }
    requires pinless { ArePinless (net_of question.now.graph.now) basis.old.pinless.items }
    requires lines { log.old.lines.items ≡ [] }
    requires trail { log.old.trail.items ≡ [] }
    requires worklist { length (net_of question.now.graph.now).nodes ≤ length worklist.old }
    requires tallies { length (net_of question.now.graph.now).nodes ≤ length tallies.old.counted }
    requires uncounted { tallies.old.counted ≡ replicate (length tallies.old.counted) false }
    ensures opened { IfOk result (IsOpened (net_of question.now.graph.now) question.now.fault log.new.lines.items basis.new.facts) }
    ensures rest { ComesToRest (net_of question.now.graph.now) log.new.trail.items basis.new.taken basis.new.facts }
    ensures room { HasRoom (net_of question.now.graph.now) basis.new }
    ensures pinless { basis.new.pinless ≡ basis.old.pinless }
    ensures worklist { length worklist.new ≡ length worklist.old }
    ensures tallies { length tallies.new.counted ≡ length tallies.old.counted }
{
    question.graph.well_formed();
    list_unsettled(question, &basis.pinless, worklist);
    add_all_lines(question, &mut basis.facts, log, worklist, tallies)
}

impl Engine {
    /// Whether there is room for the node numbers of the graph.
    pub fn has_room(&self, graph: &Graph) -> bool
        ensures { IsTrue result → length (net_of graph.now).nodes ≤ self.now.numbers }
    {
        graph.node_bound() as usize <= self.worklist.len()
    }

    /// No fact is on the trail any more; those that are held stay.
    pub fn forget(&mut self)
        ensures numbers { self.new.numbers ≡ self.old.numbers }
        ensures trail { self.new.trail ≡ [] }
    {
        self.log.trail.clear();
    }

    /// Comes to rest with the basis: what was added is taken back, in the time of that.
    pub fn rest(&mut self, basis: &mut Basis)
        requires serves { (net : Net) × IsFor net self.old basis.old }
        ensures fitted { (net : Net) → IsFor net self.old basis.old → IsFitted net basis.new × HasRoom net basis.new }
        ensures sizes { IsOfSize basis.old basis.new }
        ensures numbers { self.new.numbers ≡ self.old.numbers }
        ensures trail { self.new.trail ≡ [] }
    {
        come_to_rest(&mut self.log.trail, &mut basis.facts, &mut basis.taken);
    }

    /// Closes no facts under every line of reasoning about the fault, in place; the node of a clash is answered. It comes to
    /// rest first. What the faulty gate doesn't reach is held to be equal without a line, and the facts that lines lead to
    /// stand on the trail. It takes the time of what the faulty gate reaches and of what follows from there.
    pub fn open(
        &mut self,
        question: &Question<'_>,
        basis: &mut Basis,
    ) -> Result<Option<NodeId>, NoMemory>
        requires serves { IsFor (net_of question.now.graph.now) self.old basis.old }
        ensures opened { IfOk result (IsOpened (net_of question.now.graph.now) question.now.fault self.new.lines basis.new.facts) }
        ensures serves { IsFor (net_of question.now.graph.now) self.new basis.new }
        ensures refused { OnErr result (self.new.lines ≡ []) }
    {
        question.graph.well_formed();
        let _mark = start(&mut self.log);
        come_to_rest(&mut self.log.trail, &mut basis.facts, &mut basis.taken);
        self.site.mark_reached(question.graph, question.fault.gate);
        let reached = self.site.reached_numbers().len() as u64;
        self.log.work_done = self.log.work_done.saturating_add(reached);
        take_reached(question, &self.site, &mut basis.facts, &mut basis.taken);
        let answer = open_begun(
            question,
            basis,
            &mut self.log,
            &mut self.worklist,
            &mut self.tallies,
        );
        self.worklist.clear();
        self.tallies.clear();
        match answer {
            Ok(found) => Ok(found),
            Err(NoMemory) => {
                self.log.lines.clear();
                Err(NoMemory)
            }
        }
    }
}
