// The candidates of a fault.
ghost use Rattle.std.specs.Prelude.{◌≡◌, ◌≤◌, IfOk, OnOk, length};
ghost use Rattle.gate_net.specs.Net.{IsLive};
ghost use Rattle.gate_graph.specs.Circuit.{net_of};
ghost use Rattle.refutation.specs.FactSets.{held_by};
ghost use Rattle.refutation.specs.Reaching.{MarksReached};
ghost use Rattle.candidate_wires.specs.Candidates.{AreCandidates};
ghost use Rattle.candidate_wires.specs.Inner.Parts.{AddsAt, AreFoundAmong};

use crate::candidate::Candidate;
use crate::choosing::add_choices;
use crate::drivers::mark_drivers;
use crate::finder::Finder;
use crate::known::Known;
use crate::node_set::NodeSet;
use crate::targeting::control_of;
use gate_graph::{Graph, Question};
use refutation::FactSet;
use refutation::chains::next_in_chain;
use rm_base::{NoMemory, NodeId};
use std::alloc::Global;

// Adds the candidates at a node.
fn add_at(
    graph: &Graph,
    at: NodeId,
    reached: &NodeSet,
    driving: &mut NodeSet,
    sources: &[Known],
    found: &mut Vec<Candidate>,
) -> Result<(), NoMemory>
    requires reached { MarksReached (net_of graph.now) at.0 reached.now }
    requires room { length (net_of graph.now).nodes ≤ length driving.old }
    ensures more { OnOk result (AddsAt (net_of graph.now) at.0 sources.now found.old.items found.new.items) }
    ensures room { length driving.new ≡ length driving.old }
{
    let Some(control) = control_of(graph, at) else {
        return Ok(());
    };
    mark_drivers(graph, at, driving);
    add_choices(at, control, reached, driving, sources, found)
}

// The candidates of the fault, by the marks of what its gate reaches and the known nodes. The next gate of a chain reaches
// the same but itself.
pub(crate) fn along_chain(
    alloc: Global,
    question: &Question<'_>,
    reached: &mut NodeSet,
    driving: &mut NodeSet,
    sources: &[Known],
) -> Result<Vec<Candidate>, NoMemory>
    requires gate { IsLive (net_of question.now.graph.now) question.now.fault.gate.0 }
    requires reached { MarksReached (net_of question.now.graph.now) question.now.fault.gate.0 reached.old }
    requires marks { length (net_of question.now.graph.now).nodes ≤ length reached.old }
    requires room { length (net_of question.now.graph.now).nodes ≤ length driving.old }
    ensures found { IfOk result (λ found. AreFoundAmong (net_of question.now.graph.now) question.now.fault sources.now found.items) }
    ensures marks { length reached.new ≡ length reached.old }
    ensures room { length driving.new ≡ length driving.old }
{
    question.graph.well_formed();
    let mut found = Vec::new(alloc);
    let mut at = question.fault.gate;
    for _step in 0..question.graph.node_bound() {
        add_at(question.graph, at, reached, driving, sources, &mut found)?;
        let Some(next) = next_in_chain(question.graph, at) else {
            return Ok(found);
        };
        reached.unset(next);
        at = next;
    }
    unreachable!()
}

/// The candidates of the fault by these facts, in order, as a `Finder` that is made for this one call finds them.
pub fn candidates(
    alloc: Global,
    question: &Question<'_>,
    facts: &FactSet,
) -> Result<Vec<Candidate>, NoMemory>
    requires facts { length (net_of question.now.graph.now).nodes ≤ length facts.now }
    ensures { IfOk result (λ found. AreCandidates (net_of question.now.graph.now) question.now.fault (held_by facts.now) found.items) }
{
    let mut finder = Finder::new(alloc, question.graph.node_bound())?;
    finder.candidates(alloc, question, facts)
}
