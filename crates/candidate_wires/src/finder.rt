//! Candidates of one fault after another.
ghost use Rattle.std.specs.Prelude.{◌≡◌, ◌≤◌, IfOk, length};
ghost use Rattle.gate_graph.specs.Circuit.{net_of};
ghost use Rattle.refutation.specs.FactSets.{held_by};
ghost use Rattle.refutation.specs.FactLists.{HasAllGoods};
ghost use Rattle.candidate_wires.specs.Candidates.{AreCandidates};
ghost use Rattle.candidate_wires.specs.Inner.Parts.{AreFoundAmong};

use crate::candidate::Candidate;
use crate::known::{Known, known_among, known_nodes};
use crate::listing::along_chain;
use crate::node_set::NodeSet;
use crate::reaching::mark_reached;
use gate_graph::Question;
use refutation::worklist::Worklist;
use refutation::{Fact, FactSet};
use rm_base::{NoMemory, NodeId};
use std::alloc::Global;
use std::marker::Model;

/// Finds candidates. Its marks are made once, for the node numbers below a bound, and serve one fault after another.
#[derive(Drop)]
pub struct Finder {
    reached: NodeSet,
    driving: NodeSet,
    worklist: Worklist,
}

impl Model for Finder {
    ghost use Rattle.std.specs.Prelude.{ℕ, ◌≡◌, length, replicate, false};

    ghost Value = { ℕ };

    ghost view = { λ f. length f.reached };

    ghost invariant = { λ f. (length f.driving ≡ length f.reached) × (f.worklist ≡ replicate (length f.reached) false) };
}

impl Finder {
    /// A finder for graphs with node numbers below `numbers`.
    pub fn new(alloc: Global, numbers: u32) -> Result<Finder, NoMemory>
        ensures { IfOk result (λ f. f ≡ numbers) }
    {
        let reached = NodeSet::new(alloc, numbers)?;
        let driving = NodeSet::new(alloc, numbers)?;
        let worklist = Worklist::new(alloc, numbers)?;
        Ok(Finder {
            reached,
            driving,
            worklist,
        })
    }

    // The candidates of the fault by the known nodes.
    fn candidates_by(
        &mut self,
        alloc: Global,
        question: &Question<'_>,
        sources: &[Known],
    ) -> Result<Vec<Candidate>, NoMemory>
        requires numbers { length (net_of question.now.graph.now).nodes ≤ self.old }
        ensures found { IfOk result (λ found. AreFoundAmong (net_of question.now.graph.now) question.now.fault sources.now found.items) }
        ensures numbers { self.new ≡ self.old }
    {
        mark_reached(
            question.graph,
            question.fault.gate,
            &mut self.reached,
            &mut self.worklist,
        );
        along_chain(
            alloc,
            question,
            &mut self.reached,
            &mut self.driving,
            sources,
        )
    }

    /// The candidates of the fault by these facts, in order. It takes one look at the facts of each node number; all
    /// else takes the time of the known nodes' readers, of what the fault's gate reaches, of the pins of the gates of its
    /// chain, and of a test for each of these gates and each known node.
    pub fn candidates(
        &mut self,
        alloc: Global,
        question: &Question<'_>,
        facts: &FactSet,
    ) -> Result<Vec<Candidate>, NoMemory>
        requires facts { length (net_of question.now.graph.now).nodes ≤ length facts.now }
        requires numbers { length (net_of question.now.graph.now).nodes ≤ self.old }
        ensures found { IfOk result (λ found. AreCandidates (net_of question.now.graph.now) question.now.fault (held_by facts.now) found.items) }
        ensures numbers { self.new ≡ self.old }
    {
        let sources = known_nodes(alloc, question.graph, facts)?;
        self.candidates_by(alloc, question, sources.as_slice())
    }

    /// The same, without a look at the facts of each node: `added` has each good value that is held, in any order, as
    /// what closing has added does.
    pub fn candidates_among(
        &mut self,
        alloc: Global,
        question: &Question<'_>,
        facts: &FactSet,
        added: &[(NodeId, Fact)],
    ) -> Result<Vec<Candidate>, NoMemory>
        requires facts { length (net_of question.now.graph.now).nodes ≤ length facts.now }
        requires added { HasAllGoods (held_by facts.now) added.now }
        requires numbers { length (net_of question.now.graph.now).nodes ≤ self.old }
        ensures found { IfOk result (λ found. AreCandidates (net_of question.now.graph.now) question.now.fault (held_by facts.now) found.items) }
        ensures numbers { self.new ≡ self.old }
    {
        let sources = known_among(alloc, question.graph, facts, added)?;
        self.candidates_by(alloc, question, sources.as_slice())
    }
}
