// Replaying a journal record by record.
ghost use Rattle.std.specs.Prelude.{◌≡◌, ◌<◌, ◌≤◌, ◌^◌, ◌≢◌, IfErr, IfOk, ℕ, None, Some, length};
ghost use Rattle.journal_check.specs.declared.refusal.Why.TheVariants.{NoMemory as Wanting};
ghost use Rattle.gate_graph.specs.Circuit.{net_of};
ghost use Rattle.gate_graph.specs.Holds.{pins_held};
ghost use Rattle.gate_net.specs.Net.{Net, wire_count};
ghost use Rattle.rm_model.specs.Ranks.{first_without_rank};
ghost use Rattle.rm_model.specs.Value.{observed_names, source_names};
ghost use Rattle.rm_model.specs.WellFormed.{IsWellFormed};
ghost use Rattle.cover_decompose.specs.Count.{decomposed};
ghost use Rattle.cover_decompose.specs.Decomposition.{net_of_model};
ghost use Rattle.cover_decompose.specs.Refusals.{IsRefused};
ghost use Rattle.journal_check.specs.Inner.ReplayStates.{IsReplayState, IsIdle, RecordSays, net_in, position_of};
ghost use Rattle.journal_check.specs.Replaying.{IsLocalTree, editing};
ghost use Rattle.journal_check.specs.Standing.{Finishes, KeepsOthers, Steps};

use crate::freezing::{end, verdict};
use crate::refusal::{JournalRefusal, Why};
use crate::state::ReplayState;
use crate::trying::edit;
use cover_decompose::{DecomposeRefusal, decompose, decompositions_stand};
use gate_graph::Graph;
use journal_text::Record;
use refutation_check::TreeChecker;
use rm_base::{NoMemory, Vector};
use rm_model::RankedModel;
use std::alloc::Global;
use std::marker::Model;

/// The replay of a journal's records, one after another.
#[derive(Drop)]
pub struct Replay {
    alloc: Global,
    checker: TreeChecker,
    // It is away only while a record is looked at.
    state: Option<ReplayState>,
    // Vectors that are likely to come.
    ahead: Vec<Vector>,
    budget: u32,
    number: u64,
    refused: Option<JournalRefusal>,
}

impl Model for Replay {
    ghost use Rattle.journal_check.specs.Standing.{Standing};
    ghost use Rattle.journal_check.specs.Inner.Standing.{IsThere, position_in};

    ghost Value = { Standing };

    ghost view = { λ r. record { position = position_in r.state; budget = r.budget; number = r.number; refusal = r.refused } };

    ghost invariant = { λ r. IsThere r.state };
}

// What a record does to the graph.
fn apply_record(
    alloc: Global,
    checker: &mut TreeChecker,
    state: ReplayState,
    given: &Record,
    budget: u32,
    ahead: &[Vector],
) -> (ReplayState, Result<(), Why>)
    requires state { IsReplayState state }
    requires tree { IsLocalTree given.now }
    ensures state { IsReplayState result.0 }
    ensures says { RecordSays budget (position_of state) given.now (position_of result.0) result.1 }
{
    match given {
        Record::Step { step, tree } => edit(alloc, checker, state, *step, tree),
        Record::Hit {
            fault: _,
            vector: _,
        } => verdict(alloc, checker, state, given, budget, ahead),
        Record::Spent { fault: _, tree: _ } => verdict(alloc, checker, state, given, budget, ahead),
    }
}

// The graph at work, with the steps so far.
fn into_graph(state: ReplayState) -> Graph
    requires { IsReplayState state }
    ensures { net_of result ≡ net_in state }
{
    match state {
        ReplayState::Idle { graph } => graph,
        ReplayState::Trying { trial, left: _ } => trial.commit(),
        ReplayState::Frozen { graph, settling: _ } => graph,
    }
}

impl Replay {
    /// Before the first record, at the decomposition of the model.
    pub fn new(alloc: Global, model: &RankedModel, budget: u32) -> Result<Replay, DecomposeRefusal>
        requires formed { IsWellFormed model.now }
        requires ranked { first_without_rank model.now ≡ None }
        requires covers { length model.now.covers < 2 ^ 32 }
        requires sources { length (source_names model.now) ≤ 1024 }
        requires observed { length (observed_names model.now) ≤ 4096 }
        requires fits { decomposed model.now < 2 ^ 64 }
        ensures begins { IfOk result (λ r. r ≡ record { position = editing (net_of_model model.now); budget = budget; number = 1; refusal = None }) }
        ensures refused { IfErr result (λ refusal. IsRefused model.now refusal) }
    {
        decompositions_stand();
        let graph = decompose(alloc, model)?;
        let checker = TreeChecker::new(alloc, graph.node_bound())?;
        Ok(Replay::over(alloc, checker, graph, budget))
    }

    /// Before the first record, at the net of a graph: a journal's steps may lead on from any net that isn't too large.
    pub fn from_graph(alloc: Global, graph: Graph, budget: u32) -> Result<Replay, NoMemory>
        requires wires { wire_count (net_of graph) ≤ 1000000 }
        requires nodes { length (net_of graph).nodes ≤ 1000000 }
        requires observed { length (net_of graph).observed ≤ 131072 }
        requires held { pins_held graph ≡ 0 }
        ensures begins { IfOk result (λ r. r ≡ record { position = editing (net_of graph); budget = budget; number = 1; refusal = None }) }
    {
        let checker = TreeChecker::new(alloc, graph.node_bound())?;
        Ok(Replay::over(alloc, checker, graph, budget))
    }

    fn over(alloc: Global, checker: TreeChecker, graph: Graph, budget: u32) -> Replay
        requires { IsIdle graph }
        ensures { result ≡ record { position = editing (net_of graph); budget = budget; number = 1; refusal = None } }
    {
        Replay {
            alloc,
            checker,
            state: Some(ReplayState::Idle { graph }),
            ahead: Vec::new(alloc),
            budget,
            number: 1,
            refused: None,
        }
    }

    // Looks at a record.
    fn take(&mut self, given: &Record) -> Result<(), Why>
        requires { IsLocalTree given.now }
        ensures others { KeepsOthers self.old self.new }
        ensures says { RecordSays self.old.budget self.old.position given.now self.new.position result }
    {
        let Some(state) = self.state.take() else {
            unreachable!()
        };
        let (state, answer) = apply_record(
            self.alloc,
            &mut self.checker,
            state,
            given,
            self.budget,
            self.ahead.as_slice(),
        );
        self.state = Some(state);
        answer
    }

    // Remembers a refusal, but for want of memory.
    fn refuse(&mut self, why: Why) -> JournalRefusal
        ensures memory { why ≡ Wanting → self.new ≡ self.old }
        ensures kept { why ≢ Wanting → self.new ≡ record self.old { refusal = Some result } }
        ensures refusal { (result.number ≡ self.old.number) × (result.why ≡ why) }
    {
        let refusal = JournalRefusal {
            number: self.number,
            why,
        };
        if why != Why::NoMemory {
            self.refused = Some(refusal);
        }
        refusal
    }

    /// Takes note of vectors that are likely to come in hits: those that come are simulated 64 at a time. No answer depends on them.
    pub fn expect(&mut self, vectors: Vec<Vector>)
        ensures { self.new ≡ self.old }
    {
        self.ahead = vectors;
    }

    /// Replays one more record. After a refusal every later call answers it again; want of memory leaves all as it was.
    pub fn step(&mut self, given: &Record) -> Result<(), JournalRefusal>
        requires { IsLocalTree given.now }
        ensures { Steps self.old.refusal self.old given.now self.new result }
    {
        if let Some(refusal) = self.refused {
            return Err(refusal);
        }
        if let Err(why) = self.take(given) {
            return Err(self.refuse(why));
        }
        self.number = self.number.saturating_add(1);
        Ok(())
    }

    /// The graph to which the steps so far lead.
    pub fn into_graph(self) -> Graph
        ensures { (net : Net) → self.position ≡ editing net → net_of result ≡ net }
    {
        let Replay {
            alloc: _alloc,
            checker: _checker,
            state,
            ahead: _ahead,
            budget: _budget,
            number: _number,
            refused: _refused,
        } = self;
        let Some(state) = state else { unreachable!() };
        into_graph(state)
    }

    /// The last net, where the journal is accepted.
    pub fn finish(self) -> Result<Graph, JournalRefusal>
        ensures { Finishes self.refusal self result }
    {
        let Replay {
            alloc,
            checker: _checker,
            state,
            ahead: _ahead,
            budget: _budget,
            number,
            refused,
        } = self;
        if let Some(refusal) = refused {
            return Err(refusal);
        }
        let Some(state) = state else { unreachable!() };
        match end(alloc, state) {
            Ok(graph) => Ok(graph),
            Err(why) => Err(JournalRefusal { number, why }),
        }
    }
}
