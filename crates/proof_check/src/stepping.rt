// What steps show.
ghost use Rattle.std.specs.Prelude.{◌≡◌, ◌≢◌, ◌≤◌, ◌∷◌, [], ℕ, IfErr, None, OnOk, true, false, length};
ghost use Rattle.equal_evidence.specs.Shown.{IsSwept};
ghost use Rattle.gate_graph.specs.Circuit.{net_of};
ghost use Rattle.gate_graph.specs.Holds.{pins_held};
ghost use Rattle.gate_net.specs.Net.{Net, wire_count};
ghost use Rattle.journal_text.specs.Runs.{AreWritable};
ghost use Rattle.journal_text.specs.Text.{IsWritableRecord};
ghost use Rattle.journal_check.specs.declared.refusal.Why.TheVariants as why;
ghost use Rattle.proof_check.specs.Flaws.{IsNoStep, IsRunFlaw};
ghost use Rattle.proof_check.specs.Inner.Stepping.{Advances, HasGone, IsStepFlaw, standing};
ghost use Rattle.proof_check.specs.declared.refusal.JudgeRefusal.TheVariants as refusal;
ghost use Rattle.rm_base.specs.Numbers.{one_number};

use crate::refusal::JudgeRefusal;
use equal_evidence::StepRun;
use gate_graph::Graph;
use journal_check::{JournalRefusal, Replay, Why, records_replay};
use journal_text::Record;
use rm_base::ONE;
use std::alloc::Global;

// Whether the record is a step.
fn is_step(given: &Record) -> bool
    ensures step { result ≡ true → IsNoStep given.now → ⊥ }
    ensures none { result ≡ false → IsNoStep given.now }
{
    match given {
        Record::Step { step: _, tree: _ } => true,
        Record::Hit {
            fault: _,
            vector: _,
        } => false,
        Record::Spent { fault: _, tree: _ } => false,
    }
}

// The refusal of a record, as one of a proof.
fn refusal_of_record(found: JournalRefusal) -> JudgeRefusal
    ensures memory { found.why ≡ why.NoMemory → result ≡ refusal.NoMemory }
    ensures record { found.why ≢ why.NoMemory → result ≡ refusal.Record found }
{
    if found.why == Why::NoMemory {
        return JudgeRefusal::NoMemory;
    }
    JudgeRefusal::Record(found)
}

// Replays one more record, which is to be a step.
fn take_step(replay: &mut Replay, given: &Record, number: u64) -> Result<(), JudgeRefusal>
    requires { IsWritableRecord given.now }
    ensures made { (net : Net) (budget : ℕ) → replay.old ≡ standing net budget number → OnOk result (Advances net budget number given.now replay.new) }
    ensures refused { (net : Net) (budget : ℕ) → replay.old ≡ standing net budget number → IfErr result (λ r. r ≢ refusal.NoMemory → IsStepFlaw net budget number given.now r) }
{
    records_replay();
    if !is_step(given) {
        return Err(JudgeRefusal::NoStep { number });
    }
    match replay.step(given) {
        Ok(()) => Ok(()),
        Err(found) => Err(refusal_of_record(found)),
    }
}

// Replays records, which are to be steps.
fn take_steps(replay: &mut Replay, records: &[Record]) -> Result<(), JudgeRefusal>
    requires { AreWritable records.now }
    ensures made { (net : Net) (budget : ℕ) → replay.old ≡ standing net budget 1 → OnOk result (HasGone net records.now replay.new) }
    ensures refused { (net : Net) (budget : ℕ) → replay.old ≡ standing net budget 1 → IfErr result (λ r. r ≢ refusal.NoMemory → IsRunFlaw net budget records.now r) }
{
    let mut number = 1u64;
    for given in records {
        take_step(replay, given, number)?;
        number += 1;
    }
    Ok(())
}

// Whether the graph observes the constant One alone.
fn observes_one(graph: &Graph) -> bool
    ensures one { result ≡ true → (net_of graph.now).observed ≡ one_number ∷ [] }
    ensures other { result ≡ false → (net_of graph.now).observed ≢ one_number ∷ [] }
{
    if graph.observed_count() != 1 {
        return false;
    }
    graph.observed_at(0) == ONE
}

/// Whether the steps are accepted, one after another, and lead to a net that observes the constant One alone.
pub(crate) fn weigh_run(
    alloc: Global,
    graph: Graph,
    budget: u32,
    run: &StepRun,
) -> Result<(), JudgeRefusal>
    requires wires { wire_count (net_of graph) ≤ 1000000 }
    requires nodes { length (net_of graph).nodes ≤ 1000000 }
    requires observed { length (net_of graph).observed ≤ 131072 }
    requires held { pins_held graph ≡ 0 }
    requires written { AreWritable run.now }
    ensures shown { OnOk result (IsSwept (net_of graph) run.now) }
    ensures refused { IfErr result (λ r. r ≢ refusal.NoMemory → IsRunFlaw (net_of graph) budget run.now r) }
{
    let mut replay = Replay::from_graph(alloc, graph, budget)?;
    take_steps(&mut replay, run.records())?;
    let last = replay.into_graph();
    if observes_one(&last) {
        return Ok(());
    }
    Err(JudgeRefusal::NotOne)
}
