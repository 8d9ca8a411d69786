//! Optimising a model under a care model.
ghost use Rattle.std.specs.Prelude.{◌≡◌, ◌<◌, ◌≤◌, ◌+◌, IfErr, IfOk, OnOk};
ghost use Rattle.cover_decompose.specs.Count.{decomposed};
ghost use Rattle.gate_graph.specs.Circuit.{live_nodes, net_of, pins_taken};
ghost use Rattle.gate_net.specs.Net.{wire_count};
ghost use Rattle.graph_to_model.specs.Fits.{Fits};
ghost use Rattle.graph_to_model.specs.NetModel.{model_of_net};
ghost use Rattle.joined_nets.specs.Ready.{IsReady};
ghost use Rattle.recursive_learning.specs.Serving.{IsServing};
ghost use Rattle.refutation.specs.Detected.{HasOpenSet};
ghost use Rattle.rm_base.specs.declared.numbers.Fault.{Fault as FaultValue};
ghost use Rattle.wire_edit.specs.Order.{IsTidy};
ghost use Rattle.wire_edit.specs.Work.{work};
ghost use Rattle.care_opt.specs.Done.{AreRecordsOf, AreTestsOf, IsOptimisedOn};
ghost use Rattle.care_opt.specs.EquivalentOn.{EquivalentOn};
ghost use Rattle.care_opt.specs.Extract.{main_faults};
ghost use Rattle.care_opt.specs.Gated.{IsMainFault};
ghost use Rattle.care_opt.specs.Inner.Kept.{AreKept};
ghost use Rattle.care_opt.specs.Inner.Passing.{IsExtractedFrom, IsSomeGated};
ghost use Rattle.care_opt.specs.Inner.Working.{Works};
ghost use Rattle.care_opt.specs.MainSteps.{IsMainTidy};
ghost use Rattle.care_opt.specs.Refusals.{CanCare, IsCareRefused};

use crate::building::gated_models;
use crate::closing::close_main;
use crate::done::CareDone;
use crate::extracting::extract_graph;
use crate::refusal::CareRefusal;
use crate::sweeping::sweep;
use crate::telling::cares_tell;
use crate::vectors::Vectors;
use crate::working::tidy_main;
use gate_graph::Graph;
use journal_text::{Record, runs_join};
use recursive_learning::refuter::Refuter;
use rm_base::{Made, NoMemory};
use rm_model::{NameKeys, RankedModel};
use std::alloc::Global;
use wire_edit::{BeginRefusal, Room, Trial, live_counted, steps_keep, tidying_ends};

// A trial with room for all that can be removed.
fn begin(alloc: Global, graph: Graph) -> Result<Trial, NoMemory>
    requires { pins_taken graph + live_nodes graph ≤ 1048576 }
    ensures net { IfOk result (λ t. net_of t.graph ≡ net_of graph) }
    ensures space { IfOk result (λ t. work (net_of t.graph) ≤ t.first.steps) }
    ensures few { IfOk result (λ t. work (net_of t.graph) ≤ 4194304) }
{
    tidying_ends();
    graph.well_formed();
    live_counted(&graph);
    let room = Room::enough(&graph);
    match Trial::begin(alloc, graph, room) {
        Ok(trial) => Ok(trial),
        Err(BeginRefusal::NoMemory { graph: _ }) => Err(NoMemory),
    }
}

// All work on the main gates: they are tidied, swept, and closed with a record for each fault.
fn work_on(
    alloc: Global,
    trial: &mut Trial,
    refuter: &mut Refuter,
    vectors: &mut Vectors,
    made: &mut Made,
    bound: u32,
    depth: u8,
    budget: u32,
) -> Result<Vec<Record>, NoMemory>
    requires space { work (net_of trial.old.graph) ≤ trial.old.first.steps }
    requires few { made.old.fixes + made.old.local + work (net_of trial.old.graph) ≤ 4194304 }
    requires depth { depth ≤ 2 }
    requires budget { 0 < budget }
    ensures works { OnOk result (Works bound trial.old trial.new made.old made.new) }
    ensures tidy { OnOk result (IsMainTidy bound (net_of trial.new.graph)) }
    ensures records { IfOk result (λ r. AreRecordsOf (net_of trial.new.graph) budget (main_faults bound (net_of trial.new.graph)) r.items) }
    ensures unrefuted { OnOk result ((fault : FaultValue) → IsMainFault bound (net_of trial.new.graph) fault → HasOpenSet (net_of trial.new.graph) fault depth) }
{
    runs_join();
    tidy_main(trial, made, bound);
    refuter.fit(trial.graph())?;
    vectors.fit(alloc, trial.graph())?;
    sweep(alloc, trial, refuter, vectors, made, bound, depth)?;
    let records = close_main(alloc, trial, refuter, vectors, made, bound, depth, budget)?;
    Ok(records)
}

// The same, with a refuter and vectors of its own.
fn work_alone(
    alloc: Global,
    trial: &mut Trial,
    made: &mut Made,
    bound: u32,
    depth: u8,
    budget: u32,
) -> Result<Vec<Record>, NoMemory>
    requires space { work (net_of trial.old.graph) ≤ trial.old.first.steps }
    requires few { made.old.fixes + made.old.local + work (net_of trial.old.graph) ≤ 4194304 }
    requires depth { depth ≤ 2 }
    requires budget { 0 < budget }
    ensures works { OnOk result (Works bound trial.old trial.new made.old made.new) }
    ensures tidy { OnOk result (IsMainTidy bound (net_of trial.new.graph)) }
    ensures records { IfOk result (λ r. AreRecordsOf (net_of trial.new.graph) budget (main_faults bound (net_of trial.new.graph)) r.items) }
    ensures unrefuted { OnOk result ((fault : FaultValue) → IsMainFault bound (net_of trial.new.graph) fault → HasOpenSet (net_of trial.new.graph) fault depth) }
{
    let mut refuter = Refuter::new(alloc, trial.graph().node_bound())?;
    let mut vectors = Vectors::none(alloc, trial.graph())?;
    work_on(
        alloc,
        trial,
        &mut refuter,
        &mut vectors,
        made,
        bound,
        depth,
        budget,
    )
}

// A count of steps as it is told.
fn step_count(count: u64) -> u32
    requires { count ≤ 4194304 }
    ensures { result ≡ count }
{
    count as u32
}

// Works on a gated net, and takes the extract.
fn optimise_gated(
    alloc: Global,
    graph: Graph,
    bound: u32,
    depth: u8,
    budget: u32,
) -> Result<CareDone, NoMemory>
    requires gated { IsSomeGated bound (net_of graph) }
    requires low { bound ≤ 66562 }
    requires few { pins_taken graph + live_nodes graph ≤ 1048576 }
    requires depth { depth ≤ 2 }
    requires budget { 0 < budget }
    ensures { IfOk result (λ d. IsExtractedFrom bound (net_of graph) depth budget d.graph (record { adds = 0; fixes = d.fixes; local = d.local }) d.records.items) }
{
    steps_keep();
    tidying_ends();
    graph.well_formed();
    let mut trial = begin(alloc, graph)?;
    let mut made = Made {
        adds: 0,
        fixes: 0,
        local: 0,
    };
    let records = work_alone(alloc, &mut trial, &mut made, bound, depth, budget)?;
    let small = extract_graph(alloc, trial.graph(), bound)?;
    Ok(CareDone {
        graph: small,
        records,
        fixes: step_count(made.fixes),
        local: made.local,
    })
}

/// Removes wires of a model that are redundant wherever the care model is 1, and gives what remains with a record for each of
/// its pin faults: a vector that detects it where the care model is 1, or the search that spent its budget. The care model has
/// the model's sources as its inputs, in order, one output, no clocks and no latches. No wire is added: main gates of the gated
/// net, where each observed place is an And with the care output, lose pins whose fault is refuted by learning to the depth, 0
/// to 2, or by a search that enters at most `budget` edges (observability and satisfiability don't-cares; Bartlett et al.,
/// Multilevel logic minimization using implicit don't cares, IEEE Transactions on CAD, 1988).
pub fn optimise_care(
    alloc: Global,
    keys: NameKeys,
    model: &RankedModel,
    care: &RankedModel,
    depth: u8,
    budget: u32,
) -> Result<CareDone, CareRefusal>
    requires ready { IsReady model.now }
    requires care_ready { IsReady care.now }
    requires depth { depth ≤ 2 }
    requires budget { 0 < budget }
    ensures can { OnOk result (CanCare model.now care.now) }
    ensures optimised { IfOk result (λ d. IsOptimisedOn model.now care.now depth budget d.graph (record { adds = 0; fixes = d.fixes; local = d.local }) d.records.items) }
    ensures tidy { IfOk result (λ d. IsTidy (net_of d.graph)) }
    ensures fits { IfOk result (λ d. Fits (net_of d.graph) model.now) }
    ensures fewer { IfOk result (λ d. wire_count (net_of d.graph) ≤ decomposed model.now) }
    ensures equivalent { IfOk result (λ d. EquivalentOn model.now (model_of_net model.now (net_of d.graph)) care.now) }
    ensures tests { IfOk result (λ d. AreTestsOf (net_of d.graph) care.now d.records.items) }
    ensures refused { IfErr result (λ refusal. IsCareRefused model.now care.now refusal) }
{
    cares_tell();
    let (graph, bound) = gated_models(alloc, keys, model, care)?;
    graph.well_formed();
    let done = optimise_gated(alloc, graph, bound, depth, budget)?;
    done.graph.well_formed();
    Ok(done)
}
