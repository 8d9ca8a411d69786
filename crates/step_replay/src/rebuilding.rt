//! Rebuilding the net of steps.
ghost use Rattle.std.specs.Prelude.{◌≡◌, ◌<◌, ◌≤◌, ◌^◌, IfOk, None, length};
ghost use Rattle.rm_model.specs.Ranks.{first_without_rank};
ghost use Rattle.rm_model.specs.Value.{observed_names, source_names};
ghost use Rattle.rm_model.specs.WellFormed.{IsWellFormed};
ghost use Rattle.gate_graph.specs.Circuit.{net_of};
ghost use Rattle.wire_edit.specs.Tidying.{TidiesTo};
ghost use Rattle.cover_decompose.specs.Count.{decomposed};
ghost use Rattle.cover_decompose.specs.Decomposition.{net_of_model};
ghost use Rattle.cover_decompose.specs.Limits.{most_pins};
ghost use Rattle.step_replay.specs.Rebuilding.{AreAcceptedSteps, IsBest, IsRebuilt, after};

use crate::beginning::{begin, decompose_few};
use crate::making::make_all;
use crate::tidying::tidy;
use cover_decompose::{decompositions_are_formed, decompositions_stand};
use gate_graph::Graph;
use journal_text::{accepted_runs_keep, accepted_steps_keep, runs_join};
use rm_base::NoMemory;
use rm_model::RankedModel;
use std::alloc::Global;
use wire_edit::{Step, Trial, order_tells, tidying_leads};

/// The net of a beginning of the steps, tidied: of those beginnings that leave the fewest wires the longest.
#[derive(Drop)]
pub struct Rebuilt {
    pub graph: Graph,
    /// How many of the steps were made.
    pub taken: usize,
}

// Makes the steps in the decomposition of the model, and gives how many of them lead to where the wires are fewest.
fn go(alloc: Global, model: &RankedModel, steps: &[Step]) -> Result<(Trial, usize), NoMemory>
    requires formed { IsWellFormed model.now }
    requires ranked { first_without_rank model.now ≡ None }
    requires covers { length model.now.covers < 2 ^ 32 }
    requires sources { length (source_names model.now) ≤ 1024 }
    requires observed { length (observed_names model.now) ≤ 4096 }
    requires few { decomposed model.now ≤ most_pins }
    requires run { AreAcceptedSteps (net_of_model model.now) steps.now }
    ensures net { IfOk result (λ p. net_of p.0.graph ≡ after (net_of_model model.now) steps.now) }
    ensures best { IfOk result (λ p. IsBest (net_of_model model.now) steps.now p.1) }
{
    decompositions_stand();
    decompositions_are_formed();
    accepted_steps_keep();
    let graph = decompose_few(alloc, model)?;
    let (mut trial, left) = begin(alloc, graph)?;
    let taken = make_all(alloc, &mut trial, left, steps)?;
    Ok((trial, taken))
}

// How many of the steps lead to where the wires are fewest.
fn best_beginning(alloc: Global, model: &RankedModel, steps: &[Step]) -> Result<usize, NoMemory>
    requires formed { IsWellFormed model.now }
    requires ranked { first_without_rank model.now ≡ None }
    requires covers { length model.now.covers < 2 ^ 32 }
    requires sources { length (source_names model.now) ≤ 1024 }
    requires observed { length (observed_names model.now) ≤ 4096 }
    requires few { decomposed model.now ≤ most_pins }
    requires run { AreAcceptedSteps (net_of_model model.now) steps.now }
    ensures { IfOk result (λ taken. IsBest (net_of_model model.now) steps.now taken) }
{
    let (_trial, taken) = go(alloc, model, steps)?;
    Ok(taken)
}

// The net after the steps, tidied.
fn last_net(alloc: Global, model: &RankedModel, steps: &[Step]) -> Result<Graph, NoMemory>
    requires formed { IsWellFormed model.now }
    requires ranked { first_without_rank model.now ≡ None }
    requires covers { length model.now.covers < 2 ^ 32 }
    requires sources { length (source_names model.now) ≤ 1024 }
    requires observed { length (observed_names model.now) ≤ 4096 }
    requires few { decomposed model.now ≤ most_pins }
    requires run { AreAcceptedSteps (net_of_model model.now) steps.now }
    ensures { IfOk result (λ g. TidiesTo (after (net_of_model model.now) steps.now) (net_of g)) }
{
    let (mut trial, _best) = go(alloc, model, steps)?;
    tidy(alloc, &mut trial)?;
    Ok(trial.commit())
}

/// Makes the steps one after another from the decomposition of the model, up to where the wires are fewest, and tidies the
/// net. It takes twice the time of the steps: which beginning is the best is known at the end alone.
pub fn rebuild(alloc: Global, model: &RankedModel, steps: &[Step]) -> Result<Rebuilt, NoMemory>
    requires formed { IsWellFormed model.now }
    requires ranked { first_without_rank model.now ≡ None }
    requires covers { length model.now.covers < 2 ^ 32 }
    requires sources { length (source_names model.now) ≤ 1024 }
    requires observed { length (observed_names model.now) ≤ 4096 }
    requires few { decomposed model.now ≤ most_pins }
    requires run { AreAcceptedSteps (net_of_model model.now) steps.now }
    ensures rebuilt { IfOk result (λ r. IsRebuilt model.now steps.now r.taken (net_of r.graph)) }
{
    decompositions_stand();
    decompositions_are_formed();
    accepted_runs_keep();
    runs_join();
    order_tells();
    tidying_leads();
    let taken = best_beginning(alloc, model, steps)?;
    let graph = last_net(alloc, model, &steps[..taken])?;
    Ok(Rebuilt { graph, taken })
}
