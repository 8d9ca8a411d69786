// The graph of a model.
ghost use Rattle.std.specs.Prelude.{◌≡◌, ◌<◌, ◌≤◌, ◌+◌, ◌^◌, ℕ, IfErr, IfOk, None, OnOk, length, map};
ghost use Rattle.cover_decompose.specs.Built.{IsBuilt, readers_in};
ghost use Rattle.cover_decompose.specs.Inner.Chosen.{AtPlaces, IsNumbered};
ghost use Rattle.cover_decompose.specs.Count.{decomposed};
ghost use Rattle.cover_decompose.specs.Decomposition.{last_state, net_of_model};
ghost use Rattle.cover_decompose.specs.Needed.{covers_by_rank, taken};
ghost use Rattle.cover_decompose.specs.Refusals.{IsRefused};
ghost use Rattle.gate_graph.specs.Circuit.{fanouts_of, live_nodes, net_of, pins_taken};
ghost use Rattle.gate_graph.specs.Holds.{pins_held};
ghost use Rattle.rm_model.specs.Ranks.{first_without_rank};
ghost use Rattle.rm_model.specs.Value.{observed_names, source_names};
ghost use Rattle.rm_model.specs.WellFormed.{IsWellFormed};
ghost use Rattle.cover_decompose.specs.Limits.{most_pins};

use crate::build::build;
use crate::laws::decompositions_stand;
use crate::listing::list_nodes;
use crate::numbering::{cover_order, numbers_of, taken_places, wire_count};
use gate_graph::Graph;
use rm_base::NoMemory;
use rm_model::{Model, Numbering, RankedModel};
use std::alloc::Global;
use std::error::Error;
use std::fmt;

/// The most wires that a decomposition may have.
pub const MOST_PINS: u64 = 65536;

/// Why a model is not decomposed.
#[derive(Clone, Copy, Debug, PartialEq, Eq)]
pub enum DecomposeRefusal {
    /// The decomposition has more than 65,536 wires: this many.
    Limit { pins: u64 },
    NoMemory,
}

impl fmt::Display for DecomposeRefusal {
    fn fmt<W: fmt::Write>(&self, f: &mut fmt::Formatter<W>) -> fmt::Result {
        match self {
            DecomposeRefusal::Limit { pins } => write!(f, "{pins} wires are too many"),
            DecomposeRefusal::NoMemory => f.write_str("out of memory"),
        }
    }
}

impl Error for DecomposeRefusal {}

impl From<NoMemory> for DecomposeRefusal {
    ghost use Rattle.std.specs.Prelude.{◌≡◌};
    ghost use Rattle.cover_decompose.specs.declared.model_graph.DecomposeRefusal.TheVariants as refusal;

    ghost from_gives = { λ e p. p ≡ refusal.NoMemory };

    fn from(_error: NoMemory) -> Self {
        DecomposeRefusal::NoMemory
    }
}

fn graph_of(
    alloc: Global,
    model: &Model,
    numbering: &Numbering,
    places: &[usize],
) -> Result<Graph, NoMemory>
    requires formed { IsWellFormed model.now }
    requires ranked { first_without_rank model.now ≡ None }
    requires numbered { IsNumbered model.now (map (λ ks. ks.items) numbering.now.inputs.items) numbering.now.observed.items }
    requires sources { numbering.now.sources ≡ length (source_names model.now) }
    requires few_sources { length (source_names model.now) ≤ 1024 }
    requires few_observed { length (observed_names model.now) ≤ 4096 }
    requires covers { length model.now.covers < 2 ^ 32 }
    requires places { AtPlaces model.now.covers places.now (taken model.now) }
    requires few_pins { decomposed model.now ≤ most_pins }
    ensures { IfOk result (λ g. IsBuilt g (last_state model.now).made (net_of_model model.now).observed) }
{
    decompositions_stand();
    let plan = list_nodes(alloc, model, numbering, places)?;
    let graph = build(
        alloc,
        numbering.sources as usize,
        &plan,
        numbering.observed.as_slice(),
    )?;
    Ok(graph)
}

// The graph of a model whose signals are numbered, over its covers in this order.
fn numbered_graph(
    alloc: Global,
    model: &Model,
    numbering: &Numbering,
    order: &[usize],
) -> Result<Graph, DecomposeRefusal>
    requires formed { IsWellFormed model.now }
    requires ranked { first_without_rank model.now ≡ None }
    requires covers { length model.now.covers < 2 ^ 32 }
    requires few_sources { length (source_names model.now) ≤ 1024 }
    requires observed { length (observed_names model.now) ≤ 4096 }
    requires fits { decomposed model.now < 2 ^ 64 }
    requires numbered { IsNumbered model.now (map (λ ks. ks.items) numbering.now.inputs.items) numbering.now.observed.items }
    requires sources { numbering.now.sources ≡ length (source_names model.now) }
    requires order { AtPlaces model.now.covers order.now (covers_by_rank model.now) }
    ensures built { IfOk result (λ g. IsBuilt g (last_state model.now).made (net_of_model model.now).observed) }
    ensures within { OnOk result (decomposed model.now ≤ most_pins) }
    ensures refused { IfErr result (λ refusal. IsRefused model.now refusal) }
{
    let places = taken_places(alloc, model, numbering, order)?;
    let pins = wire_count(alloc, model, numbering, places.as_slice())?;
    if pins > MOST_PINS {
        return Err(DecomposeRefusal::Limit { pins });
    }
    let graph = graph_of(alloc, model, numbering, places.as_slice())?;
    Ok(graph)
}

/// Makes the graph of a model: its sources, and each needed cover as an Xor of its inputs or an Or of Ands of literals.
pub fn decompose(alloc: Global, model: &RankedModel) -> Result<Graph, DecomposeRefusal>
    requires formed { IsWellFormed model.now }
    requires ranked { first_without_rank model.now ≡ None }
    requires covers { length model.now.covers < 2 ^ 32 }
    requires sources { length (source_names model.now) ≤ 1024 }
    requires observed { length (observed_names model.now) ≤ 4096 }
    requires fits { decomposed model.now < 2 ^ 64 }
    ensures net { IfOk result (λ g. net_of g ≡ net_of_model model.now) }
    ensures fanouts { IfOk result (λ g. (n : ℕ) → fanouts_of g n ≡ readers_in (net_of_model model.now) n) }
    ensures pins { IfOk result (λ g. pins_taken g ≡ decomposed model.now + length (observed_names model.now)) }
    ensures held { IfOk result (λ g. pins_held g ≡ 0) }
    ensures nodes { IfOk result (λ g. live_nodes g ≡ length (net_of_model model.now).nodes) }
    ensures few { IfOk result (λ g. live_nodes g ≤ 66562) }
    ensures epoch { IfOk result (λ g. g.epoch ≡ 0) }
    ensures within { OnOk result (decomposed model.now ≤ most_pins) }
    ensures refused { IfErr result (λ refusal. IsRefused model.now refusal) }
{
    decompositions_stand();
    let order = cover_order(alloc, model)?;
    let graph = numbered_graph(alloc, model.model(), numbers_of(model), order.as_slice())?;
    Ok(graph)
}
