// The model of a seed.
ghost use Rattle.std.specs.Prelude.{◌≡◌, ◌<◌, ◌+◌, ◌^◌, IfOk, None, length};
ghost use Rattle.cover_decompose.specs.Count.{decomposed};
ghost use Rattle.demo_generator.specs.Generator.{model_of_seed};
ghost use Rattle.rm_model.specs.Ranks.{first_without_rank};
ghost use Rattle.rm_model.specs.Value.{observed_names, source_names};
ghost use Rattle.rm_model.specs.WellFormed.{IsWellFormed};
ghost use Rattle.cover_decompose.specs.Limits.{most_pins};

use crate::laws::demo_models_are_ready;
use crate::names::signal_names;
use crate::parts::draw_covers;
use rm_base::NoMemory;
use rm_model::{Listed, Model, NameKeys, RankFault, RankedModel};
use std::alloc::Global;

fn drawn_model(alloc: Global, seed: u64) -> Result<Model, NoMemory>
    ensures { IfOk result (λ m. m ≡ model_of_seed seed) }
{
    let name = String::from_str(alloc, "demo")?;
    let inputs = signal_names(alloc, 0, 16)?;
    let outputs = signal_names(alloc, 68, 8)?;
    let covers = draw_covers(alloc, seed)?;
    Ok(Model {
        name: Listed::from_vec(name.into_bytes()),
        inputs,
        clocks: Listed::new(alloc),
        outputs,
        latches: Listed::new(alloc),
        covers,
    })
}

// A model that has ranks, with them.
fn rank_model(alloc: Global, keys: NameKeys, model: Model) -> Result<RankedModel, NoMemory>
    requires formed { IsWellFormed model }
    requires ranked { first_without_rank model ≡ None }
    requires room { length (source_names model) + length model.covers < 2 ^ 32 }
    ensures { IfOk result (λ m. m ≡ model) }
{
    match RankedModel::new(alloc, keys, model) {
        Ok(ranked) => Ok(ranked),
        Err(RankFault::NoMemory) => Err(NoMemory),
        Err(RankFault::NoRank { cover: _ }) => unreachable!(),
    }
}

/// Draws the example of a seed: sixteen inputs, and sixty covers that each read three signals before them, of which
/// the last eight are the outputs. One cover may read a signal twice.
pub fn demo_model(alloc: Global, keys: NameKeys, seed: u64) -> Result<RankedModel, NoMemory>
    ensures model { IfOk result (λ m. m ≡ model_of_seed seed) }
    ensures formed { IfOk result (λ m. IsWellFormed m) }
    ensures ranked { IfOk result (λ m. first_without_rank m ≡ None) }
    ensures covers { IfOk result (λ m. length m.covers < 2 ^ 32) }
    ensures sources { IfOk result (λ m. length (source_names m) ≡ 16) }
    ensures observed { IfOk result (λ m. length (observed_names m) ≡ 8) }
    ensures fits { IfOk result (λ m. decomposed m < most_pins) }
{
    demo_models_are_ready();
    let model = drawn_model(alloc, seed)?;
    rank_model(alloc, keys, model)
}
