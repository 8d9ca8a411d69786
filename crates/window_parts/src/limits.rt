// Which windows a run could take.
ghost use Rattle.std.specs.Prelude.{◌≡◌, ◌+◌, ◌<◌, ◌≤◌, ◌^◌, ◌↔◌, IfOk, IfSome, IsTrue, None, Ok, length};
ghost use Rattle.rm_model.specs.Ranks.{first_without_rank};
ghost use Rattle.rm_model.specs.Value.{source_names};
ghost use Rattle.rm_model.specs.WellFormed.{IsWellFormed};
ghost use Rattle.window_cut.specs.Laws.{IsStandalone};
ghost use Rattle.window_parts.specs.Part.{IsWithinRun};
ghost use Rattle.window_parts.specs.Inner.Ready.{HasFewSignals, IsReady};

use crate::copying::copy_model;
use cover_decompose::{MOST_PINS, count_wires};
use rm_base::NoMemory;
use rm_model::{Model, NameKeys, RankFault, RankedModel, ranks_exist};
use std::alloc::Global;

const MOST_INPUTS: usize = 1_024;

const MOST_OUTPUTS: usize = 4_096;

const SIGNALS: usize = 4_294_967_296;

// Whether a window has so few inputs, outputs and covers as a run can take.
fn has_few_signals(window: &Model) -> bool
    ensures { IsTrue result ↔ HasFewSignals window.now }
{
    if window.inputs.len() > MOST_INPUTS {
        return false;
    }
    if window.outputs.len() > MOST_OUTPUTS {
        return false;
    }
    window.covers.len() < SIGNALS - window.inputs.len()
}

// A model that has ranks, with them.
fn rank_model(alloc: Global, keys: NameKeys, model: Model) -> Result<RankedModel, NoMemory>
    requires formed { IsWellFormed model }
    requires ranked { first_without_rank model ≡ None }
    requires room { length (source_names model) + length model.covers < 2 ^ 32 }
    ensures { IfOk result (λ m. m ≡ model) }
{
    match RankedModel::new(alloc, keys, model) {
        Ok(ranked) => Ok(ranked),
        Err(RankFault::NoMemory) => Err(NoMemory),
        Err(RankFault::NoRank { cover: _ }) => unreachable!(),
    }
}

// A copy of a window with few signals, with its ranks.
fn rank_window(alloc: Global, keys: NameKeys, window: &Model) -> Result<RankedModel, NoMemory>
    requires standalone { IsStandalone window.now }
    requires few { HasFewSignals window.now }
    ensures { IfOk result (λ m. m ≡ window.now) }
{
    ranks_exist();
    let copy = copy_model(alloc, window)?;
    rank_model(alloc, keys, copy)
}

// A copy of a window with few signals, with its ranks, if it has few wires too.
fn few_wires(alloc: Global, keys: NameKeys, window: &Model) -> Result<Option<RankedModel>, NoMemory>
    requires standalone { IsStandalone window.now }
    requires few { HasFewSignals window.now }
    ensures same { IfOk result (λ found. IfSome found (λ m. m ≡ window.now)) }
    ensures within { IfOk result (λ found. IfSome found (λ _. IsWithinRun window.now)) }
    ensures over { result ≡ Ok None → IsWithinRun window.now → ⊥ }
{
    let ranked = rank_window(alloc, keys, window)?;
    let wires = count_wires(alloc, &ranked)?;
    if wires > MOST_PINS {
        return Ok(None);
    }
    Ok(Some(ranked))
}

/// A copy of a window that a run could take, with its ranks, and None for a window that none could take.
pub(crate) fn within_run(
    alloc: Global,
    keys: NameKeys,
    window: &Model,
) -> Result<Option<RankedModel>, NoMemory>
    requires standalone { IsStandalone window.now }
    ensures same { IfOk result (λ found. IfSome found (λ m. m ≡ window.now)) }
    ensures within { IfOk result (λ found. IfSome found (λ _. IsWithinRun window.now)) }
    ensures ready { IfOk result (λ found. IfSome found (λ m. IsReady m)) }
    ensures over { result ≡ Ok None → IsWithinRun window.now → ⊥ }
{
    ranks_exist();
    if !has_few_signals(window) {
        return Ok(None);
    }
    few_wires(alloc, keys, window)
}
