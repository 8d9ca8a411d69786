//! The command `demo`.
ghost use Rattle.std.specs.Prelude.{IfOk, IfErr};
ghost use Rattle.rambo_cli.specs.Demo.{HasShown};
ghost use Rattle.rambo_cli.specs.Inner.Problems.{IsWant};
ghost use Rattle.optimisation.specs.Ranges.{AreSettings};

use crate::problem::Problem;
use demo_generator::demo_model;
use optimisation::{Figures, optimised_model};
use rm_base::{Gate, Settings, SureShelf};
use rm_model::NameKeys;
use std::alloc::Global;
use std::thread::Threads;

/// Optimises the generated model of the seed. Its journal stands in a shelf of its own.
pub(crate) fn show<R: Threads + Sync, G: Gate>(
    rt: &R,
    alloc: Global,
    keys: NameKeys,
    gate: &G,
    seed: u64,
    settings: &Settings,
) -> Result<Figures, Problem>
    requires settings { AreSettings settings.now }
    ensures done { IfOk result (λ figures. HasShown seed settings.now figures) }
    ensures cause { IfErr result IsWant }
{
    let model = demo_model(alloc, keys, seed)?;
    let mut shelf = SureShelf::new(alloc);
    let run = optimised_model(rt, alloc, &model, settings, gate, &mut shelf, "journal")?;
    Ok(run.figures)
}
