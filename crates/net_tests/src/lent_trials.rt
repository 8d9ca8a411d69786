//! Many trials on one workspace, each compared with a fresh one.
use crate::trial_scripts::{begun_tidy, list_all, play};
use rm_base::{NoMemory, NodeId};
use std::alloc::Global;
use std::test::Fail;
use wire_edit::{Step, Trial};

// Whether two trials have the same graph, steps and room.
fn same(alloc: Global, one: &Trial, other: &Trial) -> Result<bool, NoMemory> {
    let here = list_all(alloc, one.graph())?;
    let there = list_all(alloc, other.graph())?;
    if here.as_slice() != there.as_slice() {
        return Ok(false);
    }
    if one.graph().epoch() != other.graph().epoch() {
        return Ok(false);
    }
    if one.steps() != other.steps() {
        return Ok(false);
    }
    Ok(one.room() == other.room())
}

// Plays the same script on both, and then some of the tidying order, and whether they answer the same and end the same.
fn plays_alike(
    alloc: Global,
    one: &mut Trial,
    other: &mut Trial,
    seed: u32,
) -> Result<bool, NoMemory> {
    if play(one, seed, 40) != play(other, seed, 40) {
        return Ok(false);
    }
    for _ in 0..10u32 {
        if one.tidy_one() != other.tidy_one() {
            return Ok(false);
        }
    }
    same(alloc, one, other)
}

// Whether a trial that is lent and one that has just begun are the same before and after a script. Then the first is taken
// back.
fn round(alloc: Global, lent: &mut Trial, begun: Trial, seed: u32) -> Result<bool, NoMemory> {
    let mut fresh = begun;
    let before = same(alloc, lent, &fresh)?;
    let after = plays_alike(alloc, lent, &mut fresh, seed)?;
    lent.take_back();
    Ok(before && after)
}

// The same beside a trial that has just begun.
fn first_round(alloc: Global, lent: &mut Trial, seed: u32) -> Result<bool, Fail> {
    let fresh = begun_tidy(alloc)?;
    Ok(round(alloc, lent, fresh, seed)?)
}

// The first seed, if any, at which the trials aren't the same.
fn first_other(alloc: Global, lent: &mut Trial, seeds: u32) -> Result<Option<u32>, Fail> {
    for seed in 0..seeds {
        if !first_round(alloc, lent, seed)? {
            return Ok(Some(seed));
        }
    }
    Ok(None)
}

#[test]
fn a_thousand_trials(rt: HostRuntime) -> Result<(), Fail> {
    let mut lent = begun_tidy(rt.alloc())?;
    let other = first_other(rt.alloc(), &mut lent, 1_000)?;
    assert!(rt; other.is_none(), "{other:?}");
    Ok(())
}

// Fixes the first pin of a gate and keeps that, tidied first or not; whether the fix was made.
fn fix_and_keep(trial: &mut Trial, gate: u32, tidied: bool) -> bool {
    let fix = Step::Fix {
        gate: NodeId(gate),
        position: 0,
        value: true,
    };
    if trial.apply(fix).is_err() {
        return false;
    }
    if tidied {
        for _ in 0..10u32 {
            let _step = trial.tidy_one();
        }
    }
    trial.keep();
    true
}

// A trial in which that is done.
fn fixed_and_kept(alloc: Global, gate: u32, tidied: bool) -> Result<Trial, Fail> {
    let mut trial = begun_tidy(alloc)?;
    if !fix_and_keep(&mut trial, gate, tidied) {
        return Err("no fix".into());
    }
    Ok(trial)
}

// A round beside a new trial in which the same is kept.
fn next_round(
    alloc: Global,
    lent: &mut Trial,
    gate: u32,
    tidied: bool,
    seed: u32,
) -> Result<bool, Fail> {
    let fresh = fixed_and_kept(alloc, gate, tidied)?;
    Ok(round(alloc, lent, fresh, seed)?)
}

fn all_rounds(alloc: Global, lent: &mut Trial, gate: u32, tidied: bool) -> Result<bool, Fail> {
    for seed in 0..50u32 {
        if !next_round(alloc, lent, gate, tidied, seed)? {
            return Ok(false);
        }
    }
    Ok(true)
}

// After a fix is kept, each trial that is taken back finds what a new one finds.
fn goes_on(alloc: Global, gate: u32, tidied: bool) -> Result<bool, Fail> {
    let mut lent = fixed_and_kept(alloc, gate, tidied)?;
    Ok(lent.room().steps == 40 && all_rounds(alloc, &mut lent, gate, tidied)?)
}

#[test]
fn from_where_it_is(rt: HostRuntime) -> Result<(), Fail> {
    for gate in 6..10u32 {
        assert!(rt; goes_on(rt.alloc(), gate, false)?);
        assert!(rt; goes_on(rt.alloc(), gate, true)?);
    }
    Ok(())
}
