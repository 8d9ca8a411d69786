//! Tidying of wide gates, whose time shows in the limit of a test.
use rm_base::NoMemory;
use std::alloc::Global;
use std::test::Fail;
use test_nets::{Gate, Wiring, build_net};
use wire_edit::{Room, Trial};

// Numbers of which each comes again after so many.
fn in_turn(alloc: Global, count: u32, names: u32) -> Result<Vec<u32>, NoMemory> {
    let mut drivers = Vec::new(alloc);
    for at in 0..count {
        if names > 0 {
            drivers.push((at % names).wrapping_add(2))?;
        }
    }
    Ok(drivers)
}

// How many steps tidying makes, and how many wires it leaves.
#[derive(Drop)]
struct Tidied {
    steps: u32,
    wires: u32,
}

// Tidies one And over these nodes, which is observed.
fn tidy_all(alloc: Global, sources: u32, drivers: &[u32]) -> Result<Tidied, Fail> {
    let wide = Wiring {
        sources,
        gates: &[Gate::And(drivers)],
        observed: &[sources.wrapping_add(2)],
    };
    let graph = build_net(alloc, &wide)?;
    let room = Room {
        pins: 0,
        nodes: 0,
        steps: 100_000,
    };
    let Ok(mut trial) = Trial::begin(alloc, graph, room) else {
        return Err("no trial".into());
    };
    Ok(tidy(&mut trial))
}

// After how many steps no rule is left, and how many wires.
fn tidy(trial: &mut Trial) -> Tidied {
    let mut steps = 0u32;
    for _ in 0..100_000u32 {
        let Ok(Some(_)) = trial.tidy_one() else {
            break;
        };
        steps = steps.saturating_add(1);
    }
    let wires = trial.graph().wire_count();
    Tidied { steps, wires }
}

#[test]
fn constants_after_sources(rt: HostRuntime) -> Result<(), Fail> {
    let mut drivers = in_turn(rt.alloc(), 10_922, 10_922)?;
    for _ in 0..32_768u32 {
        drivers.push(1)?;
    }
    let end = tidy_all(rt.alloc(), 10_922, &drivers)?;
    assert_eq!(rt; end.steps, 32_768);
    assert_eq!(rt; end.wires, 10_922);
    Ok(())
}

#[test]
fn few_names(rt: HostRuntime) -> Result<(), Fail> {
    let drivers = in_turn(rt.alloc(), 65_536, 1024)?;
    let end = tidy_all(rt.alloc(), 1024, &drivers)?;
    assert_eq!(rt; end.steps, 64_512);
    assert_eq!(rt; end.wires, 1024);
    Ok(())
}

#[test]
fn each_twice(rt: HostRuntime) -> Result<(), Fail> {
    let drivers = in_turn(rt.alloc(), 30_000, 15_000)?;
    let end = tidy_all(rt.alloc(), 15_000, &drivers)?;
    assert_eq!(rt; end.steps, 15_000);
    assert_eq!(rt; end.wires, 15_000);
    Ok(())
}
