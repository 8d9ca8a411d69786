//! The addition loop, against rows that are worked out by hand.
ghost use Rattle.std.specs.Prelude.{◌≡◌, ◌≤◌, ◌+◌, IfOk};
ghost use Rattle.gate_graph.specs.Circuit.{live_nodes, pins_taken};

mod demo;
mod drawn;
mod fresh;
mod pairs;
mod wide;

use candidate_wires::{Candidate, Outcome, Pair};
use gate_graph::Graph;
use rar_loop::optimise;
use rm_base::{Fault, Made, NodeId, Settings, Shelf, SureShelf};
use std::alloc::Global;
use std::test::Fail;
use test_nets::worked::FOUR_GATES;
use test_nets::{Gate, Wiring, build_net};

/// How many wires there were, what the loop came to, and the text of its records.
#[derive(Drop)]
struct End {
    before: u32,
    graph: Graph,
    outcome: Outcome,
    made: Made,
    text: Vec<u8>,
}

/// Runs the loop on a net, with these settings, behind so much work.
fn optimised_by(
    alloc: Global,
    graph: Graph,
    settings: &Settings,
    before_it: u64,
) -> Result<End, Fail>
    requires few { pins_taken graph + live_nodes graph ≤ 1048576 }
    requires depth { settings.now.depth ≤ 2 }
    ensures few { IfOk result (λ e. pins_taken e.graph + live_nodes e.graph ≤ pins_taken graph + live_nodes graph) }
{
    let before = graph.wire_count();
    let mut work = before_it;
    let mut shelf = SureShelf::new(alloc);
    shelf.create("journal")?;
    let Some(_) = shelf.file("journal") else {
        return Err("not created".into());
    };
    let mut start = None;
    let Ok((graph, outcome, made)) = optimise(
        alloc,
        graph,
        settings,
        &mut shelf,
        "journal",
        &[],
        &mut start,
        &mut work,
    ) else {
        return Err("stopped".into());
    };
    let text = Vec::from_slice(alloc, shelf.file("journal").ok_or("no journal")?)?;
    Ok(End {
        before,
        graph,
        outcome,
        made,
        text,
    })
}

// These tries at this depth, and a limit of work in millions, 0 for none.
fn settings_of(depth: u8, tries: u32, work: u32) -> Settings
    ensures { result.depth ≡ depth }
{
    Settings {
        depth,
        budget: 256,
        tries,
        workers: 1,
        merge: 0,
        perturb: 0,
        work,
    }
}

/// Runs the loop on a net, at this depth with so many tries.
fn optimised_at(alloc: Global, graph: Graph, depth: u8, tries: u32) -> Result<End, Fail>
    requires few { pins_taken graph + live_nodes graph ≤ 1048576 }
    requires depth { depth ≤ 2 }
    ensures few { IfOk result (λ e. pins_taken e.graph + live_nodes e.graph ≤ pins_taken graph + live_nodes graph) }
{
    optimised_by(alloc, graph, &settings_of(depth, tries, 0), 0)
}

/// Runs the loop on a net, at depth 1 with so many tries.
fn optimise_for(alloc: Global, graph: Graph, tries: u32) -> Result<End, Fail>
    requires few { pins_taken graph + live_nodes graph ≤ 1048576 }
    ensures few { IfOk result (λ e. pins_taken e.graph + live_nodes e.graph ≤ pins_taken graph + live_nodes graph) }
{
    optimised_at(alloc, graph, 1, tries)
}

/// Runs the loop on the net of a table, at depth 1 with so many tries.
fn optimise_net(alloc: Global, wiring: &Wiring, tries: u32) -> Result<End, Fail> {
    let graph = build_net(alloc, wiring)?;
    optimise_for(alloc, graph, tries)
}

fn fault(gate: u32, position: u32, value: bool) -> Fault {
    Fault {
        gate: NodeId(gate),
        position,
        value,
    }
}

fn wire(node: u32, fresh: bool, gate: u32) -> Candidate {
    Candidate {
        node: NodeId(node),
        fresh,
        gate: NodeId(gate),
    }
}

fn settled_after(tries: u32) -> Outcome {
    Outcome::Settled { tries }
}

fn outcome_spent(tries: u32, fault: Fault, candidate: Candidate) -> Outcome {
    Outcome::TriesSpent {
        tries,
        at: Pair { fault, candidate },
    }
}

fn counts_made(adds: u64, fixes: u64, local: u64) -> Made {
    Made { adds, fixes, local }
}

// The outcome of the loop on the four gates with 40 tries, by a limit of work in millions and the work before.
fn outcome_behind(alloc: Global, work: u32, before_it: u64) -> Result<Outcome, Fail> {
    let graph = build_net(alloc, &FOUR_GATES)?;
    let end = optimised_by(alloc, graph, &settings_of(1, 40, work), before_it)?;
    Ok(end.outcome)
}

#[test]
fn no_pair_is_tried_once_the_work_reaches_its_limit(rt: HostRuntime) -> Result<(), Fail> {
    let alloc = rt.alloc();
    let at_once = outcome_spent(0, fault(6, 0, true), wire(5, true, 6));
    if outcome_behind(alloc, 1, 1_000_000)? != at_once {
        return Err("tried past the limit".into());
    }
    let without = outcome_behind(alloc, 0, u64::MAX)?;
    if outcome_behind(alloc, 2, 1_000_000)? != without || without == at_once {
        return Err("the limit came too soon".into());
    }
    Ok(())
}

#[test]
fn a_wire_is_added(rt: HostRuntime) -> Result<(), Fail> {
    let rows = [
        (
            0,
            outcome_spent(0, fault(6, 0, true), wire(5, true, 6)),
            counts_made(0, 0, 0),
            8,
        ),
        (
            5,
            outcome_spent(5, fault(6, 0, true), wire(2, false, 9)),
            counts_made(0, 0, 0),
            8,
        ),
        (
            15,
            outcome_spent(15, fault(9, 0, true), wire(4, false, 9)),
            counts_made(1, 2, 6),
            5,
        ),
        (16, settled_after(16), counts_made(1, 2, 6), 5),
        (1000, settled_after(16), counts_made(1, 2, 6), 5),
    ];
    for (tries, outcome, steps, wires) in rows {
        let end = optimise_net(rt.alloc(), &FOUR_GATES, tries)?;
        assert_eq!(rt; end.outcome, outcome);
        assert_eq!(rt; end.made, steps);
        assert_eq!(rt; end.graph.wire_count(), wires);
    }
    Ok(())
}

// The words `add 9 2` and so on, without the trees.
const NINE_STEPS: [&str; 9] = [
    "add 9 2 ",
    "fix 6 0 1 ",
    "const 6 0",
    "one 6",
    "dead 6",
    "fix 7 0 1 ",
    "const 7 0",
    "one 7",
    "dead 7",
];

#[test]
fn its_records(rt: HostRuntime) -> Result<(), Fail> {
    let end = optimise_net(rt.alloc(), &FOUR_GATES, 16)?;
    let text = str::from_utf8(end.text.as_slice())?;
    let mut place = 0usize;
    for line in text.lines() {
        assert!(rt; place < 9);
        assert!(rt; line.starts_with(NINE_STEPS[place]));
        place += 1;
    }
    assert_eq!(rt; place, 9);
    Ok(())
}

// The four gates, of which the third is observed too.
const SUM_OBSERVED: Wiring<'static> = Wiring {
    sources: 4,
    gates: &[
        Gate::And(&[2, 3]),
        Gate::And(&[2, 4]),
        Gate::Or(&[6, 7]),
        Gate::And(&[8, 5]),
    ],
    observed: &[9, 8],
};

// One of 3 and 4 by 2, with a further And of both.
const MULTIPLEXER: Wiring<'static> = Wiring {
    sources: 3,
    gates: &[
        Gate::Not(2),
        Gate::And(&[5, 3]),
        Gate::And(&[2, 4]),
        Gate::And(&[3, 4]),
        Gate::Or(&[6, 7, 8]),
    ],
    observed: &[9],
};

#[test]
fn no_wire_is_added(rt: HostRuntime) -> Result<(), Fail> {
    let end = optimise_net(rt.alloc(), &SUM_OBSERVED, 1000)?;
    assert_eq!(rt; end.outcome, settled_after(24));
    assert_eq!(rt; end.made, counts_made(0, 0, 0));
    assert_eq!(rt; end.graph.wire_count(), 8);
    let end = optimise_net(rt.alloc(), &MULTIPLEXER, 1000)?;
    assert_eq!(rt; end.outcome, settled_after(22));
    assert_eq!(rt; end.made, counts_made(0, 1, 3));
    assert_eq!(rt; end.graph.wire_count(), 7);
    Ok(())
}
