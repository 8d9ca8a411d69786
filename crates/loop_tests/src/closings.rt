//! Closing passes on small nets, with their journals. The lines are those of an independent slow program.
ghost use Rattle.std.specs.Prelude.{◌≡◌, ◌≤◌, ◌<◌, ◌+◌, IfOk};
ghost use Rattle.gate_graph.specs.Circuit.{live_nodes, net_of, pins_taken};
ghost use Rattle.wire_edit.specs.Order.{IsTidy};

mod depths;
mod meetings;

use closing_pass::{Report, close_faults, closed_are_recordable, write_verdicts};
use gate_graph::Graph;
use journal_text::Stop;
use podem::Verdict;
use rm_base::{Gate, MemoryShelf, NoMemory, OpenGate, Settings};
use std::alloc::Global;
use std::sync::atomic::{AtomicU64, Ordering};
use std::test::Fail;
use std::thread::Threads;
use test_nets::worked::{ABSORBED, FOUR_GATES, ONE_GATE, SIX_GATES, TWO_GATES};
use test_nets::{Wiring, build_net};
use wire_edit::first_rule;

// A net, a budget, how many pins are fixed and other steps made, and the lines that come.
#[derive(Clone, Copy)]
struct Row {
    wiring: Wiring<'static>,
    budget: u32,
    fixed: u32,
    local: u64,
    lines: &'static [&'static str],
}

const ROWS: [Row; 8] = [
    Row {
        wiring: ONE_GATE,
        budget: 256,
        fixed: 0,
        local: 0,
        lines: &[
            "hit 4 0 0 11\n",
            "hit 4 0 1 01\n",
            "hit 4 1 0 11\n",
            "hit 4 1 1 10\n",
        ],
    },
    // So many edges suffice for every search.
    Row {
        wiring: ONE_GATE,
        budget: 8,
        fixed: 0,
        local: 0,
        lines: &[
            "hit 4 0 0 11\n",
            "hit 4 0 1 01\n",
            "hit 4 1 0 11\n",
            "hit 4 1 1 10\n",
        ],
    },
    Row {
        wiring: ONE_GATE,
        budget: 1,
        fixed: 0,
        local: 0,
        lines: &[
            "spent 4 0 0 /2,1 @ ?\n",
            "spent 4 0 1 /2,0 @ ?\n",
            "spent 4 1 0 /3,1 @ ?\n",
            "spent 4 1 1 /3,0 @ ?\n",
        ],
    },
    Row {
        wiring: TWO_GATES,
        budget: 256,
        fixed: 0,
        local: 0,
        lines: &[
            "hit 6 0 0 1101\n",
            "hit 6 0 1 1001\n",
            "hit 6 1 0 1011\n",
            "hit 6 1 1 1001\n",
            "hit 7 0 0 1101\n",
            "hit 7 0 1 1001\n",
            "hit 7 1 0 1101\n",
            "hit 7 1 1 1100\n",
            "hit 7 2 0 1101\n",
            "hit 7 2 1 0101\n",
        ],
    },
    // The search of the first fault spends its budget, and a vector of a later one detects it.
    Row {
        wiring: TWO_GATES,
        budget: 3,
        fixed: 0,
        local: 0,
        lines: &[
            "hit 6 0 0 1101\n",
            "spent 6 0 1 /3,0 /4,0 /5,1 @ ? ? ?\n",
            "spent 6 1 0 /4,1 /3,0 /5,1 @ ? ? ?\n",
            "spent 6 1 1 /4,0 /3,0 /5,1 @ ? ? ?\n",
            "hit 7 0 0 1101\n",
            "spent 7 0 1 /3,0 /4,0 /5,1 @ ? ? ?\n",
            "hit 7 1 0 1101\n",
            "hit 7 1 1 1100\n",
            "hit 7 2 0 1101\n",
            "hit 7 2 1 0101\n",
        ],
    },
    Row {
        wiring: FOUR_GATES,
        budget: 3,
        fixed: 0,
        local: 0,
        lines: &[
            "hit 6 0 0 1101\n",
            "hit 6 0 1 0101\n",
            "hit 6 1 0 1101\n",
            "spent 6 1 1 /3,0 /2,1 /4,0 @ ? ? ?\n",
            "spent 7 0 0 /2,1 /4,1 /3,0 @ ? ? ?\n",
            "hit 7 0 1 0011\n",
            "spent 7 1 0 /4,1 /2,1 /3,0 @ ? ? ?\n",
            "spent 7 1 1 /4,0 /2,1 /3,0 @ ? ? ?\n",
            "hit 8 0 0 1101\n",
            "hit 8 0 1 0001\n",
            "spent 8 1 0 /2,1 /4,1 /3,0 @ ? ? ?\n",
            "hit 8 1 1 0001\n",
            "hit 9 0 0 1101\n",
            "hit 9 0 1 0001\n",
            "hit 9 1 0 1101\n",
            "hit 9 1 1 1100\n",
        ],
    },
    Row {
        wiring: ABSORBED,
        budget: 256,
        fixed: 1,
        local: 5,
        lines: &[
            "fix 4 0 0 o2 h5 i5,0 a !2\n",
            "const 4 0\n",
            "dead 4\n",
            "const 5 1\n",
            "one 5\n",
            "dead 5\n",
        ],
    },
    // The vectors found before the fix are kept, and the first of them that detects a fault is its own from then on.
    Row {
        wiring: SIX_GATES,
        budget: 256,
        fixed: 1,
        local: 5,
        lines: &[
            "fix 10 0 0 o2 h11 i11,0 a !2\n",
            "const 10 0\n",
            "dead 10\n",
            "const 11 1\n",
            "one 11\n",
            "dead 11\n",
            "hit 6 0 0 1101\n",
            "hit 6 0 1 0101\n",
            "hit 6 1 0 1101\n",
            "hit 6 1 1 1001\n",
            "hit 7 0 0 1011\n",
            "hit 7 0 1 0011\n",
            "hit 7 1 0 1011\n",
            "hit 7 1 1 1001\n",
            "hit 8 0 0 1101\n",
            "hit 8 0 1 0101\n",
            "hit 8 1 0 1011\n",
            "hit 8 1 1 0101\n",
            "hit 9 0 0 1101\n",
            "hit 9 0 1 0101\n",
            "hit 9 1 0 1101\n",
            "hit 9 1 1 1100\n",
        ],
    },
];

fn settings(budget: u32, workers: u8) -> Settings
    ensures depth { result.depth ≡ 1 }
    ensures budget { result.budget ≡ budget }
    ensures workers { result.workers ≡ workers }
{
    Settings {
        depth: 1,
        budget,
        tries: 0,
        workers,
        merge: 0,
        perturb: 0,
        work: 0,
    }
}

// A shelf with an empty journal, of which some calls fail.
fn shelf(alloc: Global, failing: &[u64]) -> Result<MemoryShelf, Fail> {
    let mut files = Vec::new(alloc);
    files.push((String::from_str(alloc, "journal")?, Vec::new(alloc)))?;
    Ok(MemoryShelf::new(alloc, files, Vec::from_slice(alloc, failing)?)?)
}

// The net of a table, which is tidy.
fn tidy_net(alloc: Global, wiring: &Wiring) -> Result<Graph, Fail>
    ensures few { IfOk result (λ graph. pins_taken graph + live_nodes graph ≤ 1048576) }
    ensures tidy { IfOk result (λ graph. IsTidy (net_of graph)) }
{
    let graph = build_net(alloc, wiring)?;
    let None = first_rule(&graph) else {
        return Err("not tidy".into());
    };
    Ok(graph)
}

// Closes the faults of a tidy net, and records the verdicts.
fn close<R: Threads + Sync, G: Gate>(
    rt: &R,
    alloc: Global,
    graph: Graph,
    settings: &Settings,
    gate: &G,
    shelf: &mut MemoryShelf,
) -> Result<Report, Stop>
    requires few { pins_taken graph + live_nodes graph ≤ 1048576 }
    requires tidy { IsTidy (net_of graph) }
    requires depth { settings.now.depth ≤ 2 }
    requires budget { 0 < settings.now.budget }
    requires workers { (0 < settings.now.workers) × (settings.now.workers ≤ 64) }
{
    closed_are_recordable();
    let Some(_text) = shelf.file("journal") else {
        return Err(Stop::NoMemory);
    };
    let mut work = 0u64;
    let (last, report) = close_faults(
        rt, alloc, graph, settings, gate, shelf, "journal", &mut work,
    )?;
    last.well_formed();
    write_verdicts(alloc, &report, shelf, "journal")?;
    Ok(report)
}

// The lines before the one of a number, and half of its own.
fn cut_off(alloc: Global, lines: &[&str], number: usize) -> Result<Vec<u8>, NoMemory> {
    let mut text = Vec::new(alloc);
    for at in 0..lines.len() {
        let line = lines[at].as_bytes();
        if at < number {
            text.extend_from_slice(line)?;
        }
        if at == number {
            text.extend_from_slice(&line[..line.len() / 2])?;
        }
    }
    Ok(text)
}

// Whether the row comes out with so many workers.
fn comes_out<R: Threads + Sync>(rt: &R, alloc: Global, row: &Row, workers: u8) -> Result<bool, Fail>
    requires workers { (0 < workers) × (workers ≤ 64) }
{
    if row.budget == 0 {
        return Err("no budget".into());
    }
    let graph = tidy_net(alloc, &row.wiring)?;
    let mut shelf = shelf(alloc, &[])?;
    let settings = settings(row.budget, workers);
    let Ok(report) = close(rt, alloc, graph, &settings, &OpenGate, &mut shelf) else {
        return Ok(false);
    };
    let wanted = cut_off(alloc, row.lines, row.lines.len())?;
    let written = shelf.file("journal") == Some(wanted.as_slice());
    Ok(written && report.fixed == row.fixed && report.local == row.local)
}

#[test]
fn nets_are_closed(rt: HostRuntime) -> Result<(), Fail> {
    for row in &ROWS {
        assert!(rt; comes_out(&rt, rt.alloc(), row, 1)?);
        assert!(rt; comes_out(&rt, rt.alloc(), row, 2)?);
        assert!(rt; comes_out(&rt, rt.alloc(), row, 8)?);
    }
    Ok(())
}

// Whether the journal ends in the middle of the line of a number, where that call fails.
fn stops_at<R: Threads + Sync>(
    rt: &R,
    alloc: Global,
    row: &Row,
    number: usize,
) -> Result<bool, Fail> {
    let graph = tidy_net(alloc, &row.wiring)?;
    let mut shelf = shelf(alloc, &[(number as u64).saturating_add(1)])?;
    let settings = settings(256, 1);
    let got = close(rt, alloc, graph, &settings, &OpenGate, &mut shelf);
    let wanted = cut_off(alloc, row.lines, number)?;
    let written = shelf.file("journal") == Some(wanted.as_slice());
    Ok(written && matches!(got, Err(Stop::Failed)))
}

fn stops_at_each<R: Threads + Sync>(rt: &R, alloc: Global, row: &Row) -> Result<bool, Fail> {
    for number in 0..row.lines.len() {
        if !stops_at(rt, alloc, row, number)? {
            return Ok(false);
        }
    }
    Ok(true)
}

#[test]
fn each_call_fails_in_turn(rt: HostRuntime) -> Result<(), Fail> {
    assert!(rt; stops_at_each(&rt, rt.alloc(), &ROWS[0])?);
    assert!(rt; stops_at_each(&rt, rt.alloc(), &ROWS[7])?);
    Ok(())
}

// A gate that counts its passages.
#[derive(Drop)]
struct Counting(AtomicU64);

impl Gate for Counting {
    fn pass(&self, _piece: usize) {
        self.0.fetch_add(1, Ordering::SeqCst);
    }
}

fn is_detected(verdict: &Verdict) -> bool {
    match verdict {
        Verdict::Detected(_) => true,
        _ => false,
    }
}

// The And of 80 sources.
fn wide_and(alloc: Global) -> Result<Graph, Fail>
    ensures few { IfOk result (λ graph. pins_taken graph + live_nodes graph ≤ 1048576) }
    ensures tidy { IfOk result (λ graph. IsTidy (net_of graph)) }
{
    let mut drivers = Vec::new(alloc);
    for source in 2..82u32 {
        drivers.push(source)?;
    }
    let wiring = Wiring {
        sources: 80,
        gates: &[test_nets::Gate::And(drivers.as_slice())],
        observed: &[82],
    };
    tidy_net(alloc, &wiring)
}

// It has 160 faults. The first 64 are those of the first 32 pins, and one of their vectors, of all ones, detects the
// faults at 0 of the other 48 pins. So the second batch has 48 faults, and there is no third.
#[test]
fn kept_vectors_serve(rt: HostRuntime) -> Result<(), Fail> {
    let alloc = rt.alloc();
    let gate = Counting(AtomicU64::new(0));
    let graph = wide_and(alloc)?;
    let mut shelf = shelf(alloc, &[])?;
    let Ok(report) = close(&rt, alloc, graph, &settings(256, 1), &gate, &mut shelf) else {
        return Err("stopped".into());
    };
    assert_eq!(rt; gate.0.load(Ordering::SeqCst), 2);
    assert_eq!(rt; report.fixed, 0);
    assert_eq!(rt; report.verdicts.len(), 160);
    for entry in report.verdicts.iter() {
        assert!(rt; is_detected(&entry.1));
    }
    Ok(())
}
