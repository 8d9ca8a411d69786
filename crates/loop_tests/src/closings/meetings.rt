// Pieces of a batch: they run at once, and each passes the gate once.
ghost use Rattle.std.specs.Prelude.{◌≡◌, ◌≤◌, ◌<◌, IfOk, length};
ghost use Rattle.gate_graph.specs.Circuit.{net_of};
ghost use Rattle.closing_pass.specs.Verdicts.{HavePins};

use super::settings;
use closing_pass::batch;
use gate_graph::{Graph, faults_of};
use podem::Verdict;
use rm_base::{Fault, Gate};
use std::alloc::Global;
use std::sync::atomic::{AtomicU64, Ordering};
use std::test::Fail;
use std::thread::Threads;
use test_nets::build_net;
use test_nets::worked::FOUR_GATES;

// The first faults of the graph, so many and at most 64.
fn first_faults(alloc: Global, graph: &Graph, most: usize) -> Result<Vec<Fault>, Fail>
    ensures pins { IfOk result (λ v. HavePins (net_of graph.now) v.items) }
    ensures few { IfOk result (λ v. length v.items ≤ 64) }
{
    let mut faults = faults_of(alloc, graph)?;
    faults.truncate(most.min(64));
    Ok(faults)
}

// A gate at which pieces 0 and 1 look for each other.
#[derive(Drop)]
struct Meeting {
    raised: [AtomicU64; 2],
    seen: [AtomicU64; 2],
}

impl Meeting {
    fn new() -> Meeting {
        Meeting {
            raised: [AtomicU64::new(0), AtomicU64::new(0)],
            seen: [AtomicU64::new(0), AtomicU64::new(0)],
        }
    }

    // Raises the one flag, and looks for the other.
    fn meet(&self, mine: usize, other: usize)
        requires mine { mine ≤ 1 }
        requires other { other ≤ 1 }
    {
        self.raised[mine].store(1, Ordering::SeqCst);
        for _ in 0..100_000_000u32 {
            if self.raised[other].load(Ordering::SeqCst) == 1 {
                self.seen[mine].store(1, Ordering::SeqCst);
                return;
            }
        }
    }
}

impl Gate for Meeting {
    fn pass(&self, piece: usize) {
        match piece {
            0 => self.meet(0, 1),
            1 => self.meet(1, 0),
            _ => {}
        }
    }
}

#[test]
fn two_pieces_meet(rt: HostRuntime) -> Result<(), Fail> {
    let graph = build_net(rt.alloc(), &FOUR_GATES)?;
    let faults = first_faults(rt.alloc(), &graph, 64)?;
    assert_eq!(rt; faults.len(), 16);
    let gate = Meeting::new();
    let verdicts = batch(
        &rt,
        rt.alloc(),
        &graph,
        faults.as_slice(),
        &settings(256, 2),
        &gate,
    )?;
    assert_eq!(rt; verdicts.len(), 16);
    assert_eq!(rt; gate.seen[0].load(Ordering::SeqCst), 1);
    assert_eq!(rt; gate.seen[1].load(Ordering::SeqCst), 1);
    Ok(())
}

// A gate that counts, in four bits for each piece, how often it passed.
#[derive(Drop)]
struct Counting(AtomicU64);

impl Gate for Counting {
    fn pass(&self, piece: usize) {
        if piece < 16 {
            self.0.fetch_add(1u64 << (4 * piece), Ordering::SeqCst);
        }
    }
}

// How so many faults pass with that many workers.
fn pass_with<R: Threads + Sync>(
    rt: &R,
    alloc: Global,
    graph: &Graph,
    most: usize,
    workers: u8,
) -> Result<u64, Fail>
    requires workers { (0 < workers) × (workers ≤ 64) }
{
    let faults = first_faults(alloc, graph, most)?;
    let gate = Counting(AtomicU64::new(0));
    let verdicts = batch(
        rt,
        alloc,
        graph,
        faults.as_slice(),
        &settings(256, workers),
        &gate,
    )?;
    if verdicts.len() == most {
        Ok(gate.0.load(Ordering::SeqCst))
    } else {
        Err("verdicts".into())
    }
}

#[test]
fn each_piece_passes_once(rt: HostRuntime) -> Result<(), Fail> {
    let graph = build_net(rt.alloc(), &FOUR_GATES)?;
    assert_eq!(rt; pass_with(&rt, rt.alloc(), &graph, 16, 1)?, 0x1);
    assert_eq!(rt; pass_with(&rt, rt.alloc(), &graph, 16, 5)?, 0x11111);
    assert_eq!(rt; pass_with(&rt, rt.alloc(), &graph, 16, 8)?, 0x11111111);
    assert_eq!(rt; pass_with(&rt, rt.alloc(), &graph, 3, 64)?, 0x111);
    assert_eq!(rt; pass_with(&rt, rt.alloc(), &graph, 0, 2)?, 0);
    Ok(())
}
