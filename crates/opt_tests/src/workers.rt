// Pieces of a closing pass on two workers run at once.
use rm_base::{Gate, MemorySink};
use std::sync::atomic::{AtomicU64, Ordering};
use std::test::Fail;
use test_runs::texts::{ONE_GATE, ONE_GATE_JOURNAL, ONE_GATE_SUMMARY};
use test_runs::{hold, run_through, shelf};

// A gate at which pieces 0 and 1 wait for each other, and which counts those that waited in vain.
#[derive(Drop)]
struct Meeting {
    first: AtomicU64,
    second: AtomicU64,
    missed: AtomicU64,
}

fn meet(mine: &AtomicU64, other: &AtomicU64, missed: &AtomicU64) {
    mine.store(1, Ordering::SeqCst);
    for _ in 0..4_000_000_000u32 {
        if other.load(Ordering::SeqCst) == 1 {
            return;
        }
    }
    missed.store(1, Ordering::SeqCst);
}

impl Gate for Meeting {
    fn pass(&self, piece: usize) {
        match piece {
            0 => meet(&self.first, &self.second, &self.missed),
            1 => meet(&self.second, &self.first, &self.missed),
            _ => {}
        }
    }
}

#[test]
fn two_pieces_meet(rt: HostRuntime) -> Result<(), Fail> {
    let alloc = rt.alloc();
    let line = "opt in out journal --workers 2";
    let mut shelf = shelf(alloc, [ONE_GATE, "-", "-"], &[])?;
    let mut sink = MemorySink::new(alloc, Vec::new(alloc));
    let gate = Meeting {
        first: AtomicU64::new(0),
        second: AtomicU64::new(0),
        missed: AtomicU64::new(0),
    };
    let status = run_through(&rt, alloc, line, &mut shelf, &mut sink, &gate)?;
    assert!(rt; status == 0);
    assert!(rt; sink.written_bytes() == ONE_GATE_SUMMARY.as_bytes());
    assert!(rt; hold(&shelf, [ONE_GATE, ONE_GATE, ONE_GATE_JOURNAL]));
    assert!(rt; gate.missed.load(Ordering::SeqCst) == 0);
    assert!(rt; gate.second.load(Ordering::SeqCst) == 1);
    Ok(())
}
