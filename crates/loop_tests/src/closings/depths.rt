// The depth of a batch. Its searches may enter one edge, so a fault that isn't refuted at the depth is spent.
ghost use Rattle.std.specs.Prelude.{◌≤◌};

use closing_pass::batch;
use podem::Verdict;
use rm_base::{OpenGate, Settings};
use std::alloc::Global;
use std::test::Fail;
use std::thread::Threads;
use test_nets::worked::ABSORBED;
use test_nets::{Gate, Wiring, build_net, fault_at};

// f and all sums of a or a' and b or b'. If f stuck at 1 is detected, each sum is 1, and by lines alone nothing follows. But
// if a is 1, the sums with a' give b and b': a clash; and so if b is. These are what may make a + b 1.
const ALL_SUMS_OF_TWO: Wiring<'static> = Wiring {
    sources: 3,
    gates: &[
        Gate::Not(2),
        Gate::Not(3),
        Gate::Or(&[2, 3]),
        Gate::Or(&[2, 6]),
        Gate::Or(&[5, 3]),
        Gate::Or(&[5, 6]),
        Gate::And(&[7, 8, 9, 10, 4]),
    ],
    observed: &[11],
};

// The same of a, b and c. If a is 1, the sums with a' are left as all sums of b and c, of which lines give nothing: what a, b
// and c lead to has nothing in common. But with justifications that are closed at depth 1, each of them clashes as above.
const ALL_SUMS_OF_THREE: Wiring<'static> = Wiring {
    sources: 4,
    gates: &[
        Gate::Not(2),
        Gate::Not(3),
        Gate::Not(4),
        Gate::Or(&[2, 3, 4]),
        Gate::Or(&[2, 3, 8]),
        Gate::Or(&[2, 7, 4]),
        Gate::Or(&[2, 7, 8]),
        Gate::Or(&[6, 3, 4]),
        Gate::Or(&[6, 3, 8]),
        Gate::Or(&[6, 7, 4]),
        Gate::Or(&[6, 7, 8]),
        Gate::And(&[9, 10, 11, 12, 13, 14, 15, 16, 5]),
    ],
    observed: &[17],
};

// A net, a fault of it, a depth, and whether the fault is refuted there.
#[derive(Clone, Copy)]
struct Row {
    wiring: Wiring<'static>,
    fault: (u32, u32, bool),
    depth: u8,
    refuted: bool,
}

macro_rules! row {
    ($wiring:ident $gate:literal $position:literal $value:literal $depth:literal $refuted:literal) => {
        Row {
            wiring: $wiring,
            fault: ($gate, $position, $value),
            depth: $depth,
            refuted: $refuted,
        }
    };
}

const ROWS: [Row; 6] = [
    // a + a b: that the first pin of a b is stuck at 0 is refuted by lines alone.
    row!(ABSORBED 4 0 false 0 true),
    row!(ALL_SUMS_OF_TWO 11 4 true 0 false),
    row!(ALL_SUMS_OF_TWO 11 4 true 1 true),
    row!(ALL_SUMS_OF_THREE 17 8 true 0 false),
    row!(ALL_SUMS_OF_THREE 17 8 true 1 false),
    row!(ALL_SUMS_OF_THREE 17 8 true 2 true),
];

// Whether the fault of the row is refuted, or else spent, as it says.
fn is_right<R: Threads + Sync>(rt: &R, alloc: Global, row: &Row) -> Result<bool, Fail> {
    if row.depth > 2 {
        return Err("too deep".into());
    }
    let graph = build_net(alloc, &row.wiring)?;
    let fault = fault_at(&graph, row.fault.0, row.fault.1, row.fault.2)?;
    let settings = Settings {
        depth: row.depth,
        budget: 1,
        tries: 0,
        workers: 1,
        merge: 0,
        perturb: 0,
        work: 0,
    };
    let verdicts = batch(rt, alloc, &graph, &[fault], &settings, &OpenGate)?;
    match verdicts.first() {
        Some(Verdict::Refuted(_)) => Ok(row.refuted),
        Some(Verdict::Spent(_)) => Ok(!row.refuted),
        _ => Ok(false),
    }
}

#[test]
fn a_batch_refutes_at_its_depth(rt: HostRuntime) -> Result<(), Fail> {
    for at in 0..ROWS.len() {
        assert!(rt; is_right(&rt, rt.alloc(), &ROWS[at])?, "at row {at}");
    }
    Ok(())
}
