// Faults on nets of every form of gate, with the lanes worked by hand.
use fault_sim::Lanes;
use gate_graph::{Graph, Question};
use std::alloc::Global;
use std::test::Fail;
use test_nets::{Gate, Wiring, build_net, fault_at};

// Of the sources 2 and 3.
const FORMS: Wiring<'static> = Wiring {
    sources: 2,
    gates: &[
        Gate::And(&[]),
        Gate::Or(&[]),
        // 6 is source 2, and 7 is source 3.
        Gate::And(&[2, 4]),
        Gate::Or(&[3, 5]),
        Gate::And(&[6, 1]),
        Gate::Or(&[7, 0]),
        // 10 differs from 6 where 3 is 0, and nothing reads 12.
        Gate::Or(&[6, 3]),
        Gate::Not(10),
        Gate::And(&[11, 2]),
    ],
    // 8 is observed twice.
    observed: &[8, 9, 8, 11, 6],
};

const TWO: [u64; 2] = [0b1010, 0b1100];

const ALL: u64 = u64::MAX;

// A fault, and the lanes that detect it.
type Row = ((u32, u32, bool), u64);

const ROWS: &[Row] = &[
    // The pins that read a gate without pins.
    ((6, 1, false), 0b1010),
    ((6, 1, true), 0),
    ((7, 1, true), ALL - 0b1100),
    ((7, 1, false), 0),
    // The pins that read a constant.
    ((8, 1, false), 0b1010),
    ((8, 1, true), 0),
    ((9, 1, true), ALL - 0b1100),
    ((9, 1, false), 0),
    // At a gate that is observed, and at one that is observed twice.
    ((6, 0, true), ALL - 0b1010),
    ((8, 0, false), 0b1010),
    // At a Not behind an observed gate; the pin of the Not alone is stuck.
    ((10, 0, true), ALL - 0b1110),
    ((11, 0, false), 0b1110),
    ((11, 0, true), ALL - 0b1110),
    // Of the two pins that read source 3, one is stuck.
    ((10, 1, false), 0b0100),
    // No path leads to an observed node.
    ((12, 0, true), 0),
    ((12, 1, false), 0),
];

// An And of source 2, nine times over, and source 3, and an Or of the same.
const WIDE: Wiring<'static> = Wiring {
    sources: 2,
    gates: &[
        Gate::And(&[2, 2, 2, 2, 2, 2, 2, 2, 2, 3]),
        Gate::Or(&[2, 2, 2, 2, 2, 2, 2, 2, 2, 3]),
    ],
    observed: &[4, 5],
};

const WIDE_ROWS: &[Row] = &[
    ((4, 9, true), 0b0010),
    ((4, 0, true), 0),
    ((4, 8, false), 0b1000),
    ((5, 9, false), 0b0100),
    ((5, 8, false), 0),
    ((5, 4, true), ALL - 0b1110),
];

// The lanes that detect the fault of a row.
fn detecting_lanes(alloc: Global, graph: &Graph, row: &Row) -> Result<u64, Fail> {
    let pin = row.0;
    let fault = fault_at(graph, pin.0, pin.1, pin.2)?;
    if graph.source_count() as usize != TWO.len() {
        return Err("other sources".into());
    }
    let mut lanes = Lanes::new(alloc, graph)?;
    Ok(lanes.detect64(&Question { graph, fault }, &TWO))
}

// Fails at the first row of which other lanes detect the fault.
fn detect_all(alloc: Global, net: &Wiring, rows: &[Row]) -> Result<(), Fail> {
    let graph = build_net(alloc, net)?;
    for row in rows {
        let found = detecting_lanes(alloc, &graph, row)?;
        if found != row.1 {
            return Err(Fail::new(format_args!("at pin {} of {}: {found}", row.0.1, row.0.0)));
        }
    }
    Ok(())
}

#[test]
fn every_form_of_gate(rt: HostRuntime) -> Result<(), Fail> {
    detect_all(rt.alloc(), &FORMS, ROWS)
}

#[test]
fn wide_gates(rt: HostRuntime) -> Result<(), Fail> {
    detect_all(rt.alloc(), &WIDE, WIDE_ROWS)
}
