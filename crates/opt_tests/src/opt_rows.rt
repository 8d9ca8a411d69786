// `opt` where it ends with 0: what it puts, the output and the journal.
use super::leaving::{is_accepted, leave_all};
use rm_base::MemoryShelf;
use std::alloc::Global;
use std::test::Fail;
use std::thread::Threads;
use test_runs::texts::{
    ABSORBED, CONSTANT_ZERO, FOUR_GATES, MULTIPLEXER, MULTIPLEXER_LEFT, NO_GATES_SUMMARY, ONE_GATE,
    ONE_GATE_JOURNAL, ONE_GATE_SUMMARY, SOURCES, WITH_A_WIRE, WITHOUT, ZERO_ROW,
};
use test_runs::{ends, hold, journal_of, shelf};

fn shelf_of(alloc: Global, input: &str) -> Result<MemoryShelf, Fail> {
    shelf(alloc, [input, "old", "old"], &[])
}

// Whether a run without a journal puts this summary and writes this output, and touches no other file.
fn optimises_alone<R: Threads + Sync>(
    rt: &R,
    alloc: Global,
    input: &str,
    put: &str,
    output: &str,
) -> Result<bool, Fail> {
    let mut kept = shelf_of(alloc, input)?;
    let ran = ends(rt, alloc, "opt in out", &mut kept, 0, put)?;
    Ok(ran && hold(&kept, [input, output, "old"]))
}

// Whether a run puts this summary and writes this output, and a journal that `check` accepts; and whether eight workers put and
// write the same, and a second run over what the first one wrote.
fn optimises<R: Threads + Sync>(
    rt: &R,
    alloc: Global,
    line: &str,
    input: &str,
    put: &str,
    output: &str,
) -> Result<bool, Fail> {
    let mut one = shelf_of(alloc, input)?;
    let ran = ends(rt, alloc, line, &mut one, 0, put)?;
    let mut eight = shelf_of(alloc, input)?;
    let with_eight = format!(in alloc; "{line} --workers 8")?;
    let ran_as_eight = ends(rt, alloc, &with_eight, &mut eight, 0, put)?;
    let accepted = is_accepted(rt, alloc, &mut one)?;
    let journal = journal_of(&one);
    let same = hold(&one, [input, output, journal]) && hold(&eight, [input, output, journal]);
    let ran_again = ends(rt, alloc, line, &mut one, 0, put)?;
    let same_again = hold(&one, [input, output, journal_of(&eight)]);
    Ok(ran && ran_as_eight && accepted && same && ran_again && same_again)
}

// Runs with these words: the input, what is put, and the output. Fails at the first that doesn't come out so.
fn optimise_all<R: Threads + Sync>(
    rt: &R,
    alloc: Global,
    line: &str,
    rows: &[(&str, &str, &str)],
) -> Result<(), Fail> {
    for (input, put, output) in rows {
        if !optimises(rt, alloc, line, input, put, output)? {
            return Err(Fail::new(format_args!("{line}: {put}")));
        }
    }
    Ok(())
}

const FEW_GATES: &[(&str, &str, &str)] = &[
    (ONE_GATE, ONE_GATE_SUMMARY, ONE_GATE),
    (
        ".model r1\n.inputs a b\n.outputs z\n.names a a z\n11 1\n.end\n",
        "wires 2 0\ngates 1 0\nsteps 0 0 3\ntries 0 settled\nfaults 0 0\n",
        ".model r1\n.inputs a b\n.outputs z\n.names a z\n1 1\n.end\n",
    ),
    (
        ABSORBED,
        "wires 4 0\ngates 2 0\nsteps 0 1 5\ntries 0 settled\nfaults 0 0\n",
        ".model r2\n.inputs x y\n.outputs z\n.names x z\n1 1\n.end\n",
    ),
    (
        FOUR_GATES,
        "wires 8 5\ngates 4 2\nsteps 1 2 6\ntries 16 settled\nfaults 10 0\n",
        WITH_A_WIRE,
    ),
    (
        ".model r4\n.inputs a b c d\n.outputs k o\n.names a b c o\n11- 1\n1-1 1\n.names o d k\n11 1\n.end\n",
        "wires 8 8\ngates 4 4\nsteps 0 0 0\ntries 24 settled\nfaults 16 0\n",
        ".model r4\n.inputs a b c d\n.outputs k o\n.names a b n0_6\n11 1\n.names a c n0_7\n11 1\n.names n0_6 n0_7 o\n1- 1\n-1 1\n.names o d k\n11 1\n.end\n",
    ),
    (
        ".model r5\n.inputs a b\n.outputs z\n.names a b z\n00 0\n.end\n",
        "wires 5 5\ngates 4 4\nsteps 0 0 0\ntries 2 settled\nfaults 10 0\n",
        ".model r5\n.inputs a b\n.outputs z\n.names a n0_4\n0 1\n.names b n0_5\n0 1\n.names n0_4 n0_5 n0_6\n11 1\n.names n0_6 z\n0 1\n.end\n",
    ),
    (
        MULTIPLEXER,
        "wires 10 7\ngates 5 4\nsteps 0 1 3\ntries 22 settled\nfaults 14 0\n",
        MULTIPLEXER_LEFT,
    ),
];

#[test]
fn models_of_few_gates(rt: HostRuntime) -> Result<(), Fail> {
    optimise_all(&rt, rt.alloc(), "opt in out journal", FEW_GATES)
}

#[test]
fn models_of_few_gates_without_a_journal(rt: HostRuntime) -> Result<(), Fail> {
    for (input, put, output) in FEW_GATES {
        assert!(rt;
            optimises_alone(&rt, rt.alloc(), input, put, output)?,
            "{put}"
        );
    }
    Ok(())
}

const NO_GATES: &[(&str, &str, &str)] = &[
    (
        ".model r6\n.outputs z\n.names z\n.end\n",
        NO_GATES_SUMMARY,
        CONSTANT_ZERO,
    ),
    (
        ".model r6\n.outputs z\n.names z\n1\n.end\n",
        NO_GATES_SUMMARY,
        ".model r6\n.inputs\n.outputs z\n.names z\n1\n.end\n",
    ),
    (
        ZERO_ROW,
        "wires 1 0\ngates 1 0\nsteps 0 0 2\ntries 0 settled\nfaults 0 0\n",
        CONSTANT_ZERO,
    ),
    (SOURCES, NO_GATES_SUMMARY, SOURCES),
    (
        ".model r23\n.inputs a\n.clock a\n.outputs z\n.names a z\n1 1\n.end\n",
        NO_GATES_SUMMARY,
        ".model r23\n.inputs a\n.outputs z\n.clock a\n.names a z\n1 1\n.end\n",
    ),
];

#[test]
fn models_without_gates(rt: HostRuntime) -> Result<(), Fail> {
    optimise_all(&rt, rt.alloc(), "opt in out journal", NO_GATES)
}

const LATCH: &str =
    ".model r8\n.inputs d e clk\n.outputs q\n.latch nd q re g 2\n.latch q s\n.names clk e g\n11 1\n.names d s nd\n11 1\n.end\n";

const LATCH_SUMMARY: &str = "wires 4 4\ngates 2 2\nsteps 0 0 0\ntries 0 settled\nfaults 8 0\n";

const LATCHES: &[(&str, &str, &str)] = &[
    (LATCH, LATCH_SUMMARY, LATCH),
    (
        ".model r8\n.inputs d e clk\n.outputs q\n.latch nd q re g 2\n.latch   q   s  0\n.names clk e g\n11 1\n.names d s nd\n11 1\n.end\n",
        LATCH_SUMMARY,
        ".model r8\n.inputs d e clk\n.outputs q\n.latch nd q re g 2\n.latch q s 0\n.names clk e g\n11 1\n.names d s nd\n11 1\n.end\n",
    ),
    (
        "# made by hand \\\r\n.model r9\r\n.inputs a \\  \r\nb\r\n.outputs z\r\n.names a b z # and \\\r\n11 1\r\n",
        ONE_GATE_SUMMARY,
        ".model r9\n.inputs a b\n.outputs z\n.names a b z\n11 1\n.end\n",
    ),
];

#[test]
fn latches_and_layout(rt: HostRuntime) -> Result<(), Fail> {
    optimise_all(&rt, rt.alloc(), "opt in out journal", LATCHES)
}

// An And of 40 inputs: a test of a fault gives all of them a value, which a search of 17 edges can't, so the tests are vectors that
// complete what lines lead to.
const WIDE_AND: &str =
    ".model wide\n.inputs i0 i1 i2 i3 i4 i5 i6 i7 i8 i9 i10 i11 i12 i13 i14 i15 i16 i17 i18 i19 i20 i21 i22 i23 i24 i25 i26 i27 i28 i29 i30 i31 i32 i33 i34 i35 i36 i37 i38 i39\n.outputs z\n.names i0 i1 i2 i3 i4 i5 i6 i7 i8 i9 i10 i11 i12 i13 i14 i15 i16 i17 i18 i19 i20 i21 i22 i23 i24 i25 i26 i27 i28 i29 i30 i31 i32 i33 i34 i35 i36 i37 i38 i39 z\n1111111111111111111111111111111111111111 1\n.end\n";

const WIDE_AND_SUMMARY: &str =
    "wires 40 40\ngates 1 1\nsteps 0 0 0\ntries 0 settled\nfaults 80 0\n";

const WIDE: &[(&str, &str, &str)] = &[(WIDE_AND, WIDE_AND_SUMMARY, WIDE_AND)];

#[test]
fn wide_gates_have_tests_without_a_search(rt: HostRuntime) -> Result<(), Fail> {
    let line = "opt in out journal --budget 17 --depth 0";
    optimise_all(&rt, rt.alloc(), line, WIDE)?;
    optimise_all(&rt, rt.alloc(), "opt in out journal --budget 17", WIDE)
}

// Runs over the four gates.
const TRIES: &[(&str, &str, &str)] = &[
    (
        "opt in out journal --tries 0",
        "wires 8 8\ngates 4 4\nsteps 0 0 0\ntries 0 spent\nfaults 16 0\n",
        WITHOUT,
    ),
    (
        "opt --tries=5 -- in out journal",
        "wires 8 8\ngates 4 4\nsteps 0 0 0\ntries 5 spent\nfaults 16 0\n",
        WITHOUT,
    ),
    (
        "opt in out journal --tries 15",
        "wires 8 5\ngates 4 2\nsteps 1 2 6\ntries 15 spent\nfaults 10 0\n",
        WITH_A_WIRE,
    ),
    (
        "opt in out --tries +0016 journal",
        "wires 8 5\ngates 4 2\nsteps 1 2 6\ntries 16 settled\nfaults 10 0\n",
        WITH_A_WIRE,
    ),
];

#[test]
fn tries_that_end(rt: HostRuntime) -> Result<(), Fail> {
    leave_all(&rt, rt.alloc(), FOUR_GATES, TRIES)
}

const SPENT_JOURNAL: &str =
    "rambo 1 1\nspent 4 0 0 /2,1 @ ?\nspent 4 0 1 /2,0 @ ?\nspent 4 1 0 /3,1 @ ?\nspent 4 1 1 /3,0 @ ?\nend\n";

const WHOLE_JOURNAL: &str =
    "rambo 1 8\nhit 4 0 0 11\nhit 4 0 1 01\nhit 4 1 0 11\nhit 4 1 1 10\nend\n";

const SPENT_SUMMARY: &str = "wires 2 2\ngates 1 1\nsteps 0 0 0\ntries 0 settled\nfaults 0 4\n";

const BUDGETS: &[(&str, &str, &str)] = &[
    ("opt in out journal", ONE_GATE_SUMMARY, ONE_GATE_JOURNAL),
    (
        "opt in out journal --budget 1",
        SPENT_SUMMARY,
        SPENT_JOURNAL,
    ),
    (
        "opt --budget=8 -- in out journal",
        ONE_GATE_SUMMARY,
        WHOLE_JOURNAL,
    ),
];

// Whether a run over the one gate puts this and writes this journal, which `check` accepts.
fn writes_journal<R: Threads + Sync>(
    rt: &R,
    alloc: Global,
    line: &str,
    put: &str,
    journal: &str,
) -> Result<bool, Fail> {
    let mut shelf = shelf_of(alloc, ONE_GATE)?;
    let ran = ends(rt, alloc, line, &mut shelf, 0, put)?;
    let written = hold(&shelf, [ONE_GATE, ONE_GATE, journal]);
    let checked = ends(
        rt,
        alloc,
        "check in journal out",
        &mut shelf,
        0,
        "accepted 4\n",
    )?;
    Ok(ran && written && checked)
}

#[test]
fn journals_of_one_gate(rt: HostRuntime) -> Result<(), Fail> {
    for (line, put, journal) in BUDGETS {
        assert!(rt;
            writes_journal(&rt, rt.alloc(), line, put, journal)?,
            "{line}"
        );
    }
    Ok(())
}
