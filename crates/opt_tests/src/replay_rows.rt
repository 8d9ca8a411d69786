// `replay` on journals that are whole, cut short or refused: what it puts, and the output that it writes.
use std::alloc::Global;
use std::test::Fail;
use std::thread::Threads;
use test_runs::texts::{
    FOUR_GATES, ONE_GATE, ONE_GATE_JOURNAL, WIRE_JOURNAL, WITH_A_WIRE, WITHOUT,
};
use test_runs::{Refused, ends, hold, refuse_all, shelf};

const LINE: &str = "replay in journal out";

// The first of the two gates is gone, and the other one is still there.
const HALF_WAY: &str =
    ".model r3\n.inputs a b c d\n.outputs k\n.names a c n0_7\n11 1\n.names b n0_7 n0_8\n1- 1\n-1 1\n.names n0_8 d a k\n111 1\n.end\n";

// So many lines of the journal.
fn up_to(alloc: Global, text: &str, lines: u32) -> Result<String, Fail> {
    let mut beginning = String::new(alloc);
    let mut line = 0u32;
    for letter in text.chars() {
        if line < lines {
            beginning.push(letter)?;
        }
        if letter == '\n' {
            line = line.saturating_add(1);
        }
    }
    Ok(beginning)
}

// Whether a replay over the four gates puts this and writes that output.
fn replays<R: Threads + Sync>(
    rt: &R,
    alloc: Global,
    journal: &str,
    put: &str,
    output: &str,
) -> Result<bool, Fail> {
    let mut shelf = shelf(alloc, [FOUR_GATES, "old", journal], &[])?;
    let ends = ends(rt, alloc, LINE, &mut shelf, 0, put)?;
    Ok(ends && hold(&shelf, [FOUR_GATES, output, journal]))
}

// Whether this much of the journal of the added wire gives that output.
fn gives<R: Threads + Sync>(
    rt: &R,
    alloc: Global,
    lines: u32,
    put: &str,
    output: &str,
) -> Result<bool, Fail> {
    let journal = up_to(alloc, WIRE_JOURNAL, lines)?;
    replays(rt, alloc, &journal, put, output)
}

// An addition alone leaves a wire more, and isn't made.
const BEGINNINGS: &[(u32, &str, &str)] = &[
    (21, "replayed 9\n", WITH_A_WIRE),
    (20, "replayed 9\n", WITH_A_WIRE),
    (11, "replayed 9\n", WITH_A_WIRE),
    (
        10,
        "replayed 9\nstopped journal line 11 Truncated\n",
        WITH_A_WIRE,
    ),
    (
        6,
        "replayed 5\nstopped journal line 7 Truncated\n",
        HALF_WAY,
    ),
    (2, "replayed 0\nstopped journal line 3 Truncated\n", WITHOUT),
    (1, "replayed 0\nstopped journal line 2 Truncated\n", WITHOUT),
    (0, "replayed 0\nstopped journal line 1 Truncated\n", WITHOUT),
];

#[test]
fn beginnings_of_a_journal(rt: HostRuntime) -> Result<(), Fail> {
    for (lines, put, output) in BEGINNINGS {
        assert!(rt; gives(&rt, rt.alloc(), *lines, put, output)?, "{lines}");
    }
    Ok(())
}

const STOPPED: &[(&str, &str)] = &[
    (
        "rambo 1 256\nadd 9 2 !0\nend\n",
        "replayed 0\nstopped journal record 1 NotClash item 1\n",
    ),
    (
        "rambo 3 256\nend\n",
        "replayed 0\nstopped journal line 1 BadHeader\n",
    ),
    (
        "rambo 1 256\nadd 9\nend\n",
        "replayed 0\nstopped journal line 2 BadRecord\n",
    ),
];

#[test]
fn what_stops_a_replay(rt: HostRuntime) -> Result<(), Fail> {
    for (journal, put) in STOPPED {
        assert!(rt; replays(&rt, rt.alloc(), journal, put, WITHOUT)?, "{put}");
    }
    Ok(())
}

const REFUSED: &[Refused<'static>] = &[
    (LINE, [ONE_GATE, "old", "-"], 3, "fault shelf\n"),
    (LINE, ["-", "old", ONE_GATE_JOURNAL], 3, "fault shelf\n"),
    (LINE, ["", "old", ONE_GATE_JOURNAL], 1, "text 1:1 NoModel\n"),
    (
        "replay in journal",
        [ONE_GATE, "old", ONE_GATE_JOURNAL],
        2,
        "words refused\n",
    ),
    (
        "replay in in out",
        [ONE_GATE, "old", ONE_GATE_JOURNAL],
        2,
        "words refused\n",
    ),
    (
        "replay in journal in",
        [ONE_GATE, "old", ONE_GATE_JOURNAL],
        2,
        "words refused\n",
    ),
    (
        "replay in journal out --depth 1",
        [ONE_GATE, "old", ONE_GATE_JOURNAL],
        2,
        "words refused\n",
    ),
];

#[test]
fn what_changes_no_file(rt: HostRuntime) -> Result<(), Fail> {
    refuse_all(&rt, rt.alloc(), REFUSED)
}
