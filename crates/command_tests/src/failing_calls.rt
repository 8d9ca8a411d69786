// Each call of the shelf failing in turn, and the first put of the sink.
use rm_base::{MemoryShelf, MemorySink, OpenGate};
use std::alloc::Global;
use std::test::Fail;
use std::thread::Threads;
use test_runs::texts::{
    EITHER, FOUR_GATES, ONE_GATE, ONE_GATE_JOURNAL, ONE_GATE_SUMMARY, WIRE_JOURNAL, WITH_A_WIRE,
};
use test_runs::{ends, hold, holds, run_through, shelf};

const OPT: &str = "opt in out journal";

const CHECK: &str = "check in journal out";

const FAULT: &str = "fault shelf\n";

// Whether the file holds so many bytes of the text, or, where none are given, what it held.
fn begins(shelf: &MemoryShelf, name: &str, text: &str, count: Option<usize>) -> bool {
    let Some(bytes) = shelf.file(name) else {
        return false;
    };
    match count {
        Some(count) => bytes.len() == count && text.as_bytes().starts_with(bytes),
        None => bytes == b"old".as_slice(),
    }
}

// The calls of `opt` on one gate: a read, the journal created, six lines, the output created, its text. A failing append adds
// the first half of its bytes.
const CALLS_OF_OPT: &[(u64, Option<usize>, Option<usize>)] = &[
    (1u64, None, None),
    (2, None, None),
    (3, Some(6usize), None),
    (4, Some(18), None),
    (5, Some(31), None),
    (6, Some(44), None),
    (7, Some(57), None),
    (8, Some(66), None),
    (9, Some(68), None),
    (10, Some(68), Some(28usize)),
];

// Whether a run, whose calls don't fail, writes both files whole.
fn ends_whole<R: Threads + Sync>(
    rt: &R,
    alloc: Global,
    shelf: &mut MemoryShelf,
) -> Result<bool, Fail> {
    let ran = ends(rt, alloc, OPT, shelf, 0, ONE_GATE_SUMMARY)?;
    Ok(ran && hold(shelf, [ONE_GATE, ONE_GATE, ONE_GATE_JOURNAL]))
}

// Whether a run with this call failing leaves so many bytes of both files, and a second one writes them whole.
fn fails_of_opt<R: Threads + Sync>(
    rt: &R,
    alloc: Global,
    row: &(u64, Option<usize>, Option<usize>),
) -> Result<bool, Fail> {
    let (call, journal, output) = *row;
    let mut shelf = shelf(alloc, [ONE_GATE, "old", "old"], &[call])?;
    let failed = ends(rt, alloc, OPT, &mut shelf, 3, FAULT)?;
    let begun = begins(&shelf, "journal", ONE_GATE_JOURNAL, journal)
        && begins(&shelf, "out", ONE_GATE, output);
    let kept = holds(&shelf, "in", ONE_GATE);
    Ok(failed && begun && kept && ends_whole(rt, alloc, &mut shelf)?)
}

#[test]
fn calls_of_opt(rt: HostRuntime) -> Result<(), Fail> {
    for row in CALLS_OF_OPT {
        assert!(rt; fails_of_opt(&rt, rt.alloc(), row)?, "call {}", row.0);
    }
    let mut shelf = shelf(rt.alloc(), [ONE_GATE, "old", "old"], &[11])?;
    assert!(rt; ends_whole(&rt, rt.alloc(), &mut shelf)?);
    Ok(())
}

// The calls without a journal: a read, the output created, its text.
const CALLS_WITHOUT_JOURNAL: &[(u64, Option<usize>)] = &[
    (1u64, None),
    (2, None),
    (3, Some(28usize)),
];

// Whether a run with this call failing leaves so many bytes of the output, and no other file changed.
fn fails_without_journal<R: Threads + Sync>(
    rt: &R,
    alloc: Global,
    call: u64,
    output: Option<usize>,
) -> Result<bool, Fail> {
    let mut shelf = shelf(alloc, [ONE_GATE, "old", "old"], &[call])?;
    let failed = ends(rt, alloc, "opt in out", &mut shelf, 3, FAULT)?;
    let kept = holds(&shelf, "in", ONE_GATE) && holds(&shelf, "journal", "old");
    Ok(failed && kept && begins(&shelf, "out", ONE_GATE, output))
}

#[test]
fn calls_of_opt_without_a_journal(rt: HostRuntime) -> Result<(), Fail> {
    for (call, output) in CALLS_WITHOUT_JOURNAL {
        assert!(rt;
            fails_without_journal(&rt, rt.alloc(), *call, *output)?,
            "call {call}"
        );
    }
    let mut shelf = shelf(rt.alloc(), [ONE_GATE, "old", "old"], &[4])?;
    assert!(rt;
        ends(
            &rt,
            rt.alloc(),
            "opt in out",
            &mut shelf,
            0,
            ONE_GATE_SUMMARY
        )?
    );
    assert!(rt; hold(&shelf, [ONE_GATE, ONE_GATE, "old"]));
    Ok(())
}

// Those of `check`: the input, the journal and its end, and the output. A second run has as many.
const CALLS_OF_CHECK: &[(u64, u8, &str)] = &[
    (1u64, 3u8, "fault shelf\n"),
    (2, 3, "fault shelf\n"),
    (3, 3, "fault shelf\n"),
    (4, 3, "fault shelf\n"),
    (9, 0, "accepted 19\n"),
];

// Whether a run with this call failing ends so and changes no file, and a second one accepts the journal.
fn fails_of_check<R: Threads + Sync>(
    rt: &R,
    alloc: Global,
    call: u64,
    status: u8,
    put: &str,
) -> Result<bool, Fail> {
    let texts = [FOUR_GATES, WITH_A_WIRE, WIRE_JOURNAL];
    let mut shelf = shelf(alloc, texts, &[call])?;
    let ended = ends(rt, alloc, CHECK, &mut shelf, status, put)?;
    let kept = hold(&shelf, texts);
    let again = ends(rt, alloc, CHECK, &mut shelf, 0, "accepted 19\n")?;
    Ok(ended && kept && again)
}

#[test]
fn calls_of_check(rt: HostRuntime) -> Result<(), Fail> {
    for (call, status, put) in CALLS_OF_CHECK {
        assert!(rt;
            fails_of_check(&rt, rt.alloc(), *call, *status, put)?,
            "call {call}"
        );
    }
    Ok(())
}

// A command, the files before it, what is put, and the files after it.
#[derive(Clone, Copy)]
struct Put {
    line: &'static str,
    before: [&'static str; 3],
    put: &'static str,
    after: [&'static str; 3],
}

// The first put fails: half of what it was handed is there.
const PUTS: &[Put] = &[
    Put {
        line: "opt in out journal",
        before: [ONE_GATE, "old", "old"],
        put: "wires 2 2\ngates 1 1\nsteps 0 0",
        after: [ONE_GATE, ONE_GATE, ONE_GATE_JOURNAL],
    },
    Put {
        line: "check in journal out",
        before: [FOUR_GATES, WITH_A_WIRE, WIRE_JOURNAL],
        put: "accept",
        after: [FOUR_GATES, WITH_A_WIRE, WIRE_JOURNAL],
    },
    Put {
        line: "check in journal out",
        before: [ONE_GATE, ONE_GATE, ONE_GATE_JOURNAL],
        put: "accep",
        after: [ONE_GATE, ONE_GATE, ONE_GATE_JOURNAL],
    },
    Put {
        line: "check in journal out",
        before: [FOUR_GATES, "old", "rambo 2 256\nend\n"],
        put: "journal line",
        after: [FOUR_GATES, "old", "rambo 2 256\nend\n"],
    },
    Put {
        line: "check in journal out",
        before: [ONE_GATE, "-", "-"],
        put: "fault ",
        after: [ONE_GATE, "-", "-"],
    },
    Put {
        line: "tests in journal out patterns",
        before: [ONE_GATE, ONE_GATE, ONE_GATE_JOURNAL],
        put: "patterns 3 faults",
        after: [ONE_GATE, ONE_GATE, ONE_GATE_JOURNAL],
    },
    Put {
        line: "equal in out journal",
        before: [ONE_GATE, EITHER, "old"],
        put: "diffe",
        after: [ONE_GATE, EITHER, "rambo-equal 1 256\ndiffer 10\n"],
    },
    Put {
        line: "opt in",
        before: [ONE_GATE, "old", "old"],
        put: "words r",
        after: [ONE_GATE, "old", "old"],
    },
];

fn fails_to_put<R: Threads + Sync>(rt: &R, alloc: Global, row: &Put) -> Result<bool, Fail> {
    let mut shelf = shelf(alloc, row.before, &[])?;
    let mut sink = MemorySink::new(alloc, Vec::from_slice(alloc, &[1u64])?);
    let status = run_through(rt, alloc, row.line, &mut shelf, &mut sink, &OpenGate)?;
    let put = sink.written_bytes() == row.put.as_bytes();
    Ok(status == 3 && put && hold(&shelf, row.after))
}

#[test]
fn failing_puts(rt: HostRuntime) -> Result<(), Fail> {
    for row in PUTS {
        assert!(rt;
            fails_to_put(&rt, rt.alloc(), row)?,
            "{} {}",
            row.line,
            row.put
        );
    }
    Ok(())
}
