// `tests` on journals and outputs: what it puts and the patterns that it writes. Where it refuses, it writes nothing.
use rm_base::MemoryShelf;
use std::alloc::Global;
use std::test::Fail;
use std::thread::Threads;
use test_runs::texts::{
    FOUR_GATES, ONE_GATE, ONE_GATE_JOURNAL, ONE_GATE_PATTERNS, WIRE_JOURNAL, WIRE_PATTERNS,
    WITH_A_WIRE,
};
use test_runs::{ends, hold, shelf};

const LINE: &str = "tests in journal out patterns";

// The text of the patterns, or `-` where there is none.
fn patterns_of(shelf: &MemoryShelf) -> &str {
    match shelf.file("patterns") {
        Some(bytes) => std::str::from_utf8(bytes).unwrap_or("?"),
        None => "-",
    }
}

// The input, the output and the journal, the status, what is put, and the patterns.
#[derive(Clone, Copy)]
struct Row {
    texts: [&'static str; 3],
    status: u8,
    put: &'static str,
    patterns: &'static str,
}

const CUT_SHORT: &str =
    "rambo 1 1\nspent 4 0 0 /2,1 @ ?\nhit 4 0 1 01\nspent 4 1 0 /3,1 @ ?\nhit 4 1 1 10\nend\n";

const CUT_SHORT_PATTERNS: &str =
    "tests 1\nsources a b\nobserved z\npattern 0 10\npattern 1 01\nundecided z 0 a 0\nfault z 0 a 1 1\nundecided z 1 b 0\nfault z 1 b 1 0\npatterns 2\nfaults 2 2 50.00\nclasses 2 1 66.66\n";

const ROWS: &[Row] = &[
    Row {
        texts: [ONE_GATE, ONE_GATE, ONE_GATE_JOURNAL],
        status: 0,
        put: "patterns 3 faults 4 0 classes 3 0\n",
        patterns: ONE_GATE_PATTERNS,
    },
    Row {
        texts: [FOUR_GATES, WITH_A_WIRE, WIRE_JOURNAL],
        status: 0,
        put: "patterns 5 faults 10 0 classes 6 0\n",
        patterns: WIRE_PATTERNS,
    },
    Row {
        texts: [ONE_GATE, ONE_GATE, CUT_SHORT],
        status: 0,
        put: "patterns 2 faults 2 2 classes 2 1\n",
        patterns: CUT_SHORT_PATTERNS,
    },
    Row {
        texts: ["", ONE_GATE, ONE_GATE_JOURNAL],
        status: 1,
        put: "text 1:1 NoModel\n",
        patterns: "-",
    },
    Row {
        texts: [ONE_GATE, "-", ONE_GATE_JOURNAL],
        status: 3,
        put: "fault shelf\n",
        patterns: "-",
    },
    Row {
        texts: [ONE_GATE, ONE_GATE, "-"],
        status: 3,
        put: "fault shelf\n",
        patterns: "-",
    },
    Row {
        texts: [ONE_GATE, FOUR_GATES, ONE_GATE_JOURNAL],
        status: 6,
        put: "netlist 9\n",
        patterns: "-",
    },
    Row {
        texts: [ONE_GATE, ONE_GATE, "rambo 1 256\nend\n"],
        status: 6,
        put: "journal record 1 FaultMissing 4 0 0\n",
        patterns: "-",
    },
];

// Whether a run puts and writes what the row says, and changes no other file.
fn writes<R: Threads + Sync>(rt: &R, alloc: Global, row: &Row) -> Result<bool, Fail> {
    let mut shelf = shelf(alloc, row.texts, &[])?;
    let ran = ends(rt, alloc, LINE, &mut shelf, row.status, row.put)?;
    Ok(ran && hold(&shelf, row.texts) && patterns_of(&shelf) == row.patterns)
}

#[test]
fn written_patterns(rt: HostRuntime) -> Result<(), Fail> {
    for row in ROWS {
        assert!(rt; writes(&rt, rt.alloc(), row)?, "{}", row.put);
    }
    Ok(())
}

// The calls of `tests` on one gate: a read, the journal and its end, the output, the patterns created, their text. A failing
// append adds the first half of its bytes.
const CALLS: &[(u64, Option<usize>)] = &[
    (1u64, None),
    (2, None),
    (3, None),
    (4, None),
    (5, None),
    (6, Some(91usize)),
];

// Whether the file of the patterns holds so many bytes of the text, or isn't there.
fn begins(shelf: &MemoryShelf, count: Option<usize>) -> bool {
    match count {
        Some(count) => {
            let text = patterns_of(shelf);
            text.len() == count && ONE_GATE_PATTERNS.starts_with(text)
        }
        None => shelf.file("patterns").is_none(),
    }
}

// Whether a run with this call failing leaves so many bytes of the patterns, and no other file changed.
fn leaves_beginning<R: Threads + Sync>(
    rt: &R,
    alloc: Global,
    call: u64,
    count: Option<usize>,
) -> Result<bool, Fail> {
    let texts = [ONE_GATE, ONE_GATE, ONE_GATE_JOURNAL];
    let mut shelf = shelf(alloc, texts, &[call])?;
    let failed = ends(rt, alloc, LINE, &mut shelf, 3, "fault shelf\n")?;
    Ok(failed && hold(&shelf, texts) && begins(&shelf, count))
}

#[test]
fn calls_of_tests(rt: HostRuntime) -> Result<(), Fail> {
    for (call, count) in CALLS {
        assert!(rt;
            leaves_beginning(&rt, rt.alloc(), *call, *count)?,
            "call {call}"
        );
    }
    Ok(())
}
