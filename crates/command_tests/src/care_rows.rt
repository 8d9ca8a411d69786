// `optcare` on models and what they are cared for: what it puts, what it writes, and what it leaves as it is.
use rm_base::MemoryShelf;
use std::alloc::Global;
use std::test::Fail;
use std::thread::Threads;
use test_runs::texts::{FOUR_GATES, ONE_GATE, SOURCES, WITHOUT};
use test_runs::{ends, holds, shelf_of};

const LINE: &str = "optcare in care out tests";

// Always, where the first input is 1, never, and where the inputs differ.
const ALWAYS: &str = ".model c\n.inputs a b\n.outputs k\n.names k\n1\n.end\n";

const FIRST: &str = ".model c\n.inputs a b\n.outputs k\n.names a k\n1 1\n.end\n";

const NEVER: &str = ".model c\n.inputs a b\n.outputs k\n.names k\n.end\n";

const DIFFER: &str = ".model c\n.inputs a b\n.outputs k\n.names a b k\n10 1\n01 1\n.end\n";

const ALWAYS_OF_FOUR: &str = ".model c\n.inputs a b c d\n.outputs y\n.names y\n1\n.end\n";

// A shelf with these files.
fn care_shelf(alloc: Global, texts: [&str; 4], failing: &[u64]) -> Result<MemoryShelf, Fail> {
    let [input, care, output, tests] = texts;
    let named = [
        ("in", input),
        ("care", care),
        ("out", output),
        ("tests", tests),
    ];
    shelf_of(alloc, &named, failing)
}

fn are_texts(shelf: &MemoryShelf, texts: [&str; 4]) -> bool {
    let [input, care, output, tests] = texts;
    let read = holds(shelf, "in", input) && holds(shelf, "care", care);
    read && holds(shelf, "out", output) && holds(shelf, "tests", tests)
}

// Words, both models, what is put, and both files.
#[derive(Clone, Copy)]
struct Told {
    line: &'static str,
    models: [&'static str; 2],
    put: &'static str,
    output: &'static str,
    tests: &'static str,
}

const ONE_INPUT_LEFT: &str = ".model r1\n.inputs a b\n.outputs z\n.names b z\n1 1\n.end\n";

const NOTHING_LEFT: &str = ".model r1\n.inputs a b\n.outputs z\n.names z\n.end\n";

const COPY_LEFT: &str = ".model r7\n.inputs a\n.outputs a z\n.names a z\n1 1\n.end\n";

// The row whose calls fail further below.
const FAILING: Told = Told {
    line: "optcare in care --budget=4096 out tests",
    models: [ONE_GATE, ALWAYS],
    put: "wires 2 2\ngates 1 1\nsteps 0 0 0\nfaults 4 0\n",
    output: ONE_GATE,
    tests: "rambo 1 4096\nhit 4 0 0 11\nhit 4 0 1 01\nhit 4 1 0 11\nhit 4 1 1 10\nend\n",
};

const TOLD: &[Told] = &[
    Told {
        line: LINE,
        models: [ONE_GATE, FIRST],
        put: "wires 2 0\ngates 1 0\nsteps 0 1 3\nfaults 0 0\n",
        output: ONE_INPUT_LEFT,
        tests: "rambo 1 256\nend\n",
    },
    // An And is 0 wherever its inputs differ.
    Told {
        line: LINE,
        models: [ONE_GATE, DIFFER],
        put: "wires 2 0\ngates 1 0\nsteps 0 1 2\nfaults 0 0\n",
        output: NOTHING_LEFT,
        tests: "rambo 1 256\nend\n",
    },
    Told {
        line: "optcare in care out tests --depth 0",
        models: [ONE_GATE, NEVER],
        put: "wires 2 0\ngates 1 0\nsteps 0 1 2\nfaults 0 0\n",
        output: NOTHING_LEFT,
        tests: "rambo 1 256\nend\n",
    },
    FAILING,
    Told {
        line: "optcare in care out tests --budget 1",
        models: [ONE_GATE, ALWAYS],
        put: "wires 2 2\ngates 1 1\nsteps 0 0 0\nfaults 0 4\n",
        output: ONE_GATE,
        tests: "rambo 1 1\nspent 4 0 0 /2,1 @ ?\nspent 4 0 1 /2,0 @ ?\nspent 4 1 0 /3,1 @ ?\nspent 4 1 1 /3,0 @ ?\nend\n",
    },
    Told {
        line: LINE,
        models: [SOURCES, ".model c\n.inputs a\n.outputs a\n.end\n"],
        put: "wires 0 0\ngates 0 0\nsteps 0 0 0\nfaults 0 0\n",
        output: COPY_LEFT,
        tests: "rambo 1 256\nend\n",
    },
];

fn tells<R: Threads + Sync>(
    rt: &R,
    alloc: Global,
    told: &Told,
    before: [&'static str; 2],
) -> Result<bool, Fail> {
    let [input, care] = told.models;
    let [output, tests] = before;
    let mut shelf = care_shelf(alloc, [input, care, output, tests], &[])?;
    let ran = ends(rt, alloc, told.line, &mut shelf, 0, told.put)?;
    Ok(ran && are_texts(&shelf, [input, care, told.output, told.tests]))
}

fn tell_all<R: Threads + Sync>(
    rt: &R,
    alloc: Global,
    before: [&'static str; 2],
) -> Result<(), Fail> {
    for told in TOLD {
        if !tells(rt, alloc, told, before)? {
            return Err(Fail::new(format_args!("{}: {}", told.line, told.put)));
        }
    }
    Ok(())
}

#[test]
fn wires_that_are_redundant_where_care_is_1(rt: HostRuntime) -> Result<(), Fail> {
    tell_all(&rt, rt.alloc(), ["-", "-"])?;
    tell_all(&rt, rt.alloc(), ["old", "older"])
}

// Whether each line but the first and the last is a hit of the next fault of these gates, of two pins each.
fn are_hits(bytes: &[u8], gates: [u32; 4]) -> bool {
    let text = std::str::from_utf8(bytes).unwrap_or("");
    let mut lines = text.lines();
    if lines.next() != Some("rambo 1 256") {
        return false;
    }
    for gate in gates {
        for pin in 0..2u32 {
            for value in 0..2u32 {
                let Some(line) = lines.next() else {
                    return false;
                };
                let mut words = line.split(' ');
                let hit = words.next() == Some("hit");
                let own = words.next().and_then(|w| w.parse::<u32>().ok()) == Some(gate);
                let at = words.next().and_then(|w| w.parse::<u32>().ok()) == Some(pin);
                let stuck = words.next().and_then(|w| w.parse::<u32>().ok()) == Some(value);
                if !(hit && own && at && stuck) {
                    return false;
                }
            }
        }
    }
    lines.next() == Some("end") && lines.next().is_none()
}

#[test]
fn a_care_that_is_always_1_removes_nothing(rt: HostRuntime) -> Result<(), Fail> {
    let mut shelf = care_shelf(rt.alloc(), [FOUR_GATES, ALWAYS_OF_FOUR, "-", "-"], &[])?;
    let put = "wires 8 8\ngates 4 4\nsteps 0 0 0\nfaults 16 0\n";
    assert!(rt; ends(&rt, rt.alloc(), LINE, &mut shelf, 0, put)?);
    assert!(rt; holds(&shelf, "out", WITHOUT));
    let tests = shelf.file("tests").unwrap_or(b"");
    assert!(rt; are_hits(tests, [6, 7, 8, 9]));
    Ok(())
}

const TWO_OUTPUTS: &str = ".model c\n.inputs a b\n.outputs k l\n.names k\n1\n.names l\n1\n.end\n";

const OTHER_INPUTS: &str = ".model c\n.inputs x\n.outputs k l\n.names k\n1\n.names l\n1\n.end\n";

// Words, both models, the status and what is put; both files stay as they were.
const REFUSED: &[(&str, [&str; 2], u8, &str)] = &[
    (LINE, [ONE_GATE, TWO_OUTPUTS], 9, "care shape\n"),
    (LINE, [ONE_GATE, OTHER_INPUTS], 9, "care shape\n"),
    (
        LINE,
        [ONE_GATE, ".model c\n.inputs a b\n.end\n"],
        9,
        "care shape\n",
    ),
    (
        LINE,
        [
            ONE_GATE,
            ".model c\n.inputs a\n.clock b\n.outputs a\n.end\n",
        ],
        9,
        "care shape\n",
    ),
    (
        LINE,
        [
            ONE_GATE,
            ".model c\n.inputs a\n.latch a b\n.outputs b\n.end\n",
        ],
        9,
        "care shape\n",
    ),
    (
        LINE,
        [ONE_GATE, ".model c\n.inputs b a\n.outputs a\n.end\n"],
        9,
        "unlike sources 1\n",
    ),
    (
        LINE,
        [ONE_GATE, ".model c\n.inputs a\n.outputs a\n.end\n"],
        9,
        "unlike sources 2\n",
    ),
    (
        LINE,
        [ONE_GATE, ".model c\n.inputs a b d\n.outputs a\n.end\n"],
        9,
        "unlike sources 3\n",
    ),
    (
        LINE,
        [
            ONE_GATE,
            ".model c\n.inputs a b\n.outputs k\n.names a k\n11 1\n.end\n",
        ],
        1,
        "second text 5:1 RowLength\n",
    ),
    (LINE, ["", TWO_OUTPUTS], 1, "text 1:1 NoModel\n"),
    (LINE, [ONE_GATE, "-"], 3, "fault shelf\n"),
    (LINE, ["-", ALWAYS], 3, "fault shelf\n"),
    (
        "optcare in care out tests --tries 0",
        [ONE_GATE, ALWAYS],
        2,
        "words refused\n",
    ),
];

fn is_refused<R: Threads + Sync>(
    rt: &R,
    alloc: Global,
    row: &(&str, [&str; 2], u8, &str),
) -> Result<bool, Fail> {
    let (line, [input, care], status, put) = *row;
    let texts = [input, care, "old", "older"];
    let mut shelf = care_shelf(alloc, texts, &[])?;
    let ran = ends(rt, alloc, line, &mut shelf, status, put)?;
    Ok(ran && are_texts(&shelf, texts))
}

#[test]
fn models_that_are_refused(rt: HostRuntime) -> Result<(), Fail> {
    for row in REFUSED {
        assert!(rt; is_refused(&rt, rt.alloc(), row)?, "{}", row.3);
    }
    Ok(())
}

// Whether a file holds a beginning of the text, or what it held.
fn begins(shelf: &MemoryShelf, name: &str, whole: &str, before: &str) -> bool {
    match shelf.file(name) {
        Some(bytes) => whole.as_bytes().starts_with(bytes) || bytes == before.as_bytes(),
        None => false,
    }
}

// Whether a run in which this call fails, if it is one, leaves beginnings of the files, and of the second only behind the whole first.
fn leaves_beginnings<R: Threads + Sync>(rt: &R, alloc: Global, call: u64) -> Result<bool, Fail> {
    let [input, care] = FAILING.models;
    let mut shelf = care_shelf(alloc, [input, care, "old", "older"], &[call])?;
    if !ends(rt, alloc, FAILING.line, &mut shelf, 3, "fault shelf\n")? {
        return Ok(true);
    }
    let begun = begins(&shelf, "tests", FAILING.tests, "older");
    let in_turn = holds(&shelf, "tests", FAILING.tests) || holds(&shelf, "out", "old");
    Ok(begun && begins(&shelf, "out", FAILING.output, "old") && in_turn)
}

#[test]
fn calls_that_fail_leave_beginnings(rt: HostRuntime) -> Result<(), Fail> {
    for call in 0..12u64 {
        assert!(rt; leaves_beginnings(&rt, rt.alloc(), call)?, "{call}");
    }
    Ok(())
}
