// `equal` on pairs of models: what it puts, the proof that it writes, and what it leaves as it is. `in` and `out` are the models, and
// `journal` is the proof.
use std::alloc::Global;
use std::test::Fail;
use std::thread::Threads;
use test_runs::texts::{
    ABSORBED, CONSTANT_ZERO, EITHER, FOUR_GATES, MULTIPLEXER, MULTIPLEXER_LEFT, ONE_GATE,
    ONE_GATE_JOURNAL, SOURCES, WITH_A_WIRE, WITHOUT, ZERO_ROW,
};
use test_runs::{Refused, ends, hold, holds, refuse_all, refuses, shelf};

const LINE: &str = "equal in out journal";

// Words, two models, what is put, and the proof behind its header.
#[derive(Clone, Copy)]
struct Told {
    line: &'static str,
    models: [&'static str; 2],
    status: u8,
    put: &'static str,
    proof: &'static str,
}

const ONE_ROW: &str = ".model r6\n.outputs z\n.names z\n1\n.end\n";

// 1 under one assignment alone, of an input, a clock and a latch; and never 1.
const ONLY_INPUT: &str =
    ".model t\n.outputs z\n.latch z q\n.clock c\n.inputs a\n.names a c q z\n100 1\n.end\n";

const ONLY_CLOCK: &str =
    ".model t\n.outputs z\n.latch z q\n.clock c\n.inputs a\n.names a c q z\n010 1\n.end\n";

const ONLY_LATCH: &str =
    ".model t\n.outputs z\n.latch z q\n.clock c\n.inputs a\n.names q c a z\n100 1\n.end\n";

const NEVER: &str = ".model t\n.inputs a\n.outputs z\n.clock c\n.latch z q\n.names z\n.end\n";

const TOLD: &[Told] = &[
    Told {
        line: LINE,
        models: [ONE_GATE, EITHER],
        status: 7,
        put: "differ 10\n",
        proof: "rambo-equal 1 256\ndiffer 10\n",
    },
    Told {
        line: "equal in out journal --budget 1",
        models: [ONE_GATE, EITHER],
        status: 8,
        put: "undecided 1\n",
        proof: "rambo-equal 1 1\nspent /2,1 @ ?\n",
    },
    Told {
        line: "equal --budget=8 -- in out journal",
        models: [ONE_GATE, EITHER],
        status: 7,
        put: "differ 10\n",
        proof: "rambo-equal 1 8\ndiffer 10\n",
    },
    Told {
        line: "equal in --depth 0 out journal",
        models: [ONE_GATE, EITHER],
        status: 7,
        put: "differ 10\n",
        proof: "rambo-equal 1 256\ndiffer 10\n",
    },
    Told {
        line: "equal in out --depth=2 journal",
        models: [ONE_GATE, EITHER],
        status: 7,
        put: "differ 10\n",
        proof: "rambo-equal 1 256\ndiffer 10\n",
    },
    Told {
        line: LINE,
        models: [CONSTANT_ZERO, ONE_ROW],
        status: 7,
        put: "differ\n",
        proof: "rambo-equal 1 256\ndiffer\n",
    },
    Told {
        line: "equal in out journal --budget 2",
        models: [ONE_ROW, ZERO_ROW],
        status: 7,
        put: "differ\n",
        proof: "rambo-equal 1 2\ndiffer\n",
    },
    Told {
        line: LINE,
        models: [ONLY_INPUT, NEVER],
        status: 7,
        put: "differ 100\n",
        proof: "rambo-equal 1 256\ndiffer 100\n",
    },
    Told {
        line: LINE,
        models: [NEVER, ONLY_CLOCK],
        status: 7,
        put: "differ 010\n",
        proof: "rambo-equal 1 256\ndiffer 010\n",
    },
    Told {
        line: LINE,
        models: [ONLY_LATCH, NEVER],
        status: 7,
        put: "differ 001\n",
        proof: "rambo-equal 1 256\ndiffer 001\n",
    },
    Told {
        line: "equal in out journal --budget 16",
        models: [ONLY_LATCH, NEVER],
        status: 7,
        put: "differ 001\n",
        proof: "rambo-equal 1 16\ndiffer 001\n",
    },
    Told {
        line: "equal in out journal --budget 1048576",
        models: [NEVER, ONLY_INPUT],
        status: 7,
        put: "differ 100\n",
        proof: "rambo-equal 1 1048576\ndiffer 100\n",
    },
];

// Whether a run over a proof that holds this, or isn't there, puts that and writes the proof alone.
fn tells<R: Threads + Sync>(
    rt: &R,
    alloc: Global,
    told: &Told,
    before: &'static str,
) -> Result<bool, Fail> {
    let [first, second] = told.models;
    let mut shelf = shelf(alloc, [first, second, before], &[])?;
    let ran = ends(rt, alloc, told.line, &mut shelf, told.status, told.put)?;
    Ok(ran && hold(&shelf, [first, second, told.proof]))
}

fn tell_all<R: Threads + Sync>(rt: &R, alloc: Global, before: &'static str) -> Result<(), Fail> {
    for told in TOLD {
        if !tells(rt, alloc, told, before)? {
            return Err(Fail::new(format_args!("{}: {}", told.line, told.put)));
        }
    }
    Ok(())
}

#[test]
fn models_that_are_told_apart(rt: HostRuntime) -> Result<(), Fail> {
    tell_all(&rt, rt.alloc(), "-")?;
    tell_all(&rt, rt.alloc(), ONE_GATE_JOURNAL)
}

const NO_OUTPUTS: &str = ".model m\n.inputs a\n.end\n";

// The same functions by other gates. With 2^(n+1) edges, n being the number of sources, all are decided.
const SAME: &[(&str, &str, &str)] = &[
    (LINE, FOUR_GATES, WITH_A_WIRE),
    ("equal in out journal --depth 0", WITH_A_WIRE, FOUR_GATES),
    ("equal in out journal --depth 2", FOUR_GATES, WITHOUT),
    (
        "equal in out journal --depth=0 --budget=32",
        FOUR_GATES,
        WITH_A_WIRE,
    ),
    (LINE, MULTIPLEXER, MULTIPLEXER_LEFT),
    (
        "equal in out journal --budget 16",
        MULTIPLEXER_LEFT,
        MULTIPLEXER,
    ),
    (
        LINE,
        ABSORBED,
        ".model other\n.inputs x y\n.outputs z\n.names x z\n1 1\n.end\n",
    ),
    (
        LINE,
        ONE_GATE,
        ".model r5\n.inputs a b\n.outputs z\n.names a b z\n0- 0\n-0 0\n.end\n",
    ),
    ("equal in out journal --budget 8", EITHER, EITHER),
    (LINE, CONSTANT_ZERO, ZERO_ROW),
    (LINE, SOURCES, SOURCES),
    (LINE, NO_OUTPUTS, NO_OUTPUTS),
    ("equal in out journal --budget 1", NO_OUTPUTS, NO_OUTPUTS),
];

// Whether the text has a header and a line of what is the same.
fn is_of_the_same(bytes: &[u8]) -> bool {
    let text = std::str::from_utf8(bytes).unwrap_or("");
    let Some((header, rest)) = text.split_once('\n') else {
        return false;
    };
    header.starts_with("rambo-equal 1 ") && rest.starts_with("same ") && rest.ends_with("\n")
}

// Whether the models of these texts are found to be the same.
fn are_equal<R: Threads + Sync>(
    rt: &R,
    alloc: Global,
    line: &str,
    first: &str,
    second: &str,
) -> Result<bool, Fail> {
    let mut shelf = shelf(alloc, [first, second, "old"], &[])?;
    let ran = ends(rt, alloc, line, &mut shelf, 0, "equal\n")?;
    let written = is_of_the_same(shelf.file("journal").unwrap_or(b""));
    Ok(ran && written && holds(&shelf, "in", first) && holds(&shelf, "out", second))
}

#[test]
fn models_that_are_the_same(rt: HostRuntime) -> Result<(), Fail> {
    for (line, first, second) in SAME {
        assert!(rt; are_equal(&rt, rt.alloc(), line, first, second)?, "{first}");
    }
    Ok(())
}

const TWO_LATCHES: &str = ".model l\n.inputs d\n.outputs q\n.latch d q\n.latch q s re d 2\n.end\n";

const UNLIKE: &[(&str, &str, &str)] = &[
    (ONE_GATE, SOURCES, "unlike sources 2\n"),
    (SOURCES, ONE_GATE, "unlike sources 2\n"),
    (
        ONE_GATE,
        ".model r1\n.inputs b a\n.outputs z\n.names a b z\n11 1\n.end\n",
        "unlike sources 1\n",
    ),
    (
        ONE_GATE,
        ".model r1\n.inputs a\n.clock c\n.outputs z\n.names a c z\n11 1\n.end\n",
        "unlike sources 2\n",
    ),
    (
        TWO_LATCHES,
        ".model l\n.inputs d\n.outputs q\n.latch q s\n.latch d q\n.end\n",
        "unlike sources 2\n",
    ),
    (
        ONE_GATE,
        ".model r1\n.inputs a b\n.outputs y\n.names a b y\n11 1\n.end\n",
        "unlike observed 1\n",
    ),
    (
        ONE_GATE,
        ".model r1\n.inputs a b\n.outputs z b\n.names a b z\n11 1\n.end\n",
        "unlike observed 2\n",
    ),
    (
        ONE_GATE,
        ".model r1\n.inputs a b\n.end\n",
        "unlike observed 1\n",
    ),
    (
        TWO_LATCHES,
        ".model l\n.inputs d\n.outputs q\n.latch d q\n.latch q s\n.end\n",
        "unlike observed 4\n",
    ),
];

// Whether the models are found to have other names, and no file changes.
fn are_unlike<R: Threads + Sync>(
    rt: &R,
    alloc: Global,
    first: &str,
    second: &str,
    put: &str,
) -> Result<bool, Fail> {
    refuses(rt, alloc, LINE, [first, second, "old"], 9, put)
}

#[test]
fn names_that_are_not_the_same(rt: HostRuntime) -> Result<(), Fail> {
    for (first, second, put) in UNLIKE {
        assert!(rt; are_unlike(&rt, rt.alloc(), first, second, put)?, "{put}");
    }
    Ok(())
}

const SHORT_ROW: &str = ".model r1\n.inputs a b\n.outputs z\n.names a b z\n1 1\n.end\n";

const BAD_CHARACTER: &str = ".model r1\n.inputs a b\n.outputs z\n.names a b z\n12 1\n.end\n";

// A text `-` isn't there.
const REFUSED: &[Refused<'static>] = &[
    (
        LINE,
        [ONE_GATE, SHORT_ROW, "old"],
        1,
        "second text 5:1 RowLength\n",
    ),
    (LINE, [ONE_GATE, "", "-"], 1, "second text 1:1 NoModel\n"),
    (
        LINE,
        [SOURCES, BAD_CHARACTER, "old"],
        1,
        "second text 5:2 RowCharacter\n",
    ),
    (
        LINE,
        [BAD_CHARACTER, SHORT_ROW, "old"],
        1,
        "text 5:2 RowCharacter\n",
    ),
    (
        LINE,
        [SHORT_ROW, ONE_GATE, "old"],
        1,
        "text 5:1 RowLength\n",
    ),
    (LINE, [SHORT_ROW, "-", "old"], 1, "text 5:1 RowLength\n"),
    (LINE, ["-", ONE_GATE, "old"], 3, "fault shelf\n"),
    (LINE, ["-", SHORT_ROW, "old"], 3, "fault shelf\n"),
    (LINE, [ONE_GATE, "-", "old"], 3, "fault shelf\n"),
    (LINE, [ONE_GATE, "-", "-"], 3, "fault shelf\n"),
    (
        "equal in out",
        [ONE_GATE, EITHER, "old"],
        2,
        "words refused\n",
    ),
    (
        "equal in in journal",
        [ONE_GATE, EITHER, "old"],
        2,
        "words refused\n",
    ),
    (
        "equal in out in",
        [ONE_GATE, EITHER, "old"],
        2,
        "words refused\n",
    ),
    (
        "equal in out out",
        [ONE_GATE, EITHER, "old"],
        2,
        "words refused\n",
    ),
    (
        "equal in out journal more",
        [ONE_GATE, EITHER, "old"],
        2,
        "words refused\n",
    ),
    (
        "equal in out journal --tries 1",
        [ONE_GATE, EITHER, "old"],
        2,
        "words refused\n",
    ),
    (
        "equal in out journal --workers=1",
        [ONE_GATE, EITHER, "old"],
        2,
        "words refused\n",
    ),
    (
        "equal in out journal --budget 0",
        [ONE_GATE, EITHER, "old"],
        2,
        "words refused\n",
    ),
];

#[test]
fn what_changes_no_file(rt: HostRuntime) -> Result<(), Fail> {
    refuse_all(&rt, rt.alloc(), REFUSED)
}

// The calls of a run: both reads, the proof created, and its text. A failing append adds the first half of its bytes.
const CALLS: &[(u64, u8, &str, &str)] = &[
    (1, 3, "fault shelf\n", "old"),
    (2, 3, "fault shelf\n", "old"),
    (3, 3, "fault shelf\n", "old"),
    (4, 3, "fault shelf\n", "rambo-equal 1 "),
    (5, 7, "differ 10\n", "rambo-equal 1 256\ndiffer 10\n"),
];

// Whether a run with this call failing ends and puts what the row says, and leaves this of the proof.
fn fails<R: Threads + Sync>(
    rt: &R,
    alloc: Global,
    row: &(u64, u8, &str, &str),
) -> Result<bool, Fail> {
    let (call, status, put, proof) = *row;
    let mut shelf = shelf(alloc, [ONE_GATE, EITHER, "old"], &[call])?;
    let ran = ends(rt, alloc, LINE, &mut shelf, status, put)?;
    Ok(ran && hold(&shelf, [ONE_GATE, EITHER, proof]))
}

#[test]
fn calls_that_fail(rt: HostRuntime) -> Result<(), Fail> {
    for row in CALLS {
        assert!(rt; fails(&rt, rt.alloc(), row)?, "{}", row.0);
    }
    Ok(())
}
