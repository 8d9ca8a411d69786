// Models that are sewn again of windows and their journals.
use rm_base::MemoryShelf;
use std::alloc::Global;
use std::test::Fail;
use std::thread::Threads;
use test_runs::{ends, hold, run_to_end, shelf, shelf_of};

// An And p of a and b, and an Or q of p and c; then an And y of q and d, and an Or z of p and d.
const TWO_LEVELS: &str =
    ".model x\n.inputs a b c d\n.outputs y z\n.names p d z\n1- 1\n-1 1\n.names q d y\n11 1\n.names p c q\n1- 1\n-1 1\n.names a b p\n11 1\n.end\n";

// The same with its covers in the order of the windows.
const IN_ORDER: &str =
    ".model x\n.inputs a b c d\n.outputs y z\n.names a b p\n11 1\n.names p c q\n1- 1\n-1 1\n.names q d y\n11 1\n.names p d z\n1- 1\n-1 1\n.end\n";

// The same where q and y stand in one window, the second, so that q is an inner name.
const INNER_OR: &str =
    ".model x\n.inputs a b c d\n.outputs y z\n.names a b p\n11 1\n.names p c w0_2_q\n1- 1\n-1 1\n.names w0_2_q d y\n11 1\n.names p d z\n1- 1\n-1 1\n.end\n";

// An And of d and of a with b or c, in eight wires, of which five are enough.
const EIGHT_WIRES: &str =
    ".model r3\n.inputs a b c d\n.outputs k\n.names a b c o\n11- 1\n1-1 1\n.names o d k\n11 1\n.end\n";

const FIVE_WIRES: &str =
    ".model r3\n.inputs a b c d\n.outputs k\n.names b c w0_1_n0_8\n1- 1\n-1 1\n.names w0_1_n0_8 d a k\n111 1\n.end\n";

// The same with an input that the first lead begins.
const LED_NAMES: &str =
    ".model r3\n.inputs w0_a b c d\n.outputs k\n.names w0_a b c o\n11- 1\n1-1 1\n.names o d k\n11 1\n.end\n";

const NEXT_LEAD: &str =
    ".model r3\n.inputs w0_a b c d\n.outputs k\n.names b c w1_1_n0_8\n1- 1\n-1 1\n.names w1_1_n0_8 d w0_a k\n111 1\n.end\n";

// Two equal Ands, and a copy of the second: one And is left, and y is a copy of it.
const EQUAL_COVERS: &str =
    ".model e\n.inputs a b c\n.outputs y z\n.names a b p\n11 1\n.names a b q\n11 1\n.names q y\n1 1\n.names p c z\n11 1\n.end\n";

// The same in one window, where its name is an inner one.
const ONE_INNER_AND: &str =
    ".model e\n.inputs a b c\n.outputs y z\n.names a b w0_1_q\n11 1\n.names w0_1_q y\n1 1\n.names w0_1_q c z\n11 1\n.end\n";

const ONE_AND: &str =
    ".model e\n.inputs a b c\n.outputs y z\n.names a b q\n11 1\n.names q y\n1 1\n.names q c z\n11 1\n.end\n";

// Runs each of these commands, divided by `; `, of which each ends with 0.
fn go_through<R: Threads + Sync>(
    rt: &R,
    alloc: Global,
    lines: &str,
    shelf: &mut MemoryShelf,
) -> Result<bool, Fail> {
    let mut all_done = true;
    for line in lines.split("; ") {
        if !line.is_empty() {
            let (status, _put) = run_to_end(rt, alloc, line, shelf)?;
            all_done = all_done && status == 0;
        }
    }
    Ok(all_done)
}

// The input, the commands before, the words, what is put, and the output.
const SEWN: &[[&str; 5]] = &[
    [TWO_LEVELS, "", "sew in 4 w out", "sewn 2 0 8 8\n", IN_ORDER],
    [
        TWO_LEVELS,
        "",
        "sew in 4 w out --shift 2",
        "sewn 3 0 8 8\n",
        INNER_OR,
    ],
    [
        TWO_LEVELS,
        "cut in 4 w; opt w1.blif n1 w1.journal",
        "sew in 4 w out",
        "sewn 2 1 8 8\n",
        IN_ORDER,
    ],
    [
        TWO_LEVELS,
        "cut in 4 w; opt w2.blif n2 w2.journal; opt w1.blif n1 w1.journal",
        "sew in 4 w out",
        "sewn 2 2 8 8\n",
        IN_ORDER,
    ],
    [
        EIGHT_WIRES,
        "cut in 8 w; opt w1.blif n1 w1.journal",
        "sew in 8 w out",
        "sewn 1 1 5 8\n",
        FIVE_WIRES,
    ],
    [
        LED_NAMES,
        "cut in 8 w; opt w1.blif n1 w1.journal",
        "sew in 8 w out",
        "sewn 1 1 5 8\n",
        NEXT_LEAD,
    ],
    [
        EIGHT_WIRES,
        "",
        "sew in 8 w out",
        "sewn 1 0 8 8\n",
        EIGHT_WIRES_AGAIN,
    ],
    [
        EQUAL_COVERS,
        "",
        "sew in 1 w out",
        "sewn 2 0 4 6\n",
        ONE_AND,
    ],
    [
        EQUAL_COVERS,
        "",
        "sew in 65536 w out",
        "sewn 1 0 4 6\n",
        ONE_INNER_AND,
    ],
];

// The one window as it was, with its inner name told apart.
const EIGHT_WIRES_AGAIN: &str =
    ".model r3\n.inputs a b c d\n.outputs k\n.names a b c w0_1_o\n11- 1\n1-1 1\n.names w0_1_o d k\n11 1\n.end\n";

// Whether a run behind those before it puts and writes what the row says, and `equal` finds the output to be the same.
fn is_sewn<R: Threads + Sync>(rt: &R, alloc: Global, row: &[&str; 5]) -> Result<bool, Fail> {
    let [input, before, line, put, output] = *row;
    let mut shelf = shelf(alloc, [input, "old", "-"], &[])?;
    let gone = go_through(rt, alloc, before, &mut shelf)?;
    let ran = ends(rt, alloc, line, &mut shelf, 0, put)?;
    let written = hold(&shelf, [input, output, "-"]);
    let same = ends(rt, alloc, "equal in out proof", &mut shelf, 0, "equal\n")?;
    Ok(gone && ran && written && same)
}

#[test]
fn windows_are_sewn(rt: HostRuntime) -> Result<(), Fail> {
    for row in SEWN {
        assert!(rt; is_sewn(&rt, rt.alloc(), row)?, "{} {}", row[2], row[3]);
    }
    Ok(())
}

// A journal whose header is cut off.
const BEGUN: &str = "rambo 1 25";

// What changes no file: the journal of the first window, the words, the status, and what is put.
const REFUSED: &[(&str, &str, u8, &str)] = &[
    (
        BEGUN,
        "sew in 4 w out",
        6,
        "window 1 journal line 1 Truncated\n",
    ),
    (
        "no journal\n",
        "sew in 4 w out",
        6,
        "window 1 journal line 1 BadHeader\n",
    ),
    ("-", "sew in 4 w in", 2, "words refused\n"),
    ("-", "sew in 4 w w3.blif", 2, "words refused\n"),
    ("-", "sew in 4 w w12.journal", 2, "words refused\n"),
    ("-", "sew w1.journal 4 w out", 2, "words refused\n"),
    ("-", "sew in 0 w out", 2, "words refused\n"),
    ("-", "sew in 4 w", 2, "words refused\n"),
    ("-", "sew no 4 w out", 3, "fault shelf\n"),
];

fn is_refused<R: Threads + Sync>(
    rt: &R,
    alloc: Global,
    row: &(&str, &str, u8, &str),
) -> Result<bool, Fail> {
    let (journal, line, status, put) = *row;
    let mut shelf = windows_shelf(alloc, journal, &[])?;
    let ran = ends(rt, alloc, line, &mut shelf, status, put)?;
    Ok(ran && hold(&shelf, [TWO_LEVELS, "old", "-"]))
}

#[test]
fn what_changes_no_file(rt: HostRuntime) -> Result<(), Fail> {
    for row in REFUSED {
        assert!(rt; is_refused(&rt, rt.alloc(), row)?, "{} {}", row.1, row.3);
    }
    Ok(())
}

// A shelf with the input, an old output and the journal of the first window, whose calls fail where they are listed.
fn windows_shelf(alloc: Global, journal: &str, failing: &[u64]) -> Result<MemoryShelf, Fail> {
    let named = [("in", TWO_LEVELS), ("out", "old"), ("w1.journal", journal)];
    shelf_of(alloc, &named, failing)
}

// A journal that has no byte is none.
#[test]
fn an_empty_journal_leaves_its_window(rt: HostRuntime) -> Result<(), Fail> {
    let alloc = rt.alloc();
    let mut shelf = windows_shelf(alloc, "", &[])?;
    assert!(rt;
        ends(
            &rt,
            alloc,
            "sew in 4 w out",
            &mut shelf,
            0,
            "sewn 2 0 8 8\n"
        )?
    );
    assert!(rt; hold(&shelf, [TWO_LEVELS, IN_ORDER, "-"]));
    Ok(())
}

// The journal of one window is none of another.
#[test]
fn journals_of_other_windows(rt: HostRuntime) -> Result<(), Fail> {
    let alloc = rt.alloc();
    let mut shelf = shelf(alloc, [EIGHT_WIRES, "old", "-"], &[])?;
    assert!(rt; go_through(&rt, alloc, "cut in 4 w; opt in n1 w2.journal", &mut shelf)?);
    let (status, put) = run_to_end(&rt, alloc, "sew in 4 w out", &mut shelf)?;
    assert!(rt; status == 6);
    assert!(rt; put.as_slice().starts_with(b"window 2 journal record "));
    assert!(rt; hold(&shelf, [EIGHT_WIRES, "old", "-"]));
    Ok(())
}

// The calls: a read of the input, one of each window's journal, the output created, and its text. A failing append adds the first
// half of its bytes.
const CALLS: &[(u64, &str)] = &[
    (1u64, "old"),
    (2, "old"),
    (3, "old"),
    (4, "old"),
    (
        5,
        ".model x\n.inputs a b c d\n.outputs y z\n.names a b p\n11 1\n.names",
    ),
];

// Whether a run with this call failing leaves this output.
fn leaves<R: Threads + Sync>(rt: &R, alloc: Global, call: u64, output: &str) -> Result<bool, Fail> {
    let mut shelf = windows_shelf(alloc, "-", &[call])?;
    let failed = ends(rt, alloc, "sew in 4 w out", &mut shelf, 3, "fault shelf\n")?;
    Ok(failed && hold(&shelf, [TWO_LEVELS, output, "-"]))
}

#[test]
fn calls_that_fail(rt: HostRuntime) -> Result<(), Fail> {
    for (call, output) in CALLS {
        assert!(rt; leaves(&rt, rt.alloc(), *call, output)?, "call {call}");
    }
    Ok(())
}
