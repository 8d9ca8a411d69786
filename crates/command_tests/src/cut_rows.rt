// Models that are cut into windows.
use rm_base::MemoryShelf;
use std::alloc::Global;
use std::test::Fail;
use std::thread::Threads;
use test_runs::{ends, hold, holds, refuse_lines, shelf};

// An And p of a and b, and an Or q of p and c; then an And y of q and d, and an Or z of p and d.
const TWO_LEVELS: &str =
    ".model x\n.inputs a b c d\n.outputs y z\n.names p d z\n1- 1\n-1 1\n.names q d y\n11 1\n.names p c q\n1- 1\n-1 1\n.names a b p\n11 1\n.names a c unused\n11 1\n.end\n";

// p and q, which the other window reads.
const FRONT: &str =
    ".model w1\n.inputs a b c\n.outputs p q\n.names a b p\n11 1\n.names p c q\n1- 1\n-1 1\n.end\n";

const BACK: &str =
    ".model w2\n.inputs q d p\n.outputs y z\n.names q d y\n11 1\n.names p d z\n1- 1\n-1 1\n.end\n";

// Whether the windows' files are these, and there is none more.
fn are_windows(shelf: &MemoryShelf, first: &str, second: Option<&str>) -> bool {
    let has_first = shelf.file("w1.blif") == Some(first.as_bytes());
    match second {
        Some(text) => {
            has_first
                && shelf.file("w2.blif") == Some(text.as_bytes())
                && shelf.file("w3.blif").is_none()
        }
        None => has_first && shelf.file("w2.blif").is_none(),
    }
}

#[test]
fn two_windows(rt: HostRuntime) -> Result<(), Fail> {
    let alloc = rt.alloc();
    let mut shelf = shelf(alloc, [TWO_LEVELS, "old", "-"], &[])?;
    assert!(rt; ends(&rt, alloc, "cut in 4 w", &mut shelf, 0, "cut 2 4\n")?);
    assert!(rt; hold(&shelf, [TWO_LEVELS, "old", "-"]));
    assert!(rt; are_windows(&shelf, FRONT, Some(BACK)));
    Ok(())
}

// The words, what is put, and the first window.
const SEAMS: &[(&str, &str, &str)] = &[
    ("cut in 3 w", "cut 2 4\n", FRONT),
    ("cut in 4 w --shift 0", "cut 2 4\n", FRONT),
    (
        "cut in 1 w",
        "cut 4 4\n",
        ".model w1\n.inputs a b\n.outputs p\n.names a b p\n11 1\n.end\n",
    ),
    (
        "cut in 4 w --shift 2",
        "cut 3 3\n",
        ".model w1\n.inputs a b\n.outputs p\n.names a b p\n11 1\n.end\n",
    ),
    (
        "cut --shift=6 in 65536 w",
        "cut 2 3\n",
        ".model w1\n.inputs a b c d\n.outputs p y\n.names a b p\n11 1\n.names p c q\n1- 1\n-1 1\n.names q d y\n11 1\n.end\n",
    ),
    (
        "cut in 65536 w",
        "cut 1 2\n",
        ".model w1\n.inputs a b c d\n.outputs y z\n.names a b p\n11 1\n.names p c q\n1- 1\n-1 1\n.names q d y\n11 1\n.names p d z\n1- 1\n-1 1\n.end\n",
    ),
];

// Whether a run puts this, and writes this first window.
fn cuts<R: Threads + Sync>(
    rt: &R,
    alloc: Global,
    line: &str,
    put: &str,
    first: &str,
) -> Result<bool, Fail> {
    let mut shelf = shelf(alloc, [TWO_LEVELS, "old", "-"], &[])?;
    Ok(ends(rt, alloc, line, &mut shelf, 0, put)? && holds(&shelf, "w1.blif", first))
}

#[test]
fn seams_by_width_and_shift(rt: HostRuntime) -> Result<(), Fail> {
    let alloc = rt.alloc();
    for (line, put, first) in SEAMS {
        assert!(rt; cuts(&rt, alloc, line, put, first)?, "{line}");
    }
    Ok(())
}

const UNDRIVEN: &str = ".model x\n.inputs a\n.outputs z\n.names a y\n1 1\n.end\n";

// What changes no file.
const REFUSED: &[(&str, u8, &str)] = &[
    ("cut in 0 w", 2, "words refused\n"),
    ("cut in 65537 w", 2, "words refused\n"),
    ("cut in four w", 2, "words refused\n"),
    ("cut in 4", 2, "words refused\n"),
    ("cut in 4 w x", 2, "words refused\n"),
    ("cut w1.blif 4 w", 2, "words refused\n"),
    ("cut w007.blif 4 w", 2, "words refused\n"),
    ("cut in 4 w --depth 1", 2, "words refused\n"),
    ("cut in 4 w --shift 65537", 2, "words refused\n"),
    ("cut in 4 w --shift 1 --shift 1", 2, "words refused\n"),
    ("opt in out --shift 1", 2, "words refused\n"),
    ("cut w.blif 4 w", 3, "fault shelf\n"),
    ("cut w1x.blif 4 w", 3, "fault shelf\n"),
    ("cut out 4 w", 1, "text 3:10 Undriven\n"),
];

#[test]
fn what_changes_no_file(rt: HostRuntime) -> Result<(), Fail> {
    refuse_lines(&rt, rt.alloc(), [TWO_LEVELS, UNDRIVEN, "-"], REFUSED)
}

// The calls: a read, and for each window the file created and its text. A failing append adds the first half of its bytes.
const CALLS: &[(u64, Option<usize>, Option<usize>)] = &[
    (1u64, None, None),
    (2, None, None),
    (3, Some(41usize), None),
    (4, Some(83), None),
    (5, Some(83), Some(41usize)),
];

fn begins(shelf: &MemoryShelf, name: &str, text: &str, count: Option<usize>) -> bool {
    match (shelf.file(name), count) {
        (Some(bytes), Some(count)) => bytes.len() == count && text.as_bytes().starts_with(bytes),
        (None, None) => true,
        _ => false,
    }
}

// Whether a run with this call failing leaves so many bytes of both windows.
fn leaves_beginnings<R: Threads + Sync>(
    rt: &R,
    alloc: Global,
    row: &(u64, Option<usize>, Option<usize>),
) -> Result<bool, Fail> {
    let (call, first, second) = *row;
    let texts = [TWO_LEVELS, "old", "-"];
    let mut shelf = shelf(alloc, texts, &[call])?;
    let failed = ends(rt, alloc, "cut in 4 w", &mut shelf, 3, "fault shelf\n")?;
    let begun = begins(&shelf, "w1.blif", FRONT, first) && begins(&shelf, "w2.blif", BACK, second);
    Ok(failed && begun && hold(&shelf, texts))
}

#[test]
fn calls_that_fail(rt: HostRuntime) -> Result<(), Fail> {
    for row in CALLS {
        assert!(rt; leaves_beginnings(&rt, rt.alloc(), row)?, "call {}", row.0);
    }
    Ok(())
}
