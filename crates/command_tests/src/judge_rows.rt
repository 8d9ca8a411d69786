// `judge` on pairs of models and texts: what it puts, and that it leaves all files as they are. `in` and `out` are the models, and
// `journal` is the proof.
use std::alloc::Global;
use std::test::Fail;
use std::thread::Threads;
use test_runs::texts::{
    EITHER, FOUR_GATES, MULTIPLEXER, MULTIPLEXER_LEFT, ONE_GATE, SOURCES, WITH_A_WIRE, WITHOUT,
};
use test_runs::{Refused, ends, hold, journal_of, refuse_all, run_to_end, shelf};

const LINE: &str = "judge in out journal";

const EQUAL: &str = "equal in out journal";

// Two models, a proof that was written by hand, the status and what is put.
const JUDGED: &[Refused<'static>] = &[
    (
        LINE,
        [ONE_GATE, EITHER, "rambo-equal 1 256\ndiffer 10\n"],
        0,
        "accepted 1\ndiffer 10\n",
    ),
    (
        LINE,
        [ONE_GATE, EITHER, "rambo-equal 1 1\ndiffer 01\n"],
        0,
        "accepted 1\ndiffer 01\n",
    ),
    (
        LINE,
        [ONE_GATE, EITHER, "rambo-equal 1 1\nspent /2,1 @ ?\n"],
        0,
        "accepted 1\nundecided 1\n",
    ),
    // Both are 1 there, or both 0.
    (
        LINE,
        [ONE_GATE, EITHER, "rambo-equal 1 256\ndiffer 11\n"],
        6,
        "proof record 1 VectorMisses\n",
    ),
    (
        LINE,
        [ONE_GATE, EITHER, "rambo-equal 1 256\ndiffer 00\n"],
        6,
        "proof record 1 VectorMisses\n",
    ),
    // A vector of another length shows nothing.
    (
        LINE,
        [ONE_GATE, EITHER, "rambo-equal 1 256\ndiffer 1\n"],
        6,
        "proof record 1 VectorMisses\n",
    ),
    (
        LINE,
        [ONE_GATE, EITHER, "rambo-equal 1 2\nspent /2,1 @ ?\n"],
        6,
        "proof record 1 SpentShort 1 2\n",
    ),
    (
        LINE,
        [ONE_GATE, EITHER, "rambo-equal 2 256\nequal\n"],
        6,
        "proof NotOne\n",
    ),
    (
        LINE,
        [ONE_GATE, EITHER, "rambo-equal 2 256\nhit 4 0 0 11\nequal\n"],
        6,
        "proof record 1 NoStep\n",
    ),
    (LINE, [ONE_GATE, EITHER, ""], 6, "proof BadHeader 1\n"),
    (
        LINE,
        [ONE_GATE, EITHER, "rambo-equal 3 256\ndiffer 10\n"],
        6,
        "proof BadHeader 1\n",
    ),
    (
        LINE,
        [ONE_GATE, EITHER, "rambo-equal 1 0\ndiffer 10\n"],
        6,
        "proof BadHeader 1\n",
    ),
    (
        LINE,
        [ONE_GATE, EITHER, "rambo 1 256\nend\n"],
        6,
        "proof BadHeader 1\n",
    ),
    (
        LINE,
        [ONE_GATE, EITHER, "rambo-equal 1 256\ndiffer 1x\n"],
        6,
        "proof BadRecord 2\n",
    ),
    (
        LINE,
        [ONE_GATE, EITHER, "rambo-equal 1 256\nequal\n"],
        6,
        "proof BadRecord 2\n",
    ),
    (
        LINE,
        [ONE_GATE, EITHER, "rambo-equal 1 256\n"],
        6,
        "proof Truncated 2\n",
    ),
    (
        LINE,
        [ONE_GATE, EITHER, "rambo-equal 1 256\ndiffer 10"],
        6,
        "proof Truncated 2\n",
    ),
    (
        LINE,
        [ONE_GATE, EITHER, "rambo-equal 1 256\ndiffer 10\n\n"],
        6,
        "proof AfterEnd 3\n",
    ),
    (LINE, [ONE_GATE, EITHER, "-"], 3, "fault shelf\n"),
    (
        LINE,
        [ONE_GATE, "-", "rambo-equal 1 256\ndiffer 10\n"],
        3,
        "fault shelf\n",
    ),
    (
        LINE,
        [ONE_GATE, SOURCES, "rambo-equal 1 256\ndiffer 10\n"],
        9,
        "unlike sources 2\n",
    ),
    (LINE, [ONE_GATE, SOURCES, "-"], 3, "fault shelf\n"),
    (
        LINE,
        [ONE_GATE, "", "rambo-equal 1 256\ndiffer 10\n"],
        1,
        "second text 1:1 NoModel\n",
    ),
    (
        LINE,
        ["", EITHER, "rambo-equal 1 256\ndiffer 10\n"],
        1,
        "text 1:1 NoModel\n",
    ),
];

#[test]
fn proofs_that_are_judged(rt: HostRuntime) -> Result<(), Fail> {
    refuse_all(&rt, rt.alloc(), JUDGED)
}

// What `equal` writes is accepted, and is refused for other models.
const SAME: &[(&str, &str)] = &[
    (FOUR_GATES, WITH_A_WIRE),
    (MULTIPLEXER, MULTIPLEXER_LEFT),
    (EITHER, EITHER),
];

fn is_judged<R: Threads + Sync>(
    rt: &R,
    alloc: Global,
    first: &str,
    second: &str,
) -> Result<bool, Fail> {
    let mut shelf = shelf(alloc, [first, second, "-"], &[])?;
    let compared = ends(rt, alloc, EQUAL, &mut shelf, 0, "equal\n")?;
    let judged = ends(rt, alloc, LINE, &mut shelf, 0, "accepted 1\nequal\n")?;
    Ok(compared && judged)
}

#[test]
fn proofs_that_are_written_are_accepted(rt: HostRuntime) -> Result<(), Fail> {
    for (first, second) in SAME {
        assert!(rt; is_judged(&rt, rt.alloc(), first, second)?, "{first}");
    }
    Ok(())
}

// Pairs that the plain question leaves open at a budget of 1, and merging decides; the lines of the proof, and what is put.
const MERGED: &[(&str, &str, usize, &str)] = &[
    (FOUR_GATES, WITHOUT, 50, "accepted 48\nequal\n"),
    (MULTIPLEXER, MULTIPLEXER_LEFT, 46, "accepted 44\nequal\n"),
    (EITHER, EITHER, 26, "accepted 24\nequal\n"),
];

// Whether the text has a header of version 2, the end, and so many lines with these two.
fn has_steps(bytes: &[u8], lines: usize) -> bool {
    let text = std::str::from_utf8(bytes).unwrap_or("");
    let count = text.lines().count();
    text.starts_with("rambo-equal 2 1\n") && text.ends_with("\nequal\n") && count == lines
}

// Whether the models are equal by so many lines of steps, and the proof is accepted.
fn has_merged<R: Threads + Sync>(
    rt: &R,
    alloc: Global,
    row: &(&str, &str, usize, &str),
) -> Result<bool, Fail> {
    let (first, second, count, put) = *row;
    let mut shelf = shelf(alloc, [first, second, "-"], &[])?;
    let line = "equal in out journal --depth 0 --budget 1";
    let compared = ends(rt, alloc, line, &mut shelf, 0, "equal\n")?;
    let written = has_steps(shelf.file("journal").unwrap_or(b""), count);
    let judged = ends(rt, alloc, LINE, &mut shelf, 0, put)?;
    Ok(compared && written && judged)
}

#[test]
fn steps_are_judged(rt: HostRuntime) -> Result<(), Fail> {
    for row in MERGED {
        assert!(rt; has_merged(&rt, rt.alloc(), row)?, "{}", row.0);
    }
    Ok(())
}

#[test]
fn a_proof_of_other_models_is_refused(rt: HostRuntime) -> Result<(), Fail> {
    let mut kept = shelf(rt.alloc(), [EITHER, EITHER, "-"], &[])?;
    assert!(rt; ends(&rt, rt.alloc(), EQUAL, &mut kept, 0, "equal\n")?);
    let proof = journal_of(&kept);
    let mut other = shelf(rt.alloc(), [ONE_GATE, EITHER, proof], &[])?;
    let (status, _put) = run_to_end(&rt, rt.alloc(), LINE, &mut other)?;
    assert!(rt; status == 6);
    assert!(rt; hold(&other, [ONE_GATE, EITHER, proof]));
    Ok(())
}
