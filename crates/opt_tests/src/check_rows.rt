// `check` on journals and outputs: what it puts, and no file changes.
use std::alloc::Global;
use std::test::Fail;
use std::thread::Threads;
use test_runs::texts::{
    FOUR_GATES, ONE_GATE, ONE_GATE_JOURNAL, WIRE_JOURNAL, WITH_A_WIRE, ZERO_ROW,
};
use test_runs::{Refused, refuse_all, refuses};

// The text with a part replaced.
fn replace_part(alloc: Global, text: &str, old: &str, new: &str) -> Result<String, Fail> {
    let at = text.find(old).ok_or("no such part")?;
    let mut made = String::from_str(alloc, &text[..at])?;
    made.push_str(new)?;
    made.push_str(&text[at + old.len()..])?;
    Ok(made)
}

const LINE: &str = "check in journal out";

const ACCEPTED: &[Refused<'static>] = &[
    (
        LINE,
        [FOUR_GATES, WITH_A_WIRE, WIRE_JOURNAL],
        0,
        "accepted 19\n",
    ),
    (
        LINE,
        [ONE_GATE, ONE_GATE, ONE_GATE_JOURNAL],
        0,
        "accepted 4\n",
    ),
];

#[test]
fn accepted_journals(rt: HostRuntime) -> Result<(), Fail> {
    refuse_all(&rt, rt.alloc(), ACCEPTED)
}

const CHANGES: &[(&str, &str, &str)] = &[
    ("add 9 2 a", "add 9 2 !0", "record 1 NotClash item 1"),
    ("end\n", "", "line 21 Truncated"),
    ("end\n", "end\nx\n", "line 22 AfterEnd"),
    ("hit 8 0 0 1101", "hit 8 0 0 0101", "record 10 VectorMisses"),
    ("rambo 1", "rambo 2", "line 1 BadHeader"),
];

// Whether the journal of the added wire with a part replaced is refused, and why.
fn rejects_change<R: Threads + Sync>(
    rt: &R,
    alloc: Global,
    old: &str,
    new: &str,
    why: &str,
) -> Result<bool, Fail> {
    let journal = replace_part(alloc, WIRE_JOURNAL, old, new)?;
    let put = format!(in alloc; "journal {why}\n")?;
    let texts = [FOUR_GATES, WITH_A_WIRE, &journal];
    refuses(rt, alloc, LINE, texts, 6, &put)
}

#[test]
fn changed_journals(rt: HostRuntime) -> Result<(), Fail> {
    for (old, new, why) in CHANGES {
        assert!(rt; rejects_change(&rt, rt.alloc(), old, new, why)?, "{why}");
    }
    Ok(())
}

// Whether a journal of this text behind its first word is refused, and why.
fn rejects<R: Threads + Sync>(
    rt: &R,
    alloc: Global,
    input: &str,
    rest: &str,
    why: &str,
) -> Result<bool, Fail> {
    let journal = format!(in alloc; "rambo {rest}\n")?;
    let put = format!(in alloc; "journal {why}\n")?;
    let texts = [input, "old", &journal];
    refuses(rt, alloc, LINE, texts, 6, &put)
}

const OTHERS: &[(&str, &str, &str)] = &[
    (ONE_GATE, "1 256\nend", "record 1 FaultMissing 4 0 0"),
    (
        ONE_GATE,
        "1 2\nspent 4 0 0 /2,1 @ ?\nend",
        "record 1 SpentShort 1 2",
    ),
    (
        ONE_GATE,
        "1 256\nhit 4 0 0 11\nhit 4 0 1 01\nhit 4 1 0 11\nhit 4 1 1 10\nhit 4 1 1 10\nend",
        "record 5 RecordExtra",
    ),
    (ZERO_ROW, "1 256\nend", "record 1 NotTidy 2"),
    (FOUR_GATES, "1 256\nadd 6 9 .\nend", "record 1 Cycle"),
    (FOUR_GATES, "1 256\nadd 6 9 .\nx", "record 1 Cycle"),
    (FOUR_GATES, "2 256\nend", "line 1 BadHeader"),
    (FOUR_GATES, "1 256\nfix 06 0 1 .\nend", "line 2 BadRecord"),
    (
        FOUR_GATES,
        "1 256\ndead 4294967296\nend",
        "line 2 BadRecord",
    ),
    (FOUR_GATES, "1 256\ndead 4294967295\nend", "record 1 NoNode"),
];

#[test]
fn other_journals(rt: HostRuntime) -> Result<(), Fail> {
    for (input, rest, why) in OTHERS {
        assert!(rt; rejects(&rt, rt.alloc(), input, rest, why)?, "{why}");
    }
    Ok(())
}

const OUTPUTS: &[(&str, &str, &str)] = &[
    (".model r3", ".model s3", "netlist 8\n"),
    (".end\n", ".end", "netlist 92\n"),
    (".end\n", ".end\n\n", "netlist 93\n"),
];

// Whether the output with a part replaced is refused, and where it differs.
fn rejects_output<R: Threads + Sync>(
    rt: &R,
    alloc: Global,
    old: &str,
    new: &str,
    put: &str,
) -> Result<bool, Fail> {
    let output = replace_part(alloc, WITH_A_WIRE, old, new)?;
    refuses(rt, alloc, LINE, [FOUR_GATES, &output, WIRE_JOURNAL], 6, put)
}

#[test]
fn other_outputs(rt: HostRuntime) -> Result<(), Fail> {
    for (old, new, put) in OUTPUTS {
        assert!(rt; rejects_output(&rt, rt.alloc(), old, new, put)?, "{put}");
    }
    Ok(())
}

// A file that is missing is one in its turn: after a fault of the journal, the output isn't looked for.
const MISSING: &[Refused<'static>] = &[
    (LINE, ["-", WITH_A_WIRE, WIRE_JOURNAL], 3, "fault shelf\n"),
    (LINE, [FOUR_GATES, WITH_A_WIRE, "-"], 3, "fault shelf\n"),
    (LINE, [FOUR_GATES, "-", WIRE_JOURNAL], 3, "fault shelf\n"),
    (
        LINE,
        [FOUR_GATES, "-", "rambo 1 256\nend\n"],
        6,
        "journal record 1 FaultMissing 6 0 0\n",
    ),
    (LINE, ["", "-", "-"], 1, "text 1:1 NoModel\n"),
    ("opt in out journal", ["-", "-", "-"], 3, "fault shelf\n"),
];

#[test]
fn missing_files(rt: HostRuntime) -> Result<(), Fail> {
    refuse_all(&rt, rt.alloc(), MISSING)
}
