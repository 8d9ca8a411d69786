// Hierarchies that are made flat, and faults of them.
use std::alloc::Global;
use std::test::Fail;
use std::thread::Threads;
use test_runs::{ends, hold, refuse_lines, refuses, shelf};

const INVERTED: &str =
    ".model top\n.inputs a b\n.outputs z\n.names n b z\n11 1\n.names a s0_1_i\n1 1\n.names s0_1_i s0_1_o\n0 1\n.names s0_1_o n\n1 1\n.end\n";

// A top with this fourth line, and an inverter.
fn calling(alloc: Global, call: &str) -> Result<String, Fail> {
    Ok(format!(in alloc;
        ".model top\n.inputs a b\n.outputs z\n{call}\n.names n b z\n11 1\n.end\n.model inv\n.inputs i\n.outputs o\n.names i o\n0 1\n.end\n"
    )?)
}

#[test]
fn an_inverter_is_joined(rt: HostRuntime) -> Result<(), Fail> {
    let alloc = rt.alloc();
    let text = calling(alloc, ".subckt inv i=a o=n")?;
    let mut shelf = shelf(alloc, [&text, "old", "-"], &[])?;
    assert!(rt; ends(&rt, alloc, "flat in out", &mut shelf, 0, "flat 2 4\n")?);
    assert!(rt; hold(&shelf, [&text, INVERTED, "-"]));
    assert!(rt; ends(&rt, alloc, "flat out again", &mut shelf, 0, "flat 1 4\n")?);
    assert!(rt; shelf.file("again") == Some(INVERTED.as_bytes()));
    Ok(())
}

const FAULTS: &[(&str, &str)] = &[
    (".subckt inv o=n", "text 4:1 MissingPin\n"),
    (".subckt inw i=a o=n", "text 4:9 UnknownModel\n"),
    (".subckt inv i=a x=n", "text 4:17 BadPin\n"),
    (".subckt top a=a b=b z=n", "text 4:1 Recursive\n"),
    (".subckt inv i=a o", "text 4:17 BadPin\n"),
    (".subckt inv i=a o=b", "text 4:17 DoubleDriven\n"),
    (".subckt inv i=m o=n", "text 4:13 Undriven\n"),
    (".subckt inv i=z o=n", "text 5:1 NoRank\n"),
    (".search lib.blif", "text 4:1 Unsupported\n"),
];

// Whether the top with this line is refused, and why.
fn is_faulty<R: Threads + Sync>(
    rt: &R,
    alloc: Global,
    call: &str,
    put: &str,
) -> Result<bool, Fail> {
    let text = calling(alloc, call)?;
    refuses(rt, alloc, "flat in out", [&text, "old", "-"], 1, put)
}

#[test]
fn faults_of_hierarchies(rt: HostRuntime) -> Result<(), Fail> {
    for (call, put) in FAULTS {
        assert!(rt; is_faulty(&rt, rt.alloc(), call, put)?, "{call}");
    }
    Ok(())
}

// What `opt` and `check` refuse stays refused, and so do these words.
const REFUSED: &[(&str, u8, &str)] = &[
    ("opt in out", 1, "text 4:1 Unsupported\n"),
    ("check in out out", 1, "text 4:1 Unsupported\n"),
    ("flat in", 2, "words refused\n"),
    ("flat in in", 2, "words refused\n"),
    ("flat in out --depth 1", 2, "words refused\n"),
    ("flat missing out", 3, "fault shelf\n"),
];

#[test]
fn what_changes_no_file(rt: HostRuntime) -> Result<(), Fail> {
    let alloc = rt.alloc();
    let text = calling(alloc, ".subckt inv i=a o=n")?;
    refuse_lines(&rt, alloc, [&text, "old", "-"], REFUSED)
}
