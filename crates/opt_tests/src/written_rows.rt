// How the netlist that is left is written: one cover a gate, names that are free, copies and constants.
use std::alloc::Global;
use std::test::Fail;
use std::thread::Threads;
use test_runs::{hold, journal_of, repeat_part, run_to_end, shelf};

// Whether a run that tries no addition ends well and writes this output, and `check` accepts its journal.
fn writes<R: Threads + Sync>(
    rt: &R,
    alloc: Global,
    input: &str,
    output: &str,
) -> Result<bool, Fail> {
    let mut shelf = shelf(alloc, [input, "old", "old"], &[])?;
    let (ran, _put) = run_to_end(rt, alloc, "opt in out journal --tries 0", &mut shelf)?;
    let (checked, _put) = run_to_end(rt, alloc, "check in journal out", &mut shelf)?;
    let journal = journal_of(&shelf);
    Ok(ran == 0 && checked == 0 && hold(&shelf, [input, output, journal]))
}

const EACH_KIND: &str =
    ".model kinds\n.inputs a b c\n.outputs x y z\n.names a b c x\n111 1\n.names a b c y\n1-- 1\n-1- 1\n--1 1\n.names a z\n0 1\n.end\n";

const ROWS: &[(&str, &str)] = &[
    // An And, an Or and a Not.
    (EACH_KIND, EACH_KIND),
    // A source has a name that begins with n0_, and an output one that begins with n1_.
    (
        ".model prefix\n.inputs n0_ b c\n.outputs n1_7\n.names n0_ b t\n11 1\n.names t c n1_7\n1- 1\n-1 1\n.end\n",
        ".model prefix\n.inputs n0_ b c\n.outputs n1_7\n.names n0_ b n2_5\n11 1\n.names n2_5 c n1_7\n1- 1\n-1 1\n.end\n",
    ),
    // A gate has the first name at which it is observed, and the second one is a copy.
    (
        ".model first\n.inputs a b\n.outputs z y\n.names a b t\n11 1\n.names t y\n1 1\n.names t z\n1 1\n.end\n",
        ".model first\n.inputs a b\n.outputs z y\n.names a b z\n11 1\n.names z y\n1 1\n.end\n",
    ),
    // Constants and copies come after the gates, by first appearance, each name once, and none for a name that is a source.
    (
        ".model copies\n.inputs a\n.outputs k y a z o\n.latch z q 0\n.names k\n.names a y\n0 1\n.names a z\n1 1\n.names o\n1\n.end\n",
        ".model copies\n.inputs a\n.outputs k y a z o\n.latch z q 0\n.names a y\n0 1\n.names k\n.names a z\n1 1\n.names o\n1\n.end\n",
    ),
];

#[test]
fn gates_names_and_copies(rt: HostRuntime) -> Result<(), Fail> {
    for (input, output) in ROWS {
        assert!(rt; writes(&rt, rt.alloc(), input, output)?);
    }
    Ok(())
}

// The head of an Or of so many inputs, and its cover with a row for each of them.
fn wide_or(alloc: Global, count: u32) -> Result<(String, String), Fail> {
    let mut head = String::new(alloc);
    let mut rows = String::new(alloc);
    for number in 0..count {
        let before = repeat_part(alloc, "-", number)?;
        let after = repeat_part(alloc, "-", count - 1 - number)?;
        head.push_str(&format!(in alloc; " i{number}")?)?;
        rows.push_str(&format!(in alloc; "{before}1{after} 1\n")?)?;
    }
    let text = format!(in alloc; ".model or\n.inputs{head}\n.outputs z\n.names{head} z\n")?;
    Ok((text, rows))
}

#[test]
fn an_or_of_more_than_64_inputs_has_one_row(rt: HostRuntime) -> Result<(), Fail> {
    let alloc = rt.alloc();
    let (head, rows) = wide_or(alloc, 64)?;
    let text = format!(in alloc; "{head}{rows}.end\n")?;
    assert!(rt; writes(&rt, alloc, &text, &text)?);
    let (head, rows) = wide_or(alloc, 65)?;
    let zeros = repeat_part(alloc, "0", 65)?;
    let text = format!(in alloc; "{head}{rows}.end\n")?;
    let written = format!(in alloc; "{head}{zeros} 0\n.end\n")?;
    assert!(rt; writes(&rt, alloc, &text, &written)?);
    Ok(())
}
