// `demo`, over a shelf whose calls all fail: it is never called.
use std::alloc::Global;
use std::test::Fail;
use test_runs::{hold, run_to_end, shelf};

// The numbers of a summary.
fn numbers(alloc: Global, text: &str) -> Result<Vec<u64>, Fail> {
    let mut list = Vec::new(alloc);
    for word in text.split_whitespace() {
        if let Ok(number) = word.parse::<u64>() {
            list.push(number)?;
        }
    }
    Ok(list)
}

// Whether the text is a summary, with no more wires than there were before.
fn is_summary(alloc: Global, text: &str) -> Result<bool, Fail> {
    let list = numbers(alloc, text)?;
    let [
        before,
        wires,
        gates,
        left,
        adds,
        fixes,
        local,
        tries,
        tested,
        spent,
    ] = list.as_slice()
    else {
        return Ok(false);
    };
    let steps = format!(in alloc; "steps {adds} {fixes} {local}\ntries {tries}")?;
    let begins = format!(in alloc; "wires {before} {wires}\ngates {gates} {left}\n{steps} ")?;
    let faults = format!(in alloc; "faults {tested} {spent}\n")?;
    let settled = format!(in alloc; "{begins}settled\n{faults}")?;
    let ended = format!(in alloc; "{begins}spent\n{faults}")?;
    Ok(wires <= before && (text == settled.as_str() || text == ended.as_str()))
}

const LINES: &[&str] = &[
    "demo 1 --depth 0 --tries 200",
    "demo 1 --depth 0 --tries 200",
    "demo 1 --depth 0 --tries 200 --workers 8",
    "demo --tries=200 --depth=0 -- 1",
];

#[test]
fn a_demo_of_few_tries(rt: HostRuntime) -> Result<(), Fail> {
    let alloc = rt.alloc();
    let mut first = Vec::new(alloc);
    for line in LINES {
        let mut shelf = shelf(alloc, ["old", "old", "old"], &[1, 2])?;
        let (status, put) = run_to_end(&rt, rt.alloc(), line, &mut shelf)?;
        assert!(rt; status == 0);
        assert!(rt; hold(&shelf, ["old", "old", "old"]));
        if first.is_empty() {
            first = put;
        } else {
            assert!(rt; first.as_slice() == put.as_slice());
        }
    }
    let text = std::str::from_utf8(first.as_slice()).unwrap_or("");
    assert!(rt; is_summary(alloc, text)?);
    Ok(())
}
