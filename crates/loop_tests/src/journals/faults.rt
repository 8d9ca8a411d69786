// Texts that are no journals: the fault of each, which is the same whole and byte by byte.
use super::read_by;
use crate::worked::FOUR_GATES_JOURNAL;
use journal_text::{JournalFault, read_journal};
use std::alloc::Global;
use std::test::Fail;

// The fault of a text, which is the same whole and byte by byte.
fn fault_of(alloc: Global, text: &[u8]) -> Result<Option<JournalFault>, Fail> {
    let whole = read_journal(alloc, text).err();
    let given = read_by(alloc, text, 1)?;
    if given.fault != whole {
        return Err("another fault in pieces".into());
    }
    Ok(whole)
}

// Each of the words between these parts makes the fault.
fn all_fail(
    alloc: Global,
    before: &str,
    words: &[&str],
    after: &str,
    wanted: JournalFault,
) -> Result<(), Fail> {
    for word in words {
        let text = format!(in alloc; "{before}{word}{after}")?;
        let fault = fault_of(alloc, text.as_bytes())?;
        if fault != Some(wanted) {
            return Err(text.into());
        }
    }
    Ok(())
}

// No headers.
const NO_HEADERS: [&'static str; 19] = [
    "",
    "rambo",
    "rambo 1",
    "rambo 1 ",
    "rambo 1 0",
    "rambo 1 1048577",
    "rambo 1 0256",
    "rambo 1 -1",
    "rambo 1 256 1",
    "rambo 2 256",
    "rambo 01 256",
    "rambo  1 256",
    "rambo\t1 256",
    " rambo 1 256",
    "rambo 1 256 ",
    "rambo 1 256\r",
    "Rambo 1 256",
    "end",
    "dead 6",
];

#[test]
fn headers(rt: HostRuntime) -> Result<(), Fail> {
    let wanted = JournalFault::BadHeader { line: 1 };
    all_fail(rt.alloc(), "", &NO_HEADERS, "\nend\n", wanted)
}

#[test]
fn least_and_greatest_budget(rt: HostRuntime) -> Result<(), Fail> {
    assert_eq!(rt; fault_of(rt.alloc(), b"rambo 1 1\nend\n")?, None);
    assert_eq!(rt; fault_of(rt.alloc(), b"rambo 1 1048576\nend\n")?, None);
    Ok(())
}

// No records.
const NO_RECORDS: [&'static str; 42] = [
    "",
    " ",
    "dead",
    "dead 06",
    "dead 00",
    "dead 4294967296",
    "dead 18446744073709551622",
    "dead 6 7",
    "dead 6 ",
    "dead 6\r",
    "dead +6",
    "dead 6a",
    " dead 6",
    "dead  6",
    "dead\t6",
    "Dead 6",
    "deads 6",
    "rambo 1 256",
    "end 1",
    "end ",
    " end",
    "not",
    "not 5 6",
    "const 6",
    "const 6 0 0",
    "twin 7",
    "add 9 2",
    "add 9 2 ",
    "add 9 a",
    "add 9 02 a",
    "fix 6 0 1",
    "fix 6 0 2 .",
    "fix 6 0 01 .",
    "fix 6 0 a .",
    "fix 6 00 1 .",
    "spent 8 0 1",
    "spent 8 0 1  @",
    "hit 8 0 0",
    "hit 8 0 0 ",
    "hit 8 0 0 102",
    "hit 8 0 0 1 1",
    "hit 8 0 2 1",
];

#[test]
fn damaged_records(rt: HostRuntime) -> Result<(), Fail> {
    let wanted = JournalFault::BadRecord { line: 3 };
    all_fail(
        rt.alloc(),
        "rambo 1 256\ntwice 6\n",
        &NO_RECORDS,
        "\nend\n",
        wanted,
    )
}

// No items.
const NO_ITEMS: [&'static str; 34] = [
    "x",
    "A",
    "6",
    ",",
    "aa",
    "a1",
    "s0",
    ".0",
    "@1",
    "?1",
    "g",
    "g06",
    "g4294967296",
    "g6,1",
    "g6,",
    "g,6",
    "g-6",
    "i9",
    "i9,",
    "i9,00",
    "i9,0,1",
    "i,0",
    "i9 ,0",
    "b7",
    "c7,01",
    "d",
    "/2",
    "/2,2",
    "/2,01",
    "/02,1",
    "/2,1,",
    "!",
    "!2,0",
    "!02",
];

#[test]
fn damaged_items(rt: HostRuntime) -> Result<(), Fail> {
    let wanted = JournalFault::BadRecord { line: 2 };
    all_fail(
        rt.alloc(),
        "rambo 1 256\nadd 9 2 a ",
        &NO_ITEMS,
        " !8\nend\n",
        wanted,
    )
}

#[test]
fn texts_cut_off(rt: HostRuntime) -> Result<(), Fail> {
    let mut line = 1u64;
    for length in 0..FOUR_GATES_JOURNAL.len() {
        let text = &FOUR_GATES_JOURNAL.as_bytes()[..length];
        if text.ends_with(b"\n") {
            line = line.saturating_add(1);
        }
        let fault = fault_of(rt.alloc(), text)?;
        assert_eq!(rt; fault, Some(JournalFault::Truncated { line }));
    }
    Ok(())
}

const LONGER: [(&'static str, u64); 5] = [
    ("rambo 1 256\nend\n\n", 3),
    ("rambo 1 256\nend\nend\n", 3),
    ("rambo 1 256\nend\ndead 6\n", 3),
    ("rambo 1 256\nend\nx", 3),
    ("rambo 1 256\ndead 6\nend\n\0", 4),
];

#[test]
fn longer_texts(rt: HostRuntime) -> Result<(), Fail> {
    for (text, line) in LONGER {
        let fault = fault_of(rt.alloc(), text.as_bytes())?;
        assert_eq!(rt; fault, Some(JournalFault::AfterEnd { line }));
    }
    Ok(())
}
