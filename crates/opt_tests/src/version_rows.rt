// Journals of version 2: what `convert` writes, and that `check` and `replay` take them.
use rm_base::MemoryShelf;
use std::alloc::Global;
use std::test::Fail;
use std::thread::Threads;
use test_runs::texts::{FOUR_GATES, ONE_GATE, ONE_GATE_JOURNAL, WIRE_JOURNAL, WITH_A_WIRE};
use test_runs::{end_all, ends, holds, refuse_lines, refuses, shelf};

// The header of four records and the first of them, byte by byte.
const FIRST: &[u8] =
    b"rambo 2\n\x00\x01\x00\x00\x04\x00\x00\x00\x00\x00\x00\x00\x0b\x04\x00\x00\x00\x00\x00\x00\x00\x00\x02\x00\x00\x00\x00\x00\x00\x00\x01\x01";

// The journal of these files in version 2. Each of its bytes is one of ASCII.
fn converted<R: Threads + Sync>(
    rt: &R,
    shelf: &mut MemoryShelf,
    alloc: Global,
    put: &str,
) -> Result<String, Fail> {
    if !ends(rt, alloc, "convert journal binary", shelf, 0, put)? {
        return Err(Fail::from("not converted"));
    }
    let bytes = shelf.file("binary").ok_or("no such file")?;
    let text = std::str::from_utf8(bytes).unwrap_or("-");
    Ok(String::from_str(alloc, text)?)
}

// What comes of it.
const BINARY_ENDS: &[(&str, u8, &str)] = &[
    ("check in binary out", 0, "accepted 4\n"),
    ("convert binary again", 6, "journal line 1 BadHeader\n"),
];

#[test]
fn four_vectors_take_100_bytes(rt: HostRuntime) -> Result<(), Fail> {
    let alloc = rt.alloc();
    let mut shelf = shelf(alloc, [ONE_GATE, ONE_GATE, ONE_GATE_JOURNAL], &[])?;
    let binary = converted(&rt, &mut shelf, alloc, "converted 4\n")?;
    assert!(rt; binary.len() == 100);
    assert!(rt; binary.as_bytes().starts_with(FIRST));
    end_all(&rt, alloc, &mut shelf, BINARY_ENDS)?;
    assert!(rt; shelf.file("again").is_none());
    Ok(())
}

// Whether a journal of these bytes is refused so.
fn rejects<R: Threads + Sync>(
    rt: &R,
    alloc: Global,
    journal: &str,
    why: &str,
) -> Result<bool, Fail> {
    let put = format!(in alloc; "journal entry {why}\n")?;
    let texts = [ONE_GATE, ONE_GATE, journal];
    refuses(rt, alloc, "check in journal out", texts, 6, &put)
}

// The first bytes of the text, others in place of those that follow them, and the last ones from a place on.
fn changed(alloc: Global, text: &str, first: u32, others: &str, last: u32) -> Result<String, Fail> {
    let mut made = String::new(alloc);
    let mut at = 0u32;
    for letter in text.chars() {
        if at == first {
            made.push_str(others)?;
        }
        if at < first || last <= at {
            made.push(letter)?;
        }
        at = at.saturating_add(1);
    }
    if at == first {
        made.push_str(others)?;
    }
    Ok(made)
}

// So many bytes of the journal of four records, others behind them, the rest from a place on, and what is found of that.
const CHANGED: &[(u32, &str, u32, &str)] = &[
    (99, "", 100, "4 Truncated"),
    (8, "", 100, "0 Truncated"),
    (20, "", 100, "1 Truncated"),
    (100, "\x00", 100, "5 AfterEnd"),
    (20, "\r", 21, "1 BadRecord"),
    (8, "\x00\x00\x00\x00", 12, "0 BadHeader"),
];

#[test]
fn bytes_that_are_no_journal(rt: HostRuntime) -> Result<(), Fail> {
    let alloc = rt.alloc();
    let mut shelf = shelf(alloc, [ONE_GATE, ONE_GATE, ONE_GATE_JOURNAL], &[])?;
    let binary = converted(&rt, &mut shelf, alloc, "converted 4\n")?;
    for (first, others, last, why) in CHANGED {
        let journal = changed(alloc, &binary, *first, others, *last)?;
        assert!(rt; rejects(&rt, alloc, &journal, why)?, "{why}");
    }
    Ok(())
}

const WIRE_ENDS: &[(&str, u8, &str)] = &[
    ("check in binary out", 0, "accepted 19\n"),
    ("replay in binary left", 0, "replayed 9\n"),
];

#[test]
fn the_added_wire_in_either_version(rt: HostRuntime) -> Result<(), Fail> {
    let alloc = rt.alloc();
    let mut shelf = shelf(alloc, [FOUR_GATES, WITH_A_WIRE, WIRE_JOURNAL], &[])?;
    let binary = converted(&rt, &mut shelf, alloc, "converted 19\n")?;
    assert!(rt; !binary.is_empty());
    end_all(&rt, alloc, &mut shelf, WIRE_ENDS)?;
    assert!(rt; holds(&shelf, "left", WITH_A_WIRE));
    Ok(())
}

const REFUSED: &[(&str, u8, &str)] = &[
    ("convert in binary", 6, "journal line 1 BadHeader\n"),
    ("convert missing binary", 3, "fault shelf\n"),
    ("convert journal", 2, "words refused\n"),
    ("convert journal journal", 2, "words refused\n"),
    ("convert journal a b", 2, "words refused\n"),
    ("convert journal binary --budget 3", 2, "words refused\n"),
];

#[test]
fn what_is_not_converted(rt: HostRuntime) -> Result<(), Fail> {
    let texts = [ONE_GATE, "old", ONE_GATE_JOURNAL];
    refuse_lines(&rt, rt.alloc(), texts, REFUSED)
}
