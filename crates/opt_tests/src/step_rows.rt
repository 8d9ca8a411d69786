// The records of worked runs in their order, without their trees and vectors.
use std::alloc::Global;
use std::test::Fail;
use std::thread::Threads;
use test_runs::texts::{ABSORBED, FOUR_GATES, MULTIPLEXER, ZERO_ROW};
use test_runs::{journal_of, run_to_end, shelf};

// Each line is one of these, or one of these with a blank and a tree or a vector behind it.
const ROWS: &[(&str, &str)] = &[
    (
        ABSORBED,
        "rambo 1 256\nfix 4 0 0\nconst 4 0\ndead 4\nconst 5 1\none 5\ndead 5\nend\n",
    ),
    (
        FOUR_GATES,
        "rambo 1 256\nadd 9 2\nfix 6 0 1\nconst 6 0\none 6\ndead 6\nfix 7 0 1\nconst 7 0\none 7\ndead 7\nhit 8 0 0\nhit 8 0 1\nhit 8 1 0\nhit 8 1 1\nhit 9 0 0\nhit 9 0 1\nhit 9 1 0\nhit 9 1 1\nhit 9 2 0\nhit 9 2 1\nend\n",
    ),
    (
        MULTIPLEXER,
        "rambo 1 256\nfix 8 0 0\nconst 8 0\ndead 8\nconst 9 2\nhit 5 0 0\nhit 5 0 1\nhit 6 0 0\nhit 6 0 1\nhit 6 1 0\nhit 6 1 1\nhit 7 0 0\nhit 7 0 1\nhit 7 1 0\nhit 7 1 1\nhit 9 0 0\nhit 9 0 1\nhit 9 1 0\nhit 9 1 1\nend\n",
    ),
    (ZERO_ROW, "rambo 1 256\nconst 2 0\ndead 2\nend\n"),
];

fn begins(line: &str, head: &str) -> bool {
    match line.strip_prefix(head) {
        Some(rest) => rest.is_empty() || rest.starts_with(' '),
        None => false,
    }
}

// Whether the lines of the text begin like these, and there are as many.
fn begin(text: &str, heads: &str) -> bool {
    let mut heads = heads.split('\n');
    for line in text.split('\n') {
        let Some(head) = heads.next() else {
            return false;
        };
        if !begins(line, head) {
            return false;
        }
    }
    heads.next().is_none()
}

// Whether a run ends with 0, and the lines of its journal begin like these.
fn records<R: Threads + Sync>(
    rt: &R,
    alloc: Global,
    input: &str,
    heads: &str,
) -> Result<bool, Fail> {
    let mut shelf = shelf(alloc, [input, "old", "old"], &[])?;
    let (status, _put) = run_to_end(rt, alloc, "opt in out journal", &mut shelf)?;
    Ok(status == 0 && begin(journal_of(&shelf), heads))
}

#[test]
fn records_in_their_order(rt: HostRuntime) -> Result<(), Fail> {
    for (input, heads) in ROWS {
        assert!(rt; records(&rt, rt.alloc(), input, heads)?, "{input}");
    }
    Ok(())
}
