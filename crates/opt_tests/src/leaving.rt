//! Runs of `opt` that end with 0, and `check` on what they leave.
use rm_base::MemoryShelf;
use std::alloc::Global;
use std::test::Fail;
use std::thread::Threads;
use test_runs::{ends, hold, journal_of, run_to_end, shelf};

// Whether `check` accepts what the run has written.
pub(crate) fn is_accepted<R: Threads + Sync>(
    rt: &R,
    alloc: Global,
    shelf: &mut MemoryShelf,
) -> Result<bool, Fail> {
    let (status, put) = run_to_end(rt, alloc, "check in journal out", shelf)?;
    Ok(status == 0 && put.as_slice().starts_with(b"accepted "))
}

// Whether a run puts this summary and writes this output, and a journal that `check` accepts.
pub(crate) fn leaves<R: Threads + Sync>(
    rt: &R,
    alloc: Global,
    line: &str,
    input: &str,
    put: &str,
    output: &str,
) -> Result<bool, Fail> {
    let mut kept = shelf(alloc, [input, "old", "old"], &[])?;
    let ran = ends(rt, alloc, line, &mut kept, 0, put)?;
    let accepted = is_accepted(rt, alloc, &mut kept)?;
    let journal = journal_of(&kept);
    Ok(ran && accepted && hold(&kept, [input, output, journal]))
}

// Runs over this input: the words, what is put, and the output. Fails at the first that doesn't leave that.
pub(crate) fn leave_all<R: Threads + Sync>(
    rt: &R,
    alloc: Global,
    input: &str,
    rows: &[(&str, &str, &str)],
) -> Result<(), Fail> {
    for (line, put, output) in rows {
        if !leaves(rt, alloc, line, input, put, output)? {
            return Err(Fail::new(format_args!("{line}: {put}")));
        }
    }
    Ok(())
}
