//! Rows of runs, with one loop for each form of row. Each fails at the first row that comes out otherwise.
use crate::running::{ends, refuses};
use rm_base::MemoryShelf;
use std::alloc::Global;
use std::test::Fail;
use std::thread::Threads;

/// Words, the files `in`, `out` and `journal`, the status and what is put, where no file changes.
pub type Refused<'a> = (&'a str, [&'a str; 3], u8, &'a str);

/// Runs that change no file.
pub fn refuse_all<R: Threads + Sync>(
    rt: &R,
    alloc: Global,
    rows: &[Refused<'_>],
) -> Result<(), Fail> {
    for (line, texts, status, put) in rows {
        if !refuses(rt, alloc, line, *texts, *status, put)? {
            return Err(Fail::new(format_args!("{line}: {put}")));
        }
    }
    Ok(())
}

/// Runs over the same files one after the other: the words, the status and what is put.
pub fn end_all<R: Threads + Sync>(
    rt: &R,
    alloc: Global,
    shelf: &mut MemoryShelf,
    rows: &[(&str, u8, &str)],
) -> Result<(), Fail> {
    for (line, status, put) in rows {
        if !ends(rt, alloc, line, shelf, *status, put)? {
            return Err(Fail::new(format_args!("{line}: {put}")));
        }
    }
    Ok(())
}

/// Runs over these files, each with its words, its status and what it puts, that change no file.
pub fn refuse_lines<R: Threads + Sync>(
    rt: &R,
    alloc: Global,
    texts: [&str; 3],
    rows: &[(&str, u8, &str)],
) -> Result<(), Fail> {
    for (line, status, put) in rows {
        if !refuses(rt, alloc, line, texts, *status, put)? {
            return Err(Fail::new(format_args!("{line}: {put}")));
        }
    }
    Ok(())
}
