//! Runs of the program, and whether they come out as a row says.
use crate::files::{hold, journal_of, shelf};
use rambo_cli::{NameKeys, run};
use rm_base::{Gate, MemoryShelf, MemorySink, OpenGate};
use std::alloc::Global;
use std::test::Fail;
use std::thread::Threads;

// The words of a line, parted by blanks.
fn words(alloc: Global, line: &str) -> Result<Vec<String>, Fail> {
    let mut list = Vec::new(alloc);
    if line.is_empty() {
        return Ok(list);
    }
    for word in line.split(' ') {
        list.push(String::from_str(alloc, word)?)?;
    }
    Ok(list)
}

/// The status of a run that puts to this sink, and whose workers pass this gate.
pub fn run_through<R: Threads + Sync, G: Gate>(
    rt: &R,
    alloc: Global,
    line: &str,
    shelf: &mut MemoryShelf,
    sink: &mut MemorySink,
    gate: &G,
) -> Result<u8, Fail> {
    let words = words(alloc, line)?;
    Ok(run(
        rt,
        alloc,
        NameKeys::Ordered,
        words.as_slice(),
        shelf,
        sink,
        gate,
    ))
}

/// The status of a run, and what it puts.
pub fn run_to_end<R: Threads + Sync>(
    rt: &R,
    alloc: Global,
    line: &str,
    shelf: &mut MemoryShelf,
) -> Result<(u8, Vec<u8>), Fail> {
    let mut sink = MemorySink::new(alloc, Vec::new(alloc));
    let status = run_through(rt, alloc, line, shelf, &mut sink, &OpenGate)?;
    Ok((status, Vec::from_slice(alloc, sink.written_bytes())?))
}

/// Whether a run ends with this status and puts this text.
pub fn ends<R: Threads + Sync>(
    rt: &R,
    alloc: Global,
    line: &str,
    shelf: &mut MemoryShelf,
    status: u8,
    put: &str,
) -> Result<bool, Fail> {
    let (got, text) = run_to_end(rt, alloc, line, shelf)?;
    Ok(got == status && text.as_slice() == put.as_bytes())
}

/// Whether a run over these files ends with this status, puts this text and changes no file.
pub fn refuses<R: Threads + Sync>(
    rt: &R,
    alloc: Global,
    line: &str,
    texts: [&str; 3],
    status: u8,
    put: &str,
) -> Result<bool, Fail> {
    let mut shelf = shelf(alloc, texts, &[])?;
    let ends = ends(rt, alloc, line, &mut shelf, status, put)?;
    Ok(ends && hold(&shelf, texts))
}
