use rm_base::{
    Cube, Gate, MemoryShelf, MemorySink, NodeId, OpenGate, OutsideFault, Shelf, Sink, SourceNo,
    SureShelf, Value3, Vector,
};
use std::alloc::{AllocError, Global};
use std::test::Fail;

fn entry(alloc: Global, name: &str, bytes: &[u8]) -> Result<(String, Vec<u8>), AllocError> {
    Ok((
        String::from_str(alloc, name)?,
        Vec::from_slice(alloc, bytes)?,
    ))
}

// Two entries of one name, another file, and failing calls.
fn shelf(alloc: Global, failing: &[u64]) -> Result<MemoryShelf, Fail> {
    let mut files = Vec::new(alloc);
    files.push(entry(alloc, "a", b"first")?)?;
    files.push(entry(alloc, "b", b"other")?)?;
    files.push(entry(alloc, "a", b"last one")?)?;
    Ok(MemoryShelf::new(alloc, files, Vec::from_slice(alloc, failing)?)?)
}

#[test]
fn the_last_entry_of_a_name_counts(rt: HostRuntime) -> Result<(), Fail> {
    let shelf = shelf(rt.alloc(), &[])?;
    assert!(rt; shelf.file("a").ok_or("a")? == b"last one".as_slice());
    assert!(rt; shelf.file("b").ok_or("b")? == b"other".as_slice());
    assert!(rt; shelf.file("c").is_none());
    Ok(())
}

#[test]
fn a_read_gives_the_piece_that_is_there(rt: HostRuntime) -> Result<(), Fail> {
    let mut shelf = shelf(rt.alloc(), &[])?;
    let piece = shelf.read("a", 5, 9)?.ok_or("a")?;
    assert!(rt; piece.as_slice() == b"one".as_slice());
    let piece = shelf.read("a", 1, 3)?.ok_or("a")?;
    assert!(rt; piece.as_slice() == b"ast".as_slice());
    let past = shelf.read("a", 18_446_744_073_709_551_615, 3)?.ok_or("a")?;
    assert!(rt; past.is_empty());
    assert!(rt; shelf.read("c", 0, 3)?.is_none());
    Ok(())
}

#[test]
fn listed_calls_fail_over_all_methods(rt: HostRuntime) -> Result<(), Fail> {
    let mut shelf = shelf(rt.alloc(), &[2, 4, 5])?;
    assert!(rt; shelf.create("n").is_ok());
    assert!(rt; shelf.append("n", b"12345") == Err(OutsideFault::Failed));
    assert!(rt; shelf.file("n").ok_or("n")? == b"12".as_slice());
    assert!(rt; shelf.append("n", b"6").is_ok());
    assert!(rt; shelf.create("n") == Err(OutsideFault::Failed));
    assert!(rt; shelf.file("n").ok_or("n")? == b"126".as_slice());
    let fifth = shelf.read("n", 0, 9);
    assert!(rt; matches!(&fifth, Err(OutsideFault::Failed)));
    assert!(rt; shelf.read("n", 0, 9)?.ok_or("n")?.as_slice() == b"126".as_slice());
    assert!(rt; shelf.create("n").is_ok());
    assert!(rt; shelf.file("n").ok_or("n")?.is_empty());
    Ok(())
}

#[test]
fn a_sink_keeps_what_was_put(rt: HostRuntime) -> Result<(), Fail> {
    let mut sink = MemorySink::new(rt.alloc(), Vec::from_slice(rt.alloc(), &[2])?);
    assert!(rt; sink.put(b"abc").is_ok());
    assert!(rt; sink.put(b"defgh") == Err(OutsideFault::Failed));
    assert!(rt; sink.put(b"i").is_ok());
    assert!(rt; sink.written_bytes() == b"abcdei".as_slice());
    Ok(())
}

#[test]
fn a_sure_shelf_begins_empty(rt: HostRuntime) -> Result<(), Fail> {
    let mut shelf = SureShelf::new(rt.alloc());
    assert!(rt; shelf.file("n").is_none());
    shelf.create("n")?;
    shelf.append("n", b"12")?;
    shelf.append("n", b"3")?;
    assert!(rt; shelf.file("n").ok_or("n")? == b"123".as_slice());
    assert!(rt; shelf.read("n", 1, 1)?.ok_or("n")?.as_slice() == b"2".as_slice());
    Ok(())
}

#[test]
fn a_cube_holds_what_was_set(rt: HostRuntime) -> Result<(), Fail> {
    let mut cube = Cube::unknown(rt.alloc(), 3)?;
    assert_eq!(rt; cube.len(), 3);
    cube.set(SourceNo(1), Value3::One);
    assert_eq!(rt; cube.get(SourceNo(0)), Value3::Unknown);
    assert_eq!(rt; cube.get(SourceNo(1)), Value3::One);
    assert_eq!(rt; cube.get(SourceNo(2)), Value3::Unknown);
    Ok(())
}

#[test]
fn a_vector_holds_what_was_set(rt: HostRuntime) -> Result<(), Fail> {
    let mut vector = Vector::zeros(rt.alloc(), 2)?;
    assert_eq!(rt; vector.len(), 2);
    vector.set(SourceNo(0), true);
    assert!(rt; vector.get(SourceNo(0)));
    assert!(rt; !vector.get(SourceNo(1)));
    assert!(rt; vector.values() == [true, false].as_slice());
    Ok(())
}

#[test]
fn an_open_gate_answers(rt: HostRuntime) -> Result<(), Fail> {
    OpenGate.pass(7);
    assert_eq!(rt; NodeId(3), NodeId(3));
    Ok(())
}
