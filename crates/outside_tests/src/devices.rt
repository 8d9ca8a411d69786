//! The real files and standard output.
use diagnostics::{Operation, Reason};
use host_devices::{FileShelf, StdoutSink, Watch};
use rm_base::{OutsideFault, Shelf, Sink};
use std::alloc::{AllocError, Global};
use std::fmt::Display;
use std::rt::{Clock, Files};
use std::test::Fail;
use std::{fs, io};

// A megabyte in which no part of 4,096 bytes is like another.
fn long_text(alloc: Global) -> Result<Vec<u8>, AllocError> {
    let mut text = Vec::with_capacity(alloc, 1_000_000)?;
    for at in 0..1_000_000u32 {
        text.push((at.wrapping_mul(2_654_435_761) >> 24) as u8)?;
    }
    Ok(text)
}

#[test]
fn a_longer_file_is_emptied_and_appends_follow_each_other(rt: HostRuntime) -> Result<(), Fail> {
    let alloc = rt.alloc();
    let text = long_text(alloc)?;
    fs::write(&rt, "older", text.as_slice())?;
    let watch = Watch::quiet(&rt, rt.stderr());
    let mut shelf = FileShelf::new(&rt, alloc, &watch);
    shelf.create("older")?;
    assert_eq!(rt; fs::read(&rt, "older")?.as_slice(), b"".as_slice());
    shelf.append("older", b"a")?;
    shelf.append("older", text.as_slice())?;
    shelf.append("older", b"z")?;
    let found = fs::read(&rt, "older")?;
    assert_eq!(rt; found.len(), 1_000_002);
    assert_eq!(rt; found.first().copied(), Some(b'a'));
    assert_eq!(rt; found.last().copied(), Some(b'z'));
    assert_eq!(rt; found.get(1..1_000_001), Some(text.as_slice()));
    Ok(())
}

#[test]
fn a_file_is_read_in_pieces_from_any_place(rt: HostRuntime) -> Result<(), Fail> {
    let alloc = rt.alloc();
    let text = long_text(alloc)?;
    fs::write(&rt, "pieces", text.as_slice())?;
    let watch = Watch::quiet(&rt, rt.stderr());
    let mut shelf = FileShelf::new(&rt, alloc, &watch);
    for (from, most, end) in [
        (0, 4_095, 4_095),
        (4_095, 1, 4_096),
        (4_096, 4_097, 8_193),
        (8_193, 100_000, 108_193),
        (3, 5, 8),
        (999_999, 9, 1_000_000),
        (1_000_000, 9, 1_000_000),
        (0, 2_000_000, 1_000_000),
    ] {
        let found = shelf.read("pieces", from as u64, most)?.ok_or("no file")?;
        assert_eq!(rt; Some(found.as_slice()), text.get(from..end), "from {from}");
    }
    Ok(())
}

// Why the last call of the shelf failed, in words of this test.
fn reason_of<'a>(reason: Reason<'a>) -> &'a str {
    match reason {
        Reason::Host(words) => words,
        Reason::SameFile => "same",
        Reason::IsOutput => "output",
        Reason::Locked => "locked",
    }
}

fn last_failure<'b>(
    shelf: &'b FileShelf<'_, impl Files<File = fs::File> + Clock>,
) -> (Option<Operation>, &'b str) {
    match shelf.failed() {
        Some(failed) => {
            let failure = failed.failure();
            (Some(failure.operation), reason_of(failure.reason))
        }
        None => (None, ""),
    }
}

#[test]
fn calls_that_fail_are_kept(rt: HostRuntime) -> Result<(), Fail> {
    let watch = Watch::quiet(&rt, rt.stderr());
    let mut shelf = FileShelf::new(&rt, rt.alloc(), &watch);
    fs::create_dir(&rt, "folder")?;
    fs::write(&rt, "read_first", b"text")?;
    fs::hard_link(&rt, "read_first", "linked")?;
    shelf.read("read_first", 0, 9)?;
    for (name, wanted) in [
        ("read_first", "same"),
        ("./read_first", "same"),
        ("linked", "same"),
        ("folder", "Is a directory (os error 21)"),
        ("no_folder/file", "No such file or directory (os error 2)"),
    ] {
        assert_eq!(rt; shelf.create(name), Err(OutsideFault::Failed));
        assert_eq!(rt;
            last_failure(&shelf),
            (Some(Operation::Create), wanted),
            "{name}"
        );
    }
    assert_eq!(rt; fs::read(&rt, "linked")?.as_slice(), b"text".as_slice());
    shelf.create("created_first")?;
    assert_eq!(rt; shelf.create("./created_first"), Err(OutsideFault::Failed));
    for (name, wanted) in [
        ("folder", "Is a directory (os error 21)"),
        ("no_such_file", "No such file or directory (os error 2)"),
    ] {
        assert_eq!(rt; shelf.read(name, 0, 4).err(), Some(OutsideFault::Failed));
        assert_eq!(rt;
            last_failure(&shelf),
            (Some(Operation::Read), wanted),
            "{name}"
        );
    }
    Ok(())
}

#[test]
fn a_full_device_takes_nothing(rt: HostRuntime) -> Result<(), Fail> {
    let watch = Watch::quiet(&rt, rt.stderr());
    let mut shelf = FileShelf::new(&rt, rt.alloc(), &watch);
    shelf.create("/dev/full")?;
    assert_eq!(rt;
        shelf.append("/dev/full", b"abc").err(),
        Some(OutsideFault::Failed)
    );
    let written = Operation::Write { written: 0 };
    assert_eq!(rt;
        last_failure(&shelf),
        (Some(written), "No space left on device (os error 28)")
    );
    assert_eq!(rt;
        shelf.append("not_created", b"a").err(),
        Some(OutsideFault::Failed)
    );
    Ok(())
}

// A standard output that is closed.
struct Closed;

impl Print for Closed {
    fn print<D: Display + Drop>(&self, _value: D) -> io::Result<()> {
        Err(io::Error::from(io::ErrorKind::BrokenPipe))
    }

    fn println<D: Display + Drop>(&self, _value: D) -> io::Result<()> {
        Err(io::Error::from(io::ErrorKind::BrokenPipe))
    }

    fn write_all(&self, _bytes: &[u8]) -> io::Result<()> {
        Err(io::Error::from(io::ErrorKind::BrokenPipe))
    }
}

#[test]
fn output_is_put_or_fails(rt: HostRuntime) -> Result<(), Fail> {
    let alloc = rt.alloc();
    let mut sink = StdoutSink::new(&rt, alloc);
    assert_eq!(rt; sink.put(b"one line of standard output\n"), Ok(()));
    assert_eq!(rt; sink.printed(), "one line of standard output\n");
    let mut closed = StdoutSink::new(&Closed, alloc);
    assert_eq!(rt; closed.put(b"a line\n"), Err(OutsideFault::Failed));
    assert_eq!(rt;
        closed.failed().map(|failed| failed.failure().operation),
        Some(Operation::Print)
    );
    Ok(())
}
