// Journals of version 2: their bytes, and reading them in pieces.
ghost use Rattle.std.specs.Prelude.{◌<◌};

use super::ALL_KINDS;
use journal_binary::{BinaryFault, BinaryReader, write_binary};
use journal_text::{Entry, Record, read_journal};
use std::alloc::Global;
use std::test::Fail;

// What a reader gives of bytes that are pushed in pieces of one length.
#[derive(Drop)]
struct Given {
    budget: u32,
    records: Vec<Record>,
    fault: Option<BinaryFault>,
}

// Takes all entries that are there.
fn take_entries(reader: &mut BinaryReader, given: &mut Given) -> Result<(), Fail> {
    for _ in 0..u64::MAX {
        match reader.next() {
            Ok(None) => break,
            Ok(Some(Entry::Header { budget })) => given.budget = budget,
            Ok(Some(Entry::Record(record))) => given.records.push(record)?,
            Ok(Some(Entry::End)) => {}
            Err(fault) => {
                given.fault = Some(fault);
                break;
            }
        }
    }
    Ok(())
}

// What the reader answers in the end, again.
fn last_answer(reader: &mut BinaryReader) -> Option<BinaryFault> {
    match reader.next() {
        Ok(None) => reader.finish().err(),
        Ok(Some(_)) => None,
        Err(fault) => Some(fault),
    }
}

// Takes the entries of pieces of that length.
fn take_pieces(
    reader: &mut BinaryReader,
    given: &mut Given,
    bytes: &[u8],
    size: usize,
) -> Result<(), Fail>
    requires { 0 < size }
{
    for piece in bytes.chunks(size) {
        reader.push(piece)?;
        take_entries(reader, given)?;
    }
    given.fault = last_answer(reader);
    Ok(())
}

fn read_by(alloc: Global, bytes: &[u8], size: usize) -> Result<Given, Fail>
    requires { 0 < size }
{
    let mut reader = BinaryReader::new(alloc);
    let mut given = Given {
        budget: 0,
        records: Vec::new(alloc),
        fault: None,
    };
    take_pieces(&mut reader, &mut given, bytes, size)?;
    Ok(given)
}

#[test]
fn all_kinds_in_pieces_of_every_length(rt: HostRuntime) -> Result<(), Fail> {
    let alloc = rt.alloc();
    let (budget, records) = read_journal(alloc, ALL_KINDS.as_bytes())?;
    let whole = write_binary(alloc, budget, &records)?;
    assert_eq!(rt; whole.len(), 268);
    let body = whole.strip_prefix(b"rambo 2\n").ok_or("no version")?;
    for size in 1..262usize {
        let given = read_by(alloc, body, size)?;
        assert_eq!(rt; given.fault, None);
        let again = write_binary(alloc, given.budget, &given.records)?;
        assert_eq!(rt; again.as_slice(), whole.as_slice());
    }
    Ok(())
}

// A budget of 256, one record, and the record: a hit of the fault of gate 4 at pin 0, stuck at 0, by 11.
const HIT: &[u8] =
    b"\x00\x01\0\0\x01\0\0\0\0\0\0\0\x0b\x04\0\0\0\0\0\0\0\0\x02\0\0\0\0\0\0\0\x01\x01";

#[test]
fn a_hit_byte_by_byte(rt: HostRuntime) -> Result<(), Fail> {
    let alloc = rt.alloc();
    let (budget, records) = read_journal(alloc, b"rambo 1 256\nhit 4 0 0 11\nend\n")?;
    let whole = write_binary(alloc, budget, &records)?;
    assert_eq!(rt; whole.strip_prefix(b"rambo 2\n"), Some(HIT));
    Ok(())
}

// Up to how many bytes of the hit, what stands behind them, and the fault.
const FAULTS: [(usize, &'static [u8], BinaryFault); 10] = [
    (0, b"", BinaryFault::Truncated { number: 0 }),
    (11, b"", BinaryFault::Truncated { number: 0 }),
    (12, b"", BinaryFault::Truncated { number: 1 }),
    (31, b"", BinaryFault::Truncated { number: 1 }),
    (32, b"\n", BinaryFault::AfterEnd { number: 2 }),
    (0, b"\0\0\0\0", BinaryFault::BadHeader),
    (0, b"\x01\0\x10\0", BinaryFault::BadHeader),
    (12, b"\0", BinaryFault::BadRecord { number: 1 }),
    (
        22,
        b"\0\0\0\0\0\0\0\0",
        BinaryFault::BadRecord { number: 1 },
    ),
    (31, b"\x02", BinaryFault::BadRecord { number: 1 }),
];

#[test]
fn the_first_fault(rt: HostRuntime) -> Result<(), Fail> {
    let alloc = rt.alloc();
    for (kept, more, fault) in FAULTS {
        let mut bytes = Vec::from_slice(alloc, HIT.get(..kept).ok_or("too short")?)?;
        bytes.extend_from_slice(more)?;
        for size in [1usize, 3, 40] {
            assert_eq!(rt; read_by(alloc, &bytes, size)?.fault, Some(fault));
        }
    }
    Ok(())
}
