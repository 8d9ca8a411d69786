//! Journals, whole and in pieces.
ghost use Rattle.std.specs.Prelude.{◌<◌};

mod appending;
mod binary;
mod entries;
mod faults;

use crate::worked::FOUR_GATES_JOURNAL;
use journal_text::{JournalFault, JournalReader, read_journal, write_entry};
use std::alloc::Global;
use std::test::Fail;

// What a reader gives of a text that is pushed in pieces of one length: the lines of the entries, how many there are,
// and the fault, if there is one.
#[derive(Drop)]
struct Given {
    text: Vec<u8>,
    count: u64,
    fault: Option<JournalFault>,
}

// Takes all entries that are there.
fn take_entries(alloc: Global, reader: &mut JournalReader, given: &mut Given) -> Result<(), Fail> {
    for _ in 0..u64::MAX {
        match reader.next() {
            Ok(None) => break,
            Ok(Some(entry)) => {
                given.text.extend_from_slice(&write_entry(alloc, &entry)?)?;
                given.count = given.count.saturating_add(1);
            }
            Err(fault) => {
                given.fault = Some(fault);
                break;
            }
        }
    }
    Ok(())
}

// What the reader answers in the end, again.
fn last_answer(reader: &mut JournalReader) -> Option<JournalFault> {
    match reader.next() {
        Ok(None) => reader.finish().err(),
        Ok(Some(_)) => None,
        Err(fault) => Some(fault),
    }
}

// Takes the entries of pieces of that length.
fn take_pieces(
    alloc: Global,
    reader: &mut JournalReader,
    given: &mut Given,
    text: &[u8],
    size: usize,
) -> Result<(), Fail>
    requires { 0 < size }
{
    for piece in text.chunks(size) {
        reader.push(piece)?;
        take_entries(alloc, reader, given)?;
    }
    given.fault = last_answer(reader);
    Ok(())
}

fn read_by(alloc: Global, text: &[u8], size: usize) -> Result<Given, Fail>
    requires { 0 < size }
{
    let mut reader = JournalReader::new(alloc);
    let mut given = Given {
        text: Vec::new(alloc),
        count: 0,
        fault: None,
    };
    take_pieces(alloc, &mut reader, &mut given, text, size)?;
    Ok(given)
}

#[test]
fn worked_journal_in_pieces_of_every_length(rt: HostRuntime) -> Result<(), Fail> {
    let alloc = rt.alloc();
    for size in 1..302usize {
        let given = read_by(alloc, FOUR_GATES_JOURNAL.as_bytes(), size)?;
        assert_eq!(rt; given.text.as_slice(), FOUR_GATES_JOURNAL.as_bytes());
        assert_eq!(rt; given.count, 21);
        assert_eq!(rt; given.fault, None);
    }
    let (budget, records) = read_journal(alloc, FOUR_GATES_JOURNAL.as_bytes())?;
    assert_eq!(rt; budget, 256);
    assert_eq!(rt; records.len(), 19);
    Ok(())
}

// Every kind of line and of item once.
const ALL_KINDS: &str =
    "rambo 1 1048576\nadd 0 4294967295 a s h10 o11 k1 g12 f13 b14,0 c15,1 p16 q17 r18 e19 n20 w21 d22,2 i23,3 /24,0 !25 .\nfix 10 0 0 /2,1 . .\nnot 2\nconst 6 1\nsame 6 2\nnone 6\none 7\ntwice 8\ntwin 9 8\ndead 10\nhit 8 0 1 0110\nspent 9 1 0 /2,1 @ ?\nend\n";

#[test]
fn all_kinds_are_written_as_they_were_read(rt: HostRuntime) -> Result<(), Fail> {
    let alloc = rt.alloc();
    let given = read_by(alloc, ALL_KINDS.as_bytes(), 7)?;
    assert_eq!(rt; given.text.as_slice(), ALL_KINDS.as_bytes());
    assert_eq!(rt; given.fault, None);
    Ok(())
}
