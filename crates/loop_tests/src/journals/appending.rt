// Entries that are appended to a file, and the files of a shelf that fails.
ghost use Rattle.journal_text.specs.Text.{IsWritable};

use super::ALL_KINDS;
use journal_text::{
    Entry, JournalReader, Record, Stop, append_entry, append_hit, append_spent, append_step,
};
use rm_base::MemoryShelf;
use std::alloc::Global;
use std::test::Fail;

// Adds the line of an entry by the call that is made for its kind.
fn append(alloc: Global, shelf: &mut MemoryShelf, entry: &Entry) -> Result<Result<(), Stop>, Fail>
    requires { IsWritable entry.now }
{
    let Some(_) = shelf.file("journal") else {
        return Err("no file".into());
    };
    Ok(match entry {
        Entry::Record(Record::Step { step, tree }) => append_step(
            alloc, shelf, "journal", *step, tree,
        ),
        Entry::Record(Record::Hit { fault, vector }) => append_hit(
            alloc, shelf, "journal", *fault, vector,
        ),
        Entry::Record(Record::Spent { fault, tree }) => append_spent(
            alloc, shelf, "journal", *fault, tree,
        ),
        Entry::Header { .. } | Entry::End => append_entry(alloc, shelf, "journal", entry),
    })
}

// Adds the lines of the entries that a reader gives up to the first call that fails, and says how many were whole.
fn copy_given(
    alloc: Global,
    reader: &mut JournalReader,
    shelf: &mut MemoryShelf,
) -> Result<(u64, Option<Stop>), Fail> {
    let mut count = 0u64;
    for _ in 0..u64::MAX {
        let Some(entry) = reader.next()? else {
            break;
        };
        if let Err(stop) = append(alloc, shelf, &entry)? {
            return Ok((count, Some(stop)));
        }
        count = count.saturating_add(1);
    }
    Ok((count, None))
}

// Those of a text.
fn copy_entries(
    alloc: Global,
    text: &str,
    shelf: &mut MemoryShelf,
) -> Result<(u64, Option<Stop>), Fail> {
    let mut reader = JournalReader::new(alloc);
    reader.push(text.as_bytes())?;
    copy_given(alloc, &mut reader, shelf)
}

fn shelf(alloc: Global, failing: u64) -> Result<MemoryShelf, Fail> {
    let mut files = Vec::new(alloc);
    for name in ["journal", "other"] {
        files.push((String::from_str(alloc, name)?, Vec::new(alloc)))?;
    }
    Ok(MemoryShelf::new(alloc, files, Vec::from_slice(alloc, &[failing])?)?)
}

#[test]
fn a_shelf_that_fails_has_a_beginning(rt: HostRuntime) -> Result<(), Fail> {
    let alloc = rt.alloc();
    let text = ALL_KINDS.as_bytes();
    for failing in 1..16u64 {
        let mut shelf = shelf(alloc, failing)?;
        let (count, stop) = copy_entries(alloc, ALL_KINDS, &mut shelf)?;
        let kept = shelf.file("journal").ok_or("no file")?;
        assert!(rt; text.starts_with(kept));
        assert_eq!(rt; shelf.file("other"), Some(b"".as_slice()));
        if failing < 15 {
            assert_eq!(rt; (count, stop), (failing - 1, Some(Stop::Failed)));
            assert!(rt; kept.len() < text.len());
        } else {
            assert_eq!(rt; (count, stop), (14, None));
            assert_eq!(rt; kept, text);
        }
    }
    Ok(())
}
