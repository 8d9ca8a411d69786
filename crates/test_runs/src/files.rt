//! Files in memory. A file is named by its text, and a text `-` stands for no file.
use rm_base::MemoryShelf;
use std::alloc::Global;
use std::test::Fail;

/// A shelf with files of these names and texts, whose calls fail where they are listed.
pub fn shelf_of(
    alloc: Global,
    named: &[(&str, &str)],
    failing: &[u64],
) -> Result<MemoryShelf, Fail> {
    let mut files = Vec::new(alloc);
    for (name, text) in named {
        if *text != "-" {
            files.push((
                String::from_str(alloc, name)?,
                Vec::from_slice(alloc, text.as_bytes())?,
            ))?;
        }
    }
    Ok(MemoryShelf::new(alloc, files, Vec::from_slice(alloc, failing)?)?)
}

/// The same with the files `in`, `out` and `journal`.
pub fn shelf(alloc: Global, texts: [&str; 3], failing: &[u64]) -> Result<MemoryShelf, Fail> {
    let [input, output, journal] = texts;
    let named = [("in", input), ("out", output), ("journal", journal)];
    shelf_of(alloc, &named, failing)
}

/// Whether a file holds this text.
pub fn holds(shelf: &MemoryShelf, name: &str, wanted: &str) -> bool {
    match shelf.file(name) {
        Some(bytes) => bytes == wanted.as_bytes(),
        None => wanted == "-",
    }
}

/// Whether the files `in`, `out` and `journal` hold these texts.
pub fn hold(shelf: &MemoryShelf, texts: [&str; 3]) -> bool {
    let [input, output, journal] = texts;
    holds(shelf, "in", input) && holds(shelf, "out", output) && holds(shelf, "journal", journal)
}

/// The text of the journal, where it is one.
pub fn journal_of(shelf: &MemoryShelf) -> &str {
    match shelf.file("journal") {
        Some(bytes) => std::str::from_utf8(bytes).unwrap_or("-"),
        None => "-",
    }
}

/// A part, so many times.
pub fn repeat_part(alloc: Global, part: &str, count: u32) -> Result<String, Fail> {
    let mut text = String::new(alloc);
    for _ in 0..count {
        text.push_str(part)?;
    }
    Ok(text)
}
