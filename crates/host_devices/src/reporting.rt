// What a run has to say on standard error, before it and behind it.
use crate::failing::Failed;
use crate::files::{FileShelf, open};
use crate::output::StdoutSink;
use crate::watch::Watch;
use diagnostics::{
    Ending, LineFinder, Subject, SubjectPart, closing_note, explanation, subject_of,
    undecodable_word,
};
use rm_base::NoMemory;
use std::alloc::Global;
use std::fs::{self, OpenOptions};
use std::io::{self, Read};
use std::rt::{Clock, Files};
use std::str::from_utf8;

const MOST_OF_A_TEXT: usize = 16_777_217;

const AROUND: usize = 4_096;

// The first bytes of a regular file, at most so many.
fn first_bytes<R: Files<File = fs::File>>(
    rt: &R,
    alloc: Global,
    name: &str,
    most: usize,
) -> io::Result<Vec<u8>> {
    let mut bytes = Vec::new(alloc);
    if !fs::metadata(rt, name)?.is_file() {
        return Ok(bytes);
    }
    let mut file = open(rt, OpenOptions::new().read(true), name)?;
    let mut buffer = [0u8; 4096];
    for _ in 0..u64::MAX {
        let want = most.saturating_sub(bytes.len()).min(4096);
        let count = file.read(&mut buffer[..want])?;
        if count == 0 {
            break;
        }
        bytes.extend_from_slice(&buffer[..count])?;
    }
    Ok(bytes)
}

// A line of a regular file.
fn line_of<R: Files<File = fs::File>>(
    rt: &R,
    alloc: Global,
    name: &str,
    line: u64,
) -> io::Result<Vec<u8>> {
    let mut finder = LineFinder::new(alloc, line);
    if !fs::metadata(rt, name)?.is_file() {
        return Ok(finder.into_line());
    }
    let mut file = open(rt, OpenOptions::new().read(true), name)?;
    let mut buffer = [0u8; 4096];
    for _ in 0..u64::MAX {
        let count = file.read(&mut buffer)?;
        if count == 0 || finder.is_done() {
            break;
        }
        if finder.take(&buffer[..count]).is_err() {
            break;
        }
    }
    Ok(finder.into_line())
}

// A line of what a pipe has given, if it is there whole.
fn line_in(alloc: Global, bytes: &[u8], line: u64) -> Vec<u8> {
    let mut finder = LineFinder::new(alloc, line);
    if finder.take(bytes).is_ok() && finder.is_done() {
        return finder.into_line();
    }
    Vec::new(alloc)
}

// What a message shows of a file, or nothing where that can't be read again.
fn text_of<R: Files<File = fs::File>>(rt: &R, alloc: Global, subject: &Subject<'_>) -> Vec<u8> {
    let found = match subject.part {
        SubjectPart::Whole => first_bytes(rt, alloc, subject.name, MOST_OF_A_TEXT),
        SubjectPart::Line(line) => line_of(rt, alloc, subject.name, line),
        SubjectPart::UpTo(byte) => {
            let most = (byte as usize).saturating_add(AROUND).min(MOST_OF_A_TEXT);
            first_bytes(rt, alloc, subject.name, most)
        }
    };
    found.unwrap_or(Vec::new(alloc))
}

// The call that failed first of those that a message speaks of.
fn failed<'b, 'a, R: Files<File = fs::File> + Clock + Print>(
    shelf: &'b FileShelf<'a, R>,
    sink: &'b StdoutSink<'a, R>,
) -> Option<&'b Failed> {
    match sink.failed() {
        Some(failed) => Some(failed),
        None => shelf.failed(),
    }
}

// Shows why the run hasn't ended with 0.
fn explain<R: Files<File = fs::File> + Clock + Print>(
    rt: &R,
    alloc: Global,
    watch: &Watch<'_, R>,
    words: &[String],
    shelf: &FileShelf<'_, R>,
    sink: &StdoutSink<'_, R>,
) -> Result<(), NoMemory> {
    let printed = if sink.failed().is_some() {
        ""
    } else {
        sink.printed()
    };
    let mut text = Vec::new(alloc);
    let mut given: &[u8] = &[];
    if let Some(subject) = subject_of(alloc, words, printed)? {
        given = shelf.given(subject.name);
        if let SubjectPart::Line(line) = subject.part
            && !given.is_empty()
        {
            text = line_in(alloc, given, line);
            given = &[];
        } else {
            text = text_of(rt, alloc, &subject);
        }
    }
    let ending = Ending {
        words,
        printed,
        failure: failed(shelf, sink).map(|failed| failed.failure()),
        text: if given.is_empty() {
            text.as_slice()
        } else {
            given
        },
    };
    let message = explanation(alloc, watch.colours(), &ending)?;
    watch.show(message.as_slice());
    Ok(())
}

/// Shows what there is to say of a run that has ended with this status.
pub fn report<R: Files<File = fs::File> + Clock + Print>(
    rt: &R,
    alloc: Global,
    watch: &Watch<'_, R>,
    words: &[String],
    shelf: &FileShelf<'_, R>,
    sink: &StdoutSink<'_, R>,
    status: u8,
) {
    watch.erase();
    if status != 0 {
        if explain(rt, alloc, watch, words, shelf, sink).is_err() {
            watch.show(b"rambo: error: out of memory\n");
        }
    } else if watch.is_terminal()
        && let Ok(note) = closing_note(alloc, sink.printed())
    {
        watch.show(note.as_slice());
    }
}

/// Shows which word of the command line isn't UTF-8, by what the host keeps of it.
pub fn report_undecodable<R: Files<File = fs::File> + Clock + AllocGlobal>(
    rt: &R,
    alloc: Global,
    watch: &Watch<'_, R>,
) {
    let Ok(line) = fs::read(rt, "/proc/self/cmdline") else {
        return;
    };
    let mut number = 0u64;
    for word in line.as_slice().split(|byte| *byte == 0) {
        if from_utf8(word).is_err()
            && let Ok(message) = undecodable_word(alloc, watch.colours(), number, word)
        {
            watch.show(message.as_slice());
            return;
        }
        number = number.saturating_add(1);
    }
}
