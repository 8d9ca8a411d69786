// The real files. Nothing is told of what they hold.
ghost use Rattle.std.specs.Prelude.{◌≡◌, ◌≤◌, IfOk, length, None};
ghost use Rattle.rm_base.specs.Causes.{HasCause};

use crate::failing::{Cause, Failed};
use crate::watch::Watch;
use diagnostics::{Operation, Progress, is_window_journal, journals_prefix};
use rm_base::{NoMemory, OutsideFault, Shelf};
use std::alloc::Global;
use std::fs::{File, Metadata, OpenOptions, TryLockError};
use std::io::{Error, ErrorKind, Read, Seek, SeekFrom, Write};
use std::os::fd::AsRawFd;
use std::os::unix::fs::MetadataExt;
use std::rt::{Clock, Files};
use std::{fs, io};

// What tells a file from all others, whatever its names are.
#[derive(Clone, Copy, PartialEq, Eq)]
struct Node {
    device: u64,
    number: u64,
}

// The file that was read last stays open, so that a pipe can be read piece by piece.
#[derive(Drop)]
struct Reading {
    name: String,
    file: File,
    at: u64,
}

// A file that was created stays open, and all that is added goes to it.
#[derive(Drop)]
struct Created {
    name: String,
    file: File,
    written: u64,
}

// So many of the files that were created stay open. Only windows are more: of those the one that was created first is closed.
const MOST_CREATED: usize = 64;

// What the pipe that was begun last has given first, for a message that shows a line of it: messages speak of the last file read.
#[derive(Drop)]
struct Given {
    name: String,
    bytes: Vec<u8>,
}

// Whether a file can be read again from its start.
fn is_regular(file: &File) -> bool {
    match file.metadata() {
        Ok(metadata) => metadata.is_file(),
        Err(_) => false,
    }
}

fn node_of(metadata: &Metadata) -> Node {
    Node {
        device: metadata.dev(),
        number: metadata.ino(),
    }
}

// Opens a file, never as a standard stream that was closed when the program began.
pub(crate) fn open<R: Files<File = File>>(
    rt: &R,
    how: &OpenOptions,
    name: &str,
) -> io::Result<File> {
    let file = how.open(rt, name)?;
    if file.as_raw_fd() > 2 {
        return Ok(file);
    }
    file.try_clone()
}

// Opens a file to be read from this place on. A pipe can be read from its start alone.
fn begin<R: Files<File = File>>(
    rt: &R,
    alloc: Global,
    used: &mut Vec<Node>,
    name: &str,
    from: u64,
) -> io::Result<Reading> {
    let name = String::from_str(alloc, name)?;
    let mut file = open(rt, OpenOptions::new().read(true), name.as_str())?;
    used.push(node_of(&file.metadata()?))?;
    if from > 0 {
        file.seek(SeekFrom::Start(from))?;
    }
    Ok(Reading {
        name,
        file,
        at: from,
    })
}

// At most this many bytes from where the file stands.
fn next_bytes(alloc: Global, file: &mut File, most: usize) -> io::Result<Vec<u8>>
    ensures { IfOk result (λ v. length v.items ≤ most) }
{
    let mut bytes = Vec::new(alloc);
    let mut buffer = [0u8; 4096];
    for _ in 0..u64::MAX {
        let room = most - bytes.len();
        let want = room.min(4096);
        if want == 0 {
            break;
        }
        let count = file.read(&mut buffer[..want])?;
        if count == 0 {
            break;
        }
        bytes.extend_from_slice(&buffer[..count])?;
    }
    Ok(bytes)
}

// A piece of the named file. The file stays open, and is opened anew only where the piece isn't the next one.
fn piece<R: Files<File = File>>(
    rt: &R,
    alloc: Global,
    reading: &mut Option<Reading>,
    used: &mut Vec<Node>,
    name: &str,
    from: u64,
    most: usize,
) -> io::Result<Vec<u8>>
    ensures { IfOk result (λ v. length v.items ≤ most) }
{
    let mut current = match reading.take() {
        Some(open) if open.at == from && open.name.as_str() == name => open,
        _ => begin(rt, alloc, used, name, from)?,
    };
    let bytes = next_bytes(alloc, &mut current.file, most)?;
    current.at = current.at.saturating_add(bytes.len() as u64);
    *reading = Some(current);
    Ok(bytes)
}

// Whether standard output goes to this file, so that the summary would be written over it.
fn is_output<R: Files<File = File>>(rt: &R, node: Node) -> bool {
    match fs::metadata(rt, "/dev/stdout") {
        Ok(metadata) => node_of(&metadata) == node,
        Err(_) => false,
    }
}

// Opens the named file and empties it, unless it was read or created in this run, is standard output, or is being written by
// another run: that is known before anything is lost. A device or a pipe is taken as it is.
fn open_emptied<R: Files<File = File>>(
    rt: &R,
    used: &[Node],
    name: &str,
) -> Result<(File, Node), Cause> {
    let file = open(rt, OpenOptions::new().write(true).create(true), name)?;
    let metadata = file.metadata()?;
    let node = node_of(&metadata);
    if metadata.is_file() {
        if used.contains(&node) {
            return Err(Cause::SameFile);
        }
        if is_output(rt, node) {
            return Err(Cause::IsOutput);
        }
        if let Err(TryLockError::WouldBlock) = file.try_lock() {
            return Err(Cause::Locked);
        }
        file.set_len(0)?;
    }
    Ok((file, node))
}

// Adds bytes to the file that was created under this name.
fn add(created: &mut Vec<Created>, name: &str, bytes: &[u8]) -> io::Result<()> {
    for one in created.iter_mut() {
        if one.name.as_str() == name {
            one.file.write_all(bytes)?;
            one.written = one.written.saturating_add(bytes.len() as u64);
            return Ok(());
        }
    }
    Err(Error::from(ErrorKind::NotFound))
}

// One more file that was created.
fn hold(created: &mut Vec<Created>, one: Created) -> Result<(), NoMemory> {
    if created.len() >= MOST_CREATED {
        created.remove(0);
    }
    created.push(one)?;
    Ok(())
}

// How many bytes were added to the file that was created under this name.
fn written_to(created: &[Created], name: &str) -> u64 {
    for one in created {
        if one.name.as_str() == name {
            return one.written;
        }
    }
    0
}

// Keeps what a file has given from its start on, where it can't be read again. Without memory nothing is kept.
fn keep(alloc: Global, given: &mut Option<Given>, name: &str, from: u64, bytes: &[u8]) {
    if from == 0
        && let Ok(name) = String::from_str(alloc, name)
        && let Ok(bytes) = Vec::from_slice(alloc, bytes)
    {
        *given = Some(Given { name, bytes });
    }
}

/// The real files. A file is read or created in a run, and not both, whatever names it has. The last call that failed is kept.
/// The journal of a window that may be left out is read as an empty file where it isn't there.
#[derive(Drop)]
pub struct FileShelf<'a, R: Files<File = File> + Clock> {
    rt: &'a R,
    alloc: Global,
    watch: &'a Watch<'a, R>,
    windows: Option<&'a str>,
    faults: u64,
    reading: Option<Reading>,
    created: Vec<Created>,
    used: Vec<Node>,
    given: Option<Given>,
    failed: Option<Failed>,
    progress: Progress,
}

impl<'a, R: Files<File = File> + Clock> FileShelf<'a, R> {
    pub fn new(rt: &'a R, alloc: Global, watch: &'a Watch<'a, R>) -> Self {
        FileShelf {
            rt,
            alloc,
            watch,
            windows: None,
            faults: 0,
            reading: None,
            created: Vec::new(alloc),
            used: Vec::new(alloc),
            given: None,
            failed: None,
            progress: Progress::default(),
        }
    }

    /// Which files may be left out in the run of these words.
    pub fn fit_to(&mut self, words: &'a [String]) -> Result<(), NoMemory> {
        self.windows = journals_prefix(self.alloc, words)?;
        Ok(())
    }

    /// The last call that failed.
    pub fn failed(&self) -> Option<&Failed> {
        self.failed.as_ref()
    }

    /// What a pipe of this name has given, from its start on, where no other was begun after it.
    pub fn given(&self, name: &str) -> &[u8] {
        match &self.given {
            Some(given) if given.name.as_str() == name => given.bytes.as_slice(),
            _ => &[],
        }
    }

    // Keeps a call that failed.
    fn note(&mut self, operation: Operation, name: &str, cause: Cause)
        ensures { self.new.faults ≡ self.old.faults }
    {
        self.failed = Failed::new(self.alloc, operation, name, cause);
    }

    // Whether a file of this name may be left out.
    fn may_be_absent(&self, name: &str) -> bool {
        match self.windows {
            Some(prefix) => is_window_journal(name, prefix),
            None => false,
        }
    }

    fn is_pipe(&self) -> bool {
        match &self.reading {
            Some(reading) => !is_regular(&reading.file),
            None => false,
        }
    }
}

impl<'a, R: Files<File = File> + Clock> Shelf for FileShelf<'a, R> {
    ghost files = { λ _. None };

    ghost faults = { λ s. s.faults };

    fn read(
        &mut self,
        name: &str,
        from: u64,
        most: usize,
    ) -> Result<Option<Vec<u8>>, OutsideFault> {
        self.watch.draw(self.alloc, &self.progress);
        match piece(
            self.rt,
            self.alloc,
            &mut self.reading,
            &mut self.used,
            name,
            from,
            most,
        ) {
            Ok(bytes) => {
                if self.is_pipe() {
                    keep(self.alloc, &mut self.given, name, from, bytes.as_slice());
                }
                Ok(Some(bytes))
            }
            Err(error) => {
                if error.kind() == ErrorKind::OutOfMemory {
                    return Err(OutsideFault::NoMemory);
                }
                if error.kind() == ErrorKind::NotFound && self.may_be_absent(name) {
                    return Ok(Some(Vec::new(self.alloc)));
                }
                self.faults = self.faults.saturating_add(1);
                self.note(Operation::Read, name, Cause::Host(error));
                Err(OutsideFault::Failed)
            }
        }
    }

    // All memory is taken before anything is changed.
    fn create(&mut self, name: &str) -> Result<(), OutsideFault> {
        let kept = String::from_str(self.alloc, name)?;
        self.created.reserve(1)?;
        self.used.reserve(1)?;
        match open_emptied(self.rt, self.used.as_slice(), name) {
            Ok((file, node)) => {
                self.used.push(node)?;
                let created = Created {
                    name: kept,
                    file,
                    written: 0,
                };
                hold(&mut self.created, created)?;
                Ok(())
            }
            Err(cause) => {
                self.faults = self.faults.saturating_add(1);
                self.note(Operation::Create, name, cause);
                Err(OutsideFault::Failed)
            }
        }
    }

    fn append(&mut self, name: &str, bytes: &[u8]) -> Result<(), OutsideFault> {
        match add(&mut self.created, name, bytes) {
            Ok(()) => {
                self.progress.count_line(bytes);
                self.watch.draw(self.alloc, &self.progress);
                Ok(())
            }
            Err(error) => {
                let written = written_to(self.created.as_slice(), name);
                self.faults = self.faults.saturating_add(1);
                self.note(Operation::Write { written }, name, Cause::Host(error));
                Err(OutsideFault::Failed)
            }
        }
    }
}
