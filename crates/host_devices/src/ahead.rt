// A look at the files that a run will write, before it begins: a run that can't end well is told of at once.
use crate::watch::Watch;
use diagnostics::{Outputs, outputs_of, warning};
use rm_base::NoMemory;
use std::alloc::Global;
use std::fs::{self, Metadata, OpenOptions};
use std::io;
use std::os::unix::fs::MetadataExt;
use std::rt::{Clock, Files};

const OWNER_MAY_WRITE: u32 = 0o200;

// The folder in which a file of this name stands.
fn folder_of(name: &str) -> &str {
    match name.rsplit_once('/') {
        Some(("", _)) => "/",
        Some((folder, _)) => folder,
        None => ".",
    }
}

// Whether this process may make no file in the folder, as far as its owner's rights tell.
fn is_closed<R: Files>(rt: &R, folder: &Metadata) -> bool {
    match fs::metadata(rt, "/proc/self") {
        Ok(own) => {
            own.uid() != 0 && own.uid() == folder.uid() && folder.mode() & OWNER_MAY_WRITE == 0
        }
        Err(_) => false,
    }
}

// Whether the file that is there can be opened, which changes nothing. A pipe isn't opened, as that may wait.
fn try_open<R: Files<File = fs::File>>(rt: &R, name: &str, found: &Metadata) -> io::Result<()> {
    if found.is_dir() {
        return Err(io::Error::from_raw_os_error(21));
    }
    if found.is_file() {
        OpenOptions::new().write(true).open(rt, name)?;
    }
    Ok(())
}

// Why a file of this name can't be created.
fn obstacle<R: Files<File = fs::File>>(rt: &R, name: &str) -> io::Result<()> {
    if let Ok(found) = fs::metadata(rt, name) {
        return try_open(rt, name, &found);
    }
    let folder = fs::metadata(rt, folder_of(name))?;
    if !folder.is_dir() {
        return Err(io::Error::from_raw_os_error(20));
    }
    if is_closed(rt, &folder) {
        return Err(io::Error::from_raw_os_error(13));
    }
    Ok(())
}

fn warn<R: Files<File = fs::File> + Clock>(
    rt: &R,
    alloc: Global,
    watch: &Watch<'_, R>,
    words: &[String],
    name: &str,
) -> Result<(), NoMemory> {
    if let Err(error) = obstacle(rt, name) {
        let reason = error.to_string(alloc)?;
        let message = warning(alloc, watch.colours(), words, name, reason.as_str())?;
        watch.show(message.as_slice());
    }
    Ok(())
}

// Looks at each file that is to be written, unless the file to be read isn't there: that is said later, and alone.
fn look<R: Files<File = fs::File> + Clock>(
    rt: &R,
    alloc: Global,
    watch: &Watch<'_, R>,
    words: &[String],
    outputs: &Outputs<'_>,
) -> Result<(), NoMemory> {
    if fs::metadata(rt, outputs.input).is_err() {
        return Ok(());
    }
    for name in outputs.names.iter() {
        warn(rt, alloc, watch, words, name)?;
    }
    Ok(())
}

/// Warns of each file that the words name and that the run will not be able to write. Nothing is changed.
pub fn warn_ahead<R: Files<File = fs::File> + Clock>(
    rt: &R,
    alloc: Global,
    watch: &Watch<'_, R>,
    words: &[String],
) {
    if let Ok(Some(outputs)) = outputs_of(alloc, words) {
        let _ = look(rt, alloc, watch, words, &outputs);
    }
}
