//! Passes the words of the command line to the top call, with the real files and standard output, and says on standard error what
//! that didn't say on standard output.
#![tactic(auto)]

#[cfg(test)]
mod tests;

use host_devices::{
    CountingGate, FileShelf, StdoutSink, Watch, report, report_undecodable, warn_ahead,
};
use rambo_cli::{NameKeys, run};
use rm_base::{OutsideFault, Sink};
use std::alloc::AllocError;
use std::env;
use std::fs::File;
use std::hash::RandomState;
use std::io::ErrorKind;
use std::process::ExitCode;
use std::rt::{Clock, Files};
use std::thread::Threads;

// The words behind the program's name, and whether each is text. Where one isn't there are none, which are refused.
fn words(rt: &HostRuntime) -> Result<(Vec<String>, bool), AllocError> {
    let mut words = Vec::new(rt.alloc());
    let args = match env::args(rt) {
        Ok(args) => args,
        Err(error) => {
            if error.kind() == ErrorKind::InvalidData {
                return Ok((words, false));
            }
            return Err(AllocError);
        }
    };
    for word in args.skip(1) {
        words.push(word)?;
    }
    Ok((words, true))
}

// The status where there is no memory for the words.
fn without_memory<O: Sink>(out: &mut O) -> u8 {
    match out.put(b"memory\n") {
        Err(OutsideFault::Failed) => 3,
        _ => 4,
    }
}

// By what names are looked up. Where no keys can be drawn, it is their order.
fn name_keys(rt: &HostRuntime) -> NameKeys {
    match RandomState::new(rt) {
        Ok(keys) => NameKeys::Drawn(keys),
        Err(_) => NameKeys::Ordered,
    }
}

// Runs the words, and answers the status.
fn run_words<R: Files<File = File> + Clock + Print + Threads + Sync + AllocGlobal>(
    rt: &R,
    keys: NameKeys,
    watch: &Watch<'_, R>,
    words: &[String],
    are_text: bool,
) -> u8 {
    let alloc = rt.alloc();
    warn_ahead(rt, alloc, watch, words);
    let mut shelf = FileShelf::new(rt, alloc, watch);
    let mut sink = StdoutSink::new(rt, alloc);
    if shelf.fit_to(words).is_err() {
        return without_memory(&mut sink);
    }
    let gate = CountingGate::new(watch, alloc);
    let status = run(rt, alloc, keys, words, &mut shelf, &mut sink, &gate);
    if are_text {
        report(rt, alloc, watch, words, &shelf, &sink, status);
    } else {
        report_undecodable(rt, alloc, watch);
    }
    status
}

fn main(rt: HostRuntime) -> ExitCode {
    let watch = Watch::new(&rt, rt.stderr());
    match words(&rt) {
        Ok((words, are_text)) => {
            ExitCode::from(run_words(&rt, name_keys(&rt), &watch, words.as_slice(), are_text))
        }
        Err(_) => ExitCode::from(without_memory(&mut StdoutSink::new(&rt, rt.alloc()))),
    }
}
