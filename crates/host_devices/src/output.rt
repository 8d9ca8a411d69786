// Standard output. Nothing is told of where it goes.
ghost use Rattle.std.specs.Prelude.{false, None};

use crate::failing::{Cause, Failed};
use diagnostics::Operation;
use rm_base::{OutsideFault, Sink};
use std::alloc::Global;
use std::str::from_utf8;

/// Standard output. What is put is kept as far as there is memory for it, for messages that speak of it.
#[derive(Drop)]
pub struct StdoutSink<'a, R: Print> {
    rt: &'a R,
    alloc: Global,
    faults: u64,
    put: Vec<u8>,
    failed: Option<Failed>,
}

impl<'a, R: Print> StdoutSink<'a, R> {
    pub fn new(rt: &'a R, alloc: Global) -> Self {
        StdoutSink {
            rt,
            alloc,
            faults: 0,
            put: Vec::new(alloc),
            failed: None,
        }
    }

    /// What was put, or was to be.
    pub fn printed(&self) -> &str {
        from_utf8(self.put.as_slice()).unwrap_or("")
    }

    /// The last call that failed.
    pub fn failed(&self) -> Option<&Failed> {
        self.failed.as_ref()
    }
}

impl<'a, R: Print> Sink for StdoutSink<'a, R> {
    ghost written = { λ _. None };

    ghost faults = { λ s. s.faults };

    ghost may_want = { false };

    fn put(&mut self, bytes: &[u8]) -> Result<(), OutsideFault> {
        let _ = self.put.extend_from_slice(bytes);
        match self.rt.write_all(bytes) {
            Ok(()) => Ok(()),
            Err(error) => {
                self.faults = self.faults.saturating_add(1);
                self.failed = Failed::new(self.alloc, Operation::Print, "", Cause::Host(error));
                Err(OutsideFault::Failed)
            }
        }
    }
}
