// The calls of an object in memory, some of which are to fail.
ghost use Rattle.std.specs.Prelude.{◌≡◌, ◌≤◌};
ghost use Rattle.rm_base.specs.CallLog.{after_call, fails_next, no_calls};

use std::marker::Model;

/// Numbers the calls from 1, and counts those that fail.
#[derive(Drop)]
pub struct Failures {
    made: u64,
    failed: u64,
    listed: Vec<u64>,
}

impl Model for Failures {
    ghost use Rattle.rm_base.specs.CallLog.{CallLog, log_code};

    ghost Value = { CallLog };

    ghost coded = { log_code };

    ghost view = { λ a. record { made = a.made; failed = a.failed; listed = a.listed.items } };
}

impl Failures {
    pub fn new(listed: Vec<u64>) -> Failures
        ensures { result ≡ no_calls listed.items }
    {
        Failures {
            made: 0,
            failed: 0,
            listed,
        }
    }

    /// Begins a call, and tells whether it is to fail.
    pub fn next_fails(&mut self) -> bool
        ensures fails { result ≡ fails_next self.old }
        ensures log { self.new ≡ after_call self.old }
        ensures later { self.old.failed ≤ self.new.failed }
    {
        self.made = self.made.saturating_add(1);
        let fails = self.listed.contains(&self.made);
        if fails {
            self.failed = self.failed.saturating_add(1);
        }
        fails
    }
}
