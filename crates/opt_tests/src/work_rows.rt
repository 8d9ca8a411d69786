// `opt --work`: past so many million units of work no more additions are tried.
use super::leaving::leaves;
use super::perturb_rows::{EXCHANGED, ONE_OF};
use std::alloc::Global;
use std::test::Fail;
use std::thread::Threads;
use test_runs::refuse_lines;

// No limit, and two that runs over six gates don't reach.
const UNREACHED: &[&str] = &["--work 0", "--work=1", "--work 1000000"];

// Whether the rows of exchanges come out with this option as they do without.
fn changes_nothing<R: Threads + Sync>(rt: &R, alloc: Global, option: &str) -> Result<bool, Fail> {
    for (line, put, output) in EXCHANGED {
        let line = format!(in alloc; "{line} {option}")?;
        if !leaves(rt, alloc, &line, ONE_OF, put, output)? {
            return Ok(false);
        }
    }
    Ok(true)
}

#[test]
fn a_limit_that_is_not_reached_changes_nothing(rt: HostRuntime) -> Result<(), Fail> {
    for option in UNREACHED {
        assert!(rt; changes_nothing(&rt, rt.alloc(), option)?, "{option}");
    }
    Ok(())
}

// A run past the limit of a million units, and one of so many tries.
const REACHED: &[(&str, u8, &str)] = &[
    ("demo 200 --perturb 16 --work 1", 0, CUT_SHORT),
    ("demo 200 --perturb 16 --tries 36554", 0, CUT_SHORT),
];

const CUT_SHORT: &str =
    "wires 283 92\ngates 148 52\nsteps 33 61 253\ntries 36554 spent\nfaults 184 0\n";

#[test]
fn a_run_past_the_limit_puts_what_one_of_that_many_tries_puts(rt: HostRuntime) -> Result<(), Fail> {
    refuse_lines(&rt, rt.alloc(), ["-", "-", "-"], REACHED)
}
