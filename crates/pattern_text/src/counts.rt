// How many patterns and faults there are, and the lines that say it.
ghost use Rattle.std.specs.Prelude.{◌≡◌, ◌+◌, ◌-◌, ◌^◌, ◌<◌, ◌++◌, ◌∷◌, [], Bool, IfOk, List, OnOk};
ghost use Rattle.pattern_text.specs.Text.{chosen, counts_lines, counts_of, coverage_text, detected_of, hundredths as hundredths_of, number_after, of_last, percent_text, tests_line as line_of_tests, undecided_of};

use crate::lines::add_number;
use itoa::Buffer;
use rm_base::NoMemory;
use std::alloc::Global;

/// How many patterns there are, how many faults stand under one and how many under none, and the same of the classes of
/// equivalent faults.
#[derive(Clone, Copy, Debug, PartialEq, Eq)]
pub struct Counts {
    pub patterns: u64,
    pub detected: u64,
    pub undecided: u64,
    pub classes_detected: u64,
    pub classes_undecided: u64,
}

/// How many there are of each kind. There is a mark for each fault that is the last of its class.
pub fn count_tests(patterns: &[usize], firsts: &[Option<usize>], lasts: &[bool]) -> Counts
    ensures { (vectors : List (List Bool)) → result ≡ counts_of (record { patterns = chosen vectors patterns.now; firsts = firsts.now; lasts = lasts.now }) }
{
    let all = count_all(firsts);
    let classes = count_last(firsts, lasts);
    Counts {
        patterns: patterns.len() as u64,
        detected: all.detected,
        undecided: all.undecided,
        classes_detected: classes.detected,
        classes_undecided: classes.undecided,
    }
}

// How many stand under a pattern, and how many under none.
#[derive(Clone, Copy)]
struct Share {
    detected: u64,
    undecided: u64,
}

// The same with one more.
fn with_one(share: Share, first: Option<usize>) -> Share
    requires detected { share.detected < 2 ^ 64 - 1 }
    requires undecided { share.undecided < 2 ^ 64 - 1 }
    ensures detected { result.detected ≡ share.detected + detected_of (first ∷ []) }
    ensures undecided { result.undecided ≡ share.undecided + undecided_of (first ∷ []) }
{
    match first {
        Some(_) => Share {
            detected: share.detected + 1,
            undecided: share.undecided,
        },
        None => Share {
            detected: share.detected,
            undecided: share.undecided + 1,
        },
    }
}

// The same with one more, where that is the last of its class.
fn with_last(share: Share, first: Option<usize>, is_last: bool) -> Share
    requires detected { share.detected < 2 ^ 64 - 1 }
    requires undecided { share.undecided < 2 ^ 64 - 1 }
    ensures detected { result.detected ≡ share.detected + detected_of (of_last (first ∷ []) (is_last ∷ [])) }
    ensures undecided { result.undecided ≡ share.undecided + undecided_of (of_last (first ∷ []) (is_last ∷ [])) }
{
    if is_last {
        with_one(share, first)
    } else {
        share
    }
}

// Those of all.
fn count_all(firsts: &[Option<usize>]) -> Share
    ensures detected { result.detected ≡ detected_of firsts.now }
    ensures undecided { result.undecided ≡ undecided_of firsts.now }
{
    let mut share = Share {
        detected: 0,
        undecided: 0,
    };
    for at in 0..firsts.len() {
        share = with_one(share, firsts[at]);
    }
    share
}

// Those of the ones that are the last of their classes.
fn count_last(firsts: &[Option<usize>], lasts: &[bool]) -> Share
    ensures detected { result.detected ≡ detected_of (of_last firsts.now lasts.now) }
    ensures undecided { result.undecided ≡ undecided_of (of_last firsts.now lasts.now) }
{
    let mut share = Share {
        detected: 0,
        undecided: 0,
    };
    for at in 0..firsts.len().min(lasts.len()) {
        share = with_last(share, firsts[at], lasts[at]);
    }
    share
}

// How many hundredths of a per cent the first number is of both together, rounded down.
fn hundredths(detected: u64, undecided: u64) -> u64
    ensures { result ≡ hundredths_of detected (detected + undecided) }
{
    let part = u128::from(detected);
    let whole = part + u128::from(undecided);
    if whole == 0 {
        return 10_000;
    }
    (10_000 * part / whole) as u64
}

// Adds a number of hundredths of a per cent.
fn add_percent(text: &mut Vec<u8>, number: u64) -> Result<(), NoMemory>
    ensures { OnOk result (text.new.items ≡ text.old.items ++ percent_text number) }
{
    let mut buffer = Buffer::new();
    add_number(text, number / 100)?;
    text.push(b'.')?;
    text.extend_from_slice(buffer.format(number % 100 / 10).as_bytes())?;
    text.extend_from_slice(buffer.format(number % 10).as_bytes())?;
    Ok(())
}

// Adds two numbers, and the per cent that the first is of both.
fn add_share(text: &mut Vec<u8>, detected: u64, undecided: u64) -> Result<(), NoMemory>
    ensures { OnOk result (text.new.items ≡ text.old.items ++ (number_after detected ++ (number_after undecided ++ coverage_text detected undecided))) }
{
    add_number(text, detected)?;
    add_number(text, undecided)?;
    add_percent(text, hundredths(detected, undecided))
}

/// Adds the lines of the counts.
pub(crate) fn add_counts(text: &mut Vec<u8>, counts: &Counts) -> Result<(), NoMemory>
    ensures { OnOk result (text.new.items ≡ text.old.items ++ counts_lines counts.now) }
{
    text.extend_from_slice(b"patterns")?;
    add_number(text, counts.patterns)?;
    text.extend_from_slice(b"\nfaults")?;
    add_share(text, counts.detected, counts.undecided)?;
    text.extend_from_slice(b"\nclasses")?;
    add_share(text, counts.classes_detected, counts.classes_undecided)?;
    text.push(b'\n')?;
    Ok(())
}

/// The line that says how many there are.
pub fn tests_line(alloc: Global, counts: &Counts) -> Result<Vec<u8>, NoMemory>
    ensures { IfOk result (λ line. line.items ≡ line_of_tests counts.now) }
{
    let mut line = Vec::from_slice(alloc, b"patterns")?;
    add_number(&mut line, counts.patterns)?;
    line.extend_from_slice(b" faults")?;
    add_two(&mut line, counts.detected, counts.undecided)?;
    line.extend_from_slice(b" classes")?;
    add_two(&mut line, counts.classes_detected, counts.classes_undecided)?;
    line.push(b'\n')?;
    Ok(line)
}

// Adds two numbers.
fn add_two(text: &mut Vec<u8>, first: u64, second: u64) -> Result<(), NoMemory>
    ensures { OnOk result (text.new.items ≡ text.old.items ++ (number_after first ++ number_after second)) }
{
    add_number(text, first)?;
    add_number(text, second)
}
