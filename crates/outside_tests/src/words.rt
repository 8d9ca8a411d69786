//! Words of the command line, and what is read of them.
use rm_base::Settings;
use std::alloc::Global;
use std::test::Fail;
use word_reading::{Command, UsageError, read_words};

// A line of words parted by blanks; `~` stands for the empty word.
fn words(alloc: Global, line: &str) -> Result<Vec<String>, Fail> {
    let mut list = Vec::new(alloc);
    if line.is_empty() {
        return Ok(list);
    }
    for word in line.split(' ') {
        let text = if word == "~" { "" } else { word };
        list.push(String::from_str(alloc, text)?)?;
    }
    Ok(list)
}

// The start, and behind it the settings in the order of their fields.
fn with_settings(alloc: Global, start: &str, s: Settings) -> Result<String, Fail> {
    let text = format!(in alloc; "{start}{} {} {} {}", s.depth, s.budget, s.tries, s.workers)?;
    Ok(format!(in alloc; "{text} {} {} {}", s.merge, s.perturb, s.work)?)
}

// The text of a command with its options.
fn optioned_text(alloc: Global, command: Command<'_>) -> Result<String, Fail> {
    match command {
        Command::Opt {
            input,
            output,
            journal,
            settings,
        } => {
            let journal = journal.unwrap_or("(none)");
            let start = format!(in alloc; "opt {input} {output} {journal} ")?;
            with_settings(alloc, &start, settings)
        }
        Command::Demo { seed, settings } => {
            let start = format!(in alloc; "demo {seed} ")?;
            with_settings(alloc, &start, settings)
        }
        Command::Equal {
            first,
            second,
            proof,
            settings,
        } => {
            let start = format!(in alloc; "equal {first} {second} {proof} ")?;
            with_settings(alloc, &start, settings)
        }
        Command::Optcare {
            input,
            care,
            output,
            tests,
            settings,
        } => {
            let start = format!(in alloc; "optcare {input} {care} {output} {tests} ")?;
            with_settings(alloc, &start, settings)
        }
        Command::Cut {
            input,
            width,
            prefix,
            shift,
        } => Ok(format!(in alloc; "cut {input} {width} {prefix} {shift}")?),
        Command::Sew {
            input,
            width,
            prefix,
            output,
            shift,
        } => Ok(format!(in alloc; "sew {input} {width} {prefix} {output} {shift}")?),
        _ => Ok(String::from_str(alloc, "another command")?),
    }
}

// What was read, as one line.
fn command_text(alloc: Global, command: Command<'_>) -> Result<String, Fail> {
    match command {
        Command::Check {
            input,
            journal,
            output,
        } => Ok(format!(in alloc; "check {input} {journal} {output}")?),
        Command::Flat { input, output } => Ok(format!(in alloc; "flat {input} {output}")?),
        Command::Tests {
            input,
            journal,
            output,
            patterns,
        } => Ok(format!(in alloc; "tests {input} {journal} {output} {patterns}")?),
        Command::Replay {
            input,
            journal,
            output,
        } => Ok(format!(in alloc; "replay {input} {journal} {output}")?),
        Command::Convert { from, to } => Ok(format!(in alloc; "convert {from} {to}")?),
        Command::Judge {
            first,
            second,
            proof,
        } => Ok(format!(in alloc; "judge {first} {second} {proof}")?),
        command => optioned_text(alloc, command),
    }
}

// Whether this is read of the words, or `refused` where they are.
pub(crate) fn reads(alloc: Global, line: &str, wanted: &str) -> Result<bool, Fail> {
    let list = words(alloc, line)?;
    match read_words(alloc, list.as_slice()) {
        Ok(command) => Ok(command_text(alloc, command)?.as_str() == wanted),
        Err(UsageError::Refused) => Ok(wanted == "refused"),
        Err(UsageError::NoMemory) => Ok(false),
    }
}

#[test]
fn reads_cut(rt: HostRuntime) -> Result<(), Fail> {
    let rows = [
        ("cut a 1 p", "cut a 1 p 0"),
        ("cut a +65536 a", "cut a 65536 a 0"),
        ("cut --shift 65536 a 007 p", "cut a 7 p 65536"),
        ("cut a 1 --shift=+3 p", "cut a 1 p 3"),
        ("cut p.blif 1 p", "cut p.blif 1 p 0"),
        ("cut p1.blif 1 q", "cut p1.blif 1 q 0"),
        ("cut p1.bliff 1 p", "cut p1.bliff 1 p 0"),
        ("cut p1.2.blif 1 p", "cut p1.2.blif 1 p 0"),
        ("cut p 1 p1.blif", "cut p 1 p1.blif 0"),
        ("cut -- -a 1 --shift", "cut -a 1 --shift 0"),
    ];
    for (line, wanted) in rows {
        assert!(rt; reads(rt.alloc(), line, wanted)?, "{line}");
    }
    Ok(())
}

#[test]
fn reads_sew(rt: HostRuntime) -> Result<(), Fail> {
    let rows = [
        ("sew a 1 p o", "sew a 1 p o 0"),
        ("sew a +65536 a A", "sew a 65536 a A 0"),
        ("sew --shift 65536 a 007 p o", "sew a 7 p o 65536"),
        ("sew a 1 --shift=+3 p o", "sew a 1 p o 3"),
        ("sew p.blif 1 p p.journal", "sew p.blif 1 p p.journal 0"),
        ("sew p1.blif 1 q p1.journal", "sew p1.blif 1 q p1.journal 0"),
        (
            "sew p1.bliff 1 p p1.journal2",
            "sew p1.bliff 1 p p1.journal2 0",
        ),
        ("sew p1x.journal 1 p p1", "sew p1x.journal 1 p p1 0"),
        ("sew p 1 p1.blif p1.journal", "sew p 1 p1.blif p1.journal 0"),
        ("sew a 1 o o", "sew a 1 o o 0"),
        ("sew -- -a 1 --shift -b", "sew -a 1 --shift -b 0"),
    ];
    for (line, wanted) in rows {
        assert!(rt; reads(rt.alloc(), line, wanted)?, "{line}");
    }
    Ok(())
}

#[test]
fn reads_opt(rt: HostRuntime) -> Result<(), Fail> {
    let rows = [
        ("opt a b j", "opt a b j 1 256 1000000 1 1 0 0"),
        ("opt a b", "opt a b (none) 1 256 1000000 1 1 0 0"),
        ("opt --depth 2 a b", "opt a b (none) 2 256 1000000 1 1 0 0"),
        ("opt a --tries=7 -- b", "opt a b (none) 1 256 7 1 1 0 0"),
        ("opt --budget=8 -- a b j", "opt a b j 1 8 1000000 1 1 0 0"),
        ("opt --budget +8 a b j", "opt a b j 1 8 1000000 1 1 0 0"),
        (
            "opt a --depth 0 b --workers=64 j --tries=1000000",
            "opt a b j 0 256 1000000 64 1 0 0",
        ),
        (
            "opt a b j --budget 1048576 --depth=2 --tries 0",
            "opt a b j 2 1048576 0 1 1 0 0",
        ),
        (
            "opt a b j --budget=0000000000000000000000000000000000000000000000000000000000000008",
            "opt a b j 1 8 1000000 1 1 0 0",
        ),
        ("opt a b j --tries=+000", "opt a b j 1 256 0 1 1 0 0"),
        ("opt -- a -- j", "opt a -- j 1 256 1000000 1 1 0 0"),
        (
            "opt a -- --depth=1 -x",
            "opt a --depth=1 -x 1 256 1000000 1 1 0 0",
        ),
        ("opt - b j", "opt - b j 1 256 1000000 1 1 0 0"),
        ("opt a b j --", "opt a b j 1 256 1000000 1 1 0 0"),
        ("opt ~ b j", "opt  b j 1 256 1000000 1 1 0 0"),
        (
            "opt help opt demo",
            "opt help opt demo 1 256 1000000 1 1 0 0",
        ),
        ("opt a b j --depth 1 --", "opt a b j 1 256 1000000 1 1 0 0"),
        ("opt a=b b j", "opt a=b b j 1 256 1000000 1 1 0 0"),
        ("opt a b j --merge 0", "opt a b j 1 256 1000000 1 0 0 0"),
        ("opt --merge=1 a b", "opt a b (none) 1 256 1000000 1 1 0 0"),
        (
            "opt a --merge +2 b j --tries=0",
            "opt a b j 1 256 0 1 2 0 0",
        ),
        (
            "opt a b --perturb 64",
            "opt a b (none) 1 256 1000000 1 1 64 0",
        ),
        ("opt --perturb=+01 a b j", "opt a b j 1 256 1000000 1 1 1 0"),
        ("opt a b j --work 0", "opt a b j 1 256 1000000 1 1 0 0"),
        ("opt a b --work=+05", "opt a b (none) 1 256 1000000 1 1 0 5"),
        (
            "opt --work 1000000 a b j --merge=2 --perturb 3 --tries=4 --workers 6 --depth 0 --budget=9",
            "opt a b j 0 9 4 6 2 3 1000000",
        ),
        (
            "opt a b -- --work=1",
            "opt a b --work=1 1 256 1000000 1 1 0 0",
        ),
        (
            "opt a b -- --merge=3",
            "opt a b --merge=3 1 256 1000000 1 1 0 0",
        ),
    ];
    for (line, wanted) in rows {
        assert!(rt; reads(rt.alloc(), line, wanted)?);
    }
    Ok(())
}

#[test]
fn reads_the_others(rt: HostRuntime) -> Result<(), Fail> {
    let rows = [
        ("check a a a", "check a a a"),
        ("check -- -a --b --", "check -a --b --"),
        (
            "demo 18446744073709551615",
            "demo 18446744073709551615 1 256 1000000 1 1 0 0",
        ),
        (
            "demo 000000000000000000000018446744073709551615",
            "demo 18446744073709551615 1 256 1000000 1 1 0 0",
        ),
        ("demo +7 --depth 0 --tries 200", "demo 7 0 256 200 1 1 0 0"),
        ("demo --workers 8 -- 1", "demo 1 1 256 1000000 8 1 0 0"),
        ("demo 1 --merge 0", "demo 1 1 256 1000000 1 0 0 0"),
        ("demo --merge=02 1", "demo 1 1 256 1000000 1 2 0 0"),
        ("demo 1 --perturb 3", "demo 1 1 256 1000000 1 1 3 0"),
        ("demo --work=7 1", "demo 1 1 256 1000000 1 1 0 7"),
        ("flat a b", "flat a b"),
        ("flat -- --tries=1 b", "flat --tries=1 b"),
        ("tests a a a b", "tests a a a b"),
        ("tests a -- -b --c d", "tests a -b --c d"),
        ("replay a b c", "replay a b c"),
        ("replay a -- --depth=1 replay", "replay a --depth=1 replay"),
        ("replay ~ - A", "replay  - A"),
        ("convert a b", "convert a b"),
        ("judge a b p", "judge a b p"),
        ("judge a a a", "judge a a a"),
        ("judge ~ -- -b --depth=1", "judge  -b --depth=1"),
        ("convert -- -a --", "convert -a --"),
    ];
    for (line, wanted) in rows {
        assert!(rt; reads(rt.alloc(), line, wanted)?);
    }
    Ok(())
}

#[test]
fn reads_equal(rt: HostRuntime) -> Result<(), Fail> {
    let rows = [
        ("equal a b p", "equal a b p 1 256 1000000 1 1 0 0"),
        ("equal a A p --depth 2", "equal a A p 2 256 1000000 1 1 0 0"),
        (
            "equal --budget=1048576 a b p --depth=0",
            "equal a b p 0 1048576 1000000 1 1 0 0",
        ),
        ("equal a --budget +1 b p", "equal a b p 1 1 1000000 1 1 0 0"),
        (
            "equal a -- --depth=2 --tries",
            "equal a --depth=2 --tries 1 256 1000000 1 1 0 0",
        ),
        ("equal ~ - equal", "equal  - equal 1 256 1000000 1 1 0 0"),
    ];
    for (line, wanted) in rows {
        assert!(rt; reads(rt.alloc(), line, wanted)?, "{line}");
    }
    Ok(())
}

#[test]
fn reads_optcare(rt: HostRuntime) -> Result<(), Fail> {
    let rows = [
        ("optcare a b c d", "optcare a b c d 1 256 1000000 1 1 0 0"),
        (
            "optcare a --depth 2 A c C",
            "optcare a A c C 2 256 1000000 1 1 0 0",
        ),
        (
            "optcare --budget=1048576 a b c d --depth=0",
            "optcare a b c d 0 1048576 1000000 1 1 0 0",
        ),
        (
            "optcare a b -- --depth=2 --tries",
            "optcare a b --depth=2 --tries 1 256 1000000 1 1 0 0",
        ),
        (
            "optcare ~ - optcare x",
            "optcare  - optcare x 1 256 1000000 1 1 0 0",
        ),
    ];
    for (line, wanted) in rows {
        assert!(rt; reads(rt.alloc(), line, wanted)?, "{line}");
    }
    Ok(())
}
