//! Notes, warnings and progress, and the file of which a printed line speaks.
use super::messages::words_of;
use diagnostics::{
    LineFinder, Progress, SubjectPart, closing_note, progress_line, subject_of, warning,
};
use std::test::Fail;

#[test]
fn notes_and_progress_are_said(rt: HostRuntime) -> Result<(), Fail> {
    let alloc = rt.alloc();
    let note = closing_note(
        alloc,
        "wires 8 5\ngates 4 2\nsteps 1 2 6\ntries 16 settled\nfaults 10 25\n",
    )?;
    assert_eq!(rt;
        note.as_slice(),
        b"rambo: note: 25 stuck-at faults have neither a test nor a proof; a larger --budget decides more of them\n".as_slice()
    );
    assert_eq!(rt; closing_note(alloc, "wires 8 5\nfaults 10 0\n")?.len(), 0);
    assert_eq!(rt; closing_note(alloc, "accepted 19\n")?.len(), 0);
    assert_eq!(rt; closing_note(alloc, "replayed 9\n")?.len(), 0);
    assert_eq!(rt; closing_note(alloc, "equal\n")?.len(), 0);
    assert_eq!(rt; closing_note(alloc, "accepted 1\nequal\n")?.len(), 0);
    let given = words_of(alloc, "opt a none/o j")?;
    let found = warning(
        alloc,
        false,
        given.as_slice(),
        "none/o",
        "No such file or directory (os error 2)",
    )?;
    assert_eq!(rt;
        found.as_slice(),
        b"rambo: warning: OUT 'none/o': No such file or directory; the run will fail when it comes to write it\n".as_slice()
    );
    let mut progress = Progress::default();
    progress.count_line(b"rambo 2\n");
    assert_eq!(rt;
        progress_line(alloc, 2, &progress)?.as_slice(),
        b"rambo: 2 s, written 0 kB".as_slice()
    );
    for line in [
        "rambo 1 256\n",
        "add 6 2 .\n",
        "fix 6 0 1 .\n",
        "fix 6 0 1 .\n",
        "const 6 0\n",
    ] {
        progress.count_line(line.as_bytes());
    }
    let found = progress_line(alloc, 123, &progress)?;
    assert_eq!(rt;
        found.as_slice(),
        b"rambo: 123 s, wires added 1, removed 2, journal 0 kB".as_slice()
    );
    progress.count_line(b"hit 8 0 0 0101\n");
    let found = progress_line(alloc, 124, &progress)?;
    assert_eq!(rt;
        found.as_slice(),
        b"rambo: 124 s, tests written: 1".as_slice()
    );
    Ok(())
}

const STOPS: [(&str, &str); 4] = [
    (
        "replayed 2\nstopped journal line 4 Truncated\n",
        "line 4 of JOURNAL: the text ends without 'end': the run didn't come to its end, or the file was cut short [Truncated]",
    ),
    (
        "replayed 0\nstopped journal record 1 BadLine item 1\n",
        "record 1 of JOURNAL: an implication doesn't follow from what is known [BadLine item 1]",
    ),
    (
        "replayed 3\nstopped journal entry 4 Truncated\n",
        "record 4 of JOURNAL: the bytes end before the last record: the file was cut short [Truncated]",
    ),
    (
        "replayed 0\nstopped journal entry 0 BadHeader\n",
        "the header of JOURNAL: the header isn't 'rambo 2', a budget from 1 to 1048576 and a count of records [BadHeader]",
    ),
];

#[test]
fn a_replay_that_stopped_is_noted(rt: HostRuntime) -> Result<(), Fail> {
    let alloc = rt.alloc();
    for (printed, wanted) in STOPS {
        let note = closing_note(alloc, printed)?;
        let all = format!(in alloc;
            "rambo: note: the replay stopped at {wanted}\nrambo: note: OUT is the netlist after the steps before that place; rambo opt OUT NEW goes on from there\n"
        )?;
        assert_eq!(rt; note.as_slice(), all.as_bytes(), "{printed}");
    }
    Ok(())
}

// A text, the number of a line, and what is found of it.
const FOUND_LINES: [(&str, u64, &str); 7] = [
    ("rambo 1 256\nadd 6 2 .\nend\n", 1, "rambo 1 256"),
    ("rambo 1 256\nadd 6 2 .\nend\n", 2, "add 6 2 ."),
    ("rambo 1 256\nadd 6 2", 2, "add 6 2"),
    ("rambo 1 256\n", 5, ""),
    ("rambo 2\n\n\u{1}\nx", 1, "rambo 2\n"),
    ("rambo 2\n\n\u{1}\nx", 3, "rambo 2\n"),
    ("rambo 2", 1, "rambo 2"),
];

#[test]
fn lines_of_a_journal_are_found(rt: HostRuntime) -> Result<(), Fail> {
    let alloc = rt.alloc();
    for (text, number, wanted) in FOUND_LINES {
        for size in 1..9 {
            let mut finder = LineFinder::new(alloc, number);
            for piece in text.as_bytes().chunks(size) {
                finder.take(piece)?;
            }
            let line = finder.into_line();
            assert_eq!(rt; line.as_slice(), wanted.as_bytes(), "{text}");
        }
    }
    Ok(())
}

// Words of a run, what it printed, and the file that a message shows.
const SUBJECTS: [(&str, &str, Option<(&str, SubjectPart)>); 17] = [
    (
        "check -- -i j o",
        "text 5:2 RowCharacter\n",
        Some(("-i", SubjectPart::Whole)),
    ),
    (
        "check i j o",
        "journal line 5 BadRecord\n",
        Some(("j", SubjectPart::Line(5))),
    ),
    (
        "check i j o",
        "journal record 5 Cycle\n",
        Some(("j", SubjectPart::Line(6))),
    ),
    ("check i j o", "journal entry 5 BadRecord\n", None),
    (
        "check i j o",
        "netlist 8\n",
        Some(("o", SubjectPart::UpTo(8))),
    ),
    ("check i j o", "fault shelf\n", None),
    (
        "equal a b p",
        "text 5:1 RowLength\n",
        Some(("a", SubjectPart::Whole)),
    ),
    (
        "equal --budget 9 a -- -b p",
        "second text 5:1 RowLength\n",
        Some(("-b", SubjectPart::Whole)),
    ),
    ("equal a b p", "second limit pins 70000\n", None),
    ("equal a b p", "unlike sources 2\n", None),
    (
        "judge a b -- -p",
        "proof BadRecord 4\n",
        Some(("-p", SubjectPart::Line(4))),
    ),
    (
        "judge a b p",
        "proof record 4 NoStep\n",
        Some(("p", SubjectPart::Line(5))),
    ),
    ("judge a b p", "proof NotOne\n", None),
    (
        "judge a b p",
        "second text 5:1 RowLength\n",
        Some(("b", SubjectPart::Whole)),
    ),
    (
        "optcare i c o t",
        "text 5:1 RowLength\n",
        Some(("i", SubjectPart::Whole)),
    ),
    (
        "optcare i --depth=1 c o t",
        "second text 5:1 RowLength\n",
        Some(("c", SubjectPart::Whole)),
    ),
    ("optcare i c o t", "care shape\n", None),
];

#[test]
fn the_file_of_a_line_is_named(rt: HostRuntime) -> Result<(), Fail> {
    let alloc = rt.alloc();
    for (words, printed, wanted) in SUBJECTS {
        let given = words_of(alloc, words)?;
        let found = subject_of(alloc, given.as_slice(), printed)?;
        assert_eq!(rt;
            found.map(|subject| (subject.name, subject.part)),
            wanted,
            "{printed}"
        );
    }
    Ok(())
}
