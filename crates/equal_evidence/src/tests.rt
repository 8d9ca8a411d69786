// Texts of evidence, and others with the fault of each.
use crate::{proofs_are_writable, read_evidence, write_evidence};
use journal_text::JournalFault;
use std::alloc::Global;
use std::test::Fail;

const TEXTS: [&'static str; 6] = [
    "rambo-equal 1 256\nsame /2,1 . .\n",
    "rambo-equal 1 1\nspent /2,1 @ ?\n",
    "rambo-equal 1 1048576\ndiffer 10\n",
    "rambo-equal 1 2\ndiffer\n",
    "rambo-equal 2 5\nequal\n",
    "rambo-equal 2 5\nadd 7 3 .\nfix 7 0 1 /2,1 . .\nnot 4\ntwin 9 8\nhit 3 0 1 01\nequal\n",
];

// Whether the text is read, and the same is written again.
fn is_written_again(alloc: Global, text: &str) -> Result<bool, Fail> {
    proofs_are_writable();
    let (budget, evidence) = read_evidence(alloc, text.as_bytes())?;
    let again = write_evidence(alloc, budget, &evidence)?;
    Ok(again.as_slice() == text.as_bytes())
}

#[test]
fn texts(rt: HostRuntime) -> Result<(), Fail> {
    for text in TEXTS.as_slice() {
        assert!(rt; is_written_again(rt.alloc(), text)?);
    }
    Ok(())
}

const NO_HEADERS: [&'static str; 8] = [
    "",
    "rambo 1 5\nend\n",
    "rambo-equal 1\ndiffer\n",
    "rambo-equal 3 5\nequal\n",
    "rambo-equal 1 0\ndiffer\n",
    "rambo-equal 1 05\ndiffer\n",
    "rambo-equal 2 1048577\nequal\n",
    "rambo-equal 2 5equal\n",
];

#[test]
fn headers(rt: HostRuntime) -> Result<(), Fail> {
    let wanted = JournalFault::BadHeader { line: 1 };
    for text in NO_HEADERS.as_slice() {
        let fault = read_evidence(rt.alloc(), text.as_bytes()).err();
        assert!(rt; fault == Some(wanted));
    }
    Ok(())
}

// A text, and the line that is none.
#[derive(Clone, Copy)]
struct Bad {
    text: &'static str,
    line: u64,
}

const BAD: [Bad; 9] = [
    Bad {
        text: "rambo-equal 1 5\nsame\n",
        line: 2,
    },
    Bad {
        text: "rambo-equal 1 5\nsame /2,2 . .\n",
        line: 2,
    },
    Bad {
        text: "rambo-equal 1 5\nspent 0\n",
        line: 2,
    },
    Bad {
        text: "rambo-equal 1 5\ndiffer 12\n",
        line: 2,
    },
    Bad {
        text: "rambo-equal 1 5\nequal\n",
        line: 2,
    },
    Bad {
        text: "rambo-equal 2 5\ndead 04\nequal\n",
        line: 2,
    },
    Bad {
        text: "rambo-equal 2 5\ndead 4\nend\n",
        line: 3,
    },
    Bad {
        text: "rambo-equal 2 5\nend\nequal\n",
        line: 2,
    },
    Bad {
        text: "rambo-equal 2 5\nequal\ndead 4\nequal\n",
        line: 2,
    },
];

#[test]
fn lines(rt: HostRuntime) -> Result<(), Fail> {
    for bad in BAD.as_slice() {
        let fault = read_evidence(rt.alloc(), bad.text.as_bytes()).err();
        assert!(rt; fault == Some(JournalFault::BadRecord { line: bad.line }));
    }
    Ok(())
}

#[test]
fn ends(rt: HostRuntime) -> Result<(), Fail> {
    let first = read_evidence(rt.alloc(), b"rambo-equal 1 5").err();
    assert!(rt; first == Some(JournalFault::Truncated { line: 1 }));
    let second = read_evidence(rt.alloc(), b"rambo-equal 1 5\nsame .").err();
    assert!(rt; second == Some(JournalFault::Truncated { line: 2 }));
    let third = read_evidence(rt.alloc(), b"rambo-equal 2 5\ndead 4\n").err();
    assert!(rt; third == Some(JournalFault::Truncated { line: 3 }));
    let more = read_evidence(rt.alloc(), b"rambo-equal 1 5\ndiffer\n\n").err();
    assert!(rt; more == Some(JournalFault::AfterEnd { line: 3 }));
    Ok(())
}
