//! The wording of messages: why words are refused, which call failed, colours, and what is cut.
use diagnostics::{Ending, Failure, Operation, Reason, explanation, undecodable_word};
use std::alloc::{AllocError, Global};
use std::test::Fail;

// The options of `equal` and `optcare`, and then the others of `opt` and `demo`.
const OPTIONS: [&str; 2] = [
    "  --depth 0..2  depth of recursive learning; 0 is direct implication (default 1)
  --budget 1..1048576  edges that one search for a test vector may enter (default 256)
",
    "  --tries 0..1000000  additions of a wire that the whole run may try (default 1000000)
  --workers 1..64  threads that search for test vectors (default 1)
  --merge 0..2  merge gates of equal or opposite values: 0 never, 1 after the additions, 2 also before them (default 1)
  --perturb 0..64  turns in which wires are exchanged for others at no cost, each with further additions behind it (default 0)
  --work 0..1000000  millions of units of work after which no more additions are tried; 0 is no limit (default 0)
",
];

// Words that are refused, and what is shown.
const REFUSALS: [(&str, &str); 17] = [
    (
        "optimise a b",
        "rambo: error: no command 'optimise'; the commands are opt check demo flat tests replay convert equal judge optcare cut sew\nusage:\n  rambo opt IN OUT [JOURNAL] [options]\n  rambo check IN JOURNAL OUT\n  rambo demo SEED [options]\n  rambo flat IN OUT\n  rambo tests IN JOURNAL OUT PATTERNS\n  rambo replay IN JOURNAL OUT\n  rambo convert FROM TO\n  rambo equal A B PROOF [options]\n  rambo judge A B PROOF\n  rambo optcare IN CARE OUT TESTS [options]\n  rambo cut IN WIDTH PREFIX [options]\n  rambo sew IN WIDTH PREFIX OUT [options]\nrambo --help lists the options; man rambo has more\n",
    ),
    (
        "--version",
        "rambo 2.0.0; proved with rattle-kit-13f logic dac8208d650f15bf\n",
    ),
    (
        "opt in.blif",
        "rambo: error: opt lacks OUT\nusage: rambo opt IN OUT [JOURNAL] [options]\n",
    ),
    (
        "opt",
        "rambo: error: opt lacks IN OUT\nusage: rambo opt IN OUT [JOURNAL] [options]\n",
    ),
    (
        "opt a b c d",
        "rambo: error: opt has one name too many: 'd'\nusage: rambo opt IN OUT [JOURNAL] [options]\n",
    ),
    (
        "opt a a j",
        "rambo: error: IN and OUT are both 'a'; the names must differ\nusage: rambo opt IN OUT [JOURNAL] [options]\n",
    ),
    (
        "opt a b a",
        "rambo: error: IN and JOURNAL are both 'a'; the names must differ\nusage: rambo opt IN OUT [JOURNAL] [options]\n",
    ),
    (
        "check a b",
        "rambo: error: check lacks OUT\nusage: rambo check IN JOURNAL OUT\n",
    ),
    (
        "check a b c --depth 1",
        "rambo: error: check has no option '--depth'\nusage: rambo check IN JOURNAL OUT\n",
    ),
    (
        "replay a",
        "rambo: error: replay lacks JOURNAL OUT\nusage: rambo replay IN JOURNAL OUT\n",
    ),
    (
        "replay a b b",
        "rambo: error: JOURNAL and OUT are both 'b'; the names must differ\nusage: rambo replay IN JOURNAL OUT\n",
    ),
    (
        "replay a b c --budget=8",
        "rambo: error: replay has no option '--budget=8'\nusage: rambo replay IN JOURNAL OUT\n",
    ),
    (
        "convert a",
        "rambo: error: convert lacks TO\nusage: rambo convert FROM TO\n",
    ),
    (
        "convert a a",
        "rambo: error: FROM and TO are both 'a'; the names must differ\nusage: rambo convert FROM TO\n",
    ),
    (
        "convert a b c",
        "rambo: error: convert has one name too many: 'c'\nusage: rambo convert FROM TO\n",
    ),
    (
        "demo",
        "rambo: error: demo lacks SEED\nusage: rambo demo SEED [options]\n",
    ),
    (
        "demo 1x",
        "rambo: error: SEED '1x' is not a decimal number of 64 bits\nusage: rambo demo SEED [options]\n",
    ),
];

// The same of `equal`.
const EQUAL_REFUSALS: [(&str, &str); 5] = [
    (
        "equal a b",
        "rambo: error: equal lacks PROOF\nusage: rambo equal A B PROOF [options]\n",
    ),
    (
        "equal a b p q",
        "rambo: error: equal has one name too many: 'q'\nusage: rambo equal A B PROOF [options]\n",
    ),
    (
        "equal a a p",
        "rambo: error: A and B are both 'a'; the names must differ\nusage: rambo equal A B PROOF [options]\n",
    ),
    (
        "equal a b a",
        "rambo: error: A and PROOF are both 'a'; the names must differ\nusage: rambo equal A B PROOF [options]\n",
    ),
    (
        "equal a b b --depth 2",
        "rambo: error: B and PROOF are both 'b'; the names must differ\nusage: rambo equal A B PROOF [options]\n",
    ),
];

// The same of `judge`.
const JUDGE_REFUSALS: [(&str, &str); 4] = [
    (
        "judge",
        "rambo: error: judge lacks A B PROOF\nusage: rambo judge A B PROOF\n",
    ),
    (
        "judge a b",
        "rambo: error: judge lacks PROOF\nusage: rambo judge A B PROOF\n",
    ),
    (
        "judge a b p q",
        "rambo: error: judge has one name too many: 'q'\nusage: rambo judge A B PROOF\n",
    ),
    (
        "judge a b p --budget 8",
        "rambo: error: judge has no option '--budget'\nusage: rambo judge A B PROOF\n",
    ),
];

// The same of `cut`.
const CUT_REFUSALS: [(&str, &str); 5] = [
    (
        "cut a 7",
        "rambo: error: cut lacks PREFIX\nusage: rambo cut IN WIDTH PREFIX [options]\n",
    ),
    (
        "cut a 7 p q",
        "rambo: error: cut has one name too many: 'q'\nusage: rambo cut IN WIDTH PREFIX [options]\n",
    ),
    (
        "cut a wide p",
        "rambo: error: WIDTH 'wide' is not a decimal number from 1 to 65536\nusage: rambo cut IN WIDTH PREFIX [options]\n",
    ),
    (
        "cut a 65537 p",
        "rambo: error: WIDTH '65537' is not a decimal number from 1 to 65536\nusage: rambo cut IN WIDTH PREFIX [options]\n",
    ),
    (
        "cut d/p12.blif 7 d/p",
        "rambo: error: IN 'd/p12.blif' is the name of a window's file, of PREFIX 'd/p'\nusage: rambo cut IN WIDTH PREFIX [options]\n",
    ),
];

// The same of `sew`.
const SEW_REFUSALS: [(&str, &str); 6] = [
    (
        "sew a 7 p",
        "rambo: error: sew lacks OUT\nusage: rambo sew IN WIDTH PREFIX OUT [options]\n",
    ),
    (
        "sew a 0x7 p o",
        "rambo: error: WIDTH '0x7' is not a decimal number from 1 to 65536\nusage: rambo sew IN WIDTH PREFIX OUT [options]\n",
    ),
    (
        "sew a 7 p a",
        "rambo: error: IN and OUT are both 'a'; the names must differ\nusage: rambo sew IN WIDTH PREFIX OUT [options]\n",
    ),
    (
        "sew d/p12.blif 7 d/p o",
        "rambo: error: IN 'd/p12.blif' is the name of a window's file, of PREFIX 'd/p'\nusage: rambo sew IN WIDTH PREFIX OUT [options]\n",
    ),
    (
        "sew a 7 p p1.blif",
        "rambo: error: OUT 'p1.blif' is the name of a window's file, of PREFIX 'p'\nusage: rambo sew IN WIDTH PREFIX OUT [options]\n",
    ),
    (
        "sew a 7 p p1.journal",
        "rambo: error: OUT 'p1.journal' is the name of a window's journal, of PREFIX 'p'\nusage: rambo sew IN WIDTH PREFIX OUT [options]\n",
    ),
];

// The same of `optcare`.
const CARE_REFUSALS: [(&str, &str); 8] = [
    (
        "optcare a c o",
        "rambo: error: optcare lacks TESTS\nusage: rambo optcare IN CARE OUT TESTS [options]\n",
    ),
    (
        "optcare",
        "rambo: error: optcare lacks IN CARE OUT TESTS\nusage: rambo optcare IN CARE OUT TESTS [options]\n",
    ),
    (
        "optcare a c o t u",
        "rambo: error: optcare has one name too many: 'u'\nusage: rambo optcare IN CARE OUT TESTS [options]\n",
    ),
    (
        "optcare a a o t",
        "rambo: error: IN and CARE are both 'a'; the names must differ\nusage: rambo optcare IN CARE OUT TESTS [options]\n",
    ),
    (
        "optcare a c a a",
        "rambo: error: IN and OUT are both 'a'; the names must differ\nusage: rambo optcare IN CARE OUT TESTS [options]\n",
    ),
    (
        "optcare a c o a --depth 2",
        "rambo: error: IN and TESTS are both 'a'; the names must differ\nusage: rambo optcare IN CARE OUT TESTS [options]\n",
    ),
    (
        "optcare a c c t",
        "rambo: error: CARE and OUT are both 'c'; the names must differ\nusage: rambo optcare IN CARE OUT TESTS [options]\n",
    ),
    (
        "optcare a c o o",
        "rambo: error: OUT and TESTS are both 'o'; the names must differ\nusage: rambo optcare IN CARE OUT TESTS [options]\n",
    ),
];

// Words of which an option is refused, and the first lines of what is shown: the options follow.
const OPTION_REFUSALS: [(&str, &str); 12] = [
    (
        "opt a b j --dept 2",
        "rambo: error: opt has no option '--dept'\nusage: rambo opt IN OUT [JOURNAL] [options]\n",
    ),
    (
        "opt a b j -d 1",
        "rambo: error: opt has no option '-d'\nusage: rambo opt IN OUT [JOURNAL] [options]\n",
    ),
    (
        "opt a b j --depth 3",
        "rambo: error: --depth '3': not in the range 0 to 2\nusage: rambo opt IN OUT [JOURNAL] [options]\n",
    ),
    (
        "opt a b j --budget=0",
        "rambo: error: --budget '0': not in the range 1 to 1048576\nusage: rambo opt IN OUT [JOURNAL] [options]\n",
    ),
    (
        "opt a b j --tries 1e5",
        "rambo: error: --tries '1e5': not a decimal number\nusage: rambo opt IN OUT [JOURNAL] [options]\n",
    ),
    (
        "opt --tries 1 a b --tries=2 j",
        "rambo: error: --tries is given twice\nusage: rambo opt IN OUT [JOURNAL] [options]\n",
    ),
    (
        "opt a b j --workers",
        "rambo: error: --workers has no value\nusage: rambo opt IN OUT [JOURNAL] [options]\n",
    ),
    (
        "opt a b j --merge 3",
        "rambo: error: --merge '3': not in the range 0 to 2\nusage: rambo opt IN OUT [JOURNAL] [options]\n",
    ),
    (
        "opt a b --merge=yes",
        "rambo: error: --merge 'yes': not a decimal number\nusage: rambo opt IN OUT [JOURNAL] [options]\n",
    ),
    (
        "opt --merge 2 a b --merge=2",
        "rambo: error: --merge is given twice\nusage: rambo opt IN OUT [JOURNAL] [options]\n",
    ),
    (
        "opt a b --work 1000001",
        "rambo: error: --work '1000001': not in the range 0 to 1000000\nusage: rambo opt IN OUT [JOURNAL] [options]\n",
    ),
    (
        "opt a b j --merged 1",
        "rambo: error: opt has no option '--merged'\nusage: rambo opt IN OUT [JOURNAL] [options]\n",
    ),
];

const EQUAL_OPTION_REFUSALS: [(&str, &str); 5] = [
    (
        "equal a b p --tries 7",
        "rambo: error: equal has no option '--tries'\nusage: rambo equal A B PROOF [options]\n",
    ),
    (
        "equal a b p --workers=1",
        "rambo: error: equal has no option '--workers=1'\nusage: rambo equal A B PROOF [options]\n",
    ),
    (
        "equal a b p --merge 1",
        "rambo: error: equal has no option '--merge'\nusage: rambo equal A B PROOF [options]\n",
    ),
    (
        "equal a b p --depth 3",
        "rambo: error: --depth '3': not in the range 0 to 2\nusage: rambo equal A B PROOF [options]\n",
    ),
    (
        "equal a b p --budget=1 --budget=1",
        "rambo: error: --budget is given twice\nusage: rambo equal A B PROOF [options]\n",
    ),
];

const CARE_OPTION_REFUSALS: [(&str, &str); 4] = [
    (
        "optcare a c o t --tries 7",
        "rambo: error: optcare has no option '--tries'\nusage: rambo optcare IN CARE OUT TESTS [options]\n",
    ),
    (
        "optcare a c o t --merge=0",
        "rambo: error: optcare has no option '--merge=0'\nusage: rambo optcare IN CARE OUT TESTS [options]\n",
    ),
    (
        "optcare a c o t --budget 0",
        "rambo: error: --budget '0': not in the range 1 to 1048576\nusage: rambo optcare IN CARE OUT TESTS [options]\n",
    ),
    (
        "optcare a c o t --depth",
        "rambo: error: --depth has no value\nusage: rambo optcare IN CARE OUT TESTS [options]\n",
    ),
];

// A call that failed in `opt in out journal`, and what is shown.
const FAILURES: [(Operation, &str, Reason<'static>, &str); 8] = [
    (
        Operation::Read,
        "in",
        Reason::Host("No such file or directory (os error 2)"),
        "rambo: error: cannot read IN 'in': No such file or directory\n",
    ),
    (
        Operation::Read,
        "in",
        Reason::Host("Is a directory (os error 21)"),
        "rambo: error: cannot read IN 'in': Is a directory\n",
    ),
    (
        Operation::Create,
        "journal",
        Reason::Host("Permission denied (os error 13)"),
        "rambo: error: cannot create JOURNAL 'journal': Permission denied\n",
    ),
    (
        Operation::Create,
        "out",
        Reason::SameFile,
        "rambo: error: cannot create OUT 'out': this run reads or writes it under another name\n",
    ),
    (
        Operation::Create,
        "out",
        Reason::IsOutput,
        "rambo: error: cannot create OUT 'out': standard output goes to it\n",
    ),
    (
        Operation::Create,
        "journal",
        Reason::Locked,
        "rambo: error: cannot create JOURNAL 'journal': another run is writing it\n",
    ),
    (
        Operation::Write { written: 12345 },
        "journal",
        Reason::Host("No space left on device (os error 28)"),
        "rambo: error: cannot write JOURNAL 'journal' after 12345 bytes: No space left on device\n",
    ),
    (
        Operation::Print,
        "",
        Reason::Host("Broken pipe (os error 32)"),
        "rambo: error: cannot write standard output: Broken pipe\n",
    ),
];

pub(crate) fn words_of(alloc: Global, text: &str) -> Result<Vec<String>, AllocError> {
    let mut words = Vec::new(alloc);
    for word in text.split_whitespace() {
        words.push(String::from_str(alloc, word)?)?;
    }
    Ok(words)
}

pub(crate) fn shown<'a>(
    alloc: Global,
    words: &'a [String],
    printed: &'a str,
    text: &'a [u8],
    failure: Option<Failure<'a>>,
) -> Result<Vec<u8>, Fail> {
    let ending = Ending {
        words,
        printed,
        failure,
        text,
    };
    Ok(explanation(alloc, false, &ending)?)
}

// Whether these words are refused with this text, and so many parts of the options.
fn is_refused(alloc: Global, words: &str, wanted: &str, options: usize) -> Result<bool, Fail> {
    let given = words_of(alloc, words)?;
    let found = shown(alloc, given.as_slice(), "words refused\n", b"", None)?;
    let mut all = String::from_str(alloc, wanted)?;
    for part in OPTIONS.iter().take(options) {
        all.push_str(part)?;
    }
    Ok(found.as_slice() == all.as_bytes())
}

#[test]
fn refused_words_are_explained(rt: HostRuntime) -> Result<(), Fail> {
    for (words, wanted) in REFUSALS {
        assert!(rt; is_refused(rt.alloc(), words, wanted, 0)?, "{words}");
    }
    for (words, wanted) in EQUAL_REFUSALS {
        assert!(rt; is_refused(rt.alloc(), words, wanted, 0)?, "{words}");
    }
    for (words, wanted) in JUDGE_REFUSALS {
        assert!(rt; is_refused(rt.alloc(), words, wanted, 0)?, "{words}");
    }
    for (words, wanted) in CUT_REFUSALS {
        assert!(rt; is_refused(rt.alloc(), words, wanted, 0)?, "{words}");
    }
    for (words, wanted) in SEW_REFUSALS {
        assert!(rt; is_refused(rt.alloc(), words, wanted, 0)?, "{words}");
    }
    for (words, wanted) in CARE_REFUSALS {
        assert!(rt; is_refused(rt.alloc(), words, wanted, 0)?, "{words}");
    }
    Ok(())
}

#[test]
fn refused_options_are_explained(rt: HostRuntime) -> Result<(), Fail> {
    for (words, wanted) in OPTION_REFUSALS {
        assert!(rt; is_refused(rt.alloc(), words, wanted, 2)?, "{words}");
    }
    for (words, wanted) in EQUAL_OPTION_REFUSALS {
        assert!(rt; is_refused(rt.alloc(), words, wanted, 1)?, "{words}");
    }
    for (words, wanted) in CARE_OPTION_REFUSALS {
        assert!(rt; is_refused(rt.alloc(), words, wanted, 1)?, "{words}");
    }
    Ok(())
}

#[test]
fn failing_calls_are_explained(rt: HostRuntime) -> Result<(), Fail> {
    let alloc = rt.alloc();
    let given = words_of(alloc, "opt in out journal")?;
    for (operation, name, reason, wanted) in FAILURES {
        let failure = Some(Failure {
            operation,
            name,
            reason,
        });
        let found = shown(alloc, given.as_slice(), "fault shelf\n", b"", failure)?;
        assert_eq!(rt; found.as_slice(), wanted.as_bytes());
    }
    Ok(())
}

#[test]
fn colours_are_for_terminals(rt: HostRuntime) -> Result<(), Fail> {
    let alloc = rt.alloc();
    let given = words_of(alloc, "opt a o j")?;
    let ending = Ending {
        words: given.as_slice(),
        printed: "text 1:1 NoModel\n",
        failure: None,
        text: b".inputs\n",
    };
    let found = explanation(alloc, true, &ending)?;
    let wanted =
        "a:1:1: \u{1b}[31merror: \u{1b}[0mthe first word is '.inputs', not .model [NoModel]\n  .inputs\n  \u{1b}[32m^\u{1b}[0m\nhint: put '.model NAME' first\n";
    assert_eq!(rt; found.as_slice(), wanted.as_bytes());
    Ok(())
}

#[test]
fn words_and_lines_are_cut(rt: HostRuntime) -> Result<(), Fail> {
    let alloc = rt.alloc();
    let long = "x".repeat(alloc, 61)?;
    let found = undecodable_word(alloc, false, 2, long.as_bytes())?;
    assert_eq!(rt;
        found.as_slice(),
        b"rambo: error: word 2 is not UTF-8: xxxxxxxxxxxxxxxxxxxxxxxxxxxxxxxxxxxxxxxxxxxxxxxxxxxxxxxxxxxx..\n".as_slice()
    );
    let found = undecodable_word(alloc, false, 2, b"in\xff.blif")?;
    assert_eq!(rt;
        found.as_slice(),
        b"rambo: error: word 2 is not UTF-8: in\\xff.blif\n".as_slice()
    );
    let given = words_of(alloc, "opt a o j")?;
    let line = "0123456789".repeat(alloc, 10)?;
    let found = shown(
        alloc,
        given.as_slice(),
        "text 1:51 RowLength\n",
        line.as_bytes(),
        None,
    )?;
    let wanted =
        "a:1:51: error: the row hasn't one character for each input of its cover [RowLength]\n  01234567890123456789012345678901234567890123456789012345678901234567890123456789\n                                          ^\nhint: the last name of a .names line is its output; the characters of a row stand together\n";
    assert_eq!(rt; found.as_slice(), wanted.as_bytes());
    Ok(())
}
