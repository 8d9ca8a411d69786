// Words, texts and limits that are refused: no file changes.
use std::alloc::Global;
use std::test::Fail;
use std::thread::Threads;
use test_runs::texts::ONE_GATE;
use test_runs::{Refused, refuse_all, refuse_lines, refuses};

const OPT: &str = "opt in out journal";

const REFUSED: &str = "words refused\n";

const WORDS: &[(&str, u8, &str)] = &[
    ("", 2, REFUSED),
    ("help", 2, REFUSED),
    ("--version", 2, REFUSED),
    ("opt in in journal", 2, REFUSED),
    ("opt in", 2, REFUSED),
    ("opt in in", 2, REFUSED),
    ("opt in out journal more", 2, REFUSED),
    ("opt in out journal --budget 0", 2, REFUSED),
    ("opt in out journal --depth 3", 2, REFUSED),
    ("opt in out journal --workers 65", 2, REFUSED),
    ("opt in out journal --tries 1 --tries 2", 2, REFUSED),
    ("check in journal", 2, REFUSED),
    ("check in journal out --depth 1", 2, REFUSED),
    ("tests in journal out", 2, REFUSED),
    ("tests in journal out journal", 2, REFUSED),
    ("tests in journal out patterns --depth 1", 2, REFUSED),
    ("demo", 2, REFUSED),
    ("demo 18446744073709551616", 2, REFUSED),
];

#[test]
fn refused_words(rt: HostRuntime) -> Result<(), Fail> {
    refuse_lines(&rt, rt.alloc(), [ONE_GATE, "old", "old"], WORDS)
}

// A text in which everything is allowed up to line 3.
fn model(alloc: Global, rest: &str) -> Result<String, Fail> {
    Ok(format!(in alloc; ".model m\n.inputs a b\n.outputs z\n{rest}\n")?)
}

const FAULTS: &[(&str, &str)] = &[
    (".names a b z\n1 1", "5:1 RowLength"),
    (".names a b z\n12 1", "5:2 RowCharacter"),
    ("1 1", "4:1 RowOutsideCover"),
    (".names z\n1\n0", "6:1 MixedCover"),
    (".names z u z\n11 1", "4:10 Undriven"),
    (".inputs u\n.names z u z\n11 1", "5:1 NoRank"),
    (".subckt inv A=a Y=z", "4:1 Unsupported"),
    (".exdc", "4:1 Unsupported"),
    (".gate inv A=a O=z", "4:1 Unsupported"),
    (".subcircuit inv", "4:1 UnknownCommand"),
    (".names a z\n1 1\n.end\n.names a", "7:1 AfterEnd"),
    (".names a z\n1 1\n.names a", "6:8 DoubleDriven"),
    (".outputs z z", "4:10 DoubleOutput"),
    (".latch a q xx c", "4:12 BadLatchWord"),
    (".latch a", "4:1 MissingWord"),
    (".latch a q re c 0 1", "4:19 ExtraWord"),
    (".latch a \u{1} re c 0", "4:10 BadByte"),
    (".inputs a \\", "4:11 OpenJoin"),
];

// Whether both commands refuse the text, and why.
fn is_faulty<R: Threads + Sync>(
    rt: &R,
    alloc: Global,
    rest: &str,
    fault: &str,
) -> Result<bool, Fail> {
    let text = model(alloc, rest)?;
    let put = format!(in alloc; "text {fault}\n")?;
    let texts = [text.as_str(), "old", "old"];
    Ok(
        refuses(rt, alloc, OPT, texts, 1, &put)?
            && refuses(rt, alloc, "check in journal out", texts, 1, &put)?,
    )
}

#[test]
fn refused_texts(rt: HostRuntime) -> Result<(), Fail> {
    for (rest, fault) in FAULTS {
        assert!(rt; is_faulty(&rt, rt.alloc(), rest, fault)?, "{fault}");
    }
    Ok(())
}

const MIXED: &str = ".model r6\n.outputs z\n.names z\n1\n0\n.end\n";

const WHOLE_TEXTS: &[Refused<'static>] = &[
    (OPT, ["", "old", "old"], 1, "text 1:1 NoModel\n"),
    (OPT, ["", "-", "-"], 1, "text 1:1 NoModel\n"),
    (OPT, [MIXED, "old", "old"], 1, "text 5:1 MixedCover\n"),
    (OPT, [MIXED, "-", "-"], 1, "text 5:1 MixedCover\n"),
];

#[test]
fn refused_whole_texts(rt: HostRuntime) -> Result<(), Fail> {
    refuse_all(&rt, rt.alloc(), WHOLE_TEXTS)
}
