//! Words of the command line that are refused.
use crate::words::reads;
use std::test::Fail;

const REFUSED: [&str; 132] = [
    "",
    "~",
    "help",
    "--help",
    "-h",
    "--version",
    "-V",
    "opt",
    "Opt a b j",
    "op a b j",
    "opt a a j",
    "opt a b a",
    "opt a b b",
    "opt a",
    "opt a a",
    "opt a b j k",
    "opt a b j k l",
    "opt a b j k l --depth 1",
    "opt ~ ~ j",
    "opt a b j --budget 0",
    "opt a b j --budget 1048577",
    "opt a b j --depth 3",
    "opt a b j --tries 1000001",
    "opt a b j --workers 0",
    "opt a b j --workers 65",
    "opt a b j --merge 3",
    "opt a b j --merge=-1",
    "opt a b --merge",
    "opt a b j --merge 1 --merge=1",
    "opt a b j --merged 1",
    "opt a b j --perturb 65",
    "opt a b --perturb",
    "opt a b --perturb 1 --perturb 1",
    "opt a b j --work 1000001",
    "opt a b --work",
    "opt a b --work 1 --work 1",
    "opt a b j --work=-1",
    "opt a b j --works 1",
    "opt a b j --Merge 1",
    "opt a b j --tries 1 --tries 2",
    "opt a b j --tries=1 --tries=1",
    "opt a b j --depth",
    "opt a b --depth j",
    "opt a b j --depth -1",
    "opt a b j --depth=-1",
    "opt a b j --depth=-0",
    "opt a b j --depth -",
    "opt a b j --depth --",
    "opt a b j --depth -- 1",
    "opt a b j --depth= 1",
    "opt a b j --depth=",
    "opt a b j --depth=+",
    "opt a b j --depth=++1",
    "opt a b j --depth=1=1",
    "opt a b j --depth==1",
    "opt a b j --dep=1",
    "opt a b j --Depth=1",
    "opt a b j --=1",
    "opt a b j -d1",
    "opt a b j -1",
    "opt a b j ---",
    "opt a b j --depth=0x1",
    "opt a b j --depth=1_0",
    "opt a b j --budget=18446744073709551617",
    "opt a b j --help",
    "opt a b j -h",
    "opt --help",
    "opt a b j --version",
    "opt help",
    "opt a b -- j --depth 1",
    "opt -- a b j -- ",
    "-- opt a b j",
    "--depth=1 opt a b j",
    "check a b",
    "check a b c d",
    "check a b c --workers 1",
    "check a b c --help",
    "check a b c --depth 1",
    "check a b c --depth=1",
    "check a b c --merge=1",
    "check a b c --work=1",
    "demo",
    "demo ~",
    "demo x",
    "demo -1",
    "demo -- -1",
    "demo 1 2",
    "demo 18446744073709551616",
    "demo --depth 1",
    "demo 1 --depth=3",
    "demo 1 --merge=3",
    "demo 1 --perturb=-1",
    "demo 1 --work=1000001",
    "demo 1 --seed=1",
    "help opt",
    "opt a b j --screen 0",
    "opt - - j",
    "opt -- -- -- j",
    "flat",
    "flat a",
    "flat a a",
    "flat a b c",
    "flat a b --tries 1",
    "flat a b --merge 0",
    "tests a b c",
    "tests a b c d e",
    "tests a b c a",
    "tests a b c b",
    "tests a b c c",
    "tests a b c d --budget 1",
    "tests a b c d --merge 2",
    "tests a b c d --work 0",
    "replay",
    "replay a b",
    "replay a b c d",
    "replay a a c",
    "replay a b a",
    "replay a b b",
    "replay a a a",
    "replay a b c --depth 1",
    "replay a b c --workers=1",
    "replay --merge 1 a b c",
    "replay a b c --resume",
    "Replay a b c",
    "convert",
    "convert a",
    "convert a a",
    "convert a b c",
    "convert a b --budget 1",
    "convert a b --merge 1",
    "convert a --tries=1",
    "convert -- a a",
];

#[test]
fn refuses(rt: HostRuntime) -> Result<(), Fail> {
    for line in REFUSED {
        assert!(rt; reads(rt.alloc(), line, "refused")?);
    }
    Ok(())
}

const EQUAL_REFUSED: [&str; 22] = [
    "equal",
    "equal a",
    "equal a b",
    "equal a b p q",
    "equal a a p",
    "equal a b a",
    "equal a b b",
    "equal a a a",
    "equal -- a b a",
    "equal a b p --tries 1",
    "equal a b p --tries=0",
    "equal --workers=1 a b p",
    "equal a b p --merge 1",
    "equal a b p --perturb 1",
    "equal a b p --work 1",
    "equal a b p --depth 3",
    "equal a b p --budget 0",
    "equal a b p --budget=1048577",
    "equal a b p --budget 4 --budget 4",
    "equal a b --depth 1",
    "equal a b p --help",
    "Equal a b p",
];

#[test]
fn refuses_equal(rt: HostRuntime) -> Result<(), Fail> {
    for line in EQUAL_REFUSED {
        assert!(rt; reads(rt.alloc(), line, "refused")?, "{line}");
    }
    Ok(())
}

const JUDGE_REFUSED: [&str; 10] = [
    "judge",
    "judge a",
    "judge a b",
    "judge a b p q",
    "judge a b p --depth 1",
    "judge a b p --budget=8",
    "judge --workers 1 a b p",
    "judge a b p --merge=0",
    "judge a b p --help",
    "Judge a b p",
];

#[test]
fn refuses_judge(rt: HostRuntime) -> Result<(), Fail> {
    for line in JUDGE_REFUSED {
        assert!(rt; reads(rt.alloc(), line, "refused")?, "{line}");
    }
    Ok(())
}

const CARE_REFUSED: [&str; 22] = [
    "optcare",
    "optcare a",
    "optcare a b",
    "optcare a b c",
    "optcare a b c d e",
    "optcare a a c d",
    "optcare a b a d",
    "optcare a b c a",
    "optcare a b b d",
    "optcare a b c b",
    "optcare a b c c",
    "optcare -- a b c a",
    "optcare a b c d --tries 1",
    "optcare --workers=1 a b c d",
    "optcare a b c d --merge 2",
    "optcare a b c d --work=0",
    "optcare a b c d --depth 3",
    "optcare a b c d --budget=0",
    "optcare a b c d --depth 1 --depth=1",
    "optcare a b c --budget 4",
    "optcare a b c d --help",
    "Optcare a b c d",
];

#[test]
fn refuses_optcare(rt: HostRuntime) -> Result<(), Fail> {
    for line in CARE_REFUSED {
        assert!(rt; reads(rt.alloc(), line, "refused")?, "{line}");
    }
    Ok(())
}

const CUT_REFUSED: [&str; 27] = [
    "cut",
    "cut a",
    "cut a 1",
    "cut a 1 p x",
    "cut a 0 p",
    "cut a 65537 p",
    "cut a -1 p",
    "cut a ~ p",
    "cut a + p",
    "cut a 1x p",
    "cut a 99999999999999999999 p",
    "cut p1.blif 1 p",
    "cut p0042.blif 1 p",
    "cut 1.blif 1 ~",
    "cut d/p7.blif 1 d/p",
    "cut a 1 p --shift 65537",
    "cut a 1 p --shift",
    "cut a 1 p --shift=1 --shift=1",
    "cut a 1 p --depth 1",
    "cut a 1 p --budget=1",
    "cut a 1 p --tries 1",
    "cut a 1 p --workers 1",
    "cut a 1 p --merge 1",
    "cut a 1 p --perturb 1",
    "cut a 1 p --work 1",
    "cut a 1 p --help",
    "Cut a 1 p",
];

#[test]
fn refuses_cut(rt: HostRuntime) -> Result<(), Fail> {
    for line in CUT_REFUSED {
        assert!(rt; reads(rt.alloc(), line, "refused")?, "{line}");
    }
    for line in [
        "opt a b --shift 1",
        "demo 1 --shift=0",
        "equal a b p --shift 1",
    ] {
        assert!(rt; reads(rt.alloc(), line, "refused")?, "{line}");
    }
    Ok(())
}

const SEW_REFUSED: [&str; 27] = [
    "sew",
    "sew a 1 p",
    "sew a 1 p o x",
    "sew a 0 p o",
    "sew a 65537 p o",
    "sew a ~ p o",
    "sew a 1x p o",
    "sew a 1 p a",
    "sew -- -a 1 p -a",
    "sew p1.blif 1 p o",
    "sew p0042.journal 1 p o",
    "sew 1.journal 1 ~ o",
    "sew a 1 p p1.blif",
    "sew a 1 p p1.journal",
    "sew a 1 d/p d/p98.journal",
    "sew a 1 p1. p1.1.blif",
    "sew a 1 p o --shift 65537",
    "sew a 1 p o --shift",
    "sew a 1 p o --shift=1 --shift=1",
    "sew a 1 p o --depth 1",
    "sew a 1 p o --budget=1",
    "sew a 1 p o --tries 1",
    "sew a 1 p o --workers 1",
    "sew a 1 p o --merge 1",
    "sew a 1 p o --work=1",
    "sew a 1 p o --help",
    "Sew a 1 p o",
];

#[test]
fn refuses_sew(rt: HostRuntime) -> Result<(), Fail> {
    for line in SEW_REFUSED {
        assert!(rt; reads(rt.alloc(), line, "refused")?, "{line}");
    }
    Ok(())
}
