//! Audits of files in memory, against what is worked out by hand.
use crate::worked::{
    FOUR_GATES, FOUR_GATES_JOURNAL, ONE_GATE, ONE_GATE_JOURNAL, ZERO_ROW, read, replace_part,
};
use journal_audit::{AuditProblem, audit, fault_line, netlist_line, refusal_line};
use journal_check::{JournalRefusal, Why};
use journal_reading::{JournalFault, Version};
use refutation_check::CheckRefusal;
use rm_base::{Fault, MemoryShelf, NodeId};
use rm_model::NameKeys;
use std::alloc::Global;
use std::test::Fail;
use wire_edit::{EditRefusal, Rule};

const THREE_WIRES: &str =
    ".model r3\n.inputs a b c d\n.outputs k\n.names b c n0_8\n1- 1\n-1 1\n.names n0_8 d a k\n111 1\n.end\n";

type Answer = Result<u64, AuditProblem>;

// A shelf with these files, of which an empty one is missing.
fn shelf(alloc: Global, journal: &str, output: &str, failing: &[u64]) -> Result<MemoryShelf, Fail> {
    let mut files = Vec::new(alloc);
    for (name, text) in [("journal", journal), ("out", output)] {
        if !text.is_empty() {
            files.push((
                String::from_str(alloc, name)?,
                Vec::from_slice(alloc, text.as_bytes())?,
            ))?;
        }
    }
    Ok(MemoryShelf::new(alloc, files, Vec::from_slice(alloc, failing)?)?)
}

fn answer(alloc: Global, input: &str, journal: &str, output: &str) -> Result<Answer, Fail> {
    let model = read(alloc, input)?;
    let mut shelf = shelf(alloc, journal, output, &[])?;
    Ok(audit(
        alloc,
        NameKeys::Ordered,
        &mut shelf,
        &model,
        "journal",
        "out",
    ))
}

fn refusal_at(number: u64, why: Why) -> Answer {
    Err(AuditProblem::Refused {
        refusal: JournalRefusal { number, why },
    })
}

fn faulty(fault: JournalFault) -> Answer {
    Err(AuditProblem::Text { fault })
}

#[test]
fn worked_journals_pass(rt: HostRuntime) -> Result<(), Fail> {
    let alloc = rt.alloc();
    let got = answer(alloc, FOUR_GATES, FOUR_GATES_JOURNAL, THREE_WIRES)?;
    assert_eq!(rt; got, Ok(19));
    let got = answer(alloc, ONE_GATE, ONE_GATE_JOURNAL, ONE_GATE)?;
    assert_eq!(rt; got, Ok(4));
    Ok(())
}

#[test]
fn changed_journals_are_refused(rt: HostRuntime) -> Result<(), Fail> {
    let alloc = rt.alloc();
    let rows: [(&str, &str, Answer); 5] = [
        (
            "add 9 2 a",
            "add 9 2 !0",
            refusal_at(1, Why::Tree(CheckRefusal::NotClash { item: 1 })),
        ),
        (
            "end\n",
            "",
            faulty(JournalFault::Truncated {
                version: Version::One,
                number: 21,
            }),
        ),
        (
            "end\n",
            "end\nx\n",
            faulty(JournalFault::AfterEnd {
                version: Version::One,
                number: 22,
            }),
        ),
        (
            "hit 8 0 0 1101",
            "hit 8 0 0 0101",
            refusal_at(10, Why::VectorMisses),
        ),
        (
            "rambo 1",
            "rambo 2",
            faulty(JournalFault::BadHeader {
                version: Version::One,
                number: 1,
            }),
        ),
    ];
    for (old, new, wanted) in rows {
        let journal = replace_part(alloc, FOUR_GATES_JOURNAL, old, new)?;
        let got = answer(alloc, FOUR_GATES, &journal, THREE_WIRES)?;
        assert_eq!(rt; got, wanted);
    }
    Ok(())
}

#[test]
fn changed_outputs_are_refused(rt: HostRuntime) -> Result<(), Fail> {
    let alloc = rt.alloc();
    for (old, new, byte) in [
        ("r3", "s3", 8u64),
        (".end\n", ".end", 92),
        (".end\n", ".end\n\n", 93),
    ] {
        let output = replace_part(alloc, THREE_WIRES, old, new)?;
        let got = answer(alloc, FOUR_GATES, FOUR_GATES_JOURNAL, &output)?;
        assert_eq!(rt; got, Err(AuditProblem::Netlist { byte }));
    }
    Ok(())
}

const FIRST: Fault = Fault {
    gate: NodeId(4),
    position: 0,
    value: false,
};

const CYCLE: EditRefusal = EditRefusal::Cycle {
    from: NodeId(6),
    to: NodeId(9),
};

const ONE_HIT_MORE: &str =
    "rambo 1 256\nhit 4 0 0 11\nhit 4 0 1 01\nhit 4 1 0 11\nhit 4 1 1 10\nhit 4 1 1 10\nend\n";

// The input, the journal, and the record that is refused with the reason.
const REFUSED: [(&'static str, &'static str, u64, Why); 6] = [
    (
        ONE_GATE,
        "rambo 1 256\nend\n",
        1,
        Why::FaultMissing { fault: FIRST },
    ),
    (
        ONE_GATE,
        "rambo 1 2\nspent 4 0 0 /2,1 @ ?\nend\n",
        1,
        Why::SpentShort {
            edges: 1,
            budget: 2,
        },
    ),
    (ONE_GATE, ONE_HIT_MORE, 5, Why::RecordExtra),
    (
        ZERO_ROW,
        "rambo 1 256\nend\n",
        1,
        Why::NotTidy { node: NodeId(2) },
    ),
    (
        FOUR_GATES,
        "rambo 1 256\nadd 6 9 .\nend\n",
        1,
        Why::Edit(CYCLE),
    ),
    (FOUR_GATES, "rambo 1 256\nadd 6 9 .\nx", 1, Why::Edit(CYCLE)),
];

#[test]
fn other_journals_are_refused(rt: HostRuntime) -> Result<(), Fail> {
    let alloc = rt.alloc();
    for (input, journal, number, why) in REFUSED {
        let got = answer(alloc, input, journal, "x")?;
        assert_eq!(rt; got, refusal_at(number, why));
    }
    Ok(())
}

const FAULTY: [(&'static str, JournalFault); 2] = [
    (
        "rambo 2 256\nend\n",
        JournalFault::BadHeader {
            version: Version::One,
            number: 1,
        },
    ),
    (
        "rambo 1 256\nfix 06 0 1 .\nend\n",
        JournalFault::BadRecord {
            version: Version::One,
            number: 2,
        },
    ),
];

#[test]
fn faulty_journals_are_refused(rt: HostRuntime) -> Result<(), Fail> {
    let alloc = rt.alloc();
    for (journal, fault) in FAULTY {
        let got = answer(alloc, FOUR_GATES, journal, "x")?;
        assert_eq!(rt; got, faulty(fault));
    }
    Ok(())
}

// A file that is missing is one in its turn.
#[test]
fn missing_files(rt: HostRuntime) -> Result<(), Fail> {
    let alloc = rt.alloc();
    let got = answer(alloc, ONE_GATE, "", ONE_GATE)?;
    assert_eq!(rt; got, Err(AuditProblem::NoJournal));
    let got = answer(alloc, ONE_GATE, ONE_GATE_JOURNAL, "")?;
    assert_eq!(rt; got, Err(AuditProblem::NoOutput));
    let got = answer(alloc, ONE_GATE, "rambo 1 256\nend\n", "")?;
    assert!(rt; matches!(got, Err(AuditProblem::Refused { .. })));
    Ok(())
}

// So is a call that fails; the fourth is one more than there are.
#[test]
fn failing_calls(rt: HostRuntime) -> Result<(), Fail> {
    let alloc = rt.alloc();
    let model = read(alloc, ONE_GATE)?;
    for call in 1..5u64 {
        let mut shelf = shelf(alloc, ONE_GATE_JOURNAL, ONE_GATE, &[call])?;
        let got = audit(
            alloc,
            NameKeys::Ordered,
            &mut shelf,
            &model,
            "journal",
            "out",
        );
        let wanted = if call < 4 {
            Err(AuditProblem::Fault)
        } else {
            Ok(4)
        };
        assert_eq!(rt; got, wanted);
        assert_eq!(rt; shelf.file("out"), Some(ONE_GATE.as_bytes()));
    }
    Ok(())
}

// More than one piece: a long line, and many records.
#[test]
fn journals_of_several_pieces(rt: HostRuntime) -> Result<(), Fail> {
    let alloc = rt.alloc();
    let mut long = String::from_str(alloc, "rambo 1 256\nfix 6 0 1")?;
    for _ in 0..30_000 {
        long.push_str(" /2,1")?;
    }
    long.push_str("\nend\n")?;
    let got = answer(alloc, FOUR_GATES, &long, "x")?;
    assert_eq!(rt;
        got,
        refusal_at(1, Why::Tree(CheckRefusal::BadSplit { item: 2 }))
    );
    Ok(())
}

const LINES: [(Why, &'static str); 8] = [
    (
        Why::Tree(CheckRefusal::NotClash { item: 1 }),
        "NotClash item 1",
    ),
    (
        Why::Edit(EditRefusal::RuleNotMet {
            rule: Rule::Dead,
            node: NodeId(6),
        }),
        "RuleNotMet",
    ),
    (Why::VectorMisses, "VectorMisses"),
    (
        Why::SpentShort {
            edges: 1,
            budget: 2,
        },
        "SpentShort 1 2",
    ),
    (Why::FaultMissing { fault: FIRST }, "FaultMissing 4 0 0"),
    (Why::RecordExtra, "RecordExtra"),
    (Why::NotTidy { node: NodeId(2) }, "NotTidy 2"),
    (Why::Edit(EditRefusal::Full), "Full"),
];

#[test]
fn lines_say_why(rt: HostRuntime) -> Result<(), Fail> {
    let alloc = rt.alloc();
    for (why, words) in LINES {
        let line = refusal_line(alloc, &JournalRefusal { number: 10, why })?;
        let wanted = format!(in alloc; "journal record 10 {words}\n")?;
        assert_eq!(rt; line.as_slice(), wanted.as_bytes());
    }
    let line = fault_line(
        alloc,
        JournalFault::Truncated {
            version: Version::One,
            number: 21,
        },
    )?;
    assert_eq!(rt; line.as_slice(), b"journal line 21 Truncated\n".as_slice());
    let line = netlist_line(alloc, 8)?;
    assert_eq!(rt; line.as_slice(), b"netlist 8\n".as_slice());
    Ok(())
}
