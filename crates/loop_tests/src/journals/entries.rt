// Lines by themselves: the steps, the verdicts and the items of trees that they are read as.
use journal_text::{Entry, JournalReader, Record};
use refutation::{Item, Line};
use rm_base::{Fault, NodeId};
use std::alloc::Global;
use std::test::Fail;
use wire_edit::Step;

// The entry of a line, behind a header.
fn entry_of(alloc: Global, line: &str) -> Result<Option<Entry>, Fail> {
    let mut reader = JournalReader::new(alloc);
    reader.push(b"rambo 1 1\n")?;
    reader.push(line.as_bytes())?;
    reader.push(b"\n")?;
    let _header = reader.next()?;
    Ok(reader.next()?)
}

// The step of a line.
fn step_of(alloc: Global, line: &str) -> Result<Option<Step>, Fail> {
    let Some(Entry::Record(Record::Step { step, .. })) = entry_of(alloc, line)? else {
        return Ok(None);
    };
    Ok(Some(step))
}

const SIX: NodeId = NodeId(6);

const LAST: NodeId = NodeId(4_294_967_295);

const STEPS: [(&'static str, Step); 11] = [
    (
        "add 6 4294967295 .",
        Step::Add {
            gate: SIX,
            node: LAST,
        },
    ),
    (
        "fix 6 10 0 .",
        Step::Fix {
            gate: SIX,
            position: 10,
            value: false,
        },
    ),
    (
        "fix 6 4294967295 1 .",
        Step::Fix {
            gate: SIX,
            position: 4_294_967_295,
            value: true,
        },
    ),
    ("not 6", Step::NewNot { node: SIX }),
    (
        "const 6 0",
        Step::Const {
            gate: SIX,
            position: 0,
        },
    ),
    (
        "same 6 7",
        Step::Same {
            gate: SIX,
            position: 7,
        },
    ),
    ("none 6", Step::NoPins { gate: SIX }),
    ("one 6", Step::OnePin { gate: SIX }),
    ("twice 6", Step::Twice { gate: SIX }),
    (
        "twin 6 4294967295",
        Step::Twin {
            gate: SIX,
            other: LAST,
        },
    ),
    ("dead 6", Step::Dead { gate: SIX }),
];

#[test]
fn steps_of_all_kinds(rt: HostRuntime) -> Result<(), Fail> {
    for (line, step) in STEPS {
        assert_eq!(rt; step_of(rt.alloc(), line)?, Some(step));
    }
    Ok(())
}

const EIGHT: Fault = Fault {
    gate: NodeId(8),
    position: 1,
    value: true,
};

#[test]
fn a_hit(rt: HostRuntime) -> Result<(), Fail> {
    let entry = entry_of(rt.alloc(), "hit 8 1 1 0110")?;
    let Some(Entry::Record(Record::Hit { fault, vector })) = entry else {
        return Err("no hit".into());
    };
    assert_eq!(rt; fault, EIGHT);
    assert_eq!(rt; vector.values(), [false, true, true, false].as_slice());
    Ok(())
}

#[test]
fn a_search_that_is_spent(rt: HostRuntime) -> Result<(), Fail> {
    let entry = entry_of(rt.alloc(), "spent 8 1 1 /2,1 @ ?")?;
    let Some(Entry::Record(Record::Spent { fault, tree })) = entry else {
        return Err("no spent".into());
    };
    assert_eq!(rt; fault, EIGHT);
    let items = [
        Item::Split {
            node: NodeId(2),
            first: true,
        },
        Item::Here,
        Item::Untried,
    ];
    assert_eq!(rt; tree.items(), items.as_slice());
    Ok(())
}

// The item of a word.
fn item_of(alloc: Global, word: &str) -> Result<Option<Item>, Fail> {
    let line = format!(in alloc; "add 6 2 {word}")?;
    let Some(Entry::Record(Record::Step { tree, .. })) = entry_of(alloc, &line)? else {
        return Ok(None);
    };
    Ok(tree.items().first().copied())
}

const SEVEN: NodeId = NodeId(7);

const LINES: [(&'static str, Line); 17] = [
    ("a", Line::Act),
    ("s", Line::Site),
    ("h7", Line::Chain { node: SEVEN }),
    ("o7", Line::Out { node: SEVEN }),
    ("k7", Line::Constant { node: SEVEN }),
    ("g7", Line::GoodForward { node: SEVEN }),
    ("f7", Line::FaultyForward { node: SEVEN }),
    (
        "b7,3",
        Line::GoodBack {
            node: SEVEN,
            position: 3,
        },
    ),
    (
        "c7,3",
        Line::FaultyBack {
            node: SEVEN,
            position: 3,
        },
    ),
    ("p7", Line::Compare { node: SEVEN }),
    ("q7", Line::ToFaulty { node: SEVEN }),
    ("r7", Line::ToGood { node: SEVEN }),
    ("e7", Line::EqualForward { node: SEVEN }),
    ("n7", Line::NotDiffers { node: SEVEN }),
    ("w7", Line::NotEqual { node: SEVEN }),
    (
        "d7,3",
        Line::DiffersBack {
            node: SEVEN,
            position: 3,
        },
    ),
    (
        "i7,3",
        Line::Side {
            node: SEVEN,
            position: 3,
        },
    ),
];

#[test]
fn lines_of_all_kinds(rt: HostRuntime) -> Result<(), Fail> {
    for (word, line) in LINES {
        assert_eq!(rt; item_of(rt.alloc(), word)?, Some(Item::Line(line)));
    }
    Ok(())
}

const ITEMS: [(&'static str, Item); 6] = [
    (
        "/7,0",
        Item::Split {
            node: SEVEN,
            first: false,
        },
    ),
    (
        "/7,1",
        Item::Split {
            node: SEVEN,
            first: true,
        },
    ),
    ("!7", Item::Clash(SEVEN)),
    (".", Item::Quiet),
    ("@", Item::Here),
    ("?", Item::Untried),
];

#[test]
fn items_of_all_kinds(rt: HostRuntime) -> Result<(), Fail> {
    for (word, item) in ITEMS {
        assert_eq!(rt; item_of(rt.alloc(), word)?, Some(item));
    }
    Ok(())
}
