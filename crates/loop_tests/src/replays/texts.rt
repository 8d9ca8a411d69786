// Journals, parts of them, and what they are answered.
use crate::worked::{FOUR_GATES, FOUR_GATES_JOURNAL, ONE_GATE, ONE_GATE_JOURNAL, ZERO_ROW};

// 2 is observed.
const WIRE: &str = ".model m\n.inputs a\n.outputs z\n.names a z\n1 1\n.end\n";

// 3 and 4 are Nots of 2, and 5 is a Not of 4; all three are observed.
const NOTS: &str =
    ".model m\n.inputs a\n.outputs z y w\n.names a z\n0 1\n.names a y\n1 0\n.names y w\n0 1\n.end\n";

// 3 is And(2, 2), and 4 is And(3, 0), which is observed.
const BLOCKED: &str =
    ".model m\n.inputs a\n.outputs k\n.names a a o\n11 1\n.names z\n.names o z k\n11 1\n.end\n";

const FOUR_SPENT: &str =
    "rambo 1 1\nspent 4 0 0 /2,1 @ ?\nspent 4 0 1 /2,0 @ ?\nspent 4 1 0 /3,1 @ ?\nspent 4 1 1 /3,0 @ ?\nend\n";

const NOTS_JOURNAL: &str =
    "rambo 1 8\ntwin 4 3\ndead 4\nnot 2\ndead 4\ntwice 5\ndead 5\nhit 3 0 0 1\nhit 3 0 1 0\nend\n";

const BLOCKED_JOURNAL: &str =
    "rambo 1 8\nsame 3 1\nfix 3 0 1 h4 o0 i4,1 k0 !0\nconst 3 0\nnone 3\ndead 3\nconst 4 0\nconst 4 0\ndead 4\nend\n";

pub const ACCEPTED: [(&'static str, &'static str, &'static str); 7] = [
    (WIRE, "rambo 1 1\nend\n", "accepted 0"),
    (FOUR_GATES, FOUR_GATES_JOURNAL, "accepted 19"),
    (ONE_GATE, ONE_GATE_JOURNAL, "accepted 4"),
    (ONE_GATE, FOUR_SPENT, "accepted 4"),
    (NOTS, NOTS_JOURNAL, "accepted 8"),
    (BLOCKED, BLOCKED_JOURNAL, "accepted 8"),
    (
        ZERO_ROW,
        "rambo 1 1\nconst 2 0\ndead 2\nend\n",
        "accepted 2",
    ),
];

pub const CHANGES: [(&'static str, &'static str, &'static str); 13] = [
    ("2 a g6", "2 !0 g6", "1 Tree(NotClash { item: 1 })"),
    (" !8", "", "1 Tree(Shape { item: 8 })"),
    ("fix 6 0 1", "fix 6 1 1", "2 Tree(NotClash { item: 7 })"),
    (
        "one 6\ndead 6\n",
        "dead 6\n",
        "4 Edit(RuleNotMet { rule: Dead, node: NodeId(6) })",
    ),
    ("dead 7\n", "", "9 NotTidy { node: NodeId(7) }"),
    ("hit 8 0 0 1101", "hit 8 0 0 0101", "10 VectorMisses"),
    ("hit 9 2 1 0101", "hit 9 2 1 01011", "19 VectorMisses"),
    (
        "hit 9 2 1 0101\n",
        "",
        "19 FaultMissing { fault: Fault { gate: NodeId(9), position: 2, value: true } }",
    ),
    (
        "hit 9 2 1 0101",
        "spent 9 2 1 @",
        "19 SpentShort { edges: 0, budget: 256 }",
    ),
    ("end\n", "hit 9 2 1 0101\nend\n", "20 RecordExtra"),
    ("end\n", "", "Truncated { line: 21 }"),
    ("end\n", "end\nx\n", "AfterEnd { line: 22 }"),
    ("rambo 1", "rambo 2", "BadHeader { line: 1 }"),
];

pub const FIRST_RECORDS: [(&'static str, &'static str); 26] = [
    (
        "dead 4294967295",
        "1 Edit(NoNode { node: NodeId(4294967295) })",
    ),
    ("not 10", "1 Edit(NoNode { node: NodeId(10) })"),
    ("add 2 3 .", "1 Edit(WrongKind { node: NodeId(2) })"),
    ("fix 2 0 1 .", "1 Edit(WrongKind { node: NodeId(2) })"),
    (
        "fix 6 2 1 .",
        "1 Edit(NoPin { gate: NodeId(6), position: 2 })",
    ),
    (
        "add 6 9 .",
        "1 Edit(Cycle { from: NodeId(6), to: NodeId(9) })",
    ),
    (
        "add 6 2 .",
        "1 Edit(AlreadyPin { gate: NodeId(6), node: NodeId(2) })",
    ),
    (
        "const 6 0",
        "1 Edit(RuleNotMet { rule: Const, node: NodeId(6) })",
    ),
    (
        "same 6 1",
        "1 Edit(RuleNotMet { rule: Same, node: NodeId(6) })",
    ),
    (
        "none 6",
        "1 Edit(RuleNotMet { rule: NoPins, node: NodeId(6) })",
    ),
    (
        "one 6",
        "1 Edit(RuleNotMet { rule: OnePin, node: NodeId(6) })",
    ),
    (
        "twice 6",
        "1 Edit(RuleNotMet { rule: Twice, node: NodeId(6) })",
    ),
    (
        "twin 6 7",
        "1 Edit(RuleNotMet { rule: Twin, node: NodeId(6) })",
    ),
    (
        "dead 6",
        "1 Edit(RuleNotMet { rule: Dead, node: NodeId(6) })",
    ),
    ("fix 6 0 1 g6 !6", "1 Tree(BadLine { item: 1 })"),
    ("fix 6 0 1 a !2", "1 Tree(NotClash { item: 2 })"),
    ("fix 6 0 1 .", "1 Tree(NotQuiet { item: 1 })"),
    ("fix 6 0 1 /0,1 . .", "1 Tree(BadSplit { item: 1 })"),
    ("fix 6 0 1 a", "1 Tree(Shape { item: 2 })"),
    ("fix 6 0 1 @", "1 Tree(Shape { item: 1 })"),
    ("add 9 2 a !0", "1 Tree(NotClash { item: 2 })"),
    (
        "hit 6 0 1 1101",
        "1 FaultMissing { fault: Fault { gate: NodeId(6), position: 0, value: false } }",
    ),
    ("hit 6 0 0 0101", "1 VectorMisses"),
    ("hit 6 0 0 11", "1 VectorMisses"),
    ("spent 6 0 0 @", "1 SpentShort { edges: 0, budget: 2 }"),
    ("spent 6 0 0 /6,0 @ ?", "1 Tree(BadSplit { item: 1 })"),
];

pub const SHORT_JOURNALS: [(&'static str, &'static str, &'static str); 8] = [
    (
        ONE_GATE,
        "",
        "1 FaultMissing { fault: Fault { gate: NodeId(4), position: 0, value: false } }",
    ),
    (
        ONE_GATE,
        "hit 4 0 0 11\ndead 4\n",
        "2 FaultMissing { fault: Fault { gate: NodeId(4), position: 0, value: true } }",
    ),
    (
        ONE_GATE,
        "hit 4 0 0 11\nhit 4 0 0 11\n",
        "2 FaultMissing { fault: Fault { gate: NodeId(4), position: 0, value: true } }",
    ),
    (
        ONE_GATE,
        "spent 4 0 0 /2,1 @ ?\n",
        "1 SpentShort { edges: 1, budget: 2 }",
    ),
    (
        ONE_GATE,
        "hit 4 0 0 11\nhit 4 0 1 01\nhit 4 1 0 11\nhit 4 1 1 10\nhit 4 1 1 10\n",
        "5 RecordExtra",
    ),
    (ZERO_ROW, "", "1 NotTidy { node: NodeId(2) }"),
    (NOTS, "hit 3 0 0 1\n", "1 NotTidy { node: NodeId(4) }"),
    (FOUR_GATES, "dead 4294967296\n", "BadRecord { line: 2 }"),
];
