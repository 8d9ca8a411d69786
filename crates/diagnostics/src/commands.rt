// The commands with their names and the options with their ranges: what the usage, the help and the reasons for refused words
// are made of.

/// An option whose value is a decimal number.
#[derive(Clone, Copy)]
pub(crate) struct OptionRule {
    pub(crate) name: &'static str,
    pub(crate) low: u64,
    pub(crate) high: u64,
    pub(crate) default: u64,
    pub(crate) meaning: &'static str,
    /// The names of the commands that have it.
    pub(crate) commands: &'static [&'static str],
}

/// A command: its names in their order, and how many of them have to be there.
#[derive(Clone, Copy)]
pub(crate) struct CommandRule {
    pub(crate) name: &'static str,
    pub(crate) usage: &'static str,
    pub(crate) names: &'static [&'static str],
    pub(crate) least: usize,
    /// Pairs of its names, by their places, that must differ.
    pub(crate) different: &'static [(usize, usize)],
    /// Those of its names that are written.
    pub(crate) written: &'static [&'static str],
    pub(crate) meaning: &'static str,
}

pub(crate) const OPTIONS: [OptionRule; 8] = [
    OptionRule {
        name: "--depth",
        low: 0,
        high: 2,
        default: 1,
        meaning: "depth of recursive learning; 0 is direct implication",
        commands: &["opt", "demo", "equal", "optcare"],
    },
    OptionRule {
        name: "--budget",
        low: 1,
        high: 1_048_576,
        default: 256,
        meaning: "edges that one search for a test vector may enter",
        commands: &["opt", "demo", "equal", "optcare"],
    },
    OptionRule {
        name: "--tries",
        low: 0,
        high: 1_000_000,
        default: 1_000_000,
        meaning: "additions of a wire that the whole run may try",
        commands: &["opt", "demo"],
    },
    OptionRule {
        name: "--workers",
        low: 1,
        high: 64,
        default: 1,
        meaning: "threads that search for test vectors",
        commands: &["opt", "demo"],
    },
    OptionRule {
        name: "--merge",
        low: 0,
        high: 2,
        default: 1,
        meaning: "merge gates of equal or opposite values: 0 never, 1 after the additions, 2 also before them",
        commands: &["opt", "demo"],
    },
    OptionRule {
        name: "--perturb",
        low: 0,
        high: 64,
        default: 0,
        meaning: "turns in which wires are exchanged for others at no cost, each with further additions behind it",
        commands: &["opt", "demo"],
    },
    OptionRule {
        name: "--work",
        low: 0,
        high: 1_000_000,
        default: 0,
        meaning: "millions of units of work after which no more additions are tried; 0 is no limit",
        commands: &["opt", "demo"],
    },
    OptionRule {
        name: "--shift",
        low: 0,
        high: 65_536,
        default: 0,
        meaning: "wires of the first window, which moves all others; 0 gives it as many as they have",
        commands: &["cut", "sew"],
    },
];

pub(crate) const COMMANDS: [CommandRule; 12] = [
    CommandRule {
        name: "opt",
        usage: "opt IN OUT [JOURNAL] [options]",
        names: &["IN", "OUT", "JOURNAL"],
        least: 2,
        different: &[(0, 1), (0, 2), (1, 2)],
        written: &["OUT", "JOURNAL"],
        meaning: "optimise the BLIF netlist IN; write the netlist OUT, and each change with its reason to JOURNAL",
    },
    CommandRule {
        name: "check",
        usage: "check IN JOURNAL OUT",
        names: &["IN", "JOURNAL", "OUT"],
        least: 3,
        different: &[],
        written: &[],
        meaning: "replay JOURNAL over IN, and compare the netlist at its end with OUT",
    },
    CommandRule {
        name: "demo",
        usage: "demo SEED [options]",
        names: &["SEED"],
        least: 1,
        different: &[],
        written: &[],
        meaning: "optimise a netlist made from the number SEED; no file is read or written",
    },
    CommandRule {
        name: "flat",
        usage: "flat IN OUT",
        names: &["IN", "OUT"],
        least: 2,
        different: &[(0, 1)],
        written: &["OUT"],
        meaning: "join the models of the BLIF hierarchy IN into one, and write it to OUT",
    },
    CommandRule {
        name: "tests",
        usage: "tests IN JOURNAL OUT PATTERNS",
        names: &["IN", "JOURNAL", "OUT", "PATTERNS"],
        least: 4,
        different: &[(0, 3), (1, 3), (2, 3)],
        written: &["PATTERNS"],
        meaning: "check as check does, and write few test patterns for the stuck-at faults of OUT to PATTERNS",
    },
    CommandRule {
        name: "replay",
        usage: "replay IN JOURNAL OUT",
        names: &["IN", "JOURNAL", "OUT"],
        least: 3,
        different: &[(0, 1), (0, 2), (1, 2)],
        written: &["OUT"],
        meaning: "make the steps of JOURNAL over IN, up to its end or a fault, and write the netlist after them to OUT",
    },
    CommandRule {
        name: "convert",
        usage: "convert FROM TO",
        names: &["FROM", "TO"],
        least: 2,
        different: &[(0, 1)],
        written: &["TO"],
        meaning: "write the journal FROM, a text of version 1, to TO as the bytes of version 2",
    },
    CommandRule {
        name: "equal",
        usage: "equal A B PROOF [options]",
        names: &["A", "B", "PROOF"],
        least: 3,
        different: &[(0, 1), (0, 2), (1, 2)],
        written: &["PROOF"],
        meaning: "decide whether the BLIF netlists A and B have the same function, and write the proof or the difference to PROOF",
    },
    CommandRule {
        name: "judge",
        usage: "judge A B PROOF",
        names: &["A", "B", "PROOF"],
        least: 3,
        different: &[],
        written: &[],
        meaning: "replay PROOF over the BLIF netlists A and B, and tell what it shows of them",
    },
    CommandRule {
        name: "optcare",
        usage: "optcare IN CARE OUT TESTS [options]",
        names: &["IN", "CARE", "OUT", "TESTS"],
        least: 4,
        different: &[(0, 1), (0, 2), (0, 3), (1, 2), (1, 3), (2, 3)],
        written: &["OUT", "TESTS"],
        meaning: "remove wires of the BLIF netlist IN where its values count only while the output of CARE is 1; write the netlist OUT, and a test for each fault that is left to TESTS",
    },
    CommandRule {
        name: "cut",
        usage: "cut IN WIDTH PREFIX [options]",
        names: &["IN", "WIDTH", "PREFIX"],
        least: 3,
        different: &[],
        written: &[],
        meaning: "cut the BLIF netlist IN, of up to 4,294,967,295 bytes, into windows of about WIDTH wires, netlists of their own, and write them to PREFIX1.blif, PREFIX2.blif and so on",
    },
    CommandRule {
        name: "sew",
        usage: "sew IN WIDTH PREFIX OUT [options]",
        names: &["IN", "WIDTH", "PREFIX", "OUT"],
        least: 4,
        different: &[(0, 3)],
        written: &["OUT"],
        meaning: "cut the BLIF netlist IN as cut does, make the steps of PREFIX1.journal, PREFIX2.journal and so on over those windows that have one, and write IN with what the windows become to OUT",
    },
];

/// The command of this name.
pub(crate) fn command_named(word: &str) -> Option<CommandRule> {
    for rule in &COMMANDS {
        if rule.name == word {
            return Some(*rule);
        }
    }
    None
}

/// The option of this name, which begins with two dashes.
pub(crate) fn option_named(word: &str) -> Option<OptionRule> {
    for rule in &OPTIONS {
        if rule.name == word {
            return Some(*rule);
        }
    }
    None
}
