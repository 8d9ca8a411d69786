// What each kind of fault of a text means, and what helps.
use crate::message::Message;
use crate::parts::Part;
use rm_base::NoMemory;

/// A kind of fault: what is wrong, around the word that stands there if that is quoted, and what helps.
#[derive(Clone, Copy)]
pub(crate) struct KindRule {
    kind: &'static str,
    pub(crate) before: &'static str,
    pub(crate) quotes: bool,
    pub(crate) after: &'static str,
    hint: &'static str,
}

const UNKNOWN: KindRule = KindRule {
    kind: "",
    before: "the text is not accepted here",
    quotes: false,
    after: "",
    hint: "",
};

const WITHOUT_WORDS: KindRule = KindRule {
    kind: "NoModel",
    before: "the text is empty, or has comments alone",
    quotes: false,
    after: "",
    hint: "put '.model NAME' first",
};

const KINDS: [KindRule; 22] = [
    KindRule {
        kind: "BadByte",
        before: "a control character, or a backslash at the end of a word",
        quotes: false,
        after: "",
        hint: "the file may be binary, or hold an escaped Verilog name; names may hold [ ] . $ and : as they are",
    },
    KindRule {
        kind: "OpenJoin",
        before: "the last line ends in a backslash, and no line follows",
        quotes: false,
        after: "",
        hint: "the file may have been cut short",
    },
    KindRule {
        kind: "NoModel",
        before: "the first word is ",
        quotes: true,
        after: ", not .model",
        hint: "put '.model NAME' first",
    },
    KindRule {
        kind: "Unsupported",
        before: "",
        quotes: true,
        after: " is not part of a flat BLIF model",
        hint: "see Unsupported in docs/messages.md",
    },
    KindRule {
        kind: "UnknownCommand",
        before: "",
        quotes: true,
        after: " is no command of BLIF",
        hint: "the commands are .model .inputs .outputs .clock .names .latch and .end, in lower case",
    },
    KindRule {
        kind: "MissingWord",
        before: "the line has too few words",
        quotes: false,
        after: "",
        hint: "if the line goes on below, end it with a backslash",
    },
    KindRule {
        kind: "ExtraWord",
        before: "",
        quotes: true,
        after: " is one word too many",
        hint: "remove the word, or put # before it",
    },
    KindRule {
        kind: "RowOutsideCover",
        before: "a row without a .names line above it",
        quotes: false,
        after: "",
        hint: "end a line that goes on below with a backslash",
    },
    KindRule {
        kind: "RowLength",
        before: "the row hasn't one character for each input of its cover",
        quotes: false,
        after: "",
        hint: "the last name of a .names line is its output; the characters of a row stand together",
    },
    KindRule {
        kind: "RowCharacter",
        before: "",
        quotes: true,
        after: " in a row: inputs are 0, 1 or -, and the output is 0 or 1",
        hint: "write - for an input that doesn't matter",
    },
    KindRule {
        kind: "MixedCover",
        before: "some rows of the cover end in 1 and others in 0",
        quotes: false,
        after: "",
        hint: "keep the rows that end in 1, and everything else is 0; or keep those that end in 0",
    },
    KindRule {
        kind: "BadLatchWord",
        before: "",
        quotes: true,
        after: " is neither a latch type (fe re ah al as) nor an initial value (0 to 3)",
        hint: "write '.latch IN OUT re CLOCK 0', or '.latch IN OUT 0' without a clock",
    },
    KindRule {
        kind: "DoubleDriven",
        before: "",
        quotes: true,
        after: " is driven twice",
        hint: "",
    },
    KindRule {
        kind: "DoubleOutput",
        before: "the output ",
        quotes: true,
        after: " is listed twice",
        hint: "list it once; a second output of this function needs a name and a cover of its own",
    },
    KindRule {
        kind: "AfterEnd",
        before: "",
        quotes: true,
        after: " stands after .end",
        hint: "rambo flat IN NEW.blif joins the models of a text into one",
    },
    KindRule {
        kind: "Undriven",
        before: "nothing drives ",
        quotes: true,
        after: "",
        hint: "list it under .inputs, or drive it: '.names NAME' without rows is 0",
    },
    KindRule {
        kind: "NoRank",
        before: "the cover is on a combinational cycle, or reads one that is",
        quotes: false,
        after: "",
        hint: "break the cycle by a .latch, or make the cut an output and an input",
    },
    KindRule {
        kind: "BadPin",
        before: "the pin ",
        quotes: true,
        after: " is not formal=actual with a pin of the called model that stands once",
        hint: "the pins of a model are its inputs, clocks and outputs",
    },
    KindRule {
        kind: "MissingPin",
        before: "the call leaves out an input of the called model",
        quotes: false,
        after: "",
        hint: "give each input and clock a name; outputs may be left out",
    },
    KindRule {
        kind: "UnknownModel",
        before: "the text has no model ",
        quotes: true,
        after: "",
        hint: "add the model to the text; let yosys make latches of flip-flop cells by dfflegalize and simplemap, see docs/flows.md",
    },
    KindRule {
        kind: "DoubleModel",
        before: "the model ",
        quotes: true,
        after: " stands twice",
        hint: "rename one of them, or remove it",
    },
    KindRule {
        kind: "Recursive",
        before: "the model that has this call is called by it, directly or through others",
        quotes: false,
        after: "",
        hint: "a model can't hold itself; break the cycle of calls",
    },
];

const UNSUPPORTED: [(&str, &str); 11] = [
    (
        ".subckt",
        "rambo flat IN NEW.blif joins the models of a text into one; if the cell is a flip-flop, see docs/flows.md",
    ),
    (
        ".model",
        "rambo flat IN NEW.blif joins the models of a text into one",
    ),
    (
        ".gate",
        "the netlist is mapped to a library; write it before mapping, or by abc after strash",
    ),
    (
        ".mlatch",
        "the netlist is mapped to a library; write it before mapping, or by abc after strash",
    ),
    (
        ".exdc",
        "delete the don't-care section; rambo optcare reads a netlist of its own that is 1 where values count",
    ),
    (".attr", "write_blif of yosys without -attr leaves it out"),
    (".cname", "write_blif of yosys without -cname leaves it out"),
    (".param", "write_blif of yosys without -param leaves it out"),
    (".conn", "write_blif of yosys without -conn leaves it out"),
    (
        ".blackbox",
        "make the outputs of the black box inputs of the model, and its inputs outputs",
    ),
    (".start_kiss", "encode the state machine first"),
];

/// The kind of fault of this name, at this word.
pub(crate) fn kind_of(name: &str, word: &[u8]) -> KindRule {
    if name == "NoModel" && word.is_empty() {
        return WITHOUT_WORDS;
    }
    for rule in &KINDS {
        if rule.kind == name {
            return *rule;
        }
    }
    UNKNOWN
}

/// What helps against the fault at this word, or nothing.
pub(crate) fn word_hint(kind: &str, word: &[u8]) -> &'static str {
    if kind == "Unsupported" {
        for (command, hint) in UNSUPPORTED {
            if command.as_bytes() == word {
                return hint;
            }
        }
    }
    kind_of(kind, word).hint
}

/// Says what helps, if that is known.
pub(crate) fn say_hint(message: Message, hint: &'static str) -> Result<Message, NoMemory> {
    if hint.is_empty() {
        return Ok(message);
    }
    message.say(&[Part::Text("hint: "), Part::Text(hint), Part::Text("\n")])
}
