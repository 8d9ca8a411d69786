// Quantities that are over their limits.
use crate::hints::say_hint;
use crate::message::Message;
use crate::parts::Part;
use rm_base::NoMemory;

// A quantity: its word, the words around its count, what stands behind its limit where that is one less than the count, and what
// helps.
#[derive(Clone, Copy)]
struct LimitRule {
    word: &'static str,
    before: &'static str,
    after: &'static str,
    behind_limit: &'static str,
    hint: &'static str,
}

const BY_BLOCKS: &str = "split the design into blocks";

const LIMITS: [LimitRule; 11] = [
    LimitRule {
        word: "text",
        before: " has ",
        after: " bytes or more; at most ",
        behind_limit: " can be read",
        hint: "split the design, or shorten its names",
    },
    LimitRule {
        word: "name",
        before: " has a name of ",
        after: " bytes; at most 1024 are allowed",
        behind_limit: "",
        hint: "rename -enumerate in yosys shortens names",
    },
    LimitRule {
        word: "inputs",
        before: " has a cover of ",
        after: " inputs; at most 65536 are allowed",
        behind_limit: "",
        hint: "split the cover",
    },
    LimitRule {
        word: "sources",
        before: " has ",
        after: " or more primary inputs, clocks and latch outputs together; at most 1024 are allowed",
        behind_limit: "",
        hint: BY_BLOCKS,
    },
    LimitRule {
        word: "observed",
        before: " has ",
        after: " or more primary outputs, latch inputs and latch controls together; at most 4096 are allowed",
        behind_limit: "",
        hint: BY_BLOCKS,
    },
    LimitRule {
        word: "signals",
        before: " has ",
        after: " or more different names; at most 131072 are allowed",
        behind_limit: "",
        hint: BY_BLOCKS,
    },
    LimitRule {
        word: "pins",
        before: " needs ",
        after: " wires as And, Or, Not and Xor gates; at most 65536 are allowed",
        behind_limit: "",
        hint: "let abc minimise the covers first, or split the design into blocks",
    },
    LimitRule {
        word: "journal",
        before: " has ",
        after: " bytes or more, and is no journal",
        behind_limit: "",
        hint: "",
    },
    LimitRule {
        word: "proof",
        before: " has ",
        after: " bytes or more, and is no proof",
        behind_limit: "",
        hint: "",
    },
    LimitRule {
        word: "flat",
        before: " has ",
        after: " or more tokens once every call is written out; at most ",
        behind_limit: " are allowed",
        hint: "flatten and optimise the design block by block",
    },
    LimitRule {
        word: "windows",
        before: " gives ",
        after: " windows; at most 1048576 are allowed",
        behind_limit: "",
        hint: "a greater WIDTH gives fewer windows",
    },
];

fn limit_of(quantity: &str) -> Option<LimitRule> {
    for rule in &LIMITS {
        if rule.word == quantity {
            return Some(*rule);
        }
    }
    None
}

// The limit, where the count is one more, and what stands behind it.
fn say_most(message: Message, behind: &str, count: u64) -> Result<Message, NoMemory> {
    if behind.is_empty() {
        return Ok(message);
    }
    message.say(&[Part::Number(count.saturating_sub(1)), Part::Text(behind)])
}

/// The quantity of the file with this name is over its limit.
pub(crate) fn say_limit(
    message: Message,
    name: &str,
    quantity: &str,
    count: u64,
) -> Result<Message, NoMemory> {
    let Some(rule) = limit_of(quantity) else {
        return Ok(message);
    };
    let message = message.say(&[
        Part::Word(name.as_bytes()),
        Part::Text(": "),
        Part::Red("error: "),
        Part::Text("it"),
        Part::Text(rule.before),
        Part::Number(count),
        Part::Text(rule.after),
    ])?;
    let message = say_most(message, rule.behind_limit, count)?;
    let message = message.say(&[Part::Text("\n")])?;
    say_hint(message, rule.hint)
}
