// What there is to say of two netlists that belong together: those that are compared, and one with its care netlist.
use crate::message::Message;
use crate::parts::Part;
use rm_base::NoMemory;

/// The lists of names of two netlists, which are compared place by place.
#[derive(Clone, Copy)]
pub(crate) struct UnlikeLists<'a> {
    /// The names of the files.
    pub(crate) first: &'a str,
    pub(crate) second: &'a str,
    /// As the run printed it: `sources` or `observed`.
    pub(crate) list: &'a str,
    /// The first place that differs, from 1.
    pub(crate) place: u64,
}

// The word for the entries of a list.
fn entries(list: &str) -> &'static str {
    if list == "sources" {
        "sources"
    } else {
        "observed names"
    }
}

// What the list holds.
fn contents(list: &str) -> &'static str {
    if list == "sources" {
        "hint: the sources are the inputs, then the clocks, then the outputs of latches; their order counts\n"
    } else {
        "hint: the observed names are the outputs, then the inputs of latches, then their controls; their order counts\n"
    }
}

/// The netlists have lists that differ.
pub(crate) fn say_unlike(message: Message, unlike: &UnlikeLists<'_>) -> Result<Message, NoMemory> {
    message.say(&[
        Part::Word(unlike.second.as_bytes()),
        Part::Text(": "),
        Part::Red("error: "),
        Part::Text("its "),
        Part::Text(entries(unlike.list)),
        Part::Text(" aren't those of '"),
        Part::Word(unlike.first.as_bytes()),
        Part::Text("', first at place "),
        Part::Number(unlike.place),
        Part::Text("\n"),
        Part::Text(contents(unlike.list)),
    ])
}

/// The care netlist isn't of the shape that it has to have.
pub(crate) fn say_care_shape(message: Message, care: &str) -> Result<Message, NoMemory> {
    message.say(&[
        Part::Word(care.as_bytes()),
        Part::Text(": "),
        Part::Red("error: "),
        Part::Text("CARE has to have exactly one output, and no latches and no clocks\n"),
        Part::Text(
            "hint: its .inputs line lists all sources of IN in order: the inputs, then the clocks, then the outputs of latches; its output is 1 where the values of IN count\n",
        ),
    ])
}

/// How the values that tell the netlists apart are read.
pub(crate) fn say_differ(message: Message, bits: &str) -> Result<Message, NoMemory> {
    if bits.is_empty() {
        return message.say(&[Part::Text(
            "rambo: note: A and B give an observed name different values; they have no sources\n",
        )]);
    }
    message.say(&[Part::Text(
        "rambo: note: under these values A and B give an observed name different values: first those of the inputs, then of the clocks, then of the outputs of latches\n",
    )])
}

/// The search found neither a difference nor a proof.
pub(crate) fn say_undecided(message: Message, budget: u64) -> Result<Message, NoMemory> {
    message.say(&[
        Part::Text("rambo: note: with a budget of "),
        Part::Number(budget),
        Part::Text(
            " the search found neither a difference nor a proof\nhint: a larger --budget decides more, and with n sources one of 2^(n+1) decides all; or try --depth 2\n",
        ),
    ])
}
