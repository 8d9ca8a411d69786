// What forward reading says of a node, and of a gate's pins.
ghost use Rattle.std.specs.Prelude.{◌≡◌, ◌<◌, ◌≤◌, length, map};
ghost use Rattle.std.specs.List.{list_all};
ghost use Rattle.gate_net.specs.Meaning.{kind_forward};
ghost use Rattle.local_evaluation.specs.Pins.{with_stuck, AreBelow};
ghost use Rattle.ternary_sim.specs.Marks.{seen, equal_at};
ghost use Rattle.ternary_sim.specs.Inner.Marks.{known_in};
ghost use Rattle.rm_base.specs.Numbers.{number_bound};

use gate_graph::Inputs;
use gate_net::Kind;
use local_evaluation::pin_scans::{Known, node_forward};
use local_evaluation::pins::Stuck;
use rm_base::NodeId;
use rm_base::vectors::Value3;

/// What forward reading says of a node: its good value and its faulty value where they are known, and whether it is
/// marked equal.
#[derive(Clone, Copy, Debug, PartialEq, Eq)]
pub struct NodeMarks {
    pub(crate) good: Option<bool>,
    pub(crate) faulty: Option<bool>,
    pub(crate) equal: bool,
}

/// Which of a node's two values.
#[derive(Clone, Copy, Debug, PartialEq, Eq)]
pub enum Reading {
    OfGood,
    OfFaulty,
}

pub(crate) fn known_value(value: Value3) -> Option<bool>
    ensures { result ≡ seen value }
{
    match value {
        Value3::Zero => Some(false),
        Value3::One => Some(true),
        Value3::Unknown => None,
    }
}

pub(crate) fn shown_value(known: Option<bool>) -> Value3
    ensures { seen result ≡ known }
{
    match known {
        Some(false) => Value3::Zero,
        Some(true) => Value3::One,
        None => Value3::Unknown,
    }
}

/// What marks tell of one of each node's two values.
#[derive(Clone, Copy)]
pub(crate) struct MarksOf<'a> {
    pub marks: &'a [NodeMarks],
    pub reading: Reading,
}

impl<'a> Known for MarksOf<'a> {
    ghost knows = { λ m. known_in m.reading m.marks.now };

    ghost bound = { λ m. length m.marks.now };

    fn known_of(&self, node: NodeId) -> Option<bool> {
        let on = self.marks[node.0 as usize];
        match self.reading {
            Reading::OfGood => on.good,
            Reading::OfFaulty => on.faulty,
        }
    }
}

// The value of a node from those of its drivers; of a source, what is known of it.
pub(crate) fn value_from(
    kind: Kind,
    own: Option<bool>,
    drivers: Inputs<'_>,
    stuck: Option<Stuck>,
    marks: &[NodeMarks],
    reading: Reading,
) -> Option<bool>
    requires within { AreBelow drivers (length marks.now) }
    requires few { length drivers ≤ number_bound }
    ensures { result ≡ kind_forward kind own (with_stuck stuck (map (known_in reading marks.now) drivers.entry)) }
{
    let known = MarksOf { marks, reading };
    node_forward(kind, own, drivers, stuck, &known)
}

fn is_equal(marks: &[NodeMarks], node: NodeId) -> bool
    requires { node.0 < length marks.now }
    ensures { result ≡ equal_at marks.now node.0 }
{
    let on = marks[node.0 as usize];
    on.equal
}

// Whether all drivers are marked equal.
pub(crate) fn all_equal(drivers: Inputs<'_>, marks: &[NodeMarks]) -> bool
    requires { AreBelow drivers (length marks.now) }
    ensures { result ≡ list_all (equal_at marks.now) drivers.entry }
{
    for driver in drivers {
        if !is_equal(marks, driver) {
            return false;
        }
    }
    true
}
