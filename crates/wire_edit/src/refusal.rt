//! Why a step isn't made.
use crate::steps::Rule;
use rm_base::NodeId;
use std::error::Error;
use std::fmt;

/// Why a step isn't made, in the order in which the reasons are looked at.
#[derive(Clone, Copy, Debug, PartialEq, Eq)]
pub enum EditRefusal {
    /// The node isn't live.
    NoNode { node: NodeId },
    /// The live node isn't of the kind that the step needs.
    WrongKind { node: NodeId },
    /// The gate has no such pin.
    NoPin { gate: NodeId, position: u32 },
    /// The new pin would close a cycle.
    Cycle { from: NodeId, to: NodeId },
    /// The node drives a pin of the gate already.
    AlreadyPin { gate: NodeId, node: NodeId },
    /// The rule's other conditions aren't met.
    RuleNotMet { rule: Rule, node: NodeId },
    /// The room for steps, pins or nodes is spent.
    Full,
}

impl fmt::Display for EditRefusal {
    fn fmt<W: fmt::Write>(&self, f: &mut fmt::Formatter<W>) -> fmt::Result {
        match self {
            EditRefusal::NoNode { node } => write!(f, "there is no node {}", node.0),
            EditRefusal::WrongKind { node } => write!(
                f,
                "node {} isn't of the kind that the step needs",
                node.0
            ),
            EditRefusal::NoPin { gate, position } => write!(
                f,
                "gate {} has no pin {position}",
                gate.0
            ),
            EditRefusal::Cycle { from, to } => write!(
                f,
                "a pin from {} to {} would close a cycle",
                from.0, to.0
            ),
            EditRefusal::AlreadyPin { gate, node } => write!(
                f,
                "node {} drives gate {} already",
                node.0, gate.0
            ),
            EditRefusal::RuleNotMet { rule, node } => write!(
                f,
                "{rule:?} doesn't apply at node {}",
                node.0
            ),
            EditRefusal::Full => f.write_str("the room is spent"),
        }
    }
}

impl Error for EditRefusal {}
