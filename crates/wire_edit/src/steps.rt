//! The steps by which a net changes.
ghost use Rattle.std.specs.Prelude.{◌≡◌};
ghost use Rattle.wire_edit.specs.Steps.{gate_of_step};

use rm_base::NodeId;

/// One change of a net. A position counts the pins of its gate from 0.
#[derive(Clone, Copy, Debug, PartialEq, Eq)]
pub enum Step {
    /// The gate reads the node by one more pin.
    Add {
        gate: NodeId,
        node: NodeId,
    },
    /// The pin reads a constant instead.
    Fix {
        gate: NodeId,
        position: u32,
        value: bool,
    },
    /// A Not of the node is made.
    NewNot {
        node: NodeId,
    },
    /// A pin reads a constant.
    Const {
        gate: NodeId,
        position: u32,
    },
    /// An earlier pin has the same driver.
    Same {
        gate: NodeId,
        position: u32,
    },
    /// An And or an Or has no pins.
    NoPins {
        gate: NodeId,
    },
    /// An And or an Or has one pin.
    OnePin {
        gate: NodeId,
    },
    /// A Not reads a Not.
    Twice {
        gate: NodeId,
    },
    /// A lower Not has the same driver.
    Twin {
        gate: NodeId,
        other: NodeId,
    },
    /// Nothing reads or observes the gate.
    Dead {
        gate: NodeId,
    },
}

impl Step {
    /// The gate at which the step is made; of a new Not, the node that it reads.
    pub fn gate(self) -> NodeId
        ensures { result ≡ gate_of_step self }
    {
        match self {
            Step::Add { gate, .. }
            | Step::Fix { gate, .. }
            | Step::Const { gate, .. }
            | Step::Same { gate, .. }
            | Step::NoPins { gate }
            | Step::OnePin { gate }
            | Step::Twice { gate }
            | Step::Twin { gate, .. }
            | Step::Dead { gate } => gate,
            Step::NewNot { node } => node,
        }
    }
}

/// The local rules: all steps but `Add` and `Fix`.
#[derive(Clone, Copy, Debug, PartialEq, Eq)]
pub enum Rule {
    NewNot,
    Const,
    Same,
    NoPins,
    OnePin,
    Twice,
    Twin,
    Dead,
}
