// Facts and lines.
use rm_base::NodeId;

/// What is known of a node's good value and faulty value.
#[derive(Clone, Copy, Debug, PartialEq, Eq)]
pub enum Fact {
    /// The good value is this.
    Good(bool),
    /// The faulty value is this.
    Faulty(bool),
    /// The two values are the same.
    Equal,
    /// They are not.
    Differs,
}

/// One step of reasoning about a stuck pin: the fact it gives follows from facts held before.
#[derive(Clone, Copy, Debug, PartialEq, Eq)]
pub enum Line {
    /// The driver of the stuck pin has the opposite value.
    Act,
    /// The faulty gate differs.
    Site,
    /// A node of the chain differs.
    Chain { node: NodeId },
    /// A node that the faulty gate doesn't reach is equal.
    Out { node: NodeId },
    /// A constant has its value.
    Constant { node: NodeId },
    /// A gate's good value follows from its drivers.
    GoodForward { node: NodeId },
    /// A gate's faulty value follows from its drivers.
    FaultyForward { node: NodeId },
    /// A driver's good value follows from the gate and the other drivers.
    GoodBack { node: NodeId, position: u32 },
    /// A driver's faulty value follows from the gate and the other drivers.
    FaultyBack { node: NodeId, position: u32 },
    /// A node with two known values is equal or differs.
    Compare { node: NodeId },
    /// A node's faulty value follows from its good one.
    ToFaulty { node: NodeId },
    /// A node's good value follows from its faulty one.
    ToGood { node: NodeId },
    /// A gate whose drivers are all equal is equal.
    EqualForward { node: NodeId },
    /// A Not or an Xor differs where one driver does and the others are equal.
    NotDiffers { node: NodeId },
    /// A Not's driver is equal where the Not is.
    NotEqual { node: NodeId },
    /// The only driver that may differ does, where the gate does.
    DiffersBack { node: NodeId, position: u32 },
    /// An equal driver of an And or Or that differs doesn't control it.
    Side { node: NodeId, position: u32 },
}
