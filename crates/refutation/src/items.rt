// Items of trees.
use crate::reasoning::Line;
use rm_base::NodeId;

/// A part of a tree, in prefix order.
#[derive(Clone, Copy, Debug, PartialEq, Eq)]
pub enum Item {
    /// Holds the line's fact too.
    Line(Line),
    /// Is followed by two trees: with the first good value of the node held, and with the other.
    Split { node: NodeId, first: bool },
    /// Ends a branch: two opposed facts are held on the node.
    Clash(NodeId),
    /// Ends a branch: no completion of the known sources is observed to differ.
    Quiet,
    /// Ends the branch at which a search stopped.
    Here,
    /// Ends a branch that a search didn't enter.
    Untried,
}

/// What a tree may be.
#[derive(Clone, Copy, Debug, PartialEq, Eq)]
pub enum Form {
    /// Every branch ends with a clash or is quiet.
    Closed,
    /// A search that stopped at its `Here`.
    Partial,
}

/// How large a tree is.
#[derive(Clone, Copy, Debug, PartialEq, Eq)]
pub struct Shape {
    pub edges: u64,
    pub here: u32,
    pub untried: u32,
}
