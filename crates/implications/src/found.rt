// A line with what it gives.
use refutation::{Fact, Line};
use rm_base::NodeId;

/// A line with the node and the fact that it gives.
#[derive(Clone, Copy, Debug)]
pub struct Found {
    pub line: Line,
    pub node: NodeId,
    pub fact: Fact,
}
