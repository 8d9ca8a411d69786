// What closing comes to.
use refutation::{FactSet, Tree};

/// What closing a set of facts comes to.
#[derive(Debug, Drop)]
pub enum Closed {
    /// Lines led to two opposed facts on one node: a tree of these lines, ended by that clash.
    Clash(Tree),
    /// All to which lines lead, without a clash.
    Open(FactSet),
}
