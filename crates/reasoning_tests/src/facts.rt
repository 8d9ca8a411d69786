//! Sets of facts, compared.
ghost use Rattle.std.specs.Prelude.{◌<◌, length};

use refutation::{Fact, FactSet};
use rm_base::NodeId;

const FACTS: [Fact; 6] = [
    Fact::Good(false),
    Fact::Good(true),
    Fact::Faulty(false),
    Fact::Faulty(true),
    Fact::Equal,
    Fact::Differs,
];

fn same_at(one: &FactSet, other: &FactSet, node: NodeId) -> bool
    requires one { node.0 < length one.now }
    requires other { node.0 < length other.now }
{
    for fact in FACTS {
        if one.holds(node, fact) != other.holds(node, fact) {
            return false;
        }
    }
    true
}

/// Whether two sets hold the same of each node below the bound.
pub fn hold_same(one: &FactSet, other: &FactSet, bound: u32) -> bool {
    if one.len() < bound as usize {
        return false;
    }
    if other.len() < bound as usize {
        return false;
    }
    for number in 0..bound {
        if !same_at(one, other, NodeId(number)) {
            return false;
        }
    }
    true
}
