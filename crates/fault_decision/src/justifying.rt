// Gates whose good values are still to be justified.
use crate::goals::{Goal, first_unknown, good_of};
use gate_graph::Graph;
use gate_net::Family;
use refutation::following::gate_pins;
use refutation::{Fact, FactSet};
use rm_base::NodeId;

// A gate that is known to have its controlling value while no driver is known to, how many drivers may have it, and the
// first of them; or an Xor with a known value, the two values that a driver may have, and the first unknown driver.
#[derive(Clone, Copy)]
struct Unjustified {
    gate: NodeId,
    open: u32,
    goal: Goal,
}

// With one more driver that may have the value.
fn with_open(found: Option<Unjustified>, gate: NodeId, driver: NodeId, value: bool) -> Unjustified {
    match found {
        Some(so_far) => Unjustified {
            open: so_far.open.saturating_add(1),
            ..so_far
        },
        None => Unjustified {
            gate,
            open: 1,
            goal: Goal {
                node: driver,
                value,
            },
        },
    }
}

// The gate, where it is known to have the value and no driver is.
fn open_drivers_of(
    graph: &Graph,
    facts: &FactSet,
    gate: NodeId,
    value: bool,
) -> Option<Unjustified> {
    let _kind = graph.kind(gate)?;
    let mut found = None;
    for driver in gate_pins(graph, gate) {
        match good_of(facts, driver) {
            Some(known) => {
                if known == value {
                    return None;
                }
            }
            None => found = Some(with_open(found, gate, driver, value)),
        }
    }
    found
}

// The Xor, where some driver isn't known: it may have either value.
fn open_parity(graph: &Graph, facts: &FactSet, gate: NodeId) -> Option<Unjustified> {
    let node = first_unknown(graph, facts, gate)?;
    Some(Unjustified {
        gate,
        open: 2,
        goal: Goal { node, value: false },
    })
}

// The gate, where its value is still to be justified.
fn look_at(graph: &Graph, facts: &FactSet, gate: NodeId) -> Option<Unjustified> {
    let known = good_of(facts, gate)?;
    match graph.kind(gate)?.family() {
        Family::Junction { controlling } => {
            if known != controlling {
                return None;
            }
            open_drivers_of(graph, facts, gate, controlling)
        }
        Family::Parity { inverts: false } => open_parity(graph, facts, gate),
        _ => None,
    }
}

// Whether the first comes before the second: fewer drivers may have its value, or as many and it has the lesser number, or the
// greater one.
fn comes_before(one: &Unjustified, other: &Unjustified, greatest: bool) -> bool {
    if one.open != other.open {
        return one.open < other.open;
    }
    if greatest {
        return other.gate.0 < one.gate.0;
    }
    one.gate.0 < other.gate.0
}

// The one that comes before the other.
fn earlier(
    one: Option<Unjustified>,
    other: Option<Unjustified>,
    greatest: bool,
) -> Option<Unjustified> {
    match (one, other) {
        (Some(a), Some(b)) => {
            if comes_before(&b, &a, greatest) {
                Some(b)
            } else {
                Some(a)
            }
        }
        (Some(a), None) => Some(a),
        (None, o) => o,
    }
}

// The gate of a good value that was added, where it is still to be justified.
fn look_at_added(graph: &Graph, facts: &FactSet, added: (NodeId, Fact)) -> Option<Unjustified> {
    let (node, Fact::Good(_)) = added else {
        return None;
    };
    look_at(graph, facts, node)
}

/// A driver that may justify a gate, and the value that does. Of the gates whose good values were added it is the one with
/// the fewest such ways, and of these the least or the greatest.
pub(crate) fn justification(
    graph: &Graph,
    facts: &FactSet,
    added: &[(NodeId, Fact)],
    greatest: bool,
) -> Option<Goal> {
    let mut first = None;
    for entry in added {
        first = earlier(first, look_at_added(graph, facts, *entry), greatest);
    }
    let found = first?;
    Some(found.goal)
}
