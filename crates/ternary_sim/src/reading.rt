// Forward reading, node by node.
ghost use Rattle.std.specs.Prelude.{◌≡◌, length, map};
ghost use Rattle.gate_net.specs.Net.{IsKind, IsLive, drivers_of, node_at, source_count};
ghost use Rattle.std.specs.Prelude.{nat_eq, if◌then◌else◌};
ghost use Rattle.std.specs.List.{list_all};
ghost use Rattle.gate_net.specs.Forward.{node_forward, is_idle, both_known_same};
ghost use Rattle.gate_net.specs.declared.Kind.TheVariants.{Source};
ghost use Rattle.gate_graph.specs.Circuit.{net_of};
ghost use Rattle.local_evaluation.specs.Pins.{AreBelow, with_stuck};
ghost use Rattle.ternary_sim.specs.Marks.{IsReadAt, marking, known_source, good_at, equal_at};
ghost use Rattle.ternary_sim.specs.Inner.Marks.{known_in};
ghost use Rattle.gate_graph.specs.Order.{IsOrder};
ghost use Rattle.ternary_sim.specs.Inner.Sims.{IsMarked, AreRead};

use crate::marks::{NodeMarks, Reading, all_equal, known_value, value_from};
use gate_graph::Graph;
use gate_net::Kind;
use local_evaluation::drivers::gate_pins;
use local_evaluation::pins::{Stuck, is_value, stuck_at};
use rm_base::vectors::Value3;
use rm_base::{FIRST_SOURCE, Fault, NodeId};

// What is known of a source.
fn source_value(graph: &Graph, sources: &[Value3], kind: Kind, node: NodeId) -> Option<bool>
    requires kind { IsKind (net_of graph.now) node.0 kind }
    requires sources { length sources.now ≡ source_count (net_of graph.now) }
    ensures { kind ≡ Source → result ≡ known_source sources.now node.0 }
{
    graph.well_formed();
    match kind {
        Kind::Source => known_value(sources[node.0 as usize - FIRST_SOURCE as usize]),
        _ => None,
    }
}

// The value of a node from those of its drivers.
fn node_value(
    graph: &Graph,
    sources: &[Value3],
    marks: &[NodeMarks],
    reading: Reading,
    stuck: Option<Stuck>,
    node: NodeId,
) -> Option<bool>
    requires live { IsLive (net_of graph.now) node.0 }
    requires sources { length sources.now ≡ source_count (net_of graph.now) }
    requires drivers { AreBelow (drivers_of (net_of graph.now) node.0) (length marks.now) }
    ensures { result ≡ node_forward (node_at (net_of graph.now) node.0) (known_source sources.now node.0) (with_stuck stuck (map (known_in reading marks.now) (drivers_of (net_of graph.now) node.0))) }
{
    let kind = graph.kind(node)?;
    let own = source_value(graph, sources, kind, node);
    value_from(kind, own, gate_pins(graph, node), stuck, marks, reading)
}

// Whether the driver of the stuck pin is known to have the value that the pin is stuck at.
fn is_idle(graph: &Graph, fault: &Fault, marks: &[NodeMarks]) -> bool
    requires drivers { AreBelow (drivers_of (net_of graph.now) fault.now.gate.0) (length marks.now) }
    ensures { result ≡ is_idle (net_of graph.now) fault.now (good_at marks.now) }
{
    match graph.driver(fault.gate, fault.position) {
        Some(driver) => is_value(marks[driver.0 as usize].good, fault.value),
        None => false,
    }
}

pub(crate) fn both_known_same(good: Option<bool>, faulty: Option<bool>) -> bool
    ensures { result ≡ both_known_same good faulty }
{
    match (good, faulty) {
        (Some(b), Some(c)) => b == c,
        _ => false,
    }
}

// Whether a node is marked equal by what its drivers are.
pub(crate) fn is_equal_before(
    graph: &Graph,
    fault: &Fault,
    marks: &[NodeMarks],
    node: NodeId,
) -> bool
    requires live { IsLive (net_of graph.now) node.0 }
    requires drivers { AreBelow (drivers_of (net_of graph.now) node.0) (length marks.now) }
    ensures { result ≡ (if nat_eq node.0 fault.now.gate.0 then is_idle (net_of graph.now) fault.now (good_at marks.now) else list_all (equal_at marks.now) (drivers_of (net_of graph.now) node.0)) }
{
    if node.0 == fault.gate.0 {
        is_idle(graph, fault, marks)
    } else {
        all_equal(gate_pins(graph, node), marks)
    }
}

// What forward reading says of a node, that of its drivers given.
fn read_node(
    graph: &Graph,
    fault: &Fault,
    sources: &[Value3],
    marks: &[NodeMarks],
    node: NodeId,
) -> NodeMarks
    requires live { IsLive (net_of graph.now) node.0 }
    requires sources { length sources.now ≡ source_count (net_of graph.now) }
    requires drivers { AreBelow (drivers_of (net_of graph.now) node.0) (length marks.now) }
    ensures { IsReadAt (net_of graph.now) fault.now (known_source sources.now) (marking marks.now) node.0 result }
{
    let stuck = stuck_at(fault, node);
    let good = node_value(graph, sources, marks, Reading::OfGood, None, node);
    let faulty = node_value(graph, sources, marks, Reading::OfFaulty, stuck, node);
    let equal = both_known_same(good, faulty) || is_equal_before(graph, fault, marks, node);
    NodeMarks {
        good,
        faulty,
        equal,
    }
}

// Reads all nodes in order.
pub(crate) fn read_all(
    graph: &Graph,
    fault: &Fault,
    sources: &[Value3],
    order: &[NodeId],
    marks: &mut Vec<NodeMarks>,
)
    requires sources { length sources.now ≡ source_count (net_of graph.now) }
    requires order { IsOrder (net_of graph.now) (map (λ n. n.0) order.now) }
    requires marks { IsMarked (map (λ n. n.0) order.now) marks.old.items }
    ensures read { AreRead (net_of graph.now) fault.now (known_source sources.now) (map (λ n. n.0) order.now) marks.new.items (length order.now) }
    ensures marks { IsMarked (map (λ n. n.0) order.now) marks.new.items }
    ensures size { length marks.new.items ≡ length marks.old.items }
{
    graph.well_formed();
    for node in order {
        let read = read_node(graph, fault, sources, marks.as_slice(), *node);
        marks[node.0 as usize] = read;
    }
}
