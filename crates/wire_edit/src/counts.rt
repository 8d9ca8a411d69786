//! How large a net is.
ghost use Rattle.std.specs.Prelude.{◌≡◌, ◌≤◌, nat_lt};
ghost use Rattle.gate_graph.specs.Circuit.{net_of};
ghost use Rattle.gate_net.specs.Net.{wire_count};
ghost use Rattle.rm_base.specs.Numbers.{number_bound};
ghost use Rattle.wire_edit.specs.Refusals.{live_count, ceiling};

use crate::step_laws::live_counted;
use gate_graph::Graph;

/// How many wires, or live nodes, a net may have.
pub(crate) const CEILING: usize = 1_073_741_824;

// How many nodes live.
pub(crate) fn live_total(graph: &Graph) -> usize
    ensures total { result ≡ live_count (net_of graph.now) }
    ensures few { result ≤ number_bound }
{
    live_counted(graph);
    graph.live_count() as usize
}

// Whether the net has fewer wires than the ceiling.
pub(crate) fn few_wires(graph: &Graph) -> bool
    ensures { result ≡ nat_lt (wire_count (net_of graph.now)) ceiling }
{
    (graph.wire_count() as usize) < CEILING
}

// Whether fewer nodes live than the ceiling.
pub(crate) fn few_nodes(graph: &Graph) -> bool
    ensures { result ≡ nat_lt (live_count (net_of graph.now)) ceiling }
{
    live_total(graph) < CEILING
}
