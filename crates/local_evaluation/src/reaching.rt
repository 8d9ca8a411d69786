// Marking what is reached from a gate.
ghost use Rattle.std.specs.Prelude.{◌≡◌, ◌≤◌, false, length, replicate};
ghost use Rattle.gate_graph.specs.Circuit.{net_of};
ghost use Rattle.gate_net.specs.Net.{IsLive};
ghost use Rattle.local_evaluation.specs.Reaching.{MarksReached, MarksReaders};

use crate::worklist::Worklist;
use gate_graph::Graph;
use rm_base::NodeId;

// Marks the readers of a node, and lists those that weren't marked.
fn mark_readers(graph: &Graph, node: NodeId, reached: &mut Worklist, worklist: &mut Worklist)
    requires node { IsLive (net_of graph.now) node.0 }
    requires marks { length (net_of graph.now).nodes ≤ length reached.old }
    requires worklist { length (net_of graph.now).nodes ≤ length worklist.old }
    ensures marked { MarksReaders (net_of graph.now) node.0 reached.old reached.new worklist.old worklist.new }
    ensures size { length reached.new ≡ length reached.old }
    ensures worklist { length worklist.new ≡ length worklist.old }
{
    graph.well_formed();
    graph.readers_listed();
    for reader in graph.readers_of(node) {
        if !reached.has(reader) {
            reached.add(reader);
            worklist.add(reader);
        }
    }
}

// Marks what is reached from the gate, over a worklist with nothing on. What was marked before is taken off by its list.
pub(crate) fn mark_reached(
    graph: &Graph,
    gate: NodeId,
    reached: &mut Worklist,
    worklist: &mut Worklist,
)
    requires gate { IsLive (net_of graph.now) gate.0 }
    requires marks { length (net_of graph.now).nodes ≤ length reached.old }
    requires worklist { length (net_of graph.now).nodes ≤ length worklist.old }
    requires none { worklist.old ≡ replicate (length worklist.old) false }
    ensures marked { MarksReached (net_of graph.now) gate.0 reached.new }
    ensures size { length reached.new ≡ length reached.old }
    ensures worklist { worklist.new ≡ worklist.old }
{
    reached.clear();
    graph.well_formed();
    mark_readers(graph, gate, reached, worklist);
    while let Some(node) = worklist.take() {
        mark_readers(graph, node, reached, worklist);
    }
}
