// A stuck-at fault at a pin of a graph.
ghost use Rattle.gate_net.specs.Values.{HasPin};
ghost use Rattle.gate_graph.specs.Circuit.{net_of};
ghost use Rattle.gate_graph.specs.Questions.{HasPin-prop};

use crate::state::Graph;
use rm_base::Fault;

/// A stuck-at fault of a graph, as it is asked about: the pin that is stuck is one of the graph's.
#[derive(Clone, Copy)]
pub struct Question<'a> {
    pub graph: &'a Graph,
    pub fault: Fault,
    pub ghost pin: { HasPin (net_of graph.now) fault } by { HasPin-prop (net_of graph.now) fault },
}
