// Reading forward from the sources whose good values are known.
ghost use Rattle.gate_graph.specs.Circuit.{net_of};
ghost use Rattle.ternary_sim.specs.Sims.{Fits};

use crate::goals::good_of;
use gate_graph::{Graph, Question};
use refutation::FactSet;
use rm_base::vectors::Value3;
use rm_base::{FIRST_SOURCE, NodeId, SourceNo};
use ternary_sim::Sim;

// The good value of a node, where it is known.
fn known_value(facts: &FactSet, node: NodeId) -> Value3 {
    match good_of(facts, node) {
        Some(true) => Value3::One,
        Some(false) => Value3::Zero,
        None => Value3::Unknown,
    }
}

// Gives each source the good value that is known of it.
fn set_sources(graph: &Graph, facts: &FactSet, sim: &mut Sim)
    requires { Fits sim.old (net_of graph.now) }
    ensures { Fits sim.new (net_of graph.now) }
{
    graph.well_formed();
    for k in 0..graph.source_count() {
        sim.set(SourceNo(k), known_value(facts, NodeId(FIRST_SOURCE + k)));
    }
}

/// Reads forward; whether every observed node is marked equal.
pub(crate) fn is_quiet(question: &Question<'_>, facts: &FactSet, sim: &mut Sim) -> bool
    requires { Fits sim.old (net_of question.now.graph.now) }
    ensures { Fits sim.new (net_of question.now.graph.now) }
{
    set_sources(question.graph, facts, sim);
    sim.run_fault(question);
    sim.quiet(question.graph)
}
