// Whether forward reading from the known sources is quiet.
ghost use Rattle.std.specs.Prelude.{◌≡◌, ◌<◌, ◌≤◌, ◌↔◌, ◌+◌, ℕ, IfOk, IsTrue, length, slice_index_or};
ghost use Rattle.rm_base.specs.declared.vectors.Value3.TheVariants.{Unknown};
ghost use Rattle.gate_net.specs.Net.{source_count};
ghost use Rattle.gate_graph.specs.Circuit.{net_of};
ghost use Rattle.refutation.specs.FactSets.{held_by};
ghost use Rattle.refutation.specs.Facts.{known_good};
ghost use Rattle.refutation.specs.Lines.{IsQuiet};
ghost use Rattle.ternary_sim.specs.Marks.{seen};
ghost use Rattle.ternary_sim.specs.Sims.{Fits};
ghost use Rattle.refutation_check.specs.Inner.Kept.{FitsIfKept};

use gate_graph::{Graph, Question};
use refutation::{Fact, FactSet};
use rm_base::vectors::Value3;
use rm_base::{FIRST_SOURCE, NoMemory, NodeId, SourceNo};
use std::alloc::Global;
use ternary_sim::Sim;

// The good value of a node, where it is known.
fn known_value(facts: &FactSet, node: NodeId) -> Value3
    requires { node.0 < length facts.now }
    ensures { seen result ≡ known_good (held_by facts.now) node.0 }
{
    let zero = facts.holds(node, Fact::Good(false));
    let one = facts.holds(node, Fact::Good(true));
    match (zero, one) {
        (true, false) => Value3::Zero,
        (false, true) => Value3::One,
        _ => Value3::Unknown,
    }
}

// Gives each source the good value that is known of it.
fn set_sources(graph: &Graph, facts: &FactSet, sim: &mut Sim)
    requires facts { length (net_of graph.now).nodes ≤ length facts.now }
    requires fits { Fits sim.old (net_of graph.now) }
    ensures fits { Fits sim.new (net_of graph.now) }
    ensures known { (k : ℕ) → k < source_count (net_of graph.now) → seen (slice_index_or sim.new.sources k Unknown) ≡ known_good (held_by facts.now) (2 + k) }
{
    graph.well_formed();
    for k in 0..graph.source_count() {
        sim.set(SourceNo(k), known_value(facts, NodeId(FIRST_SOURCE + k)));
    }
}

// The simulator that is kept, or a new one.
fn kept_or_new(alloc: Global, graph: &Graph, kept: &mut Option<Sim>) -> Result<Sim, NoMemory>
    requires { FitsIfKept kept.old (net_of graph.now) }
    ensures { IfOk result (λ s. Fits s (net_of graph.now)) }
{
    match kept.take() {
        Some(sim) => Ok(sim),
        None => Sim::new(alloc, graph),
    }
}

/// Whether forward reading from the sources whose good value is known marks every observed node equal. The simulator is
/// made when it is first needed, and kept.
pub(crate) fn is_quiet(
    alloc: Global,
    question: &Question<'_>,
    facts: &FactSet,
    kept: &mut Option<Sim>,
) -> Result<bool, NoMemory>
    requires facts { length (net_of question.now.graph.now).nodes ≤ length facts.now }
    requires fits { FitsIfKept kept.old (net_of question.now.graph.now) }
    ensures quiet { IfOk result (λ yes. IsTrue yes ↔ IsQuiet (net_of question.now.graph.now) question.now.fault (held_by facts.now)) }
    ensures fits { IfOk result (λ _. FitsIfKept kept.new (net_of question.now.graph.now)) }
{
    question.graph.well_formed();
    gate_net::readings_agree();
    let mut sim = kept_or_new(alloc, question.graph, kept)?;
    set_sources(question.graph, facts, &mut sim);
    sim.run_fault(question);
    let quiet = sim.quiet(question.graph);
    *kept = Some(sim);
    Ok(quiet)
}
