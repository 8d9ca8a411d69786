//! Whether a fault is detected, by all assignments of four sources.
ghost use Rattle.gate_graph.specs.Circuit.{net_of};
ghost use Rattle.ternary_sim.specs.Sims.{Fits};

use gate_graph::Question;
use rm_base::vectors::Value3;
use rm_base::{NoMemory, SourceNo};
use std::alloc::Global;
use ternary_sim::Sim;

/// Whether one assignment detects the fault.
pub fn detects(sim: &mut Sim, question: &Question<'_>, assignment: u32) -> bool
    requires { Fits sim.old (net_of question.now.graph.now) }
    ensures { Fits sim.new (net_of question.now.graph.now) }
{
    for source in 0..question.graph.source_count() {
        let value = if assignment.wrapping_shr(source) & 1 == 1 {
            Value3::One
        } else {
            Value3::Zero
        };
        sim.set(SourceNo(source), value);
    }
    sim.run_fault(question);
    sim.is_detected(question.graph)
}

/// Whether some assignment detects the fault.
pub fn some_detects(alloc: Global, question: &Question<'_>) -> Result<bool, NoMemory> {
    let mut sim = Sim::new(alloc, question.graph)?;
    for assignment in 0..16u32 {
        if detects(&mut sim, question, assignment) {
            return Ok(true);
        }
    }
    Ok(false)
}
