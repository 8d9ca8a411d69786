// What a vector shows.
ghost use Rattle.std.specs.Prelude.{◌≡◌, ◌≢◌, ◌↔◌, IfErr, IfOk, IsTrue, OnOk, length, map};
ghost use Rattle.gate_graph.specs.Circuit.{net_of};
ghost use Rattle.gate_net.specs.Faults.{IsTest};
ghost use Rattle.gate_net.specs.Net.{source_count};
ghost use Rattle.proof_check.specs.Inner.Vectors.{bit_word};
ghost use Rattle.proof_check.specs.Flaws.{IsVectorFlaw};
ghost use Rattle.proof_check.specs.declared.refusal.JudgeRefusal.TheVariants as refusal;

use crate::refusal::JudgeRefusal;
use fault_sim::Lanes;
use gate_graph::Question;
use rm_base::{NoMemory, Vector};
use std::alloc::Global;

// The words whose first lane is these values.
fn words_of(alloc: Global, values: &[bool]) -> Result<Vec<u64>, NoMemory>
    ensures { IfOk result (λ words. words.items ≡ map bit_word values.now) }
{
    let mut words = Vec::new(alloc);
    for value in values {
        words.push(u64::from(*value))?;
    }
    Ok(words)
}

// Whether the vector, which has a value for each source, detects the fault.
fn detects(alloc: Global, question: &Question<'_>, vector: &Vector) -> Result<bool, NoMemory>
    requires size { length vector.now ≡ source_count (net_of question.now.graph.now) }
    ensures { IfOk result (λ found. IsTrue found ↔ IsTest (net_of question.now.graph.now) question.now.fault vector.now) }
{
    let words = words_of(alloc, vector.values())?;
    let mut lanes = Lanes::new(alloc, question.graph)?;
    let found = lanes.detect64(question, words.as_slice());
    Ok(found & 1 == 1)
}

/// Whether the vector detects the fault.
pub(crate) fn weigh_vector(
    alloc: Global,
    question: &Question<'_>,
    vector: &Vector,
) -> Result<(), JudgeRefusal>
    ensures shown { OnOk result (IsTest (net_of question.now.graph.now) question.now.fault vector.now) }
    ensures refused { IfErr result (λ r. r ≢ refusal.NoMemory → IsVectorFlaw r × (IsTest (net_of question.now.graph.now) question.now.fault vector.now → ⊥)) }
{
    if vector.len() != question.graph.source_count() as usize {
        return Err(JudgeRefusal::VectorMisses);
    }
    if detects(alloc, question, vector)? {
        return Ok(());
    }
    Err(JudgeRefusal::VectorMisses)
}
