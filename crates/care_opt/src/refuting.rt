// Whether a pin's fault is refuted.
ghost use Rattle.std.specs.Prelude.{◌≡◌, ◌<◌, ◌≤◌, ℕ, Bool, IfOk, IsTrue, OnOk, length};
ghost use Rattle.gate_graph.specs.Circuit.{net_of};
ghost use Rattle.gate_net.specs.Net.{drivers_of};
ghost use Rattle.gate_net.specs.Values.{Detects};
ghost use Rattle.recursive_learning.specs.Serving.{IsServing};
ghost use Rattle.care_opt.specs.Inner.Kept.{AreKept};
ghost use Rattle.care_opt.specs.Inner.Working.{IsFoundAt, IsLooked};

use crate::vectors::Vectors;
use gate_graph::{Graph, Question, pin_count};
use recursive_learning::refuter::Refuter;
use refutation::detected::detected_faults_stay_open;
use rm_base::{Fault, NoMemory, NodeId};
use std::alloc::Global;

// Whether a vector that completes the facts to which lines lead detects the fault.
fn is_completed(
    alloc: Global,
    refuter: &mut Refuter,
    vectors: &mut Vectors,
    question: &Question<'_>,
) -> Result<bool, NoMemory>
    requires serves { IsServing (net_of question.now.graph.now) refuter.old }
    requires kept { AreKept vectors.old (net_of question.now.graph.now) }
    ensures detected { IfOk result (λ found. IsTrue found → (a : ℕ → Bool) × Detects (net_of question.now.graph.now) question.now.fault a) }
    ensures serves { OnOk result (IsServing (net_of question.now.graph.now) refuter.new) }
    ensures kept { AreKept vectors.new (net_of question.now.graph.now) }
{
    if refuter.close(question)? {
        return Ok(false);
    }
    vectors.complete(alloc, question, refuter.facts())
}

// Whether learning to the depth refutes the fault.
fn is_learned(refuter: &mut Refuter, question: &Question<'_>, depth: u8) -> Result<bool, NoMemory>
    requires serves { IsServing (net_of question.now.graph.now) refuter.old }
    requires depth { depth ≤ 2 }
    ensures looked { IfOk result (IsLooked (net_of question.now.graph.now) question.now.fault depth) }
    ensures serves { OnOk result (IsServing (net_of question.now.graph.now) refuter.new) }
{
    let tree = refuter.refute(question, depth)?;
    match tree {
        Some(_tree) => Ok(true),
        None => Ok(false),
    }
}

/// Whether learning to the depth refutes the fault. Vectors are asked first, for a fault that one detects is never refuted.
pub(crate) fn is_refuted(
    alloc: Global,
    refuter: &mut Refuter,
    vectors: &mut Vectors,
    question: &Question<'_>,
    depth: u8,
) -> Result<bool, NoMemory>
    requires serves { IsServing (net_of question.now.graph.now) refuter.old }
    requires kept { AreKept vectors.old (net_of question.now.graph.now) }
    requires depth { depth ≤ 2 }
    ensures looked { IfOk result (IsLooked (net_of question.now.graph.now) question.now.fault depth) }
    ensures serves { OnOk result (IsServing (net_of question.now.graph.now) refuter.new) }
    ensures kept { AreKept vectors.new (net_of question.now.graph.now) }
{
    question.graph.well_formed();
    detected_faults_stay_open();
    if vectors.detect(question) {
        return Ok(false);
    }
    let found = is_completed(alloc, refuter, vectors, question)?;
    if found {
        return Ok(false);
    }
    is_learned(refuter, question, depth)
}

// The first refuted fault of a pin, value 0 before 1.
fn refuted_pin(
    alloc: Global,
    refuter: &mut Refuter,
    vectors: &mut Vectors,
    graph: &Graph,
    gate: NodeId,
    position: u32,
    depth: u8,
) -> Result<Option<Fault>, NoMemory>
    requires pin { position < length (drivers_of (net_of graph.now) gate.0) }
    requires serves { IsServing (net_of graph.now) refuter.old }
    requires kept { AreKept vectors.old (net_of graph.now) }
    requires depth { depth ≤ 2 }
    ensures found { IfOk result (IsFoundAt (net_of graph.now) gate.0) }
    ensures serves { OnOk result (IsServing (net_of graph.now) refuter.new) }
    ensures kept { OnOk result (AreKept vectors.new (net_of graph.now)) }
{
    let zero = Fault {
        gate,
        position,
        value: false,
    };
    let question = Question { graph, fault: zero };
    let at_zero = is_refuted(alloc, refuter, vectors, &question, depth)?;
    if at_zero {
        return Ok(Some(zero));
    }
    let one = Fault {
        gate,
        position,
        value: true,
    };
    let question = Question { graph, fault: one };
    let at_one = is_refuted(alloc, refuter, vectors, &question, depth)?;
    if at_one {
        return Ok(Some(one));
    }
    Ok(None)
}

/// The first refuted fault of a gate's pins, by position and value; None for a number without a gate.
pub(crate) fn refuted_at(
    alloc: Global,
    refuter: &mut Refuter,
    vectors: &mut Vectors,
    graph: &Graph,
    gate: NodeId,
    depth: u8,
) -> Result<Option<Fault>, NoMemory>
    requires serves { IsServing (net_of graph.now) refuter.old }
    requires kept { AreKept vectors.old (net_of graph.now) }
    requires depth { depth ≤ 2 }
    ensures found { IfOk result (IsFoundAt (net_of graph.now) gate.0) }
    ensures serves { OnOk result (IsServing (net_of graph.now) refuter.new) }
    ensures kept { OnOk result (AreKept vectors.new (net_of graph.now)) }
{
    for position in 0..pin_count(graph, gate) {
        if let Some(fault) = refuted_pin(alloc, refuter, vectors, graph, gate, position, depth)? {
            return Ok(Some(fault));
        }
    }
    Ok(None)
}
