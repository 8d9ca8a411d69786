// What evidence shows on a net with a fault.
ghost use Rattle.std.specs.Prelude.{◌≡◌, ◌≢◌, ◌≤◌, IfErr, OnOk, length};
ghost use Rattle.equal_evidence.specs.Evidence.{IsWritten};
ghost use Rattle.equal_evidence.specs.Shown.{IsShown};
ghost use Rattle.equal_evidence.specs.declared.evidence.Evidence.TheVariants.{Plain};
ghost use Rattle.gate_graph.specs.Circuit.{net_of};
ghost use Rattle.gate_graph.specs.Holds.{pins_held};
ghost use Rattle.gate_net.specs.Net.{wire_count};
ghost use Rattle.gate_net.specs.Values.{HasPin};
ghost use Rattle.proof_check.specs.Flaws.{IsFlaw};
ghost use Rattle.proof_check.specs.declared.refusal.JudgeRefusal.TheVariants as refusal;

use crate::refusal::JudgeRefusal;
use crate::stepping::weigh_run;
use crate::trees::{weigh_closed, weigh_spent};
use crate::vectors::weigh_vector;
use equal_evidence::Evidence;
use equal_miter::Likeness;
use gate_graph::{Graph, Question};
use rm_base::Fault;
use std::alloc::Global;

// Whether a tree or a vector shows what it says.
fn weigh_plain(
    alloc: Global,
    question: &Question<'_>,
    budget: u32,
    likeness: &Likeness,
) -> Result<(), JudgeRefusal>
    ensures shown { OnOk result (IsShown (net_of question.now.graph.now) question.now.fault budget (Plain likeness.now)) }
    ensures refused { IfErr result (λ r. r ≢ refusal.NoMemory → IsFlaw (net_of question.now.graph.now) question.now.fault budget (Plain likeness.now) r) }
{
    match likeness {
        Likeness::Same(tree) => weigh_closed(alloc, question, tree),
        Likeness::Differ(vector) => weigh_vector(alloc, question, vector),
        Likeness::Undecided(tree) => weigh_spent(alloc, question, tree, budget),
    }
}

/// Whether evidence shows what it says of the graph and its fault.
pub(crate) fn weigh(
    alloc: Global,
    graph: Graph,
    fault: Fault,
    budget: u32,
    evidence: &Evidence,
) -> Result<(), JudgeRefusal>
    requires wires { wire_count (net_of graph) ≤ 1000000 }
    requires nodes { length (net_of graph).nodes ≤ 1000000 }
    requires observed { length (net_of graph).observed ≤ 131072 }
    requires held { pins_held graph ≡ 0 }
    requires pin { HasPin (net_of graph) fault }
    requires written { IsWritten evidence.now }
    ensures shown { OnOk result (IsShown (net_of graph) fault budget evidence.now) }
    ensures refused { IfErr result (λ r. r ≢ refusal.NoMemory → IsFlaw (net_of graph) fault budget evidence.now r) }
{
    match evidence {
        Evidence::Plain(likeness) => {
            let question = Question {
                graph: &graph,
                fault,
            };
            weigh_plain(alloc, &question, budget, likeness)
        },
        Evidence::Merged(run) => weigh_run(alloc, graph, budget, run),
    }
}
