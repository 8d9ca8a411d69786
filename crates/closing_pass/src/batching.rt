// A batch of faults.
ghost use Rattle.std.specs.Prelude.{◌≤◌, ◌<◌, IfOk, length};
ghost use Rattle.gate_graph.specs.Circuit.{net_of};
ghost use Rattle.closing_pass.specs.Verdicts.{AreVerdicts, HavePins};

use crate::answers::Answers;
use crate::effort::Effort;
use crate::pieces::pieces;
use gate_graph::Graph;
use podem::Verdict;
use rm_base::{Fault, Gate, NoMemory, Settings};
use std::alloc::Global;
use std::thread::Threads;

/// Answers as `batch` does, and tells the work of that. `effort` says what is done for a fault whose search is cut
/// short.
pub(crate) fn answer_batch<R: Threads + Sync, G: Gate>(
    rt: &R,
    alloc: Global,
    graph: &Graph,
    faults: &[Fault],
    settings: &Settings,
    gate: &G,
    effort: Effort,
) -> Result<Answers, NoMemory>
    requires pins { HavePins (net_of graph.now) faults.now }
    requires few { length faults.now ≤ 64 }
    requires depth { settings.now.depth ≤ 2 }
    requires budget { 0 < settings.now.budget }
    requires workers { (0 < settings.now.workers) × (settings.now.workers ≤ 64) }
    ensures { IfOk result (λ a. AreVerdicts (net_of graph.now) settings.now.budget faults.now a.verdicts.items) }
{
    if faults.is_empty() {
        return Ok(Answers {
            verdicts: Vec::new(alloc),
            work: 0,
        });
    }
    let workers = settings.workers as usize;
    let count = workers.min(faults.len());
    pieces(rt, alloc, graph, faults, settings, gate, effort, 0, count)
}

/// Gives at most 64 faults of a graph, which stays as it is, a verdict each, in order, whatever the number of workers: a
/// fault is refuted by learning at the depth of the settings, or at 1 where that is 0 and the budget is 256 edges or more, and else
/// searched with the budget. The faults are cut into as many pieces as
/// workers, and at most one for each fault. Each piece passes the gate once at its start, with its number from 0 on, and all have
/// ended before the call returns.
pub fn batch<R: Threads + Sync, G: Gate>(
    rt: &R,
    alloc: Global,
    graph: &Graph,
    faults: &[Fault],
    settings: &Settings,
    gate: &G,
) -> Result<Vec<Verdict>, NoMemory>
    requires pins { HavePins (net_of graph.now) faults.now }
    requires few { length faults.now ≤ 64 }
    requires depth { settings.now.depth ≤ 2 }
    requires budget { 0 < settings.now.budget }
    requires workers { (0 < settings.now.workers) × (settings.now.workers ≤ 64) }
    ensures { IfOk result (λ v. AreVerdicts (net_of graph.now) settings.now.budget faults.now v.items) }
{
    let answers = answer_batch(rt, alloc, graph, faults, settings, gate, Effort::All)?;
    Ok(answers.verdicts)
}
