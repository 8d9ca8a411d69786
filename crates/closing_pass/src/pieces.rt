// Pieces of a batch: each is searched by one worker, and halves of their list by two.
ghost use Rattle.std.specs.Prelude.{◌≡◌, ◌≤◌, ◌<◌, ◌+◌, ◌++◌, IfOk, length};
ghost use denote.Param.Send.{IsSync};
ghost use Rattle.gate_net.specs.Net.{Net};
ghost use Rattle.gate_graph.specs.Circuit.{net_of};
ghost use Rattle.closing_pass.specs.Verdicts.{AreVerdicts, HavePins};

use crate::answering::answers;
use crate::answers::Answers;
use crate::effort::Effort;
use gate_graph::Graph;
use podem::Verdict;
use rm_base::{Fault, Gate, NoMemory, Settings};
use std::alloc::Global;
use std::thread::{Threads, join};

// The verdicts of one piece, which passes the gate first.
fn piece<G: Gate>(
    alloc: Global,
    graph: &Graph,
    faults: &[Fault],
    settings: &Settings,
    gate: &G,
    effort: Effort,
    number: usize,
) -> Result<Answers, NoMemory>
    requires pins { HavePins (net_of graph.now) faults.now }
    requires depth { settings.now.depth ≤ 2 }
    requires budget { 0 < settings.now.budget }
    ensures { IfOk result (λ a. AreVerdicts (net_of graph.now) settings.now.budget faults.now a.verdicts.items) }
{
    gate.pass(number);
    answers(alloc, graph, faults, settings, effort)
}

// The verdicts of these and then of those.
fn join_verdicts(mut verdicts: Vec<Verdict>, others: Vec<Verdict>) -> Result<Vec<Verdict>, NoMemory>
    ensures { IfOk result (λ v. v.items ≡ verdicts.items ++ others.items) }
{
    for verdict in others {
        verdicts.push(verdict)?;
    }
    Ok(verdicts)
}

// These answers and then those.
fn join_answers(front: Answers, back: Answers) -> Result<Answers, NoMemory>
    ensures { IfOk result (λ a. a.verdicts.items ≡ front.verdicts.items ++ back.verdicts.items) }
{
    let work = front.work.saturating_add(back.work);
    let verdicts = join_verdicts(front.verdicts, back.verdicts)?;
    Ok(Answers { verdicts, work })
}

// Cuts the faults for so many pieces of them all: the front has a fault for each of its pieces, and so has the back.
fn cut(faults: &[Fault], left: usize, count: usize) -> (&[Fault], &[Fault])
    requires some { 0 < left }
    requires less { left < count }
    requires few { count ≤ length faults.now }
    requires short { length faults.now ≤ 64 }
    ensures parts { faults.now ≡ result.0.now ++ result.1.now }
    ensures front { left ≤ length result.0.now }
    ensures back { count ≤ left + length result.1.now }
    ensures all { length result.0.now + length result.1.now ≡ length faults.now }
    ensures pins { (net : Net) → HavePins net faults.now → HavePins net result.0.now × HavePins net result.1.now }
{
    let spare = faults.len() - count;
    faults.split_at(left + spare * left / count)
}

// Searches the faults in that many pieces at once, which are numbered from the first on.
pub(crate) fn pieces<R: Threads + Sync, G: Gate>(
    rt: &R,
    alloc: Global,
    graph: &Graph,
    faults: &[Fault],
    settings: &Settings,
    gate: &G,
    effort: Effort,
    first: usize,
    count: usize,
) -> Result<Answers, NoMemory>
    requires pins { HavePins (net_of graph.now) faults.now }
    requires depth { settings.now.depth ≤ 2 }
    requires budget { 0 < settings.now.budget }
    requires some { 0 < count }
    requires few { count ≤ length faults.now }
    requires short { length faults.now ≤ 64 }
    requires numbers { first + count ≤ 64 }
    ensures { IfOk result (λ a. AreVerdicts (net_of graph.now) settings.now.budget faults.now a.verdicts.items) }
{
    if count == 1 {
        return piece(alloc, graph, faults, settings, gate, effort, first);
    }
    let left = count / 2;
    let right = count - left;
    let (front, back) = cut(faults, left, count);
    let (verdicts, others) = join(
        rt,
        || -> Result<Answers, NoMemory>
            requires { IsSync R.row × IsSync G.row × (settings.now.depth ≤ 2) × (0 < settings.now.budget) × HavePins (net_of graph.now) front.now × (0 < left) × (left ≤ length front.now) × (length front.now ≤ 64) × (first + left ≤ 64) }
            ensures { IfOk result (λ v. AreVerdicts (net_of graph.entry.now) settings.entry.now.budget front.entry.now v.verdicts.items) }
        { pieces(rt, alloc, graph, front, settings, gate, effort, first, left) },
        || -> Result<Answers, NoMemory>
            requires { IsSync R.row × IsSync G.row × (settings.now.depth ≤ 2) × (0 < settings.now.budget) × HavePins (net_of graph.now) back.now × (0 < right) × (right ≤ length back.now) × (length back.now ≤ 64) × (first + left + right ≤ 64) }
            ensures { IfOk result (λ v. AreVerdicts (net_of graph.entry.now) settings.entry.now.budget back.entry.now v.verdicts.items) }
        {
            pieces(
                rt,
                alloc,
                graph,
                back,
                settings,
                gate,
                effort,
                first + left,
                right,
            )
        },
    );
    join_answers(verdicts?, others?)
}
