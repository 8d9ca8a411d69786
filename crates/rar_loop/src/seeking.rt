//! What looks for a vector of one fault, on the net as it stands.
ghost use Rattle.std.specs.Prelude.{◌≡◌, ◌<◌, ℕ, IfOk, IfSome, IsTrue, length};
ghost use Rattle.gate_net.specs.Net.{source_count};
ghost use Rattle.gate_net.specs.Values.{Detects};
ghost use Rattle.gate_graph.specs.Circuit.{net_of};
ghost use Rattle.fault_sim.specs.Words.{assignment, lane};
ghost use Rattle.podem.specs.Verdicts.{IsVerdict};
ghost use Rattle.rar_loop.specs.Inner.Kept.{Seeks};

use fault_sim::Lanes;
use gate_graph::{Graph, Question};
use podem::{Searcher, Verdict};
use refutation::Tree;
use rm_base::NoMemory;
use std::alloc::Global;

/// A simulator and a search, made for a net as it stands: where the net has changed they are made anew.
#[derive(Drop)]
pub(crate) struct Seeker {
    pub(crate) lanes: Lanes,
    pub(crate) searcher: Searcher,
}

/// What was found of a fault.
#[derive(Drop)]
pub(crate) enum Sought {
    /// A vector detects it.
    Detected,
    /// The tree of a search that has ended refutes it.
    Refuted(Tree),
    /// Neither was found.
    Open,
}

/// Most faults that drawn vectors miss are detected, or refuted, by a search of so many edges, which costs less than learning.
pub(crate) const SOME_EDGES: u32 = 64;

// Makes a seeker, where none is kept.
fn make_seeker(alloc: Global, graph: &Graph, kept: &mut Option<Seeker>) -> Result<(), NoMemory>
    requires { IfSome kept.old (Seeks (net_of graph.now)) }
    ensures { IfSome kept.new (Seeks (net_of graph.now)) }
{
    if kept.is_none() {
        let lanes = Lanes::new(alloc, graph)?;
        let searcher = Searcher::new(alloc, graph)?;
        *kept = Some(Seeker { lanes, searcher });
    }
    Ok(())
}

/// In which lanes the vectors detect the fault.
pub(crate) fn detect_by(
    alloc: Global,
    question: &Question<'_>,
    words: &[u64],
    kept: &mut Option<Seeker>,
) -> Result<u64, NoMemory>
    requires seeks { IfSome kept.old (Seeks (net_of question.now.graph.now)) }
    requires sources { length words.now ≡ source_count (net_of question.now.graph.now) }
    ensures detected { IfOk result (λ found. (i : ℕ) → i < 64 → IsTrue (lane i found) → Detects (net_of question.now.graph.now) question.now.fault (assignment words.now i)) }
    ensures seeks { IfSome kept.new (Seeks (net_of question.now.graph.now)) }
{
    make_seeker(alloc, question.graph, kept)?;
    match kept {
        Some(seeker) => Ok(seeker.lanes.detect64(question, words)),
        None => Ok(0),
    }
}

/// What a search of some edges finds of the fault.
pub(crate) fn search_by(
    alloc: Global,
    question: &Question<'_>,
    kept: &mut Option<Seeker>,
) -> Result<Option<Verdict>, NoMemory>
    requires seeks { IfSome kept.old (Seeks (net_of question.now.graph.now)) }
    ensures verdict { IfOk result (λ found. IfSome found (IsVerdict (net_of question.now.graph.now) question.now.fault 64)) }
    ensures seeks { IfSome kept.new (Seeks (net_of question.now.graph.now)) }
{
    make_seeker(alloc, question.graph, kept)?;
    match kept {
        Some(seeker) => {
            let verdict = seeker.searcher.search(question, SOME_EDGES)?;
            Ok(Some(verdict))
        }
        None => Ok(None),
    }
}
