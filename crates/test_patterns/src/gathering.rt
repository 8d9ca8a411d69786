// The faults that a group of vectors detects.
ghost use Rattle.std.specs.Prelude.{◌≡◌, ◌+◌, ◌<◌, IfOk, IsTrue, OnOk, length};
ghost use Rattle.fault_sim.specs.LaneStates.{Fits, IsSimulated};
ghost use Rattle.gate_graph.specs.Circuit.{net_of};
ghost use Rattle.test_patterns.specs.Inner.Drafts.{HavePins, IsOpen};
ghost use Rattle.test_patterns.specs.Inner.Groups.{AreGathered, AreGatheredBefore};

use fault_sim::Lanes;
use gate_graph::{Graph, Question};
use rm_base::{Fault, NoMemory};
use std::alloc::Global;

/// A fault that was open, by its number, and the lanes that detect it, of which there is one at least.
#[derive(Clone, Copy)]
pub(crate) struct Caught {
    pub(crate) at: usize,
    pub(crate) lanes: u64,
}

/// Whether a vector is known for the fault of that number, and it stands under no pattern yet.
pub(crate) fn is_open(numbers: &[Option<usize>], firsts: &[Option<usize>], at: usize) -> bool
    ensures open { IsTrue result → IsOpen numbers.now firsts.now at }
    ensures others { IsOpen numbers.now firsts.now at → IsTrue result }
{
    let Some(Some(_number)) = numbers.get(at) else {
        return false;
    };
    let Some(None) = firsts.get(at) else {
        return false;
    };
    true
}

// Adds the fault of a number, where it is open and the lanes detect it.
fn gather_one(
    graph: &Graph,
    faults: &[Fault],
    numbers: &[Option<usize>],
    firsts: &[Option<usize>],
    lanes: &mut Lanes,
    at: usize,
    caught: &mut Vec<Caught>,
) -> Result<(), NoMemory>
    requires at { at < length faults.now }
    requires pins { HavePins (net_of graph.now) faults.now }
    requires fits { Fits lanes.old (net_of graph.now) }
    requires simulated { IsSimulated lanes.old (net_of graph.now) }
    ensures gathered { OnOk result (AreGatheredBefore (net_of graph.now) faults.now numbers.now firsts.now lanes.old.words caught.old.items at
        → AreGatheredBefore (net_of graph.now) faults.now numbers.now firsts.now lanes.old.words caught.new.items (at + 1)) }
    ensures same { lanes.new ≡ lanes.old }
{
    if !is_open(numbers, firsts, at) {
        return Ok(());
    }
    let fault = faults[at];
    let found = lanes.detect(&Question { graph, fault });
    if found == 0 {
        return Ok(());
    }
    caught.push(Caught { at, lanes: found })?;
    Ok(())
}

/// The open faults that the lanes detect.
pub(crate) fn gather(
    alloc: Global,
    graph: &Graph,
    faults: &[Fault],
    numbers: &[Option<usize>],
    firsts: &[Option<usize>],
    lanes: &mut Lanes,
) -> Result<Vec<Caught>, NoMemory>
    requires pins { HavePins (net_of graph.now) faults.now }
    requires fits { Fits lanes.old (net_of graph.now) }
    requires simulated { IsSimulated lanes.old (net_of graph.now) }
    ensures gathered { IfOk result (λ c. AreGathered (net_of graph.now) faults.now numbers.now firsts.now lanes.old.words c.items) }
    ensures same { lanes.new ≡ lanes.old }
{
    let mut caught = Vec::new(alloc);
    for at in 0..faults.len() {
        gather_one(graph, faults, numbers, firsts, lanes, at, &mut caught)?;
    }
    Ok(caught)
}
