//! Marks by which a repeated driver is found.
ghost use Rattle.std.specs.Prelude.{◌≡◌, ◌<◌, ◌≤◌, ℕ, true, false, length, take, unwrap_or, IfOk};
ghost use Rattle.gate_graph.specs.Circuit.{net_of};
ghost use Rattle.gate_graph.specs.Search.{AreBelow};
ghost use Rattle.gate_net.specs.Net.{drivers_of, IsLive};
ghost use Rattle.wire_edit.specs.Tests.{is_among, is_repeated};
ghost use Rattle.wire_edit.specs.Inner.Firsts.{IsFirst};
ghost use Rattle.wire_edit.specs.Inner.Marked.{is_marked, IsBlank};
ghost use Rattle.wire_edit.specs.Inner.Known.{MarksFirst};
ghost use Rattle.rm_base.specs.Numbers.{number_bound};

use gate_graph::{Graph, Inputs};
use rm_base::{NoMemory, NodeId};
use std::alloc::Global;
use std::marker::Model;

/// Marks for the node numbers below a bound, by which repeated drivers are found. A look leaves them as they were.
#[derive(Drop)]
pub struct Seen {
    marks: Vec<bool>,
}

impl Model for Seen {
    ghost use Rattle.std.specs.Prelude.{ℕ, length};
    ghost use Rattle.wire_edit.specs.Inner.Marked.{IsBlank};

    ghost Value = { ℕ };

    ghost view = { λ s. length s.marks.items };

    ghost invariant = { λ s. IsBlank s.marks.items };
}

impl Seen {
    /// Marks for the numbers below the bound.
    pub fn new(alloc: Global, numbers: u32) -> Result<Seen, NoMemory>
        ensures { IfOk result (λ s. s ≡ numbers) }
    {
        let marks = vec![in alloc; false; numbers as usize]?;
        Ok(Seen { marks })
    }

    /// Below which bound there are marks.
    pub fn numbers(&self) -> usize
        ensures { result ≡ self.now }
    {
        self.marks.len()
    }
}

// Marks the drivers of a gate from a position on, up to the first that is marked already, and gives its position.
pub(crate) fn mark_drivers(
    graph: &Graph,
    gate: NodeId,
    marks: &mut [bool],
    from: u32,
) -> Option<u32>
    requires live { IsLive (net_of graph.now) gate.0 }
    requires room { length (net_of graph.now).nodes ≤ length marks.old }
    requires before { (k : ℕ) → k < from → is_repeated (drivers_of (net_of graph.now) gate.0) k ≡ false }
    requires marks { MarksFirst (drivers_of (net_of graph.now) gate.0) from marks.old }
    ensures first { IsFirst (is_repeated (drivers_of (net_of graph.now) gate.0)) (length (drivers_of (net_of graph.now) gate.0)) result }
    ensures marks { MarksFirst (drivers_of (net_of graph.now) gate.0) (unwrap_or result number_bound) marks.new }
{
    graph.well_formed();
    let mut position = from;
    for driver in graph.inputs_from(gate, from) {
        let place = driver.0 as usize;
        if marks[place] {
            return Some(position);
        }
        marks[place] = true;
        position += 1;
    }
    None
}

// Takes the marks off the first drivers.
pub(crate) fn unmark_drivers(drivers: Inputs<'_>, marks: &mut [bool], count: u32)
    requires within { AreBelow drivers (length marks.old) }
    requires marked { (x : ℕ) → is_marked marks.old x ≡ true → is_among x (take count drivers) ≡ true }
    ensures { IsBlank marks.new }
{
    let mut left = count;
    for driver in drivers {
        if left == 0 {
            return;
        }
        marks[driver.0 as usize] = false;
        left -= 1;
    }
}

// The first pin whose driver drives an earlier pin, in the time of the pins before it.
pub(crate) fn first_repeated(graph: &Graph, gate: NodeId, seen: &mut Seen) -> Option<u32>
    requires live { IsLive (net_of graph.now) gate.0 }
    requires seen { length (net_of graph.now).nodes ≤ seen.old }
    ensures first { IsFirst (is_repeated (drivers_of (net_of graph.now) gate.0)) (length (drivers_of (net_of graph.now) gate.0)) result }
    ensures seen { seen.new ≡ seen.old }
{
    graph.well_formed();
    let found = mark_drivers(graph, gate, &mut seen.marks, 0);
    unmark_drivers(
        graph.inputs_of(gate),
        &mut seen.marks,
        found.unwrap_or(u32::MAX),
    );
    found
}
