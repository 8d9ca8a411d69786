//! Searching back along pins.
ghost use Rattle.std.specs.Prelude.{◌≡◌, ◌+◌, ◌<◌, ◌≤◌, ◌↔◌, IfOk, IsTrue, ℕ, false, length, replicate};
ghost use Rattle.gate_graph.specs.Circuit.{net_of};
ghost use Rattle.gate_graph.specs.Search.{IsSeen, unseen, AreBelow};
ghost use Rattle.gate_graph.specs.Inner.Search.{Marked, MarksBack, ListsSeen};
ghost use Rattle.gate_net.specs.Net.{IsLive};
ghost use Rattle.gate_net.specs.Paths.{Reaches};

use crate::input_iter::Inputs;
use crate::state::Graph;
use rm_base::{NoMemory, NodeId};
use std::alloc::Global;
use std::marker::Model;

/// Marks for searches among the node numbers below a bound. A search leaves them as they were.
#[derive(Drop)]
pub struct Marks {
    seen: Vec<bool>,
    queue: Vec<u32>,
}

impl Model for Marks {
    ghost use Rattle.std.specs.Prelude.{ℕ, ◌≡◌, length, replicate, false};

    ghost Value = { ℕ };

    ghost view = { λ m. length m.seen.items };

    ghost invariant = { λ m. (length m.queue.items ≡ length m.seen.items) × (m.seen.items ≡ replicate (length m.seen.items) false) };
}

impl Marks {
    /// Marks for the numbers below the bound.
    pub fn new(alloc: Global, numbers: u32) -> Result<Marks, NoMemory>
        ensures { IfOk result (λ m. m ≡ numbers) }
    {
        let seen = vec![in alloc; false; numbers as usize]?;
        let queue = vec![in alloc; 0u32; numbers as usize]?;
        Ok(Marks { seen, queue })
    }

    /// Below which bound there are marks.
    pub fn numbers(&self) -> usize
        ensures { result ≡ self.now }
    {
        self.seen.len()
    }
}

// Marks those drivers that aren't marked, and puts them at the end of the queue, whose new end is given.
fn mark_unseen(drivers: Inputs<'_>, seen: &mut [bool], queue: &mut [u32], end: usize) -> usize
    requires within { AreBelow drivers (length seen.old) }
    requires room { end + unseen seen.old ≤ length queue.old }
    ensures { Marked drivers.entry seen.old seen.new queue.old queue.new end result }
{
    let mut end = end;
    for driver in drivers {
        let place = driver.0 as usize;
        if !seen[place] {
            seen[place] = true;
            queue[end] = driver.0;
            end += 1;
        }
    }
    end
}

// Takes the marks off the nodes of the queue.
fn unmark(seen: &mut [bool], queue: &[u32], end: usize)
    requires room { end ≤ length queue.now }
    requires listed { ListsSeen seen.old queue.now 0 end }
    ensures { seen.new ≡ replicate (length seen.old) false }
{
    for i in 0..end {
        seen[queue[i] as usize] = false;
    }
}

impl Graph {
    // Marks what leads to a node, until `from` is marked, and gives the end of the queue.
    fn mark_back(&self, from: NodeId, to: NodeId, seen: &mut [bool], queue: &mut [u32]) -> usize
        requires from { from.0 < length seen.old }
        requires to { IsLive (net_of self.now) to.0 }
        requires nodes { length (net_of self.now).nodes ≤ length seen.old }
        requires room { length queue.old ≡ length seen.old }
        requires clear { seen.old ≡ replicate (length seen.old) false }
        ensures marks { MarksBack (net_of self.now) from.0 to.0 seen.new }
        ensures listed { ListsSeen seen.new queue.new 0 result }
        ensures room { result ≤ length queue.new }
    {
        self.well_formed();
        let mut end = mark_unseen(self.inputs_of(to), seen, queue, 0);
        let mut next = 0usize;
        while next < end {
            if seen[from.0 as usize] {
                return end;
            }
            end = mark_unseen(self.inputs_of(NodeId(queue[next])), seen, queue, end);
            next += 1;
        }
        end
    }

    /// Whether a path of one or more pins leads from one node to the other. It takes the time of the pins
    /// that lead to `to`.
    pub fn reaches(&self, from: NodeId, to: NodeId, marks: &mut Marks) -> bool
        requires from { IsLive (net_of self.now) from.0 }
        requires to { IsLive (net_of self.now) to.0 }
        requires marks { length (net_of self.now).nodes ≤ marks.old }
        ensures reaches { IsTrue result ↔ Reaches (net_of self.now) from.0 to.0 }
        ensures marks { marks.new ≡ marks.old }
    {
        let end = self.mark_back(from, to, &mut marks.seen, &mut marks.queue);
        let found = marks.seen[from.0 as usize];
        unmark(&mut marks.seen, &marks.queue, end);
        found
    }
}
