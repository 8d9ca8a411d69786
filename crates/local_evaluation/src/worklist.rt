//! The node numbers that are to be looked at.
ghost use Rattle.std.specs.Prelude.{◌≡◌, ◌≢◌, ◌<◌, ◌≤◌, ◌↔◌, ℕ, Bool, List, IfOk, IsTrue, length, replicate, slice_get, slice_index, slice_set, suc, false, true, Some};
ghost use Rattle.gate_graph.specs.Search.{IsSeen};
ghost use Rattle.local_evaluation.specs.Worklists.{IsWorklist, IsTaken, ListsMarked};

use rm_base::{NoMemory, NodeId};
use std::alloc::Global;
use std::marker::Model;

/// Node numbers that are to be looked at, each at most once; the last one put on comes first.
#[derive(Drop)]
pub struct Worklist {
    marks: Vec<bool>,
    queue: Vec<u32>,
    count: usize,
}

impl Model for Worklist {
    ghost use Rattle.std.specs.Prelude.{Bool, List};
    ghost use Rattle.local_evaluation.specs.Worklists.{IsWorklist};

    ghost Value = { List Bool };

    ghost view = { λ a. a.marks.items };

    ghost invariant = { λ a. IsWorklist a.marks.items a.queue.items a.count };
}

// So many marks, none of them set.
pub(crate) fn no_marks(alloc: Global, numbers: u32) -> Result<Vec<bool>, NoMemory>
    ensures { IfOk result (λ v. v.items ≡ replicate numbers false) }
{
    Ok(vec![in alloc; false; numbers as usize]?)
}

// A queue with so many places.
fn no_queue(alloc: Global, numbers: u32) -> Result<Vec<u32>, NoMemory>
    ensures { IfOk result (λ v. v.items ≡ replicate numbers 0) }
{
    Ok(vec![in alloc; 0u32; numbers as usize]?)
}

// Puts a number on, of which there is one mark and one place in the queue.
fn put(marks: &mut Vec<bool>, queue: &mut Vec<u32>, count: &mut usize, number: u32)
    requires number { number < length marks.old.items }
    requires worklist { IsWorklist marks.old.items queue.old.items count.old }
    ensures worklist { IsWorklist marks.new.items queue.new.items count.new }
    ensures marks { marks.new.items ≡ slice_set marks.old.items number true }
{
    if marks[number as usize] {
        return;
    }
    marks[number as usize] = true;
    queue[*count] = number;
    *count += 1;
}

impl Worklist {
    /// No numbers, of those below `numbers`.
    pub fn new(alloc: Global, numbers: u32) -> Result<Worklist, NoMemory>
        ensures { IfOk result (λ a. a ≡ replicate numbers false) }
    {
        let marks = no_marks(alloc, numbers)?;
        let queue = no_queue(alloc, numbers)?;
        Ok(Worklist {
            marks,
            queue,
            count: 0,
        })
    }

    /// Below which bound the numbers are.
    pub fn len(&self) -> usize
        ensures { result ≡ length self.now }
    {
        self.marks.len()
    }

    /// Whether a number is on.
    pub fn has(&self, node: NodeId) -> bool
        requires { node.0 < length self.now }
        ensures { IsTrue result ↔ IsSeen self.now node.0 }
    {
        self.marks[node.0 as usize]
    }

    /// Whether a number is on; none is beyond the bound.
    pub fn is_on(&self, node: NodeId) -> bool
        ensures { IsTrue result ↔ IsSeen self.now node.0 }
    {
        match self.marks.get(node.0 as usize) {
            Some(mark) => *mark,
            None => false,
        }
    }

    /// The numbers that are on, in the order in which they were put on.
    pub fn numbers(&self) -> &[u32]
        ensures { ListsMarked self.now result.now }
    {
        &self.queue[..self.count]
    }

    /// Puts a number on.
    pub fn add(&mut self, node: NodeId)
        requires { node.0 < length self.old }
        ensures { self.new ≡ slice_set self.old node.0 true }
    {
        put(&mut self.marks, &mut self.queue, &mut self.count, node.0);
    }

    /// Takes a number off; None where there is none.
    pub fn take(&mut self) -> Option<NodeId>
        ensures { IsTaken self.old self.new result }
    {
        if self.count == 0 {
            return None;
        }
        let at = self.count - 1;
        let number = self.queue[at];
        self.marks[number as usize] = false;
        self.count = at;
        Some(NodeId(number))
    }

    /// Takes all numbers off, in the time of those that are on.
    pub fn clear(&mut self)
        ensures { self.new ≡ replicate (length self.old) false }
    {
        while let Some(_) = self.take() {}
    }

    /// Puts all numbers below the bound on, the least to come first.
    pub fn add_all(&mut self, bound: u32)
        requires { bound ≤ length self.old }
        ensures all { (z : ℕ) → z < bound → IsSeen self.new z }
        ensures size { length self.new ≡ length self.old }
    {
        for number in 0..bound {
            self.add(NodeId(bound - 1 - number));
        }
    }
}
