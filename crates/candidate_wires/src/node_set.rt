// Marks that are all taken off at once.
ghost use Rattle.std.specs.Prelude.{◌≡◌, ◌<◌, ◌↔◌, IfOk, IsTrue, false, length, replicate, slice_index, slice_set, true, ℕ};
ghost use Rattle.gate_graph.specs.Search.{IsSeen};

use rm_base::{NoMemory, NodeId};
use std::alloc::Global;
use std::marker::Model;

/// Marks of the node numbers below a bound. A number is marked where its stamp is the present one, so that a new present
/// stamp takes all marks off.
#[derive(Drop)]
pub(crate) struct NodeSet {
    stamps: Vec<u32>,
    present: u32,
}

impl Model for NodeSet {
    ghost use Rattle.std.specs.Prelude.{Bool, List};
    ghost use Rattle.candidate_wires.specs.Inner.Stamped.{AreStamped, marks_of};

    ghost Value = { List Bool };

    ghost view = { λ s. marks_of s.present s.stamps.items };

    ghost invariant = { λ s. AreStamped s.present s.stamps.items };
}

// So many stamps, none of them set.
fn no_stamps(alloc: Global, numbers: u32) -> Result<Vec<u32>, NoMemory>
    ensures { IfOk result (λ v. v.items ≡ replicate numbers 0) }
{
    Ok(vec![in alloc; 0u32; numbers as usize]?)
}

// Whether the number has the stamp.
fn has_stamp(stamps: &[u32], node: NodeId, stamp: u32) -> bool
    requires { 0 < stamp }
    ensures { IsTrue result ↔ (slice_index stamps.now node.0 ≡ stamp) }
{
    match stamps.get(node.0 as usize) {
        Some(found) => *found == stamp,
        None => false,
    }
}

// Takes all stamps off.
fn clear_all(stamps: &mut Vec<u32>)
    ensures none { (x : ℕ) → slice_index stamps.new.items x ≡ 0 }
    ensures size { length stamps.new.items ≡ length stamps.old.items }
{
    for place in 0..stamps.len() {
        stamps[place] = 0;
    }
}

impl NodeSet {
    // No marks, for node numbers below `numbers`.
    pub(crate) fn new(alloc: Global, numbers: u32) -> Result<NodeSet, NoMemory>
        ensures { IfOk result (λ s. s ≡ replicate numbers false) }
    {
        let stamps = no_stamps(alloc, numbers)?;
        Ok(NodeSet { stamps, present: 1 })
    }

    // Whether the number is marked.
    pub(crate) fn has(&self, node: NodeId) -> bool
        ensures { IsTrue result ↔ IsSeen self.now node.0 }
    {
        has_stamp(self.stamps.as_slice(), node, self.present)
    }

    // Marks the number.
    pub(crate) fn set(&mut self, node: NodeId)
        requires { node.0 < length self.old }
        ensures { self.new ≡ slice_set self.old node.0 true }
    {
        self.stamps[node.0 as usize] = self.present;
    }

    // Takes the number's mark off.
    pub(crate) fn unset(&mut self, node: NodeId)
        requires { node.0 < length self.old }
        ensures { self.new ≡ slice_set self.old node.0 false }
    {
        self.stamps[node.0 as usize] = 0;
    }

    // Takes all marks off.
    pub(crate) fn clear(&mut self)
        ensures { self.new ≡ replicate (length self.old) false }
    {
        if self.present == u32::MAX {
            clear_all(&mut self.stamps);
            self.present = 1;
        } else {
            self.present += 1;
        }
    }
}
