//! The nodes in an order in which drivers come before their readers.
ghost use Rattle.std.specs.Prelude.{◌≡◌, ◌≢◌, ◌+◌, ◌-◌, ◌<◌, ◌≤◌, [], ◌∷◌, ◌++◌, None, IfOk, OnOk, length, map, slice_index, slice_set};
ghost use Rattle.gate_graph.specs.Circuit.{net_of};
ghost use Rattle.gate_graph.specs.Order.{IsOrder};
ghost use Rattle.gate_graph.specs.Inner.Order.{IsFollowed};

use crate::pins::{count_gate_pins, stored_kind};
use crate::state::Graph;
use gate_net::Kind;
use rm_base::{NoMemory, NodeId};
use std::alloc::Global;

// Counts one pin of a gate down, and lists the gate when none is left.
fn count_down(left: &mut [u32], order: &mut Vec<NodeId>, gate: u32) -> Result<(), NoMemory>
    requires gate { gate < length left.old }
    requires some { 0 < slice_index left.old gate }
    ensures left { OnOk result (left.new ≡ slice_set left.old gate (slice_index left.old gate - 1)) }
    ensures last { OnOk result (slice_index left.old gate ≡ 1 → map (λ n. n.0) order.new.items ≡ map (λ n. n.0) order.old.items ++ gate ∷ []) }
    ensures more { OnOk result (slice_index left.old gate ≢ 1 → order.new.items ≡ order.old.items) }
{
    let count = left[gate as usize] - 1;
    left[gate as usize] = count;
    if count == 0 {
        order.push(NodeId(gate))?;
    }
    Ok(())
}

// Lists a live node that has no pins.
fn list_ready(
    order: &mut Vec<NodeId>,
    kind: Option<Kind>,
    node: u32,
    pins: u32,
) -> Result<(), NoMemory>
    ensures ready { OnOk result (kind ≢ None → pins ≡ 0 → map (λ n. n.0) order.new.items ≡ map (λ n. n.0) order.old.items ++ node ∷ []) }
    ensures dead { OnOk result (kind ≡ None → order.new.items ≡ order.old.items) }
    ensures more { OnOk result (pins ≢ 0 → order.new.items ≡ order.old.items) }
{
    if pins != 0 {
        return Ok(());
    }
    if kind.is_none() {
        return Ok(());
    }
    order.push(NodeId(node))?;
    Ok(())
}

impl Graph {
    // Counts the pins of each number, and lists the nodes that have none.
    fn start_order(&self, left: &mut Vec<u32>, order: &mut Vec<NodeId>) -> Result<(), NoMemory>
        requires left { left.old.items ≡ [] }
        requires order { order.old.items ≡ [] }
        ensures { OnOk result (IsFollowed self.now left.new.items (map (λ n. n.0) order.new.items) 0) }
    {
        self.tell();
        for node in 0..self.kinds.len() as u32 {
            let pins = count_gate_pins(&self.pool, node);
            left.push(pins)?;
            list_ready(order, stored_kind(&self.kinds, node), node, pins)?;
        }
        Ok(())
    }

    // Counts the readers of a listed node down.
    fn follow(&self, next: usize, left: &mut [u32], order: &mut Vec<NodeId>) -> Result<(), NoMemory>
        requires next { next < length order.old.items }
        requires followed { IsFollowed self.now left.old (map (λ n. n.0) order.old.items) next }
        ensures { OnOk result (IsFollowed self.now left.new (map (λ n. n.0) order.new.items) (next + 1)) }
    {
        self.tell();
        let node = order[next].0;
        for pin in self.pool.fanouts(node) {
            let gate = self.pool.gate_of(pin);
            if gate != 0 {
                count_down(left, order, gate)?;
            }
        }
        Ok(())
    }

    /// The live nodes, every driver before its readers, in the time of the numbers and the pins.
    pub fn order(&self, alloc: Global) -> Result<Vec<NodeId>, NoMemory>
        ensures { IfOk result (λ order. IsOrder (net_of self.now) (map (λ n. n.0) order.items)) }
    {
        self.tell();
        let mut left = Vec::new(alloc);
        let mut order = Vec::new(alloc);
        self.start_order(&mut left, &mut order)?;
        let mut next = 0usize;
        while next < order.len() {
            self.follow(next, &mut left, &mut order)?;
            next += 1;
        }
        Ok(order)
    }
}
