//! What tidying knows of the gate at which it takes pins out, so that no pin is looked at twice.
ghost use Rattle.std.specs.Prelude.{◌≡◌, ◌<◌, ◌≤◌, ℕ, length, true, false, IfOk};
ghost use Rattle.gate_graph.specs.Circuit.{net_of};
ghost use Rattle.gate_net.specs.Net.{Net, drivers_of};
ghost use Rattle.wire_edit.specs.Tests.{is_gate, is_xor, is_repeated};
ghost use Rattle.wire_edit.specs.Inner.Firsts.{IsFirst, reads_constant};
ghost use Rattle.wire_edit.specs.Steps.{stepped, Applies};
ghost use Rattle.wire_edit.specs.Inner.Known.{IsKept, IsFresh, IsPlainBefore};

use crate::looks::{is_live, is_xor};
use crate::rules::constant_from;
use crate::seen::{mark_drivers, unmark_drivers};
use crate::steps::Step;
use gate_graph::Graph;
use rm_base::{NoMemory, NodeId};
use std::alloc::Global;

// A gate, and positions before which its pins are known.
#[derive(Drop)]
pub(crate) struct Kept {
    pub gate: NodeId,
    // No pin before this position reads a constant, or none at all.
    pub plain: Option<u32>,
    // No pin before this position repeats a driver, and their drivers are marked.
    pub apart: u32,
    pub marks: Vec<bool>,
}

impl Kept {
    // Nothing is known, with marks for the numbers below the bound.
    pub(crate) fn new(alloc: Global, numbers: u32) -> Result<Kept, NoMemory>
        ensures { IfOk result (λ k. IsFresh k × (length k.marks.items ≡ numbers)) }
    {
        let marks = vec![in alloc; false; numbers as usize]?;
        Ok(Kept {
            gate: NodeId(0),
            plain: Some(0),
            apart: 0,
            marks,
        })
    }

    // The first pin that reads a constant.
    pub(crate) fn first_constant(&mut self, graph: &Graph) -> Option<u32>
        requires gate { is_gate (net_of graph.now) self.old.gate.0 ≡ true }
        requires kept { IsKept (net_of graph.now) self.old }
        ensures first { IsFirst (reads_constant (net_of graph.now) self.old.gate.0) (length (drivers_of (net_of graph.now) self.old.gate.0)) result }
        ensures kept { IsKept (net_of graph.now) self.new }
        ensures same { (self.new.gate ≡ self.old.gate) × (length self.new.marks.items ≡ length self.old.marks.items) }
    {
        let Some(from) = self.plain else {
            return None;
        };
        let found = constant_from(graph, self.gate, from);
        self.plain = found;
        found
    }

    // The first pin whose driver drives an earlier pin.
    pub(crate) fn first_repeated(&mut self, graph: &Graph) -> Option<u32>
        requires gate { is_gate (net_of graph.now) self.old.gate.0 ≡ true }
        requires marks { length (net_of graph.now).nodes ≤ length self.old.marks.items }
        requires kept { IsKept (net_of graph.now) self.old }
        ensures first { IsFirst (is_repeated (drivers_of (net_of graph.now) self.old.gate.0)) (length (drivers_of (net_of graph.now) self.old.gate.0)) result }
        ensures kept { IsKept (net_of graph.now) self.new }
        ensures same { (self.new.gate ≡ self.old.gate) × (length self.new.marks.items ≡ length self.old.marks.items) }
    {
        let found = mark_drivers(graph, self.gate, &mut self.marks, self.apart);
        self.apart = found.unwrap_or(u32::MAX);
        found
    }

    // Forgets all that is known.
    pub(crate) fn forget(&mut self, graph: &Graph)
        requires marks { length (net_of graph.now).nodes ≤ length self.old.marks.items }
        requires kept { IsKept (net_of graph.now) self.old }
        ensures fresh { IsFresh self.new }
        ensures same { length self.new.marks.items ≡ length self.old.marks.items }
    {
        graph.well_formed();
        if is_live(graph, self.gate) {
            unmark_drivers(graph.inputs_of(self.gate), &mut self.marks, self.apart);
        }
        self.plain = Some(0);
        self.apart = 0;
    }

    // Whether a `Same` takes out a pin of this gate that comes after those known to be apart. At an Xor it takes out none.
    fn stays_apart(&self, graph: &Graph, gate: NodeId, position: u32) -> bool
        ensures gate { result ≡ true → gate ≡ self.now.gate }
        ensures before { result ≡ true → self.now.apart ≤ position }
        ensures kind { result ≡ true → is_xor (net_of graph.now) gate.0 ≡ false }
    {
        if gate != self.gate {
            return false;
        }
        if self.apart > position {
            return false;
        }
        !is_xor(graph, gate)
    }

    // Forgets, before a step, what won't hold after it. A `Same` leaves the pins before its own.
    pub(crate) fn ready_for(&mut self, graph: &Graph, step: Step)
        requires applies { Applies (net_of graph.now) step }
        requires marks { length (net_of graph.now).nodes ≤ length self.old.marks.items }
        requires kept { IsKept (net_of graph.now) self.old }
        ensures kept { IsKept (stepped (net_of graph.now) step) self.new }
        ensures same { length self.new.marks.items ≡ length self.old.marks.items }
    {
        if let Step::Same { gate, position } = step {
            if self.stays_apart(graph, gate, position) {
                self.plain = Some(0);
                return;
            }
        }
        self.forget(graph);
    }

    // Notes that no pin of the gate before a position reads a constant, or none at all.
    pub(crate) fn note(&mut self, gate: NodeId, plain: Option<u32>)
        ensures kept { (net : Net) → IsKept net self.old → IsPlainBefore net gate.0 plain → IsKept net self.new }
        ensures same { length self.new.marks.items ≡ length self.old.marks.items }
    {
        if gate != self.gate {
            if self.apart > 0 {
                return;
            }
            self.gate = gate;
        }
        self.plain = plain;
    }
}
