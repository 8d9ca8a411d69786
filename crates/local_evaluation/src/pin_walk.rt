//! Walks along the pins of gates.
ghost use Rattle.std.specs.Prelude.{◌≡◌, ◌<◌, ◌≤◌, ◌+◌, ◌↔◌, List, ℕ, IfSome, IsTrue, drop, length, slice_get};
ghost use Rattle.std.specs.Option.{option_map};
ghost use Rattle.gate_net.specs.Net.{drivers_of};
ghost use Rattle.gate_graph.specs.Circuit.{net_of};
ghost use Rattle.rm_base.specs.Numbers.{number_bound};

use gate_graph::{Graph, Inputs};
use rm_base::{NodeId, ZERO};
use std::marker::Model;

/// A walk along the pins of one gate after another, which goes on from where it is. Its value is the net.
#[derive(Drop)]
pub struct PinWalk<'a> {
    graph: &'a Graph,
    gate: NodeId,
    position: u32,
    rest: Inputs<'a>,
}

impl<'a> Model for PinWalk<'a> {
    ghost use Rattle.gate_net.specs.Net.{Net};

    ghost Value = { Net };

    ghost use Rattle.std.specs.Prelude.{◌≡◌, ◌≤◌, drop, length};
    ghost use Rattle.gate_graph.specs.Circuit.{net_of};
    ghost use Rattle.gate_net.specs.Net.{drivers_of};
    ghost use Rattle.rm_base.specs.Numbers.{number_bound};

    ghost view = { λ w. net_of w.graph.now };

    ghost invariant = { λ w. (w.rest ≡ drop w.position (drivers_of (net_of w.graph.now) w.gate.0)) × (length (drivers_of (net_of w.graph.now) w.gate.0) ≤ number_bound) };
}

// Whether a walk at a position of a gate comes to that pin as it goes on.
fn is_ahead(at: NodeId, from: u32, gate: NodeId, position: u32) -> bool
    ensures { IsTrue result ↔ ((at.0 ≡ gate.0) × (from ≤ position)) }
{
    at.0 == gate.0 && from <= position
}

// Passes over so many pins.
fn pass(rest: &mut Inputs<'_>, count: u32)
    ensures { rest.new ≡ drop count rest.old }
{
    let mut left = count;
    while left > 0 {
        let Some(_) = rest.next() else {
            return;
        };
        left -= 1;
    }
}

// Goes on to a pin, and over it where there is one.
fn go_over(rest: &mut Inputs<'_>, from: &mut u32, position: u32) -> Option<NodeId>
    requires ahead { from.old ≤ position }
    requires few { from.old + length rest.old ≤ number_bound }
    ensures driver { (ds : List ℕ) → rest.old ≡ drop from.old ds → option_map (λ n. n.0) result ≡ slice_get ds position }
    ensures rest { (ds : List ℕ) → rest.old ≡ drop from.old ds → rest.new ≡ drop from.new ds }
{
    pass(rest, position - *from);
    *from = position;
    let Some(driver) = rest.next() else {
        return None;
    };
    *from += 1;
    Some(driver)
}

impl<'a> PinWalk<'a> {
    /// Before the first pin of any gate.
    pub fn new(graph: &'a Graph) -> PinWalk<'a>
        ensures { result ≡ net_of graph.now }
    {
        graph.well_formed();
        PinWalk {
            graph,
            gate: ZERO,
            position: 0,
            rest: graph.inputs_of(ZERO),
        }
    }

    /// The driver of a pin, where there is one. It takes the time of the pins from the one behind the last that was asked
    /// about, where that is before it at the same gate, and else from the first.
    pub fn driver(&mut self, gate: NodeId, position: u32) -> Option<NodeId>
        ensures driver { option_map (λ n. n.0) result ≡ slice_get (drivers_of self.old gate.0) position }
        ensures within { IfSome result (λ d. d.0 < length self.old.nodes) }
        ensures net { self.new ≡ self.old }
    {
        self.graph.well_formed();
        if !is_ahead(self.gate, self.position, gate, position) {
            let Some(_kind) = self.graph.kind(gate) else {
                return None;
            };
            self.rest = self.graph.inputs_of(gate);
            self.gate = gate;
            self.position = 0;
        }
        go_over(&mut self.rest, &mut self.position, position)
    }
}
