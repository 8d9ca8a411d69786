//! Nets drawn from a seed.
ghost use Rattle.std.specs.Prelude.{◌+◌, ◌<◌, ◌≤◌, IfOk};
ghost use Rattle.gate_graph.specs.Circuit.{live_nodes, pins_taken};

use crate::building::NetBuilder;
use crate::wiring::Gate;
use gate_graph::Graph;
use rm_base::NodeId;
use std::alloc::Global;
use std::test::Fail;

/// Numbers drawn one after another, by a linear congruence.
#[derive(Clone, Copy)]
pub struct Draws {
    pub state: u64,
}

impl Draws {
    /// The numbers of a seed.
    pub fn new(seed: u64) -> Draws {
        Draws { state: seed }
    }

    /// A number below the bound.
    pub fn below(&mut self, bound: u32) -> u32
        requires { 0 < bound }
        ensures { result < bound }
    {
        self.state = self
            .state
            .wrapping_mul(6364136223846793005)
            .wrapping_add(1442695040888963407);
        ((self.state >> 33) % bound as u64) as u32
    }
}

/// Adds an And or an Or of two or three drivers below the bound, an Xor of two, or a Not of one.
pub fn add_drawn(net: &mut NetBuilder, draws: &mut Draws, bound: u32) -> Result<NodeId, Fail>
    requires { 0 < bound }
{
    let one = draws.below(bound);
    let other = draws.below(bound);
    let third = draws.below(bound);
    match draws.below(6) {
        0 => net.add(Gate::And(&[one, other])),
        1 => net.add(Gate::And(&[one, other, third])),
        2 => net.add(Gate::Or(&[one, other])),
        3 => net.add(Gate::Or(&[one, other, third])),
        4 => net.add(Gate::Xor(one, other)),
        _ => net.add(Gate::Not(one)),
    }
}

/// A net of so many sources and drawn gates, of which these nodes and one that is drawn are observed.
pub fn drawn_net(
    alloc: Global,
    sources: u32,
    gates: u32,
    observed: &[u32],
    seed: u64,
) -> Result<Graph, Fail>
    ensures few { IfOk result (λ graph. pins_taken graph + live_nodes graph ≤ 300000) }
{
    if sources > 1000 || gates > 1000 {
        return Err("too large".into());
    }
    let mut draws = Draws::new(seed);
    let mut net = NetBuilder::new(alloc, sources)?;
    for at in 0..gates {
        add_drawn(&mut net, &mut draws, 2 + sources + at)?;
    }
    for node in observed {
        net.observe(*node)?;
    }
    net.observe(draws.below(2 + sources + gates))?;
    Ok(net.finish())
}
