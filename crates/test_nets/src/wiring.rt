//! Nets as tables.
ghost use Rattle.std.specs.Prelude.{◌+◌, ◌≤◌, IfOk};
ghost use Rattle.gate_graph.specs.Circuit.{live_nodes, pins_taken};

use crate::building::NetBuilder;
use gate_graph::Graph;
use std::alloc::Global;
use std::test::Fail;

/// A gate, with the numbers of its drivers.
#[derive(Clone, Copy)]
pub enum Gate<'a> {
    And(&'a [u32]),
    Or(&'a [u32]),
    Not(u32),
    Xor(u32, u32),
}

/// How many sources a net has, which are numbered from 2 on, its gates, which take the numbers after them, and what is
/// observed.
#[derive(Clone, Copy)]
pub struct Wiring<'a> {
    pub sources: u32,
    pub gates: &'a [Gate<'a>],
    pub observed: &'a [u32],
}

/// The net of a table, which may grow further.
pub fn build(alloc: Global, wiring: &Wiring) -> Result<NetBuilder, Fail> {
    let mut net = NetBuilder::new(alloc, wiring.sources)?;
    for gate in wiring.gates {
        net.add(*gate)?;
    }
    for node in wiring.observed {
        net.observe(*node)?;
    }
    Ok(net)
}

/// The net of a table.
pub fn build_net(alloc: Global, wiring: &Wiring) -> Result<Graph, Fail>
    ensures few { IfOk result (λ graph. pins_taken graph + live_nodes graph ≤ 300000) }
{
    let net = build(alloc, wiring)?;
    Ok(net.finish())
}
