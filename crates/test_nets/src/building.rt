//! A net that grows gate by gate and stays small, so that whoever grows it owes no bounds.
ghost use Rattle.std.specs.Prelude.{◌≡◌, ◌≢◌, ◌+◌, ◌≤◌, ℕ, IfOk, length, map, true};
ghost use Rattle.gate_net.specs.Net.{IsGateKind, IsLive};
ghost use Rattle.gate_net.specs.declared.Kind.TheVariants.{Not, Xor};
ghost use Rattle.gate_graph.specs.Circuit.{live_nodes, net_of, pins_taken};
ghost use Rattle.pin_pool.specs.Ring.{has};

use crate::wiring::Gate;
use gate_graph::Graph;
use gate_net::Kind;
use rm_base::NodeId;
use std::alloc::Global;
use std::marker::Model;
use std::test::Fail;

// How many nodes and pins there may be together.
const MOST: u32 = 300_000;

/// A net that grows, and how many nodes and pins more it may get.
#[derive(Drop)]
pub struct NetBuilder {
    alloc: Global,
    graph: Graph,
    left: u32,
}

impl Model for NetBuilder {
    ghost use Rattle.std.specs.Prelude.{ℕ};

    ghost Value = { ℕ };

    ghost use Rattle.std.specs.Prelude.{◌+◌, ◌≤◌};
    ghost use Rattle.gate_graph.specs.Circuit.{live_nodes, pins_taken};

    ghost view = { λ b. b.left };

    ghost invariant = { λ b. pins_taken b.graph + live_nodes b.graph + b.left ≤ 300000 };
}

// The nodes of these numbers.
fn nodes_of(alloc: Global, graph: &Graph, numbers: &[u32]) -> Result<Vec<NodeId>, Fail>
    ensures live { IfOk result (λ v. (d : ℕ) → has d (map (λ n. n.0) v.items) ≡ true → IsLive (net_of graph.now) d) }
    ensures count { IfOk result (λ v. length v.items ≡ length numbers.now) }
{
    let mut nodes = Vec::new(alloc);
    for number in numbers {
        let Some(_) = graph.kind(NodeId(*number)) else {
            return Err("no such node".into());
        };
        nodes.push(NodeId(*number))?;
    }
    Ok(nodes)
}

impl NetBuilder {
    /// A net of so many sources.
    pub fn new(alloc: Global, sources: u32) -> Result<NetBuilder, Fail> {
        if sources > 100_000 {
            return Err("too many sources".into());
        }
        let graph = Graph::new(alloc, sources)?;
        Ok(NetBuilder {
            alloc,
            graph,
            left: MOST - 2 - sources,
        })
    }

    // Adds a gate of live drivers.
    fn add_over(&mut self, kind: Kind, drivers: &[u32]) -> Result<NodeId, Fail>
        requires kind { IsGateKind kind }
        requires one { kind ≡ Not → length drivers.now ≡ 1 }
        requires two { kind ≡ Xor → length drivers.now ≡ 2 }
    {
        if drivers.len() >= self.left as usize {
            return Err("too many pins".into());
        }
        let nodes = nodes_of(self.alloc, &self.graph, drivers)?;
        let gate = self.graph.add_gate(kind, nodes.as_slice())?;
        self.left -= drivers.len() as u32 + 1;
        Ok(gate)
    }

    /// Adds a gate, which takes the least free number.
    pub fn add(&mut self, gate: Gate) -> Result<NodeId, Fail> {
        match gate {
            Gate::And(drivers) => self.add_over(Kind::And, drivers),
            Gate::Or(drivers) => self.add_over(Kind::Or, drivers),
            Gate::Not(driver) => self.add_over(Kind::Not, &[driver]),
            Gate::Xor(one, other) => self.add_over(Kind::Xor, &[one, other]),
        }
    }

    /// Observes a node.
    pub fn observe(&mut self, node: u32) -> Result<(), Fail> {
        if self.left == 0 {
            return Err("too many observed places".into());
        }
        let Some(_) = self.graph.kind(NodeId(node)) else {
            return Err("no such node".into());
        };
        self.graph.observe(NodeId(node))?;
        self.left -= 1;
        Ok(())
    }

    /// The net so far.
    pub fn graph(&self) -> &Graph {
        &self.graph
    }

    /// The net.
    pub fn finish(self) -> Graph
        ensures few { pins_taken result + live_nodes result ≤ 300000 }
    {
        self.graph
    }
}
