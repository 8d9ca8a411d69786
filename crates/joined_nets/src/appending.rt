// Making gates on the next number.
ghost use Rattle.std.specs.Prelude.{◌≡◌, ◌<◌, ◌∷◌, [], IfOk, OnOk, Some, length, map, true, ℕ};
ghost use Rattle.joined_nets.specs.Growing.{Fits, IsWhole, with_nodes};
ghost use Rattle.gate_graph.specs.Circuit.{net_of};
ghost use Rattle.gate_net.specs.Net.{IsGateKind};
ghost use Rattle.gate_net.specs.declared.Kind.TheVariants.{Not, Xor};
ghost use Rattle.pin_pool.specs.Ring.{has};

use gate_graph::Graph;
use gate_net::Kind;
use rm_base::{NoMemory, NodeId};

/// Makes a gate on the next number of a graph without gaps, over nodes that it has. `NoMemory` may come at any call.
pub fn add_last(graph: &mut Graph, kind: Kind, drivers: &[NodeId]) -> Result<NodeId, NoMemory>
    requires kind { IsGateKind kind }
    requires one { kind ≡ Not → length drivers.now ≡ 1 }
    requires two { kind ≡ Xor → length drivers.now ≡ 2 }
    requires whole { IsWhole graph.old }
    requires drivers { (d : ℕ) → has d (map (λ n. n.0) drivers.now) ≡ true → d < length (net_of graph.old).nodes }
    requires fits { Fits (with_nodes (net_of graph.old) (Some (record { kind = kind; drivers = map (λ n. n.0) drivers.now }) ∷ [])) }
    ensures net { IfOk result (λ node. net_of graph.new ≡ with_nodes (net_of graph.old) (Some (record { kind = kind; drivers = map (λ n. n.0) drivers.now }) ∷ [])) }
    ensures number { IfOk result (λ node. node.0 ≡ length (net_of graph.old).nodes) }
    ensures whole { OnOk result (IsWhole graph.new) }
{
    let node = graph.add_gate(kind, drivers)?;
    graph.well_formed();
    Ok(node)
}
