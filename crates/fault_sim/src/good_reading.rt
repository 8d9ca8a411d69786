// The good word of a node from those of its drivers.
ghost use Rattle.std.specs.Prelude.{◌≡◌, ◌<◌, bit_xor, length, map, not, slice_index};
ghost use Rattle.std.specs.List.{fold};
ghost use Rattle.gate_net.specs.Net.{drivers_of, node_at, source_count};
ghost use Rattle.gate_graph.specs.Circuit.{net_of};
ghost use Rattle.refutation.specs.Pins.{AreBelow};
ghost use Rattle.fault_sim.specs.Words.{assigned_word};
ghost use Rattle.fault_sim.specs.Inner.Words.{join_word, node_word, word_of};

use crate::reading::join;
use gate_graph::{Graph, Inputs};
use gate_net::Family;
use rm_base::{FIRST_SOURCE, NodeId};

#[inline(always)]
fn good_at(good: &[u64], node: NodeId) -> u64
    requires { node.0 < length good.now }
    ensures { result ≡ slice_index good.now node.0 }
{
    good[node.0 as usize]
}

// What an And or an Or has.
#[inline(always)]
fn good_junction(drivers: Inputs<'_>, good: &[u64], controlling: bool) -> u64
    requires within { AreBelow drivers (length good.now) }
    ensures { result ≡ fold (join_word controlling) (word_of (not controlling)) (map (slice_index good.now) drivers.entry) }
{
    let mut word = if controlling { 0 } else { u64::MAX };
    for driver in drivers {
        word = join(controlling, word, good_at(good, driver));
    }
    word
}

// What a Not or an Xor has.
#[inline(always)]
fn good_parity(drivers: Inputs<'_>, good: &[u64], inverts: bool) -> u64
    requires within { AreBelow drivers (length good.now) }
    ensures { result ≡ fold bit_xor (word_of inverts) (map (slice_index good.now) drivers.entry) }
{
    let mut word = if inverts { u64::MAX } else { 0 };
    for driver in drivers {
        word ^= good_at(good, driver);
    }
    word
}

// The good word of a node from those of its drivers.
#[inline(always)]
pub(crate) fn good_word(graph: &Graph, words: &[u64], good: &[u64], node: NodeId) -> u64
    requires sources { length words.now ≡ source_count (net_of graph.now) }
    requires drivers { AreBelow (drivers_of (net_of graph.now) node.0) (length good.now) }
    ensures { result ≡ node_word (node_at (net_of graph.now) node.0) (assigned_word words.now node.0) (map (slice_index good.now) (drivers_of (net_of graph.now) node.0)) }
{
    graph.well_formed();
    let Some(kind) = graph.kind(node) else {
        return 0;
    };
    match kind.family() {
        Family::Input => words[node.0 as usize - FIRST_SOURCE as usize],
        Family::Constant { value } => { if value { u64::MAX } else { 0 } }
        Family::Junction { controlling: false } => {
            good_junction(graph.gate_inputs(node), good, false)
        }
        Family::Junction { controlling: true } => {
            good_junction(graph.gate_inputs(node), good, true)
        }
        Family::Parity { inverts } => good_parity(graph.gate_inputs(node), good, inverts),
    }
}
