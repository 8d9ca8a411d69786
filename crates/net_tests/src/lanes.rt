//! Which vectors detect, against values written by hand.
ghost use Rattle.std.specs.Prelude.{◌≡◌, length};
ghost use Rattle.gate_net.specs.Net.{source_count};
ghost use Rattle.gate_graph.specs.Circuit.{net_of};
ghost use Rattle.fault_sim.specs.LaneStates.{Fits, IsSimulated};

mod drawn;
mod followed;
mod forms;
mod kept;
mod shared;

use fault_sim::Lanes;
use gate_graph::{Graph, Question};
use rm_base::NodeId;
use std::alloc::Global;
use std::test::Fail;
use test_nets::worked::FOUR_GATES;
use test_nets::{build_net, fault_at};

// A fault of the four gates, the words of the sources, and what lanes tell of it: the vectors that detect it, the first of them, and
// the good word of the node 9.
struct Row {
    pin: (u32, u32),
    stuck: bool,
    words: [u64; 4],
    found: u64,
    first: Option<u32>,
    nine: u64,
}

// One vector in lane 0, and another in the others.
const TWO: [u64; 4] = [u64::MAX - 1, u64::MAX, 0, u64::MAX];

// All 16 vectors: bit 0 of the number of a vector is the first source.
const ALL: [u64; 4] = [0xaaaa, 0xcccc, 0xf0f0, 0xff00];

const ROWS: &[Row] = &[
    // One vector detects.
    Row {
        pin: (6, 0),
        stuck: true,
        words: TWO,
        found: 1,
        first: Some(0),
        nine: u64::MAX - 1,
    },
    // Of all vectors.
    Row {
        pin: (6, 0),
        stuck: true,
        words: ALL,
        found: 0x4400,
        first: Some(10),
        nine: 0xa800,
    },
    Row {
        pin: (9, 1),
        stuck: false,
        words: ALL,
        found: 0xa800,
        first: Some(11),
        nine: 0xa800,
    },
    // No vector detects.
    Row {
        pin: (7, 1),
        stuck: true,
        words: TWO,
        found: 0,
        first: None,
        nine: u64::MAX - 1,
    },
];

// The lanes that detect a fault under these words. The contract says no more than the next questions need.
fn found_under(lanes: &mut Lanes, question: &Question<'_>, words: &[u64]) -> u64
    requires fits { Fits lanes.old (net_of question.now.graph.now) }
    requires sources { length words.now ≡ source_count (net_of question.now.graph.now) }
    ensures fits { Fits lanes.new (net_of question.now.graph.now) }
    ensures simulated { IsSimulated lanes.new (net_of question.now.graph.now) }
{
    lanes.detect64(question, words)
}

// Those that detect it under the words that the lanes have.
fn found_again(lanes: &mut Lanes, question: &Question<'_>) -> u64
    requires fits { Fits lanes.old (net_of question.now.graph.now) }
    requires simulated { IsSimulated lanes.old (net_of question.now.graph.now) }
    ensures same { lanes.new ≡ lanes.old }
{
    lanes.detect(question)
}

// Whether that is the first of them.
fn is_first(lanes: &mut Lanes, question: &Question<'_>, wanted: Option<u32>) -> bool
    requires fits { Fits lanes.old (net_of question.now.graph.now) }
    requires simulated { IsSimulated lanes.old (net_of question.now.graph.now) }
{
    lanes.first_detecting(question) == wanted
}

// Whether lanes of the net tell what the row says, and the same of its vectors when they are asked again.
fn tell(lanes: &mut Lanes, question: &Question<'_>, row: &Row) -> bool
    requires fits { Fits lanes.old (net_of question.now.graph.now) }
    requires sources { length row.now.words ≡ source_count (net_of question.now.graph.now) }
{
    let found = found_under(lanes, question, &row.words);
    let again = found_again(lanes, question);
    let nine = lanes.value(NodeId(9));
    found == row.found
        && again == row.found
        && nine == row.nine
        && is_first(lanes, question, row.first)
}

// Whether new lanes do so.
fn are_told(alloc: Global, graph: &Graph, row: &Row) -> Result<bool, Fail> {
    let fault = fault_at(graph, row.pin.0, row.pin.1, row.stuck)?;
    if graph.source_count() as usize != row.words.len() {
        return Err("other sources".into());
    }
    let mut lanes = Lanes::new(alloc, graph)?;
    Ok(tell(&mut lanes, &Question { graph, fault }, row))
}

#[test]
fn vectors_that_detect(rt: HostRuntime) -> Result<(), Fail> {
    let graph = build_net(rt.alloc(), &FOUR_GATES)?;
    for row in ROWS {
        assert!(rt;
            are_told(rt.alloc(), &graph, row)?,
            "at words {:?}",
            row.words
        );
    }
    Ok(())
}
