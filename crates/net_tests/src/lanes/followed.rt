// Lanes and blocks that follow fifty drawn nets through drawn edits, of which one in two is undone, against new ones.
ghost use Rattle.std.specs.Prelude.{◌≡◌, ◌≤◌, ◌+◌, [], IfOk, OnOk, length, map, true};
ghost use Rattle.gate_net.specs.Net.{source_count};
ghost use Rattle.gate_graph.specs.Changes.{CanEdit, Edits, entries_for};
ghost use Rattle.gate_graph.specs.Circuit.{Circuit, net_of, pins_taken, wiring};
ghost use Rattle.gate_graph.specs.Undoing.{CanGoBack};
ghost use Rattle.fault_sim.specs.BlockStates.{AreSimulated};
ghost use Rattle.gate_net.specs.Edits.{IsSameBut};
ghost use Rattle.fault_sim.specs.Following.{CanAllFollow, CanFollow};
ghost use Rattle.fault_sim.specs.LaneStates.{Fits, IsSimulated};

use super::drawn::{ALL, GATES, drawn_net};
use fault_sim::{Blocks, Lanes, changed_by};
use gate_graph::{Edit, Graph, Question, Undos, same_wiring};
use rm_base::{Fault, NoMemory, NodeId};
use std::alloc::Global;
use std::test::Fail;
use test_nets::{Draws, few_nodes, may_edit, reserve_undos};

// One vector, in all lanes.
const ONE: [u64; 6] = [u64::MAX, 0, u64::MAX, 0, 0, u64::MAX];

// Whether both have the same word for each number.
fn same_words(one: &Lanes, other: &Lanes, numbers: u32) -> bool {
    for number in 0..numbers {
        if one.value(NodeId(number)) != other.value(NodeId(number)) {
            return false;
        }
    }
    true
}

// Whether both find the same lanes for a fault, where its gate has the pin.
fn same_lanes(one: &mut Lanes, other: &mut Lanes, graph: &Graph, fault: &Fault) -> bool
    requires one { Fits one.old (net_of graph.now) }
    requires good { IsSimulated one.old (net_of graph.now) }
    requires other { Fits other.old (net_of graph.now) }
    requires right { IsSimulated other.old (net_of graph.now) }
    ensures one { one.new ≡ one.old }
    ensures other { other.new ≡ other.old }
{
    let Some(_) = graph.driver(fault.gate, fault.position) else {
        return true;
    };
    let question = Question {
        graph,
        fault: *fault,
    };
    one.detect(&question) == other.detect(&question)
}

// Blocks of one vector in all lanes, and of all vectors.
fn two_blocks(alloc: Global, graph: &Graph) -> Result<Blocks, NoMemory>
    requires { source_count (net_of graph.now) ≡ 6 }
    ensures { IfOk result (λ s. AreSimulated s (net_of graph.now)) }
{
    let mut blocks = Blocks::new(alloc, graph)?;
    blocks.keep64(alloc, graph, &ONE)?;
    blocks.keep64(alloc, graph, &ALL)?;
    Ok(blocks)
}

// Whether both find the same first vector for a fault, where its gate has the pin.
fn same_vectors(one: &mut Blocks, other: &mut Blocks, graph: &Graph, fault: &Fault) -> bool
    requires one { AreSimulated one.old (net_of graph.now) }
    requires other { AreSimulated other.old (net_of graph.now) }
    ensures one { one.new ≡ one.old }
    ensures other { other.new ≡ other.old }
{
    let Some(_) = graph.driver(fault.gate, fault.position) else {
        return true;
    };
    let question = Question {
        graph,
        fault: *fault,
    };
    one.detects_any(&question) == other.detects_any(&question)
}

// A fault of the first numbers.
fn fault_of(number: u32) -> Fault
    requires { number ≤ 1000 }
{
    Fault {
        gate: NodeId(8 + number / 6),
        position: number % 3,
        value: number % 6 < 3,
    }
}

// Whether both find the same lanes for every fault of the first numbers.
fn same_at_all(one: &mut Lanes, other: &mut Lanes, graph: &Graph) -> bool
    requires one { Fits one.old (net_of graph.now) }
    requires good { IsSimulated one.old (net_of graph.now) }
    requires other { Fits other.old (net_of graph.now) }
    requires right { IsSimulated other.old (net_of graph.now) }
    ensures one { one.new ≡ one.old }
{
    for number in 0..6 * (GATES + 10) {
        if !same_lanes(one, other, graph, &fault_of(number)) {
            return false;
        }
    }
    true
}

// Whether the lanes agree with new ones, node by node and fault by fault.
fn lanes_agree(alloc: Global, graph: &Graph, lanes: &mut Lanes) -> Result<bool, NoMemory>
    requires fits { Fits lanes.old (net_of graph.now) }
    requires simulated { IsSimulated lanes.old (net_of graph.now) }
    ensures same { lanes.new ≡ lanes.old }
{
    let mut fresh = Lanes::new(alloc, graph)?;
    if graph.source_count() as usize != ALL.len() {
        return Ok(false);
    }
    fresh.simulate64(graph, &ALL);
    if !same_words(lanes, &fresh, graph.node_bound()) {
        return Ok(false);
    }
    Ok(same_at_all(lanes, &mut fresh, graph))
}

// Whether the blocks agree with new ones, fault by fault.
fn blocks_agree(alloc: Global, graph: &Graph, blocks: &mut Blocks) -> Result<bool, NoMemory>
    requires { AreSimulated blocks.old (net_of graph.now) }
    ensures same { blocks.new ≡ blocks.old }
{
    if graph.source_count() as usize != ALL.len() {
        return Ok(false);
    }
    let mut fresh = two_blocks(alloc, graph)?;
    for number in 0..6 * (GATES + 10) {
        if !same_vectors(blocks, &mut fresh, graph, &fault_of(number)) {
            return Ok(false);
        }
    }
    Ok(true)
}

// Whether both agree with new ones.
fn agree(
    alloc: Global,
    graph: &Graph,
    lanes: &mut Lanes,
    blocks: &mut Blocks,
) -> Result<bool, NoMemory>
    requires fits { Fits lanes.old (net_of graph.now) }
    requires simulated { IsSimulated lanes.old (net_of graph.now) }
    requires blocks { AreSimulated blocks.old (net_of graph.now) }
    ensures lanes { lanes.new ≡ lanes.old }
    ensures blocks { blocks.new ≡ blocks.old }
{
    Ok(lanes_agree(alloc, graph, lanes)? && blocks_agree(alloc, graph, blocks)?)
}

// Makes both follow.
fn follow(
    alloc: Global,
    graph: &Graph,
    lanes: &mut Lanes,
    blocks: &mut Blocks,
    changed: &[NodeId],
) -> Result<(), NoMemory>
    requires lanes { CanFollow lanes.old (net_of graph.now) (map (λ n. n.0) changed.now) }
    requires blocks { CanAllFollow blocks.old (net_of graph.now) (map (λ n. n.0) changed.now) }
    ensures fits { OnOk result (Fits lanes.new (net_of graph.now)) }
    ensures simulated { OnOk result (IsSimulated lanes.new (net_of graph.now)) }
    ensures blocks { OnOk result (AreSimulated blocks.new (net_of graph.now)) }
{
    lanes.follow(alloc, graph, changed)?;
    blocks.follow(alloc, graph, changed)
}

// Makes the edit and keeps it.
fn there(
    alloc: Global,
    graph: &mut Graph,
    lanes: &mut Lanes,
    blocks: &mut Blocks,
    undos: &mut Undos,
    edit: &Edit,
    changed: &[NodeId],
) -> Result<bool, NoMemory>
    requires can { CanEdit graph.old edit.now }
    requires entries { entries_for graph.old edit.now ≤ undos.old.spare }
    requires none { undos.old.entries ≡ [] }
    requires back { CanGoBack (wiring graph.old) [] }
    requires changed { (after : Circuit) → Edits graph.old edit.now after → IsSameBut (net_of graph.old) (net_of after) (map (λ n. n.0) changed.now) }
    requires fits { Fits lanes.old (net_of graph.old) }
    requires simulated { IsSimulated lanes.old (net_of graph.old) }
    requires blocks { AreSimulated blocks.old (net_of graph.old) }
    ensures fits { IfOk result (λ b. b ≡ true → Fits lanes.new (net_of graph.new)) }
    ensures simulated { IfOk result (λ b. b ≡ true → IsSimulated lanes.new (net_of graph.new)) }
    ensures blocks { IfOk result (λ b. b ≡ true → AreSimulated blocks.new (net_of graph.new)) }
    ensures pins { pins_taken graph.new ≤ pins_taken graph.old + 1 }
{
    let sources = graph.source_count();
    graph.edit(edit, undos);
    if graph.source_count() != sources {
        return Ok(false);
    }
    follow(alloc, graph, lanes, blocks, changed)?;
    graph.keep(undos);
    agree(alloc, graph, lanes, blocks)
}

// Makes the edit and undoes it.
fn there_and_back(
    alloc: Global,
    graph: &mut Graph,
    lanes: &mut Lanes,
    blocks: &mut Blocks,
    undos: &mut Undos,
    edit: &Edit,
    changed: &[NodeId],
) -> Result<bool, NoMemory>
    requires can { CanEdit graph.old edit.now }
    requires entries { entries_for graph.old edit.now ≤ undos.old.spare }
    requires none { undos.old.entries ≡ [] }
    requires back { CanGoBack (wiring graph.old) [] }
    requires changed { (after : Circuit) → Edits graph.old edit.now after → IsSameBut (net_of graph.old) (net_of after) (map (λ n. n.0) changed.now) }
    requires fits { Fits lanes.old (net_of graph.old) }
    requires simulated { IsSimulated lanes.old (net_of graph.old) }
    requires blocks { AreSimulated blocks.old (net_of graph.old) }
    ensures fits { IfOk result (λ b. b ≡ true → Fits lanes.new (net_of graph.new)) }
    ensures simulated { IfOk result (λ b. b ≡ true → IsSimulated lanes.new (net_of graph.new)) }
    ensures blocks { IfOk result (λ b. b ≡ true → AreSimulated blocks.new (net_of graph.new)) }
    ensures pins { pins_taken graph.new ≤ pins_taken graph.old + 1 }
{
    same_wiring();
    let sources = graph.source_count();
    graph.edit(edit, undos);
    if graph.source_count() != sources {
        return Ok(false);
    }
    follow(alloc, graph, lanes, blocks, changed)?;
    if !agree(alloc, graph, lanes, blocks)? {
        return Ok(false);
    }
    graph.undo(undos);
    follow(alloc, graph, lanes, blocks, changed)?;
    agree(alloc, graph, lanes, blocks)
}

// Makes the edit, and undoes it where that is asked; whether both agreed with new ones.
fn make(
    alloc: Global,
    graph: &mut Graph,
    lanes: &mut Lanes,
    blocks: &mut Blocks,
    undos: &mut Undos,
    edit: &Edit,
    back: bool,
) -> Result<bool, NoMemory>
    requires can { CanEdit graph.old edit.now }
    requires none { undos.old.entries ≡ [] }
    requires back { CanGoBack (wiring graph.old) [] }
    requires fits { Fits lanes.old (net_of graph.old) }
    requires simulated { IsSimulated lanes.old (net_of graph.old) }
    requires blocks { AreSimulated blocks.old (net_of graph.old) }
    ensures fits { IfOk result (λ b. b ≡ true → Fits lanes.new (net_of graph.new)) }
    ensures simulated { IfOk result (λ b. b ≡ true → IsSimulated lanes.new (net_of graph.new)) }
    ensures blocks { IfOk result (λ b. b ≡ true → AreSimulated blocks.new (net_of graph.new)) }
    ensures pins { pins_taken graph.new ≤ pins_taken graph.old + 1 }
{
    reserve_undos(graph, undos, edit)?;
    let changed = changed_by(alloc, graph, edit)?;
    let nodes = changed.as_slice();
    if back {
        return there_and_back(alloc, graph, lanes, blocks, undos, edit, nodes);
    }
    there(alloc, graph, lanes, blocks, undos, edit, nodes)
}

// Makes the edit, where it may be made, and undoes it where that is asked; whether both agreed with new ones.
fn step(
    alloc: Global,
    graph: &mut Graph,
    lanes: &mut Lanes,
    blocks: &mut Blocks,
    edit: &Edit,
    back: bool,
) -> Result<bool, NoMemory>
    requires fits { Fits lanes.old (net_of graph.old) }
    requires simulated { IsSimulated lanes.old (net_of graph.old) }
    requires blocks { AreSimulated blocks.old (net_of graph.old) }
    requires pins { pins_taken graph.old ≤ 1000000 }
    ensures fits { IfOk result (λ b. b ≡ true → Fits lanes.new (net_of graph.new)) }
    ensures simulated { IfOk result (λ b. b ≡ true → IsSimulated lanes.new (net_of graph.new)) }
    ensures blocks { IfOk result (λ b. b ≡ true → AreSimulated blocks.new (net_of graph.new)) }
    ensures pins { pins_taken graph.new ≤ pins_taken graph.old + 1 }
{
    if !few_nodes(graph) {
        return Ok(false);
    }
    graph.reserve(1, 1)?;
    if !may_edit(alloc, graph, edit)? {
        return Ok(true);
    }
    graph.leads_back();
    let mut undos = Undos::new(alloc);
    make(alloc, graph, lanes, blocks, &mut undos, edit, back)
}

// A drawn edit of the first numbers.
fn drawn_edit(draws: &mut Draws) -> Edit {
    let gate = NodeId(8 + draws.below(GATES));
    let driver = NodeId(draws.below(8 + GATES));
    let position = draws.below(3);
    match draws.below(9) {
        0 | 1 => Edit::Append { gate, driver },
        2 => Edit::Remove { gate, position },
        3 | 4 => Edit::Redrive {
            gate,
            position,
            driver,
        },
        5 => Edit::Redrive {
            gate,
            position,
            driver: NodeId(position % 2),
        },
        6 => Edit::Readers {
            from: gate,
            to: driver,
        },
        7 => Edit::NewNot { driver },
        _ => Edit::Retire { gate },
    }
}

// Whether lanes and blocks agree with new ones through twenty edits of a net.
fn follows(alloc: Global, graph: &mut Graph, seed: u64) -> Result<bool, NoMemory>
    requires { pins_taken graph.old ≤ 300000 }
{
    let mut lanes = Lanes::new(alloc, graph)?;
    if graph.source_count() as usize != ALL.len() {
        return Ok(false);
    }
    lanes.simulate64(graph, &ALL);
    let mut blocks = two_blocks(alloc, graph)?;
    let mut draws = Draws::new(seed);
    for number in 0..20u32 {
        let edit = drawn_edit(&mut draws);
        if !step(
            alloc,
            graph,
            &mut lanes,
            &mut blocks,
            &edit,
            number % 2 == 1,
        )? {
            return Ok(false);
        }
    }
    Ok(true)
}

fn is_right(alloc: Global, seed: u64) -> Result<bool, Fail> {
    let mut graph = drawn_net(alloc, 6, seed)?;
    Ok(follows(alloc, &mut graph, seed)?)
}

#[test]
fn edited_nets(rt: HostRuntime) -> Result<(), Fail> {
    for seed in 1..51u64 {
        assert!(rt; is_right(rt.alloc(), seed)?, "at seed {seed}");
    }
    Ok(())
}
