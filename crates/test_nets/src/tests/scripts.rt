//! Scripts of edits, with every list compared with a plain net.
ghost use Rattle.std.specs.Prelude.{◌+◌, ◌≤◌};
ghost use Rattle.gate_graph.specs.Circuit.{live_nodes, pins_taken};

use super::comparing::{are_same, drivers, readers};
use super::draws::{Draw, Tally};
use super::edited::EditedNet;
use super::plain_net::PlainNet;
use crate::building::NetBuilder;
use crate::wiring::{Gate, Wiring};
use crate::worked::FOUR_GATES;
use gate_graph::{Edit, Graph};
use rm_base::{NoMemory, NodeId};
use std::alloc::Global;
use std::test::Fail;

// A net that grows in both forms.
#[derive(Drop)]
struct BothNets {
    net: NetBuilder,
    plain: PlainNet,
}

impl BothNets {
    fn new(alloc: Global, sources: u32) -> Result<BothNets, Fail> {
        Ok(BothNets {
            net: NetBuilder::new(alloc, sources)?,
            plain: PlainNet::new(alloc, sources)?,
        })
    }

    fn add(&mut self, gate: Gate) -> Result<(), Fail> {
        self.net.add(gate)?;
        self.plain.add(gate)?;
        Ok(())
    }

    fn observe(&mut self, node: u32) -> Result<(), Fail> {
        self.net.observe(node)?;
        self.plain.append(0, node)?;
        Ok(())
    }
}

// The net of a table.
fn both_wired(alloc: Global, wiring: &Wiring) -> Result<BothNets, Fail> {
    let mut nets = BothNets::new(alloc, wiring.sources)?;
    for gate in wiring.gates {
        nets.add(*gate)?;
    }
    for node in wiring.observed {
        nets.observe(*node)?;
    }
    Ok(nets)
}

// So many Ands, as many Ors, and twice as many Xors of drawn drivers, with a drawn node observed after each four.
fn both_drawn(alloc: Global, draw: &mut Draw, count: u32) -> Result<BothNets, Fail> {
    let mut nets = BothNets::new(alloc, 4)?;
    let mut bound = 6u32;
    for _ in 0..count {
        nets.add(Gate::And(&[draw.node(bound).0, draw.node(bound).0]))?;
        nets.add(Gate::Or(&[draw.node(bound).0, draw.node(bound).0]))?;
        nets.add(Gate::Xor(draw.node(bound).0, draw.node(bound).0))?;
        nets.add(Gate::Xor(draw.node(bound).0, draw.node(bound).0))?;
        nets.observe(draw.node(bound).0)?;
        bound = bound.saturating_add(4);
    }
    Ok(nets)
}

// The net that is edited, the one that it is compared with, the next draws, and how many edits were made.
#[derive(Drop)]
struct Script {
    edited: EditedNet,
    plain: PlainNet,
    draw: Draw,
    tally: Tally,
}

impl Script {
    fn new(alloc: Global, nets: BothNets, draw: Draw) -> Script {
        let BothNets { net, plain } = nets;
        Script {
            edited: EditedNet::new(alloc, net.finish()),
            plain,
            draw,
            tally: Tally::new(),
        }
    }

    // Makes one edit on both nets, where it may be made, and tells whether both nets are the same then.
    fn step(&mut self, alloc: Global, edit: &Edit) -> Result<bool, Fail> {
        if !self.edited.try_edit(alloc, edit)? {
            return Ok(true);
        }
        self.tally.count(edit);
        self.plain.edit(alloc, edit)?;
        Ok(are_same(alloc, self.edited.graph(), &self.plain)?)
    }

    // Tries so many drawn edits, and tells whether both nets were the same after each.
    fn run(&mut self, alloc: Global, count: u32) -> Result<bool, Fail> {
        for _ in 0..count {
            let edit = self.draw.edit(self.edited.graph().node_bound());
            if !self.step(alloc, &edit)? {
                return Ok(false);
            }
        }
        Ok(true)
    }

    // Makes these edits, and tells whether both nets were the same after each.
    fn make(&mut self, alloc: Global, edits: &[Edit]) -> Result<bool, Fail> {
        for edit in edits {
            if !self.step(alloc, edit)? {
                return Ok(false);
            }
        }
        Ok(true)
    }
}

const TABLE: [Edit; 8] = [
    Edit::Append {
        gate: NodeId(9),
        driver: NodeId(2),
    },
    Edit::Remove {
        gate: NodeId(9),
        position: 0,
    },
    Edit::Readers {
        from: NodeId(6),
        to: NodeId(7),
    },
    Edit::Redrive {
        gate: NodeId(7),
        position: 0,
        driver: NodeId(3),
    },
    Edit::NewNot { driver: NodeId(9) },
    Edit::Readers {
        from: NodeId(9),
        to: NodeId(3),
    },
    Edit::Retire { gate: NodeId(6) },
    Edit::NewNot { driver: NodeId(2) },
];

// The net of four gates after the edits of the table.
fn edit_net(alloc: Global) -> Result<Script, Fail> {
    let mut script = Script::new(alloc, both_wired(alloc, &FOUR_GATES)?, Draw { state: 1 });
    if !script.make(alloc, &TABLE)? {
        return Err("another net".into());
    }
    if script.tally.sum() != 8 {
        return Err("not all edits were made".into());
    }
    Ok(script)
}

// The drivers and the readers of each number after the edits of the table, by hand.
const DRIVERS: [&[u32]; 9] = [&[], &[], &[], &[], &[2], &[3, 4], &[7, 7], &[5, 2], &[3]];

const READERS: [&[(u32, u32)]; 9] = [
    &[(9, 1), (6, 0)],
    &[(7, 0), (10, 0)],
    &[(7, 1)],
    &[(9, 0)],
    &[],
    &[(8, 1), (8, 0)],
    &[],
    &[],
    &[],
];

// Whether the lists of the numbers from 2 on are those by hand.
fn is_by_hand(alloc: Global, graph: &Graph) -> Result<bool, NoMemory> {
    for at in 0..9usize {
        if drivers(alloc, graph, at as u32 + 2)?.as_slice() != DRIVERS[at] {
            return Ok(false);
        }
        if readers(alloc, graph, at as u32 + 2)?.as_slice() != READERS[at] {
            return Ok(false);
        }
    }
    Ok(true)
}

// Whether the net is what the table makes of the four gates.
fn is_edited(alloc: Global, graph: &Graph) -> Result<bool, NoMemory> {
    if graph.observed_count() != 1 {
        return Ok(false);
    }
    if !graph.is_observed(NodeId(3)) {
        return Ok(false);
    }
    is_by_hand(alloc, graph)
}

// Whether undoing gives the four gates back.
fn goes_back(alloc: Global, edited: &mut EditedNet) -> Result<bool, Fail> {
    edited.undo();
    let before = both_wired(alloc, &FOUR_GATES)?;
    Ok(are_same(alloc, edited.graph(), &before.plain)?)
}

// Whether a copy stays as it was when the edits are undone.
fn copy_stays(alloc: Global, script: &mut Script) -> Result<bool, Fail> {
    let copy = script.edited.graph().copy(alloc)?;
    if !goes_back(alloc, &mut script.edited)? {
        return Ok(false);
    }
    if !is_edited(alloc, &copy)? {
        return Ok(false);
    }
    Ok(are_same(alloc, &copy, &script.plain)?)
}

#[test]
fn edits_are_those_of_the_table(rt: HostRuntime) -> Result<(), Fail> {
    let mut script = edit_net(rt.alloc())?;
    assert!(rt; is_edited(rt.alloc(), script.edited.graph())?);
    assert!(rt; copy_stays(rt.alloc(), &mut script)?);
    Ok(())
}

// Whether edits are kept once, also where that is asked twice.
fn is_kept(alloc: Global, net: &mut EditedNet) -> Result<bool, NoMemory> {
    if !net.graph().is_fresh(0) {
        return Ok(false);
    }
    net.keep();
    if net.graph().is_fresh(0) {
        return Ok(false);
    }
    if !net.graph().is_fresh(1) {
        return Ok(false);
    }
    net.keep();
    if net.graph().epoch() != 1 {
        return Ok(false);
    }
    is_by_hand(alloc, net.graph())
}

#[test]
fn kept_edits_stay(rt: HostRuntime) -> Result<(), Fail> {
    let mut script = edit_net(rt.alloc())?;
    assert!(rt; is_kept(rt.alloc(), &mut script.edited)?);
    let copy = script.edited.graph().copy(rt.alloc())?;
    assert_eq!(rt; copy.epoch(), 1);
    Ok(())
}

// Whether both nets are the same through a thousand drawn edits, some of each kind, with more room after the first half.
fn runs(alloc: Global, script: &mut Script) -> Result<bool, Fail> {
    if !script.run(alloc, 500)? {
        return Ok(false);
    }
    script.edited.reserve(100, 100)?;
    if !script.run(alloc, 500)? {
        return Ok(false);
    }
    Ok(script.tally.least() >= 10)
}

// Whether undoing gives the net before back.
fn is_undone(alloc: Global, edited: &mut EditedNet, before: &PlainNet) -> Result<bool, NoMemory> {
    edited.undo();
    if edited.graph().epoch() != 0 {
        return Ok(false);
    }
    are_same(alloc, edited.graph(), before)
}

#[test]
fn undo_gives_all_back(rt: HostRuntime) -> Result<(), Fail> {
    let mut draw = Draw { state: 1 };
    let nets = both_drawn(rt.alloc(), &mut draw, 12)?;
    let before = nets.plain.copy(rt.alloc())?;
    let mut script = Script::new(rt.alloc(), nets, draw);
    assert!(rt; are_same(rt.alloc(), script.edited.graph(), &before)?);
    assert!(rt; runs(rt.alloc(), &mut script)?);
    assert!(rt; is_undone(rt.alloc(), &mut script.edited, &before)?);
    Ok(())
}
