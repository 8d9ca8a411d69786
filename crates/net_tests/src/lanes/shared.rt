// Faults of drawn nets: with notes that all faults of a net share, lanes tell what they tell without.
ghost use Rattle.std.specs.Prelude.{◌≡◌};
ghost use Rattle.gate_graph.specs.Circuit.{net_of};
ghost use Rattle.fault_sim.specs.LaneStates.{Fits, IsSimulated};
ghost use Rattle.fault_sim.specs.Observing.{AreObservabilities};

use super::drawn::{ALL, GATES, drawn_net};
use fault_sim::{Lanes, Observabilities};
use gate_graph::{Graph, Question};
use rm_base::{Fault, NodeId};
use std::alloc::Global;
use std::test::Fail;

// Whether the lanes tell the same of a fault, where its gate has the pin.
fn tell_same(lanes: &mut Lanes, notes: &mut Observabilities, graph: &Graph, fault: &Fault) -> bool
    requires fits { Fits lanes.old (net_of graph.now) }
    requires simulated { IsSimulated lanes.old (net_of graph.now) }
    requires right { AreObservabilities notes.old (net_of graph.now) lanes.old.words }
    ensures same { lanes.new ≡ lanes.old }
    ensures right { AreObservabilities notes.new (net_of graph.now) lanes.old.words }
{
    let Some(_) = graph.driver(fault.gate, fault.position) else {
        return true;
    };
    let question = Question {
        graph,
        fault: *fault,
    };
    let alone = lanes.detect(&question);
    let first = lanes.first_detecting(&question);
    lanes.detect_sharing(&question, notes) == alone
        && lanes.first_detecting_sharing(&question, notes) == first
}

// Whether they do for each fault of a net, of which so many numbers may be noted.
fn all_same(alloc: Global, graph: &Graph, room: usize) -> Result<bool, Fail> {
    if graph.source_count() as usize != ALL.len() {
        return Err("other sources".into());
    }
    let mut lanes = Lanes::new(alloc, graph)?;
    let mut notes = Observabilities::new(alloc, room)?;
    lanes.simulate64(graph, &ALL);
    for number in 0..6 * GATES {
        let fault = Fault {
            gate: NodeId(8 + number / 6),
            position: number % 3,
            value: number % 6 < 3,
        };
        if !tell_same(&mut lanes, &mut notes, graph, &fault) {
            return Ok(false);
        }
    }
    Ok(true)
}

#[test]
fn shared_notes(rt: HostRuntime) -> Result<(), Fail> {
    for seed in 1..31u64 {
        let graph = drawn_net(rt.alloc(), 6, seed)?;
        // All numbers, half of them, or none.
        let room = (seed % 3) as usize * (8 + GATES as usize) / 2;
        assert!(rt; all_same(rt.alloc(), &graph, room)?, "at seed {seed}");
    }
    Ok(())
}
