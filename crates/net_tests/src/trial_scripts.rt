//! A script of calls on a trial, and what is left after a rollback.
use crate::trials::{begin_trial, trial_of};
use gate_graph::Graph;
use gate_net::Kind;
use rm_base::{NoMemory, NodeId};
use std::alloc::Global;
use std::test::Fail;
use test_nets::worked::FOUR_GATES;
use test_nets::{build_net, is_live};
use wire_edit::{Room, Seen, Step, Trial, first_rule, first_rule_by};

// The next number of a fixed sequence.
fn draw_number(number: u32) -> u32 {
    number.wrapping_mul(1_664_525).wrapping_add(1_013_904_223)
}

fn step_of(number: u32) -> Step {
    let gate = NodeId(4 + (number >> 8 & 7));
    let node = NodeId(number >> 16 & 15);
    let position = number >> 24 & 1;
    match number >> 28 {
        0 | 1 => Step::Fix {
            gate,
            position,
            value: number & 128 == 0,
        },
        2 | 3 => Step::NewNot { node },
        4 | 5 => Step::Const { gate, position },
        6 => Step::Same { gate, position },
        7 => Step::NoPins { gate },
        8 => Step::OnePin { gate },
        9 => Step::Twice { gate },
        10 => Step::Twin { gate, other: node },
        11 => Step::Dead { gate },
        _ => Step::Add { gate, node },
    }
}

// How many steps of the script are made, with a step of the tidying order now and then.
pub(crate) fn play(trial: &mut Trial, seed: u32, calls: u32) -> (u32, u32) {
    let mut number = seed;
    let mut made = 0u32;
    let mut refused = 0u32;
    for _ in 0..calls {
        number = draw_number(number);
        if trial.apply(step_of(number)).is_ok() {
            made = made.saturating_add(1);
        } else {
            refused = refused.saturating_add(1);
        }
        if refused & 31 == 31 {
            let _step = trial.tidy_one();
        }
    }
    (made, refused)
}

fn push_place(list: &mut Vec<u32>, gate: u32, position: u32) -> Result<(), NoMemory> {
    list.push(gate)?;
    list.push(position)?;
    Ok(())
}

// A number for the kind of a node.
fn kind_number(graph: &Graph, node: NodeId) -> u32 {
    match graph.kind(node) {
        None => 0,
        Some(Kind::Source) => 1,
        Some(Kind::Zero) => 2,
        Some(Kind::One) => 3,
        Some(Kind::And) => 4,
        Some(Kind::Or) => 5,
        Some(Kind::Not) => 6,
        Some(Kind::Xor) => 7,
    }
}

// The kind of a node, its drivers, and its readers in order, each list with a mark at its end.
fn push_node(list: &mut Vec<u32>, graph: &Graph, node: NodeId) -> Result<(), NoMemory> {
    if !is_live(graph, node) {
        return push_place(list, u32::MAX, 0);
    }
    list.push(kind_number(graph, node))?;
    for driver in graph.inputs_of(node) {
        list.push(driver.0)?;
    }
    list.push(u32::MAX)?;
    for (gate, position) in graph.fanouts_of(node) {
        push_place(list, gate.0, position)?;
    }
    push_place(list, u32::MAX, 1)
}

// All that is told of a graph: pins, readers in order, observed places and the epoch.
pub(crate) fn list_all(alloc: Global, graph: &Graph) -> Result<Vec<u32>, NoMemory> {
    let mut list = Vec::new(alloc);
    for number in 0..graph.node_bound() {
        push_node(&mut list, graph, NodeId(number))?;
    }
    for node in graph.observed_points() {
        list.push(node.0)?;
    }
    list.push(graph.wire_count())?;
    list.push(graph.gate_count())?;
    Ok(list)
}

#[test]
fn script_and_back(rt: HostRuntime) -> Result<(), Fail> {
    let alloc = rt.alloc();
    let graph = build_net(alloc, &FOUR_GATES)?;
    let before = list_all(alloc, &graph)?;
    let mut trial = begin_trial(alloc, graph, 10)?;
    let (made, refused) = play(&mut trial, 7, 400);
    assert!(rt; made > 10 && refused > 100 && trial.steps().len() > 10);
    let graph = trial.rollback();
    let after = list_all(alloc, &graph)?;
    assert!(rt; before.as_slice() == after.as_slice() && graph.epoch() == 0);
    Ok(())
}

// Whether both searches for a rule give the same, at every step until the net is tidy.
fn agree(trial: &mut Trial, seen: &mut Seen, steps: u32) -> bool {
    for _ in 0..steps {
        if trial.graph().node_bound() as usize > seen.numbers() {
            return false;
        }
        let slow = first_rule(trial.graph());
        let fast = first_rule_by(trial.graph(), seen);
        if slow != fast {
            return false;
        }
        match trial.tidy_one() {
            Ok(step) => {
                if step != slow {
                    return false;
                }
            }
            Err(_) => return false,
        }
    }
    true
}

// A trial of the four gates that begins as one of a tidy net.
pub(crate) fn begun_tidy(alloc: Global) -> Result<Trial, Fail> {
    let graph = build_net(alloc, &FOUR_GATES)?;
    if first_rule(&graph).is_some() {
        return Err("not tidy".into());
    }
    let room = Room {
        pins: 2,
        nodes: 1,
        steps: 40,
    };
    match Trial::begin_tidy(alloc, graph, room) {
        Ok(trial) => Ok(trial),
        Err(_) => Err("no trial".into()),
    }
}

// Fixes the first pin of each gate; whether all were made, and the net isn't tidy then.
fn fix_all(trial: &mut Trial) -> bool {
    for number in 6..10 {
        let fix = Step::Fix {
            gate: NodeId(number),
            position: 0,
            value: number != 7,
        };
        if trial.apply(fix).is_err() {
            return false;
        }
    }
    first_rule(trial.graph()).is_some()
}

// Whether the searches give the same from there on until the net is tidy.
fn fixed_and_tidied(alloc: Global, trial: &mut Trial) -> Result<bool, Fail> {
    let mut seen = Seen::new(alloc, 64)?;
    if !fix_all(trial) {
        return Ok(false);
    }
    Ok(agree(trial, &mut seen, 20) && first_rule(trial.graph()).is_none())
}

fn agree_on(alloc: Global, begun: Trial) -> Result<bool, Fail> {
    let mut trial = begun;
    fixed_and_tidied(alloc, &mut trial)
}

#[test]
fn searches_agree(rt: HostRuntime) -> Result<(), Fail> {
    let alloc = rt.alloc();
    assert!(rt; agree_on(alloc, trial_of(alloc, &FOUR_GATES, 10)?)?);
    assert!(rt; agree_on(alloc, begun_tidy(alloc)?)?);
    Ok(())
}

#[test]
fn nothing_made(rt: HostRuntime) -> Result<(), Fail> {
    let alloc = rt.alloc();
    let mut trial = trial_of(alloc, &FOUR_GATES, 10)?;
    assert!(rt; trial.apply(Step::Dead { gate: NodeId(6) }).is_err());
    assert!(rt; matches!(trial.tidy_one(), Ok(None)));
    assert!(rt; trial.commit().epoch() == 0);
    Ok(())
}
