//! A script of calls, with every list compared after every call.
ghost use Rattle.std.specs.Prelude.{◌≡◌, ◌≤◌, ◌<◌, ◌+◌, ℕ, IfSome, Some, slice_get};
ghost use Rattle.std.specs.FinSet as set;
ghost use Rattle.pin_pool.specs.Pins.{admitted};
ghost use Rattle.pin_pool.specs.Rings.{IsLinked, rings_of};

use crate::plain_lists::Lists;
use pin_pool::{Full, PinIter, PinNo, Pool};
use std::alloc::{AllocError, Global};
use std::test::Fail;

const NODES: u32 = 5;

#[derive(Clone, Copy)]
enum Step {
    // take, link
    Add(u32, u32),
    // unlink_at, give_back
    Drop(u32, u32),
    // unlink, reserve, relink
    Again(u32, u32, u32),
    // move_to_driver
    Redrive(u32, u32, u32),
    // move_to_driver, restore_driver
    There(u32, u32, u32),
    // move_all
    Move(u32, u32),
    // move_all, reserve, move_back
    Back(u32, u32, u32),
}

const SCRIPT: [Step; 57] = [
    Step::Again(0, 0, 6),
    Step::Add(0, 1),
    Step::Add(0, 2),
    Step::Add(0, 1),
    Step::Add(1, 1),
    Step::Add(1, 2),
    Step::Add(2, 1),
    Step::Add(3, 3),
    Step::Again(0, 0, 7),
    Step::Again(0, 1, 8),
    Step::Again(0, 2, 9),
    Step::Again(3, 0, 10),
    Step::There(0, 0, 2),
    Step::There(0, 1, 2),
    Step::There(1, 0, 1),
    Step::Redrive(1, 0, 4),
    Step::Redrive(0, 2, 1),
    Step::Redrive(0, 0, 1),
    Step::Back(1, 2, 14),
    Step::Back(2, 1, 15),
    Step::Back(0, 1, 16),
    Step::Back(1, 0, 17),
    Step::Move(1, 2),
    Step::Add(4, 1),
    Step::Again(2, 0, 11),
    Step::Move(2, 4),
    Step::Drop(0, 1),
    Step::Drop(0, 0),
    Step::Add(0, 4),
    Step::Add(4, 4),
    Step::Again(0, 1, 12),
    Step::There(4, 1, 4),
    Step::There(4, 0, 3),
    Step::Back(4, 3, 18),
    Step::Back(3, 4, 19),
    Step::Drop(3, 0),
    Step::Move(4, 0),
    Step::Redrive(1, 1, 3),
    Step::Redrive(1, 0, 3),
    Step::Back(3, 1, 20),
    Step::Add(2, 0),
    Step::Add(2, 3),
    Step::Add(2, 3),
    Step::Again(2, 1, 13),
    Step::Drop(2, 2),
    Step::Drop(2, 0),
    Step::Add(4, 1),
    Step::Add(4, 2),
    Step::Add(4, 1),
    Step::Drop(4, 1),
    Step::Drop(4, 1),
    Step::Drop(4, 0),
    Step::Add(4, 3),
    Step::Add(4, 0),
    Step::Drop(4, 0),
    Step::Drop(4, 1),
    Step::Drop(4, 0),
];

#[derive(Drop)]
struct Plain {
    inputs: Lists,
    fanouts: Lists,
}

// Whether the pins are those of the list from a place on.
fn equal(pins: PinIter<'_>, list: &[u32], from: usize) -> bool {
    let mut at = from.min(list.len());
    for pin in pins {
        if at >= list.len() {
            return false;
        }
        if list[at] != pin.0 {
            return false;
        }
        at += 1;
    }
    at == list.len()
}

// Whether every list is the same.
fn same(pool: &Pool, plain: &Plain) -> bool
    requires { NODES ≤ admitted pool.now }
{
    for node in 0..NODES {
        if !equal(pool.inputs(node), plain.inputs.node(node), 0) {
            return false;
        }
        if !equal(pool.fanouts(node), plain.fanouts.node(node), 0) {
            return false;
        }
        for from in 0..5 {
            if !equal(
                pool.inputs_from(node, from),
                plain.inputs.node(node),
                from as usize,
            ) {
                return false;
            }
        }
    }
    true
}

// The pin at a position of a gate.
fn input(pool: &Pool, gate: u32, position: u32) -> Option<PinNo>
    requires { gate < admitted pool.now }
    ensures there { IfSome result (λ pin. slice_get ((rings_of pool.now).inputs gate) position ≡ Some pin.0) }
    ensures linked { IfSome result (λ pin. IsLinked (rings_of pool.now) pin.0) }
{
    let mut pins = pool.inputs_from(gate, position);
    match pins.next() {
        Some(pin) => Some(pin),
        None => None,
    }
}

fn add(pool: &mut Pool, plain: &mut Plain, gate: u32, driver: u32) -> Result<bool, AllocError>
    requires nodes { NODES ≤ admitted pool.old }
    requires gate { gate < NODES }
    requires driver { driver < NODES }
    ensures { NODES ≤ admitted pool.new }
{
    let spare = pool.spare();
    let Ok(pin) = pool.take() else {
        return Ok(spare == 0);
    };
    let taken = same(pool, plain);
    pool.link(pin, gate, driver);
    plain.inputs.push(gate, pin.0)?;
    plain.fanouts.push(driver, pin.0)?;
    let places = pool.gate_of(pin) == gate && pool.driver_of(pin) == driver;
    Ok(taken && places && same(pool, plain) && spare.saturating_sub(pool.spare()) == 1)
}

fn drop_input(pool: &mut Pool, plain: &mut Plain, gate: u32, position: u32) -> bool
    requires nodes { NODES ≤ admitted pool.old }
    requires gate { gate < NODES }
    ensures { NODES ≤ admitted pool.new }
{
    let Some(pin) = input(pool, gate, position) else {
        return false;
    };
    let spare = pool.spare();
    let _slot = pool.unlink_at(pin, gate, position);
    plain.inputs.remove(pin.0);
    plain.fanouts.remove(pin.0);
    let unlinked = same(pool, plain);
    pool.give_back(pin);
    unlinked && same(pool, plain) && pool.spare().saturating_sub(spare) == 1
}

fn unlink_and_relink(
    pool: &mut Pool,
    plain: &mut Plain,
    gate: u32,
    position: u32,
    nodes: u32,
) -> Result<bool, AllocError>
    requires nodes { NODES ≤ admitted pool.old }
    requires gate { gate < NODES }
    ensures { NODES ≤ admitted pool.new }
{
    let Some(pin) = input(pool, gate, position) else {
        return Ok(position == 0);
    };
    let in_gate = plain.inputs.place(pin.0);
    let in_driver = plain.fanouts.place(pin.0);
    let slot = pool.unlink(pin);
    plain.inputs.remove(pin.0);
    plain.fanouts.remove(pin.0);
    let unlinked = same(pool, plain);
    let room = pool.reserve(0, nodes as usize).is_ok();
    pool.relink(pin, slot);
    plain.inputs.insert(in_gate, pin.0)?;
    plain.fanouts.insert(in_driver, pin.0)?;
    Ok(room && unlinked && same(pool, plain))
}

fn redrive(
    pool: &mut Pool,
    plain: &mut Plain,
    gate: u32,
    position: u32,
    driver: u32,
    back: bool,
) -> Result<bool, AllocError>
    requires nodes { NODES ≤ admitted pool.old }
    requires gate { gate < NODES }
    requires driver { driver < NODES }
    ensures { NODES ≤ admitted pool.new }
{
    let Some(pin) = input(pool, gate, position) else {
        return Ok(false);
    };
    let place = plain.fanouts.place(pin.0);
    let slot = pool.move_to_driver(pin, driver);
    plain.fanouts.remove(pin.0);
    plain.fanouts.push(driver, pin.0)?;
    let moved = same(pool, plain);
    if back {
        pool.restore_driver(pin, slot);
        plain.fanouts.remove(pin.0);
        plain.fanouts.insert(place, pin.0)?;
    }
    Ok(moved && same(pool, plain))
}

fn move_fanouts(
    alloc: Global,
    pool: &mut Pool,
    plain: &mut Plain,
    from: u32,
    to: u32,
    back: Option<u32>,
) -> Result<bool, AllocError>
    requires nodes { NODES ≤ admitted pool.old }
    requires from { from < NODES }
    requires to { to < NODES }
    ensures { NODES ≤ admitted pool.new }
{
    if from == to {
        return Ok(false);
    }
    let splice = pool.move_all(from, to);
    let had = plain.fanouts.node(to).len();
    let pins = plain.fanouts.cut(alloc, from, 0)?;
    plain.fanouts.extend(to, &pins)?;
    let moved = same(pool, plain);
    let mut room = true;
    if let Some(nodes) = back {
        room = pool.reserve(0, nodes as usize).is_ok();
        pool.move_back(splice);
        let rest = plain.fanouts.cut(alloc, to, had)?;
        plain.fanouts.extend(from, &rest)?;
    }
    Ok(room && moved && same(pool, plain))
}

fn make(alloc: Global, pool: &mut Pool, plain: &mut Plain, step: Step) -> Result<bool, AllocError>
    requires { NODES ≤ admitted pool.old }
    ensures { NODES ≤ admitted pool.new }
{
    match step {
        Step::Add(gate, driver) => add(pool, plain, gate % NODES, driver % NODES),
        Step::Drop(gate, position) => Ok(drop_input(pool, plain, gate % NODES, position)),
        Step::Again(gate, position, nodes) => {
            unlink_and_relink(pool, plain, gate % NODES, position, nodes)
        }
        Step::Redrive(gate, position, driver) => {
            redrive(pool, plain, gate % NODES, position, driver % NODES, false)
        }
        Step::There(gate, position, driver) => {
            redrive(pool, plain, gate % NODES, position, driver % NODES, true)
        }
        Step::Move(from, to) => { move_fanouts(alloc, pool, plain, from % NODES, to % NODES, None) }
        Step::Back(from, to, nodes) => {
            let back = Some(nodes);
            move_fanouts(alloc, pool, plain, from % NODES, to % NODES, back)
        }
    }
}

// Makes the steps of the script. Fails at the first after which a list is another.
fn make_all(alloc: Global, pool: &mut Pool, plain: &mut Plain) -> Result<(), Fail>
    requires { NODES ≤ admitted pool.old }
{
    for at in 0..SCRIPT.len() {
        if !make(alloc, pool, plain, SCRIPT[at])? {
            return Err(Fail::new(format_args!("at step {at}")));
        }
    }
    Ok(())
}

// Takes so many pins, if there are as many.
fn take_all(pool: &mut Pool, count: u32) {
    for _ in 0..count {
        let _pin = pool.take();
    }
}

#[test]
fn script(rt: HostRuntime) -> Result<(), Fail> {
    let alloc = rt.alloc();
    let mut pool = Pool::new(alloc);
    let mut plain = Plain {
        inputs: Lists::new(alloc, NODES)?,
        fanouts: Lists::new(alloc, NODES)?,
    };
    pool.reserve(12, 5)?;
    assert_eq!(rt; pool.spare(), 12);
    make_all(alloc, &mut pool, &mut plain)?;
    take_all(&mut pool, 12);
    assert_eq!(rt; pool.take(), Err(Full));
    Ok(())
}

// Room for one pin of two nodes: what is spare is taken, and one more isn't given.
#[test]
fn one_pin_more_than_is_spare(rt: HostRuntime) -> Result<(), Fail> {
    let mut pool = Pool::new(rt.alloc());
    pool.reserve(1, 2)?;
    let spare = pool.spare();
    assert!(rt; spare >= 1, "{spare} spare");
    for at in 0..spare {
        assert!(rt; pool.take().is_ok(), "pin {at}");
    }
    assert_eq!(rt; pool.take(), Err(Full));
    Ok(())
}
