// The walk through all instances, depth first, with a stack of its own.
ghost use Rattle.std.specs.Prelude.{◌≡◌, ◌≢◌, ◌<◌, ◌≤◌, ◌+◌, ◌^◌, [], ◌∷◌, ◌++◌, length, reverse, slice_get, ℕ, IfSome, IfOk, OnOk, None, Some, Option, List};
ghost use Rattle.blif_flatten.specs.Instances.{instance_count, whole};
ghost use Rattle.blif_flatten.specs.declared.pieces.Pieces.{Pieces as PiecesValue};
ghost use Rattle.blif_flatten.specs.Inner.Walk.{Steps, after, closing, entered, inner, joined, no_pieces, pieces_in};
ghost use Rattle.blif_flatten.specs.Laws.{AreRankedBy};
ghost use Rattle.blif_flatten.specs.Recursion.{links_of};

use crate::modules::{Link, Module};
use crate::pieces::{Pieces, push_before, push_behind, push_own};
use rm_base::NoMemory;
use std::alloc::Global;

/// The call that made an instance: the calling module, the place of the call in it and the number of the calling instance.
#[derive(Clone, Copy)]
pub struct Caller {
    pub called: usize,
    pub link: usize,
    pub instance: usize,
}

/// An instance some of whose calls are done: its module, the next call and its number.
#[derive(Clone, Copy)]
pub struct Frame {
    pub called: usize,
    pub next: usize,
    pub instance: usize,
    pub caller: Option<Caller>,
}

fn links_at(modules: &[Module], at: usize) -> &[Link]
    ensures { result.now ≡ links_of modules.now at }
{
    match modules.get(at) {
        Some(module) => module.links.items(),
        None => &[],
    }
}

// A call of a module.
fn link_at(modules: &[Module], called: usize, link: usize) -> Option<&Link>
    ensures some { IfSome result (λ l. slice_get (links_of modules.now called) link ≡ Some l.now) }
    ensures none { result ≡ None → slice_get (links_of modules.now called) link ≡ None }
    ensures bound { IfSome result (λ l. link < 2 ^ 63) }
{
    links_at(modules, called).get(link)
}

// Adds what is due when the calls of a frame are done.
fn close(
    alloc: Global,
    modules: &[Module],
    lead: &[u8],
    frame: Frame,
    out: &mut Pieces,
) -> Result<(), NoMemory>
    ensures { OnOk result (out.new ≡ joined out.old (closing lead.now modules.now frame)) }
{
    let Some(caller) = frame.caller else {
        return Ok(());
    };
    match link_at(modules, caller.called, caller.link) {
        Some(link) => push_behind(alloc, lead, caller.instance, frame.instance, link, out),
        None => Ok(()),
    }
}

// Adds the instance of the next call of a frame, and puts its frame above that of the caller.
fn enter(
    alloc: Global,
    lead: &[u8],
    frame: Frame,
    link: &Link,
    inside: &Module,
    number: usize,
    stack: &mut Vec<Frame>,
    out: &mut Pieces,
) -> Result<(), NoMemory>
    requires { frame.next < 2 ^ 63 }
    ensures pieces { OnOk result (out.new ≡ joined out.old (entered lead.now frame.instance number link.now inside.now)) }
    ensures stack { OnOk result (stack.new.items ≡ (stack.old.items ++ after frame ∷ []) ++ inner number frame link.now ∷ []) }
{
    push_before(alloc, lead, frame.instance, number, link, out)?;
    push_own(alloc, lead, number, inside, out)?;
    stack.push(Frame {
        called: frame.called,
        next: frame.next + 1,
        instance: frame.instance,
        caller: frame.caller,
    })?;
    stack.push(Frame {
        called: link.called,
        next: 0,
        instance: number,
        caller: Some(Caller {
            called: frame.called,
            link: frame.next,
            instance: frame.instance,
        }),
    })?;
    Ok(())
}

// Takes the last frame a step on.
#[tactic(auto, using(crate::proofs::Walks::known_call))]
fn take_frame(
    alloc: Global,
    modules: &[Module],
    lead: &[u8],
    frame: Frame,
    number: usize,
    stack: &mut Vec<Frame>,
    out: &mut Pieces,
) -> Result<usize, NoMemory>
    requires ranked { (rank : ℕ → ℕ) × AreRankedBy modules.now rank }
    requires few { number < 2 ^ 63 }
    ensures { IfOk result (λ n. (done : PiecesValue) × ((out.new ≡ joined out.old done) × Steps lead.now modules.now number frame (reverse stack.old.items) done n (reverse stack.new.items))) }
{
    match link_at(modules, frame.called, frame.next) {
        None => {
            close(alloc, modules, lead, frame, out)?;
            Ok(number)
        }
        Some(link) => {
            let inside = &modules[link.called];
            enter(alloc, lead, frame, link, inside, number, stack, out)?;
            Ok(number + 1)
        }
    }
}

/// What all instances but the top bring to the flat model, and how many instances there are with the top.
#[derive(Drop)]
pub struct Walked {
    pub pieces: Pieces,
    pub instances: usize,
}

/// Walks through the calls of the top module, depth first, and adds what they bring.
pub fn walk_calls(
    alloc: Global,
    modules: &[Module],
    lead: &[u8],
    top: usize,
    start: Pieces,
) -> Result<Walked, NoMemory>
    requires ranked { (rank : ℕ → ℕ) × AreRankedBy modules.now rank }
    requires top { top < length modules.now }
    requires few { instance_count (whole modules.now (links_of modules.now top)) < 2 ^ 32 }
    ensures pieces { IfOk result (λ w. w.pieces ≡ joined start (pieces_in lead.now 0 1 (whole modules.now (links_of modules.now top)))) }
    ensures count { IfOk result (λ w. w.instances ≡ 1 + instance_count (whole modules.now (links_of modules.now top))) }
{
    let mut out = start;
    let mut instances = 1usize;
    let mut stack = Vec::new(alloc);
    stack.push(Frame {
        called: top,
        next: 0,
        instance: 0,
        caller: None,
    })?;
    while let Some(frame) = stack.pop() {
        instances = take_frame(alloc, modules, lead, frame, instances, &mut stack, &mut out)?;
    }
    Ok(Walked {
        pieces: out,
        instances,
    })
}
