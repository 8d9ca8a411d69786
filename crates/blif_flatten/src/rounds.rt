// Recursion by rounds over all modules: what is known of each after a round follows from what was known of those that it
// calls. It is whole for any modules, and slow where they are many.
ghost use Rattle.std.specs.Prelude.{◌≡◌, ◌==◌, ◌||◌, ◌-◌, ◌^◌, false, get_or, List, None, IfOk, IfSome};
ghost use Rattle.blif_format.specs.FirstFault.{fault};
ghost use Rattle.blif_format.specs.declared.refusal.FaultKind.TheVariants.{Recursive};
ghost use Rattle.blif_flatten.specs.declared.modules.Module.{Module as ModuleValue};
ghost use Rattle.blif_flatten.specs.CallFaults.{first_of};
ghost use Rattle.blif_flatten.specs.Recursion.{recursion_at, recursion_fault};
ghost use Rattle.blif_flatten.specs.Inner.Ranks.{AreFalling, AreKnownCalls};
ghost use Rattle.blif_flatten.specs.Inner.Rounds.{AreLeading, leads_after, height_of, leads_on, most};

use crate::modules::{Link, Module};
use rm_base::{NoMemory, Place};
use std::alloc::Global;

fn is_leading(leading: &[bool], place: usize) -> bool
    ensures { result ≡ get_or leading.now place false }
{
    if place < leading.len() {
        leading[place]
    } else {
        false
    }
}

// Whether a called module is one, or leads to it.
fn comes_to(leading: &[bool], called: usize, to: usize) -> bool
    ensures { result ≡ ((called == to) || get_or leading.now called false) }
{
    if called == to {
        return true;
    }
    is_leading(leading, called)
}

// Whether one of these calls goes to a module, or to one that leads to it.
fn leads_by(leading: &[bool], links: &[Link], to: usize) -> bool
    ensures { result ≡ leads_on leading.now to links.now }
{
    for link in links {
        if comes_to(leading, link.called, to) {
            return true;
        }
    }
    false
}

fn next_leading(
    alloc: Global,
    modules: &[Module],
    leading: &[bool],
    to: usize,
) -> Result<Vec<bool>, NoMemory>
    ensures { IfOk result (λ next. next.items ≡ leads_after leading.now to modules.now) }
{
    let mut next = Vec::new(alloc);
    for module in modules {
        next.push(leads_by(leading, module.links.items(), to))?;
    }
    Ok(next)
}

// Which modules lead to one.
fn leading_to(alloc: Global, modules: &[Module], to: usize) -> Result<Vec<bool>, NoMemory>
    ensures { IfOk result (λ leading. AreLeading modules.now to leading.items) }
{
    let mut leading = next_leading(alloc, modules, &[], to)?;
    for _ in 0..modules.len() {
        leading = next_leading(alloc, modules, leading.as_slice(), to)?;
    }
    Ok(leading)
}

// The first of these calls that is recursive.
fn recursive_link(leading: &[bool], holder: usize, links: &[Link]) -> Option<Place>
    ensures none { (modules : List ModuleValue) → AreLeading modules holder leading.now → result ≡ None → first_of (recursion_at modules holder) links.now ≡ None }
    ensures some { (modules : List ModuleValue) → AreLeading modules holder leading.now → IfSome result (λ place. first_of (recursion_at modules holder) links.now ≡ fault Recursive place) }
{
    for link in links {
        if comes_to(leading, link.called, holder) {
            return Some(link.place);
        }
    }
    None
}

/// The first recursive call.
pub fn recursion_by_rounds(alloc: Global, modules: &[Module]) -> Result<Option<Place>, NoMemory>
    ensures none { IfOk result (λ found. found ≡ None → recursion_fault modules.now ≡ None) }
    ensures some { IfOk result (λ found. IfSome found (λ place. recursion_fault modules.now ≡ fault Recursive place)) }
{
    for (holder, module) in modules.iter().enumerate() {
        let leading = leading_to(alloc, modules, holder)?;
        match recursive_link(leading.as_slice(), holder, module.links.items()) {
            Some(place) => return Ok(Some(place)),
            None => {}
        }
    }
    Ok(None)
}

fn height_at(heights: &[usize], place: usize) -> usize
    ensures { result ≡ get_or heights.now place 0 }
{
    if place < heights.len() {
        heights[place]
    } else {
        0
    }
}

// The greatest height of the modules that these calls go to.
fn most_of(all: &[usize], links: &[Link]) -> usize
    ensures { result ≡ most all.now links.now }
{
    let mut greatest = 0;
    for link in links {
        let height = height_at(all, link.called);
        if height > greatest {
            greatest = height;
        }
    }
    greatest
}

fn next_heights(alloc: Global, modules: &[Module], all: &[usize]) -> Result<Vec<usize>, NoMemory>
    ensures { IfOk result (λ next. next.items ≡ height_of (2 ^ 64 - 1) all.now modules.now) }
{
    let mut next = Vec::new(alloc);
    for module in modules {
        next.push(most_of(all, module.links.items()).saturating_add(1))?;
    }
    Ok(next)
}

/// How many modules stand one behind another from each module on, where no call is recursive. They fall along calls.
pub fn heights_by_rounds(alloc: Global, modules: &[Module]) -> Result<Vec<usize>, NoMemory>
    requires known { AreKnownCalls modules.now }
    requires calm { recursion_fault modules.now ≡ None }
    ensures { IfOk result (λ all. AreFalling all.items modules.now) }
{
    let mut all = Vec::new(alloc);
    for _ in 0..modules.len() {
        all = next_heights(alloc, modules, all.as_slice())?;
    }
    Ok(all)
}
