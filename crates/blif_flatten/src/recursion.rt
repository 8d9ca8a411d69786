// The first call that is recursive.
ghost use Rattle.std.specs.Prelude.{◌≡◌, ◌≤◌, true, length, slice_get, ℕ, List, None, Some, IfOk, IfSome};
ghost use Rattle.blif_format.specs.FirstFault.{fault};
ghost use Rattle.blif_format.specs.declared.refusal.FaultKind.TheVariants.{Recursive};
ghost use Rattle.blif_flatten.specs.declared.modules.Link.{Link as LinkValue};
ghost use Rattle.blif_flatten.specs.declared.modules.Module.{Module as ModuleValue};
ghost use Rattle.blif_flatten.specs.CallFaults.{first_of};
ghost use Rattle.blif_flatten.specs.Recursion.{is_recursive_call, leads, recursion_at, recursion_fault};
ghost use Rattle.blif_flatten.specs.Inner.Ranks.{DoNotRise, HasLinks, number_of};

use crate::modules::{Link, Module};
use crate::paths::{is_path, path_between};
use crate::rounds::recursion_by_rounds;
use rm_base::{NoMemory, Place};
use std::alloc::Global;

/// A call whose number doesn't fall.
#[derive(Clone, Copy)]
pub struct LevelCall {
    pub holder: usize,
    pub called: usize,
    pub place: Place,
}

fn number_at(numbers: &[usize], place: usize) -> usize
    ensures { result ≡ number_of numbers.now place }
{
    if place < numbers.len() {
        numbers[place]
    } else {
        0
    }
}

fn links_fall(numbers: &[usize], links: &[Link], number: usize) -> bool
    ensures { result ≡ true → (j : ℕ) (l : LinkValue) → slice_get links.now j ≡ Some l → number_of numbers.now l.called ≤ number }
{
    for link in links {
        if number_at(numbers, link.called) > number {
            return false;
        }
    }
    true
}

/// Whether the numbers rise along no call.
pub fn rise_nowhere(numbers: &[usize], modules: &[Module]) -> bool
    ensures { result ≡ true → DoNotRise numbers.now modules.now }
{
    for (place, module) in modules.iter().enumerate() {
        if !links_fall(numbers, module.links.items(), number_at(numbers, place)) {
            return false;
        }
    }
    true
}

// The first of these calls whose number doesn't fall.
fn level_link(numbers: &[usize], holder: usize, links: &[Link]) -> Option<LevelCall>
    ensures none { (modules : List ModuleValue) → DoNotRise numbers.now modules → HasLinks modules holder links.now → result ≡ None → first_of (recursion_at modules holder) links.now ≡ None }
    ensures some { (modules : List ModuleValue) → DoNotRise numbers.now modules → HasLinks modules holder links.now → IfSome result (λ c. is_recursive_call modules holder c.called ≡ true → first_of (recursion_at modules holder) links.now ≡ fault Recursive c.place) }
    ensures holder { IfSome result (λ c. c.holder ≡ holder) }
{
    for link in links {
        if number_at(numbers, link.called) >= number_at(numbers, holder) {
            return Some(LevelCall {
                holder,
                called: link.called,
                place: link.place,
            });
        }
    }
    None
}

// The first call whose number doesn't fall.
fn level_call(numbers: &[usize], modules: &[Module]) -> Option<LevelCall>
    ensures { DoNotRise numbers.now modules.now → IfSome result (λ c. is_recursive_call modules.now c.holder c.called ≡ true → recursion_fault modules.now ≡ fault Recursive c.place) }
{
    for (holder, module) in modules.iter().enumerate() {
        match level_link(numbers, holder, module.links.items()) {
            Some(call) => return Some(call),
            None => {}
        }
    }
    None
}

// Whether a call is recursive, where that is found.
fn is_recursive(alloc: Global, modules: &[Module], call: LevelCall) -> Result<bool, NoMemory>
    ensures { IfOk result (λ found. found ≡ true → is_recursive_call modules.now call.holder call.called ≡ true) }
{
    if call.called == call.holder {
        return Ok(true);
    }
    let path = path_between(alloc, modules, call.called, call.holder)?;
    Ok(is_way(modules, path.as_slice(), call.called, call.holder))
}

// Whether a path leads from a module to another one.
fn is_way(modules: &[Module], path: &[usize], from: usize, to: usize) -> bool
    ensures { result ≡ true → leads (length modules.now) modules.now from to ≡ true }
{
    if path.len() > modules.len() || path.is_empty() || path[0] != from {
        return false;
    }
    is_path(modules, path, to)
}

// The first call whose number doesn't fall, where the numbers rise along no call and it is found to be recursive.
fn level_recursion(
    alloc: Global,
    modules: &[Module],
    numbers: &[usize],
) -> Result<Option<Place>, NoMemory>
    ensures { IfOk result (λ found. IfSome found (λ place. recursion_fault modules.now ≡ fault Recursive place)) }
{
    if !rise_nowhere(numbers, modules) {
        return Ok(None);
    }
    let Some(call) = level_call(numbers, modules) else {
        return Ok(None);
    };
    if is_recursive(alloc, modules, call)? {
        return Ok(Some(call.place));
    }
    Ok(None)
}

/// The first recursive call. It takes time linear in the calls where the numbers rise along no call and fall along those
/// that aren't recursive.
pub fn first_recursion(
    alloc: Global,
    modules: &[Module],
    numbers: &[usize],
) -> Result<Option<Place>, NoMemory>
    ensures none { IfOk result (λ found. found ≡ None → recursion_fault modules.now ≡ None) }
    ensures some { IfOk result (λ found. IfSome found (λ place. recursion_fault modules.now ≡ fault Recursive place)) }
{
    if let Some(place) = level_recursion(alloc, modules, numbers)? {
        return Ok(Some(place));
    }
    recursion_by_rounds(alloc, modules)
}
