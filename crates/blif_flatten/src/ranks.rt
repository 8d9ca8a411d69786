// Modules are ranked where none calls itself, directly or through others.
ghost use Rattle.std.specs.Prelude.{◌≡◌, ◌<◌, ◌≤◌, length, true, ℕ, slice_get, Some, None, IfOk, IfErr, OnOk};
ghost use Rattle.blif_reader.specs.Meant.{IsRefusal};
ghost use Rattle.blif_flatten.specs.declared.modules.Link.{Link as LinkValue};
ghost use Rattle.blif_flatten.specs.Laws.{AreRankedBy};
ghost use Rattle.blif_flatten.specs.Recursion.{recursion_fault};
ghost use Rattle.blif_flatten.specs.Inner.Ranks.{AreFalling, AreKnownCalls, Falls, number_of};

use crate::components::component_numbers;
use crate::modules::{Link, Module};
use crate::recursion::first_recursion;
use crate::rounds::heights_by_rounds;
use blif_format::{FaultKind, ReadRefusal};
use std::alloc::Global;

// Whether each of these calls goes to a lower number.
fn are_lower(numbers: &[usize], links: &[Link], number: usize) -> bool
    ensures { result ≡ true → (j : ℕ) (l : LinkValue) → slice_get links.now j ≡ Some l → number_of numbers.now l.called < number }
{
    for link in links {
        if link.called >= numbers.len() || numbers[link.called] >= number {
            return false;
        }
    }
    true
}

// Whether the numbers fall along the calls of a module.
fn falls(numbers: &[usize], count: usize, place: usize, this: &Module) -> bool
    ensures { result ≡ true → Falls numbers.now count place this.now }
{
    if place >= numbers.len() {
        return false;
    }
    let number = numbers[place];
    number > 0 && number <= count && are_lower(numbers, this.links.items(), number)
}

// Whether the numbers fall along all calls.
fn are_falling(numbers: &[usize], modules: &[Module]) -> bool
    ensures { result ≡ true → AreFalling numbers.now modules.now }
{
    for (place, module) in modules.iter().enumerate() {
        if !falls(numbers, modules.len(), place, module) {
            return false;
        }
    }
    true
}

// Numbers that fall along each call, or the first call that is recursive, where these numbers don't.
fn rank_anew(
    alloc: Global,
    modules: &[Module],
    numbers: &[usize],
) -> Result<Vec<usize>, ReadRefusal>
    requires { AreKnownCalls modules.now }
    ensures falling { IfOk result (λ anew. AreFalling anew.items modules.now) }
    ensures err { IfErr result (λ e. IsRefusal e (recursion_fault modules.now)) }
{
    match first_recursion(alloc, modules, numbers) {
        Ok(Some(place)) => Err(ReadRefusal::Fault {
            kind: FaultKind::Recursive,
            place,
        }),
        Ok(None) => match heights_by_rounds(alloc, modules) {
            Ok(heights) => Ok(heights),
            Err(_) => Err(ReadRefusal::NoMemory),
        },
        Err(_) => Err(ReadRefusal::NoMemory),
    }
}

/// Numbers that fall along each call, or the first call that is recursive. It takes time linear in the calls.
pub fn rank_modules(alloc: Global, modules: &[Module]) -> Result<Vec<usize>, ReadRefusal>
    requires { AreKnownCalls modules.now }
    ensures falling { IfOk result (λ numbers. AreFalling numbers.items modules.now) }
    ensures ranked { OnOk result ((rank : ℕ → ℕ) × AreRankedBy modules.now rank) }
    ensures ok { OnOk result (recursion_fault modules.now ≡ None) }
    ensures err { IfErr result (λ e. IsRefusal e (recursion_fault modules.now)) }
{
    let numbers = match component_numbers(alloc, modules) {
        Ok(numbers) => numbers,
        Err(_) => return Err(ReadRefusal::NoMemory),
    };
    if are_falling(numbers.as_slice(), modules) {
        return Ok(numbers);
    }
    rank_anew(alloc, modules, numbers.as_slice())
}
