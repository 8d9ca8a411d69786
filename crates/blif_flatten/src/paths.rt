// Ways from one module along calls to another.
ghost use Rattle.std.specs.Prelude.{◌≡◌};
ghost use Rattle.blif_flatten.specs.Recursion.{links_of};
ghost use Rattle.blif_flatten.specs.Inner.Ranks.{calls_one, goes_along};

use crate::modules::{Link, Module};
use rm_base::NoMemory;
use std::alloc::Global;

fn links_from(modules: &[Module], place: usize) -> &[Link]
    ensures { result.now ≡ links_of modules.now place }
{
    match modules.get(place) {
        Some(module) => module.links.items(),
        None => &[],
    }
}

// Whether one module calls another.
fn calls(modules: &[Module], caller: usize, called: usize) -> bool
    ensures { result ≡ calls_one modules.now caller called }
{
    for link in links_from(modules, caller) {
        if link.called == called {
            return true;
        }
    }
    false
}

/// Whether each module of a path calls the next, and the last one a module.
pub fn is_path(modules: &[Module], path: &[usize], to: usize) -> bool
    ensures { result ≡ goes_along modules.now to path.now }
{
    for (i, module) in path.iter().enumerate() {
        let next = if i + 1 < path.len() { path[i + 1] } else { to };
        if !calls(modules, *module, next) {
            return false;
        }
    }
    true
}

fn add_caller(callers: &mut Vec<Vec<usize>>, called: usize, caller: usize) -> Result<(), NoMemory> {
    if called < callers.len() {
        callers[called].push(caller)?;
    }
    Ok(())
}

fn add_callers(
    callers: &mut Vec<Vec<usize>>,
    links: &[Link],
    caller: usize,
) -> Result<(), NoMemory> {
    for link in links {
        add_caller(callers, link.called, caller)?;
    }
    Ok(())
}

// The modules that call each module.
fn callers_of(alloc: Global, modules: &[Module]) -> Result<Vec<Vec<usize>>, NoMemory> {
    let mut callers = Vec::new(alloc);
    for _ in 0..modules.len() {
        callers.push(Vec::new(alloc))?;
    }
    for (caller, module) in modules.iter().enumerate() {
        add_callers(&mut callers, module.links.items(), caller)?;
    }
    Ok(callers)
}

/// Modules that lead to one, each with the module that comes next.
#[derive(Drop)]
struct Ways {
    next: Vec<Option<usize>>,
    found: Vec<usize>,
}

fn take_caller(ways: &mut Ways, caller: usize, next: usize) -> Result<(), NoMemory> {
    if caller < ways.next.len() && ways.next[caller].is_none() {
        ways.next[caller] = Some(next);
        ways.found.push(caller)?;
    }
    Ok(())
}

fn take_callers(ways: &mut Ways, callers: &[usize], next: usize) -> Result<(), NoMemory> {
    for caller in callers {
        take_caller(ways, *caller, next)?;
    }
    Ok(())
}

fn callers_at(callers: &[Vec<usize>], module: usize) -> &[usize] {
    if module < callers.len() {
        callers[module].as_slice()
    } else {
        &[]
    }
}

// The ways to a module.
fn ways_to(alloc: Global, callers: &[Vec<usize>], to: usize) -> Result<Ways, NoMemory> {
    let mut ways = Ways {
        next: vec![in alloc; None; callers.len()]?,
        found: Vec::new(alloc),
    };
    take_callers(&mut ways, callers_at(callers, to), to)?;
    for at in 0..callers.len() {
        if at < ways.found.len() {
            let found = ways.found[at];
            take_callers(&mut ways, callers_at(callers, found), found)?;
        }
    }
    Ok(ways)
}

fn next_of(next: &[Option<usize>], module: usize) -> Option<usize> {
    if module < next.len() {
        next[module]
    } else {
        None
    }
}

/// A path of modules from one along calls to another, without that; empty where there is none. It takes time linear in
/// the calls. Nothing is proved of it: who uses it looks at it again.
pub fn path_between(
    alloc: Global,
    modules: &[Module],
    from: usize,
    to: usize,
) -> Result<Vec<usize>, NoMemory> {
    let callers = callers_of(alloc, modules)?;
    let ways = ways_to(alloc, callers.as_slice(), to)?;
    let mut path = Vec::new(alloc);
    let mut at = from;
    for _ in 0..modules.len() {
        path.push(at)?;
        match next_of(ways.next.as_slice(), at) {
            None => return Ok(Vec::new(alloc)),
            Some(next) => {
                if next == to {
                    return Ok(path);
                }
                at = next;
            }
        }
    }
    Ok(path)
}
