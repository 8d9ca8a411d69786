// Numbers of modules that fall along calls (Tarjan 1972: strongly connected components). Nothing is proved of the numbers:
// who uses them looks at each call again.
ghost use Rattle.std.specs.Prelude.{◌≡◌, length, IfOk};

use crate::modules::Module;
use rm_base::NoMemory;
use std::alloc::Global;

/// A module whose calls are gone through.
#[derive(Clone, Copy)]
struct Visit {
    module: usize,
    next: usize,
}

/// The modules that are seen so far.
#[derive(Drop)]
struct Components {
    /// In the order in which they were seen, from 1; 0 for those that weren't.
    seen: Vec<usize>,
    /// The least number of those seen that a module is known to reach.
    low: Vec<usize>,
    /// The number of each component that is whole, from 1; 0 for modules of others.
    component: Vec<usize>,
    /// The modules that are seen and whose components aren't whole.
    open: Vec<usize>,
    visits: Vec<Visit>,
    seen_count: usize,
    component_count: usize,
}

fn read(list: &[usize], at: usize) -> usize {
    if at < list.len() { list[at] } else { 0 }
}

fn write(list: &mut Vec<usize>, at: usize, value: usize)
    ensures { length list.new.items ≡ length list.old.items }
{
    if at < list.len() {
        list[at] = value;
    }
}

fn lower(list: &mut Vec<usize>, at: usize, value: usize)
    ensures { length list.new.items ≡ length list.old.items }
{
    if at < list.len() && value < list[at] {
        list[at] = value;
    }
}

// Sees a module for the first time.
fn see(all: &mut Components, module: usize) -> Result<(), NoMemory>
    ensures { length all.new.component.items ≡ length all.old.component.items }
{
    all.seen_count = all.seen_count.saturating_add(1);
    write(&mut all.seen, module, all.seen_count);
    write(&mut all.low, module, all.seen_count);
    all.open.push(module)?;
    all.visits.push(Visit { module, next: 0 })?;
    Ok(())
}

// Takes the modules of a component that is whole.
fn close(all: &mut Components, module: usize)
    ensures { length all.new.component.items ≡ length all.old.component.items }
{
    all.component_count = all.component_count.saturating_add(1);
    while let Some(member) = all.open.pop() {
        write(&mut all.component, member, all.component_count);
        if member == module {
            return;
        }
    }
}

// Leaves a module all of whose calls are gone through.
fn leave(all: &mut Components, module: usize)
    ensures { length all.new.component.items ≡ length all.old.component.items }
{
    let least = read(all.low.as_slice(), module);
    if least == read(all.seen.as_slice(), module) {
        close(all, module);
    }
    if let Some(caller) = all.visits.last() {
        let caller = caller.module;
        lower(&mut all.low, caller, least);
    }
}

// Goes along a call.
fn go_along(all: &mut Components, module: usize, called: usize) -> Result<(), NoMemory>
    ensures { length all.new.component.items ≡ length all.old.component.items }
{
    let number = read(all.seen.as_slice(), called);
    if number == 0 {
        return see(all, called);
    }
    if read(all.component.as_slice(), called) == 0 {
        lower(&mut all.low, module, number);
    }
    Ok(())
}

fn called_at(modules: &[Module], module: usize, next: usize) -> Option<usize> {
    let link = modules.get(module)?.links.items().get(next)?;
    Some(link.called)
}

fn visit_module(all: &mut Components, modules: &[Module], at: Visit) -> Result<(), NoMemory>
    ensures { length all.new.component.items ≡ length all.old.component.items }
{
    match called_at(modules, at.module, at.next) {
        None => {
            leave(all, at.module);
            Ok(())
        }
        Some(called) => {
            all.visits.push(Visit {
                module: at.module,
                next: at.next.saturating_add(1),
            })?;
            go_along(all, at.module, called)
        }
    }
}

fn visit_all(all: &mut Components, modules: &[Module], steps: usize) -> Result<(), NoMemory>
    ensures { length all.new.component.items ≡ length all.old.component.items }
{
    for _ in 0..steps {
        match all.visits.pop() {
            None => return Ok(()),
            Some(at) => visit_module(all, modules, at)?,
        }
    }
    Ok(())
}

fn step_count(modules: &[Module]) -> usize {
    let mut count = 1usize;
    for module in modules {
        count = count.saturating_add(module.links.len()).saturating_add(2);
    }
    count
}

/// A number for each module. Along a call it stays the same where the called module leads back, and falls elsewhere. It
/// takes time linear in the calls.
pub fn component_numbers(alloc: Global, modules: &[Module]) -> Result<Vec<usize>, NoMemory>
    ensures { IfOk result (λ numbers. length numbers.items ≡ length modules.now) }
{
    let count = modules.len();
    let steps = step_count(modules);
    let mut all = Components {
        seen: vec![in alloc; 0; count]?,
        low: vec![in alloc; 0; count]?,
        component: vec![in alloc; 0; count]?,
        open: Vec::new(alloc),
        visits: Vec::new(alloc),
        seen_count: 0,
        component_count: 0,
    };
    for module in 0..count {
        if read(all.seen.as_slice(), module) == 0 {
            see(&mut all, module)?;
            visit_all(&mut all, modules, steps)?;
        }
    }
    let Components { component, .. } = all;
    Ok(component)
}
