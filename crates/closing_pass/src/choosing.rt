// The next faults to be searched.
ghost use Rattle.std.specs.Prelude.{◌≡◌, ◌≤◌, ◌<◌, IfOk, OnOk, length};
ghost use Rattle.closing_pass.specs.Inner.Findings.{AreChosen};

use crate::finding::Finding;
use rm_base::{Fault, NoMemory};
use std::alloc::Global;

/// Faults to be searched together: their places among all faults, the faults, and the place at which to look next.
#[derive(Drop)]
pub(crate) struct Chosen {
    pub(crate) places: Vec<usize>,
    pub(crate) faults: Vec<Fault>,
    pub(crate) next: usize,
}

// Adds the fault at the next place, where it is open, and goes on.
fn add_next(
    faults: &[Fault],
    found: &[Finding],
    chosen: &mut Chosen,
    from: usize,
) -> Result<(), NoMemory>
    requires chosen { AreChosen faults.now found.now from chosen.old }
    requires size { length found.now ≡ length faults.now }
    requires place { chosen.old.next < length faults.now }
    requires few { length chosen.old.places.items < 64 }
    ensures chosen { OnOk result (AreChosen faults.now found.now from chosen.new) }
    ensures next { OnOk result (chosen.old.next < chosen.new.next) }
{
    let place = chosen.next;
    if let Finding::Open = found[place] {
        chosen.places.push(place)?;
        chosen.faults.push(faults[place])?;
    }
    chosen.next = place + 1;
    Ok(())
}

/// The next 64 open faults from a place on, or as many as there are.
pub(crate) fn choose(
    alloc: Global,
    faults: &[Fault],
    found: &[Finding],
    from: usize,
) -> Result<Chosen, NoMemory>
    requires size { length found.now ≡ length faults.now }
    requires from { from < length faults.now }
    ensures chosen { IfOk result (AreChosen faults.now found.now from) }
    ensures next { IfOk result (λ c. from < c.next) }
{
    let mut chosen = Chosen {
        places: Vec::with_capacity(alloc, 64)?,
        faults: Vec::with_capacity(alloc, 64)?,
        next: from,
    };
    while chosen.next < faults.len() && chosen.places.len() < 64 {
        add_next(faults, found, &mut chosen, from)?;
    }
    Ok(chosen)
}
