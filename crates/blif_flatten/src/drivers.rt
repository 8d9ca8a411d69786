// Names with two drivers, and names with none.
ghost use Rattle.std.specs.Prelude.{◌≡◌, ◌++◌, ◌∷◌, [], true, false, List, IfErr, IfSome, OnOk, IfOk, None, Some};
ghost use Rattle.rm_base.specs.Words.{Word};
ghost use Rattle.rm_model.specs.Value.{is_among};
ghost use Rattle.blif_format.specs.Uses.{Use, drives_twice, is_driver as driver_role, names_in, stands_in, wants_driver as wants};
ghost use Rattle.blif_format.specs.FirstFault.{undriven_fault};
ghost use Rattle.blif_reader.specs.Meant.{IsRefusal};
ghost use Rattle.blif_flatten.specs.declared.modules.Module.{Module as ModuleValue};
ghost use Rattle.blif_flatten.specs.CallFaults.{driven_twice_fault, drivers_fault, plain_modules, section_drivers_fault, section_users_fault, users_fault};
ghost use Rattle.blif_flatten.specs.Inner.Interfaces.{IsCallable};
ghost use Rattle.blif_flatten.specs.Inner.Uses.{AreDrivers, clashes_with, clashing, use_at, uses_at};
ghost use Rattle.blif_flatten.specs.Inner.Tokens.{AreWithin, IsSectionWithin, section_at, sections_at};

use crate::calls::Callable;
use crate::sections::Section;
use crate::uses::{NameUse, uses_of};
use blif_format::{FaultKind, ReadRefusal, Role};
use blif_reader::fault;
use rm_base::NoMemory;
use rm_model::{NameKeys, NameTable};
use std::alloc::Global;

/// The names that are driven so far.
#[derive(Drop)]
pub struct Drivers<'a> {
    pub inputs: NameTable<'a>,
    pub clocks: NameTable<'a>,
    /// The names that latches, covers and output pins drive.
    pub inner: NameTable<'a>,
}

// Whether a name may not be driven in a role, where it is driven as an input, as a clock or inside.
fn clashes(role: Role, input: bool, clock: bool, inner: bool) -> bool
    ensures { result ≡ clashing role input clock inner }
{
    match role {
        Role::Input => input || inner,
        Role::ClockInput => clock || inner,
        Role::LatchOutput | Role::CoverOutput => input || clock || inner,
        _ => false,
    }
}

fn is_driven_twice<'a>(drivers: &Drivers<'a>, this: &NameUse<'a>) -> bool
    ensures { result ≡ clashes_with drivers.now (use_at this.now) }
{
    let input = drivers.inputs.has(this.name);
    let clock = drivers.clocks.has(this.name);
    let inner = drivers.inner.has(this.name);
    clashes(this.role, input, clock, inner)
}

fn add_driver<'a>(drivers: &mut Drivers<'a>, this: &NameUse<'a>) -> Result<(), NoMemory>
    requires { clashes_with drivers.old (use_at this.now) ≡ false }
    ensures { (had : List Use) → AreDrivers had drivers.old → OnOk result (AreDrivers (had ++ use_at this.now ∷ []) drivers.new) }
{
    match this.role {
        Role::Input => drivers.inputs.push(this.name),
        Role::ClockInput => drivers.clocks.push(this.name),
        Role::LatchOutput | Role::CoverOutput => drivers.inner.push(this.name),
        _ => Ok(()),
    }
}

fn take_use<'a>(drivers: &mut Drivers<'a>, this: &NameUse<'a>) -> Result<(), ReadRefusal>
    ensures ok { (had : List Use) → AreDrivers had drivers.old → OnOk result (stands_in drives_twice had (use_at this.now) ≡ false) }
    ensures drivers { (had : List Use) → AreDrivers had drivers.old → OnOk result (AreDrivers (had ++ use_at this.now ∷ []) drivers.new) }
    ensures err { (had : List Use) → AreDrivers had drivers.old → IfErr result (λ e. IsRefusal e (driven_twice_fault had (use_at this.now ∷ []))) }
{
    if is_driven_twice(drivers, this) {
        return fault(FaultKind::DoubleDriven, this.place);
    }
    match add_driver(drivers, this) {
        Ok(()) => Ok(()),
        Err(_) => Err(ReadRefusal::NoMemory),
    }
}

fn no_drivers<'a>(alloc: Global, keys: NameKeys) -> Drivers<'a>
    ensures { AreDrivers [] result }
{
    Drivers {
        inputs: NameTable::new(alloc, keys),
        clocks: NameTable::new(alloc, keys),
        inner: NameTable::new(alloc, keys),
    }
}

// Takes all uses; the first one that drives a name a second time is refused.
fn take_uses<'a>(drivers: &mut Drivers<'a>, uses: &[NameUse<'a>]) -> Result<(), ReadRefusal>
    requires { AreDrivers [] drivers.old }
    ensures ok { OnOk result (driven_twice_fault [] (uses_at uses.now) ≡ None) }
    ensures err { IfErr result (λ e. IsRefusal e (driven_twice_fault [] (uses_at uses.now))) }
{
    for this in uses {
        match take_use(drivers, this) {
            Ok(()) => {}
            Err(refusal) => return Err(refusal),
        }
    }
    Ok(())
}

// The first name that is driven a second time.
fn check_driven_once(alloc: Global, keys: NameKeys, uses: &[NameUse]) -> Result<(), ReadRefusal>
    ensures ok { OnOk result (driven_twice_fault [] (uses_at uses.now) ≡ None) }
    ensures err { IfErr result (λ e. IsRefusal e (driven_twice_fault [] (uses_at uses.now))) }
{
    let mut drivers = no_drivers(alloc, keys);
    take_uses(&mut drivers, uses)
}

fn is_driver(role: Role) -> bool
    ensures { result ≡ driver_role role }
{
    match role {
        Role::Input | Role::ClockInput | Role::LatchOutput | Role::CoverOutput => true,
        _ => false,
    }
}

fn wants_driver(role: Role) -> bool
    ensures { result ≡ wants role }
{
    match role {
        Role::CoverInput | Role::Output | Role::LatchInput | Role::Control => true,
        _ => false,
    }
}

fn include_driver<'a>(driven: &mut NameTable<'a>, this: &NameUse<'a>) -> Result<(), NoMemory>
    ensures { (had : List Use) → ((x : Word) → is_among driven.old x ≡ is_among (names_in driver_role had) x) → OnOk result ((x : Word) → is_among driven.new x ≡ is_among (names_in driver_role (had ++ use_at this.now ∷ [])) x) }
{
    if is_driver(this.role) {
        return driven.include(this.name);
    }
    Ok(())
}

fn driven_names<'a>(
    alloc: Global,
    keys: NameKeys,
    uses: &[NameUse<'a>],
) -> Result<NameTable<'a>, NoMemory>
    ensures { IfOk result (λ driven. (x : Word) → is_among driven x ≡ is_among (names_in driver_role (uses_at uses.now)) x) }
{
    let mut driven = NameTable::new(alloc, keys);
    for this in uses {
        include_driver(&mut driven, this)?;
    }
    Ok(driven)
}

// The first name that is used and that nothing drives.
fn check_all_driven(alloc: Global, keys: NameKeys, uses: &[NameUse]) -> Result<(), ReadRefusal>
    ensures ok { OnOk result (undriven_fault (uses_at uses.now) ≡ None) }
    ensures err { IfErr result (λ e. IsRefusal e (undriven_fault (uses_at uses.now))) }
{
    let driven = match driven_names(alloc, keys, uses) {
        Ok(driven) => driven,
        Err(_) => return Err(ReadRefusal::NoMemory),
    };
    for this in uses {
        if wants_driver(this.role) && !driven.has(this.name) {
            return fault(FaultKind::Undriven, this.place);
        }
    }
    Ok(())
}

fn section_drivers<'a>(
    alloc: Global,
    keys: NameKeys,
    text: &'a [u8],
    callable: &Callable<'a>,
    section: &Section,
) -> Result<(), ReadRefusal>
    requires { IsSectionWithin text.now section.now }
    ensures ok { (modules : List ModuleValue) → IsCallable callable.now modules → OnOk result (section_drivers_fault modules (section_at text.now section.now) ≡ None) }
    ensures err { (modules : List ModuleValue) → IsCallable callable.now modules → IfErr result (λ e. IsRefusal e (section_drivers_fault modules (section_at text.now section.now))) }
{
    match uses_of(alloc, text, callable, section) {
        Ok(uses) => check_driven_once(alloc, keys, uses.as_slice()),
        Err(_) => Err(ReadRefusal::NoMemory),
    }
}

fn section_users<'a>(
    alloc: Global,
    keys: NameKeys,
    text: &'a [u8],
    callable: &Callable<'a>,
    section: &Section,
) -> Result<(), ReadRefusal>
    requires { IsSectionWithin text.now section.now }
    ensures ok { (modules : List ModuleValue) → IsCallable callable.now modules → OnOk result (section_users_fault modules (section_at text.now section.now) ≡ None) }
    ensures err { (modules : List ModuleValue) → IsCallable callable.now modules → IfErr result (λ e. IsRefusal e (section_users_fault modules (section_at text.now section.now))) }
{
    match uses_of(alloc, text, callable, section) {
        Ok(uses) => check_all_driven(alloc, keys, uses.as_slice()),
        Err(_) => Err(ReadRefusal::NoMemory),
    }
}

/// The first name of a section that is driven twice.
pub fn check_drivers<'a>(
    alloc: Global,
    keys: NameKeys,
    text: &'a [u8],
    callable: &Callable<'a>,
    sections: &[Section],
) -> Result<(), ReadRefusal>
    requires within { AreWithin text.now sections.now }
    requires known { IsCallable callable.now (plain_modules (sections_at text.now sections.now)) }
    ensures ok { OnOk result (drivers_fault (sections_at text.now sections.now) ≡ None) }
    ensures err { IfErr result (λ e. IsRefusal e (drivers_fault (sections_at text.now sections.now))) }
{
    for section in sections {
        match section_drivers(alloc, keys, text, callable, section) {
            Ok(()) => {}
            Err(refusal) => return Err(refusal),
        }
    }
    Ok(())
}

/// The first name of a section that is used and that nothing drives.
pub fn check_users<'a>(
    alloc: Global,
    keys: NameKeys,
    text: &'a [u8],
    callable: &Callable<'a>,
    sections: &[Section],
) -> Result<(), ReadRefusal>
    requires within { AreWithin text.now sections.now }
    requires known { IsCallable callable.now (plain_modules (sections_at text.now sections.now)) }
    ensures ok { OnOk result (users_fault (sections_at text.now sections.now) ≡ None) }
    ensures err { IfErr result (λ e. IsRefusal e (users_fault (sections_at text.now sections.now))) }
{
    for section in sections {
        match section_users(alloc, keys, text, callable, section) {
            Ok(()) => {}
            Err(refusal) => return Err(refusal),
        }
    }
    Ok(())
}
