// The names that a text has used so far, by first appearance, and as what each stands there.
ghost use Rattle.std.specs.Prelude.{◌≡◌, ◌≤◌, ◌+◌, ◌^◌, ◌&&◌, [], length, not, is_some, slice_get, List, OnOk, IfErr, None, Some};
ghost use Rattle.rm_model.specs.Words.{is_word};
ghost use Rattle.blif_format.specs.Uses.{Use, is_source_role, is_observed_role};
ghost use Rattle.blif_format.specs.FirstFault.{name_limit, use_fault, undriven_fault};
ghost use Rattle.std.specs.Option.{option_map};
ghost use Rattle.blif_reader.specs.Meant.{IsRefusal};
ghost use Rattle.blif_reader.specs.Meant.{refusal_of};
ghost use Rattle.blif_reader.specs.Inner.Tally.{Tally, IsTally, TakesUse, flags_or_none, no_flags, has_source as some_source, has_driver as some_driver, is_driven_twice as driven_twice, is_listed_twice as listed_twice, with_role as flags_with, more_if, place_or, first_free, free_of, use_check, flags_check, inputs_check, counts_check};

use crate::name_uses::NameUses;
use crate::refusals::{fault, limit};
use blif_format::{FaultKind, Quantity, ReadRefusal, Role};
use rm_base::Place;
use rm_model::NameKeys;
use std::alloc::Global;
use std::marker::Model;

/// As what a name stands so far.
#[derive(Clone, Copy, PartialEq, Eq)]
pub struct Flags {
    pub input: bool,
    pub clock: bool,
    pub latch: bool,
    pub cover: bool,
    pub output: bool,
}

/// A name's flags and the place of its first use.
#[derive(Clone, Copy, PartialEq, Eq)]
pub struct NameUse {
    pub flags: Flags,
    pub place: Place,
}

fn is_source(role: Role) -> bool
    ensures { result ≡ is_source_role role }
{
    match role {
        Role::Input | Role::ClockInput | Role::LatchOutput => true,
        _ => false,
    }
}

fn is_observed(role: Role) -> bool
    ensures { result ≡ is_observed_role role }
{
    match role {
        Role::Output | Role::LatchInput | Role::Control => true,
        _ => false,
    }
}

fn flags_of(entry: Option<NameUse>) -> Flags
    ensures { result ≡ flags_or_none entry }
{
    match entry {
        Some(entry) => entry.flags,
        None => Flags {
            input: false,
            clock: false,
            latch: false,
            cover: false,
            output: false,
        },
    }
}

fn has_source(flags: Flags) -> bool
    ensures { result ≡ some_source flags }
{
    flags.input || flags.clock || flags.latch
}

fn has_driver(flags: Flags) -> bool
    ensures { result ≡ some_driver flags }
{
    has_source(flags) || flags.cover
}

/// Whether a name with these flags may not be driven in the role too.
fn is_driven_twice(flags: Flags, role: Role) -> bool
    ensures { result ≡ driven_twice flags role }
{
    match role {
        Role::Input => flags.input || flags.latch || flags.cover,
        Role::ClockInput => flags.clock || flags.latch || flags.cover,
        Role::LatchOutput | Role::CoverOutput => has_driver(flags),
        _ => false,
    }
}

fn is_listed_twice(flags: Flags, role: Role) -> bool
    ensures { result ≡ listed_twice flags role }
{
    match role {
        Role::Output => flags.output,
        _ => false,
    }
}

fn with_role(flags: Flags, role: Role) -> Flags
    ensures { result ≡ flags_with flags role }
{
    let mut flags = flags;
    match role {
        Role::Input => flags.input = true,
        Role::ClockInput => flags.clock = true,
        Role::LatchOutput => flags.latch = true,
        Role::CoverOutput => flags.cover = true,
        Role::Output => flags.output = true,
        _ => {}
    }
    flags
}

fn place_of(entry: Option<NameUse>, place: Place) -> Place
    ensures { result ≡ place_or entry place }
{
    match entry {
        Some(entry) => entry.place,
        None => place,
    }
}

/// Refuses a name that is too long.
pub fn check_length(name: &[u8], place: Place) -> Result<(), ReadRefusal>
    ensures { refusal_of result ≡ name_limit name.now place }
{
    if name.len() > 1_024 {
        return limit(Quantity::Name, name.len(), place);
    }
    Ok(())
}

/// How many sources, observed points and names there are with a use.
#[derive(Clone, Copy, PartialEq, Eq)]
pub struct Counts {
    pub sources: usize,
    pub observed: usize,
    pub signals: usize,
}

fn more(count: usize, is_more: bool) -> usize
    requires { count ≤ 2 ^ 32 }
    ensures { result ≡ more_if is_more count }
{
    if is_more { count + 1 } else { count }
}

fn is_new_source(role: Role, flags: Flags) -> bool
    ensures { result ≡ (is_source_role role && not (some_source flags)) }
{
    is_source(role) && !has_source(flags)
}

fn counts_with(
    sources: usize,
    observed: usize,
    names: usize,
    role: Role,
    entry: Option<NameUse>,
) -> Counts
    requires sources { sources ≤ 2 ^ 32 }
    requires observed { observed ≤ 2 ^ 32 }
    requires names { names ≤ 2 ^ 32 }
    ensures sources { result.sources ≡ more_if (is_source_role role && not (some_source (flags_or_none entry))) sources }
    ensures observed { result.observed ≡ more_if (is_observed_role role) observed }
    ensures signals { result.signals ≡ more_if (not (is_some entry)) names }
{
    Counts {
        sources: more(sources, is_new_source(role, flags_of(entry))),
        observed: more(observed, is_observed(role)),
        signals: more(names, entry.is_none()),
    }
}

fn check_counts(counts: Counts, place: Place) -> Result<(), ReadRefusal>
    ensures { refusal_of result ≡ counts_check counts place }
{
    if counts.sources > 1_024 {
        return limit(Quantity::Sources, counts.sources, place);
    }
    if counts.observed > 4_096 {
        return limit(Quantity::Observed, counts.observed, place);
    }
    if counts.signals > 131_072 {
        return limit(Quantity::Signals, counts.signals, place);
    }
    Ok(())
}

fn check_inputs(role: Role, earlier: usize, place: Place) -> Result<(), ReadRefusal>
    requires { earlier ≤ 2 ^ 32 }
    ensures { refusal_of result ≡ inputs_check role earlier place }
{
    if role == Role::CoverInput && earlier > 65_535 {
        return limit(Quantity::Inputs, earlier + 1, place);
    }
    Ok(())
}

fn check_flags(flags: Flags, role: Role, place: Place) -> Result<(), ReadRefusal>
    ensures { refusal_of result ≡ flags_check flags role place }
{
    if is_driven_twice(flags, role) {
        return fault(FaultKind::DoubleDriven, place);
    }
    if is_listed_twice(flags, role) {
        return fault(FaultKind::DoubleOutput, place);
    }
    Ok(())
}

fn check_use(
    flags: Flags,
    counts: Counts,
    role: Role,
    name: &[u8],
    earlier: usize,
    place: Place,
) -> Result<(), ReadRefusal>
    requires { earlier ≤ 2 ^ 32 }
    ensures { refusal_of result ≡ use_check flags counts role name.now earlier place }
{
    check_flags(flags, role, place)?;
    check_length(name, place)?;
    check_inputs(role, earlier, place)?;
    check_counts(counts, place)
}

// The place of the name at an index, if it has no driver.
fn free_place(entries: &NameUses, index: usize) -> Option<Place>
    ensures { result ≡ free_of (slice_get entries.now index) }
{
    let entry = entries.at(index)?;
    if has_driver(entry.flags) {
        return None;
    }
    Some(entry.place)
}

fn first_free_of(entries: &NameUses) -> Option<Place>
    ensures { result ≡ first_free entries.now }
{
    let mut i = 0;
    while i < entries.len() {
        match free_place(entries, i) {
            Some(place) => return Some(place),
            None => {}
        }
        i += 1;
    }
    None
}

/// The names of a text so far. Contracts see the table of names by first appearance.
#[derive(Drop)]
pub struct Names<'a> {
    entries: NameUses<'a>,
    sources: usize,
    observed: usize,
}

impl<'a> Model for Names<'a> {
    ghost use Rattle.blif_reader.specs.Inner.Tally.{Tally};

    ghost Value = { Tally };

    ghost use Rattle.blif_reader.specs.Inner.Views.{tally, IsWithinLimits};

    ghost view = { tally };

    ghost invariant = { IsWithinLimits };
}

impl<'a> Names<'a> {
    pub fn new(alloc: Global, keys: NameKeys) -> Names<'a>
        ensures { IsTally [] result }
    {
        Names {
            entries: NameUses::new(alloc, keys),
            sources: 0,
            observed: 0,
        }
    }

    /// Takes the use of a name, behind so many words of its line, or refuses it.
    pub fn take(
        &mut self,
        role: Role,
        name: &'a [u8],
        earlier: usize,
        place: Place,
    ) -> Result<(), ReadRefusal>
        requires { earlier ≤ 2 ^ 32 }
        ensures ok { (had : List Use) → IsTally had self.old → OnOk result (TakesUse had earlier (record { role = role; name = name.now; place = place }) self.new) }
        ensures err { (had : List Use) → IsTally had self.old → IfErr result (λ e. IsRefusal e (use_fault had earlier (record { role = role; name = name.now; place = place }))) }
    {
        let found = self.entries.find(name);
        let entry = self.entries.get(found);
        let flags = flags_of(entry);
        let counts = counts_with(self.sources, self.observed, self.entries.len(), role, entry);
        match check_use(flags, counts, role, name, earlier, place) {
            Ok(()) => {}
            Err(refusal) => return Err(refusal),
        }
        let after = NameUse {
            flags: with_role(flags, role),
            place: place_of(entry, place),
        };
        match self.entries.put(found, name, after) {
            Ok(()) => {
                self.sources = counts.sources;
                self.observed = counts.observed;
                Ok(())
            }
            Err(_) => Err(ReadRefusal::NoMemory),
        }
    }

    /// The place of the first use of a name that nothing drives.
    pub fn first_undriven(&self) -> Option<Place>
        ensures { (uses : List Use) → IsTally uses self.now → option_map (λ place. ReadRefusal.Fault FaultKind.Undriven place) result ≡ undriven_fault uses }
    {
        first_free_of(&self.entries)
    }
}
