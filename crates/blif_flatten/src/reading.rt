// The flat model of a text.
ghost use Rattle.std.specs.Prelude.{◌≡◌, ◌≢◌, ◌<◌, ◌≤◌, ◌^◌, [], is_none, length, position, slice_get, true, List, Option, ℕ, IfOk, IfErr, OnOk, None, Some};
ghost use Rattle.rm_model.specs.RankFaults.{IsRefused};
ghost use Rattle.rm_model.specs.Value.{IsRanked};
ghost use Rattle.rm_model.specs.Ranks.{ranks_of};
ghost use Rattle.rm_model.specs.WellFormed.{IsWellFormed};
ghost use Rattle.blif_lines.specs.Layout.{layout};
ghost use Rattle.blif_format.specs.FirstFault.{first_unranked, or_else};
ghost use Rattle.blif_reader.specs.Meant.{IsRefusal};
ghost use Rattle.blif_flatten.specs.declared.modules.Module.{Module as ModuleValue};
ghost use Rattle.blif_flatten.specs.CallFaults.{plain_modules};
ghost use Rattle.blif_flatten.specs.FirstFault.{first_fault, size_fault, tree_of};
ghost use Rattle.blif_flatten.specs.Flattened.{IsFlatOf};
ghost use Rattle.blif_flatten.specs.Laws.{AreRankedBy};
ghost use Rattle.blif_flatten.specs.LineFaults.{empty_fault, head_fault, lines_fault};
ghost use Rattle.blif_flatten.specs.Meant.{IsFlatModel};
ghost use Rattle.blif_flatten.specs.Sections.{layout_fault, sections_of, sound_lines};
ghost use Rattle.blif_flatten.specs.Inner.Interfaces.{IsCallable};
ghost use Rattle.blif_flatten.specs.Inner.Ranks.{AreFalling};
ghost use Rattle.blif_flatten.specs.Inner.Reading.{IsLight, IsLinked, names_fault};
ghost use Rattle.blif_flatten.specs.Inner.Tokens.{AreWithin, sections_at};

use crate::calls::{Callable, check_calls};
use crate::drivers::{check_drivers, check_users};
use crate::flattening::{Flattened, flatten_modules};
use crate::interfaces::interfaces_of;
use crate::lead::lead_of;
use crate::line_faults::check_sections;
use crate::links::modules_of;
use crate::modules::Module;
use crate::ranks::rank_modules;
use crate::sections::{Section, Sections, read_sections};
use crate::size::count_tokens;
use blif_format::{FaultKind, Quantity, ReadRefusal};
use rm_base::Place;
use rm_model::{Model, NameKeys, RankFault, rank, ranks_exist};
use std::alloc::Global;

/// A flat model and the number of its instances, with the top.
#[derive(Drop)]
pub struct Flat {
    pub model: Model,
    pub instances: u32,
}

/// Why a text has no flat model: its first fault or limit, or want of memory.
pub type FlatRefusal = ReadRefusal;

// The models that calls may name, where no line has a fault.
fn callable_of<'a>(
    alloc: Global,
    keys: NameKeys,
    text: &'a [u8],
    read: &Sections,
) -> Result<Callable<'a>, ReadRefusal>
    requires within { AreWithin text.now read.now.sections.items }
    requires small { length text.now < 2 ^ 32 }
    requires sections { sections_at text.now read.now.sections.items ≡ sections_of text.now }
    requires head { head_fault (sound_lines (layout text.now)) ≡ None }
    requires last { read.now.last ≡ or_else (layout_fault (layout text.now)) (empty_fault (sound_lines (layout text.now))) }
    ensures ok { OnOk result (lines_fault (layout text.now) (sections_of text.now) ≡ None) }
    ensures callable { IfOk result (λ c. IsCallable c (plain_modules (sections_of text.now))) }
    ensures err { IfErr result (λ e. IsRefusal e (lines_fault (layout text.now) (sections_of text.now))) }
{
    let names = match check_sections(alloc, keys, text, read.sections.as_slice()) {
        Ok(names) => names,
        Err(refusal) => return Err(refusal),
    };
    if let Some(refusal) = read.last {
        return Err(refusal);
    }
    match interfaces_of(alloc, keys, text, read.sections.as_slice()) {
        Ok(interfaces) => Ok(Callable { names, interfaces }),
        Err(_) => Err(ReadRefusal::NoMemory),
    }
}

/// The modules of a text, and what is found of them.
#[derive(Drop)]
pub struct Linked {
    pub modules: Vec<Module>,
    /// Numbers that fall along calls.
    pub numbers: Vec<usize>,
    /// What the names of instances begin with.
    pub lead: Vec<u8>,
}

// The modules of sections without a fault of lines.
fn link_sections<'a>(
    alloc: Global,
    keys: NameKeys,
    text: &'a [u8],
    callable: &Callable<'a>,
    sections: &[Section],
) -> Result<Linked, ReadRefusal>
    requires within { AreWithin text.now sections.now }
    requires known { IsCallable callable.now (plain_modules (sections_at text.now sections.now)) }
    requires some { sections.now ≢ [] }
    ensures ok { OnOk result (names_fault (sections_at text.now sections.now) ≡ None) }
    ensures linked { IfOk result (IsLinked (sections_at text.now sections.now)) }
    ensures err { IfErr result (λ e. IsRefusal e (names_fault (sections_at text.now sections.now))) }
{
    match check_calls(alloc, keys, text, callable, sections) {
        Ok(()) => {}
        Err(refusal) => return Err(refusal),
    }
    let modules = match modules_of(alloc, text, callable, sections) {
        Ok(modules) => modules,
        Err(_) => return Err(ReadRefusal::NoMemory),
    };
    let numbers = match rank_modules(alloc, modules.as_slice()) {
        Ok(numbers) => numbers,
        Err(refusal) => return Err(refusal),
    };
    match check_drivers(alloc, keys, text, callable, sections) {
        Ok(()) => {}
        Err(refusal) => return Err(refusal),
    }
    match check_users(alloc, keys, text, callable, sections) {
        Ok(()) => {}
        Err(refusal) => return Err(refusal),
    }
    match lead_of(alloc, text, callable, &sections[0]) {
        Ok(lead) => Ok(Linked {
            modules,
            numbers,
            lead,
        }),
        Err(_) => Err(ReadRefusal::NoMemory),
    }
}

// The modules of a text, or its first fault before they are joined.
fn read_modules(alloc: Global, keys: NameKeys, text: &[u8]) -> Result<Linked, ReadRefusal>
    requires { length text.now < 2 ^ 32 }
    ensures lines { OnOk result (lines_fault (layout text.now) (sections_of text.now) ≡ None) }
    ensures names { OnOk result (names_fault (sections_of text.now) ≡ None) }
    ensures linked { IfOk result (IsLinked (sections_of text.now)) }
    ensures some { OnOk result (sections_of text.now ≢ []) }
    ensures err { IfErr result (λ e. IsRefusal e (or_else (lines_fault (layout text.now) (sections_of text.now)) (names_fault (sections_of text.now)))) }
{
    let read = match read_sections(alloc, text) {
        Ok(read) => read,
        Err(refusal) => return Err(refusal),
    };
    let callable = match callable_of(alloc, keys, text, &read) {
        Ok(callable) => callable,
        Err(refusal) => return Err(refusal),
    };
    link_sections(alloc, keys, text, &callable, read.sections.as_slice())
}

// Refuses more tokens than there may be.
fn check_size(
    alloc: Global,
    modules: &[Module],
    numbers: &[usize],
    most: u32,
) -> Result<(), ReadRefusal>
    requires falling { AreFalling numbers.now modules.now }
    requires ranked { (rank : ℕ → ℕ) × AreRankedBy modules.now rank }
    requires some { 0 < length modules.now }
    ensures ok { (top : ModuleValue) → slice_get modules.now 0 ≡ Some top → OnOk result (size_fault most top (tree_of modules.now top) ≡ None) }
    ensures err { (top : ModuleValue) → slice_get modules.now 0 ≡ Some top → IfErr result (λ e. IsRefusal e (size_fault most top (tree_of modules.now top))) }
{
    let Ok(count) = count_tokens(alloc, modules, numbers, most) else {
        return Err(ReadRefusal::NoMemory);
    };
    if count > most as u64 {
        return Err(ReadRefusal::Limit {
            quantity: Quantity::Flat,
            count,
            place: modules[0].place,
        });
    }
    Ok(())
}

// The refusal of a model without ranks, by the places of its covers.
fn rank_refusal(refused: RankFault, places: &[Place]) -> ReadRefusal
    requires { (cover : ℕ) → refused ≡ RankFault.NoRank cover → cover < length places.now }
    ensures { (ranks : List (Option ℕ)) → IsRefused (position is_none ranks) refused → IsRefusal result (first_unranked places.now ranks) }
{
    let RankFault::NoRank { cover } = refused else {
        return ReadRefusal::NoMemory;
    };
    ReadRefusal::Fault {
        kind: FaultKind::NoRank,
        place: places[cover as usize],
    }
}

// Refuses a model with a cover without rank.
fn check_ranks(
    alloc: Global,
    keys: NameKeys,
    model: &Model,
    places: &[Place],
) -> Result<(), ReadRefusal>
    requires formed { IsWellFormed model.now }
    requires placed { length places.now ≡ length model.now.covers }
    requires few { length model.now.covers < 2 ^ 32 }
    ensures ranked { OnOk result (IsRanked model.now) }
    ensures ok { OnOk result (first_unranked places.now (ranks_of model.now) ≡ None) }
    ensures err { IfErr result (λ e. IsRefusal e (first_unranked places.now (ranks_of model.now))) }
{
    ranks_exist();
    let ranks = match rank(alloc, keys, model) {
        Ok(ranks) => ranks,
        Err(refused) => return Err(rank_refusal(refused, places)),
    };
    drop(ranks);
    Ok(())
}

// The flat model of linked modules.
fn join_modules(alloc: Global, linked: Linked, most: u32) -> Result<Flattened, ReadRefusal>
    requires falling { AreFalling linked.numbers.items linked.modules.items }
    requires ranked { (rank : ℕ → ℕ) × AreRankedBy linked.modules.items rank }
    requires positive { (k : ℕ) (m : ModuleValue) → slice_get linked.modules.items k ≡ Some m → 1 ≤ m.tokens }
    requires light { IsLight linked.modules.items }
    requires some { 0 < length linked.modules.items }
    ensures size { (top : ModuleValue) → slice_get linked.modules.items 0 ≡ Some top → OnOk result (size_fault most top (tree_of linked.modules.items top) ≡ None) }
    ensures flat { (top : ModuleValue) → slice_get linked.modules.items 0 ≡ Some top → IfOk result (IsFlatOf linked.lead.items linked.modules.items top) }
    ensures few { IfOk result (λ f. f.instances < 2 ^ 32) }
    ensures placed { IfOk result (λ f. length f.places ≡ length f.model.covers) }
    ensures few_covers { IfOk result (λ f. length f.model.covers < 2 ^ 32) }
    ensures err { (top : ModuleValue) → slice_get linked.modules.items 0 ≡ Some top → IfErr result (λ e. IsRefusal e (size_fault most top (tree_of linked.modules.items top))) }
{
    let Linked {
        modules,
        numbers,
        lead,
    } = linked;
    match check_size(alloc, modules.as_slice(), numbers.as_slice(), most) {
        Ok(()) => {}
        Err(refusal) => return Err(refusal),
    }
    drop(numbers);
    match flatten_modules(alloc, modules.as_slice(), lead.as_slice()) {
        Ok(flat) => Ok(flat),
        Err(_) => Err(ReadRefusal::NoMemory),
    }
}

// The model with its instances, where each of its covers has a rank.
fn check_flat(alloc: Global, keys: NameKeys, flat: Flattened) -> Result<Flat, ReadRefusal>
    requires formed { IsWellFormed flat.model }
    requires few { flat.instances < 2 ^ 32 }
    requires placed { length flat.places ≡ length flat.model.covers }
    requires few_covers { length flat.model.covers < 2 ^ 32 }
    ensures model { IfOk result (λ f. f.model ≡ flat.model) }
    ensures count { IfOk result (λ f. f.instances ≡ flat.instances) }
    ensures ranked { OnOk result (IsRanked flat.model) }
    ensures ok { OnOk result (first_unranked flat.places (ranks_of flat.model) ≡ None) }
    ensures err { IfErr result (λ e. IsRefusal e (first_unranked flat.places (ranks_of flat.model))) }
{
    match check_ranks(alloc, keys, &flat.model, flat.places.items()) {
        Ok(()) => {}
        Err(refusal) => return Err(refusal),
    }
    let Flattened {
        model,
        places: _,
        instances,
    } = flat;
    Ok(Flat {
        model,
        instances: instances as u32,
    })
}

/// The flat model of a text with several models that call each other, or the text's first fault. The text has less than
/// 2^32 bytes, and its instances have at most `most` tokens in all. It takes time n log n in these tokens, and no stack
/// that grows with the text.
pub fn flatten(alloc: Global, keys: NameKeys, text: &[u8], most: u32) -> Result<Flat, FlatRefusal>
    requires { length text.now < 2 ^ 32 }
    ensures flat { IfOk result (λ f. IsFlatModel most text.now f.model f.instances) }
    ensures fault { IfErr result (λ e. IsRefusal e (first_fault most text.now)) }
{
    let linked = match read_modules(alloc, keys, text) {
        Ok(linked) => linked,
        Err(refusal) => return Err(refusal),
    };
    let flat = match join_modules(alloc, linked, most) {
        Ok(flat) => flat,
        Err(refusal) => return Err(refusal),
    };
    match check_flat(alloc, keys, flat) {
        Ok(found) => Ok(found),
        Err(refusal) => Err(refusal),
    }
}
