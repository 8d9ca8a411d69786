// Whether a model is well formed.
ghost use Rattle.std.specs.Prelude.{◌≡◌, ◌&&◌, ◌≢◌, ◌≤◌, ◌++◌, ◌↔◌, All, IfOk, IfSome, IsTrue, OnOk, codes, length, map};
ghost use Rattle.std.specs.List.{flat_map, list_all};
ghost use Rattle.rm_model.specs.Value.{control_of, is_among};
ghost use Rattle.rm_model.specs.WellFormed.{driven_names, ends_in_backslash as has_last_backslash, is_distinct, is_token as token, names_of, used_names, IsWellFormed, IsWellFormedCover};
ghost use Rattle.rm_model.specs.Inner.WellFormed.{AreFormed, AreOnce};
ghost use Rattle.rm_base.specs.Words.{is_word_byte as word_byte};

use crate::name_keys::NameKeys;
use crate::name_table::NameTable;
use crate::parts::{Cover, Latch, Model, Name};
use crate::points::{
    control, copy_name, push_controls, push_latch_inputs, push_names, sources, table_of,
};
use rm_base::NoMemory;
use std::alloc::Global;

fn is_word_byte(byte: u8) -> bool
    ensures { result ≡ word_byte byte }
{
    byte > 32 && byte != b'#' && byte != 127
}

fn are_word_bytes(name: &[u8]) -> bool
    ensures { result ≡ list_all word_byte name.now }
{
    name.iter().all(|byte| is_word_byte(*byte))
}

fn ends_in_backslash(name: &[u8]) -> bool
    ensures { result ≡ has_last_backslash name.now }
{
    !name.is_empty() && name[name.len() - 1] == b'\\'
}

fn is_token(name: &[u8]) -> bool
    ensures { result ≡ token name.now }
{
    !name.is_empty() && are_word_bytes(name) && !ends_in_backslash(name)
}

fn all_tokens(names: &[Name]) -> bool
    ensures { result ≡ list_all token names.now }
{
    names.iter().all(|name| is_token(name.items()))
}

fn all_distinct(alloc: Global, keys: NameKeys, names: &[Name]) -> Result<bool, NoMemory>
    ensures { IfOk result (λ once. once ≡ is_distinct names.now) }
{
    let mut seen = NameTable::new(alloc, keys);
    for name in names {
        if seen.has(name.items()) {
            return Ok(false);
        }
        seen.add(name.items())?;
    }
    Ok(true)
}

fn all_among<'a>(table: &NameTable<'a>, names: &'a [Name]) -> bool
    ensures { result ≡ list_all (is_among table.now) names.now }
{
    for name in names {
        if !table.has(name.items()) {
            return false;
        }
    }
    true
}

fn push_outputs(alloc: Global, out: &mut Vec<Name>, covers: &[Cover]) -> Result<(), NoMemory>
    ensures { OnOk result (out.new.items ≡ out.old.items ++ map (λ c. c.output) covers.now) }
{
    for cover in covers {
        out.push(copy_name(alloc, &cover.output)?)?;
    }
    Ok(())
}

fn push_inputs(alloc: Global, out: &mut Vec<Name>, covers: &[Cover]) -> Result<(), NoMemory>
    ensures { OnOk result (out.new.items ≡ out.old.items ++ flat_map (λ c. c.inputs) covers.now) }
{
    for cover in covers {
        push_names(alloc, out, cover.inputs.items())?;
    }
    Ok(())
}

fn list_driven(alloc: Global, keys: NameKeys, model: &Model) -> Result<Vec<Name>, NoMemory>
    ensures { IfOk result (λ names. names.items ≡ driven_names model.now) }
{
    let mut names = sources(alloc, keys, model)?;
    push_outputs(alloc, &mut names, model.covers.items())?;
    Ok(names)
}

fn list_used(alloc: Global, model: &Model) -> Result<Vec<Name>, NoMemory>
    ensures { IfOk result (λ names. names.items ≡ used_names model.now) }
{
    let mut names = Vec::new(alloc);
    push_names(alloc, &mut names, model.outputs.items())?;
    push_inputs(alloc, &mut names, model.covers.items())?;
    push_latch_inputs(alloc, &mut names, model.latches.items())?;
    push_controls(alloc, &mut names, model.latches.items())?;
    Ok(names)
}

fn cover_is_formed(cover: &Cover) -> bool
    ensures { IsTrue result ↔ IsWellFormedCover cover.now }
{
    (!cover.rows.items().is_empty() || cover.on)
        && cover
            .rows
            .items()
            .iter()
            .all(|row| row.len() == cover.inputs.len())
}

fn covers_are_formed(covers: &[Cover]) -> bool
    ensures { IsTrue result ↔ All IsWellFormedCover covers.now }
{
    covers.iter().all(|cover| cover_is_formed(cover))
}

fn init_is_small(latch: &Latch) -> bool
    ensures { IsTrue result ↔ IfSome latch.now.init (λ n. n ≤ 3) }
{
    match latch.init {
        None => true,
        Some(value) => value <= 3,
    }
}

fn inits_are_small(latches: &[Latch]) -> bool
    ensures { IsTrue result ↔ All (λ l. IfSome l.init (λ n. n ≤ 3)) latches.now }
{
    latches.iter().all(|latch| init_is_small(latch))
}

fn control_is_name(latch: &Latch) -> bool
    ensures { IsTrue result ↔ IfSome (control_of latch.now) (λ x. x ≢ codes "NIL") }
{
    match control(latch) {
        None => true,
        Some(name) => name.items() != b"NIL".as_slice(),
    }
}

fn controls_are_names(latches: &[Latch]) -> bool
    ensures { IsTrue result ↔ All (λ l. IfSome (control_of l) (λ x. x ≢ codes "NIL")) latches.now }
{
    latches.iter().all(|latch| control_is_name(latch))
}

fn names_are_tokens(model: &Model, driven: &[Name], used: &[Name]) -> bool
    requires driven { driven.now ≡ driven_names model.now }
    requires used { used.now ≡ used_names model.now }
    ensures { result ≡ list_all token (names_of model.now) }
{
    is_token(model.name.items())
        && all_tokens(driven)
        && all_tokens(model.clocks.items())
        && all_tokens(used)
}

fn names_are_once(
    alloc: Global,
    keys: NameKeys,
    model: &Model,
    driven: &[Name],
) -> Result<bool, NoMemory>
    requires { driven.now ≡ driven_names model.now }
    ensures { IfOk result (λ once. IsTrue once ↔ AreOnce model.now) }
{
    let inputs = all_distinct(alloc, keys, model.inputs.items())?;
    let clocks = all_distinct(alloc, keys, model.clocks.items())?;
    let outputs = all_distinct(alloc, keys, model.outputs.items())?;
    let all = all_distinct(alloc, keys, driven)?;
    Ok(inputs && clocks && outputs && all)
}

fn parts_are_formed(model: &Model) -> bool
    ensures { IsTrue result ↔ AreFormed model.now }
{
    covers_are_formed(model.covers.items())
        && inits_are_small(model.latches.items())
        && controls_are_names(model.latches.items())
}

fn all_of(once: bool, tokens: bool, known: bool, formed: bool) -> bool
    ensures { result ≡ (once && (tokens && (known && formed))) }
{
    once && tokens && known && formed
}

/// Whether a model is well formed, so that a text can have it. It takes time linear in the model,
/// but for the look-ups of names.
pub fn is_well_formed(alloc: Global, keys: NameKeys, model: &Model) -> Result<bool, NoMemory>
    ensures { IfOk result (λ formed. IsTrue formed ↔ IsWellFormed model.now) }
{
    let driven = list_driven(alloc, keys, model)?;
    let used = list_used(alloc, model)?;
    let table = table_of(alloc, keys, driven.as_slice())?;
    let once = names_are_once(alloc, keys, model, driven.as_slice())?;
    let tokens = names_are_tokens(model, driven.as_slice(), used.as_slice());
    let known = all_among(&table, used.as_slice());
    let formed = parts_are_formed(model);
    Ok(all_of(once, tokens, known, formed))
}
