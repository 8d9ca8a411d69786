// The lines of faults.
ghost use Rattle.std.specs.Prelude.{◌≡◌, ◌++◌, ◌∷◌, ◌<◌, [], All, OnOk, drop, filter, length};
ghost use Rattle.rm_model.specs.WellFormed.{IsWellFormedCover};
ghost use Rattle.model_faults.specs.ModelFaults.{faults_of_covers, input_fault, input_faults, is_gate_cover as is_gate};
ghost use Rattle.pattern_text.specs.Text.{fault_line, fault_lines, pin_text};

use crate::lines::{add_name, add_number};
use rm_base::NoMemory;
use rm_model::{Cover, cover_value};

// Adds the words that name the fault of an input of a cover.
fn add_pin(text: &mut Vec<u8>, cover: &Cover, position: usize, value: bool) -> Result<(), NoMemory>
    requires { position < length cover.now.inputs }
    ensures { OnOk result (text.new.items ≡ text.old.items ++ pin_text (input_fault cover.now position value)) }
{
    add_name(text, &cover.output)?;
    add_number(text, position as u64)?;
    add_name(text, &cover.inputs.items()[position])?;
    add_number(text, if value { 1 } else { 0 })
}

// Adds the line of the fault of an input of a cover, with the pattern under which it stands.
fn add_fault(
    text: &mut Vec<u8>,
    cover: &Cover,
    position: usize,
    value: bool,
    first: Option<usize>,
) -> Result<(), NoMemory>
    requires { position < length cover.now.inputs }
    ensures { OnOk result (text.new.items ≡ text.old.items ++ fault_line (input_fault cover.now position value) first) }
{
    match first {
        Some(number) => {
            text.extend_from_slice(b"fault")?;
            add_pin(text, cover, position, value)?;
            add_number(text, number as u64)?;
        }
        None => {
            text.extend_from_slice(b"undecided")?;
            add_pin(text, cover, position, value)?;
        }
    }
    text.push(b'\n')?;
    Ok(())
}

// Adds the lines of the two faults of an input, whose patterns are the next of the list.
fn add_input(
    text: &mut Vec<u8>,
    cover: &Cover,
    position: usize,
    firsts: &[Option<usize>],
) -> Result<(), NoMemory>
    requires { position < length cover.now.inputs }
    ensures { OnOk result (text.new.items ≡ text.old.items ++ fault_lines (input_faults cover.now position 1) firsts.now) }
{
    let Some(first) = firsts.first() else {
        return Ok(());
    };
    add_fault(text, cover, position, false, *first)?;
    let Some(second) = firsts.get(1) else {
        return Ok(());
    };
    add_fault(text, cover, position, true, *second)
}

// What is left of a list behind so many.
fn rest_of<'a>(firsts: &'a [Option<usize>], count: usize) -> &'a [Option<usize>]
    ensures { result.now ≡ drop count firsts.now }
{
    if count <= firsts.len() {
        &firsts[count..]
    } else {
        &[]
    }
}

// Adds the lines of all faults of a cover, whose patterns are the next of the list.
fn add_cover(text: &mut Vec<u8>, cover: &Cover, firsts: &[Option<usize>]) -> Result<(), NoMemory>
    ensures { OnOk result (text.new.items ≡ text.old.items ++ fault_lines (input_faults cover.now 0 (length cover.now.inputs)) firsts.now) }
{
    let mut left = firsts;
    for position in 0..cover.inputs.len() {
        add_input(text, cover, position, left)?;
        left = rest_of(left, 2);
    }
    Ok(())
}

// Whether the cover is one of a gate: it has inputs and is no copy of its one input.
fn is_gate_cover(cover: &Cover) -> bool
    requires { IsWellFormedCover cover.now }
    ensures { result ≡ is_gate cover.now }
{
    let count = cover.inputs.len();
    if count == 0 {
        return false;
    }
    if count > 1 {
        return true;
    }
    !(cover_value(cover, &[true]) && !cover_value(cover, &[false]))
}

// Adds the lines of the faults of a cover, where it is one of a gate.
fn add_if_gate(text: &mut Vec<u8>, cover: &Cover, firsts: &[Option<usize>]) -> Result<(), NoMemory>
    requires { IsWellFormedCover cover.now }
    ensures { OnOk result (text.new.items ≡ text.old.items ++ fault_lines (faults_of_covers (filter is_gate (cover.now ∷ []))) firsts.now) }
{
    if is_gate_cover(cover) {
        return add_cover(text, cover, firsts);
    }
    Ok(())
}

// What is left behind the faults of a cover, where it is one of a gate.
fn behind<'a>(cover: &Cover, firsts: &'a [Option<usize>]) -> &'a [Option<usize>]
    requires { IsWellFormedCover cover.now }
    ensures { result.now ≡ drop (length (faults_of_covers (filter is_gate (cover.now ∷ [])))) firsts.now }
{
    if is_gate_cover(cover) {
        let count = cover.inputs.len();
        return rest_of(rest_of(firsts, count), count);
    }
    firsts
}

/// Adds the lines of the faults of all gate covers.
pub(crate) fn add_covers(
    text: &mut Vec<u8>,
    covers: &[Cover],
    firsts: &[Option<usize>],
) -> Result<(), NoMemory>
    requires { All IsWellFormedCover covers.now }
    ensures { OnOk result (text.new.items ≡ text.old.items ++ fault_lines (faults_of_covers (filter is_gate covers.now)) firsts.now) }
{
    let mut left = firsts;
    for at in 0..covers.len() {
        let cover = &covers[at];
        add_if_gate(text, cover, left)?;
        left = behind(cover, left);
    }
    Ok(())
}
