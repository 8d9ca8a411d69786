// What the names of instances begin with.
ghost use Rattle.std.specs.Prelude.{◌≡◌, ◌<◌, ◌^◌, length, drop, slice_set, true, List, IfOk, OnOk};
ghost use Rattle.blif_flatten.specs.declared.modules.Module.{Module as ModuleValue};
ghost use Rattle.rm_model.specs.Words.{is_word};
ghost use Rattle.blif_flatten.specs.Instances.{free_number, lead, names_held};
ghost use Rattle.blif_flatten.specs.Inner.Interfaces.{IsCallable};
ghost use Rattle.blif_flatten.specs.Inner.Leads.{AreMarkedBy, AreMarks, has_number, head, unmarked_from, value_from, with_digit as digit_behind};
ghost use Rattle.blif_flatten.specs.Inner.Tokens.{IsSectionWithin, section_at};
ghost use Rattle.blif_flatten.specs.Inner.Uses.{names_at};

use crate::calls::Callable;
use crate::sections::Section;
use crate::sides::sides_of;
use crate::uses::{NameUse, uses_of};
use itoa::Buffer;
use rm_base::NoMemory;
use std::alloc::Global;

// `s` and a number.
fn head_text(alloc: Global, number: usize) -> Result<Vec<u8>, NoMemory>
    ensures { IfOk result (λ text. text.items ≡ head number) }
{
    let mut buffer = Buffer::new();
    let mut text = Vec::new(alloc);
    text.push(b's')?;
    text.extend_from_slice(buffer.format(number).as_bytes())?;
    Ok(text)
}

fn lead_text(alloc: Global, number: usize) -> Result<Vec<u8>, NoMemory>
    ensures { IfOk result (λ text. text.items ≡ lead number) }
{
    let mut text = head_text(alloc, number)?;
    text.push(b'_')?;
    Ok(text)
}

fn with_digit(value: usize, byte: u8) -> usize
    ensures { result ≡ digit_behind value byte }
{
    value
        .saturating_mul(10)
        .saturating_add(usize::from(byte.saturating_sub(48)))
}

// The number of these digits, or the greatest that there is; of other bytes any number.
fn value_of(digits: &[u8]) -> usize
    ensures { result ≡ value_from 0 digits.now }
{
    let mut value = 0usize;
    for byte in digits {
        value = with_digit(value, *byte);
    }
    value
}

fn behind_first(word: &[u8]) -> &[u8]
    ensures { result.now ≡ drop 1 word.now }
{
    if word.is_empty() { &[] } else { &word[1..] }
}

fn set_mark(marks: &mut Vec<bool>, number: usize)
    requires { number < length marks.old.items }
    ensures { marks.new.items ≡ slice_set marks.old.items number true }
{
    marks[number] = true;
}

// Marks the number of a text that is `s` and a number.
fn mark_head(alloc: Global, marks: &mut Vec<bool>, before: &[u8]) -> Result<(), NoMemory>
    requires few { length marks.old.items < 2 ^ 63 }
    ensures marked { OnOk result (AreMarkedBy (λ t. is_word (head t) before.now) marks.old.items marks.new.items) }
    ensures count { length marks.new.items ≡ length marks.old.items }
{
    let number = value_of(behind_first(before));
    if number >= marks.len() {
        return Ok(());
    }
    let text = head_text(alloc, number)?;
    if text.as_slice() != before {
        return Ok(());
    }
    set_mark(marks, number);
    Ok(())
}

// Marks the number with which a name begins.
fn mark_name(alloc: Global, marks: &mut Vec<bool>, name: &[u8]) -> Result<(), NoMemory>
    requires few { length marks.old.items < 2 ^ 63 }
    ensures marked { OnOk result (AreMarkedBy (λ t. has_number t name.now) marks.old.items marks.new.items) }
    ensures count { length marks.new.items ≡ length marks.old.items }
{
    let Some((before, _)) = sides_of(name, b'_') else {
        return Ok(());
    };
    mark_head(alloc, marks, before)
}

// A mark for each number below the count of names: whether a name begins with it.
fn marks_of(alloc: Global, uses: &[NameUse]) -> Result<Vec<bool>, NoMemory>
    ensures marks { IfOk result (λ marks. AreMarks marks.items (names_at uses.now)) }
    ensures count { IfOk result (λ marks. length marks.items ≡ length uses.now) }
    ensures small { IfOk result (λ marks. length marks.items < 2 ^ 63) }
{
    let mut marks = vec![in alloc; false; uses.len()]?;
    for this in uses {
        mark_name(alloc, &mut marks, this.name)?;
    }
    Ok(marks)
}

// The first number without a mark.
fn least_unmarked(marks: &[bool]) -> usize
    ensures { result ≡ unmarked_from 0 marks.now }
{
    for (number, mark) in marks.iter().enumerate() {
        if !*mark {
            return number;
        }
    }
    marks.len()
}

/// `s`, the least number with which no name of the top begins so, and `_`. Each name begins with one such text at most,
/// so a mark for each name is enough. It takes time linear in the names.
pub fn lead_of<'a>(
    alloc: Global,
    text: &'a [u8],
    callable: &Callable<'a>,
    top: &Section,
) -> Result<Vec<u8>, NoMemory>
    requires { IsSectionWithin text.now top.now }
    ensures { (modules : List ModuleValue) → IsCallable callable.now modules → IfOk result (λ made. made.items ≡ lead (free_number (names_held modules (section_at text.now top.now)))) }
{
    let uses = uses_of(alloc, text, callable, top)?;
    let marks = marks_of(alloc, uses.as_slice())?;
    lead_text(alloc, least_unmarked(marks.as_slice()))
}
