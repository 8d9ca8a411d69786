// The least lead that begins no name.
ghost use Rattle.std.specs.Prelude.{◌≡◌, ◌<◌, ◌^◌, IfOk, OnOk, length, slice_set, true};
ghost use Rattle.sewing.specs.Inner.Making.{AreMarkedBy, AreMarks, has_lead, head_of, unmarked_from, value_from, with_digit as digit_behind};
ghost use Rattle.sewing.specs.Names.{free_lead as lead_of, numbered_lead};

use itoa::Buffer;
use rm_base::NoMemory;
use rm_model::Name;
use std::alloc::Global;

fn lead_text(alloc: Global, number: usize) -> Result<Vec<u8>, NoMemory>
    ensures { IfOk result (λ text. text.items ≡ numbered_lead number) }
{
    let mut buffer = Buffer::new();
    let mut text = Vec::new(alloc);
    text.push(b'w')?;
    text.extend_from_slice(buffer.format(number).as_bytes())?;
    text.push(b'_')?;
    Ok(text)
}

// The name up to its first `_`, or the whole of it.
fn head(name: &[u8]) -> &[u8]
    ensures { result.now ≡ head_of name.now }
{
    for (at, byte) in name.iter().enumerate() {
        if *byte == b'_' {
            return &name[..at + 1];
        }
    }
    name
}

fn with_digit(value: usize, byte: u8) -> usize
    ensures { result ≡ digit_behind value byte }
{
    if byte < b'0' {
        return value;
    }
    if b'9' < byte {
        return value;
    }
    value
        .saturating_mul(10)
        .saturating_add(usize::from(byte.saturating_sub(48)))
}

// The number of the digits of a text, or the greatest that there is.
fn value_of(text: &[u8]) -> usize
    ensures { result ≡ value_from 0 text.now }
{
    let mut value = 0usize;
    for byte in text {
        value = with_digit(value, *byte);
    }
    value
}

fn set_mark(marks: &mut Vec<bool>, number: usize)
    requires { number < length marks.old.items }
    ensures { marks.new.items ≡ slice_set marks.old.items number true }
{
    marks[number] = true;
}

// Marks the number whose lead begins a name.
fn mark_name(alloc: Global, marks: &mut Vec<bool>, name: &[u8]) -> Result<(), NoMemory>
    requires few { length marks.old.items < 2 ^ 63 }
    ensures marked { OnOk result (AreMarkedBy (λ t. has_lead t name.now) marks.old.items marks.new.items) }
    ensures count { length marks.new.items ≡ length marks.old.items }
{
    let start = head(name);
    let number = value_of(start);
    if number >= marks.len() {
        return Ok(());
    }
    let text = lead_text(alloc, number)?;
    if text.as_slice() != start {
        return Ok(());
    }
    set_mark(marks, number);
    Ok(())
}

// A mark for each number below the count of names: whether its lead begins one.
fn marks_of(alloc: Global, names: &[Name]) -> Result<Vec<bool>, NoMemory>
    ensures marks { IfOk result (λ marks. AreMarks marks.items names.now) }
    ensures count { IfOk result (λ marks. length marks.items ≡ length names.now) }
    ensures small { IfOk result (λ marks. length marks.items < 2 ^ 63) }
{
    let mut marks = vec![in alloc; false; names.len()]?;
    for name in names {
        mark_name(alloc, &mut marks, name.items())?;
    }
    Ok(marks)
}

// The first number without a mark.
fn least_unmarked(marks: &[bool]) -> usize
    ensures { result ≡ unmarked_from 0 marks.now }
{
    for (number, mark) in marks.iter().enumerate() {
        if !*mark {
            return number;
        }
    }
    marks.len()
}

/// `w`, the least number with which no name begins so, and `_`. Each name begins with one such text at most, so a mark for
/// each name is enough. It takes time linear in the names.
pub fn free_lead(alloc: Global, names: &[Name]) -> Result<Vec<u8>, NoMemory>
    ensures { IfOk result (λ text. text.items ≡ lead_of names.now) }
{
    let marks = marks_of(alloc, names)?;
    lead_text(alloc, least_unmarked(marks.as_slice()))
}
