// The entries that lines say.
ghost use Rattle.std.specs.Prelude.{◌≡◌, IfOk};
ghost use Rattle.journal_text.specs.Reading.{add_from, bits_of, budget_of, entry_from, entry_in, entry_of, fix_from, header_from, hit_from, in_range, local, local_from, one_step, spent_from, step_from, two_step, vector_of};

use crate::items::items_of;
use crate::keywords::{Keyword, is_text, keyword_at};
use crate::numbers::number_of;
use crate::operands::{Operands, operands_of};
use crate::pieces::Pieces;
use crate::reading::{bit_at, fault_then, number_then, where_none};
use crate::record::{Entry, Record};
use refutation::TreeBuilder;
use rm_base::{NoMemory, NodeId, Vector};
use std::alloc::Global;
use wire_edit::Step;

fn in_range(number: u32) -> Option<u32>
    ensures { result ≡ in_range number }
{
    if number >= 1 && number <= 1_048_576 {
        return Some(number);
    }
    None
}

// The budget that is the only word left.
fn budget_of(words: &mut Pieces<'_>) -> Option<u32>
    ensures { result ≡ budget_of words.old }
{
    let word = words.next()?;
    let None = words.next() else {
        return None;
    };
    let number = number_of(word)?;
    in_range(number)
}

#[tactic(auto, unfolding(crate::specs::Reading::header_from))]
fn header_from(words: &mut Pieces<'_>) -> Option<Entry>
    ensures { result ≡ header_from words.old }
{
    let version = words.next()?;
    if !is_text(version, "1") {
        return None;
    }
    let budget = budget_of(words)?;
    Some(Entry::Header { budget })
}

// The bits of a word of one or more.
fn bits_of(alloc: Global, word: &[u8]) -> Result<Option<Vector>, NoMemory>
    ensures { IfOk result (λ v. v ≡ bits_of word.now) }
{
    if word.is_empty() {
        return Ok(None);
    }
    let mut values = Vec::with_capacity(alloc, word.len())?;
    for byte in word {
        let Some(bit) = bit_at(*byte) else {
            return Ok(None);
        };
        values.push(bit)?;
    }
    Ok(Some(Vector::of(values)))
}

// The vector that is the only word left.
fn vector_of(alloc: Global, words: &mut Pieces<'_>) -> Result<Option<Vector>, NoMemory>
    ensures { IfOk result (λ v. v ≡ vector_of words.old) }
{
    let Some(word) = words.next() else {
        return Ok(None);
    };
    match words.next() {
        Some(_) => Ok(None),
        None => bits_of(alloc, word),
    }
}

#[tactic(auto, unfolding(crate::specs::Reading::add_from))]
fn add_from(alloc: Global, words: &mut Pieces<'_>) -> Result<Option<Entry>, NoMemory>
    ensures { IfOk result (λ e. e ≡ add_from words.old) }
{
    let Some(gate) = number_then(words) else {
        return Ok(None);
    };
    let Some(driver) = number_then(words) else {
        return Ok(None);
    };
    let Some(tree) = items_of(alloc, words)? else {
        return Ok(None);
    };
    let step = Step::Add {
        gate: NodeId(gate),
        node: NodeId(driver),
    };
    Ok(Some(Entry::Record(Record::Step { step, tree })))
}

#[tactic(auto, unfolding(crate::specs::Reading::fix_from))]
fn fix_from(alloc: Global, words: &mut Pieces<'_>) -> Result<Option<Entry>, NoMemory>
    ensures { IfOk result (λ e. e ≡ fix_from words.old) }
{
    let Some(fault) = fault_then(words) else {
        return Ok(None);
    };
    let Some(tree) = items_of(alloc, words)? else {
        return Ok(None);
    };
    let step = Step::Fix {
        gate: fault.gate,
        position: fault.position,
        value: fault.value,
    };
    Ok(Some(Entry::Record(Record::Step { step, tree })))
}

#[tactic(auto, unfolding(crate::specs::Reading::hit_from))]
fn hit_from(alloc: Global, words: &mut Pieces<'_>) -> Result<Option<Entry>, NoMemory>
    ensures { IfOk result (λ e. e ≡ hit_from words.old) }
{
    let Some(fault) = fault_then(words) else {
        return Ok(None);
    };
    let Some(vector) = vector_of(alloc, words)? else {
        return Ok(None);
    };
    Ok(Some(Entry::Record(Record::Hit { fault, vector })))
}

#[tactic(auto, unfolding(crate::specs::Reading::spent_from))]
fn spent_from(alloc: Global, words: &mut Pieces<'_>) -> Result<Option<Entry>, NoMemory>
    ensures { IfOk result (λ e. e ≡ spent_from words.old) }
{
    let Some(fault) = fault_then(words) else {
        return Ok(None);
    };
    let Some(tree) = items_of(alloc, words)? else {
        return Ok(None);
    };
    Ok(Some(Entry::Record(Record::Spent { fault, tree })))
}

// The local step of a keyword and one number.
fn one_step(keyword: Keyword, node: NodeId) -> Option<Step>
    ensures { result ≡ one_step keyword node }
{
    match keyword {
        Keyword::NewNot => Some(Step::NewNot { node }),
        Keyword::NoPins => Some(Step::NoPins { gate: node }),
        Keyword::OnePin => Some(Step::OnePin { gate: node }),
        Keyword::Twice => Some(Step::Twice { gate: node }),
        Keyword::Dead => Some(Step::Dead { gate: node }),
        Keyword::Header
        | Keyword::Add
        | Keyword::Fix
        | Keyword::Const
        | Keyword::Same
        | Keyword::Twin
        | Keyword::Hit
        | Keyword::Spent
        | Keyword::End => None,
    }
}

// The local step of a keyword and two numbers.
fn two_step(keyword: Keyword, gate: NodeId, number: u32) -> Option<Step>
    ensures { result ≡ two_step keyword gate number }
{
    match keyword {
        Keyword::Const => Some(Step::Const {
            gate,
            position: number,
        }),
        Keyword::Same => Some(Step::Same {
            gate,
            position: number,
        }),
        Keyword::Twin => Some(Step::Twin {
            gate,
            other: NodeId(number),
        }),
        Keyword::Header
        | Keyword::Add
        | Keyword::Fix
        | Keyword::NewNot
        | Keyword::NoPins
        | Keyword::OnePin
        | Keyword::Twice
        | Keyword::Dead
        | Keyword::Hit
        | Keyword::Spent
        | Keyword::End => None,
    }
}

fn step_from(keyword: Keyword, operands: Operands) -> Option<Step>
    ensures { result ≡ step_from keyword operands }
{
    match operands {
        Operands::Bare => None,
        Operands::One(number) => one_step(keyword, NodeId(number)),
        Operands::Two(number, other) => two_step(keyword, NodeId(number), other),
    }
}

// A local step, whose tree is empty.
fn local(alloc: Global, step: Step) -> Entry
    ensures { result ≡ local step }
{
    let tree = TreeBuilder::new(alloc).finish();
    Entry::Record(Record::Step { step, tree })
}

#[tactic(auto, unfolding(crate::specs::Reading::local_from))]
fn local_from(alloc: Global, keyword: Keyword, words: Pieces<'_>) -> Option<Entry>
    ensures { result ≡ local_from keyword words.entry }
{
    let operands = operands_of(words)?;
    let step = step_from(keyword, operands)?;
    Some(local(alloc, step))
}

// The entry of a keyword and the words behind it.
fn entry_from(alloc: Global, keyword: Keyword, words: Pieces<'_>) -> Result<Option<Entry>, NoMemory>
    ensures { IfOk result (λ e. e ≡ entry_from keyword words.entry) }
{
    let mut words = words;
    match keyword {
        Keyword::Header => Ok(header_from(&mut words)),
        Keyword::Add => add_from(alloc, &mut words),
        Keyword::Fix => fix_from(alloc, &mut words),
        Keyword::Hit => hit_from(alloc, &mut words),
        Keyword::Spent => spent_from(alloc, &mut words),
        Keyword::End => Ok(where_none(Entry::End, &mut words)),
        Keyword::NewNot
        | Keyword::Const
        | Keyword::Same
        | Keyword::NoPins
        | Keyword::OnePin
        | Keyword::Twice
        | Keyword::Twin
        | Keyword::Dead => Ok(local_from(alloc, keyword, words)),
    }
}

/// The entry that a line says, without the LF that ends it.
#[tactic(auto, unfolding(crate::specs::Reading::entry_in))]
pub(crate) fn entry_of(alloc: Global, line: &[u8]) -> Result<Option<Entry>, NoMemory>
    ensures { IfOk result (λ e. e ≡ entry_of line.now) }
{
    let mut words = Pieces::new(line, b' ');
    let Some(first) = words.next() else {
        return Ok(None);
    };
    let Some(keyword) = keyword_at(first) else {
        return Ok(None);
    };
    entry_from(alloc, keyword, words)
}
