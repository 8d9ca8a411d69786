// The text of a proof.
ghost use Rattle.std.specs.Prelude.{◌≡◌, ◌++◌, ◌∷◌, [], IfOk, OnOk, map};
ghost use Rattle.equal_miter.specs.Proof.{differ_line, likeness_line, proof_text, values_behind};
ghost use Rattle.journal_text.specs.Pieces.{behind};
ghost use Rattle.journal_text.specs.Text.{bit, item_word};

use crate::likeness::Likeness;
use itoa::Buffer;
use journal_text::put_items;
use refutation::Tree;
use rm_base::{NoMemory, Vector};
use std::alloc::Global;

fn bit_byte(value: bool) -> u8
    ensures { result ≡ bit value }
{
    if value { b'1' } else { b'0' }
}

// Adds values.
fn put_bits(out: &mut Vec<u8>, values: &[bool]) -> Result<(), NoMemory>
    ensures { OnOk result (out.new.items ≡ out.old.items ++ map bit values.now) }
{
    for value in values {
        out.push(bit_byte(*value))?;
    }
    Ok(())
}

// Adds a blank and the values, if there are any.
fn put_values(out: &mut Vec<u8>, values: &[bool]) -> Result<(), NoMemory>
    ensures { OnOk result (out.new.items ≡ out.old.items ++ values_behind values.now) }
{
    if values.is_empty() {
        return Ok(());
    }
    out.push(b' ')?;
    put_bits(out, values)
}

// Adds the line of a word and a tree.
fn put_tree_line(out: &mut Vec<u8>, word: &[u8], tree: &Tree) -> Result<(), NoMemory>
    ensures { OnOk result (out.new.items ≡ out.old.items ++ (word.now ++ (behind 32 (map item_word tree.now) ++ 10 ∷ []))) }
{
    out.extend_from_slice(word)?;
    put_items(out, tree.items())?;
    out.push(b'\n')?;
    Ok(())
}

// Adds the line of what tells two models apart.
fn put_difference(out: &mut Vec<u8>, vector: &Vector) -> Result<(), NoMemory>
    ensures { OnOk result (out.new.items ≡ out.old.items ++ differ_line vector.now) }
{
    out.extend_from_slice(b"differ")?;
    put_values(out, vector.values())?;
    out.push(b'\n')?;
    Ok(())
}

// Adds the line of an answer.
fn put_likeness(out: &mut Vec<u8>, likeness: &Likeness) -> Result<(), NoMemory>
    ensures { OnOk result (out.new.items ≡ out.old.items ++ likeness_line likeness.now) }
{
    match likeness {
        Likeness::Same(tree) => put_tree_line(out, b"same", tree),
        Likeness::Differ(vector) => put_difference(out, vector),
        Likeness::Undecided(tree) => put_tree_line(out, b"spent", tree),
    }
}

/// The line that says of two models that they differ, and where the sources have these values: a digit for each source, in the
/// order of the first model's sources. It stands in a proof, and it is what the command puts.
pub fn difference_line(alloc: Global, vector: &Vector) -> Result<Vec<u8>, NoMemory>
    ensures { IfOk result (λ line. line.items ≡ differ_line vector.now) }
{
    let mut line = Vec::new(alloc);
    put_difference(&mut line, vector)?;
    Ok(line)
}

/// The text of a proof, which another program can check: the format and the budget of the search, then the answer with its
/// evidence. The items of a tree are spelled as in a journal.
pub fn write_proof(alloc: Global, budget: u32, likeness: &Likeness) -> Result<Vec<u8>, NoMemory>
    ensures { IfOk result (λ text. text.items ≡ proof_text budget likeness.now) }
{
    let mut buffer = Buffer::new();
    let mut text = Vec::from_slice(alloc, b"rambo-equal 1 ")?;
    text.extend_from_slice(buffer.format(budget).as_bytes())?;
    text.push(b'\n')?;
    put_likeness(&mut text, likeness)?;
    Ok(text)
}
